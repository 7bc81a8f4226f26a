// Words that set options and then name files: whether they are such words, and what clap reads in them. Nothing here knows
// which options there are, or what their values mean. Want of memory is the one error.
#![tactic(auto)]

pub use matching::matches_of;
pub use testing::are_settings;

mod matching;
mod testing;
