// The tokens of a text of C: its lines joined, cut into the longest pieces, with the names of macros replaced and the
// adjacent literals joined, or the first cause in reading order why the text is refused. The room is what is left of the
// limits on all texts of a job: an answer lowers it by what was used, and a refusal leaves it.
#![tactic(auto)]

pub use dae_tree::{LexError, Room};
pub use reading::tokens;

mod directives;
mod finish;
mod macros;
mod numbers;
mod output;
mod reading;
mod replace;
