// Linking: from the two streams of a pair the image of the program, with its budget, its data, the names of its files and
// the marks of its lines. Its contract is that the image does the form that the pair was split from, in every order of steps.
#![tactic(auto)]

pub use error::CodeError;
pub use linking::link;
pub use side::{SideCode, side_code};

mod error;
mod homes;
mod leaf_codes;
mod linking;
mod marks;
mod placing;
mod reaching;
mod residents;
mod side;
mod words;

/// The most words of a code.
pub const MOST_WORDS: u32 = 33_554_432;

/// The most words of a private memory.
pub const MOST_PRIVATE: u32 = 268_435_456;

/// The most words of one private frame.
pub const MOST_FRAME: u32 = 67_108_863;
