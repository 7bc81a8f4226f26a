// Pieces of a text: what kinds there are, and how they are spelled.

use crate::constants::Constant;
use crate::faults::{Construct, TextFault};
use crate::signs::Sign;
use dae_base::Place;

/// Where a byte stands in its text: its offset from 0, and its place.
#[derive(Clone, Copy)]
pub struct TextSpot {
    pub offset: u32,
    pub place: Place,
}

/// What a piece of a text is.
#[derive(Clone, Copy)]
pub enum PieceKind {
    /// A blank or a comment.
    Blank,
    /// The end of a line.
    LineEnd,
    /// A name or keyword.
    Word,
    /// A constant: a number or a character.
    Constant(Constant),
    /// A string literal.
    Text,
    /// A sign of the grammar.
    Mark(Sign),
    /// A `#`.
    Hash,
    /// A piece that is refused if it is left as a token when all macros are replaced.
    Late(Construct),
    /// A piece with a fault in it. The text isn't read any further.
    Faulty(TextFault),
    /// A comment with a fault in it. The text isn't read any further.
    FaultyComment(TextFault),
}

/// What stands at the front of a text: its kind and length, and for a fault how far on it stands.
#[derive(Clone, Copy)]
pub struct Lexeme {
    pub kind: PieceKind,
    pub length: usize,
    pub at: usize,
}
