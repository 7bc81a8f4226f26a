// From the bytes of a text to its lines of pieces: the lines that a backslash splits are joined, what stands at the front of
// the bytes has a form and a length or is the first fault in them, the text is cut into its longest pieces, and of each line
// of pieces it is said what it is. Each function computes the definition of its name; joining and cutting alone take memory.
#![tactic(auto)]

pub use directives::{ReadLine, blank_kind, fault_at, line_length, read_line};
pub use lines::{Joined, join_lines};
pub use literals::{append_values, values_length};
pub use numbers::{number_kind, read_constant};
pub use pieces::{SourcePiece, cut_pieces};
pub use tables::{find_keyword, find_refused_word};

mod bytes;
mod directives;
mod forms;
mod lines;
mod literals;
mod numbers;
mod pieces;
mod tables;
