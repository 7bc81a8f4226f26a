// From the texts of several files to the program that they are: all are cut into tokens, then all parsed, then the
// types of all checked, and then they are joined. The first refusal in this order counts. Which texts are accepted,
// and for what others are refused, is defined in specs/Accepted.antt; which files a program comes from in specs/Origins.antt.
#![tactic(auto)]

pub use accepting::accept;
pub use error::CompileError;
pub use laws::{accepted_have_no_fault, one_cause_is_told, read_are_within, texts_are_read_once};
pub use reading::{FileError, read_files};

mod accepting;
mod error;
mod laws;
mod reading;
