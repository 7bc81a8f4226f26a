// The blocks of instructions of a stream's actions, the code of structured actions and of functions that is made of them,
// and that this code does the stream. Definitions and laws alone: the theorems are the contracts of functions that do
// nothing.
#![tactic(auto)]

pub use laws::{code_begins, code_does, code_is_in_range};

mod laws;
