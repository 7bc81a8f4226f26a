// The job of assembling a text: its file is fetched, and the image that it says is kept. It takes the name of the file and the
// name to keep under, and answers with the status.
#![tactic(auto)]

pub use assembling::asm;

mod assembling;
