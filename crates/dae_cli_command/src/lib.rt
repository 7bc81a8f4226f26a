// The work of the program, over any shelf of files and any two sinks: it takes the words after the program's name, does the job
// that they spell, and gives the status. An answer is due by the words and by what the shelf tells, and its puts are given in their
// order, or up to the first that fails.
#![tactic(auto)]

pub use top::{answer_calmly, dae_main};

mod top;
