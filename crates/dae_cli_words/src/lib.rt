// What the words after the program's name ask for: a job with its options and the names of files. It takes the words, and gives the
// job that they spell, with each option's value in its range, or None exactly where they spell none. Want of memory is the one error.
#![tactic(auto)]

pub use job::{Job, spelled_job};

mod command;
mod job;
mod numbers;
mod parts;
mod values;
