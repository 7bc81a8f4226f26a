// The job `debug`: the commands of a script on the machine of an image, with the reply to each. It takes the names of its files,
// and answers with the status.
#![tactic(auto)]

pub use job::{DebugFiles, debug};

mod job;
mod opening;
mod serving;
