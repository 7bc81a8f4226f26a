// A test that each variable of a typed function is set before it is read: flags of the variables that are set, from statement
// to statement. It goes once through the functions; where ways part it copies the flags.
#![tactic(auto)]

pub use doubts::Doubt;
pub use ready::see_ready;

mod doubts;
mod flags;
mod reads;
mod ready;
