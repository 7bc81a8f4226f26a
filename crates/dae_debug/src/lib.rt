// A debugger's session: a machine with breakpoints, and what it replies to each command. All its memory is taken before the first
// command.
#![tactic(auto)]

pub use breaks::Breaks;
pub use reply::Reply;
pub use session::Session;

mod breaks;
mod going;
mod reply;
mod session;
mod texts;
