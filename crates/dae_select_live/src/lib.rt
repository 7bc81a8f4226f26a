// Sets of variables, and which variables are live before a list of actions: those that some path reads before it sets
// them. It takes the actions of one function of a stream, and what is live where they lead. Nothing fails but for want of
// memory.
#![tactic(auto)]

pub use leaving::only_leaves;
pub use live::{live_before, live_before_action, live_with_branch};
pub use reads::set_by;
pub use set::LiveSet;
pub use turns::{Turns, live_at_turn, tell_turns};

mod leaving;
mod live;
mod reads;
mod set;
mod turns;
