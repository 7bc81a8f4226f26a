// The walk of the guard, over nodes as the code keeps them, and what it says of a pair of codes: that no run is stuck,
// whatever common memory holds, or the first rule of certificates that is broken.
#![tactic(auto)]

pub use guarding::{GuardAnswer, guard};

mod guarding;
mod instructions;
mod kinds;
mod results;
mod sides;
mod walking;
