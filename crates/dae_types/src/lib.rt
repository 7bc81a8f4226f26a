// The type checker: a file without a broken rule becomes a typed file, and another is refused by a rule that it breaks, at its
// place.
#![tactic(auto)]

pub use checking::check;
pub use layouts::{align_of, member, size_of};

mod assembling;
mod checking;
mod layouts;
mod names;
