// What lowering writes: statements of the structured form behind one another, in single items.
#![tactic(auto)]

pub use later::{Change, Later};
pub use maker::{Assignee, Condition, Increment, Location, Lvalue, Maker, test_of};

mod later;
mod maker;
