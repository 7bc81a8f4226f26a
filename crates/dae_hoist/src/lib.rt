// Invariants of loops: what doesn't change in a loop is computed before it. Before a loop there stand variables that nothing reads
// (its preheader); such a variable gets a value that is computed in the loop, of variables which the loop doesn't set. The form does
// the same. Then the value is a common subexpression of the loop, and goes out of it.
#![tactic(auto)]

pub use theorems::{forms_are_hoisted, hoisting_keeps_sizes};
pub use whole::{HoistedForm, hoist_invariants};

mod candidates;
mod events;
mod finding;
mod hoisting;
mod keeping;
mod plan;
mod theorems;
mod whole;
