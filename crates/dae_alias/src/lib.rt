// Symbolic addresses, and the reuse of loads: what two accesses have in common, by what their addresses were computed from;
// the form in which a load that repeats an earlier one is a copy; and in specs/ what both mean. Reuse keeps a form's meaning,
// leaves no second load in a stretch, and gives the access side nothing more to load or to decide.
#![tactic(auto)]

pub use addresses::{Base, Relation, SymAddr};
pub use errors::ReuseError;
pub use relations::relation;
pub use reusing::reuse;
pub use theorems::{
    forms_are_reused, no_second_is_left, relation_is_exact, reuse_adds_nothing,
    reuse_keeps_meaning, reuse_keeps_order, reuse_keeps_scope, reuse_stays_small,
};

mod addresses;
mod errors;
mod held;
mod loads;
mod marking;
mod relations;
mod reusing;
mod stretch;
mod tables;
mod theorems;
mod turning;
mod walking;
