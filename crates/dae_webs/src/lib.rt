// Webs: the definitions and reads of a variable that depend on one another. In the form that is made here each web is a variable
// of its own, so that a processor gets those webs alone that it needs. Which webs there are is found by code of which nothing is
// proved but that it is safe; the walk that renames accepts what is right, and leaves a function as it is else.
#![tactic(auto)]

pub use theorems::{forms_are_renamed, renaming_keeps_sizes};
pub use whole::rename_webs;

mod extents;
mod finding;
mod forgetting;
mod liveness;
mod plan;
mod reads;
mod renaming;
mod theorems;
mod whole;
