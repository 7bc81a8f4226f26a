// Conditions are threaded. What `&&` and `||` give is set by an If at each of its ends, and tested by the If behind it. Where this
// doesn't make the code larger, the lists of that condition stand at those ends in its place: so each test leads where the whole
// condition would, and what it gave is read no more. The walk also takes checks before the sums that they check: so one comparison
// does for them, and the sum stands beside the access that reads it. And where the second list of an If leads elsewhere, the first
// one comes behind the If.
#![tactic(auto)]

pub use theorems::{forms_are_threaded, threading_adds_nothing};
pub use whole::thread_conditions;

mod checking;
mod copying;
mod deciding;
mod flattening;
mod leading;
mod theorems;
mod threading;
mod whole;
