// Common subexpressions: values that are computed again though a variable holds them already. In the form that is made here a copy
// stands where such a value was computed, and what a copy was taken from stands where the copy was read, so that most copies are
// read nowhere. Both only within what processors need alike, so that neither needs more than before. A variable that is set to itself is
// computed again from the sum that it holds, so that an access behind it can add the number of the sum.
#![tactic(auto)]

pub use self_sets::form_has_no_self_set;
pub use theorems::{commoning_keeps_counts, forms_are_commoned};
pub use whole::eliminate_commons;

mod commoning;
mod copies;
mod equations;
mod highest;
mod known;
mod needs;
mod self_sets;
mod setting;
mod sums;
mod theorems;
mod whole;
