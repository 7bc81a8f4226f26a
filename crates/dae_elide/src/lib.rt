// Checks of places that are known to pass leave a form: in place of each the variable is set to itself, which needs no code. So
// fewer messages tell that checks have passed. Of others whose address is known to be aligned the first byte is left, so that their
// message is heard in one instruction.
#![tactic(auto)]

pub use checking::form_checks_no_place;
pub use theorems::{checks_are_elided, elision_keeps_sizes};
pub use whole::elide_checks;

mod checking;
mod eliding;
mod likes;
mod theorems;
mod whole;
