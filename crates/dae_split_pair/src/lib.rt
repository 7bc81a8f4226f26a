// The split of a whole structured program. It takes a form, and says whether it is well made; and of one that is, it gives
// the classes of its variables, and the pair of streams for the two processors of a decoupled machine, with the numbers of
// items that each queue must hold for them. It promises that the pair in canonical order
// does what the form does, and that the numbers are enough for each round. Nothing fails but for want of memory.
#![tactic(auto)]

pub use depths::budget;
pub use laws::groups_are_small;
pub use program::{Decoupled, decouple};
pub use scope::is_scoped;

mod depths;
mod ends;
mod kinds;
mod laws;
mod loops;
mod names;
mod program;
mod scope;
mod tally;
mod uses;
