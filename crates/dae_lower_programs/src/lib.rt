// Statements of typed programs as the structured form, each written behind what was before it, with expressions as what
// holds their values.
#![tactic(auto)]

pub use continuing::arms_continue;
pub use initialising::{put_all, zero};
pub use printing::print;
pub use programs::lower;
pub use statements::make_statements;
pub use switching::{begin_switch, do_arm, end_switch};

mod blocks;
mod continuing;
mod functions;
mod initialising;
mod printing;
mod programs;
mod statements;
mod switching;
