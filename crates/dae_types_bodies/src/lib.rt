// The steps of statements and local objects: what each breaks, and else what is written for it (C90 6.5.7 and 6.6). Trees are
// gone through above.
#![tactic(auto)]

pub use jumps::{break_out, go_on, return_nothing, return_value, test};
pub use naming::names_variable;
pub use scalars::{
    begin_local, initialise_aggregate, initialise_scalar, offset_of_local, type_of_local,
};
pub use sequences::{alone, append};
pub use switches::{Arming, add_case, add_default, add_statements};

mod jumps;
mod naming;
mod scalars;
mod sequences;
mod switches;
