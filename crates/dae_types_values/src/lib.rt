// The steps of names, constants, conversions and calls: at each node the rules that are asked of its parts, and the typed
// expression that is written where none is broken (C90 6.3). Trees are gone through above.
#![tactic(auto)]

pub use calls::{add_argument, begin_call, call, routine_of};
pub use converting::{cast, convert, fits, is_null};
pub use names::{constant_number, literal, name};
pub use reading::{integer, scalar, sizeof, value};

mod calls;
mod converting;
mod names;
mod reading;
