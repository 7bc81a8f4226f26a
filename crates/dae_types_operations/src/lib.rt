// The steps of operators: at each node the rules that are asked of its operands, and the typed expression that is written where
// none is broken (C90 6.3). Trees are gone through above.
#![tactic(auto)]

pub use choices::{comma, conditional};
pub use objects::{assign, member};
pub use operands::{binary, index};
pub use prefixes::{postfix, prefix};

mod choices;
mod objects;
mod operands;
mod prefixes;
