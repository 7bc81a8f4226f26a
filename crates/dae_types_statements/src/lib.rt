// Going through the statements of a function's body, up to the first rule that is broken: the typed statements that it comes to
// (C90 6.6). Declarations and expressions stand below, definitions of functions above.
#![tactic(auto)]

pub use statements::block;

mod evaluating;
mod making;
mod statements;
mod values;
