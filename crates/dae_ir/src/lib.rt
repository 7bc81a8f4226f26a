// The structured form of a program, and the pair of streams that it is split into for the two processors of a decoupled
// machine (Smith, "Decoupled Access/Execute Computer Architectures"). Types, copies of items and the reasons why a form
// stays, and in specs/ what they mean: the form, the classes of its variables, its groups and regions, what the pair does
// in canonical order, which streams are a form's pair, what an action does, sizes, and a pair's budget.
#![tactic(auto)]

pub use form::{Check, Function, Ir, Item, Operand, Statement, Test, Value};
pub use stream::{
    Action, Argument, Branch, Class, Failure, Last, Mark, Pair, Part, Step, Stream, StreamFunction,
};
pub use theorems::{fewer_loads, going_takes_turns, memory_kept, more_turns};
pub use unchanged::NotChanged;

mod form;
mod stream;
mod theorems;
mod unchanged;
