// Expressions as statements of the structured form: their value in an operand, their effects, or a condition. A variable is
// copied where a later part of its full expression assigns it, which numbers tell: how often each variable is assigned by
// what is still to come. So each node is met a fixed number of times, but the last part of `?:`, which is met two times
// more.
#![tactic(auto)]

pub use lowerer::Lowerer;

mod assignments;
mod expressions;
mod leaves;
mod lowerer;
mod whole;
