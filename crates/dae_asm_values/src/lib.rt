// The numbers of an assembly text: those of its head and the words of its codes, each in the range of
// its field, or the first line with one that is not.
#![tactic(auto)]

pub use code::{CodeFault, code_of, count_words};
pub use head::{budget_of, calls_of, entry_of, memory_of, private_of};

mod code;
mod head;
