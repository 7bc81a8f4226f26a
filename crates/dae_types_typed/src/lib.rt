// A typed file: what a check of a file gives, and what the joiner takes. No tree is rewritten later: a function's body names
// objects and functions by their numbers in its file, and the joiner says what these mean.
#![tactic(auto)]

pub use files::{Datum, FileParts, TypedFile, TypedFunction};
pub use lookups::{is_function, is_object, same_entity};

mod files;
mod lookups;
