// The lines of an assembly text behind its codes: data, marks and names, each in the bounds of its
// field, or the first line that is not.
#![tactic(auto)]

pub use data::content_of;
pub use faults::ValueFault;
pub use marks::{TextCounts, marks_of};
pub use names::{count_names, names_of};

mod data;
mod faults;
mod marks;
mod names;
mod rows;
