// The labels of the codes of an assembly text: where each is defined, and the first line that defines
// one a second time or uses one that its side does not define.
#![tactic(auto)]

pub use definitions::{LabelDefinition, Labels, definition_of, labels_of};
pub use faults::label_fault;

mod definitions;
mod faults;
