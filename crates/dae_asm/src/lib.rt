// The assembler of images: a text of items in their order, each on a line of its own, to the image
// that it says, or the first line of a text that says none. The order of the lines is looked at
// first, then the labels, then the numbers.
#![tactic(auto)]

pub use assembly::assemble;
pub use errors::AsmError;

mod assembly;
mod errors;
mod head;
mod image;
