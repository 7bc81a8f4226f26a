// The order of the items of an assembly text: its lines one by one, and whether the items that they
// say stand in the order of an image's text.
#![tactic(auto)]

pub use lines::{Lines, Next};
pub use order::order_of;

mod lines;
mod order;
