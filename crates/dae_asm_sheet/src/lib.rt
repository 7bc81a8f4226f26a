// The items of an assembly text in order: each with the number of its line, and by their places.
#![tactic(auto)]

pub use rows::{Row, rows_of};
pub use sheet::{Sheet, sheet_of};

mod rows;
mod sheet;
