// The bounds of words, and what operations on words whose bounds are known make of them; and words that are affine ones of
// variables. Nothing fails.
#![tactic(auto)]

pub use affine::{combined_affine, difference_affine, same_affine};
pub use bounds::{closer, greater_width, is_bounded, single};
pub use results::{any, combined_bounds, extended_bounds, flag_bounds};

mod affine;
mod bounds;
mod results;
