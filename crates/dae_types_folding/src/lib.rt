// Typed expressions in memory: what is known of them before the program runs, how operators fold numbers (C90 6.4), and the
// trees of conversions, scaled indices and operations (C90 6.2 and 6.3). Nothing here looks at what is declared.
#![tactic(auto)]

pub use knowing::{
    based, is_zero, known_and, known_as, known_branch, known_by, known_further, known_not,
    known_or, moved_back, moved_on, scaled_known,
};
pub use operators::{
    Combination, WordOperation, apply, compare, deed_of, divides, is_comparison, is_difference,
    is_equality, is_shift, is_sum, operator_of, signedness_for, type_for,
};
pub use shapes::{common, load_kind, pointee, promoted};
pub use trees::{changed, difference_of, further, operated, scaled, sum_of, target_of, tree_by};
pub use value::{TypedValue, boxed};

mod knowing;
mod operators;
mod shapes;
mod trees;
mod value;
