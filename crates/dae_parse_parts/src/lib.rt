// Parts of a text that a parser reads: a part is a tree with the places of its first nodes at each depth. It takes parts, and the
// place of a node over them. It gives the part of the node, of two parts side by side, and of a list with a part more; and of signs
// and operators it gives what they are and how they bind, as the tables have it. It promises the places of the first nodes down to
// the greatest depth, and the tree exactly where no node in it is too deep. Nothing fails but for want of memory.
#![tactic(auto)]

pub use dae_tree::{ASSIGNMENT, CAST, COMMA, CONDITIONAL, POSTFIX, PRIMARY, UNARY};
pub use depths::{GREATEST_DEPTH, TreeDepths};
pub use operators::{begun_by, left_level, operand_level, prefix_operator, reach, strength, under};
pub use reading::{Read, beside, flat, longer, node, over, tree_or_depth, unbox};
pub use scope::{Binding, Scope};

mod depths;
mod operators;
mod reading;
mod scope;
