// Which sets of typed files join to one program, and the first cause why others don't: what their objects and functions
// are to each other, and whether their types are the same (C90 5.1.1.1, 6.1.2.2, 6.1.2.6 and 6.7).
#![tactic(auto)]

pub use causes::cause_by;
pub use clashes::is_main;
pub use errors::{Clash, JoinError};
pub use givers::add_identity;
pub use identities::Identity;
pub use laws::outlines_tell_causes;
pub use linkage::{external_name, refers, same_name};
pub use numbers::{NumberedRows, number_of, numbers_of};
pub use rows::{FileRow, rows_of};

mod across;
mod causes;
mod clashes;
mod couples;
mod errors;
mod givers;
mod identities;
mod laws;
mod linkage;
mod numbers;
mod rows;
