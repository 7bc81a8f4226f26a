// What a report counts of a structured form, function by function: the loads of either processor, the stores, and the
// conditions that either decides. It takes a form and a table of classes, and promises the tallies that dae_ir defines.
// Nothing fails but for want of memory: whether 32 bits count what there is is tested before.
#![tactic(auto)]

pub use fitting::can_count;
pub use lines::report_line;
pub use reports::{FunctionReport, Report, count};

mod classes;
mod counts;
mod fitting;
mod lines;
mod reports;
mod walk;
