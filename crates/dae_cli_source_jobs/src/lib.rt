// The jobs of source files, which are compiled: `compile` keeps their image, `run` runs it, `report` puts the report of their form on
// out, and `big` runs the image of a source that a number makes. Each answers with the status; none stands on another, but each on
// `sources`.
#![tactic(auto)]

pub use compile::compile_files;
pub use lines::{refusal_line, too_long_line};
pub use numbered::big;
pub use options::SourceOptions;
pub use reporting::report;
pub use running::run;

mod compile;
mod fetching;
mod lines;
mod numbered;
mod options;
mod reporting;
mod running;
mod sources;
