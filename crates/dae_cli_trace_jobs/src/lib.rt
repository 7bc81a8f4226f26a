// The jobs about traces: `trace` puts the line of each step of an image, and `check` tells whether a text is a trace of an image.
// They take the names of their files, and answer with the status.
#![tactic(auto)]

pub use checking::check;
pub use tracing::trace;

mod checking;
mod tracing;
