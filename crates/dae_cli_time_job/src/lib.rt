// The job `time`: an image is run tick by tick under stated costs, and notes tell how many ticks there were and in how many of
// them each processor waited.
#![tactic(auto)]

pub use images::time_image;
pub use job::time;
pub use options::TimeOptions;

mod driving;
mod images;
mod job;
mod lines;
mod options;
