// What serves every job: answers, whose puts are made in their order or up to the first that fails; the fetch of a file;
// the line with an image's budget, and why no machine was opened; and the run of an image, turn by turn, with its notes. All
// memory is taken before the first step.
#![tactic(auto)]

pub use answers::one_answer;
pub use both::image_and_text;
pub use dae_cli_options::{OptionValues, RunOptions, Shown};
pub use driving::{Driven, drive};
pub use ending::{note_end, status_of, tell_end};
pub use executing::exec;
pub use fetch::fetched;
pub use image::{put_budget, run_image, tell_refusal};
pub use images::{image_of, image_of_file};
pub use keeping::{keep_bytes, kept_line};
pub use line::NoteLine;
pub use notes::{budget_line, depth_line, ended_line, image_line, steps_line, trapped_line};
pub use stop::{Stop, noted};
pub use texts::text_of_file;

mod answers;
mod both;
mod driving;
mod ending;
mod executing;
mod fetch;
mod image;
mod images;
mod keeping;
mod line;
mod notes;
mod stop;
mod texts;
