// The whole compiler: from the texts of several files to the image of the program that they are. A program becomes
// its form, the form a pair of streams, and they the image. The image keeps the program's meaning, in every order
// of steps and at all depths that reach its budget; a refusal names the first stage that fails, and its cause
// there.
#![tactic(auto)]

pub use compiling::compile;
pub use dae_accept::CompileError;
pub use dae_cli_options::Options;
pub use generating::{Compiled, generate};
pub use programs::compile_program;

mod compiling;
mod generating;
mod passing;
mod programs;
