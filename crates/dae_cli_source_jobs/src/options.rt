// How source files are compiled and run.
use dae_cli_drive::RunOptions;
use dae_compile::Options;

/// How source files are compiled, and how their image is run.
#[derive(Drop)]
pub struct SourceOptions {
    pub compiled: Options,
    pub run: RunOptions,
}
