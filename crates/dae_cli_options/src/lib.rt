// The options of jobs and the names of their files, each with its range: of a compilation, of a run, of a machine alone, and of a
// timed run. Plain data, of which the words, the compiler and the jobs speak. Nothing here takes memory, and nothing fails.
#![tactic(auto)]

pub use options::{Costs, DepthOptions, OptionValues, Options, RunOptions, Shown};

mod options;
