// How a timed run is made.
ghost use Rattle.dae_cli_options.specs.Ranges.{IsFromTo};

use dae_cli_options::{Costs, RunOptions};

/// How a timed run is made: the options of a run, of which the depths and what is shown at the end are used; what loads,
/// products and quotients cost; and at most how many ticks are made, which are 1 to 100,000,000,000.
#[derive(Drop)]
pub struct TimeOptions {
    pub run: RunOptions,
    pub costs: Costs,
    pub ticks: u64,
    pub ghost in_range: { IsFromTo 1 100000000000 ticks },
}
