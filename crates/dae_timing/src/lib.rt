// Timed runs: a machine with a clock, which makes in each tick at most a drain, a fill of each load queue and a step of
// each processor, under costs of loads, products and quotients. A tick is a unit of these costs, and says nothing of time.
#![tactic(auto)]

pub use laws::{print_changes_no_tick, ticks_are_few, ticks_go_on, ticks_print_once, ticks_run};
pub use timed::{Tick, TickState, Timed};

mod clockwork;
mod laws;
mod prices;
mod ripe;
mod timed;
mod waits;
