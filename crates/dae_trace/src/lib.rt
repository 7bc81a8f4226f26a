// Traces: the line of a step, the pick that a line names, and whether bytes are the lines of a run.
#![tactic(auto)]

pub use checking::check;
use dae_base::Queue;
use dae_machine::End;
pub use laws::{
    lines_name_their_picks, traces_have_no_fault, traces_tell_one_run, turns_make_a_trace,
};
pub use reading::read_line;
pub use stepping::line;
pub use text::TraceLine;

mod checking;
mod laws;
mod reading;
mod stepping;
mod text;

/// What a trace is: a run, with its end where the state after its last line is final; or none, since the line of this
/// number, from 1, isn't that of an enabled pick, or is no line; or a depth is below the budget, with the budget and the
/// depth, or memory was wanting.
#[derive(Clone, Copy, PartialEq, Eq, Debug)]
pub enum TraceAnswer {
    Run(Option<End>),
    NotARun(u32),
    BadLine(u32),
    Depth(Queue, u16, u16),
    Memory,
}
