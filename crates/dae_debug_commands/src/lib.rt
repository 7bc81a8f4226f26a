// The commands of a debugger, each with one spelling, and the commands that the lines of a script spell.
#![tactic(auto)]

use dae_base::Side;
use dae_cli_options::Shown;
use dae_machine::Pick;
pub use reading::read_command;
pub use scripts::read_script;

mod numbers;
mod reading;
mod scripts;

/// Where a breakpoint is: a line of a file, counted from 1, in the code of a side. Files count from 0 in the image's names.
#[derive(Clone, Copy, PartialEq, Eq)]
pub struct Breakpoint {
    pub side: Side,
    pub file: u32,
    pub line: u32,
}

/// What a session is told to do: to take a step; to take up to so many steps, round by round; to set a breakpoint; to show the
/// registers of a processor, the lengths of the queues, the addresses of the stores that wait, or bytes of the common memory; or
/// to end.
#[derive(Clone, Copy, PartialEq, Eq)]
pub enum DebugCommand {
    Step(Pick),
    Go(u32),
    Break(Breakpoint),
    Registers(Side),
    Queues,
    Stores,
    Memory(Shown),
    Quit,
}
