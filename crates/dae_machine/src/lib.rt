// The whole machine: two processors, their queues and the common memory. One step is an instruction of a processor, the
// fill of a load, or the drain of a store. A machine is opened from an image and then takes no more memory. Clauses see
// it as a state, and the laws of all its runs are contracts here too.
#![tactic(auto)]

use dae_base::{Piece, Queue, Side, Width};
pub use laws::{
    deeper_runs_too, numbers_stay, one_run_tells_all, printing_is_apart, quiet_is_last, runs_meet,
    schedules_run, some_runs_tell_all, steps_commute, walks_run,
};
pub use machine::Machine;
pub use turn_words::Words;

mod laws;
mod machine;
mod open;
mod turn_words;

/// Who moves next: a processor, the memory that fills the slot of this number for a side, or the memory that drains the
/// next store. `Fill(Side::E, n)` fills slot n of the queue that E takes from.
#[derive(Clone, Copy, PartialEq, Eq, Debug)]
pub enum Pick {
    A,
    E,
    Fill(Side, u64),
    Drain,
}

/// Why a machine isn't opened: the queue whose depth is below the program's budget, with the budget and the depth, or
/// want of memory.
#[derive(Clone, Copy, PartialEq, Eq, Debug)]
pub enum OpenError {
    DepthBelow(Queue, u16, u16),
    Memory,
}

/// How a machine ended, by the halt of the execute processor: with a status, or by a trap with its code.
#[derive(Clone, Copy, PartialEq, Eq, Debug)]
pub enum End {
    Ended(u32),
    Trapped(u32),
}

/// Why no pick is enabled: both processors halted and no store waits, or else the machine is stuck.
#[derive(Clone, Copy, PartialEq, Eq, Debug)]
pub enum Rest {
    Final(End),
    Stuck,
}

/// What a turn came to: the step of this pick, which printed this piece, or no step.
#[derive(Drop)]
pub enum Turn {
    Stepped(Pick, Piece),
    Final(End),
    Stuck,
}

/// An item of a queue: of a load its number, address, width and value, of a store address its number, address and width,
/// and else the word alone, with 0, 0 and four bytes.
#[derive(Clone, Copy, PartialEq, Eq, Debug)]
pub struct Entry {
    pub number: u64,
    pub addr: u32,
    pub width: Width,
    pub value: Option<u32>,
}

/// Who is preferred in each turn: each kind of pick in its turn, one kind always, or the kind and the fill that the
/// numbers of a generator select from this seed.
#[derive(Clone, Copy, PartialEq, Eq, Debug)]
pub enum Schedule {
    Round,
    A,
    E,
    Fill,
    Drain,
    Seed(u32),
}
