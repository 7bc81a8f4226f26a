// One processor of the decoupled machine, and the queues that it shares with the other one. A processor does one
// instruction at a time over any queues that the trait `Ports` describes. A step takes no memory: it is done whole, or
// it changes nothing and says why.
#![tactic(auto)]

use dae_base::{Piece, Queue};
pub use dae_encode::{Fault, Halt};
pub use memory::{load, store};
pub use ports::Ports;
pub use processor::Core;
pub use queues::Queues;

mod code;
mod memory;
mod ports;
mod processor;
mod queues;

/// What came of a step: it was done and printed this piece, which may be empty, or the processor waits for a queue, was
/// halted before, or has a fault. In the last three cases nothing changed.
#[derive(Drop)]
pub enum CoreAnswer {
    Did(Piece),
    Waits(Queue),
    Halted,
    Faulted(Fault),
}
