// The bounded queues of the machine. A load queue holds slots, which are reserved in order, filled by memory and taken
// in order. A store queue holds store addresses and data, which memory drains in pairs. A queue of words holds
// messages. Each is seen as a list with a depth. A full queue refuses, an empty one answers none, and no item is ever
// overwritten. Only the makers take memory.
#![tactic(auto)]

ghost use Rattle.std.specs.Prelude.{◌≡◌};
ghost use Rattle.dae_base.specs.Words.{overlap};

use dae_base::{LoadKind, Width};
pub use fifos::{Fifo, PlainFifo, RingFifo};
pub use slots::SlotQueue;
pub use stores::StoreQueue;

mod fifos;
pub mod laws;
mod slots;
mod stores;

/// A load that was issued: its number in its queue, counted from 0, its address and kind, the number of store
/// addresses that were pushed before it, and its value once memory filled it.
#[derive(Clone, Copy, PartialEq, Eq, Debug)]
pub struct Slot {
    pub number: u64,
    pub addr: u32,
    pub kind: LoadKind,
    pub stamp: u64,
    pub value: Option<u32>,
}

/// A store address that waits for its datum: its number, counted from 0 in the order of the pushes, and the bytes that
/// are to be written.
#[derive(Clone, Copy, PartialEq, Eq, Debug)]
pub struct StoreAt {
    pub number: u64,
    pub addr: u32,
    pub width: Width,
}

/// Whether two ranges of memory, each an address and a width, share a byte.
pub fn overlap(x: u32, wx: Width, y: u32, wy: Width) -> bool
    ensures { result ≡ overlap x wx y wy }
{
    u64::from(x) < u64::from(y) + u64::from(wy.bytes())
        && u64::from(y) < u64::from(x) + u64::from(wx.bytes())
}
