// Where no run of a pair of codes is stuck, whatever common memory holds. A node stands for many states of the machine; a
// walk over nodes follows the first pick that is enabled in all of them, from the opened node and from the nodes of a
// certificate. Where all walks end at final nodes or at nodes of the certificate, the pair can't get stuck. What waits in the
// queues of a node is here as code keeps it, too.
#![tactic(auto)]

pub use laws::{one_step_is_sound, walks_guard};
pub use queues::{RangeQueues, depth_of};
pub use slots::LoadSlot;

mod laws;
mod queues;
mod slots;

use dae_base::Width;
use dae_ranges::Range;

/// A store address that waits: where it may lie, and how many bytes it writes.
#[derive(Clone, Copy)]
pub struct StoreCell {
    pub addr: Range,
    pub width: Width,
}
