// What the walk over a function is told, and what it has made so far.

use dae_base::Side;
use dae_ir::{Part, Step};
use std::alloc::Global;

/// Whose stream is made, of which function by its place in the form, and how many loads for E, and how many copies, a
/// group may hold.
#[derive(Clone, Copy)]
pub struct Task {
    pub side: Side,
    pub function: usize,
    pub cap: u8,
}

/// Where statements stand: outside of regions, in code that both processors walk, or inside of one processor's region.
#[derive(Clone, Copy, PartialEq, Eq)]
pub enum Zone {
    Outside,
    Region,
}

/// The steps of a list so far, the group so far, and the number of groups before it.
#[derive(Drop)]
pub struct Stretch {
    pub alloc: Global,
    pub steps: Vec<Step>,
    pub group: Vec<Part>,
    pub number: u64,
}
