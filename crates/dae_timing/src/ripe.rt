// Which slot of a load queue is filled in a tick.
ghost use Rattle.std.specs.Prelude.{◌≡◌, ◌+◌, IfSome, IsSome, length, nat_lt};
ghost use Rattle.dae_machine.specs.Machine.{IsCounted, step};
ghost use Rattle.dae_machine.specs.Memory.{loads_of};
ghost use Rattle.dae_timing.specs.Clocks.{load_queue};
ghost use Rattle.dae_timing.specs.Held.{RiseTo};
ghost use Rattle.dae_timing.specs.Ticks.{first_ripe};

use dae_base::{Queue, Side};
use dae_machine::{Machine, Pick};
use dae_queues::{Fifo, RingFifo};

/// The fill of the lowest slot of a side's load queue that is enabled, among those that were issued at least `load` ticks
/// before. No fill of a slot before the first unfilled one is enabled, and what stands behind a slot that is too young is
/// no older, so that only the slots between are looked at.
pub fn first_ripe(
    machine: &Machine,
    issues: &RingFifo<u64>,
    side: Side,
    load: u16,
    now: u64,
) -> Option<Pick>
    requires each { length issues.now.held ≡ length (loads_of side machine.now.state.queues).slots }
    requires rise { RiseTo now issues.now.held }
    requires counted { IsCounted machine.now.state }
    ensures pick { result ≡ first_ripe machine.now.setup machine.now.state side load now
        (loads_of side machine.now.state.queues).slots issues.now.held }
    ensures enabled { IfSome result
        (λ pick. IsSome (step machine.now.setup machine.now.state pick)) }
{
    let queue = load_queue(side);
    for at in machine.first_unfilled(side)..machine.len(queue) {
        let (Some(slot), Some(tick)) = (machine.entry(queue, at), issues.at(at)) else {
            return None;
        };
        if is_young(tick, load, now) {
            return None;
        }
        let pick = Pick::Fill(side, slot.number);
        if machine.enabled(pick) {
            return Some(pick);
        }
    }
    None
}

/// The queue that a side takes its loads from.
fn load_queue(side: Side) -> Queue
    ensures { result ≡ load_queue side }
{
    match side {
        Side::A => Queue::Al,
        Side::E => Queue::Ld,
    }
}

/// Whether fewer than so many ticks passed since this one.
fn is_young(tick: u64, load: u16, now: u64) -> bool
    ensures { result ≡ nat_lt now (tick + load) }
{
    now < tick || now - tick < u64::from(load)
}
