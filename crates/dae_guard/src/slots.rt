// Slots of the load queues, and which of them may be filled, whatever the words of the ranges are.
ghost use Rattle.std.specs.Prelude.{◌≡◌, ◌<◌, ◌≤◌, ◌^◌, length, map, not, nat_eq, take, false, true, None, IfSome};
ghost use Rattle.std.specs.List.{list_any, All, AllWithin, HoldsAt};
ghost use Rattle.dae_guard.specs.Waiting.{delays, fill_first, touches};
ghost use Rattle.dae_guard.specs.Kept.{aged, AreKept, cell_of, cells_of, IsKept, is_open, IsMade, Looked};

use crate::StoreCell;
use dae_base::LoadKind;
use dae_ranges::{Range, meet};

/// A slot: its address, its kind, whether it is filled, how many of the waiting stores are older, and how many of these,
/// from the oldest on, are known to have no byte of it. So its search for a store that meets it goes on where it ended.
#[derive(Clone, Copy)]
pub struct LoadSlot {
    pub addr: Range,
    pub kind: LoadKind,
    pub filled: bool,
    pub older: u16,
    pub clear: u16,
}

impl LoadSlot {
    /// Whether the slot and the store may have a byte in common.
    pub fn touches(&self, store: &StoreCell) -> bool
        ensures { result ≡ touches (cell_of self.now) store.now }
    {
        meet(store.addr, store.width, self.addr, self.kind.width())
    }

    /// Whether it waits without older stores, and may have a byte of this one.
    pub fn delays(&self, store: &StoreCell) -> bool
        ensures { result ≡ delays store.now (cell_of self.now) }
    {
        !self.filled && self.older == 0 && self.touches(store)
    }

    /// Whether it waits, and is known to meet no older store.
    pub fn is_open(&self) -> bool
        ensures { result ≡ is_open self.now }
    {
        !self.filled && self.clear == self.older
    }

    /// The same slot after the oldest store has drained.
    fn after_drain(&self) -> LoadSlot
        ensures { result ≡ aged self.now }
    {
        LoadSlot {
            addr: self.addr,
            kind: self.kind,
            filled: self.filled,
            older: self.older.saturating_sub(1),
            clear: self.clear.saturating_sub(1),
        }
    }

    /// How many of its older stores, from the oldest on, have no byte of it.
    fn count_clear(&self, stores: &[StoreCell]) -> u16
        requires { IsKept stores.now self.now }
        ensures kept { IsKept stores.now (record self.now { clear = result }) }
        ensures told { not (list_any (touches (cell_of self.now)) (take self.now.older stores.now))
            ≡ nat_eq result self.now.older }
    {
        for place in self.clear..self.older {
            if self.touches(&stores[place as usize]) {
                return place;
            }
        }
        self.older
    }
}

/// Whether one of the slots waits without older stores and may have a byte of the store.
pub fn any_delays(slots: &[LoadSlot], store: &StoreCell) -> bool
    ensures { result ≡ list_any (λ s. delays store.now (cell_of s)) slots.now }
{
    slots.iter().any(|slot| slot.delays(store))
}

/// Takes notice that the oldest store has drained.
pub fn age(slots: &mut [LoadSlot])
    ensures { slots.new ≡ map aged slots.old }
{
    for slot in slots.iter_mut() {
        let next = slot.after_drain();
        *slot = next;
    }
}

/// Looks for each slot whether it meets an older store.
fn look(slots: &mut [LoadSlot], stores: &[StoreCell])
    requires { AreKept stores.now slots.old }
    ensures { Looked stores.now slots.old slots.new }
{
    for slot in slots.iter_mut() {
        let clear = slot.count_clear(stores);
        slot.clear = clear;
    }
}

/// The first slot that waits and meets no older store, where this is known of all.
fn first_open(slots: &[LoadSlot]) -> Option<usize>
    ensures some { IfSome result (λ place. (place < length slots.now)
        × HoldsAt (λ s. is_open s ≡ true) slots.now place
        × AllWithin (λ s. is_open s ≡ false) slots.now 0 place) }
    ensures none { result ≡ None → All (λ s. is_open s ≡ false) slots.now }
{
    for (place, slot) in slots.iter().enumerate() {
        if slot.is_open() {
            return Some(place);
        }
    }
    None
}

/// Fills the first slot that may be filled, and says whether there was one.
pub fn fill(slots: &mut [LoadSlot], stores: &[StoreCell]) -> bool
    requires { AreKept stores.now slots.old }
    ensures made { IsMade result (fill_first stores.now (cells_of slots.old))
        (cells_of slots.old) (cells_of slots.new) }
    ensures kept { AreKept stores.now slots.new }
{
    look(slots, stores);
    match first_open(slots) {
        None => false,
        Some(place) => {
            slots[place].filled = true;
            true
        }
    }
}
