// Load queues: slots reserved in order, filled in any order, taken in order.

ghost use Rattle.std.specs.Prelude.{◌≡◌, ◌<◌, ◌^◌, false, List, [], drop, filter, length, nat_lt, is_some, if◌then◌else◌, IfOk, slice_get, slice_set, Some};
ghost use Rattle.std.specs.List.{list_any};
ghost use Rattle.circular_buffer.specs.Buffer.{buffer};
ghost use Rattle.dae_queues.specs.Lists.{first_unfilled, first_value, with_slot, without_front, waiting, waits, with_value, no_slots, can_be_filled, holds};
ghost use Rattle.dae_queues.specs.declared.StoreAt.{StoreAt};
ghost use Rattle.dae_queues.specs.Rings.{at_place, fillable_at, has_value, is_held, AreFilled};

use crate::{Slot, StoreAt, StoreQueue, overlap};
use circular_buffer::HeapCircularBuffer;
use dae_base::LoadKind;
use std::alloc::{AllocError, Global};
use std::marker::Model;

/// A load queue: the slots that were reserved and not yet taken, oldest first, and how many it can hold. A slot counts
/// against the depth from its reservation until it is taken. Beside them stands how many slots at the front have their
/// value, so that no walk for waiting slots begins before the first of these.
#[derive(Drop)]
pub struct SlotQueue {
    ring: HeapCircularBuffer<Slot>,
    taken: u64,
    reserved: u64,
    filled: u16,
}

impl Model for SlotQueue {
    ghost use Rattle.std.specs.Prelude.{◌<◌, ◌^◌, map};
    ghost use Rattle.dae_queues.specs.Numbers.{CountsUp};
    ghost use Rattle.dae_queues.specs.Rings.{SlotRing, AreFilled};

    ghost Value = { SlotRing };

    ghost view = { λ q.
        record {
          held = record { taken = q.taken; reserved = q.reserved; slots = q.ring.items };
          depth = q.ring.capacity;
        } };

    ghost invariant = { λ q. CountsUp q.taken (map (λ slot. slot.number) q.ring.items) q.reserved
        × (q.ring.capacity < 2 ^ 16) × AreFilled q.filled q.ring.items };
}

impl SlotQueue {
    /// An empty queue of at most so many slots.
    pub fn with_depth(alloc: Global, depth: u16) -> Result<SlotQueue, AllocError>
        requires some { 0 < depth }
        ensures { IfOk result (λ q. q ≡ record { held = no_slots; depth = depth }) }
    {
        let ring = HeapCircularBuffer::with_capacity(alloc, depth as usize)?;
        Ok(SlotQueue {
            ring,
            taken: 0,
            reserved: 0,
            filled: 0,
        })
    }

    /// How many slots wait or are filled.
    pub fn len(&self) -> u16
        ensures { result ≡ length self.now.held.slots }
    {
        self.ring.len() as u16
    }

    /// How many slots there may be.
    pub fn depth(&self) -> u16
        ensures { result ≡ self.now.depth }
    {
        self.ring.capacity() as u16
    }

    /// Whether one more slot has room.
    pub fn has_room(&self) -> bool
        ensures { result ≡ nat_lt (length self.now.held.slots) self.now.depth }
    {
        self.ring.len() < self.ring.capacity()
    }

    /// How many slots were ever reserved, which is the number of the next one.
    pub fn reserved(&self) -> u64
        ensures { result ≡ self.now.held.reserved }
    {
        self.reserved
    }

    /// How many slots were ever taken, which is the number of the front one.
    pub fn taken(&self) -> u64
        ensures { result ≡ self.now.held.taken }
    {
        self.taken
    }

    /// The slot at a place from the front, filled or not, or None past the last.
    pub fn at(&self, at: u16) -> Option<Slot>
        ensures { result ≡ slice_get self.now.held.slots at }
    {
        self.ring.get(at as usize).copied()
    }

    /// Appends a slot that waits, and gives its number, or None where the queue is full.
    pub fn reserve(&mut self, addr: u32, kind: LoadKind, stamp: u64) -> Option<u64>
        requires can_count { self.old.held.reserved < 2 ^ 40 }
        ensures number { result
            ≡ (if nat_lt (length self.old.held.slots) self.old.depth
            then Some self.old.held.reserved else None) }
        ensures slots { self.new
            ≡ (if nat_lt (length self.old.held.slots) self.old.depth
            then record self.old { held = with_slot kind addr stamp self.old.held } else self.old) }
    {
        let number = self.reserved;
        let slot = Slot {
            number,
            addr,
            kind,
            stamp,
            value: None,
        };
        match self.ring.try_push_back(slot) {
            Ok(()) => {
                self.reserved = number + 1;
                Some(number)
            }
            Err(_) => None,
        }
    }

    /// The value of the front slot, or None where there is no slot or the front one isn't filled.
    pub fn front(&self) -> Option<u32>
        ensures { result ≡ first_value self.now.held.slots }
    {
        match self.ring.front() {
            Some(slot) => slot.value,
            None => None,
        }
    }

    /// Takes the front slot out and gives its value, or None where there is no slot or the front one isn't filled.
    pub fn take(&mut self) -> Option<u32>
        ensures value { result ≡ first_value self.old.held.slots }
        ensures slots { self.new
            ≡ (if is_some (first_value self.old.held.slots)
            then record self.old { held = without_front self.old.held } else self.old) }
    {
        let value = self.front()?;
        let _ = self.ring.pop_front();
        self.taken += 1;
        self.filled = self.filled.saturating_sub(1);
        Some(value)
    }

    /// The slot of this number, or None where no slot of this number waits for its value.
    #[inline(always)]
    pub fn waiting(&self, number: u64) -> Option<Slot>
        ensures { result ≡ waiting number self.now.held.slots }
    {
        slot_at(&self.ring, self.taken, number)
    }

    /// Gives the slot of this number its value, or answers false where no slot of this number waits for one.
    #[inline(always)]
    pub fn fill(&mut self, number: u64, value: u32) -> bool
        ensures found { result ≡ is_some (waiting number self.old.held.slots) }
        ensures slots { self.new
            ≡ record self.old {
              held = record self.old.held { slots = with_value number value self.old.held.slots };
            } }
    {
        match slot_at(&self.ring, self.taken, number) {
            None => false,
            Some(slot) => {
                let at = (number - self.taken) as usize;
                put_at(&mut self.ring, at, slot, value);
                self.filled = filled_from(&self.ring, self.filled);
                true
            }
        }
    }

    /// The place of the first slot that waits for its value, counted from the front, or the number of slots where none
    /// waits.
    #[tactic(auto, using(crate::proofs::Filled::one_more, crate::proofs::Filled::first_here, crate::proofs::Filled::first_past))]
    pub fn first_unfilled(&self) -> u16
        ensures { result ≡ first_unfilled self.now.held.slots }
    {
        for place in self.filled..self.len() {
            if !has_value(&self.ring, place) {
                return place;
            }
        }
        self.len()
    }

    /// Whether a slot waits for its value. Where none waits none may be filled.
    #[tactic(auto, using(crate::proofs::Filled::some_waits, crate::proofs::Filled::none_fillable))]
    #[inline(always)]
    pub fn waits(&self) -> bool
        ensures waits { result ≡ list_any waits self.now.held.slots }
        ensures none { (sa : List StoreAt) → result ≡ false
            → filter (can_be_filled sa) self.now.held.slots ≡ [] }
    {
        self.first_unfilled() < self.len()
    }

    /// How many slots may be filled while these stores wait.
    #[tactic(auto, using(crate::proofs::Fills::count_from))]
    pub fn fillable(&self, stores: &StoreQueue) -> u16
        ensures { result ≡ length (filter (can_be_filled stores.now.held.sa) self.now.held.slots) }
    {
        let mut count = 0;
        for at in self.filled..self.len() {
            if self.fillable_at(stores, at).is_some() {
                count += 1;
            }
        }
        count
    }

    /// Of the slots that may be filled while these stores wait, by their numbers, the one at a place counted from 0,
    /// or None past the last.
    #[tactic(auto, using(crate::proofs::Fills::nth_here))]
    #[inline(always)]
    pub fn nth_fillable(&self, stores: &StoreQueue, n: u16) -> Option<Slot>
        ensures { result
            ≡ slice_get (filter (can_be_filled stores.now.held.sa) self.now.held.slots) n }
    {
        let mut left = n;
        for at in self.filled..self.len() {
            if let Some(slot) = self.fillable_at(stores, at) {
                if left == 0 {
                    return Some(slot);
                }
                left -= 1;
            }
        }
        None
    }

    #[inline(always)]
    fn fillable_at(&self, stores: &StoreQueue, at: u16) -> Option<Slot>
        ensures { result ≡ fillable_at stores.now.held.sa self.now.held.slots at }
    {
        let slot = self.ring.get(at as usize)?;
        if slot.value.is_none() && !stores.blocks(slot) {
            Some(*slot)
        } else {
            None
        }
    }

    /// Whether an older load that waits keeps this store from being drained: one whose stamp is at most the store's
    /// number and that reads a byte of it.
    #[tactic(auto, using(crate::proofs::Filled::held_from, crate::proofs::Filled::held_past))]
    pub fn holds(&self, at: &StoreAt) -> bool
        ensures { result ≡ list_any (holds at.now) self.now.held.slots }
    {
        for place in self.filled..self.len() {
            if holds_at(&self.ring, place, at) {
                return true;
            }
        }
        false
    }
}

#[inline(always)]
fn put_at(ring: &mut HeapCircularBuffer<Slot>, at: usize, mut slot: Slot, value: u32)
    requires { slice_get ring.old.items at ≡ Some slot }
    ensures { ring.new
        ≡ buffer
        (slice_set ring.old.items at (record slot { value = Some value })) ring.old.capacity }
{
    slot.value = Some(value);
    if let Some(place) = ring.get_mut(at) {
        *place = slot;
    }
}

#[inline(always)]
fn slot_at(ring: &HeapCircularBuffer<Slot>, taken: u64, number: u64) -> Option<Slot>
    ensures { result ≡ at_place ring.now.items taken number }
{
    if number < taken {
        return None;
    }
    match ring.get((number - taken) as usize) {
        None => None,
        Some(slot) => {
            if slot.value.is_none() {
                Some(*slot)
            } else {
                None
            }
        }
    }
}

fn holds(at: &StoreAt, slot: &Slot) -> bool
    ensures { result ≡ holds at.now slot.now }
{
    slot.value.is_none()
        && slot.stamp <= at.number
        && overlap(at.addr, at.width, slot.addr, slot.kind.width())
}

fn holds_at(slots: &HeapCircularBuffer<Slot>, place: u16, at: &StoreAt) -> bool
    ensures { result ≡ is_held at.now (slice_get slots.now.items place) }
{
    match slots.get(place as usize) {
        Some(slot) => holds(at, slot),
        None => false,
    }
}

fn has_value(slots: &HeapCircularBuffer<Slot>, place: u16) -> bool
    ensures { result ≡ has_value (slice_get slots.now.items place) }
{
    match slots.get(place as usize) {
        Some(slot) => slot.value.is_some(),
        None => false,
    }
}

/// How many slots at the front have their value, where so many are known to have it.
#[tactic(auto, using(crate::proofs::Filled::one_more))]
fn filled_from(slots: &HeapCircularBuffer<Slot>, known: u16) -> u16
    requires { AreFilled known slots.now.items }
    ensures { AreFilled result slots.now.items }
{
    for place in known..u16::MAX {
        if !has_value(slots, place) {
            return place;
        }
    }
    u16::MAX
}
