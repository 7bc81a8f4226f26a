// Store queues: addresses and data, which meet as they are drained.

ghost use Rattle.std.specs.Prelude.{◌≡◌, ◌<◌, ◌^◌, length, nat_lt, is_some, if◌then◌else◌, IfOk, slice_get};
ghost use Rattle.std.specs.List.{list_any};
ghost use Rattle.dae_queues.specs.Lists.{with_address, with_datum, next_store, without_store, no_stores, bars};

use crate::{Slot, StoreAt, overlap};
use circular_buffer::HeapCircularBuffer;
use dae_base::Width;
use std::alloc::{AllocError, Global};
use std::marker::Model;

/// The store addresses that wait and the data that wait, each oldest first, and how many of each there may be.
#[derive(Drop)]
pub struct StoreQueue {
    addresses: HeapCircularBuffer<StoreAt>,
    words: HeapCircularBuffer<u32>,
    drained: u64,
    issued: u64,
}

impl Model for StoreQueue {
    ghost use Rattle.std.specs.Prelude.{◌<◌, ◌^◌, map};
    ghost use Rattle.dae_queues.specs.Numbers.{CountsUp};
    ghost use Rattle.dae_queues.specs.Rings.{StoreRing};

    ghost Value = { StoreRing };

    ghost view = { λ q.
        record {
          held = record {
            drained = q.drained;
            issued = q.issued;
            sa = q.addresses.items;
            sd = q.words.items;
          };
          sa_depth = q.addresses.capacity;
          sd_depth = q.words.capacity;
        } };

    ghost invariant = { λ q. CountsUp q.drained (map (λ at. at.number) q.addresses.items) q.issued
        × (q.addresses.capacity < 2 ^ 16) × (q.words.capacity < 2 ^ 16) };
}

impl StoreQueue {
    /// No stores, with room for so many addresses and so many data.
    pub fn with_depths(alloc: Global, sa: u16, sd: u16) -> Result<StoreQueue, AllocError>
        requires some_addresses { 0 < sa }
        requires some_data { 0 < sd }
        ensures { IfOk result (λ q. q ≡ record { held = no_stores; sa_depth = sa; sd_depth = sd }) }
    {
        let addresses = HeapCircularBuffer::with_capacity(alloc, sa as usize)?;
        let words = HeapCircularBuffer::with_capacity(alloc, sd as usize)?;
        Ok(StoreQueue {
            addresses,
            words,
            drained: 0,
            issued: 0,
        })
    }

    /// How many store addresses were ever pushed, which is the number of the next one.
    pub fn issued(&self) -> u64
        ensures { result ≡ self.now.held.issued }
    {
        self.issued
    }

    /// How many stores were ever drained, which is the number of the front one.
    pub fn drained(&self) -> u64
        ensures { result ≡ self.now.held.drained }
    {
        self.drained
    }

    /// How many store addresses wait.
    pub fn addresses(&self) -> u16
        ensures { result ≡ length self.now.held.sa }
    {
        self.addresses.len() as u16
    }

    /// How many data wait.
    pub fn data(&self) -> u16
        ensures { result ≡ length self.now.held.sd }
    {
        self.words.len() as u16
    }

    /// Whether one more store address has room.
    pub fn has_room(&self) -> bool
        ensures { result ≡ nat_lt (length self.now.held.sa) self.now.sa_depth }
    {
        self.addresses.len() < self.addresses.capacity()
    }

    /// Whether one more datum has room.
    pub fn has_datum_room(&self) -> bool
        ensures { result ≡ nat_lt (length self.now.held.sd) self.now.sd_depth }
    {
        self.words.len() < self.words.capacity()
    }

    /// The store address at a place from the front, or None past the last.
    pub fn address_at(&self, at: u16) -> Option<StoreAt>
        ensures { result ≡ slice_get self.now.held.sa at }
    {
        self.addresses.get(at as usize).copied()
    }

    /// The datum at a place from the front, or None past the last.
    pub fn datum_at(&self, at: u16) -> Option<u32>
        ensures { result ≡ slice_get self.now.held.sd at }
    {
        self.words.get(at as usize).copied()
    }

    /// Appends a store address with the next number, or answers false where there is no room for one.
    pub fn push_address(&mut self, addr: u32, width: Width) -> bool
        requires can_count { self.old.held.issued < 2 ^ 40 }
        ensures room { result ≡ nat_lt (length self.old.held.sa) self.old.sa_depth }
        ensures stores { self.new
            ≡ (if nat_lt (length self.old.held.sa) self.old.sa_depth
            then record self.old { held = with_address width addr self.old.held } else self.old) }
    {
        let number = self.issued;
        let at = StoreAt {
            number,
            addr,
            width,
        };
        match self.addresses.try_push_back(at) {
            Ok(()) => {
                self.issued = number + 1;
                true
            }
            Err(_) => false,
        }
    }

    /// Appends a datum, or answers false where there is no room for one.
    pub fn push_datum(&mut self, word: u32) -> bool
        ensures room { result ≡ nat_lt (length self.old.held.sd) self.old.sd_depth }
        ensures stores { self.new
            ≡ (if nat_lt (length self.old.held.sd) self.old.sd_depth
            then record self.old { held = with_datum word self.old.held } else self.old) }
    {
        self.words.try_push_back(word).is_ok()
    }

    /// The store that is next to be drained, with its datum, or None where an address or a datum is absent.
    #[inline(always)]
    pub fn front(&self) -> Option<(StoreAt, u32)>
        ensures { result ≡ next_store self.now.held.sa self.now.held.sd }
    {
        match (self.addresses.front(), self.words.front()) {
            (Some(at), Some(word)) => Some((*at, *word)),
            _ => None,
        }
    }

    /// Takes that store out and gives it with its datum, or None where an address or a datum is absent.
    #[inline(always)]
    pub fn drain(&mut self) -> Option<(StoreAt, u32)>
        ensures store { result ≡ next_store self.old.held.sa self.old.held.sd }
        ensures stores { self.new
            ≡ (if is_some (next_store self.old.held.sa self.old.held.sd)
            then record self.old { held = without_store self.old.held } else self.old) }
    {
        let store = self.front()?;
        let _ = self.addresses.pop_front();
        let _ = self.words.pop_front();
        self.drained += 1;
        Some(store)
    }

    /// Whether an older store that waits keeps this slot from being filled: one whose number is below the slot's stamp
    /// and that writes a byte of it.
    pub fn blocks(&self, slot: &Slot) -> bool
        ensures { result ≡ list_any (bars slot.now) self.now.held.sa }
    {
        any_bars(&self.addresses, slot)
    }
}

fn bars(slot: &Slot, at: &StoreAt) -> bool
    ensures { result ≡ bars slot.now at.now }
{
    at.number < slot.stamp && overlap(at.addr, at.width, slot.addr, slot.kind.width())
}

fn any_bars(stores: &HeapCircularBuffer<StoreAt>, slot: &Slot) -> bool
    ensures { result ≡ list_any (bars slot.now) stores.now.items }
{
    stores.iter().any(|at| bars(slot, at))
}
