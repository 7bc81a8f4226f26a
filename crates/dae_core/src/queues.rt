// The seven queues as one object: what each side takes and pushes, fills and drains.

ghost use Rattle.std.specs.Prelude.{◌≡◌, IsSome, true, false, ◌||◌, nat_lt, IfOk, [], filter, length, slice_get, refl};
ghost use Rattle.std.specs.List.{list_any};
ghost use Rattle.dae_base.specs.declared.Side.{Side};
ghost use Rattle.dae_base.specs.Budgets.{depth};
ghost use Rattle.dae_core.specs.Held.{CanCount, CanHold, HeldQueues};
ghost use Rattle.dae_core.specs.Queues.{Queues, commit, count, empty_queues, front, loads_of, pushed_to, ready, reserved_in, taken_from, with_loads_of, words_of};
ghost use Rattle.dae_queues.specs.Lists.{can_be_filled, draining_of, filling_of, first_unfilled, next_store, waits, with_address, with_value, without_store};

use crate::Ports;
use crate::memory::load;
use dae_base::{Depths, LoadKind, Queue, Side, Width};
use dae_encode::QueueUse;
use dae_queues::{Fifo, RingFifo, Slot, SlotQueue, StoreAt, StoreQueue};
use std::alloc::{AllocError, Global};
use std::marker::Model;

/// The seven queues of a machine.
#[derive(Drop)]
pub struct Queues {
    ld: SlotQueue,
    al: SlotQueue,
    stores: StoreQueue,
    ab: RingFifo<u32>,
    eb: RingFifo<u32>,
    cq: RingFifo<u32>,
}

impl Model for Queues {
    ghost Value = { HeldQueues };

    ghost view = { λ q.
        record {
          depths = record {
            ld = q.ld.depth;
            al = q.al.depth;
            sa = q.stores.sa_depth;
            sd = q.stores.sd_depth;
            ab = q.ab.depth;
            eb = q.eb.depth;
            cq = q.cq.depth;
          };
          queues = record {
            ld = q.ld.held;
            al = q.al.held;
            stores = q.stores.held;
            ab = q.ab.held;
            eb = q.eb.held;
            cq = q.cq.held;
          };
        } };
}

impl Queues {
    /// Empty queues of these depths, each at least 1. All their room is made here.
    pub fn with_depths(alloc: Global, depths: Depths) -> Result<Queues, AllocError>
        requires { CanHold depths }
        ensures { IfOk result (λ q. q ≡ record { depths = depths; queues = empty_queues }) }
    {
        Ok(Queues {
            ld: SlotQueue::with_depth(alloc, depths.ld)?,
            al: SlotQueue::with_depth(alloc, depths.al)?,
            stores: StoreQueue::with_depths(alloc, depths.sa, depths.sd)?,
            ab: RingFifo::with_depth(alloc, depths.ab)?,
            eb: RingFifo::with_depth(alloc, depths.eb)?,
            cq: RingFifo::with_depth(alloc, depths.cq)?,
        })
    }

    #[inline(always)]
    fn is_open(&self, access: QueueUse) -> bool
        ensures { result ≡ ready self.now.depths access self.now.queues }
    {
        match access {
            QueueUse::Nothing => true,
            QueueUse::Load(Queue::Ld, _) => self.ld.has_room(),
            QueueUse::Load(Queue::Al, _) => self.al.has_room(),
            QueueUse::StoreAddress(_) => self.stores.has_room(),
            QueueUse::Take(queue) => self.front_of(queue).is_some(),
            QueueUse::Push(Queue::Sd) => self.stores.has_datum_room(),
            QueueUse::Push(Queue::Ab) => self.ab.has_room(),
            QueueUse::Push(Queue::Eb) => self.eb.has_room(),
            QueueUse::Push(Queue::Cq) => self.cq.has_room(),
            _ => false,
        }
    }

    #[inline(always)]
    fn front_of(&self, queue: Queue) -> Option<u32>
        ensures { result ≡ front queue self.now.queues }
    {
        match queue {
            Queue::Ld => self.ld.front(),
            Queue::Al => self.al.front(),
            Queue::Ab => self.ab.front(),
            Queue::Eb => self.eb.front(),
            Queue::Cq => self.cq.front(),
            Queue::Sa | Queue::Sd => None,
        }
    }

    #[inline(always)]
    fn take(&mut self, queue: Queue)
        requires some { IsSome (front queue self.old.queues) }
        ensures { self.new ≡ record self.old { queues = taken_from queue self.old.queues } }
    {
        let _ = match queue {
            Queue::Ld => self.ld.take(),
            Queue::Al => self.al.take(),
            Queue::Ab => self.ab.take(),
            Queue::Eb => self.eb.take(),
            Queue::Cq => self.cq.take(),
            Queue::Sa | Queue::Sd => None,
        };
    }

    #[inline(always)]
    fn push(&mut self, queue: Queue, word: u32)
        requires room { nat_lt (count queue self.old.queues) (depth queue self.old.depths) ≡ true }
        ensures { self.new ≡ record self.old { queues = pushed_to queue word self.old.queues } }
    {
        match queue {
            Queue::Sd => {
                let _ = self.stores.push_datum(word);
            }
            Queue::Ab => {
                let _ = self.ab.push(word);
            }
            Queue::Eb => {
                let _ = self.eb.push(word);
            }
            Queue::Cq => {
                let _ = self.cq.push(word);
            }
            Queue::Ld | Queue::Al | Queue::Sa => {}
        }
    }

    #[inline(always)]
    fn reserve(&mut self, queue: Queue, kind: LoadKind, addr: u32)
        requires count { CanCount self.old.queues }
        requires room { nat_lt (count queue self.old.queues) (depth queue self.old.depths) ≡ true }
        ensures { self.new
            ≡ record self.old { queues = reserved_in queue kind addr self.old.queues } }
    {
        let stamp = self.stores.issued();
        match queue {
            Queue::Ld => {
                let _ = self.ld.reserve(addr, kind, stamp);
            }
            Queue::Al => {
                let _ = self.al.reserve(addr, kind, stamp);
            }
            Queue::Sa | Queue::Sd | Queue::Ab | Queue::Eb | Queue::Cq => {}
        }
    }

    #[inline(always)]
    fn push_address(&mut self, width: Width, addr: u32)
        requires count { CanCount self.old.queues }
        requires room { nat_lt (count Queue.Sa self.old.queues) self.old.depths.sa ≡ true }
        ensures { self.new
            ≡ record self.old {
              queues = record self.old.queues {
                stores = with_address width addr self.old.queues.stores;
              };
            } }
    {
        let _ = self.stores.push_address(addr, width);
    }
}

/// A's accesses are loads into ld and al, takes from al and eb, store addresses, and pushes to ab and cq. E's are takes
/// from ld, ab and cq, and pushes to sd and eb. No other access is ever ready.
impl Ports for Queues {
    ghost is_ready = { λ q access. ready q.depths access q.queues };

    ghost front = { λ q queue. front queue q.queues };

    ghost after = { λ q access word. record q { queues = commit access word q.queues } };

    ghost can_count = { λ q. CanCount q.queues };

    ghost take_uses_no_word = { λ q queue v w. refl };

    ghost nothing_is_ready = { λ q. refl };

    ghost nothing_changes = { λ q w. refl };

    #[inline(always)]
    fn offer(&self, access: QueueUse) -> Option<u32> {
        match access {
            QueueUse::Take(queue) => self.front_of(queue),
            _ => self.is_open(access).then_some(0),
        }
    }

    #[inline(always)]
    fn commit(&mut self, access: QueueUse, word: u32) {
        match access {
            QueueUse::Nothing => {}
            QueueUse::Take(queue) => self.take(queue),
            QueueUse::Push(queue) => self.push(queue, word),
            QueueUse::Load(queue, kind) => self.reserve(queue, kind, word),
            QueueUse::StoreAddress(width) => self.push_address(width, word),
        }
    }
}

/// What memory does to the queues.
impl Queues {
    #[inline(always)]
    fn loads(&self, side: Side) -> &SlotQueue
        ensures { result.now.held ≡ loads_of side self.now.queues }
    {
        match side {
            Side::A => &self.al,
            Side::E => &self.ld,
        }
    }

    /// The word that a fill of the slot of this number for a side would put from this memory, or None where it may not be
    /// filled: the slot waits, and no older waiting store has a byte of it.
    pub fn filling(&self, side: Side, number: u64, memory: &[u8]) -> Option<u32>
        ensures { result
            ≡ filling_of self.now.queues.stores.sa number
            (loads_of side self.now.queues).slots memory.now }
    {
        let slot = self.loads(side).waiting(number)?;
        if self.stores.blocks(&slot) {
            None
        } else {
            Some(load(memory, slot.kind, slot.addr))
        }
    }

    /// The word that a fill of the slot of this number for a side puts, where that fill is possible. No store is looked at.
    #[tactic(auto, using(crate::proofs::Fillings::filling_where))]
    #[inline(always)]
    pub fn fill_word(&self, side: Side, number: u64, memory: &[u8]) -> Option<u32>
        requires some { IsSome
            (filling_of self.now.queues.stores.sa number
            (loads_of side self.now.queues).slots memory.now) }
        ensures { result
            ≡ filling_of self.now.queues.stores.sa number
            (loads_of side self.now.queues).slots memory.now }
    {
        let slot = self.loads(side).waiting(number)?;
        Some(load(memory, slot.kind, slot.addr))
    }

    /// Gives the waiting slot of this number for a side its value.
    #[inline(always)]
    pub fn fill(&mut self, side: Side, number: u64, word: u32)
        ensures { self.new
            ≡ record self.old {
              queues = with_loads_of side
                  (with_value number word (loads_of side self.old.queues).slots) self.old.queues;
            } }
    {
        let _ = match side {
            Side::A => self.al.fill(number, word),
            Side::E => self.ld.fill(number, word),
        };
    }

    /// The place of the first slot for a side that waits for its value, counted from the front, or their number where
    /// none waits.
    pub fn first_unfilled(&self, side: Side) -> u16
        ensures { result ≡ first_unfilled (loads_of side self.now.queues).slots }
    {
        self.loads(side).first_unfilled()
    }

    /// Whether a load waits for its value. Where none waits no slot may be filled, for neither side.
    #[inline(always)]
    pub fn has_waiting(&self) -> bool
        ensures waits { result
            ≡ (list_any waits self.now.queues.al.slots || list_any waits self.now.queues.ld.slots) }
        ensures none { (side : Side) → result ≡ false
            → filter (can_be_filled self.now.queues.stores.sa)
            (loads_of side self.now.queues).slots ≡ [] }
    {
        self.al.waits() || self.ld.waits()
    }

    /// How many slots may be filled for a side.
    pub fn fillable(&self, side: Side) -> u16
        ensures { result
            ≡ length
            (filter (can_be_filled self.now.queues.stores.sa)
            (loads_of side self.now.queues).slots) }
    {
        self.loads(side).fillable(&self.stores)
    }

    /// The slot at this place, counted from 0, of those that may be filled for a side, or None past the last.
    #[inline(always)]
    pub fn nth_fillable(&self, side: Side, n: u16) -> Option<Slot>
        ensures { result
            ≡ slice_get
            (filter (can_be_filled self.now.queues.stores.sa)
            (loads_of side self.now.queues).slots) n }
    {
        self.loads(side).nth_fillable(&self.stores, n)
    }

    /// The store that may be drained, with its datum: the oldest one, where its datum is there and no older waiting load
    /// has a byte of it.
    #[inline(always)]
    pub fn draining(&self) -> Option<(StoreAt, u32)>
        ensures { result
            ≡ draining_of self.now.queues.stores self.now.queues.ld.slots self.now.queues.al.slots }
    {
        let (at, word) = self.stores.front()?;
        if self.ld.holds(&at) || self.al.holds(&at) {
            None
        } else {
            Some((at, word))
        }
    }

    /// Takes the oldest store out with its datum.
    #[inline(always)]
    pub fn drain(&mut self)
        requires some { IsSome (next_store self.old.queues.stores.sa self.old.queues.stores.sd) }
        ensures { self.new
            ≡ record self.old {
              queues = record self.old.queues { stores = without_store self.old.queues.stores };
            } }
    {
        let _ = self.stores.drain();
    }
}

/// What the queues hold.
impl Queues {
    /// How many items a queue holds.
    pub fn len(&self, queue: Queue) -> u16
        ensures { result ≡ count queue self.now.queues }
    {
        match queue {
            Queue::Ld => self.ld.len(),
            Queue::Al => self.al.len(),
            Queue::Sa => self.stores.addresses(),
            Queue::Sd => self.stores.data(),
            Queue::Ab => self.ab.len(),
            Queue::Eb => self.eb.len(),
            Queue::Cq => self.cq.len(),
        }
    }

    /// The slot at a place from the front of a side's load queue, or None past the last.
    pub fn slot_at(&self, side: Side, at: u16) -> Option<Slot>
        ensures { result ≡ slice_get (loads_of side self.now.queues).slots at }
    {
        self.loads(side).at(at)
    }

    /// The store address at a place from the front, or None past the last.
    pub fn address_at(&self, at: u16) -> Option<StoreAt>
        ensures { result ≡ slice_get self.now.queues.stores.sa at }
    {
        self.stores.address_at(at)
    }

    /// The word at a place from the front of a queue of words, or None past the last and in the other three queues.
    pub fn word_at(&self, queue: Queue, at: u16) -> Option<u32>
        ensures { result ≡ slice_get (words_of queue self.now.queues) at }
    {
        match queue {
            Queue::Sd => self.stores.datum_at(at),
            Queue::Ab => self.ab.at(at),
            Queue::Eb => self.eb.at(at),
            Queue::Cq => self.cq.at(at),
            Queue::Ld | Queue::Al | Queue::Sa => None,
        }
    }
}
