// What waits in the queues of a node, and what accesses, fills and drains make of it.
ghost use Rattle.std.specs.Prelude.{◌≡◌, Some, None, IfOk, OnOk, length, [], nat_lt, is_some, true, ◌&&◌, IfSome};
ghost use Rattle.std.specs.List.{list_all};
ghost use Rattle.dae_base.specs.Budgets.{depth};
ghost use Rattle.dae_guard.specs.Nodes.{nothing_left, nothing_waits, is_nil, all_filled};
ghost use Rattle.dae_guard.specs.Waiting.{after_use, allows, drain_next, fill_al, fill_ld, front_cell, front_of, length_of, with_load, with_word, without};
ghost use Rattle.dae_guard.specs.Kept.{cells_of, HasRoom, IsMade, IsProper, QueuesHold, served, waiting_of};
ghost use Rattle.dae_queues.specs.Lists.{rest};
ghost use Rattle.dae_guard.specs.Drains.{is_free, may_drain};

use crate::StoreCell;
use crate::slots::{LoadSlot, age, any_delays, fill};
use dae_base::{Depths, LoadKind, Queue};
use dae_encode::QueueUse;
use dae_ranges::Range;
use std::alloc::{AllocError, Global};

/// What waits in the queues, oldest first.
#[derive(Drop)]
pub struct RangeQueues {
    pub ld: Vec<LoadSlot>,
    pub al: Vec<LoadSlot>,
    pub sa: Vec<StoreCell>,
    pub sd: Vec<Range>,
    pub ab: Vec<Range>,
    pub eb: Vec<Range>,
    pub cq: Vec<Range>,
}

impl RangeQueues {
    /// Nothing waits.
    pub fn new(alloc: Global) -> RangeQueues
        ensures is { waiting_of result ≡ nothing_waits }
        ensures holds { QueuesHold result }
    {
        RangeQueues {
            ld: Vec::new(alloc),
            al: Vec::new(alloc),
            sa: Vec::new(alloc),
            sd: Vec::new(alloc),
            ab: Vec::new(alloc),
            eb: Vec::new(alloc),
            cq: Vec::new(alloc),
        }
    }

    /// The same queues once more.
    ///
    /// # Errors
    ///
    /// Memory was wanting.
    pub fn try_clone(&self, alloc: Global) -> Result<RangeQueues, AllocError>
        requires { QueuesHold self.now }
        ensures is { IfOk result (λ q. waiting_of q ≡ waiting_of self.now) }
        ensures sa { IfOk result (λ q. q.sa.items ≡ self.now.sa.items) }
        ensures holds { IfOk result QueuesHold }
    {
        Ok(RangeQueues {
            ld: Vec::from_slice(alloc, self.ld.as_slice())?,
            al: Vec::from_slice(alloc, self.al.as_slice())?,
            sa: Vec::from_slice(alloc, self.sa.as_slice())?,
            sd: Vec::from_slice(alloc, self.sd.as_slice())?,
            ab: Vec::from_slice(alloc, self.ab.as_slice())?,
            eb: Vec::from_slice(alloc, self.eb.as_slice())?,
            cq: Vec::from_slice(alloc, self.cq.as_slice())?,
        })
    }

    /// Whether nothing waits.
    pub fn are_empty(&self) -> bool
        ensures { result ≡ nothing_left (waiting_of self.now) }
    {
        self.ld.is_empty()
            && self.al.is_empty()
            && self.sa.is_empty()
            && self.sd.is_empty()
            && self.ab.is_empty()
            && self.eb.is_empty()
            && self.cq.is_empty()
    }

    /// How much waits in a queue.
    pub fn len_of(&self, queue: Queue) -> usize
        ensures { result ≡ length_of queue (waiting_of self.now) }
    {
        match queue {
            Queue::Ld => self.ld.len(),
            Queue::Al => self.al.len(),
            Queue::Sa => self.sa.len(),
            Queue::Sd => self.sd.len(),
            Queue::Ab => self.ab.len(),
            Queue::Eb => self.eb.len(),
            Queue::Cq => self.cq.len(),
        }
    }

    /// What a take from a queue would give, where it is ready.
    pub fn front(&self, queue: Queue) -> Option<Range>
        requires { QueuesHold self.now }
        ensures is { result ≡ front_of queue (waiting_of self.now) }
        ensures proper { IfSome result IsProper }
    {
        match queue {
            Queue::Ld => front_slot(self.ld.as_slice()),
            Queue::Al => front_slot(self.al.as_slice()),
            Queue::Ab => self.ab.first().copied(),
            Queue::Eb => self.eb.first().copied(),
            Queue::Cq => self.cq.first().copied(),
            Queue::Sa | Queue::Sd => None,
        }
    }

    /// Whether a queue has what an access takes, or room for what it puts in.
    pub fn allows(&self, depths: &Depths, access: QueueUse) -> bool
        requires { QueuesHold self.now }
        ensures is { result ≡ allows depths.now access (waiting_of self.now) }
        ensures room { result ≡ true → HasRoom access self.now }
    {
        match access {
            QueueUse::Nothing => true,
            QueueUse::Take(queue) => self.front(queue).is_some(),
            QueueUse::Push(queue) | QueueUse::Load(queue, _) => {
                self.len_of(queue) < usize::from(depth_of(depths, queue))
            }
            QueueUse::StoreAddress(_) => self.sa.len() < usize::from(depths.sa),
        }
    }

    /// Does an access, with what goes in.
    ///
    /// # Errors
    ///
    /// Memory was wanting.
    pub fn use_queue(&mut self, access: QueueUse, range: Range) -> Result<(), AllocError>
        requires proper { IsProper range }
        requires room { HasRoom access self.old }
        requires holds { QueuesHold self.old }
        ensures is { OnOk result (waiting_of self.new
            ≡ after_use access range (waiting_of self.old)) }
        ensures holds { OnOk result (QueuesHold self.new) }
    {
        match access {
            QueueUse::Nothing => Ok(()),
            QueueUse::Take(queue) => {
                self.take(queue);
                Ok(())
            }
            QueueUse::Push(queue) => self.push(queue, range),
            QueueUse::Load(queue, kind) => self.reserve(queue, kind, range),
            QueueUse::StoreAddress(width) => Ok(self.sa.push(StoreCell { addr: range, width })?),
        }
    }

    /// Takes the front of a queue.
    fn take(&mut self, queue: Queue)
        requires { QueuesHold self.old }
        ensures is { waiting_of self.new ≡ without queue (waiting_of self.old) }
        ensures holds { QueuesHold self.new }
    {
        match queue {
            Queue::Ld => drop_front(&mut self.ld),
            Queue::Al => drop_front(&mut self.al),
            Queue::Ab => drop_front(&mut self.ab),
            Queue::Eb => drop_front(&mut self.eb),
            Queue::Cq => drop_front(&mut self.cq),
            Queue::Sa | Queue::Sd => {}
        }
    }

    /// Puts a word behind the others of a queue.
    fn push(&mut self, queue: Queue, range: Range) -> Result<(), AllocError>
        requires proper { IsProper range }
        requires holds { QueuesHold self.old }
        ensures is { OnOk result (waiting_of self.new
            ≡ with_word queue range (waiting_of self.old)) }
        ensures holds { OnOk result (QueuesHold self.new) }
    {
        match queue {
            Queue::Sd => Ok(self.sd.push(range)?),
            Queue::Ab => Ok(self.ab.push(range)?),
            Queue::Eb => Ok(self.eb.push(range)?),
            Queue::Cq => Ok(self.cq.push(range)?),
            Queue::Ld | Queue::Al | Queue::Sa => Ok(()),
        }
    }

    /// Reserves a slot.
    fn reserve(&mut self, queue: Queue, kind: LoadKind, addr: Range) -> Result<(), AllocError>
        requires { QueuesHold self.old }
        ensures is { OnOk result (waiting_of self.new
            ≡ with_load queue kind addr (waiting_of self.old)) }
        ensures holds { OnOk result (QueuesHold self.new) }
    {
        let slot = LoadSlot {
            addr,
            kind,
            filled: false,
            older: self.sa.len() as u16,
            clear: 0,
        };
        match queue {
            Queue::Ld => Ok(self.ld.push(slot)?),
            Queue::Al => Ok(self.al.push(slot)?),
            _ => Ok(()),
        }
    }

    /// Makes the first sure pick of memory, a drain, a fill for A or a fill for E, and says whether there is one.
    pub fn serve(&mut self) -> bool
        requires { QueuesHold self.old }
        ensures made { IsMade result (served (waiting_of self.old))
            (waiting_of self.old) (waiting_of self.new) }
        ensures holds { QueuesHold self.new }
    {
        if self.drain() {
            return true;
        }
        if self.fill_al() {
            return true;
        }
        self.fill_ld()
    }

    /// Drains the oldest store where it can, and says whether it did.
    fn drain(&mut self) -> bool
        requires { QueuesHold self.old }
        ensures made { IsMade result (drain_next (waiting_of self.old))
            (waiting_of self.old) (waiting_of self.new) }
        ensures holds { QueuesHold self.new }
    {
        if !self.can_drain() {
            return false;
        }
        drop_front(&mut self.sa);
        drop_front(&mut self.sd);
        age(self.ld.as_mut_slice());
        age(self.al.as_mut_slice());
        true
    }

    /// Whether the oldest store has its address and its datum, and no waiting slot without older stores may have a byte
    /// of it.
    fn can_drain(&self) -> bool
        ensures { result ≡ is_some (drain_next (waiting_of self.now)) }
    {
        may_drain(
            self.sa.as_slice(),
            self.sd.as_slice(),
            self.ld.as_slice(),
            self.al.as_slice(),
        )
    }

    /// Fills the first slot for A that may be filled, and says whether there was one.
    fn fill_al(&mut self) -> bool
        requires { QueuesHold self.old }
        ensures made { IsMade result (fill_al (waiting_of self.old))
            (waiting_of self.old) (waiting_of self.new) }
        ensures holds { QueuesHold self.new }
    {
        fill(self.al.as_mut_slice(), self.sa.as_slice())
    }

    /// Fills the first slot for E that may be filled, and says whether there was one.
    fn fill_ld(&mut self) -> bool
        requires { QueuesHold self.old }
        ensures made { IsMade result (fill_ld (waiting_of self.old))
            (waiting_of self.old) (waiting_of self.new) }
        ensures holds { QueuesHold self.new }
    {
        fill(self.ld.as_mut_slice(), self.sa.as_slice())
    }

    /// Whether no store waits and every slot is filled.
    #[tactic(auto, using(crate::proofs::SlotLaws::filled_cells))]
    pub fn are_settled(&self) -> bool
        ensures { result ≡ (is_nil (waiting_of self.now).sa && (is_nil (waiting_of self.now).sd
            && (all_filled (waiting_of self.now).ld && all_filled (waiting_of self.now).al))) }
    {
        self.sa.is_empty()
            && self.sd.is_empty()
            && are_filled(self.ld.as_slice())
            && are_filled(self.al.as_slice())
    }
}

/// Whether the oldest of some stores has its address and its datum, and no waiting slot without older stores may have a
/// byte of it.
fn may_drain(sa: &[StoreCell], sd: &[Range], ld: &[LoadSlot], al: &[LoadSlot]) -> bool
    ensures { result ≡ may_drain sa.now sd.now ld.now al.now }
{
    if sa.is_empty() {
        return false;
    }
    if sd.is_empty() {
        return false;
    }
    let store = sa[0];
    is_free(ld, al, &store)
}

/// Whether no waiting slot without older stores may have a byte of the store.
fn is_free(ld: &[LoadSlot], al: &[LoadSlot], store: &StoreCell) -> bool
    ensures { result ≡ is_free ld.now al.now store.now }
{
    !any_delays(ld, store) && !any_delays(al, store)
}

/// Drops the first item, if there is one.
fn drop_front<T: Drop>(items: &mut Vec<T>)
    ensures { items.new.items ≡ rest items.old.items }
{
    if !items.is_empty() {
        let _ = items.remove(0);
    }
}

/// The word of the front slot, where it is filled.
fn front_slot(slots: &[LoadSlot]) -> Option<Range>
    ensures is { result ≡ front_cell (cells_of slots.now) }
    ensures proper { IfSome result IsProper }
{
    match slots.first() {
        Some(slot) if slot.filled => Some(Range::of_load(slot.kind)),
        _ => None,
    }
}

/// Whether each slot is filled.
fn are_filled(slots: &[LoadSlot]) -> bool
    ensures { result ≡ list_all (λ s. s.filled) slots.now }
{
    slots.iter().all(|slot| slot.filled)
}

/// The depth of a queue.
pub fn depth_of(depths: &Depths, queue: Queue) -> u16
    ensures { result ≡ depth queue depths.now }
{
    match queue {
        Queue::Ld => depths.ld,
        Queue::Al => depths.al,
        Queue::Sa => depths.sa,
        Queue::Sd => depths.sd,
        Queue::Ab => depths.ab,
        Queue::Eb => depths.eb,
        Queue::Cq => depths.cq,
    }
}
