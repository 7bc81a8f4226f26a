// Queues, first in, first out: what any does, one in a vector, and one in a ring.

ghost use Rattle.std.specs.Prelude.{◌≡◌, ℕ, ◌<◌, true, List, [], ◌∷◌, ◌++◌, length, nat_lt, is_some, if◌then◌else◌, slice_get, IfOk, None, Some, refl};
ghost use Rattle.dae_queues.specs.Lists.{first, rest};
ghost use Rattle.dae_queues.specs.Fifos.{with_item, without_item, ends};

use circular_buffer::HeapCircularBuffer;
use std::alloc::{AllocError, Global};
use std::marker::Model;

/// A queue of items with a depth: what is pushed at the back is taken at the front, oldest first.
pub trait Fifo<T: Copy> {
    // What waits, oldest first.
    ghost held: { Self → List T };

    // How many items may wait.
    ghost depth: { Self → ℕ };

    // The queue after an item was appended, and after the oldest one was taken.
    ghost pushed: { T → Self → Self };

    ghost taken: { Self → Self };

    /// Appends an item, or hands it back where the queue is full.
    fn push(&mut self, item: T) -> Option<T>
        ensures item { result
            ≡ (if nat_lt (length (held self.old)) (depth self.old) then None else Some item) }
        ensures queue { self.new
            ≡ (if nat_lt (length (held self.old)) (depth self.old) then pushed item self.old
            else self.old) };

    /// Takes the oldest item, or gives None where the queue is empty.
    fn take(&mut self) -> Option<T>
        ensures item { result ≡ first (held self.old) }
        ensures queue { self.new
            ≡ (if is_some (first (held self.old)) then taken self.old else self.old) };

    /// The oldest item, or None where the queue is empty.
    fn front(&self) -> Option<T>
        ensures { result ≡ first (held self.now) };

    /// How many items wait.
    fn len(&self) -> u16
        ensures { result ≡ length (held self.now) };

    /// The item at a place from the front, or None past the last.
    fn at(&self, at: u16) -> Option<T>
        ensures { result ≡ slice_get (held self.now) at };

    /// Whether one more item has room.
    fn has_room(&self) -> bool
        ensures { result ≡ nat_lt (length (held self.now)) (depth self.now) };

    ghost push_appends: { (x : T) (q : Self) → (held (pushed x q) ≡ held q ++ x ∷ [])
        × (depth (pushed x q) ≡ depth q) };

    ghost take_removes: { (q : Self) → (held (taken q) ≡ rest (held q))
        × (depth (taken q) ≡ depth q) };

    // A push and a take on a queue that allows both give one state in either order.
    ghost ends_commute: { (x : T) (q : Self) → nat_lt (length (held q)) (depth q) ≡ true
        → is_some (first (held q)) ≡ true → taken (pushed x q) ≡ pushed x (taken q) };
}

/// A queue of items in a vector whose room is made at the start.
#[derive(Drop)]
pub struct PlainFifo<T: Copy> {
    items: Vec<T>,
    depth: u16,
}

impl<T: Copy> Model for PlainFifo<T> {
    ghost use Rattle.std.specs.Prelude.{◌<◌, ◌≤◌, ◌^◌, length, vec_capacity};
    ghost use Rattle.dae_queues.specs.Fifos.{BoundedQueue};

    ghost Value = { BoundedQueue T };

    ghost view = { λ q. record { held = q.items.items; depth = q.depth } };

    ghost invariant = { λ q. (length q.items.items ≤ q.depth) × (q.depth ≤ vec_capacity q.items)
        × (q.depth < 2 ^ 16) };
}

impl<T: Copy> PlainFifo<T> {
    /// An empty queue of at most so many items.
    pub fn with_depth(alloc: Global, depth: u16) -> Result<PlainFifo<T>, AllocError>
        requires some { 0 < depth }
        ensures { IfOk result (λ q. q ≡ record { held = []; depth = depth }) }
    {
        let items = Vec::with_capacity(alloc, depth as usize)?;
        Ok(PlainFifo { items, depth })
    }
}

impl<T: Copy> Fifo<T> for PlainFifo<T> {
    ghost held = { λ q. q.held };

    ghost depth = { λ q. q.depth };

    ghost pushed = { with_item };

    ghost taken = { without_item };

    fn push(&mut self, item: T) -> Option<T> {
        if self.items.len() >= self.depth as usize {
            return Some(item);
        }
        self.items.push_reserved(item);
        None
    }

    fn take(&mut self) -> Option<T> {
        if self.items.is_empty() {
            return None;
        }
        Some(self.items.remove(0))
    }

    fn front(&self) -> Option<T> {
        self.items.first().copied()
    }

    fn len(&self) -> u16 {
        self.items.len() as u16
    }

    fn at(&self, at: u16) -> Option<T> {
        self.items.get(at as usize).copied()
    }

    fn has_room(&self) -> bool {
        self.items.len() < self.depth as usize
    }

    ghost push_appends = { λ x q. (refl, refl) };

    ghost take_removes = { λ q. (refl, refl) };

    ghost ends_commute = { λ x q room some. ends x q.held q.depth some };
}

/// A queue of items in a ring.
#[derive(Drop)]
pub struct RingFifo<T: Copy> {
    ring: HeapCircularBuffer<T>,
}

impl<T: Copy> Model for RingFifo<T> {
    ghost use Rattle.std.specs.Prelude.{◌<◌, ◌^◌};
    ghost use Rattle.dae_queues.specs.Fifos.{BoundedQueue};

    ghost Value = { BoundedQueue T };

    ghost view = { λ q. record { held = q.ring.items; depth = q.ring.capacity } };

    ghost invariant = { λ q. q.ring.capacity < 2 ^ 16 };
}

impl<T: Copy> RingFifo<T> {
    /// An empty queue of at most so many items.
    pub fn with_depth(alloc: Global, depth: u16) -> Result<RingFifo<T>, AllocError>
        requires some { 0 < depth }
        ensures { IfOk result (λ q. q ≡ record { held = []; depth = depth }) }
    {
        let ring = HeapCircularBuffer::with_capacity(alloc, depth as usize)?;
        Ok(RingFifo { ring })
    }
}

impl<T: Copy> Fifo<T> for RingFifo<T> {
    ghost held = { λ q. q.held };

    ghost depth = { λ q. q.depth };

    ghost pushed = { with_item };

    ghost taken = { without_item };

    fn push(&mut self, item: T) -> Option<T> {
        self.ring.try_push_back(item).err()
    }

    fn take(&mut self) -> Option<T> {
        self.ring.pop_front()
    }

    fn front(&self) -> Option<T> {
        self.ring.front().copied()
    }

    fn len(&self) -> u16 {
        self.ring.len() as u16
    }

    fn at(&self, at: u16) -> Option<T> {
        self.ring.get(at as usize).copied()
    }

    fn has_room(&self) -> bool {
        self.ring.len() < self.ring.capacity()
    }

    ghost push_appends = { λ x q. (refl, refl) };

    ghost take_removes = { λ q. (refl, refl) };

    ghost ends_commute = { λ x q room some. ends x q.held q.depth some };
}
