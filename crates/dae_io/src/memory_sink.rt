// A sink in memory, whose room is made before.
ghost use Rattle.std.specs.Prelude.{◌≡◌, ◌+◌, ◌-◌, ◌^◌, ◌<◌, ◌≤◌, ◌⊎◌, ◌↔◌, min, [], ◌++◌, length, vec_len, Some, IsSome, IfOk, OnOk, OnErr, IsErr};
ghost use Rattle.std.specs.Vec.{vec_capacity};
ghost use Rattle.dae_io.specs.Failing.{failing_at};
ghost use Rattle.dae_io.specs.Sinks.{IsPut, IsPutFailed, sink_state};

use crate::failing::{FailingCall, failing_at};
use crate::given::{Given, PutCall};
use crate::prefix::first_bytes;
use crate::sink::{Sink, SinkFailed};
use std::alloc::{AllocError, Global};

/// A sink in memory. Its room is the capacity of `taken`: a piece that doesn't fit fails, and so does each listed call.
#[derive(Drop)]
pub struct MemSink {
    /// The bytes taken.
    pub taken: Vec<u8>,
    /// How many calls there were, up to 2^64 - 1.
    pub calls: u64,
    /// How many of them failed, up to 2^64 - 1.
    pub count: u64,
    /// The piece of each call.
    pub given: Given,
    /// The calls that are to fail.
    pub failing: Vec<FailingCall>,
}

impl MemSink {
    /// An empty sink with room for so many bytes.
    pub fn with_room(
        alloc: Global,
        room: usize,
        failing: &[FailingCall],
    ) -> Result<MemSink, AllocError>
        ensures empty { IfOk result (λ sink. sink.taken.items ≡ []) }
        ensures room { IfOk result (λ sink. vec_capacity sink.taken ≡ room) }
        ensures calls { IfOk result (λ sink. sink.calls ≡ 0) }
        ensures count { IfOk result (λ sink. sink.count ≡ 0) }
        ensures given { IfOk result (λ sink. sink.given.pieces ≡ []) }
        ensures failing { IfOk result (λ sink. sink.failing.items ≡ failing.now) }
    {
        Ok(MemSink {
            taken: Vec::with_capacity(alloc, room)?,
            calls: 0,
            count: 0,
            given: Given::nothing(),
            failing: Vec::from_slice(alloc, failing)?,
        })
    }
}

impl Sink for MemSink {
    ghost seen = { λ sink. sink_state (Some sink.taken.items) sink.given.pieces sink.count };

    /// Fails exactly where this call is listed or the piece is longer than the room that is left.
    fn put(&mut self, bytes: &[u8]) -> Result<(), SinkFailed>
        ensures whole { OnOk result (IsPut bytes.now
            (sink_state (Some self.old.taken.items) self.old.given.pieces self.old.count)
            (sink_state (Some self.new.taken.items) self.new.given.pieces self.new.count)) }
        ensures part { OnErr result (IsPutFailed bytes.now
            (sink_state (Some self.old.taken.items) self.old.given.pieces self.old.count)
            (sink_state (Some self.new.taken.items) self.new.given.pieces self.new.count)) }
        ensures calls { self.new.calls ≡ min (self.old.calls + 1) (2 ^ 64 - 1) }
        ensures no_fault { OnOk result (self.new.count ≡ self.old.count) }
        ensures fails { IsErr result ↔ (IsSome (failing_at self.old.failing.items self.new.calls)
            ⊎ (vec_capacity self.old.taken < vec_len self.old.taken + length bytes.now)) }
        ensures failing { self.new.failing.items ≡ self.old.failing.items }
    {
        self.calls = self.calls.saturating_add(1);
        self.given = self.given.then(&PutCall { piece: bytes });
        let listed = failing_at(self.failing.as_slice(), self.calls);
        let piece = first_bytes(bytes, listed.unwrap_or(bytes.len()));
        let fits = piece.len() <= self.taken.capacity() - self.taken.len();
        if fits && self.taken.extend_from_slice(piece).is_ok() && listed.is_none() {
            return Ok(());
        }
        self.count = self.count.saturating_add(1);
        Err(SinkFailed)
    }
}
