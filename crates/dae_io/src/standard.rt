// A sink over a writer of the standard library.
ghost use Rattle.std.specs.Prelude.{◌≡◌, ℕ, []};
ghost use Rattle.dae_io.specs.Sinks.{sink_state};

use crate::given::{Given, PutCall};
use crate::sink::{Sink, SinkFailed};
use crate::transfer::write_whole;
use std::io::Write;

/// The sink of standard output, or of standard error, or of another writer. It tells what its writer tells, and of the
/// two streams nothing is told.
#[derive(Drop)]
pub struct StdSink<W> {
    pub writer: W,
    /// How many calls failed, up to 2^64 - 1.
    pub count: u64,
    pub given: Given,
}

impl<W: Write> StdSink<W> {
    /// The sink of a writer.
    pub fn new(writer: W) -> StdSink<W>
        ensures writer { result.writer ≡ writer }
        ensures count { result.count ≡ 0 }
        ensures given { result.given.pieces ≡ [] }
    {
        StdSink {
            writer,
            count: 0,
            given: Given::nothing(),
        }
    }
}

impl<W: Write> Sink for StdSink<W> {
    ghost seen = { λ sink. sink_state (W.contents sink.writer) sink.given.pieces sink.count };

    fn put(&mut self, bytes: &[u8]) -> Result<(), SinkFailed> {
        self.given = self.given.then(&PutCall { piece: bytes });
        let written = write_whole(&mut self.writer, bytes);
        if written.is_err() {
            self.count = self.count.saturating_add(1);
        }
        written
    }
}
