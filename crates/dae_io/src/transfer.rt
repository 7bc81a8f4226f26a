// The loops over a reader and a writer: the first bytes of a text, and a piece written whole.
ghost use Rattle.std.specs.Prelude.{◌≡◌, ℕ, ◌≤◌, length, IfOk, OnOk, OnErr};
ghost use Rattle.std.specs.Io.KnownBytes.{Appends};
ghost use Rattle.dae_io.specs.Sinks.{AppendsPrefix};
ghost use Rattle.dae_io.specs.Told.{IsFirst};

use crate::shelf::FetchError;
use crate::sink::SinkFailed;
use std::alloc::Global;
use std::io::{ErrorKind, Read, Write};

// A call that still has something to do after so many turns has failed.
const TURNS: u64 = 4_294_967_296;

/// The first `most` bytes that a reader has left, or all where there are fewer.
pub(crate) fn read_most<R: Read>(
    reader: &mut R,
    alloc: Global,
    most: usize,
) -> Result<Vec<u8>, FetchError>
    ensures short { IfOk result (λ text. length text.items ≤ most) }
    ensures bytes { IfOk result (λ text. IsFirst most (R.remaining reader.old) text.items) }
{
    let mut text = Vec::new(alloc);
    let mut buffer = [0; 4096];
    for _ in 0..TURNS {
        let room = (most - text.len()).min(buffer.len());
        if room == 0 {
            return Ok(text);
        }
        match reader.read(&mut buffer[..room]) {
            Ok(0) => return Ok(text),
            Ok(count) => text.extend_from_slice(&buffer[..count])?,
            Err(error) if error.kind() == ErrorKind::Interrupted => {}
            Err(_) => return Err(FetchError::Failed),
        }
    }
    Err(FetchError::Failed)
}

/// Writes all bytes, or fails after some first bytes of them, or none.
pub(crate) fn write_whole<W: Write>(writer: &mut W, bytes: &[u8]) -> Result<(), SinkFailed>
    ensures whole { OnOk result
        (Appends (W.contents writer.old) (W.contents writer.new) bytes.now) }
    ensures prefix { OnErr result
        (AppendsPrefix (W.contents writer.old) (W.contents writer.new) bytes.now) }
{
    let mut done = 0;
    for _ in 0..TURNS {
        if done == bytes.len() {
            return Ok(());
        }
        match writer.write(&bytes[done..]) {
            Ok(0) => return Err(SinkFailed),
            Ok(count) => done += count,
            Err(error) if error.kind() == ErrorKind::Interrupted => {}
            Err(_) => return Err(SinkFailed),
        }
    }
    Err(SinkFailed)
}
