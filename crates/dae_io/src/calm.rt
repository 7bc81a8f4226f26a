// A shelf and a sink that never fail.
ghost use Rattle.std.specs.Prelude.{◌≡◌, ◌≢◌, ℕ, ◌≤◌, ◌⊎◌, List, length, take, Option, None, Some, IfOk, IsOk, [], ◌∷◌, ◌++◌, true, false, if◌then◌else◌};
ghost use Rattle.dae_io.specs.Listed.{first_text};
ghost use Rattle.dae_io.specs.Sinks.{sink_state};

use crate::given::{Given, PutCall};
use crate::prefix::first_bytes;
use crate::shelf::{FetchError, KeepFailed, Shelf};
use crate::sink::{Sink, SinkFailed};
use std::alloc::Global;

/// A text that is lent under a name.
#[derive(Clone, Copy)]
pub struct NamedText<'t> {
    pub name: &'t str,
    pub text: &'t [u8],
}

/// A shelf that never fails. It is lent its texts, of which the first under a name counts; every other name has the
/// empty text. It drops what it is asked to keep, and from then on it tells nothing.
#[derive(Drop)]
pub struct CalmShelf<'t> {
    pub texts: &'t [NamedText<'t>],
    /// Whether something was dropped.
    pub dropped: bool,
    pub given: Given,
}

impl<'t> CalmShelf<'t> {
    /// The shelf of these texts.
    pub fn new(texts: &'t [NamedText<'t>]) -> CalmShelf<'t>
        ensures texts { result.texts.now ≡ texts.now }
        ensures dropped { result.dropped ≡ false }
        ensures given { result.given.pieces ≡ [] }
    {
        CalmShelf {
            texts,
            dropped: false,
            given: Given::nothing(),
        }
    }
}

/// The first text under a name, or the empty text.
fn first_text<'t>(texts: &'t [NamedText<'t>], name: &str) -> &'t [u8]
    ensures { result.now ≡ first_text texts.now name.now }
{
    texts
        .iter()
        .find(|t| t.name == name)
        .map_or(&[], |t| t.text)
}

impl<'t> Shelf for CalmShelf<'t> {
    ghost told = { λ shelf name.
        if shelf.dropped then None else Some (first_text shelf.texts.now name) };

    ghost count = { λ _. 0 };

    ghost last = { λ _. None };

    ghost given = { λ shelf. shelf.given.pieces };

    fn fetch(&mut self, alloc: Global, name: &str, most: u32) -> Result<Vec<u8>, FetchError> {
        let text = first_text(self.texts, name);
        Ok(Vec::from_slice(alloc, first_bytes(text, most as usize))?)
    }

    fn keep(&mut self, _name: &str, bytes: &[u8]) -> Result<(), KeepFailed> {
        self.given = self.given.then(&PutCall { piece: bytes });
        self.dropped = true;
        Ok(())
    }
}

/// A sink that takes every piece, drops it and tells nothing.
#[derive(Drop)]
pub struct CalmSink {
    pub given: Given,
}

impl CalmSink {
    /// The sink before its first put.
    pub fn new() -> CalmSink
        ensures { result.given.pieces ≡ [] }
    {
        CalmSink {
            given: Given::nothing(),
        }
    }
}

impl Sink for CalmSink {
    ghost seen = { λ sink. sink_state None sink.given.pieces 0 };

    /// Always succeeds.
    fn put(&mut self, bytes: &[u8]) -> Result<(), SinkFailed>
        ensures succeeds { IsOk result }
        ensures given { self.new.given.pieces ≡ self.old.given.pieces ++ bytes.now ∷ [] }
    {
        self.given = self.given.then(&PutCall { piece: bytes });
        Ok(())
    }
}
