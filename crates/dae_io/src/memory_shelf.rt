// A shelf in memory. Its room for a keep is made before, stays until a keep uses it up, and is then no longer there.
ghost use Rattle.std.specs.Prelude.{◌≡◌, ◌≢◌, ℕ, ◌+◌, ◌-◌, ◌^◌, ◌<◌, ◌≤◌, ◌⊎◌, ◌↔◌, min, [], ◌∷◌, ◌++◌, length, vec_len, Some, None, IsSome, IsNone, IfOk, IsOk, OnOk, OnErr, IsErr, IsErrOf, IfSome, option_map, string_bytes, IsTrue};
ghost use Rattle.std.specs.Vec.{vec_capacity};
ghost use Rattle.dae_io.specs.Failing.{failing_at};
ghost use Rattle.dae_io.specs.Faults.{Rose, fetch_of, keep_of};
ghost use Rattle.dae_io.specs.Held.{last_text, Fits, HasRoom, KeepsOthers, KeepsRoom};
ghost use Rattle.dae_io.specs.Told.{IsFirst, TellsSame};

use crate::failing::{FailingCall, failing_at};
use crate::faults::Faults;
use crate::given::{Given, PutCall};
use crate::prefix::first_bytes;
use crate::shelf::{FetchError, KeepFailed, Shelf};
use std::alloc::{AllocError, Global};

/// A text under a name.
#[derive(Drop)]
pub struct HeldText {
    pub name: String,
    pub text: Vec<u8>,
}

/// A shelf in memory. The last text under a name counts. A keep goes into room that was made before and uses it up: it
/// fails where there is none, or where the name or the text doesn't fit. Each listed call fails.
#[derive(Drop)]
pub struct MemShelf {
    /// What is held.
    pub texts: Vec<HeldText>,
    /// Room for one keep, if it was made.
    pub room: Option<HeldText>,
    /// How many calls there were, up to 2^64 - 1.
    pub calls: u64,
    /// The faults.
    pub faults: Faults,
    /// The calls that are to fail.
    pub failing: Vec<FailingCall>,
    /// The bytes of each keep.
    pub given: Given,
}

impl HeldText {
    // The same room with this name and text, where they fit.
    fn filled(mut self, name: &str, text: &[u8]) -> Option<HeldText>
        ensures name { IfSome result (λ held. string_bytes held.name ≡ name.now) }
        ensures text { IfSome result (λ held. held.text.items ≡ text.now) }
        ensures fits { Fits self (length name.now) (length text.now) → IsSome result }
    {
        let fits = name.len() <= self.name.capacity() && text.len() <= self.text.capacity();
        self.name.clear();
        self.text.clear();
        if fits && self.name.push_str(name).is_ok() && self.text.extend_from_slice(text).is_ok() {
            Some(self)
        } else {
            None
        }
    }
}

// Appends a text. Where memory is wanting, all stays.
fn add(texts: &mut Vec<HeldText>, held: HeldText) -> Result<(), AllocError>
    ensures held { OnOk result
        (last_text texts.new.items (string_bytes held.name) ≡ Some held.text.items) }
    ensures others { KeepsOthers (string_bytes held.name) texts.old.items texts.new.items }
    ensures err { OnErr result (texts.new.items ≡ texts.old.items) }
    ensures succeeds { vec_len texts.old < vec_capacity texts.old → IsOk result }
    ensures place { vec_len texts.old + 1 < vec_capacity texts.old
        → vec_len texts.new < vec_capacity texts.new }
{
    texts.push(held)?;
    Ok(())
}

impl MemShelf {
    /// A shelf without texts and without room for a keep.
    pub fn new(alloc: Global, failing: &[FailingCall]) -> Result<MemShelf, AllocError>
        ensures room { IfOk result (λ shelf. shelf.room ≡ None) }
        ensures texts { IfOk result (λ shelf. shelf.texts.items ≡ []) }
        ensures calls { IfOk result (λ shelf. shelf.calls ≡ 0) }
        ensures count { IfOk result (λ shelf. shelf.faults.count ≡ 0) }
        ensures last { IfOk result (λ shelf. shelf.faults.last.fault ≡ None) }
        ensures failing { IfOk result (λ shelf. shelf.failing.items ≡ failing.now) }
        ensures given { IfOk result (λ shelf. shelf.given.pieces ≡ []) }
    {
        Ok(MemShelf {
            texts: Vec::new(alloc),
            room: None,
            calls: 0,
            faults: Faults::none(),
            failing: Vec::from_slice(alloc, failing)?,
            given: Given::nothing(),
        })
    }

    /// Puts a text under a name. Where memory is wanting, the shelf holds what it held. The room for a keep stays.
    pub fn hold(&mut self, alloc: Global, name: &str, text: &[u8]) -> Result<(), AllocError>
        ensures held { OnOk result (last_text self.new.texts.items name.now ≡ Some text.now) }
        ensures others { KeepsOthers name.now self.old.texts.items self.new.texts.items }
        ensures err { OnErr result (self.new.texts.items ≡ self.old.texts.items) }
        ensures faults { self.new.faults ≡ self.old.faults }
        ensures calls { self.new.calls ≡ self.old.calls }
        ensures failing { self.new.failing.items ≡ self.old.failing.items }
        ensures given { self.new.given ≡ self.old.given }
        ensures room { KeepsRoom self.old self.new }
    {
        let name = String::from_str(alloc, name)?;
        let text = Vec::from_slice(alloc, text)?;
        self.texts.reserve(2)?;
        add(&mut self.texts, HeldText { name, text })
    }

    /// Makes room for one keep: a name and a text of up to so many bytes. Where memory is wanting, the room that was there
    /// stays.
    pub fn make_room(&mut self, alloc: Global, name: usize, text: usize) -> Result<(), AllocError>
        ensures room { OnOk result (HasRoom self.new name text) }
        ensures err { OnErr result (KeepsRoom self.old self.new) }
        ensures texts { self.new.texts.items ≡ self.old.texts.items }
        ensures faults { self.new.faults ≡ self.old.faults }
        ensures calls { self.new.calls ≡ self.old.calls }
        ensures failing { self.new.failing.items ≡ self.old.failing.items }
        ensures given { self.new.given ≡ self.old.given }
    {
        let name = String::with_capacity(alloc, name)?;
        let text = Vec::with_capacity(alloc, text)?;
        self.texts.reserve(1)?;
        self.room = Some(HeldText { name, text });
        Ok(())
    }

    /// The last text under a name.
    pub fn text_of(&self, name: &str) -> Option<&[u8]>
        ensures { option_map (λ text. text.now) result ≡ last_text self.now.texts.items name.now }
    {
        self.texts
            .iter()
            .rev()
            .find(|held| held.name.as_str() == name)
            .map(|held| held.text.as_slice())
    }

    // Whether there was room to keep the text. The room is used up.
    fn store(&mut self, name: &str, text: &[u8]) -> bool
        ensures held { IsTrue result → last_text self.new.texts.items name.now ≡ Some text.now }
        ensures others { KeepsOthers name.now self.old.texts.items self.new.texts.items }
        ensures faults { self.new.faults ≡ self.old.faults }
        ensures calls { self.new.calls ≡ self.old.calls }
        ensures failing { self.new.failing.items ≡ self.old.failing.items }
        ensures given { self.new.given ≡ self.old.given }
        ensures succeeds { HasRoom self.old (length name.now) (length text.now) → IsTrue result }
        ensures used { self.new.room ≡ None }
    {
        match self.room.take().and_then(|room| room.filled(name, text)) {
            Some(held) => add(&mut self.texts, held).is_ok(),
            None => false,
        }
    }

    fn next_call(&mut self) -> Option<usize>
        ensures texts { self.new.texts ≡ self.old.texts }
        ensures room { self.new.room ≡ self.old.room }
        ensures faults { self.new.faults ≡ self.old.faults }
        ensures calls { self.new.calls ≡ min (self.old.calls + 1) (2 ^ 64 - 1) }
        ensures failing { self.new.failing.items ≡ self.old.failing.items }
        ensures given { self.new.given ≡ self.old.given }
        ensures listed { result ≡ failing_at self.old.failing.items self.new.calls }
    {
        self.calls = self.calls.saturating_add(1);
        failing_at(self.failing.as_slice(), self.calls)
    }

    // Whether the text is kept. A listed call stores some first bytes of it.
    fn next_keep(&mut self, name: &str, bytes: &[u8]) -> bool
        ensures kept { IsTrue result → last_text self.new.texts.items name.now ≡ Some bytes.now }
        ensures others { KeepsOthers name.now self.old.texts.items self.new.texts.items }
        ensures faults { self.new.faults ≡ self.old.faults }
        ensures calls { self.new.calls ≡ min (self.old.calls + 1) (2 ^ 64 - 1) }
        ensures failing { self.new.failing.items ≡ self.old.failing.items }
        ensures given { self.new.given ≡ self.old.given }
        ensures listed { IsTrue result → IsNone (failing_at self.old.failing.items self.new.calls) }
        ensures room { IsNone (failing_at self.old.failing.items self.new.calls)
            → HasRoom self.old (length name.now) (length bytes.now) → IsTrue result }
        ensures used { self.new.room ≡ None }
    {
        match self.next_call() {
            None => self.store(name, bytes),
            Some(most) => {
                self.store(name, first_bytes(bytes, most));
                false
            }
        }
    }
}

impl Shelf for MemShelf {
    ghost told = { λ shelf. last_text shelf.texts.items };

    ghost count = { λ shelf. shelf.faults.count };

    ghost last = { λ shelf. shelf.faults.last.fault };

    ghost given = { λ shelf. shelf.given.pieces };

    /// Fails exactly where this call is listed or nothing is held under the name. The room for a keep stays.
    fn fetch(&mut self, alloc: Global, name: &str, most: u32) -> Result<Vec<u8>, FetchError>
        ensures bytes { IfOk result (λ text.
            IsFirst most (last_text self.old.texts.items name.now) text.items) }
        ensures short { IfOk result (λ text. length text.items ≤ most) }
        ensures held { TellsSame (last_text self.old.texts.items) (last_text self.new.texts.items) }
        ensures counted { self.old.faults.count ≤ self.new.faults.count }
        ensures no_fault { result ≢ Err FetchError.Failed → self.new.faults ≡ self.old.faults }
        ensures rose { IsErrOf result FetchError.Failed
            → Rose self.old.faults.count self.new.faults.count }
        ensures fault { IsErrOf result FetchError.Failed
            → self.new.faults.last.fault ≡ fetch_of name.now }
        ensures given { self.new.given.pieces ≡ self.old.given.pieces }

        ensures calls { self.new.calls ≡ min (self.old.calls + 1) (2 ^ 64 - 1) }
        ensures failing { self.new.failing.items ≡ self.old.failing.items }
        ensures fails { IsErrOf result FetchError.Failed
            ↔ (IsSome (failing_at self.old.failing.items self.new.calls)
            ⊎ IsNone (last_text self.old.texts.items name.now)) }
        ensures room { KeepsRoom self.old self.new }
    {
        let listed = self.next_call();
        match self.text_of(name) {
            Some(text) if listed.is_none() => {
                Ok(Vec::from_slice(alloc, first_bytes(text, most as usize))?)
            }
            _ => {
                self.faults.fetch_failed(name);
                Err(FetchError::Failed)
            }
        }
    }

    /// Fails where this call is listed, and else only where there is no room.
    fn keep(&mut self, name: &str, bytes: &[u8]) -> Result<(), KeepFailed>
        ensures kept { OnOk result (last_text self.new.texts.items name.now ≡ Some bytes.now) }
        ensures held { KeepsOthers name.now self.old.texts.items self.new.texts.items }
        ensures counted { self.old.faults.count ≤ self.new.faults.count }
        ensures no_fault { OnOk result (self.new.faults ≡ self.old.faults) }
        ensures rose { OnErr result (Rose self.old.faults.count self.new.faults.count) }
        ensures fault { OnErr result (self.new.faults.last.fault ≡ keep_of name.now) }
        ensures given { self.new.given.pieces ≡ self.old.given.pieces ++ bytes.now ∷ [] }

        ensures calls { self.new.calls ≡ min (self.old.calls + 1) (2 ^ 64 - 1) }
        ensures failing { self.new.failing.items ≡ self.old.failing.items }
        ensures listed { IsSome (failing_at self.old.failing.items self.new.calls) → IsErr result }
        ensures room { IsNone (failing_at self.old.failing.items self.new.calls)
            → HasRoom self.old (length name.now) (length bytes.now) → IsOk result }
        ensures used { self.new.room ≡ None }
    {
        self.given = self.given.then(&PutCall { piece: bytes });
        if self.next_keep(name, bytes) {
            return Ok(());
        }
        self.faults.keep_failed(name);
        Err(KeepFailed)
    }
}
