// Code that grows at its front, and where its words come from.

ghost use Rattle.std.specs.Prelude.{◌≡◌, ◌+◌, ◌++◌, ◌<◌, ◌^◌, ℕ, length, map, OnOk, IfOk};
ghost use Rattle.std.specs.List.{All};
ghost use Rattle.dae_select.specs.Grown.{no_code, glue, acting, advance, in_front, from_front, StandWithin};

use dae_base::Place;
use dae_encode::Inst;
use std::alloc::{AllocError, Global};
use std::marker::Model;

/// A word of code, and the place of the action whose instructions begin there.
#[derive(Clone, Copy, PartialEq, Eq)]
pub struct PlacedWord {
    pub word: usize,
    pub place: Place,
}

impl PlacedWord {
    /// The word that is so many further on.
    pub fn advance(self, words: usize) -> PlacedWord
        requires { words + self.word < 2 ^ 64 }
        ensures { result ≡ advance words self }
    {
        PlacedWord {
            word: words + self.word,
            place: self.place,
        }
    }
}

/// Words behind others, each so many further on.
pub fn add_places(
    places: &mut Vec<PlacedWord>,
    words: usize,
    more: &[PlacedWord],
) -> Result<(), AllocError>
    requires { All (λ p. words + p.word < 2 ^ 64) more.now }
    ensures added { OnOk result (places.new.items
        ≡ places.old.items ++ map (advance words) more.now) }
    ensures within { (n : ℕ) → StandWithin n (places.old.items ++ map (advance words) more.now)
        → StandWithin n places.new.items }
{
    for placed in more {
        places.push(placed.advance(words))?;
    }
    Ok(())
}

/// Words that are told from the end of the code, told from its front.
fn from_front(
    alloc: Global,
    places: &[PlacedWord],
    end: usize,
) -> Result<Vec<PlacedWord>, AllocError>
    ensures { IfOk result (λ all. all.items ≡ from_front end places.now) }
{
    let mut all = Vec::new(alloc);
    for placed in places {
        all.push(PlacedWord {
            word: end.saturating_sub(placed.word),
            place: placed.place,
        })?;
    }
    Ok(all)
}

/// Instructions that are written from the last to the first, and the words at which actions begin, told by how many there are
/// from them to the end, so that none of them changes. Clauses see both in the order of the code.
#[derive(Drop)]
pub struct GrowingCode {
    backward: Vec<Inst>,
    places: Vec<PlacedWord>,
}

impl Model for GrowingCode {
    ghost use Rattle.std.specs.Prelude.{length, reverse};
    ghost use Rattle.dae_select.specs.Grown.{Grown, StandWithin};

    ghost Value = { Grown };

    ghost view = { λ grown.
        record { code = reverse grown.backward.items; places = reverse grown.places.items } };

    ghost invariant = { λ grown.
        StandWithin (length grown.backward.items) grown.places.items };
}

impl GrowingCode {
    /// No instructions.
    pub fn new(alloc: Global) -> GrowingCode
        ensures { result ≡ no_code }
    {
        GrowingCode {
            backward: Vec::new(alloc),
            places: Vec::new(alloc),
        }
    }

    /// The number of instructions.
    pub fn len(&self) -> usize
        ensures { result ≡ length self.now.code }
    {
        self.backward.len()
    }

    /// Instructions come before the others.
    pub fn put_before(&mut self, block: &[Inst]) -> Result<(), AllocError>
        ensures { OnOk result (self.new ≡ in_front (glue block.now) self.old) }
    {
        for index in (0..block.len()).rev() {
            self.backward.push(block[index])?;
        }
        Ok(())
    }

    /// The instructions of an action that stands at a place come before the others.
    pub fn put_action(&mut self, place: Place, block: &[Inst]) -> Result<(), AllocError>
        ensures { OnOk result (self.new ≡ in_front (acting place block.now) self.old) }
    {
        self.put_before(block)?;
        if !block.is_empty() {
            let word = self.backward.len();
            self.places.push(PlacedWord { word, place })?;
        }
        Ok(())
    }

    /// Other code comes before these instructions.
    pub fn put_code(&mut self, code: GrowingCode) -> Result<(), AllocError>
        ensures { OnOk result (self.new ≡ in_front code self.old) }
    {
        let behind = self.backward.len();
        let GrowingCode {
            mut backward,
            places,
        } = code;
        self.backward.append(&mut backward)?;
        add_places(&mut self.places, behind, &places)?;
        Ok(())
    }

    /// The words at which actions begin, in their order, where so many words come before the first instruction.
    pub fn places(&self, alloc: Global, before: usize) -> Result<Vec<PlacedWord>, AllocError>
        requires { before < 2 ^ 63 }
        ensures { IfOk result (λ places. places.items
            ≡ from_front (before + length self.now.code) self.now.places) }
    {
        let end = before + self.backward.len();
        let mut places = from_front(alloc, self.places.as_slice(), end)?;
        places.reverse();
        Ok(places)
    }

    /// The instructions in their order.
    pub fn into_vec(self) -> Vec<Inst>
        ensures { result.items ≡ self.code }
    {
        let GrowingCode { mut backward, .. } = self;
        backward.reverse();
        backward
    }
}
