// The breakpoints that were set, as the words of code at which they stand.
ghost use Rattle.std.specs.Prelude.{◌≡◌, ◌<◌, ◌/◌, ◌%◌, ◌==◌, ◌&&◌, ◌||◌, ℕ, false, true, length, slice_index_or, IfOk};
ghost use Rattle.std.specs.List.{All, list_any};
ghost use Rattle.dae_debug.specs.Breaks.{AddsBreak, has_break, is_mark_at, is_mark_of, no_breaks};

use dae_base::{Items, Side};
use dae_debug_commands::Breakpoint;
use dae_image::{Image, LineMark};
use std::alloc::{AllocError, Global};
use std::marker::Model;

/// The marks of an image, and for each word of its two codes whether a breakpoint was set that has a mark of this word: so the
/// test behind a step is one index.
#[derive(Drop)]
pub struct Breaks {
    marks: Items<LineMark>,
    words_a: Vec<bool>,
    words_e: Vec<bool>,
}

impl Model for Breaks {
    ghost use Rattle.dae_debug.specs.Breaks.{AreInside, HeldBreaks, seen};

    ghost Value = { HeldBreaks };

    ghost view = { λ b. seen b.marks b.words_a.items b.words_e.items };

    ghost invariant = { λ b. AreInside (seen b.marks b.words_a.items b.words_e.items) };
}

impl Breaks {
    /// No breakpoints, beside the marks of an image.
    pub fn none(alloc: Global, image: Image) -> Result<Breaks, AllocError>
        ensures { IfOk result (λ breaks. breaks ≡ no_breaks image) }
    {
        let words_a = vec![in alloc; false; image.code_a.len()]?;
        let words_e = vec![in alloc; false; image.code_e.len()]?;
        let Image { lines, .. } = image;
        Ok(Breaks {
            marks: lines,
            words_a,
            words_e,
        })
    }

    /// Sets a breakpoint: at each word that has a mark with its side, file and line.
    pub fn set(&mut self, place: Breakpoint)
        ensures { AddsBreak place self.old self.new }
    {
        match place.side {
            Side::A => set_words(&mut self.words_a, self.marks.as_slice(), place),
            Side::E => set_words(&mut self.words_e, self.marks.as_slice(), place),
        }
    }

    /// Whether a breakpoint stands at this byte address in the code of a side.
    #[inline(always)]
    pub fn is_at(&self, side: Side, address: u32) -> bool
        ensures { result
            ≡ (address % 4 == 0 && has_break self.now side (address / 4)) }
    {
        let words = match side {
            Side::A => self.words_a.as_slice(),
            Side::E => self.words_e.as_slice(),
        };
        let word = (address / 4) as usize;
        address % 4 == 0 && word < words.len() && words[word]
    }
}

// Marks the words that have a mark with a breakpoint's side, file and line.
fn set_words(words: &mut Vec<bool>, marks: &[LineMark], place: Breakpoint)
    requires inside { All (λ mark. is_mark_of place mark ≡ true
        → mark.word < length words.old.items) marks.now }
    ensures long { length words.new.items ≡ length words.old.items }
    ensures words { (word : ℕ) → slice_index_or words.new.items word false
        ≡ (slice_index_or words.old.items word false
        || list_any (is_mark_at place word) marks.now) }
{
    for mark in marks {
        if is_mark_of(place, *mark) {
            words[mark.word as usize] = true;
        }
    }
}

fn is_mark_of(place: Breakpoint, mark: LineMark) -> bool
    ensures { result ≡ is_mark_of place mark }
{
    place.side == mark.side && place.file == mark.file && place.line == mark.line
}
