// Sets of words that a checker keeps in place of one word: every so many words from a least to a greatest one. A range is
// tested, moved and cut without going through its words.
#![tactic(auto)]

ghost use Rattle.std.specs.Prelude.{◌≡◌, ◌<◌};
ghost use Rattle.dae_ranges.specs.Ranges.{single, any_word, is_single, highest, has, loaded_range};

pub use addresses::{all_fit, meet};
pub use common_words::{is_equal, within};
pub use orders::{is_below, is_signed_below};

mod addresses;
mod common_words;
mod congruences;
mod cuts;
mod moves;
mod orders;

use dae_base::LoadKind;

/// The words lo, lo + step, .. of which there are `count` behind the first.
#[derive(Clone, Copy, PartialEq, Eq, Debug)]
pub struct Range {
    pub lo: u32,
    pub step: u32,
    pub count: u32,
}

impl Range {
    /// One word.
    pub fn single(word: u32) -> Range
        ensures { result ≡ single word }
    {
        Range {
            lo: word,
            step: 1,
            count: 0,
        }
    }

    /// All words.
    pub fn any() -> Range
        ensures { result ≡ any_word }
    {
        Range {
            lo: 0,
            step: 1,
            count: u32::MAX,
        }
    }

    /// The words that a load of this kind may give.
    pub fn of_load(kind: LoadKind) -> Range
        ensures { result ≡ loaded_range kind }
    {
        match kind {
            LoadKind::U8 => Range {
                lo: 0,
                step: 1,
                count: 255,
            },
            LoadKind::U16 => Range {
                lo: 0,
                step: 1,
                count: 65_535,
            },
            LoadKind::I8 | LoadKind::I16 | LoadKind::I32 => Range::any(),
        }
    }

    /// Whether there is one alone.
    pub fn is_single(self) -> bool
        ensures { result ≡ is_single self }
    {
        self.count == 0
    }

    /// The greatest.
    pub fn highest(self) -> u64
        ensures { result ≡ highest self }
    {
        u64::from(self.lo) + u64::from(self.count) * u64::from(self.step)
    }

    /// Whether the number is one of them.
    pub fn has(self, word: u64) -> bool
        requires some { 0 < self.step }
        ensures { result ≡ has self word }
    {
        let lo = u64::from(self.lo);
        let step = u64::from(self.step);
        lo <= word && (word - lo) % step == 0 && (word - lo) / step <= u64::from(self.count)
    }
}
