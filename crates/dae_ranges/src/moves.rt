// Ranges that move: by a number up or down, by a signed word, or to a multiple.
ghost use Rattle.std.specs.Prelude.{◌≡◌, ◌<◌};
ghost use Rattle.dae_ranges.specs.Ranges.{highest, raised, lowered, shifted, scaled};

use crate::Range;

impl Range {
    /// Each word moved up by a number, where no end leaves the words.
    pub fn raise(self, number: u32) -> Option<Range>
        ensures { result ≡ raised number self }
    {
        if u128::from(self.highest()) + u128::from(number) < 0x1_0000_0000 {
            Some(Range {
                lo: self.lo + number,
                step: self.step,
                count: self.count,
            })
        } else {
            None
        }
    }

    /// Each word moved down by a number, where no end leaves the words.
    pub fn lower(self, number: u32) -> Option<Range>
        ensures { result ≡ lowered number self }
    {
        if number <= self.lo {
            Some(Range {
                lo: self.lo - number,
                step: self.step,
                count: self.count,
            })
        } else {
            None
        }
    }

    /// Moved by a word that stands for a signed number, where no end leaves the words.
    pub fn shift(self, offset: u32) -> Option<Range>
        ensures { result ≡ shifted offset self }
    {
        if offset < 0x8000_0000 {
            self.raise(offset)
        } else {
            self.lower(u32::MAX - offset + 1)
        }
    }

    /// Each word times a number, where the greatest stays a word.
    pub fn scale(self, number: u32) -> Option<Range>
        requires several { 0 < self.count }
        ensures { result ≡ scaled number self }
    {
        if u128::from(self.highest()) * u128::from(number) < 0x1_0000_0000 {
            Some(Range {
                lo: self.lo * number,
                step: self.step * number,
                count: self.count,
            })
        } else {
            None
        }
    }
}
