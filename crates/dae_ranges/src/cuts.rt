// Parts of ranges: the words below a number, and those from it on.
ghost use Rattle.std.specs.Prelude.{◌≡◌, ◌<◌, ◌≤◌, ◌^◌};
ghost use Rattle.dae_ranges.specs.Ranges.{highest, below, from, skipped};

use crate::Range;

impl Range {
    /// The words below a number, where the least is one.
    pub fn below(self, number: u64) -> Range
        requires some { 0 < self.step }
        requires least { self.lo < number }
        ensures { result ≡ below number self }
    {
        let steps = (number - 1 - u64::from(self.lo)) / u64::from(self.step);
        let count = if steps < u64::from(self.count) {
            steps as u32
        } else {
            self.count
        };
        Range {
            lo: self.lo,
            step: self.step,
            count,
        }
    }

    /// The words from a number on, where the greatest is one.
    #[tactic(auto, using(crate::proofs::Signed::few_skipped))]
    pub fn from(self, number: u64) -> Range
        requires some { 0 < self.step }
        requires words { highest self < 2 ^ 32 }
        requires greatest { number ≤ highest self }
        ensures { result ≡ from number self }
    {
        let skipped = below_count(self, number);
        Range {
            lo: (u64::from(self.lo) + skipped * u64::from(self.step)) as u32,
            step: self.step,
            count: self.count - skipped as u32,
        }
    }
}

/// How many words of a range are below a number, or as many as there would be if it went on.
pub fn below_count(range: Range, number: u64) -> u64
    requires some { 0 < range.step }
    requires word { number < 2 ^ 33 }
    ensures { result ≡ skipped number range }
{
    let lo = u64::from(range.lo);
    let past = u64::from(range.step) - 1;
    if number < lo {
        past / u64::from(range.step)
    } else {
        (number - lo + past) / u64::from(range.step)
    }
}
