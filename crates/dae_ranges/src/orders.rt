// Whether all words of one range are below those of another, as numbers and as signed words.
ghost use Rattle.std.specs.Prelude.{◌≡◌, ◌<◌, ◌^◌, nat_lt, int_lt};
ghost use Rattle.dae_base.specs.Words.{signed};
ghost use Rattle.dae_ranges.specs.Ranges.{highest, decided};
ghost use Rattle.dae_ranges.specs.Orders.{IsLeast, IsGreatest, lifted};

use crate::Range;

/// Whether each word of the one range is below each of the other, or none is below one.
#[tactic(auto, using(crate::proofs::Closed::always_below, crate::proofs::Closed::not_below, crate::proofs::Closed::maybe_below))]
pub fn is_below(x: Range, y: Range) -> Option<bool>
    ensures { result ≡ decided (λ v w. nat_lt v w) x y }
{
    if x.highest() < u64::from(y.lo) {
        Some(true)
    } else if y.highest() <= u64::from(x.lo) {
        Some(false)
    } else {
        None
    }
}

/// The least of the words in the order of signed words, moved by half of the words.
#[tactic(auto, using(crate::proofs::Signed::least_low, crate::proofs::Signed::least_high, crate::proofs::Signed::least_past))]
fn least_lifted(range: Range) -> u64
    requires some { 0 < range.step }
    requires words { highest range < 2 ^ 32 }
    ensures { IsLeast lifted range result }
{
    if range.highest() < 0x8000_0000 {
        u64::from(range.lo) + 0x8000_0000
    } else if range.lo >= 0x8000_0000 {
        u64::from(range.lo) - 0x8000_0000
    } else {
        u64::from(range.from(0x8000_0000).lo) - 0x8000_0000
    }
}

/// The greatest of the words in the order of signed words, moved by half of the words.
#[tactic(auto, using(crate::proofs::Signed::greatest_low, crate::proofs::Signed::greatest_high, crate::proofs::Signed::greatest_past))]
fn greatest_lifted(range: Range) -> u64
    requires some { 0 < range.step }
    requires words { highest range < 2 ^ 32 }
    ensures { IsGreatest lifted range result }
{
    if range.highest() < 0x8000_0000 {
        range.highest() + 0x8000_0000
    } else if range.lo >= 0x8000_0000 {
        range.highest() - 0x8000_0000
    } else {
        range.below(0x8000_0000).highest() + 0x8000_0000
    }
}

/// Whether each word of the one range is below each of the other as signed words, or none is below one.
pub fn is_signed_below(x: Range, y: Range) -> Option<bool>
    requires x { 0 < x.step }
    requires y { 0 < y.step }
    requires words_x { highest x < 2 ^ 32 }
    requires words_y { highest y < 2 ^ 32 }
    ensures { result ≡ decided (λ v w. int_lt (signed v) (signed w)) x y }
{
    let least_x = least_lifted(x);
    let greatest_x = greatest_lifted(x);
    let least_y = least_lifted(y);
    let greatest_y = greatest_lifted(y);
    if greatest_x < least_y {
        Some(true)
    } else if greatest_y <= least_x {
        Some(false)
    } else {
        None
    }
}
