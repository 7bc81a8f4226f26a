// Words that two ranges have in common: all of one, some, or one and no other.
ghost use Rattle.std.specs.Prelude.{◌≡◌, ◌<◌, ◌&&◌, nat_eq};
ghost use Rattle.dae_ranges.specs.Ranges.{within, shares, decided};

use crate::Range;
use crate::congruences::first_with_rest;
use crate::cuts::below_count;

/// Whether each word of the one range is one of the other.
#[tactic(auto, using(crate::proofs::Closed::within_ends))]
pub fn within(outer: Range, range: Range) -> bool
    requires some { 0 < outer.step }
    ensures { result ≡ within outer range }
{
    outer.lo <= range.lo
        && range.highest() <= outer.highest()
        && (range.lo - outer.lo) % outer.step == 0
        && (range.count == 0 || range.step % outer.step == 0)
}

/// Whether some word of the one range is one of the other. Of the words that are not below the other's least, the first
/// whose distance from it is a multiple of the other's step tells.
#[tactic(auto, using(crate::proofs::Closed::shares_none, crate::proofs::Closed::shares_first))]
fn shares(x: Range, y: Range) -> bool
    requires x { 0 < x.step }
    requires y { 0 < y.step }
    ensures { result ≡ shares x y }
{
    let low = below_count(x, u64::from(y.lo));
    let step = u64::from(y.step);
    let past = u64::from(x.lo) + low * u64::from(x.step) - u64::from(y.lo);
    let rest = (step - past % step) % step;
    match first_with_rest(u64::from(x.step) % step, rest, step) {
        None => false,
        Some(turns) => {
            low + turns <= u64::from(x.count)
                && y.has(u64::from(x.lo) + (low + turns) * u64::from(x.step))
        }
    }
}

/// Whether there is one word in each, and it is the same.
fn is_same(x: Range, y: Range) -> bool
    ensures { result ≡ (nat_eq x.count 0 && (nat_eq y.count 0 && nat_eq x.lo y.lo)) }
{
    x.count == 0 && y.count == 0 && x.lo == y.lo
}

/// Whether each word of the one range is each of the other, or none is one.
#[tactic(auto, using(crate::proofs::Closed::equal_by))]
pub fn is_equal(x: Range, y: Range) -> Option<bool>
    requires x { 0 < x.step }
    requires y { 0 < y.step }
    ensures { result ≡ decided (λ v w. nat_eq v w) x y }
{
    let same = is_same(x, y);
    let met = shares(x, y);
    if same {
        Some(true)
    } else if met {
        None
    } else {
        Some(false)
    }
}
