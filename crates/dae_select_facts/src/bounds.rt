// What is needed of the test of an address within bounds, what bounds an address has that has passed its test, and which bounds
// are inside others.

ghost use Rattle.std.specs.Prelude.{◌≡◌};
ghost use Rattle.dae_select_walks.specs.Facts.{says_nothing, is_aligned, is_good, passed_bounds, is_inside};

use dae_base::Width;
use dae_select_bounds::{greater_width, is_bounded};
use dae_select_walks::Bounds;

/// Whether any word lies in these bounds.
pub fn says_nothing(bounds: Bounds) -> bool
    ensures { result ≡ says_nothing bounds }
{
    bounds.low == 0 && !is_bounded(bounds) && bounds.aligned.bytes() == 1
}

/// Whether each word in these bounds is a multiple of the bytes of the width.
pub fn is_aligned(width: Width, bounds: Bounds) -> bool
    ensures { result ≡ is_aligned width bounds }
{
    width.bytes() <= bounds.aligned.bytes()
}

/// Whether each word in these bounds is good for an access of the width, with so many bytes of memory.
pub fn is_good(memory: u32, width: Width, bounds: Bounds) -> bool
    ensures { result ≡ is_good memory width bounds }
{
    let end = u64::from(bounds.high) + u64::from(width.bytes());
    is_aligned(width, bounds) && 16 <= bounds.low && is_bounded(bounds) && end <= u64::from(memory)
}

/// The bounds of an address that has passed its test.
pub fn passed_bounds(memory: u32, width: Width, bounds: Bounds) -> Bounds
    ensures { result ≡ passed_bounds memory width bounds }
{
    let last = memory.saturating_sub(u32::from(width.bytes()));
    Bounds {
        low: if bounds.low < 16 { 16 } else { bounds.low },
        high: if bounds.high < last {
            bounds.high
        } else {
            last
        },
        aligned: greater_width(width, bounds.aligned),
    }
}

/// Each word in the one bounds is in the others.
pub fn is_inside(one: Bounds, other: Bounds) -> bool
    ensures { result ≡ is_inside one other }
{
    let high = !is_bounded(other) || (is_bounded(one) && one.high <= other.high);
    other.low <= one.low && high && is_aligned(other.aligned, one)
}
