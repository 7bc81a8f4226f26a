// The bounds of numbers, sums, differences and products, and of what two bounds tell together.

ghost use Rattle.std.specs.Prelude.{◌≡◌};
ghost use Rattle.dae_select_walks.specs.Facts.{is_bounded, aligned_to, single, lesser, greater};
ghost use Rattle.dae_select_walks.specs.Facts.{added, subtracted, multiplied, closer};

use dae_base::Width;
use dae_select_walks::Bounds;

/// The bounds of which only a width is known that divides.
pub fn aligned_to(width: Width) -> Bounds
    ensures { result ≡ aligned_to width }
{
    Bounds {
        low: 0,
        high: u32::MAX,
        aligned: width,
    }
}

pub fn is_bounded(bounds: Bounds) -> bool
    ensures { result ≡ is_bounded bounds }
{
    bounds.high < u32::MAX
}

/// The bounds of a number.
pub fn single(number: u32) -> Bounds
    ensures { result ≡ single number }
{
    let aligned = if number % 4 == 0 {
        Width::B4
    } else if number % 2 == 0 {
        Width::B2
    } else {
        Width::B1
    };
    Bounds {
        low: number,
        high: number,
        aligned,
    }
}

fn lesser_width(one: Width, other: Width) -> Width
    ensures { result ≡ lesser one other }
{
    match (one, other) {
        (Width::B1, _) => Width::B1,
        (Width::B2, Width::B1) => Width::B1,
        (Width::B2, _) => Width::B2,
        (Width::B4, _) => other,
    }
}

/// The width that both divide where either does.
pub fn greater_width(one: Width, other: Width) -> Width
    ensures { result ≡ greater one other }
{
    match (one, other) {
        (Width::B1, _) => other,
        (Width::B2, Width::B4) => Width::B4,
        (Width::B2, _) => Width::B2,
        (Width::B4, _) => Width::B4,
    }
}

/// The bounds of a sum.
pub fn sum_bounds(one: Bounds, other: Bounds) -> Bounds
    ensures { result ≡ added one other }
{
    let aligned = lesser_width(one.aligned, other.aligned);
    let low = u64::from(one.low) + u64::from(other.low);
    let high = u64::from(one.high) + u64::from(other.high);
    if high < u64::from(u32::MAX) && low <= high {
        Bounds {
            low: low as u32,
            high: high as u32,
            aligned,
        }
    } else {
        aligned_to(aligned)
    }
}

/// The bounds of a difference.
pub fn difference_bounds(one: Bounds, other: Bounds) -> Bounds
    ensures { result ≡ subtracted one other }
{
    let aligned = lesser_width(one.aligned, other.aligned);
    if is_bounded(one) && other.high <= one.low {
        Bounds {
            low: one.low - other.high,
            high: one.high.saturating_sub(other.low),
            aligned,
        }
    } else {
        aligned_to(aligned)
    }
}

/// The bounds of a product.
pub fn product_bounds(one: Bounds, other: Bounds) -> Bounds
    ensures { result ≡ multiplied one other }
{
    let aligned = greater_width(one.aligned, other.aligned);
    let low = u64::from(one.low) * u64::from(other.low);
    let high = u64::from(one.high) * u64::from(other.high);
    let bounded = is_bounded(one) && is_bounded(other);
    if bounded && (high < u64::from(u32::MAX) && low <= high) {
        Bounds {
            low: low as u32,
            high: high as u32,
            aligned,
        }
    } else {
        aligned_to(aligned)
    }
}

/// Both of two bounds.
pub fn closer(one: Bounds, other: Bounds) -> Bounds
    ensures { result ≡ closer one other }
{
    Bounds {
        low: if one.low < other.low {
            other.low
        } else {
            one.low
        },
        high: if one.high < other.high {
            one.high
        } else {
            other.high
        },
        aligned: greater_width(one.aligned, other.aligned),
    }
}
