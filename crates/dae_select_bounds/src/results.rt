// The bounds of what values compute: of operations on words whose bounds are known, of extended words, and of tests.

ghost use Rattle.std.specs.Prelude.{◌≡◌, ◌<◌};
ghost use Rattle.dae_meaning.specs.declared.Operator.TheVariants.{DivideSigned, DivideUnsigned};
ghost use Rattle.dae_meaning.specs.declared.Operator.TheVariants.{RemainderSigned, RemainderUnsigned};
ghost use Rattle.dae_meaning.specs.declared.Operator.TheVariants.{ShiftLeft, ShiftRightSigned};
ghost use Rattle.dae_meaning.specs.declared.Operator.TheVariants.{ShiftRightUnsigned};
ghost use Rattle.dae_select_walks.specs.Facts.{any, is_single, is_small, combined_bounds};
ghost use Rattle.dae_select_walks.specs.Facts.{quotient_bounds, remainder_bounds, conjunction_bounds};
ghost use Rattle.dae_select_walks.specs.Facts.{low_bounds, kept_bounds, extended_bounds, flag_bounds};

use crate::bounds::{
    aligned_to, difference_bounds, greater_width, is_bounded, product_bounds, single, sum_bounds,
};
use dae_base::{LoadKind, Width, power_of_two};
use dae_meaning::Operator;
use dae_select_walks::Bounds;

/// The bounds of any word.
pub fn any() -> Bounds
    ensures { result ≡ any }
{
    aligned_to(Width::B1)
}

/// Whether only one word lies in these bounds.
fn is_single(bounds: Bounds) -> bool
    ensures { result ≡ is_single bounds }
{
    is_bounded(bounds) && bounds.low == bounds.high
}

/// Whether each word of these bounds is the same as a signed one.
fn is_small(bounds: Bounds) -> bool
    ensures { result ≡ is_small bounds }
{
    bounds.high < 1 << 31
}

/// The bounds of a quotient by a number.
fn quotient_bounds(bounds: Bounds, number: u32) -> Bounds
    requires { 0 < number }
    ensures { result ≡ quotient_bounds bounds number }
{
    Bounds {
        low: bounds.low / number,
        high: bounds.high / number,
        aligned: Width::B1,
    }
}

/// The bounds of a remainder by words above 0.
fn remainder_bounds(one: Bounds, other: Bounds) -> Bounds
    ensures { result ≡ remainder_bounds one other }
{
    Bounds {
        low: 0,
        high: if one.high < other.high {
            one.high
        } else {
            other.high.saturating_sub(1)
        },
        aligned: Width::B1,
    }
}

/// The bounds of a conjunction, which is at most either operand.
fn conjunction_bounds(one: Bounds, other: Bounds) -> Bounds
    ensures { result ≡ conjunction_bounds one other }
{
    Bounds {
        low: 0,
        high: if one.high < other.high {
            one.high
        } else {
            other.high
        },
        aligned: greater_width(one.aligned, other.aligned),
    }
}

fn unsigned_quotient(one: Bounds, other: Bounds) -> Bounds
    ensures { result ≡ combined_bounds DivideUnsigned one other }
{
    if is_bounded(one) && is_single(other) && 0 < other.low {
        quotient_bounds(one, other.low)
    } else {
        any()
    }
}

fn signed_quotient(one: Bounds, other: Bounds) -> Bounds
    ensures { result ≡ combined_bounds DivideSigned one other }
{
    if is_small(one) && is_small(other) && is_single(other) && 0 < other.low {
        quotient_bounds(one, other.low)
    } else {
        any()
    }
}

fn unsigned_remainder(one: Bounds, other: Bounds) -> Bounds
    ensures { result ≡ combined_bounds RemainderUnsigned one other }
{
    if is_bounded(other) && 0 < other.low {
        remainder_bounds(one, other)
    } else {
        any()
    }
}

fn signed_remainder(one: Bounds, other: Bounds) -> Bounds
    ensures { result ≡ combined_bounds RemainderSigned one other }
{
    if is_small(one) && is_small(other) && 0 < other.low {
        remainder_bounds(one, other)
    } else {
        any()
    }
}

/// Of a shift to the left by a number, which is a product.
fn left_shift(one: Bounds, other: Bounds) -> Bounds
    ensures { result ≡ combined_bounds ShiftLeft one other }
{
    if is_single(other) {
        product_bounds(one, single(power_of_two(other.low % 32)))
    } else {
        any()
    }
}

/// Of a shift to the right by a number, which is a quotient.
fn unsigned_right_shift(one: Bounds, other: Bounds) -> Bounds
    ensures { result ≡ combined_bounds ShiftRightUnsigned one other }
{
    if is_bounded(one) && is_single(other) {
        quotient_bounds(one, power_of_two(other.low % 32))
    } else {
        any()
    }
}

fn signed_right_shift(one: Bounds, other: Bounds) -> Bounds
    ensures { result ≡ combined_bounds ShiftRightSigned one other }
{
    if is_small(one) && is_single(other) {
        quotient_bounds(one, power_of_two(other.low % 32))
    } else {
        any()
    }
}

/// The bounds of a result.
pub fn combined_bounds(operator: Operator, one: Bounds, other: Bounds) -> Bounds
    ensures { result ≡ combined_bounds operator one other }
{
    match operator {
        Operator::Add => sum_bounds(one, other),
        Operator::Subtract => difference_bounds(one, other),
        Operator::Multiply => product_bounds(one, other),
        Operator::DivideSigned => signed_quotient(one, other),
        Operator::DivideUnsigned => unsigned_quotient(one, other),
        Operator::RemainderSigned => signed_remainder(one, other),
        Operator::RemainderUnsigned => unsigned_remainder(one, other),
        Operator::And => conjunction_bounds(one, other),
        Operator::ShiftLeft => left_shift(one, other),
        Operator::ShiftRightSigned => signed_right_shift(one, other),
        Operator::ShiftRightUnsigned => unsigned_right_shift(one, other),
        Operator::Or | Operator::Xor => any(),
    }
}

/// The bounds of low bits that are at most this.
fn low_bounds(most: u32, bounds: Bounds) -> Bounds
    ensures { result ≡ low_bounds most bounds }
{
    if bounds.high <= most {
        bounds
    } else {
        Bounds {
            low: 0,
            high: most,
            aligned: bounds.aligned,
        }
    }
}

/// The bounds of words that stay as they are where they are at most this.
fn kept_bounds(most: u32, bounds: Bounds) -> Bounds
    ensures { result ≡ kept_bounds most bounds }
{
    if bounds.high <= most { bounds } else { any() }
}

/// The bounds of a word's low bits, extended as a load of this kind does it.
pub fn extended_bounds(kind: LoadKind, bounds: Bounds) -> Bounds
    ensures { result ≡ extended_bounds kind bounds }
{
    match kind {
        LoadKind::I8 => kept_bounds(127, bounds),
        LoadKind::U8 => low_bounds(255, bounds),
        LoadKind::I16 => kept_bounds(32_767, bounds),
        LoadKind::U16 => low_bounds(65_535, bounds),
        LoadKind::I32 => bounds,
    }
}

/// The bounds of 1 where a test holds, and else 0.
pub fn flag_bounds() -> Bounds
    ensures { result ≡ flag_bounds }
{
    Bounds {
        low: 0,
        high: 1,
        aligned: Width::B1,
    }
}
