//! Ranges: pairs, moves and cuts.

ghost use Rattle.std.specs.Prelude.{◌<◌, ◌^◌, IfSome};
ghost use Rattle.dae_ranges.specs.Ranges.{highest};

use dae_base::Width;
use dae_ranges::{Range, all_fit, is_below, is_equal, is_signed_below, meet, within};
use dae_rows::{number, part, word_in};
use std::alloc::{AllocError, Global};

/// The words from the least to the greatest, in steps.
fn range(lo: u32, hi: u32, step: u32) -> Option<Range>
    ensures steps { IfSome result (λ r. 0 < r.step) }
    ensures words { IfSome result (λ r. highest r < 2 ^ 32) }
{
    if step == 0 || hi < lo {
        return None;
    }
    Some(Range {
        lo,
        step,
        count: (hi - lo) / step,
    })
}

fn word(text: &str, at: usize) -> u32 {
    number(word_in(text, at))
}

/// The range of a text: its least word, its greatest, and its step.
fn range_in(text: &str) -> Option<Range>
    ensures steps { IfSome result (λ r. 0 < r.step) }
    ensures words { IfSome result (λ r. highest r < 2 ^ 32) }
{
    range(word(text, 0), word(text, 1), word(text, 2))
}

fn width_in(text: &str, at: usize) -> Width {
    match word_in(text, at) {
        "1" => Width::B1,
        "2" => Width::B2,
        _ => Width::B4,
    }
}

/// Whether the first lies in the second, and whether all words of the first are equal to, below and, as signed words, below
/// all words of the second.
fn relations(x: &str, y: &str) -> Option<(bool, Option<bool>, Option<bool>, Option<bool>)> {
    let x = range_in(x)?;
    let y = range_in(y)?;
    Some((
        within(y, x),
        is_equal(x, y),
        is_below(x, y),
        is_signed_below(x, y),
    ))
}

/// What the two ranges of a row have in common.
pub fn compared(alloc: Global, row: &str) -> Result<String, AllocError> {
    let found = relations(part(row, 2), part(row, 3));
    format!(in alloc; "{found:?}")
}

/// The range of a row, moved.
pub fn moved(alloc: Global, row: &str) -> Result<String, AllocError> {
    let offset = number(part(row, 3));
    let found = range_in(part(row, 2)).and_then(|r| r.shift(offset));
    format!(in alloc; "{found:?}")
}

/// Whether accesses of a width at each word of a row's range fit between two addresses.
pub fn fits(alloc: Global, row: &str) -> Result<String, AllocError> {
    let place = part(row, 3);
    let (low, high, width) = (word(place, 1), word(place, 2), width_in(place, 0));
    let found = range_in(part(row, 2)).map(|r| all_fit(low, high, width, r));
    format!(in alloc; "{found:?}")
}

/// Whether accesses at the two ranges of a row may share a byte.
pub fn meets(alloc: Global, row: &str) -> Result<String, AllocError> {
    let (x, y) = (part(row, 2), part(row, 3));
    let (wx, wy) = (width_in(x, 3), width_in(y, 3));
    let found = range_in(x).and_then(|x| range_in(y).map(|y| meet(x, wx, y, wy)));
    format!(in alloc; "{found:?}")
}
