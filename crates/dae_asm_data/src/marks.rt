//! Line marks.

ghost use Rattle.std.specs.Prelude.{◌≡◌, ℕ, Option, None, IfSome, IfNone, IfOk, IfErr};
ghost use Rattle.dae_image.specs.declared.LineMark as images;
ghost use Rattle.dae_asm_sheet.specs.Rows.{row_seen, rows_seen, marks_in};
ghost use Rattle.dae_asm_values.specs.Values.{IsWord};
ghost use Rattle.dae_asm_data.specs.Data.{MarkRow, words_on};
ghost use Rattle.dae_asm_data.specs.Bounds.{mark_bounds, IsValueFault};
ghost use Rattle.dae_asm_data.specs.Parts.{AreMarks};
ghost use Rattle.dae_asm_data.specs.Walking.{IsLast, IsSpelled, may_stand, IsMarkFound};

use crate::faults::{Found, ValueFault};
use crate::rows::mark_in;
use dae_asm_sheet::Row;
use dae_base::Side;
use dae_image::{LineMark, follows};
use std::alloc::Global;

/// How many words the codes of a text have, and how many names it has.
#[derive(Clone, Copy)]
pub struct TextCounts {
    pub words_a: u32,
    pub words_e: u32,
    pub names: u32,
}

impl TextCounts {
    fn words_on(self, side: Side) -> u32
        ensures { result ≡ words_on self side }
    {
        match side {
            Side::A => self.words_a,
            Side::E => self.words_e,
        }
    }
}

fn word_of(number: i64) -> Option<u32>
    ensures some { IfSome result (λ n. IsWord number n) }
    ensures none { IfNone result ((n : ℕ) → IsWord number n → ⊥) }
{
    if 0 <= number && number <= 0xffff_ffff {
        Some(number as u32)
    } else {
        None
    }
}

/// The mark of these numbers: a word, a file and a line.
fn mark_of_numbers(side: Side, numbers: (i64, i64, i64)) -> Option<LineMark>
    ensures some { IfSome result (λ m. IsSpelled side numbers m) }
    ensures none { IfNone result ((m : images.LineMark) → IsSpelled side numbers m → ⊥) }
{
    Some(LineMark {
        side,
        word: word_of(numbers.0)?,
        file: word_of(numbers.1)?,
        line: word_of(numbers.2)?,
    })
}

/// Whether a mark may stand behind so many others, of which this is the last.
fn may_stand(counts: TextCounts, before: usize, last: Option<LineMark>, mark: LineMark) -> bool
    ensures { result ≡ may_stand counts before last mark }
{
    before < 262_144
        && follows(last, mark)
        && mark.word < counts.words_on(mark.side)
        && mark.file < counts.names
        && 0 < mark.line
}

/// What a row says of marks behind so many others, of which this is the last.
fn mark_at(
    counts: TextCounts,
    before: usize,
    last: Option<LineMark>,
    row: &Row<'_>,
) -> Found<LineMark>
    ensures { (row_before : Option MarkRow) → IsLast row_before last
        → IsMarkFound counts before row_before (row_seen row.now) result }
{
    let Some((side, word, file, line)) = mark_in(row) else {
        return Found::Nothing;
    };
    let Some(mark) = mark_of_numbers(side, (word, file, line)) else {
        return Found::Broken;
    };
    if may_stand(counts, before, last, mark) {
        Found::Value(mark)
    } else {
        Found::Broken
    }
}

/// The marks that rows say.
///
/// # Errors
///
/// The first line with a number that its field does not hold, or whose mark does not follow the one
/// before; or memory is wanting.
pub fn marks_of(
    alloc: Global,
    counts: TextCounts,
    rows: &[Row<'_>],
) -> Result<Vec<LineMark>, ValueFault>
    ensures ok { IfOk result (λ marks.
        AreMarks counts (marks_in (rows_seen rows.now)) marks.items) }
    ensures err { IfErr result
        (IsValueFault (mark_bounds counts 0 None (marks_in (rows_seen rows.now)))) }
{
    let mut marks = Vec::new(alloc);
    let mut last = None;
    for row in rows {
        match mark_at(counts, marks.len(), last, row) {
            Found::Nothing => {}
            Found::Value(mark) => {
                marks.push(mark)?;
                last = Some(mark);
            }
            Found::Broken => return Err(ValueFault::Line(row.line)),
        }
    }
    Ok(marks)
}
