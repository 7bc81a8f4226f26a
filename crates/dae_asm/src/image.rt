//! The image that a text in order says.

ghost use Rattle.std.specs.Prelude.{◌≡◌, ◌<◌, ◌≤◌, ◌^◌, All, IfOk, IfErr};
ghost use Rattle.dae_image.specs.Images.{contents};
ghost use Rattle.dae_asm_sheet.specs.Rows.{rows_seen, sheet_seen};
ghost use Rattle.dae_asm_labels.specs.Labels.{looks, words};
ghost use Rattle.dae_asm_values.specs.Values.{AreFormed};
ghost use Rattle.dae_asm_data.specs.Bounds.{IsValueFault};
ghost use Rattle.dae_asm.specs.Assembly.{Says, bounds, code_bounds};
ghost use Rattle.dae_asm.specs.Making.{HasTables, AreFew, IsCode, AreCodesFormed};

use crate::head::head_of;
use dae_asm_data::{TextCounts, ValueFault, content_of, count_names, marks_of, names_of};
use dae_asm_labels::{LabelDefinition, Labels};
use dae_asm_sheet::{Row, Sheet};
use dae_asm_values::{CodeFault, code_of, count_words};
use dae_base::Items;
use dae_image::Image;
use indexmap::IndexMap;
use std::alloc::Global;

// A word is below 2 ^ 32.
fn see_words(code: &[u32])
    ensures { All (λ w. w < 2 ^ 32) code.now }
{}

/// The words of a code that begins on this line.
///
/// # Errors
///
/// The first line with a number that its field does not hold, this line where the code has no word;
/// or memory is wanting.
fn code_from(
    alloc: Global,
    table: &IndexMap<&[u8], LabelDefinition>,
    line: u32,
    rows: &[Row<'_>],
) -> Result<Vec<u32>, ValueFault>
    requires few { words (rows_seen rows.now) ≤ 33554432 }
    requires formed { AreFormed (rows_seen rows.now) }
    ensures ok { IfOk result
        (λ code. IsCode line (looks table.now) (rows_seen rows.now) code.items) }
    ensures err { IfErr result
        (IsValueFault (code_bounds line (looks table.now) (rows_seen rows.now))) }
{
    if count_words(rows) == 0 {
        return Err(ValueFault::Line(line));
    }
    match code_of(alloc, table, rows) {
        Ok(code) => {
            see_words(code.as_slice());
            Ok(code)
        }
        Err(CodeFault::Unmet(line)) => Err(ValueFault::Line(line)),
        Err(CodeFault::Memory) => Err(ValueFault::Memory),
    }
}

/// The image that a text in order says, whose labels are as they should be.
///
/// # Errors
///
/// The first line with a number that its field does not hold, or memory is wanting.
pub fn image_of(
    alloc: Global,
    labels: &Labels<'_>,
    sheet: &Sheet<'_, '_>,
) -> Result<Image, ValueFault>
    requires tables { HasTables labels.now (sheet_seen sheet.now) }
    requires few { AreFew (sheet_seen sheet.now) }
    requires formed { AreCodesFormed (sheet_seen sheet.now) }
    ensures ok { IfOk result (λ image. Says (sheet_seen sheet.now) (contents image)) }
    ensures err { IfErr result (IsValueFault (bounds (sheet_seen sheet.now))) }
{
    let counts = TextCounts {
        words_a: count_words(sheet.code_a),
        words_e: count_words(sheet.code_e),
        names: count_names(sheet.names),
    };
    let head = head_of(labels, counts, sheet)?;
    let code_a = code_from(alloc, &labels.a, sheet.begin_a, sheet.code_a)?;
    let code_e = code_from(alloc, &labels.e, sheet.begin_e, sheet.code_e)?;
    let content = content_of(alloc, head.memory, sheet.bytes)?;
    let lines = marks_of(alloc, counts, sheet.marks)?;
    let names = names_of(alloc, sheet.names)?;
    Ok(Image {
        budget: head.budget,
        memory: head.memory,
        calls: head.calls,
        private_a: head.private_a,
        private_e: head.private_e,
        entry_a: head.entry_a,
        entry_e: head.entry_e,
        code_a: Items::from_vec(code_a),
        code_e: Items::from_vec(code_e),
        content: Items::from_vec(content),
        lines: Items::from_vec(lines),
        names: Items::from_vec(names),
    })
}
