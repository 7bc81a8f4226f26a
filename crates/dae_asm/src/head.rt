//! The numbers at the head of a text.

ghost use Rattle.std.specs.Prelude.{◌≡◌, IfOk, IfErr};
ghost use Rattle.dae_asm_sheet.specs.Rows.{sheet_seen};
ghost use Rattle.dae_asm_data.specs.Bounds.{IsValueFault};
ghost use Rattle.dae_asm.specs.Assembly.{counts_of, head_bounds};
ghost use Rattle.dae_asm.specs.Making.{HasTables, IsHead, AreFew};

use dae_asm_data::{TextCounts, ValueFault};
use dae_asm_labels::Labels;
use dae_asm_sheet::Sheet;
use dae_asm_values::{budget_of, calls_of, entry_of, memory_of, private_of};
use dae_base::Depths;

/// The numbers at the head of an image.
#[derive(Clone, Copy)]
pub struct Head {
    pub budget: Depths,
    pub memory: u32,
    pub calls: u16,
    pub private_a: u32,
    pub private_e: u32,
    pub entry_a: u32,
    pub entry_e: u32,
}

/// The numbers at the head of a text in order, whose codes have so many words.
///
/// # Errors
///
/// The first line with a number that its field does not hold.
pub fn head_of(
    labels: &Labels<'_>,
    counts: TextCounts,
    sheet: &Sheet<'_, '_>,
) -> Result<Head, ValueFault>
    requires tables { HasTables labels.now (sheet_seen sheet.now) }
    requires few { AreFew (sheet_seen sheet.now) }
    requires counted { counts ≡ counts_of (sheet_seen sheet.now) }
    ensures ok { IfOk result (IsHead (sheet_seen sheet.now)) }
    ensures err { IfErr result (IsValueFault (head_bounds (sheet_seen sheet.now))) }
{
    let (line, numbers) = sheet.budget;
    let Some(budget) = budget_of(numbers) else {
        return Err(ValueFault::Line(line));
    };
    let (line, number) = sheet.memory;
    let Some(memory) = memory_of(number) else {
        return Err(ValueFault::Line(line));
    };
    let (line, number) = sheet.calls;
    let Some(calls) = calls_of(number) else {
        return Err(ValueFault::Line(line));
    };
    let (line, a, e) = sheet.private;
    let Some(private_a) = private_of(a) else {
        return Err(ValueFault::Line(line));
    };
    let Some(private_e) = private_of(e) else {
        return Err(ValueFault::Line(line));
    };
    let (line, a, e) = sheet.entry;
    let Some(entry_a) = entry_of(&labels.a, counts.words_a, a) else {
        return Err(ValueFault::Line(line));
    };
    let Some(entry_e) = entry_of(&labels.e, counts.words_e, e) else {
        return Err(ValueFault::Line(line));
    };
    Ok(Head {
        budget,
        memory,
        calls,
        private_a,
        private_e,
        entry_a,
        entry_e,
    })
}
