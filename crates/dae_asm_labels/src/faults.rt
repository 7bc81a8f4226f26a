//! The lines whose labels are not as they should be.

ghost use Rattle.std.specs.Prelude.{◌≡◌};
ghost use Rattle.dae_asm_lines.specs.Targets.{target_seen};
ghost use Rattle.dae_asm_lines.specs.Lines.{operands_seen};
ghost use Rattle.dae_asm_sheet.specs.Rows.{row_seen, rows_seen, sheet_seen};
ghost use Rattle.dae_asm_labels.specs.Labels.{looks, is_known, operands_known, row_test, label_tests, all_label_tests, first_false, labels_a, labels_e};

use crate::definitions::{LabelDefinition, Labels, definition_of};
use dae_asm_lines::{JumpTarget, LineItem, Operands};
use dae_asm_sheet::{Row, Sheet};
use indexmap::IndexMap;

fn is_known(table: &IndexMap<&[u8], LabelDefinition>, target: JumpTarget<'_>) -> bool
    ensures { result ≡ is_known (looks table.now) (target_seen target.entry) }
{
    match target {
        JumpTarget::Number(_) => true,
        JumpTarget::Label(label) => definition_of(table, label).is_some(),
    }
}

fn operands_known(
    table: &IndexMap<&[u8], LabelDefinition>,
    operands: Operands<JumpTarget<'_>>,
) -> bool
    ensures { result ≡ operands_known (looks table.now) (operands_seen operands.entry) }
{
    match operands {
        Operands::Branch(_, _, target) => is_known(table, target),
        Operands::Jump(_, target) => is_known(table, target),
        _ => true,
    }
}

/// Whether a row defines no label a second time and uses none that is not defined.
fn is_sound(table: &IndexMap<&[u8], LabelDefinition>, row: &Row<'_>) -> bool
    ensures { result ≡ row_test (looks table.now) (row_seen row.now) }
{
    match row.item {
        LineItem::Label(label) => match definition_of(table, label) {
            Some(definition) => definition.line == row.line,
            None => false,
        },
        LineItem::Instruction(_, operands) => operands_known(table, operands),
        _ => true,
    }
}

fn code_fault(table: &IndexMap<&[u8], LabelDefinition>, rows: &[Row<'_>]) -> Option<u32>
    ensures { result ≡ first_false (label_tests (looks table.now) (rows_seen rows.now)) }
{
    for row in rows {
        if !is_sound(table, row) {
            return Some(row.line);
        }
    }
    None
}

/// The first line of a text in order that defines a label a second time, or uses one that its side
/// does not define.
pub fn label_fault(labels: &Labels<'_>, sheet: &Sheet<'_, '_>) -> Option<u32>
    requires a { looks labels.now.a ≡ labels_a (sheet_seen sheet.now) }
    requires e { looks labels.now.e ≡ labels_e (sheet_seen sheet.now) }
    ensures { result ≡ first_false (all_label_tests (sheet_seen sheet.now)) }
{
    let (line, a, e) = sheet.entry;
    if !is_known(&labels.a, a) || !is_known(&labels.e, e) {
        return Some(line);
    }
    match code_fault(&labels.a, sheet.code_a) {
        Some(line) => Some(line),
        None => code_fault(&labels.e, sheet.code_e),
    }
}
