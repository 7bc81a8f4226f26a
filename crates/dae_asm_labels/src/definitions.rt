//! Where labels are defined.

ghost use Rattle.std.specs.Prelude.{◌≡◌, ℕ, ◌+◌, ◌*◌, ◌≤◌, List, ◌∷◌, Option, if◌then◌else◌, IfOk, OnOk};
ghost use Rattle.std.specs.Str.{bytes_eq};
ghost use Rattle.dae_asm_order.specs.Sheets as sheets;
ghost use Rattle.dae_asm_sheet.specs.Rows.{row_seen, rows_seen, sheet_seen};
ghost use Rattle.dae_asm_labels.specs.Labels.{words, looks, looks_in, labels_a, labels_e};
ghost use Rattle.dae_asm_labels.specs.Tables.{found_or, or_else};

use dae_asm_lines::LineItem;
use dae_asm_sheet::{Row, Sheet};
use indexmap::IndexMap;
use std::alloc::{AllocError, Global};

/// The address of a label, and the number of the line that defines it first.
#[derive(Clone, Copy)]
pub struct LabelDefinition {
    pub address: u32,
    pub line: u32,
}

/// The labels of each side.
#[derive(Drop)]
pub struct Labels<'t> {
    pub a: IndexMap<&'t [u8], LabelDefinition>,
    pub e: IndexMap<&'t [u8], LabelDefinition>,
}

/// The definition of a label.
pub fn definition_of(
    table: &IndexMap<&[u8], LabelDefinition>,
    label: &[u8],
) -> Option<LabelDefinition>
    ensures { result ≡ looks table.now label.now }
{
    table.get(label).copied()
}

/// Notes a definition of a label, where it has none.
fn note<'t>(
    table: &mut IndexMap<&'t [u8], LabelDefinition>,
    label: &'t [u8],
    definition: LabelDefinition,
) -> Result<(), AllocError>
    ensures { OnOk result ((name : List ℕ) (other : Option LabelDefinition)
        → or_else (looks table.old name)
        (if bytes_eq name label.now then Some definition else other)
        ≡ or_else (looks table.new name) other) }
{
    if table.contains_key(label) {
        return Ok(());
    }
    table.insert(label, definition)?;
    Ok(())
}

/// Notes the label that a row defines, and gives the address behind the row.
fn define<'t>(
    table: &mut IndexMap<&'t [u8], LabelDefinition>,
    address: u32,
    row: &Row<'t>,
) -> Result<u32, AllocError>
    requires { address + 4 ≤ 134217732 }
    ensures same { IfOk result (λ next. (name : List ℕ) (rows : List sheets.Row)
        → found_or name table.old address (row_seen row.now ∷ rows)
        ≡ found_or name table.new next rows) }
    ensures words { IfOk result (λ next. (rows : List sheets.Row)
        → next + 4 * words rows ≡ address + 4 * words (row_seen row.now ∷ rows)) }
{
    match row.item {
        LineItem::Label(label) => {
            let definition = LabelDefinition {
                address,
                line: row.line,
            };
            note(table, label, definition)?;
            Ok(address)
        }
        LineItem::Instruction(_, _) | LineItem::Plain(_) => Ok(address + 4),
        _ => Ok(address),
    }
}

fn definitions<'t>(
    alloc: Global,
    rows: &[Row<'t>],
) -> Result<IndexMap<&'t [u8], LabelDefinition>, AllocError>
    requires { words (rows_seen rows.now) ≤ 33554432 }
    ensures { IfOk result (λ table. looks table ≡ looks_in (rows_seen rows.now)) }
{
    let mut table = IndexMap::new(alloc);
    let mut address = 0;
    for row in rows {
        address = define(&mut table, address, row)?;
    }
    Ok(table)
}

/// The labels of a text in order.
///
/// # Errors
///
/// Memory is wanting.
pub fn labels_of<'t>(alloc: Global, sheet: &Sheet<'_, 't>) -> Result<Labels<'t>, AllocError>
    requires few_a { words (rows_seen sheet.now.code_a.now) ≤ 33554432 }
    requires few_e { words (rows_seen sheet.now.code_e.now) ≤ 33554432 }
    ensures a { IfOk result (λ labels. looks labels.a ≡ labels_a (sheet_seen sheet.now)) }
    ensures e { IfOk result (λ labels. looks labels.e ≡ labels_e (sheet_seen sheet.now)) }
{
    Ok(Labels {
        a: definitions(alloc, sheet.code_a)?,
        e: definitions(alloc, sheet.code_e)?,
    })
}
