//! The words of a code.

ghost use Rattle.std.specs.Prelude.{◌≡◌, ℕ, ℤ, ◌+◌, ◌≤◌, List, [], ◌∷◌, IfSome, IfNone, IfOk, IfErr};
ghost use Rattle.dae_encode.specs.declared.Inst.{Inst};
ghost use Rattle.dae_encode.specs.Spelling.{encoded};
ghost use Rattle.dae_asm_lines.specs.declared.Operands as forms;
ghost use Rattle.dae_asm_lines.specs.Targets.{target_seen};
ghost use Rattle.dae_asm_lines.specs.Lines.{operands_seen};
ghost use Rattle.dae_asm_lines.specs.Names.{operands_of, AreAlike};
ghost use Rattle.dae_asm_order.specs.Sheets as sheets;
ghost use Rattle.dae_asm_sheet.specs.Rows.{row_seen, rows_seen};
ghost use Rattle.dae_asm_labels.specs.Labels.{looks, words};
ghost use Rattle.dae_asm_values.specs.declared.code.CodeFault.TheVariants as faults;
ghost use Rattle.dae_asm_values.specs.Values.{IsWord, IsOffset, AreOperands, IsInstruction, AreFormed};
ghost use Rattle.dae_asm_values.specs.Claims.{code_claims, AreMet, IsSaid, IsCodeFault, said_of};

use dae_asm_labels::{LabelDefinition, definition_of};
use dae_asm_lines::{JumpTarget, LineItem, Operands, instruction_of};
use dae_asm_sheet::Row;
use dae_encode::{Inst, encode};
use indexmap::IndexMap;
use std::alloc::{AllocFailed, Global};

/// The word that a number spells.
fn word_of(number: i64) -> Option<u32>
    ensures some { IfSome result (λ w. IsWord number w) }
    ensures none { IfNone result ((w : ℕ) → IsWord number w → ⊥) }
{
    if 0 <= number && number <= 0xffff_ffff {
        Some(number as u32)
    } else {
        None
    }
}

/// The offset of a target from the address of the instruction that goes there.
fn offset_of(
    table: &IndexMap<&[u8], LabelDefinition>,
    here: u32,
    target: JumpTarget<'_>,
) -> Option<i64>
    ensures some { IfSome result (λ offset.
        IsOffset (looks table.now) here (target_seen target.entry) offset) }
    ensures none { IfNone result ((offset : ℤ)
        → IsOffset (looks table.now) here (target_seen target.entry) offset → ⊥) }
{
    match target {
        JumpTarget::Number(offset) => Some(offset),
        JumpTarget::Label(label) => match definition_of(table, label) {
            Some(there) => Some(i64::from(there.address) - i64::from(here)),
            None => None,
        },
    }
}

fn operands_at(
    table: &IndexMap<&[u8], LabelDefinition>,
    here: u32,
    operands: Operands<JumpTarget<'_>>,
) -> Option<Operands<i64>>
    ensures some { IfSome result (λ o.
        AreOperands (looks table.now) here (operands_seen operands.entry) o) }
    ensures none { IfNone result ((o : forms.Operands ℤ)
        → AreOperands (looks table.now) here (operands_seen operands.entry) o → ⊥) }
{
    match operands {
        Operands::Registers(first, second, third) => {
            Some(Operands::Registers(first, second, third))
        }
        Operands::Immediate(first, second, number) => {
            Some(Operands::Immediate(first, second, number))
        }
        Operands::Based(first, offset, base) => Some(Operands::Based(first, offset, base)),
        Operands::Branch(first, second, target) => match offset_of(table, here, target) {
            Some(offset) => Some(Operands::Branch(first, second, offset)),
            None => None,
        },
        Operands::Upper(first, bits) => Some(Operands::Upper(first, bits)),
        Operands::Jump(first, target) => match offset_of(table, here, target) {
            Some(offset) => Some(Operands::Jump(first, offset)),
            None => None,
        },
        Operands::Alone => Some(Operands::Alone),
    }
}

/// The word of the instruction at an address.
fn instruction_at(
    table: &IndexMap<&[u8], LabelDefinition>,
    here: u32,
    like: &Inst,
    operands: Operands<JumpTarget<'_>>,
) -> Option<u32>
    requires { AreAlike (operands_of like.now) (operands_seen operands) }
    ensures some { IfSome result (λ w. (i : Inst) × ((w ≡ encoded i)
        × IsInstruction (looks table.now) here like.now (operands_seen operands.entry) i)) }
    ensures none { IfNone result ((i : Inst)
        → IsInstruction (looks table.now) here like.now (operands_seen operands.entry) i → ⊥) }
{
    let operands = operands_at(table, here, operands)?;
    match instruction_of(like, operands) {
        Some(inst) => Some(encode(inst)),
        None => None,
    }
}

/// What a row of code says.
#[derive(Clone, Copy)]
pub enum Said {
    /// No word.
    Nothing,
    /// This word.
    Word(u32),
    /// A number that its field does not hold.
    Unmet,
}

fn said_of(found: Option<u32>) -> Said
    ensures { result ≡ said_of found }
{
    match found {
        Some(word) => Said::Word(word),
        None => Said::Unmet,
    }
}

/// What a row of code at an address says.
fn read_row(table: &IndexMap<&[u8], LabelDefinition>, here: u32, row: &Row<'_>) -> Said
    requires { AreFormed (row_seen row.now ∷ []) }
    ensures { IsSaid (looks table.now) here (row_seen row.now) result }
{
    match row.item {
        LineItem::Plain(number) => said_of(word_of(number)),
        LineItem::Instruction(like, operands) => {
            said_of(instruction_at(table, here, &like, operands))
        }
        _ => Said::Nothing,
    }
}

fn words_in(row: &Row<'_>) -> u32
    ensures few { result ≤ 1 }
    ensures words { (rows : List sheets.Row)
        → words (row_seen row.now ∷ rows) ≡ result + words rows }
{
    match row.item {
        LineItem::Instruction(_, _) | LineItem::Plain(_) => 1,
        _ => 0,
    }
}

/// How many words a code has.
pub fn count_words(rows: &[Row<'_>]) -> u32
    requires { words (rows_seen rows.now) ≤ 33554432 }
    ensures { result ≡ words (rows_seen rows.now) }
{
    let mut count = 0;
    for row in rows {
        count += words_in(row);
    }
    count
}

/// Why a code has no words.
#[derive(Drop)]
pub enum CodeFault {
    /// The first line with a number that its field does not hold.
    Unmet(u32),
    /// Memory ran out.
    Memory,
}

impl<T: Drop> From<AllocFailed<T>> for CodeFault {
    ghost from_gives = { λ _ e. e ≡ faults.Memory };

    fn from(_e: AllocFailed<T>) -> CodeFault {
        CodeFault::Memory
    }
}

/// The words of a code.
///
/// # Errors
///
/// A line has a number that its field does not hold, or memory is wanting.
pub fn code_of(
    alloc: Global,
    table: &IndexMap<&[u8], LabelDefinition>,
    rows: &[Row<'_>],
) -> Result<Vec<u32>, CodeFault>
    requires few { words (rows_seen rows.now) ≤ 33554432 }
    requires formed { AreFormed (rows_seen rows.now) }
    ensures ok { IfOk result (λ code.
        AreMet (code_claims (looks table.now) 0 (rows_seen rows.now)) code.items) }
    ensures err { IfErr result (IsCodeFault (looks table.now) (rows_seen rows.now)) }
{
    let mut code = Vec::new(alloc);
    let mut here = 0;
    for row in rows {
        match read_row(table, here, row) {
            Said::Nothing => {}
            Said::Word(word) => {
                code.push(word)?;
                here += 4;
            }
            Said::Unmet => return Err(CodeFault::Unmet(row.line)),
        }
    }
    Ok(code)
}
