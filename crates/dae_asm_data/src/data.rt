//! Data.

ghost use Rattle.std.specs.Prelude.{◌≡◌, ℕ, pos, ◌+◌, ◌<◌, ◌≤◌, List, [], ◌∷◌, length, IfSome, IfNone, IfOk, IfErr};
ghost use Rattle.dae_asm_lines.specs.Tokens.{LineToken, tokens_of};
ghost use Rattle.dae_asm_lines.specs.Scanning.{scanned};
ghost use Rattle.dae_asm_lines.specs.Lines.{numbers_in};
ghost use Rattle.dae_asm_sheet.specs.Rows.{row_seen, rows_seen, bytes_in};
ghost use Rattle.dae_asm_data.specs.Bounds.{data_bounds, IsValueFault};
ghost use Rattle.dae_asm_data.specs.Parts.{IsContent};
ghost use Rattle.dae_asm_data.specs.Walking.{IsPut, IsRowPut};

use crate::faults::ValueFault;
use crate::rows::data_in;
use dae_asm_lines::{Scanned, next_token};
use dae_asm_sheet::Row;
use std::alloc::{AllocError, Global};

/// The byte that a number says.
fn byte_of(number: i64) -> Option<u8>
    ensures some { IfSome result (λ b. number ≡ pos b) }
    ensures none { IfNone result ((b : ℕ) → b < 256 → number ≡ pos b → ⊥) }
{
    if 0 <= number && number <= 255 {
        Some(number as u8)
    } else {
        None
    }
}

/// The number that a token is.
fn number_of(token: Scanned<'_>) -> Option<i64>
    ensures some { IfSome result (λ number. (tokens : List LineToken)
        → numbers_in (scanned token.entry ∷ tokens) ≡ number ∷ numbers_in tokens) }
    ensures none { IfNone result ((tokens : List LineToken)
        → numbers_in (scanned token.entry ∷ tokens) ≡ numbers_in tokens) }
{
    match token {
        Scanned::Number(number) => Some(number),
        _ => None,
    }
}

/// The first number of a line, and what follows it.
fn next_number(line: &[u8]) -> Option<(i64, &[u8])>
    ensures some { IfSome result (λ x.
        numbers_in (tokens_of line.now) ≡ x.0 ∷ numbers_in (tokens_of x.1.now)) }
    ensures none { IfNone result (numbers_in (tokens_of line.now) ≡ []) }
{
    let mut rest = line;
    while let Some((token, after)) = next_token(rest) {
        if let Some(number) = number_of(token) {
            return Some((number, after));
        }
        rest = after;
    }
    None
}

/// Puts the bytes that the numbers of a line say behind others, or tells that one is no byte.
pub fn put_bytes(out: &mut Vec<u8>, line: &[u8]) -> Result<bool, AllocError>
    ensures { IfOk result
        (IsPut out.old.items out.new.items (numbers_in (tokens_of line.now))) }
{
    let mut rest = line;
    while let Some((number, after)) = next_number(rest) {
        let Some(byte) = byte_of(number) else {
            return Ok(false);
        };
        out.push(byte)?;
        rest = after;
    }
    Ok(true)
}

/// Puts the data of a row behind others, or tells that a number is no byte or the data pass the end
/// of the memory.
fn put_row(content: &mut Vec<u8>, memory: u32, row: &Row<'_>) -> Result<bool, AllocError>
    requires { 16 + length content.old.items ≤ memory }
    ensures { IfOk result
        (IsRowPut memory content.old.items content.new.items (row_seen row.now)) }
{
    let Some(line) = data_in(row) else {
        return Ok(true);
    };
    let are_bytes = put_bytes(content, line)?;
    Ok(are_bytes && content.len() <= memory as usize - 16)
}

/// The data that rows say.
///
/// # Errors
///
/// The first line with a number that is no byte, or whose data pass the end of the memory; or memory
/// is wanting.
pub fn content_of(alloc: Global, memory: u32, rows: &[Row<'_>]) -> Result<Vec<u8>, ValueFault>
    requires { 16 ≤ memory }
    ensures ok { IfOk result (λ content.
        IsContent memory (bytes_in (rows_seen rows.now)) content.items) }
    ensures err { IfErr result
        (IsValueFault (data_bounds (pos memory) 0 (bytes_in (rows_seen rows.now)))) }
{
    let mut content = Vec::new(alloc);
    for row in rows {
        if !put_row(&mut content, memory, row)? {
            return Err(ValueFault::Line(row.line));
        }
    }
    Ok(content)
}
