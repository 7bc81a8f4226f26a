//! Names of files.

ghost use Rattle.std.specs.Prelude.{◌≡◌, ◌≤◌, true, false, length, MatchOption, IfOk, IfErr};
ghost use Rattle.dae_image.specs.Contents.{is_name};
ghost use Rattle.dae_asm_lines.specs.Tokens.{tokens_of};
ghost use Rattle.dae_asm_lines.specs.Lines.{numbers_in};
ghost use Rattle.dae_asm_sheet.specs.Rows.{row_seen, rows_seen, names_in};
ghost use Rattle.dae_asm_data.specs.Bounds.{name_bounds, IsValueFault};
ghost use Rattle.dae_asm_data.specs.Parts.{AreNames};
ghost use Rattle.dae_asm_data.specs.Walking.{IsNameFound, IsNameAt};

use crate::data::put_bytes;
use crate::faults::{Found, ValueFault};
use crate::rows::name_in;
use dae_asm_sheet::Row;
use dae_base::Text;
use std::alloc::{AllocError, Global};

/// The bytes as a name: from 1 to 4096 of them, in UTF-8.
fn text_of(bytes: &[u8]) -> Option<&str>
    ensures { MatchOption result (is_name bytes.now ≡ false)
        (λ t. (is_name bytes.now ≡ true) × (t.now ≡ bytes.now)) }
{
    if bytes.is_empty() || bytes.len() > 4_096 {
        return None;
    }
    match str::from_utf8(bytes) {
        Ok(text) => Some(text),
        Err(_) => None,
    }
}

/// The name that the numbers of a line say.
fn name_of(alloc: Global, line: &[u8]) -> Result<Option<Text>, AllocError>
    ensures { IfOk result (IsNameFound (numbers_in (tokens_of line.now))) }
{
    let mut bytes = Vec::new(alloc);
    if !put_bytes(&mut bytes, line)? {
        return Ok(None);
    }
    match text_of(bytes.as_slice()) {
        Some(text) => Ok(Some(Text::from_str(alloc, text)?)),
        None => Ok(None),
    }
}

/// What a row says of names behind so many others.
fn name_at(alloc: Global, before: usize, row: &Row<'_>) -> Result<Found<Text>, AllocError>
    ensures { IfOk result (IsNameAt before (row_seen row.now)) }
{
    let Some(line) = name_in(row) else {
        return Ok(Found::Nothing);
    };
    let Some(name) = name_of(alloc, line)? else {
        return Ok(Found::Broken);
    };
    if before < 1_024 {
        Ok(Found::Value(name))
    } else {
        Ok(Found::Broken)
    }
}

/// How many names rows say.
pub fn count_names(rows: &[Row<'_>]) -> u32
    requires { length (names_in (rows_seen rows.now)) ≤ 134217728 }
    ensures { result ≡ length (names_in (rows_seen rows.now)) }
{
    let mut count = 0;
    for row in rows {
        if name_in(row).is_some() {
            count += 1;
        }
    }
    count
}

/// The names that rows say.
///
/// # Errors
///
/// The first line whose numbers are no name, or whose name is one too many; or memory is wanting.
pub fn names_of(alloc: Global, rows: &[Row<'_>]) -> Result<Vec<Text>, ValueFault>
    ensures ok { IfOk result (λ names. AreNames (names_in (rows_seen rows.now)) names.items) }
    ensures err { IfErr result
        (IsValueFault (name_bounds 0 (names_in (rows_seen rows.now)))) }
{
    let mut names = Vec::new(alloc);
    for row in rows {
        let found = name_at(alloc, names.len(), row)?;
        match found {
            Found::Nothing => {}
            Found::Value(name) => names.push(name)?,
            Found::Broken => return Err(ValueFault::Line(row.line)),
        }
    }
    Ok(names)
}
