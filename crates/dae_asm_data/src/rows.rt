//! The rows of data, marks and names.

ghost use Rattle.std.specs.Prelude.{◌≡◌, List, ◌∷◌, IfSome, IfNone};
ghost use Rattle.dae_asm_lines.specs.Tokens.{tokens_of};
ghost use Rattle.dae_asm_lines.specs.Lines.{numbers_in};
ghost use Rattle.dae_asm_order.specs.Sheets as sheets;
ghost use Rattle.dae_asm_sheet.specs.Rows.{row_seen, bytes_in, marks_in, names_in};

use dae_asm_lines::LineItem;
use dae_asm_sheet::Row;
use dae_base::Side;

/// The part of a line of data that holds its numbers.
pub fn data_in<'t>(row: &Row<'t>) -> Option<&'t [u8]>
    ensures some { IfSome result (λ line. (rows : List sheets.Row)
        → bytes_in (row_seen row.now ∷ rows)
        ≡ (row.now.line, numbers_in (tokens_of line.now)) ∷ bytes_in rows) }
    ensures none { IfNone result ((rows : List sheets.Row)
        → bytes_in (row_seen row.now ∷ rows) ≡ bytes_in rows) }
{
    match row.item {
        LineItem::Bytes(line) => Some(line),
        _ => None,
    }
}

/// The side, the word, the file and the line of that file that the line of a mark holds.
pub fn mark_in(row: &Row<'_>) -> Option<(Side, i64, i64, i64)>
    ensures some { IfSome result (λ m. (rows : List sheets.Row)
        → marks_in (row_seen row.now ∷ rows)
        ≡ (row.now.line, m.0, m.1, m.2, m.3) ∷ marks_in rows) }
    ensures none { IfNone result ((rows : List sheets.Row)
        → marks_in (row_seen row.now ∷ rows) ≡ marks_in rows) }
{
    match row.item {
        LineItem::Mark(side, word, file, line) => Some((side, word, file, line)),
        _ => None,
    }
}

/// The part of a line of a name that holds its numbers.
pub fn name_in<'t>(row: &Row<'t>) -> Option<&'t [u8]>
    ensures some { IfSome result (λ line. (rows : List sheets.Row)
        → names_in (row_seen row.now ∷ rows)
        ≡ (row.now.line, numbers_in (tokens_of line.now)) ∷ names_in rows) }
    ensures none { IfNone result ((rows : List sheets.Row)
        → names_in (row_seen row.now ∷ rows) ≡ names_in rows) }
{
    match row.item {
        LineItem::Name(line) => Some(line),
        _ => None,
    }
}
