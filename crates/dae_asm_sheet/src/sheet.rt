//! The items of a text by their places.

ghost use Rattle.std.specs.Prelude.{◌≡◌, ◌≤◌, length};
ghost use Rattle.dae_asm_lines.specs.Lines.{seen};
ghost use Rattle.dae_asm_lines.specs.Targets.{target_seen};
ghost use Rattle.dae_asm_lines.specs.Scanning.{Gives};
ghost use Rattle.dae_asm_sheet.specs.Rows.{row_seen, rows_seen, sheet_seen, belongs, part_length, front, back, first, first_row, budget_of, memory_of, calls_of, private_of, entry_of, a_of, e_of, data_of, cut};

use crate::rows::Row;
use dae_asm_lines::{JumpTarget, LineItem};
use dae_base::Side;

/// A text in order: the numbers of its lines, and what they say.
#[derive(Clone, Copy)]
pub struct Sheet<'r, 't> {
    pub budget: (u32, [i64; 7]),
    pub memory: (u32, i64),
    pub calls: (u32, i64),
    pub private: (u32, i64, i64),
    pub entry: (u32, JumpTarget<'t>, JumpTarget<'t>),
    pub begin_a: u32,
    pub code_a: &'r [Row<'t>],
    pub begin_e: u32,
    pub code_e: &'r [Row<'t>],
    pub begin_data: u32,
    pub bytes: &'r [Row<'t>],
    pub marks: &'r [Row<'t>],
    pub names: &'r [Row<'t>],
}

/// Lines of one kind that stand together.
#[derive(Clone, Copy)]
pub enum SheetPart {
    Code,
    Bytes,
    Marks,
}

fn belongs(part: SheetPart, item: &LineItem<'_>) -> bool
    ensures { result ≡ belongs part (seen item.now) }
{
    match (part, *item) {
        (SheetPart::Code, LineItem::Label(_) | LineItem::Instruction(_, _) | LineItem::Plain(_)) =>
            true,
        (SheetPart::Bytes, LineItem::Bytes(_)) => true,
        (SheetPart::Marks, LineItem::Mark(_, _, _, _)) => true,
        _ => false,
    }
}

/// How many rows from the first on belong to a part.
fn part_length(part: SheetPart, rows: &[Row<'_>]) -> usize
    ensures counted { result ≡ part_length part (rows_seen rows.now) }
    ensures within { result ≤ length rows.now }
{
    let mut rest = rows;
    while let [first, after @ ..] = rest {
        if !belongs(part, &first.item) {
            return rows.len() - rest.len();
        }
        rest = after;
    }
    rows.len()
}

/// The rows of a part, and those behind it.
fn split_part<'r, 't>(part: SheetPart, rows: &'r [Row<'t>]) -> (&'r [Row<'t>], &'r [Row<'t>])
    ensures front { rows_seen result.0.now ≡ front part (rows_seen rows.entry.now) }
    ensures back { rows_seen result.1.now ≡ back part (rows_seen rows.entry.now) }
{
    rows.split_at(part_length(part, rows))
}

fn first_row<'r, 't>(rows: &'r [Row<'t>]) -> Option<(Row<'t>, &'r [Row<'t>])>
    ensures { Gives (λ x. (row_seen x.0, rows_seen x.1.now)) result
        (first_row (rows_seen rows.entry.now)) }
{
    match rows {
        [] => None,
        [row, rest @ ..] => Some((*row, rest)),
    }
}

/// A budget, and what follows it.
#[tactic(auto, unfolding(crate::specs::Rows::first))]
fn budget_of<'r, 't>(rows: &'r [Row<'t>]) -> Option<((u32, [i64; 7]), &'r [Row<'t>])>
    ensures { Gives (λ x. (x.0, rows_seen x.1.now)) result
        (first budget_of (rows_seen rows.entry.now)) }
{
    let (row, rest) = first_row(rows)?;
    match row.item {
        LineItem::Budget(numbers) => Some(((row.line, numbers), rest)),
        _ => None,
    }
}

/// The bytes of memory, and what follows it.
#[tactic(auto, unfolding(crate::specs::Rows::first))]
fn memory_of<'r, 't>(rows: &'r [Row<'t>]) -> Option<((u32, i64), &'r [Row<'t>])>
    ensures { Gives (λ x. (x.0, rows_seen x.1.now)) result
        (first memory_of (rows_seen rows.entry.now)) }
{
    let (row, rest) = first_row(rows)?;
    match row.item {
        LineItem::Memory(number) => Some(((row.line, number), rest)),
        _ => None,
    }
}

/// How deep calls may nest, and what follows it.
#[tactic(auto, unfolding(crate::specs::Rows::first))]
fn calls_of<'r, 't>(rows: &'r [Row<'t>]) -> Option<((u32, i64), &'r [Row<'t>])>
    ensures { Gives (λ x. (x.0, rows_seen x.1.now)) result
        (first calls_of (rows_seen rows.entry.now)) }
{
    let (row, rest) = first_row(rows)?;
    match row.item {
        LineItem::Calls(number) => Some(((row.line, number), rest)),
        _ => None,
    }
}

/// The bytes of the private memories, and what follows it.
#[tactic(auto, unfolding(crate::specs::Rows::first))]
fn private_of<'r, 't>(rows: &'r [Row<'t>]) -> Option<((u32, i64, i64), &'r [Row<'t>])>
    ensures { Gives (λ x. (x.0, rows_seen x.1.now)) result
        (first private_of (rows_seen rows.entry.now)) }
{
    let (row, rest) = first_row(rows)?;
    match row.item {
        LineItem::Private(a, e) => Some(((row.line, a, e), rest)),
        _ => None,
    }
}

/// Where the codes are entered, and what follows it.
#[tactic(auto, unfolding(crate::specs::Rows::first))]
fn entry_of<'r, 't>(
    rows: &'r [Row<'t>],
) -> Option<((u32, JumpTarget<'t>, JumpTarget<'t>), &'r [Row<'t>])>
    ensures { Gives (λ x. ((x.0.0, target_seen x.0.1, target_seen x.0.2), rows_seen x.1.now)) result
        (first entry_of (rows_seen rows.entry.now)) }
{
    let (row, rest) = first_row(rows)?;
    match row.item {
        LineItem::Entry(a, e) => Some(((row.line, a, e), rest)),
        _ => None,
    }
}

/// The line that begins the code of A, and what follows it.
#[tactic(auto, unfolding(crate::specs::Rows::first))]
fn a_of<'r, 't>(rows: &'r [Row<'t>]) -> Option<(u32, &'r [Row<'t>])>
    ensures { Gives (λ x. (x.0, rows_seen x.1.now)) result
        (first a_of (rows_seen rows.entry.now)) }
{
    let (row, rest) = first_row(rows)?;
    match row.item {
        LineItem::Code(Side::A) => Some((row.line, rest)),
        _ => None,
    }
}

/// The line that begins the code of E, and what follows it.
#[tactic(auto, unfolding(crate::specs::Rows::first))]
fn e_of<'r, 't>(rows: &'r [Row<'t>]) -> Option<(u32, &'r [Row<'t>])>
    ensures { Gives (λ x. (x.0, rows_seen x.1.now)) result
        (first e_of (rows_seen rows.entry.now)) }
{
    let (row, rest) = first_row(rows)?;
    match row.item {
        LineItem::Code(Side::E) => Some((row.line, rest)),
        _ => None,
    }
}

/// The line that begins the data, and what follows it.
#[tactic(auto, unfolding(crate::specs::Rows::first))]
fn data_of<'r, 't>(rows: &'r [Row<'t>]) -> Option<(u32, &'r [Row<'t>])>
    ensures { Gives (λ x. (x.0, rows_seen x.1.now)) result
        (first data_of (rows_seen rows.entry.now)) }
{
    let (row, rest) = first_row(rows)?;
    match row.item {
        LineItem::Data => Some((row.line, rest)),
        _ => None,
    }
}

/// The items of a text in order by their places, or None where they are in no order.
#[tactic(auto, unfolding(crate::specs::Rows::cut))]
pub fn sheet_of<'r, 't>(rows: &'r [Row<'t>]) -> Option<Sheet<'r, 't>>
    ensures { Gives sheet_seen result (cut (rows_seen rows.entry.now)) }
{
    let (budget, rest) = budget_of(rows)?;
    let (memory, rest) = memory_of(rest)?;
    let (calls, rest) = calls_of(rest)?;
    let (private, rest) = private_of(rest)?;
    let (entry, rest) = entry_of(rest)?;
    let (begin_a, rest) = a_of(rest)?;
    let (code_a, rest) = split_part(SheetPart::Code, rest);
    let (begin_e, rest) = e_of(rest)?;
    let (code_e, rest) = split_part(SheetPart::Code, rest);
    let (begin_data, rest) = data_of(rest)?;
    let (bytes, rest) = split_part(SheetPart::Bytes, rest);
    let (marks, names) = split_part(SheetPart::Marks, rest);
    Some(Sheet {
        budget,
        memory,
        calls,
        private,
        entry,
        begin_a,
        code_a,
        begin_e,
        code_e,
        begin_data,
        bytes,
        marks,
        names,
    })
}
