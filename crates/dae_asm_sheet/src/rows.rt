//! The items of a text, each with the number of its line.

ghost use Rattle.std.specs.Prelude.{◌≡◌, ◌≤◌, List, length, map, IfOk};
ghost use Rattle.dae_asm_order.specs.Sheets as sheets;
ghost use Rattle.dae_asm_order.specs.Sheets.{AreItems, lines_of};
ghost use Rattle.dae_asm_sheet.specs.Rows.{rows_seen};

use dae_asm_lines::LineItem;
use dae_asm_order::{Lines, Next};
use std::alloc::{AllocError, Global};

/// An item of a text, and the number of its line.
#[derive(Clone, Copy)]
pub struct Row<'t> {
    pub line: u32,
    pub item: LineItem<'t>,
}

/// The items of a text whose lines all say one or nothing.
pub fn rows_of<'t>(alloc: Global, text: &'t [u8]) -> Result<Vec<Row<'t>>, AllocError>
    requires { length text.now ≤ 134217728 }
    ensures { IfOk result (λ rows. (all : List sheets.Row)
        → AreItems 1 (lines_of text.entry.now) all → rows_seen rows.items ≡ all) }
{
    let mut rows = Vec::new(alloc);
    let mut lines = Lines::of(text);
    loop {
        match lines.next() {
            Next::Item(item, line, after) => {
                rows.push(Row { line, item })?;
                lines = after;
            }
            Next::Bad(_) => return Ok(rows),
            Next::End(_) => return Ok(rows),
        }
    }
}
