//! The order of the items of a text.

ghost use Rattle.std.specs.Prelude.{◌≡◌, ◌≤◌, length, IfOk, IfErr};
ghost use Rattle.dae_asm_lines.specs.Lines.{seen};
ghost use Rattle.dae_asm_order.specs.Order.{IsBadLine, IsOrdered};
ghost use Rattle.dae_asm_order.specs.Walking.{place_behind, is_last};

use crate::lines::{Lines, Next};
use dae_asm_lines::LineItem;
use dae_base::Side;

/// What may stand next in a text.
#[derive(Clone, Copy)]
pub enum NextItem {
    Budget,
    Memory,
    Calls,
    Private,
    Entry,
    /// The line that begins the code of A.
    Codes,
    /// Lines of this code, and what ends it.
    Code(Side),
    /// Data, marks and names.
    Bytes,
    /// Marks and names.
    Marks,
    Names,
}

/// The place behind an item, or None where it may not stand there.
fn place_behind(place: NextItem, item: &LineItem<'_>) -> Option<NextItem>
    ensures { result ≡ place_behind place (seen item.now) }
{
    match (place, *item) {
        (NextItem::Budget, LineItem::Budget(_)) => Some(NextItem::Memory),
        (NextItem::Memory, LineItem::Memory(_)) => Some(NextItem::Calls),
        (NextItem::Calls, LineItem::Calls(_)) => Some(NextItem::Private),
        (NextItem::Private, LineItem::Private(_, _)) => Some(NextItem::Entry),
        (NextItem::Entry, LineItem::Entry(_, _)) => Some(NextItem::Codes),
        (NextItem::Codes, LineItem::Code(Side::A)) => Some(NextItem::Code(Side::A)),
        (NextItem::Code(Side::A), LineItem::Code(Side::E)) => Some(NextItem::Code(Side::E)),
        (
            NextItem::Code(side),
            LineItem::Label(_) | LineItem::Instruction(_, _) | LineItem::Plain(_),
        ) => { Some(NextItem::Code(side)) }
        (NextItem::Code(Side::E), LineItem::Data) => Some(NextItem::Bytes),
        (NextItem::Bytes, LineItem::Bytes(_)) => Some(NextItem::Bytes),
        (NextItem::Bytes | NextItem::Marks, LineItem::Mark(_, _, _, _)) => Some(NextItem::Marks),
        (NextItem::Bytes | NextItem::Marks | NextItem::Names, LineItem::Name(_)) => Some(
            NextItem::Names,
        ),
        _ => None,
    }
}

fn is_last(place: NextItem) -> bool
    ensures { result ≡ is_last place }
{
    matches!(place, NextItem::Bytes | NextItem::Marks | NextItem::Names)
}

/// Whether the items of a text are in order, or the first line that is out of it.
pub fn order_of(text: &[u8]) -> Result<(), u32>
    requires { length text.now ≤ 134217728 }
    ensures ok { IfOk result (λ _. IsOrdered text.now) }
    ensures err { IfErr result (IsBadLine text.now) }
{
    let mut place = NextItem::Budget;
    let mut lines = Lines::of(text);
    loop {
        match lines.next() {
            Next::Item(item, line, after) => {
                let Some(behind) = place_behind(place, &item) else {
                    return Err(line);
                };
                place = behind;
                lines = after;
            }
            Next::Bad(line) => return Err(line),
            Next::End(_) if is_last(place) => return Ok(()),
            Next::End(line) => return Err(line + 1),
        }
    }
}
