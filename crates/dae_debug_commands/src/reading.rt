// The command that a line spells.
ghost use Rattle.std.specs.Prelude.{◌≡◌};
ghost use Rattle.dae_trace.specs.Lines.{side_text};
ghost use Rattle.dae_base.specs.Ones.{IsTheOne};
ghost use Rattle.dae_debug_commands.specs.Commands.{SpellsBreak, SpellsBreakOn, SpellsCommand, SpellsPick, SpellsShown};

use crate::numbers::{number, pair};
use crate::{Breakpoint, DebugCommand};
use dae_base::Side;
use dae_cli_options::Shown;
use dae_machine::Pick;

/// The command that the bytes of a line spell, without its line feed, or None where they spell none.
pub fn read_command(line: &[u8]) -> Option<DebugCommand>
    ensures { IsTheOne (SpellsCommand line.now) result }
{
    if let Some(pick) = line.strip_prefix(b"step ") {
        return Some(DebugCommand::Step(read_pick(pick)?));
    }
    if let Some(turns) = line.strip_prefix(b"go ") {
        return Some(DebugCommand::Go(number(turns, 1, 1_000_000)? as u32));
    }
    if let Some(at) = line.strip_prefix(b"break ") {
        return Some(DebugCommand::Break(read_break(at)?));
    }
    if let Some(side) = line.strip_prefix(b"regs ") {
        return Some(DebugCommand::Registers(read_side(side)?));
    }
    if let Some(shown) = line.strip_prefix(b"memory ") {
        return Some(DebugCommand::Memory(read_shown(shown)?));
    }
    if line == b"queues".as_slice() {
        Some(DebugCommand::Queues)
    } else if line == b"stores".as_slice() {
        Some(DebugCommand::Stores)
    } else if line == b"quit".as_slice() {
        Some(DebugCommand::Quit)
    } else {
        None
    }
}

// The pick of a step.
fn read_pick(text: &[u8]) -> Option<Pick>
    ensures { IsTheOne (SpellsPick text.now) result }
{
    if let Some(slot) = text.strip_prefix(b"F A ") {
        return Some(Pick::Fill(Side::A, number(slot, 0, 1_099_511_627_775)?));
    }
    if let Some(slot) = text.strip_prefix(b"F E ") {
        return Some(Pick::Fill(Side::E, number(slot, 0, 1_099_511_627_775)?));
    }
    if text == b"A".as_slice() {
        Some(Pick::A)
    } else if text == b"E".as_slice() {
        Some(Pick::E)
    } else if text == b"D".as_slice() {
        Some(Pick::Drain)
    } else {
        None
    }
}

// The place of a breakpoint.
fn read_break(text: &[u8]) -> Option<Breakpoint>
    ensures { IsTheOne (SpellsBreak text.now) result }
{
    if let Some(numbers) = text.strip_prefix(b"A ") {
        return break_on(Side::A, numbers);
    }
    if let Some(numbers) = text.strip_prefix(b"E ") {
        return break_on(Side::E, numbers);
    }
    None
}

// The place of a breakpoint of a side, by what stands behind the side.
fn break_on(side: Side, numbers: &[u8]) -> Option<Breakpoint>
    ensures { IsTheOne (SpellsBreakOn side numbers.now) result }
{
    let (file, line) = pair(numbers, 4_294_967_295, 0, 4_294_967_295)?;
    Some(Breakpoint {
        side,
        file: file as u32,
        line: line as u32,
    })
}

// A side.
fn read_side(text: &[u8]) -> Option<Side>
    ensures { IsTheOne (λ side. text.now ≡ side_text side) result }
{
    if text == b"A".as_slice() {
        Some(Side::A)
    } else if text == b"E".as_slice() {
        Some(Side::E)
    } else {
        None
    }
}

// The bytes that are to be shown.
fn read_shown(text: &[u8]) -> Option<Shown>
    ensures { IsTheOne (SpellsShown text.now) result }
{
    let (address, count) = pair(text, 4_294_967_295, 1, 64)?;
    Some(Shown::new(address as u32, count as u8))
}
