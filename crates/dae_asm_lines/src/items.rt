//! The item of a line.

ghost use Rattle.std.specs.Prelude.{◌≡◌, ◌≤◌, length};
ghost use Rattle.std.specs.List.{prefix_len};
ghost use Rattle.dae_asm_lines.specs.Tokens.{tokens_of, before_comment};
ghost use Rattle.dae_asm_lines.specs.Scanning.{Gives, is_spoken};
ghost use Rattle.dae_asm_lines.specs.Reading.{two_registers_at, registers_at, immediate_at, based_at, branch_at, upper_at, jump_at, alone_at, operands_at, seven_at, one_at, private_at, entry_at, nothing_at, side_of, mark_at, bytes_at, name_at, instruction_at, behind_name, colon_at, item_of};
ghost use Rattle.dae_asm_lines.specs.Items as items;
ghost use Rattle.dae_asm_lines.specs.Lines.{IsFound, operands_seen, seen};

use crate::instructions::{like, operands_of};
use crate::numbers::{count_numbers, end, name, number, register, sign, target};
use crate::tokens::is_label;
use crate::{JumpTarget, Line, LineItem, Operands};
use dae_base::Side;

#[tactic(auto, unfolding(crate::specs::Reading::seven_at))]
fn budget(line: &[u8]) -> Option<LineItem<'_>>
    ensures { Gives seen result (seven_at (tokens_of line.now)) }
{
    let (ld, rest) = number(line)?;
    let (al, rest) = number(rest)?;
    let (sa, rest) = number(rest)?;
    let (sd, rest) = number(rest)?;
    let (ab, rest) = number(rest)?;
    let (eb, rest) = number(rest)?;
    let (cq, rest) = number(rest)?;
    end(rest)?;
    Some(LineItem::Budget([ld, al, sa, sd, ab, eb, cq]))
}

#[tactic(auto, unfolding(crate::specs::Reading::private_at))]
fn private(line: &[u8]) -> Option<LineItem<'_>>
    ensures { Gives seen result (private_at (tokens_of line.now)) }
{
    let (a, rest) = number(line)?;
    let (e, rest) = number(rest)?;
    end(rest)?;
    Some(LineItem::Private(a, e))
}

#[tactic(auto, unfolding(crate::specs::Reading::entry_at))]
fn entry(line: &[u8]) -> Option<LineItem<'_>>
    ensures { Gives seen result (entry_at (tokens_of line.now)) }
{
    let (a, rest) = target(line)?;
    let (e, rest) = target(rest)?;
    end(rest)?;
    Some(LineItem::Entry(a, e))
}

fn side_of(name: &[u8]) -> Option<Side>
    ensures { result ≡ side_of name.now }
{
    if name == b"a".as_slice() {
        Some(Side::A)
    } else if name == b"e".as_slice() {
        Some(Side::E)
    } else {
        None
    }
}

#[tactic(auto, unfolding(crate::specs::Reading::mark_at))]
fn mark(line: &[u8]) -> Option<LineItem<'_>>
    ensures { Gives seen result (mark_at (tokens_of line.now)) }
{
    let (side, rest) = name(line)?;
    let side = side_of(side)?;
    let (word, rest) = number(rest)?;
    let (file, rest) = number(rest)?;
    let (line, rest) = number(rest)?;
    end(rest)?;
    Some(LineItem::Mark(side, word, file, line))
}

#[tactic(auto, unfolding(crate::specs::Reading::bytes_at))]
fn bytes(line: &[u8]) -> Option<LineItem<'_>>
    ensures { Gives seen result (bytes_at (tokens_of line.now)) }
{
    let count = count_numbers(line)?;
    if 1 <= count && count <= 16 {
        Some(LineItem::Bytes(line))
    } else {
        None
    }
}

#[tactic(auto, unfolding(crate::specs::Reading::name_at))]
fn file_name(line: &[u8]) -> Option<LineItem<'_>>
    ensures { Gives seen result (name_at (tokens_of line.now)) }
{
    count_numbers(line)?;
    Some(LineItem::Name(line))
}

#[tactic(auto, unfolding(crate::specs::Reading::two_registers_at))]
fn two_registers(line: &[u8]) -> Option<(i64, i64, &[u8])>
    ensures { Gives (λ x. (x.0, x.1, tokens_of x.2.now)) result
        (two_registers_at (tokens_of line.now)) }
{
    let (first, rest) = register(line)?;
    let (_, rest) = sign(rest, b',')?;
    let (second, rest) = register(rest)?;
    let (_, rest) = sign(rest, b',')?;
    Some((first, second, rest))
}

#[tactic(auto, unfolding(crate::specs::Reading::registers_at))]
fn registers(line: &[u8]) -> Option<Operands<JumpTarget<'_>>>
    ensures { Gives operands_seen result (registers_at (tokens_of line.now)) }
{
    let (first, second, rest) = two_registers(line)?;
    let (third, rest) = register(rest)?;
    end(rest)?;
    Some(Operands::Registers(first, second, third))
}

#[tactic(auto, unfolding(crate::specs::Reading::immediate_at))]
fn immediate(line: &[u8]) -> Option<Operands<JumpTarget<'_>>>
    ensures { Gives operands_seen result (immediate_at (tokens_of line.now)) }
{
    let (first, second, rest) = two_registers(line)?;
    let (number, rest) = number(rest)?;
    end(rest)?;
    Some(Operands::Immediate(first, second, number))
}

#[tactic(auto, unfolding(crate::specs::Reading::based_at))]
fn based(line: &[u8]) -> Option<Operands<JumpTarget<'_>>>
    ensures { Gives operands_seen result (based_at (tokens_of line.now)) }
{
    let (first, rest) = register(line)?;
    let (_, rest) = sign(rest, b',')?;
    let (offset, rest) = number(rest)?;
    let (_, rest) = sign(rest, b'(')?;
    let (base, rest) = register(rest)?;
    let (_, rest) = sign(rest, b')')?;
    end(rest)?;
    Some(Operands::Based(first, offset, base))
}

#[tactic(auto, unfolding(crate::specs::Reading::branch_at))]
fn branch(line: &[u8]) -> Option<Operands<JumpTarget<'_>>>
    ensures { Gives operands_seen result (branch_at (tokens_of line.now)) }
{
    let (first, second, rest) = two_registers(line)?;
    let (target, rest) = target(rest)?;
    end(rest)?;
    Some(Operands::Branch(first, second, target))
}

#[tactic(auto, unfolding(crate::specs::Reading::upper_at))]
fn upper(line: &[u8]) -> Option<Operands<JumpTarget<'_>>>
    ensures { Gives operands_seen result (upper_at (tokens_of line.now)) }
{
    let (first, rest) = register(line)?;
    let (_, rest) = sign(rest, b',')?;
    let (number, rest) = number(rest)?;
    end(rest)?;
    Some(Operands::Upper(first, number))
}

#[tactic(auto, unfolding(crate::specs::Reading::jump_at))]
fn jump(line: &[u8]) -> Option<Operands<JumpTarget<'_>>>
    ensures { Gives operands_seen result (jump_at (tokens_of line.now)) }
{
    let (first, rest) = register(line)?;
    let (_, rest) = sign(rest, b',')?;
    let (target, rest) = target(rest)?;
    end(rest)?;
    Some(Operands::Jump(first, target))
}

#[tactic(auto, unfolding(crate::specs::Reading::alone_at))]
fn alone(line: &[u8]) -> Option<Operands<JumpTarget<'_>>>
    ensures { Gives operands_seen result (alone_at (tokens_of line.now)) }
{
    end(line)?;
    Some(Operands::Alone)
}

/// Operands of the same form as these.
#[tactic(auto, unfolding(crate::specs::Reading::operands_at))]
fn operands_like(form: Operands<i64>, line: &[u8]) -> Option<Operands<JumpTarget<'_>>>
    ensures { Gives operands_seen result (operands_at form (tokens_of line.now)) }
{
    match form {
        Operands::Registers(_, _, _) => registers(line),
        Operands::Immediate(_, _, _) => immediate(line),
        Operands::Based(_, _, _) => based(line),
        Operands::Branch(_, _, _) => branch(line),
        Operands::Upper(_, _) => upper(line),
        Operands::Jump(_, _) => jump(line),
        Operands::Alone => alone(line),
    }
}

#[tactic(auto, unfolding(crate::specs::Reading::instruction_at))]
fn instruction<'t>(name: &[u8], line: &'t [u8]) -> Option<LineItem<'t>>
    ensures { Gives seen result (instruction_at name.now (tokens_of line.entry.now)) }
{
    let like = like(name)?;
    let operands = operands_like(operands_of(&like), line)?;
    Some(LineItem::Instruction(like, operands))
}

/// An item without numbers.
#[tactic(auto, unfolding(crate::specs::Reading::nothing_at))]
fn alone_item<'t>(item: LineItem<'t>, line: &[u8]) -> Option<LineItem<'t>>
    ensures { Gives seen result (nothing_at (seen item.entry) (tokens_of line.now)) }
{
    end(line)?;
    Some(item)
}

#[tactic(auto, unfolding(crate::specs::Reading::one_at))]
fn memory(line: &[u8]) -> Option<LineItem<'_>>
    ensures { Gives seen result (one_at (λ n. items.Memory n) (tokens_of line.now)) }
{
    let (number, rest) = number(line)?;
    end(rest)?;
    Some(LineItem::Memory(number))
}

#[tactic(auto, unfolding(crate::specs::Reading::one_at))]
fn calls(line: &[u8]) -> Option<LineItem<'_>>
    ensures { Gives seen result (one_at (λ n. items.Calls n) (tokens_of line.now)) }
{
    let (number, rest) = number(line)?;
    end(rest)?;
    Some(LineItem::Calls(number))
}

#[tactic(auto, unfolding(crate::specs::Reading::one_at))]
fn plain(line: &[u8]) -> Option<LineItem<'_>>
    ensures { Gives seen result (one_at (λ n. items.Plain n) (tokens_of line.now)) }
{
    let (number, rest) = number(line)?;
    end(rest)?;
    Some(LineItem::Plain(number))
}

/// What follows a name that is no label.
#[tactic(auto, unfolding(crate::specs::Reading::behind_name))]
fn behind_name<'t>(name: &[u8], rest: &'t [u8]) -> Option<LineItem<'t>>
    ensures { Gives seen result (behind_name name.now (tokens_of rest.entry.now)) }
{
    if name == b".budget".as_slice() {
        budget(rest)
    } else if name == b".memory".as_slice() {
        memory(rest)
    } else if name == b".calls".as_slice() {
        calls(rest)
    } else if name == b".private".as_slice() {
        private(rest)
    } else if name == b".entry".as_slice() {
        entry(rest)
    } else if name == b".a".as_slice() {
        alone_item(LineItem::Code(Side::A), rest)
    } else if name == b".e".as_slice() {
        alone_item(LineItem::Code(Side::E), rest)
    } else if name == b".data".as_slice() {
        alone_item(LineItem::Data, rest)
    } else if name == b".word".as_slice() {
        plain(rest)
    } else if name == b".byte".as_slice() {
        bytes(rest)
    } else if name == b".line".as_slice() {
        mark(rest)
    } else if name == b".name".as_slice() {
        file_name(rest)
    } else {
        instruction(name, rest)
    }
}

/// A colon alone.
#[tactic(auto, unfolding(crate::specs::Reading::colon_at))]
fn colon(line: &[u8]) -> Option<()>
    ensures { Gives (λ x. x) result (colon_at (tokens_of line.now)) }
{
    let (_, rest) = sign(line, b':')?;
    end(rest)
}

#[tactic(auto, unfolding(crate::specs::Reading::item_of))]
fn item_of(line: &[u8]) -> Option<LineItem<'_>>
    ensures { Gives seen result (item_of (tokens_of line.now)) }
{
    let (name, rest) = name(line)?;
    match colon(rest) {
        Some(_) if is_label(name) => Some(LineItem::Label(name)),
        _ => behind_name(name, rest),
    }
}

/// How many bytes of a line stand before its comment.
fn spoken_length(line: &[u8]) -> usize
    ensures counted { result ≡ prefix_len is_spoken line.now }
    ensures within { result ≤ length line.now }
{
    let mut rest = line;
    while let [first, after @ ..] = rest {
        if *first == b';' {
            return line.len() - rest.len();
        }
        rest = after;
    }
    line.len()
}

#[tactic(auto, using(crate::proofs::Words::spoken_part))]
fn before_comment(line: &[u8]) -> &[u8]
    ensures { result.now ≡ before_comment line.now }
{
    &line[..spoken_length(line)]
}

/// What a line says, without its line feed.
pub fn line_of(line: &[u8]) -> Line<'_>
    ensures { IsFound line.now result }
{
    if !line.is_ascii() {
        return Line::Bad;
    }
    let spoken = before_comment(line);
    if end(spoken).is_some() {
        return Line::Empty;
    }
    match item_of(spoken) {
        Some(item) => Line::Says(item),
        None => Line::Bad,
    }
}
