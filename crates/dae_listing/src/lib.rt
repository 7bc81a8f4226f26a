// The listing of an image: the one text with a line for each of its items.
#![tactic(auto)]

ghost use Rattle.std.specs.Prelude.{◌≡◌, ◌++◌, [], ◌∷◌, codes, decimal, OnOk, IfOk};
ghost use Rattle.std.specs.Fmt.{signed_decimal};
ghost use Rattle.std.specs.List.{flat_map};
ghost use Rattle.dae_image.specs.Images.{contents};
ghost use Rattle.dae_listing.specs.Canon.{ended, row, register_text, spelled_operands, instruction_text, word_text, head_rows, seven_depths, content_rows, mark_row, canon};

use dae_asm_lines::{Operands, name_of, operands_of};
use dae_base::{Depths, Side, Text};
use dae_encode::{Inst, decode};
use dae_image::{Image, LineMark};
use itoa::Buffer;
use std::alloc::{AllocError, Global};

fn put_number(out: &mut Vec<u8>, number: i64) -> Result<(), AllocError>
    ensures { OnOk result (out.new.items ≡ out.old.items ++ signed_decimal number) }
{
    let mut buffer = Buffer::new();
    out.extend_from_slice(buffer.format(number).as_bytes())
}

/// A blank and a number.
fn put_next(out: &mut Vec<u8>, number: u32) -> Result<(), AllocError>
    ensures { OnOk result (out.new.items ≡ out.old.items ++ (32 ∷ decimal number)) }
{
    out.push(b' ')?;
    put_number(out, i64::from(number))
}

fn put_line(out: &mut Vec<u8>, word: &[u8], numbers: &[u32]) -> Result<(), AllocError>
    ensures { OnOk result (out.new.items ≡ out.old.items ++ ended (row word.now numbers.now)) }
{
    out.extend_from_slice(word)?;
    for number in numbers {
        put_next(out, *number)?;
    }
    out.push(b'\n')?;
    Ok(())
}

fn put_byte_line(out: &mut Vec<u8>, word: &[u8], bytes: &[u8]) -> Result<(), AllocError>
    ensures { OnOk result (out.new.items ≡ out.old.items ++ ended (row word.now bytes.now)) }
{
    out.extend_from_slice(word)?;
    for byte in bytes {
        put_next(out, u32::from(*byte))?;
    }
    out.push(b'\n')?;
    Ok(())
}

fn put_register(out: &mut Vec<u8>, register: i64) -> Result<(), AllocError>
    ensures { OnOk result (out.new.items ≡ out.old.items ++ register_text register) }
{
    out.push(b'x')?;
    put_number(out, register)
}

/// A blank, and a register with a comma.
fn put_one(out: &mut Vec<u8>, register: i64) -> Result<(), AllocError>
    ensures { OnOk result
        (out.new.items ≡ out.old.items ++ (32 ∷ (register_text register ++ 44 ∷ []))) }
{
    out.push(b' ')?;
    put_register(out, register)?;
    out.push(b',')?;
    Ok(())
}

/// A blank, and two registers, each with a comma.
fn put_two(out: &mut Vec<u8>, first: i64, second: i64) -> Result<(), AllocError>
    ensures { OnOk result (out.new.items ≡ out.old.items
        ++ (32 ∷ (register_text first ++ (44 ∷ (register_text second ++ 44 ∷ []))))) }
{
    put_one(out, first)?;
    put_register(out, second)?;
    out.push(b',')?;
    Ok(())
}

/// A base in parentheses.
fn put_base(out: &mut Vec<u8>, base: i64) -> Result<(), AllocError>
    ensures { OnOk result
        (out.new.items ≡ out.old.items ++ (40 ∷ (register_text base ++ 41 ∷ []))) }
{
    out.push(b'(')?;
    put_register(out, base)?;
    out.push(b')')?;
    Ok(())
}

/// A register, an offset and a base in parentheses.
fn put_based(out: &mut Vec<u8>, first: i64, offset: i64, base: i64) -> Result<(), AllocError>
    ensures { OnOk result
        (out.new.items ≡ out.old.items ++ spelled_operands (Operands.Based first offset base)) }
{
    put_one(out, first)?;
    put_number(out, offset)?;
    put_base(out, base)
}

fn put_operands(out: &mut Vec<u8>, operands: Operands<i64>) -> Result<(), AllocError>
    ensures { OnOk result (out.new.items ≡ out.old.items ++ spelled_operands operands) }
{
    match operands {
        Operands::Registers(first, second, third) => {
            put_two(out, first, second)?;
            put_register(out, third)
        }
        Operands::Immediate(first, second, number) => {
            put_two(out, first, second)?;
            put_number(out, number)
        }
        Operands::Based(first, offset, base) => put_based(out, first, offset, base),
        Operands::Branch(first, second, offset) => {
            put_two(out, first, second)?;
            put_number(out, offset)
        }
        Operands::Upper(first, number) => {
            put_one(out, first)?;
            put_number(out, number)
        }
        Operands::Jump(first, offset) => {
            put_one(out, first)?;
            put_number(out, offset)
        }
        Operands::Alone => Ok(()),
    }
}

fn put_instruction(out: &mut Vec<u8>, inst: &Inst) -> Result<(), AllocError>
    ensures { OnOk result (out.new.items ≡ out.old.items ++ ended (instruction_text inst.now)) }
{
    out.extend_from_slice(name_of(inst))?;
    put_operands(out, operands_of(inst))?;
    out.push(b'\n')?;
    Ok(())
}

#[tactic(auto, unfolding(crate::specs::Canon::word_text))]
fn put_word(out: &mut Vec<u8>, word: u32) -> Result<(), AllocError>
    ensures { OnOk result (out.new.items ≡ out.old.items ++ ended (word_text word)) }
{
    match decode(word) {
        Some(inst) => put_instruction(out, &inst),
        None => put_line(out, b".word", &[word]),
    }
}

fn put_code(out: &mut Vec<u8>, begin: &[u8], code: &[u32]) -> Result<(), AllocError>
    ensures { OnOk result (out.new.items ≡ out.old.items
        ++ (ended begin.now ++ flat_map (λ w. ended (word_text w)) code.now)) }
{
    put_line(out, begin, &[])?;
    for word in code {
        put_word(out, *word)?;
    }
    Ok(())
}

fn put_content(out: &mut Vec<u8>, content: &[u8]) -> Result<(), AllocError>
    ensures { OnOk result (out.new.items ≡ out.old.items
        ++ (ended (codes ".data") ++ flat_map ended (content_rows content.now))) }
{
    put_line(out, b".data", &[])?;
    let mut rest = content;
    while rest.len() >= 16 {
        let (bytes, after) = rest.split_at(16);
        put_byte_line(out, b".byte", bytes)?;
        rest = after;
    }
    if rest.is_empty() {
        return Ok(());
    }
    put_byte_line(out, b".byte", rest)
}

fn put_mark(out: &mut Vec<u8>, mark: &LineMark) -> Result<(), AllocError>
    ensures { OnOk result (out.new.items ≡ out.old.items ++ ended (mark_row mark.now)) }
{
    let word: &[u8] = match mark.side {
        Side::A => b".line a",
        Side::E => b".line e",
    };
    put_line(out, word, &[mark.word, mark.file, mark.line])
}

fn put_budget(out: &mut Vec<u8>, depths: &Depths) -> Result<(), AllocError>
    ensures { OnOk result (out.new.items ≡ out.old.items
        ++ ended (row (codes ".budget") (seven_depths depths.now))) }
{
    put_line(
        out,
        b".budget",
        &[
            u32::from(depths.ld),
            u32::from(depths.al),
            u32::from(depths.sa),
            u32::from(depths.sd),
            u32::from(depths.ab),
            u32::from(depths.eb),
            u32::from(depths.cq),
        ],
    )
}

fn put_head(out: &mut Vec<u8>, image: &Image) -> Result<(), AllocError>
    ensures { OnOk result (out.new.items ≡ out.old.items
        ++ flat_map ended (head_rows (contents image.now))) }
{
    put_budget(out, &image.budget)?;
    put_line(out, b".memory", &[image.memory])?;
    put_line(out, b".calls", &[u32::from(image.calls)])?;
    put_line(out, b".private", &[image.private_a, image.private_e])?;
    put_line(out, b".entry", &[image.entry_a, image.entry_e])
}

fn put_marks(out: &mut Vec<u8>, marks: &[LineMark]) -> Result<(), AllocError>
    ensures { OnOk result (out.new.items ≡ out.old.items
        ++ flat_map (λ m. ended (mark_row m)) marks.now) }
{
    for mark in marks {
        put_mark(out, mark)?;
    }
    Ok(())
}

fn put_names(out: &mut Vec<u8>, names: &[Text]) -> Result<(), AllocError>
    ensures { OnOk result (out.new.items ≡ out.old.items
        ++ flat_map (λ n. ended (row (codes ".name") n)) names.now) }
{
    for name in names {
        put_byte_line(out, b".name", name.as_str().as_bytes())?;
    }
    Ok(())
}

/// The listing of an image, a line an item: its numbers, each word of the codes as its instruction,
/// or as `.word` where it spells none, its data in lines of 16 bytes, its marks and its names.
///
/// # Errors
///
/// Memory is wanting.
pub fn disassemble(alloc: Global, image: &Image) -> Result<Vec<u8>, AllocError>
    ensures { IfOk result (λ text. text.items ≡ canon (contents image.now)) }
{
    let mut out = Vec::new(alloc);
    put_head(&mut out, image)?;
    put_code(&mut out, b".a", image.code_a.as_slice())?;
    put_code(&mut out, b".e", image.code_e.as_slice())?;
    put_content(&mut out, image.content.as_slice())?;
    put_marks(&mut out, image.lines.as_slice())?;
    put_names(&mut out, image.names.as_slice())?;
    Ok(out)
}
