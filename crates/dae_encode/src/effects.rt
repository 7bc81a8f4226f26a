// What an instruction gives and where it goes on, for the values of its sources.

ghost use Rattle.std.specs.Prelude.{◌≡◌, ℕ, ◌<◌, ◌^◌, ◌*ℤ◌, ◌-ℤ◌, ◌≤ℤ◌, ◌<ℤ◌, pos, if◌then◌else◌};
ghost use Rattle.std.specs.Int.{int_shr};
ghost use Rattle.dae_base.specs.Words.{word, signed, plus};
ghost use Rattle.dae_encode.specs.Instructions.{form, value, next, shift_left, shift_right, shift_signed, quotient, remainder};

use crate::{Inst, InstructionForm};
use dae_base::{LoadKind, Width};

fn shift_left(x: u32, y: u32) -> u32
    ensures { result ≡ shift_left x y }
{
    x.wrapping_shl(y)
}

fn shift_right(x: u32, y: u32) -> u32
    ensures { result ≡ shift_right x y }
{
    x >> (y % 32)
}

fn shift_signed(x: u32, y: u32) -> u32
    ensures { result ≡ shift_signed x y }
{
    (x.cast_signed() >> (y % 32)).cast_unsigned()
}

fn quotient(x: u32, y: u32) -> u32
    ensures { result ≡ quotient x y }
{
    if y == 0 {
        u32::MAX
    } else {
        x.cast_signed()
            .wrapping_div(y.cast_signed())
            .cast_unsigned()
    }
}

fn remainder(x: u32, y: u32) -> u32
    ensures { result ≡ remainder x y }
{
    if y == 0 {
        x
    } else {
        x.cast_signed()
            .wrapping_rem(y.cast_signed())
            .cast_unsigned()
    }
}

fn product(x: i64, y: i64) -> i64
    requires x { ((pos 0 -ℤ pos (2 ^ 31)) ≤ℤ x) × (x <ℤ pos (2 ^ 32)) }
    requires y { ((pos 0 -ℤ pos (2 ^ 31)) ≤ℤ y) × (y <ℤ pos (2 ^ 31)) }
    ensures { result ≡ x *ℤ y }
{
    x * y
}

fn upper(x: i64) -> u32
    requires { ((pos 0 -ℤ pos (2 ^ 63)) ≤ℤ x) × (x <ℤ pos (2 ^ 63)) }
    ensures { result ≡ word (int_shr x 32) }
{
    ((x >> 32) as i32).cast_unsigned()
}

fn mulh(x: u32, y: u32) -> u32
    ensures { result ≡ word (int_shr (signed x *ℤ signed y) 32) }
{
    upper(product(i64::from(x.cast_signed()), i64::from(y.cast_signed())))
}

fn mulhsu(x: u32, y: u32) -> u32
    ensures { result ≡ word (int_shr (signed x *ℤ pos y) 32) }
{
    upper(product(i64::from(y), i64::from(x.cast_signed())))
}

/// The word that an instruction computes for its target, from its own address and the values of its sources. It is 0
/// where the instruction has no target, and where it loads.
#[inline(always)]
#[tactic(auto, unfolding(crate::specs::Instructions::value))]
pub fn value(inst: &Inst, counter: u32, first: u32, second: u32) -> u32
    ensures { result ≡ value inst.now counter first second }
{
    match *inst {
        Inst::Lui(_, imm) => imm.cast_unsigned(),
        Inst::Auipc(_, imm) => counter.wrapping_add(imm.cast_unsigned()),
        Inst::Jal(_, _) | Inst::Jalr(_, _, _) => counter.wrapping_add(4),
        Inst::Addi(_, _, imm) => first.wrapping_add(imm.cast_unsigned()),
        Inst::Slti(_, _, imm) => u32::from(first.cast_signed() < imm),
        Inst::Sltiu(_, _, imm) => u32::from(first < imm.cast_unsigned()),
        Inst::Xori(_, _, imm) => first ^ imm.cast_unsigned(),
        Inst::Ori(_, _, imm) => first | imm.cast_unsigned(),
        Inst::Andi(_, _, imm) => first & imm.cast_unsigned(),
        Inst::Slli(_, _, imm) => shift_left(first, imm.cast_unsigned()),
        Inst::Srli(_, _, imm) => shift_right(first, imm.cast_unsigned()),
        Inst::Srai(_, _, imm) => shift_signed(first, imm.cast_unsigned()),
        Inst::Add(_, _, _) => first.wrapping_add(second),
        Inst::Sub(_, _, _) => first.wrapping_sub(second),
        Inst::Sll(_, _, _) => shift_left(first, second),
        Inst::Slt(_, _, _) => u32::from(first.cast_signed() < second.cast_signed()),
        Inst::Sltu(_, _, _) => u32::from(first < second),
        Inst::Xor(_, _, _) => first ^ second,
        Inst::Srl(_, _, _) => shift_right(first, second),
        Inst::Sra(_, _, _) => shift_signed(first, second),
        Inst::Or(_, _, _) => first | second,
        Inst::And(_, _, _) => first & second,
        Inst::Mul(_, _, _) => first.wrapping_mul(second),
        Inst::Mulhu(_, _, _) => ((first as u64 * second as u64) / 0x1_0000_0000) as u32,
        Inst::Div(_, _, _) => quotient(first, second),
        Inst::Divu(_, _, _) => first.checked_div(second).unwrap_or(u32::MAX),
        Inst::Rem(_, _, _) => remainder(first, second),
        Inst::Remu(_, _, _) => first.checked_rem(second).unwrap_or(first),
        Inst::Mulh(_, _, _) => mulh(first, second),
        Inst::Mulhsu(_, _, _) => mulhsu(first, second),
        _ => 0,
    }
}

/// The registers of an instruction, and its offset as a word. A field that it does not have is x0.
#[tactic(auto, unfolding(crate::specs::Instructions::form))]
pub fn form_of(inst: &Inst) -> InstructionForm
    ensures { result ≡ form inst.now }
{
    match *inst {
        Inst::Lui(rd, _) | Inst::Auipc(rd, _) | Inst::Jal(rd, _) => InstructionForm::Computes(
            rd, 0, 0,
        ),
        Inst::Jalr(rd, base, _) => InstructionForm::Computes(rd, base, 0),
        Inst::Beq(x, y, _) | Inst::Bne(x, y, _) | Inst::Blt(x, y, _) => InstructionForm::Computes(
            0, x, y,
        ),
        Inst::Bge(x, y, _) | Inst::Bltu(x, y, _) | Inst::Bgeu(x, y, _) => InstructionForm::Computes(
            0, x, y,
        ),
        Inst::Lb(rd, base, imm) => InstructionForm::Loads(
            LoadKind::I8,
            rd,
            base,
            imm.cast_unsigned(),
        ),
        Inst::Lh(rd, base, imm) => InstructionForm::Loads(
            LoadKind::I16,
            rd,
            base,
            imm.cast_unsigned(),
        ),
        Inst::Lw(rd, base, imm) => InstructionForm::Loads(
            LoadKind::I32,
            rd,
            base,
            imm.cast_unsigned(),
        ),
        Inst::Lbu(rd, base, imm) => InstructionForm::Loads(
            LoadKind::U8,
            rd,
            base,
            imm.cast_unsigned(),
        ),
        Inst::Lhu(rd, base, imm) => InstructionForm::Loads(
            LoadKind::U16,
            rd,
            base,
            imm.cast_unsigned(),
        ),
        Inst::Sb(base, source, imm) => InstructionForm::Stores(
            Width::B1,
            base,
            source,
            imm.cast_unsigned(),
        ),
        Inst::Sh(base, source, imm) => InstructionForm::Stores(
            Width::B2,
            base,
            source,
            imm.cast_unsigned(),
        ),
        Inst::Sw(base, source, imm) => InstructionForm::Stores(
            Width::B4,
            base,
            source,
            imm.cast_unsigned(),
        ),
        Inst::Addi(rd, x, _) | Inst::Slti(rd, x, _) | Inst::Sltiu(rd, x, _) =>
            InstructionForm::Computes(rd, x, 0),
        Inst::Xori(rd, x, _) | Inst::Ori(rd, x, _) | Inst::Andi(rd, x, _) =>
            InstructionForm::Computes(rd, x, 0),
        Inst::Slli(rd, x, _) | Inst::Srli(rd, x, _) | Inst::Srai(rd, x, _) =>
            InstructionForm::Computes(rd, x, 0),
        Inst::Add(rd, x, y) | Inst::Sub(rd, x, y) | Inst::Sll(rd, x, y) =>
            InstructionForm::Computes(rd, x, y),
        Inst::Slt(rd, x, y) | Inst::Sltu(rd, x, y) | Inst::Xor(rd, x, y) =>
            InstructionForm::Computes(rd, x, y),
        Inst::Srl(rd, x, y) | Inst::Sra(rd, x, y) | Inst::Or(rd, x, y) => InstructionForm::Computes(
            rd, x, y,
        ),
        Inst::And(rd, x, y) | Inst::Mul(rd, x, y) | Inst::Mulh(rd, x, y) =>
            InstructionForm::Computes(rd, x, y),
        Inst::Mulhsu(rd, x, y) | Inst::Mulhu(rd, x, y) | Inst::Div(rd, x, y) =>
            InstructionForm::Computes(rd, x, y),
        Inst::Divu(rd, x, y) | Inst::Rem(rd, x, y) | Inst::Remu(rd, x, y) =>
            InstructionForm::Computes(rd, x, y),
        Inst::Ecall => InstructionForm::Calls,
    }
}

fn branched(counter: u32, taken: bool, imm: i32) -> u32
    ensures { result ≡ plus counter (if taken then word imm else 4) }
{
    if taken {
        counter.wrapping_add(imm.cast_unsigned())
    } else {
        counter.wrapping_add(4)
    }
}

/// The counter after an instruction, from its own address and the values of its sources.
#[inline(always)]
#[tactic(auto, unfolding(crate::specs::Instructions::next))]
pub fn next(inst: &Inst, counter: u32, first: u32, second: u32) -> u32
    ensures { result ≡ next inst.now counter first second }
{
    match *inst {
        Inst::Jal(_, imm) => counter.wrapping_add(imm.cast_unsigned()),
        Inst::Jalr(_, _, imm) => first.wrapping_add(imm.cast_unsigned()) / 2 * 2,
        Inst::Beq(_, _, imm) => branched(counter, first == second, imm),
        Inst::Bne(_, _, imm) => branched(counter, first != second, imm),
        Inst::Blt(_, _, imm) => branched(counter, first.cast_signed() < second.cast_signed(), imm),
        Inst::Bge(_, _, imm) => branched(counter, first.cast_signed() >= second.cast_signed(), imm),
        Inst::Bltu(_, _, imm) => branched(counter, first < second, imm),
        Inst::Bgeu(_, _, imm) => branched(counter, first >= second, imm),
        _ => counter.wrapping_add(4),
    }
}
