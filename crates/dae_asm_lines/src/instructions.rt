//! The instructions as text: the name of each, and its operands in the order in which a line has
//! them (RISC-V unprivileged manual, "RISC-V Assembly Programmer's Handbook").

ghost use Rattle.std.specs.Prelude.{◌≡◌, ◌/◌, ◌^◌, pos, map, IfSome, IfNone};
ghost use Rattle.dae_base.specs.Words.{word};
ghost use Rattle.dae_encode.specs.declared.Inst.{Inst};
ghost use Rattle.dae_asm_lines.specs.Names.{name_of, row_of, named, operands_of, AreAlike, IsFilled};
ghost use Rattle.dae_asm_lines.specs.Filling.{register_in, immediate_in, upper_in, fields_in, fields_of, with_fields};

use crate::Operands;
use dae_encode::{Inst, is_in_range};

/// One instruction of each name.
const NAMED: [(&[u8], Inst); 46] = [
    (b"lui", Inst::Lui(0, 0)),
    (b"auipc", Inst::Auipc(0, 0)),
    (b"jal", Inst::Jal(0, 0)),
    (b"jalr", Inst::Jalr(0, 0, 0)),
    (b"beq", Inst::Beq(0, 0, 0)),
    (b"bne", Inst::Bne(0, 0, 0)),
    (b"blt", Inst::Blt(0, 0, 0)),
    (b"bge", Inst::Bge(0, 0, 0)),
    (b"bltu", Inst::Bltu(0, 0, 0)),
    (b"bgeu", Inst::Bgeu(0, 0, 0)),
    (b"lb", Inst::Lb(0, 0, 0)),
    (b"lh", Inst::Lh(0, 0, 0)),
    (b"lw", Inst::Lw(0, 0, 0)),
    (b"lbu", Inst::Lbu(0, 0, 0)),
    (b"lhu", Inst::Lhu(0, 0, 0)),
    (b"sb", Inst::Sb(0, 0, 0)),
    (b"sh", Inst::Sh(0, 0, 0)),
    (b"sw", Inst::Sw(0, 0, 0)),
    (b"addi", Inst::Addi(0, 0, 0)),
    (b"slti", Inst::Slti(0, 0, 0)),
    (b"sltiu", Inst::Sltiu(0, 0, 0)),
    (b"xori", Inst::Xori(0, 0, 0)),
    (b"ori", Inst::Ori(0, 0, 0)),
    (b"andi", Inst::Andi(0, 0, 0)),
    (b"slli", Inst::Slli(0, 0, 0)),
    (b"srli", Inst::Srli(0, 0, 0)),
    (b"srai", Inst::Srai(0, 0, 0)),
    (b"add", Inst::Add(0, 0, 0)),
    (b"sub", Inst::Sub(0, 0, 0)),
    (b"sll", Inst::Sll(0, 0, 0)),
    (b"slt", Inst::Slt(0, 0, 0)),
    (b"sltu", Inst::Sltu(0, 0, 0)),
    (b"xor", Inst::Xor(0, 0, 0)),
    (b"srl", Inst::Srl(0, 0, 0)),
    (b"sra", Inst::Sra(0, 0, 0)),
    (b"or", Inst::Or(0, 0, 0)),
    (b"and", Inst::And(0, 0, 0)),
    (b"mul", Inst::Mul(0, 0, 0)),
    (b"mulh", Inst::Mulh(0, 0, 0)),
    (b"mulhsu", Inst::Mulhsu(0, 0, 0)),
    (b"mulhu", Inst::Mulhu(0, 0, 0)),
    (b"div", Inst::Div(0, 0, 0)),
    (b"divu", Inst::Divu(0, 0, 0)),
    (b"rem", Inst::Rem(0, 0, 0)),
    (b"remu", Inst::Remu(0, 0, 0)),
    (b"ecall", Inst::Ecall),
];

/// The name of an instruction.
#[tactic(auto, unfolding(crate::specs::Names::name_of))]
pub fn name_of(inst: &Inst) -> &'static [u8]
    ensures { result.now ≡ name_of inst.now }
{
    match *inst {
        Inst::Lui(_, _) => b"lui",
        Inst::Auipc(_, _) => b"auipc",
        Inst::Jal(_, _) => b"jal",
        Inst::Jalr(_, _, _) => b"jalr",
        Inst::Beq(_, _, _) => b"beq",
        Inst::Bne(_, _, _) => b"bne",
        Inst::Blt(_, _, _) => b"blt",
        Inst::Bge(_, _, _) => b"bge",
        Inst::Bltu(_, _, _) => b"bltu",
        Inst::Bgeu(_, _, _) => b"bgeu",
        Inst::Lb(_, _, _) => b"lb",
        Inst::Lh(_, _, _) => b"lh",
        Inst::Lw(_, _, _) => b"lw",
        Inst::Lbu(_, _, _) => b"lbu",
        Inst::Lhu(_, _, _) => b"lhu",
        Inst::Sb(_, _, _) => b"sb",
        Inst::Sh(_, _, _) => b"sh",
        Inst::Sw(_, _, _) => b"sw",
        Inst::Addi(_, _, _) => b"addi",
        Inst::Slti(_, _, _) => b"slti",
        Inst::Sltiu(_, _, _) => b"sltiu",
        Inst::Xori(_, _, _) => b"xori",
        Inst::Ori(_, _, _) => b"ori",
        Inst::Andi(_, _, _) => b"andi",
        Inst::Slli(_, _, _) => b"slli",
        Inst::Srli(_, _, _) => b"srli",
        Inst::Srai(_, _, _) => b"srai",
        Inst::Add(_, _, _) => b"add",
        Inst::Sub(_, _, _) => b"sub",
        Inst::Sll(_, _, _) => b"sll",
        Inst::Slt(_, _, _) => b"slt",
        Inst::Sltu(_, _, _) => b"sltu",
        Inst::Xor(_, _, _) => b"xor",
        Inst::Srl(_, _, _) => b"srl",
        Inst::Sra(_, _, _) => b"sra",
        Inst::Or(_, _, _) => b"or",
        Inst::And(_, _, _) => b"and",
        Inst::Mul(_, _, _) => b"mul",
        Inst::Mulh(_, _, _) => b"mulh",
        Inst::Mulhsu(_, _, _) => b"mulhsu",
        Inst::Mulhu(_, _, _) => b"mulhu",
        Inst::Div(_, _, _) => b"div",
        Inst::Divu(_, _, _) => b"divu",
        Inst::Rem(_, _, _) => b"rem",
        Inst::Remu(_, _, _) => b"remu",
        Inst::Ecall => b"ecall",
    }
}

/// The operands of an instruction.
#[tactic(auto, unfolding(crate::specs::Names::operands_of))]
pub fn operands_of(inst: &Inst) -> Operands<i64>
    ensures { result ≡ operands_of inst.now }
{
    match *inst {
        Inst::Lui(rd, imm) => upper(rd, imm),
        Inst::Auipc(rd, imm) => upper(rd, imm),
        Inst::Jal(rd, imm) => jump(rd, imm),
        Inst::Jalr(rd, rs1, imm) => based(rd, imm, rs1),
        Inst::Beq(rs1, rs2, imm) => branch(rs1, rs2, imm),
        Inst::Bne(rs1, rs2, imm) => branch(rs1, rs2, imm),
        Inst::Blt(rs1, rs2, imm) => branch(rs1, rs2, imm),
        Inst::Bge(rs1, rs2, imm) => branch(rs1, rs2, imm),
        Inst::Bltu(rs1, rs2, imm) => branch(rs1, rs2, imm),
        Inst::Bgeu(rs1, rs2, imm) => branch(rs1, rs2, imm),
        Inst::Lb(rd, rs1, imm) => based(rd, imm, rs1),
        Inst::Lh(rd, rs1, imm) => based(rd, imm, rs1),
        Inst::Lw(rd, rs1, imm) => based(rd, imm, rs1),
        Inst::Lbu(rd, rs1, imm) => based(rd, imm, rs1),
        Inst::Lhu(rd, rs1, imm) => based(rd, imm, rs1),
        Inst::Sb(rs1, rs2, imm) => based(rs2, imm, rs1),
        Inst::Sh(rs1, rs2, imm) => based(rs2, imm, rs1),
        Inst::Sw(rs1, rs2, imm) => based(rs2, imm, rs1),
        Inst::Addi(rd, rs1, imm) => immediate(rd, rs1, imm),
        Inst::Slti(rd, rs1, imm) => immediate(rd, rs1, imm),
        Inst::Sltiu(rd, rs1, imm) => immediate(rd, rs1, imm),
        Inst::Xori(rd, rs1, imm) => immediate(rd, rs1, imm),
        Inst::Ori(rd, rs1, imm) => immediate(rd, rs1, imm),
        Inst::Andi(rd, rs1, imm) => immediate(rd, rs1, imm),
        Inst::Slli(rd, rs1, imm) => immediate(rd, rs1, imm),
        Inst::Srli(rd, rs1, imm) => immediate(rd, rs1, imm),
        Inst::Srai(rd, rs1, imm) => immediate(rd, rs1, imm),
        Inst::Add(rd, rs1, rs2) => registers(rd, rs1, rs2),
        Inst::Sub(rd, rs1, rs2) => registers(rd, rs1, rs2),
        Inst::Sll(rd, rs1, rs2) => registers(rd, rs1, rs2),
        Inst::Slt(rd, rs1, rs2) => registers(rd, rs1, rs2),
        Inst::Sltu(rd, rs1, rs2) => registers(rd, rs1, rs2),
        Inst::Xor(rd, rs1, rs2) => registers(rd, rs1, rs2),
        Inst::Srl(rd, rs1, rs2) => registers(rd, rs1, rs2),
        Inst::Sra(rd, rs1, rs2) => registers(rd, rs1, rs2),
        Inst::Or(rd, rs1, rs2) => registers(rd, rs1, rs2),
        Inst::And(rd, rs1, rs2) => registers(rd, rs1, rs2),
        Inst::Mul(rd, rs1, rs2) => registers(rd, rs1, rs2),
        Inst::Mulh(rd, rs1, rs2) => registers(rd, rs1, rs2),
        Inst::Mulhsu(rd, rs1, rs2) => registers(rd, rs1, rs2),
        Inst::Mulhu(rd, rs1, rs2) => registers(rd, rs1, rs2),
        Inst::Div(rd, rs1, rs2) => registers(rd, rs1, rs2),
        Inst::Divu(rd, rs1, rs2) => registers(rd, rs1, rs2),
        Inst::Rem(rd, rs1, rs2) => registers(rd, rs1, rs2),
        Inst::Remu(rd, rs1, rs2) => registers(rd, rs1, rs2),
        Inst::Ecall => Operands::Alone,
    }
}

fn registers(first: u8, second: u8, third: u8) -> Operands<i64>
    ensures { result ≡ Operands.Registers (pos first) (pos second) (pos third) }
{
    Operands::Registers(i64::from(first), i64::from(second), i64::from(third))
}

fn immediate(first: u8, second: u8, number: i32) -> Operands<i64>
    ensures { result ≡ Operands.Immediate (pos first) (pos second) number }
{
    Operands::Immediate(i64::from(first), i64::from(second), i64::from(number))
}

fn based(first: u8, offset: i32, base: u8) -> Operands<i64>
    ensures { result ≡ Operands.Based (pos first) offset (pos base) }
{
    Operands::Based(i64::from(first), i64::from(offset), i64::from(base))
}

fn branch(first: u8, second: u8, offset: i32) -> Operands<i64>
    ensures { result ≡ Operands.Branch (pos first) (pos second) offset }
{
    Operands::Branch(i64::from(first), i64::from(second), i64::from(offset))
}

fn upper(first: u8, bits: i32) -> Operands<i64>
    ensures { result ≡ Operands.Upper (pos first) (pos (word bits / 2 ^ 12)) }
{
    Operands::Upper(i64::from(first), i64::from(bits.cast_unsigned() / 0x1000))
}

fn jump(first: u8, offset: i32) -> Operands<i64>
    ensures { result ≡ Operands.Jump (pos first) offset }
{
    Operands::Jump(i64::from(first), i64::from(offset))
}

fn row_of(rows: &[(&[u8], Inst)], name: &[u8]) -> Option<Inst>
    ensures { result ≡ row_of (map (λ r. (r.0.now, r.1)) rows.now) name.now }
{
    for (known, inst) in rows {
        if name == *known {
            return Some(*inst);
        }
    }
    None
}

/// An instruction of this name.
#[tactic(auto, unfolding(crate::specs::Names::named))]
pub fn like(name: &[u8]) -> Option<Inst>
    ensures { result ≡ named name.now }
{
    row_of(&NAMED, name)
}

/// The numbers of three registers, and an immediate; 0 where an instruction has none.
#[derive(Clone, Copy)]
pub struct Fields {
    pub first: u8,
    pub second: u8,
    pub third: u8,
    pub number: i32,
}

fn register_in(number: i64) -> Option<u8>
    ensures { result ≡ register_in number }
{
    if 0 <= number && number < 32 {
        Some(number as u8)
    } else {
        None
    }
}

fn immediate_in(number: i64) -> Option<i32>
    ensures { result ≡ immediate_in number }
{
    if -0x20_0000 <= number && number < 0x20_0000 {
        Some(number as i32)
    } else {
        None
    }
}

fn upper_in(number: i64) -> Option<i32>
    ensures { result ≡ upper_in number }
{
    if 0 <= number && number < 0x10_0000 {
        Some((number as u32 * 0x1000).cast_signed())
    } else {
        None
    }
}

#[tactic(auto, unfolding(crate::specs::Filling::fields_in))]
fn fields_in(first: i64, second: i64, third: i64, number: Option<i32>) -> Option<Fields>
    ensures { result ≡ fields_in first second third number }
{
    let first = register_in(first)?;
    let second = register_in(second)?;
    let third = register_in(third)?;
    let number = number?;
    Some(Fields {
        first,
        second,
        third,
        number,
    })
}

#[tactic(auto, unfolding(crate::specs::Filling::fields_of))]
fn fields_of(operands: Operands<i64>) -> Option<Fields>
    ensures { result ≡ fields_of operands }
{
    match operands {
        Operands::Registers(first, second, third) => fields_in(first, second, third, Some(0)),
        Operands::Immediate(first, second, number) => {
            fields_in(first, second, 0, immediate_in(number))
        }
        Operands::Based(first, number, second) => fields_in(first, second, 0, immediate_in(number)),
        Operands::Branch(first, second, number) => fields_in(
            first,
            second,
            0,
            immediate_in(number),
        ),
        Operands::Upper(first, number) => fields_in(first, 0, 0, upper_in(number)),
        Operands::Jump(first, number) => fields_in(first, 0, 0, immediate_in(number)),
        Operands::Alone => fields_in(0, 0, 0, Some(0)),
    }
}

/// The instruction like this one with these in its fields.
#[tactic(auto, unfolding(crate::specs::Filling::with_fields))]
fn with_fields(like: &Inst, fields: Fields) -> Inst
    ensures { result ≡ with_fields like.now fields }
{
    let Fields {
        first,
        second,
        third,
        number,
    } = fields;
    match *like {
        Inst::Lui(_, _) => Inst::Lui(first, number),
        Inst::Auipc(_, _) => Inst::Auipc(first, number),
        Inst::Jal(_, _) => Inst::Jal(first, number),
        Inst::Jalr(_, _, _) => Inst::Jalr(first, second, number),
        Inst::Beq(_, _, _) => Inst::Beq(first, second, number),
        Inst::Bne(_, _, _) => Inst::Bne(first, second, number),
        Inst::Blt(_, _, _) => Inst::Blt(first, second, number),
        Inst::Bge(_, _, _) => Inst::Bge(first, second, number),
        Inst::Bltu(_, _, _) => Inst::Bltu(first, second, number),
        Inst::Bgeu(_, _, _) => Inst::Bgeu(first, second, number),
        Inst::Lb(_, _, _) => Inst::Lb(first, second, number),
        Inst::Lh(_, _, _) => Inst::Lh(first, second, number),
        Inst::Lw(_, _, _) => Inst::Lw(first, second, number),
        Inst::Lbu(_, _, _) => Inst::Lbu(first, second, number),
        Inst::Lhu(_, _, _) => Inst::Lhu(first, second, number),
        Inst::Sb(_, _, _) => Inst::Sb(second, first, number),
        Inst::Sh(_, _, _) => Inst::Sh(second, first, number),
        Inst::Sw(_, _, _) => Inst::Sw(second, first, number),
        Inst::Addi(_, _, _) => Inst::Addi(first, second, number),
        Inst::Slti(_, _, _) => Inst::Slti(first, second, number),
        Inst::Sltiu(_, _, _) => Inst::Sltiu(first, second, number),
        Inst::Xori(_, _, _) => Inst::Xori(first, second, number),
        Inst::Ori(_, _, _) => Inst::Ori(first, second, number),
        Inst::Andi(_, _, _) => Inst::Andi(first, second, number),
        Inst::Slli(_, _, _) => Inst::Slli(first, second, number),
        Inst::Srli(_, _, _) => Inst::Srli(first, second, number),
        Inst::Srai(_, _, _) => Inst::Srai(first, second, number),
        Inst::Add(_, _, _) => Inst::Add(first, second, third),
        Inst::Sub(_, _, _) => Inst::Sub(first, second, third),
        Inst::Sll(_, _, _) => Inst::Sll(first, second, third),
        Inst::Slt(_, _, _) => Inst::Slt(first, second, third),
        Inst::Sltu(_, _, _) => Inst::Sltu(first, second, third),
        Inst::Xor(_, _, _) => Inst::Xor(first, second, third),
        Inst::Srl(_, _, _) => Inst::Srl(first, second, third),
        Inst::Sra(_, _, _) => Inst::Sra(first, second, third),
        Inst::Or(_, _, _) => Inst::Or(first, second, third),
        Inst::And(_, _, _) => Inst::And(first, second, third),
        Inst::Mul(_, _, _) => Inst::Mul(first, second, third),
        Inst::Mulh(_, _, _) => Inst::Mulh(first, second, third),
        Inst::Mulhsu(_, _, _) => Inst::Mulhsu(first, second, third),
        Inst::Mulhu(_, _, _) => Inst::Mulhu(first, second, third),
        Inst::Div(_, _, _) => Inst::Div(first, second, third),
        Inst::Divu(_, _, _) => Inst::Divu(first, second, third),
        Inst::Rem(_, _, _) => Inst::Rem(first, second, third),
        Inst::Remu(_, _, _) => Inst::Remu(first, second, third),
        Inst::Ecall => Inst::Ecall,
    }
}

/// The instruction of the same name as this one with these operands, or None where a word can't
/// hold them.
pub fn instruction_of(like: &Inst, operands: Operands<i64>) -> Option<Inst>
    requires { AreAlike (operands_of like.now) operands }
    ensures some { IfSome result (λ i. IsFilled like.now operands i) }
    ensures none { IfNone result ((i : Inst) → IsFilled like.now operands i → ⊥) }
{
    let fields = fields_of(operands)?;
    let inst = with_fields(like, fields);
    if is_in_range(&inst) { Some(inst) } else { None }
}
