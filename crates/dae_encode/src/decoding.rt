// From a word to the instruction that it spells.

ghost use Rattle.std.specs.Prelude.{◌≡◌, ◌≢◌, ℕ, ◌<◌, ◌^◌, IfSome, IfNone};
ghost use Rattle.dae_encode.specs.Decoding.{branches, loads, stores, immediates, shifts, operations, multiplications, registers_only, by_fields};
ghost use Rattle.dae_encode.specs.Instructions.{field, signed_in, imm_i, imm_s, imm_b, imm_u, imm_j};
ghost use Rattle.dae_encode.specs.Spelling.{InRange, encoded, decode};

use crate::Inst;
use crate::bits::field;

/// The instruction that a word spells, or None where the word is that of no instruction whose fields are in range.
pub fn decode(word: u32) -> Option<Inst>
    ensures told { result ≡ decode word }
    ensures some { IfSome result (λ inst. InRange inst × (encoded inst ≡ word)) }
    ensures none { IfNone result ((inst : Inst) → InRange inst → encoded inst ≢ word) }
{
    by_opcode(word)
}

#[tactic(auto, unfolding(crate::specs::Decoding::by_fields))]
fn by_opcode(word: u32) -> Option<Inst>
    ensures { result ≡ by_fields word }
{
    let rd = register(word, 7);
    let rs1 = register(word, 15);
    let rs2 = register(word, 20);
    let funct3 = field(word, 12, 3);
    match field(word, 0, 7) {
        0b0110111 => Some(Inst::Lui(rd, immediate_u(word))),
        0b0010111 => Some(Inst::Auipc(rd, immediate_u(word))),
        0b1101111 => Some(Inst::Jal(rd, immediate_j(word))),
        0b1100111 if funct3 == 0 => Some(Inst::Jalr(rd, rs1, immediate_i(word))),
        0b1100011 => branch(funct3, rs1, rs2, immediate_b(word)),
        0b0000011 => load(funct3, rd, rs1, immediate_i(word)),
        0b0100011 => store(funct3, rs1, rs2, immediate_s(word)),
        0b0010011 if funct3 % 4 == 1 => shift(funct3, field(word, 25, 7), rd, rs1, rs2),
        0b0010011 => with_immediate(funct3, rd, rs1, immediate_i(word)),
        0b0110011 => on_registers(funct3, field(word, 25, 7), rd, rs1, rs2),
        _ if word == 0x73 => Some(Inst::Ecall),
        _ => None,
    }
}

fn register(word: u32, low: u32) -> u8
    requires { low < 32 }
    ensures { result ≡ field low 5 word }
{
    field(word, low, 5) as u8
}

fn signed_12(n: u32) -> i32
    requires { n < 2 ^ 12 }
    ensures { result ≡ signed_in 12 n }
{
    if n < 0x800 {
        n.cast_signed()
    } else {
        n.cast_signed() - 0x1000
    }
}

fn signed_13(n: u32) -> i32
    requires { n < 2 ^ 13 }
    ensures { result ≡ signed_in 13 n }
{
    if n < 0x1000 {
        n.cast_signed()
    } else {
        n.cast_signed() - 0x2000
    }
}

fn signed_21(n: u32) -> i32
    requires { n < 2 ^ 21 }
    ensures { result ≡ signed_in 21 n }
{
    if n < 0x10_0000 {
        n.cast_signed()
    } else {
        n.cast_signed() - 0x20_0000
    }
}

#[tactic(auto, unfolding(crate::specs::Instructions::imm_i))]
fn immediate_i(word: u32) -> i32
    ensures { result ≡ imm_i word }
{
    signed_12(field(word, 20, 12))
}

#[tactic(auto, unfolding(crate::specs::Instructions::imm_s))]
fn immediate_s(word: u32) -> i32
    ensures { result ≡ imm_s word }
{
    signed_12(field(word, 25, 7) * 32 + field(word, 7, 5))
}

#[tactic(auto, unfolding(crate::specs::Instructions::imm_b))]
fn immediate_b(word: u32) -> i32
    ensures { result ≡ imm_b word }
{
    signed_13(
        field(word, 31, 1) * 0x1000
            + field(word, 7, 1) * 0x800
            + field(word, 25, 6) * 32
            + field(word, 8, 4) * 2,
    )
}

#[tactic(auto, unfolding(crate::specs::Instructions::imm_u))]
fn immediate_u(word: u32) -> i32
    ensures { result ≡ imm_u word }
{
    (field(word, 12, 20) * 0x1000).cast_signed()
}

#[tactic(auto, unfolding(crate::specs::Instructions::imm_j))]
fn immediate_j(word: u32) -> i32
    ensures { result ≡ imm_j word }
{
    signed_21(
        field(word, 31, 1) * 0x10_0000
            + field(word, 12, 8) * 0x1000
            + field(word, 20, 1) * 0x800
            + field(word, 21, 10) * 2,
    )
}

#[tactic(auto, unfolding(crate::specs::Decoding::branches))]
fn branch(funct3: u32, x: u8, y: u8, imm: i32) -> Option<Inst>
    ensures { result ≡ branches funct3 x y imm }
{
    match funct3 {
        0 => Some(Inst::Beq(x, y, imm)),
        1 => Some(Inst::Bne(x, y, imm)),
        4 => Some(Inst::Blt(x, y, imm)),
        5 => Some(Inst::Bge(x, y, imm)),
        6 => Some(Inst::Bltu(x, y, imm)),
        7 => Some(Inst::Bgeu(x, y, imm)),
        _ => None,
    }
}

#[tactic(auto, unfolding(crate::specs::Decoding::loads))]
fn load(funct3: u32, rd: u8, base: u8, imm: i32) -> Option<Inst>
    ensures { result ≡ loads funct3 rd base imm }
{
    match funct3 {
        0 => Some(Inst::Lb(rd, base, imm)),
        1 => Some(Inst::Lh(rd, base, imm)),
        2 => Some(Inst::Lw(rd, base, imm)),
        4 => Some(Inst::Lbu(rd, base, imm)),
        5 => Some(Inst::Lhu(rd, base, imm)),
        _ => None,
    }
}

#[tactic(auto, unfolding(crate::specs::Decoding::stores))]
fn store(funct3: u32, base: u8, source: u8, imm: i32) -> Option<Inst>
    ensures { result ≡ stores funct3 base source imm }
{
    match funct3 {
        0 => Some(Inst::Sb(base, source, imm)),
        1 => Some(Inst::Sh(base, source, imm)),
        2 => Some(Inst::Sw(base, source, imm)),
        _ => None,
    }
}

#[tactic(auto, unfolding(crate::specs::Decoding::immediates))]
fn with_immediate(funct3: u32, rd: u8, x: u8, imm: i32) -> Option<Inst>
    ensures { result ≡ immediates funct3 rd x imm }
{
    match funct3 {
        0 => Some(Inst::Addi(rd, x, imm)),
        2 => Some(Inst::Slti(rd, x, imm)),
        3 => Some(Inst::Sltiu(rd, x, imm)),
        4 => Some(Inst::Xori(rd, x, imm)),
        6 => Some(Inst::Ori(rd, x, imm)),
        7 => Some(Inst::Andi(rd, x, imm)),
        _ => None,
    }
}

#[tactic(auto, unfolding(crate::specs::Decoding::shifts))]
fn shift(funct3: u32, funct7: u32, rd: u8, x: u8, amount: u8) -> Option<Inst>
    ensures { result ≡ shifts funct3 funct7 rd x amount }
{
    let amount = i32::from(amount);
    match (funct3, funct7) {
        (1, 0) => Some(Inst::Slli(rd, x, amount)),
        (1, _) => None,
        (_, 0) => Some(Inst::Srli(rd, x, amount)),
        (_, 32) => Some(Inst::Srai(rd, x, amount)),
        _ => None,
    }
}

fn operation(funct3: u32, rd: u8, x: u8, y: u8) -> Option<Inst>
    ensures { result ≡ operations funct3 rd x y }
{
    match funct3 {
        0 => Some(Inst::Add(rd, x, y)),
        1 => Some(Inst::Sll(rd, x, y)),
        2 => Some(Inst::Slt(rd, x, y)),
        3 => Some(Inst::Sltu(rd, x, y)),
        4 => Some(Inst::Xor(rd, x, y)),
        5 => Some(Inst::Srl(rd, x, y)),
        6 => Some(Inst::Or(rd, x, y)),
        7 => Some(Inst::And(rd, x, y)),
        _ => None,
    }
}

fn multiplication(funct3: u32, rd: u8, x: u8, y: u8) -> Option<Inst>
    ensures { result ≡ multiplications funct3 rd x y }
{
    match funct3 {
        0 => Some(Inst::Mul(rd, x, y)),
        1 => Some(Inst::Mulh(rd, x, y)),
        2 => Some(Inst::Mulhsu(rd, x, y)),
        3 => Some(Inst::Mulhu(rd, x, y)),
        4 => Some(Inst::Div(rd, x, y)),
        5 => Some(Inst::Divu(rd, x, y)),
        6 => Some(Inst::Rem(rd, x, y)),
        7 => Some(Inst::Remu(rd, x, y)),
        _ => None,
    }
}

#[tactic(auto, unfolding(crate::specs::Decoding::registers_only))]
fn on_registers(funct3: u32, funct7: u32, rd: u8, x: u8, y: u8) -> Option<Inst>
    ensures { result ≡ registers_only funct3 funct7 rd x y }
{
    match (funct7, funct3) {
        (0, _) => operation(funct3, rd, x, y),
        (1, _) => multiplication(funct3, rd, x, y),
        (32, 0) => Some(Inst::Sub(rd, x, y)),
        (32, 5) => Some(Inst::Sra(rd, x, y)),
        _ => None,
    }
}
