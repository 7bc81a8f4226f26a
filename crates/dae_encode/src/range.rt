// Whether an instruction's registers and immediate are in range.

ghost use Rattle.std.specs.Prelude.{◌≡◌, ℕ, ◌<◌, ◌%◌, ◌^◌, pos, ◌≤ℤ◌, ◌<ℤ◌, ◌↔◌, IsTrue};
ghost use Rattle.dae_base.specs.Words.{word};
ghost use Rattle.dae_encode.specs.Spelling.{IsSigned, InRange};

use crate::Inst;

fn fits_r(rd: u8, rs1: u8, rs2: u8) -> bool
    ensures { IsTrue result ↔ ((rd < 32) × (rs1 < 32) × (rs2 < 32)) }
{
    rd < 32 && rs1 < 32 && rs2 < 32
}

// Of the formats I and S.
fn fits_i(first: u8, second: u8, imm: i32) -> bool
    ensures { IsTrue result ↔ ((first < 32) × (second < 32) × IsSigned 12 imm) }
{
    first < 32 && second < 32 && -0x800 <= imm && imm < 0x800
}

fn fits_shift(rd: u8, rs1: u8, amount: i32) -> bool
    ensures { IsTrue result ↔ ((rd < 32) × (rs1 < 32) × ((pos 0 ≤ℤ amount) × (amount <ℤ pos 32))) }
{
    rd < 32 && rs1 < 32 && 0 <= amount && amount < 32
}

fn fits_b(rs1: u8, rs2: u8, imm: i32) -> bool
    ensures { IsTrue result ↔ ((rs1 < 32) × (rs2 < 32) × (IsSigned 13 imm × (word imm % 2 ≡ 0))) }
{
    rs1 < 32 && rs2 < 32 && -0x1000 <= imm && imm < 0x1000 && imm.cast_unsigned() % 2 == 0
}

fn fits_u(rd: u8, imm: i32) -> bool
    ensures { IsTrue result ↔ ((rd < 32) × (IsSigned 32 imm × (word imm % 2 ^ 12 ≡ 0))) }
{
    rd < 32 && imm.cast_unsigned() % 0x1000 == 0
}

fn fits_j(rd: u8, imm: i32) -> bool
    ensures { IsTrue result ↔ ((rd < 32) × (IsSigned 21 imm × (word imm % 2 ≡ 0))) }
{
    rd < 32 && -0x10_0000 <= imm && imm < 0x10_0000 && imm.cast_unsigned() % 2 == 0
}

/// Whether each field of an instruction is one that its word can hold: registers from 0 to 31, signed immediates of 12
/// bits, even offsets of 13 bits in branches and of 21 in JAL, multiples of 4096 in LUI and AUIPC, and shifts by 0 to 31.
#[tactic(auto, unfolding(crate::specs::Spelling::layout, crate::specs::Spelling::InRange))]
pub fn is_in_range(inst: &Inst) -> bool
    ensures { IsTrue result ↔ InRange inst.now }
{
    match *inst {
        Inst::Lui(rd, imm) => fits_u(rd, imm),
        Inst::Auipc(rd, imm) => fits_u(rd, imm),
        Inst::Jal(rd, imm) => fits_j(rd, imm),
        Inst::Jalr(rd, rs1, imm) => fits_i(rd, rs1, imm),
        Inst::Beq(rs1, rs2, imm) => fits_b(rs1, rs2, imm),
        Inst::Bne(rs1, rs2, imm) => fits_b(rs1, rs2, imm),
        Inst::Blt(rs1, rs2, imm) => fits_b(rs1, rs2, imm),
        Inst::Bge(rs1, rs2, imm) => fits_b(rs1, rs2, imm),
        Inst::Bltu(rs1, rs2, imm) => fits_b(rs1, rs2, imm),
        Inst::Bgeu(rs1, rs2, imm) => fits_b(rs1, rs2, imm),
        Inst::Lb(rd, rs1, imm) => fits_i(rd, rs1, imm),
        Inst::Lh(rd, rs1, imm) => fits_i(rd, rs1, imm),
        Inst::Lw(rd, rs1, imm) => fits_i(rd, rs1, imm),
        Inst::Lbu(rd, rs1, imm) => fits_i(rd, rs1, imm),
        Inst::Lhu(rd, rs1, imm) => fits_i(rd, rs1, imm),
        Inst::Sb(rs1, rs2, imm) => fits_i(rs1, rs2, imm),
        Inst::Sh(rs1, rs2, imm) => fits_i(rs1, rs2, imm),
        Inst::Sw(rs1, rs2, imm) => fits_i(rs1, rs2, imm),
        Inst::Addi(rd, rs1, imm) => fits_i(rd, rs1, imm),
        Inst::Slti(rd, rs1, imm) => fits_i(rd, rs1, imm),
        Inst::Sltiu(rd, rs1, imm) => fits_i(rd, rs1, imm),
        Inst::Xori(rd, rs1, imm) => fits_i(rd, rs1, imm),
        Inst::Ori(rd, rs1, imm) => fits_i(rd, rs1, imm),
        Inst::Andi(rd, rs1, imm) => fits_i(rd, rs1, imm),
        Inst::Slli(rd, rs1, amount) => fits_shift(rd, rs1, amount),
        Inst::Srli(rd, rs1, amount) => fits_shift(rd, rs1, amount),
        Inst::Srai(rd, rs1, amount) => fits_shift(rd, rs1, amount),
        Inst::Add(rd, rs1, rs2) => fits_r(rd, rs1, rs2),
        Inst::Sub(rd, rs1, rs2) => fits_r(rd, rs1, rs2),
        Inst::Sll(rd, rs1, rs2) => fits_r(rd, rs1, rs2),
        Inst::Slt(rd, rs1, rs2) => fits_r(rd, rs1, rs2),
        Inst::Sltu(rd, rs1, rs2) => fits_r(rd, rs1, rs2),
        Inst::Xor(rd, rs1, rs2) => fits_r(rd, rs1, rs2),
        Inst::Srl(rd, rs1, rs2) => fits_r(rd, rs1, rs2),
        Inst::Sra(rd, rs1, rs2) => fits_r(rd, rs1, rs2),
        Inst::Or(rd, rs1, rs2) => fits_r(rd, rs1, rs2),
        Inst::And(rd, rs1, rs2) => fits_r(rd, rs1, rs2),
        Inst::Mul(rd, rs1, rs2) => fits_r(rd, rs1, rs2),
        Inst::Mulh(rd, rs1, rs2) => fits_r(rd, rs1, rs2),
        Inst::Mulhsu(rd, rs1, rs2) => fits_r(rd, rs1, rs2),
        Inst::Mulhu(rd, rs1, rs2) => fits_r(rd, rs1, rs2),
        Inst::Div(rd, rs1, rs2) => fits_r(rd, rs1, rs2),
        Inst::Divu(rd, rs1, rs2) => fits_r(rd, rs1, rs2),
        Inst::Rem(rd, rs1, rs2) => fits_r(rd, rs1, rs2),
        Inst::Remu(rd, rs1, rs2) => fits_r(rd, rs1, rs2),
        Inst::Ecall => true,
    }
}
