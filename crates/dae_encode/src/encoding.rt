// From an instruction to its word.

ghost use Rattle.std.specs.Prelude.{◌≡◌, ℕ, ◌<◌, ◌^◌, ◌+◌, ◌≤◌, Some};
ghost use Rattle.dae_encode.specs.Instructions.{field};
ghost use Rattle.dae_encode.specs.Spelling.{in_places, R, I, Shift, S, B, U, J, Fits, encoded, InRange, decode};

use crate::Inst;
use crate::bits::field;

fn r_word(opcode: u32, rd: u8, funct3: u32, rs1: u8, rs2: u8, funct7: u32) -> u32
    requires opcode { opcode < 2 ^ 7 }
    requires funct3 { funct3 < 2 ^ 3 }
    requires funct7 { funct7 < 2 ^ 7 }
    requires fits { Fits (R opcode rd funct3 rs1 rs2 funct7) }
    ensures { result ≡ in_places (R opcode rd funct3 rs1 rs2 funct7) }
{
    opcode
        + (u32::from(rd) << 7)
        + (funct3 << 12)
        + (u32::from(rs1) << 15)
        + (u32::from(rs2) << 20)
        + (funct7 << 25)
}

fn i_word(opcode: u32, rd: u8, funct3: u32, rs1: u8, imm: i32) -> u32
    requires opcode { opcode < 2 ^ 7 }
    requires funct3 { funct3 < 2 ^ 3 }
    requires fits { Fits (I opcode rd funct3 rs1 imm) }
    ensures { result ≡ in_places (I opcode rd funct3 rs1 imm) }
{
    opcode
        + (u32::from(rd) << 7)
        + (funct3 << 12)
        + (u32::from(rs1) << 15)
        + (field(imm.cast_unsigned(), 0, 12) << 20)
}

fn shift_word(opcode: u32, rd: u8, funct3: u32, rs1: u8, amount: i32, funct7: u32) -> u32
    requires opcode { opcode < 2 ^ 7 }
    requires funct3 { funct3 < 2 ^ 3 }
    requires funct7 { funct7 < 2 ^ 7 }
    requires fits { Fits (Shift opcode rd funct3 rs1 amount funct7) }
    ensures { result ≡ in_places (Shift opcode rd funct3 rs1 amount funct7) }
{
    opcode
        + (u32::from(rd) << 7)
        + (funct3 << 12)
        + (u32::from(rs1) << 15)
        + (field(amount.cast_unsigned(), 0, 5) << 20)
        + (funct7 << 25)
}

fn s_word(opcode: u32, funct3: u32, rs1: u8, rs2: u8, imm: i32) -> u32
    requires opcode { opcode < 2 ^ 7 }
    requires funct3 { funct3 < 2 ^ 3 }
    requires fits { Fits (S opcode funct3 rs1 rs2 imm) }
    ensures { result ≡ in_places (S opcode funct3 rs1 rs2 imm) }
{
    let bits = imm.cast_unsigned();
    opcode
        + (field(bits, 0, 5) << 7)
        + (funct3 << 12)
        + (u32::from(rs1) << 15)
        + (u32::from(rs2) << 20)
        + (field(bits, 5, 7) << 25)
}

fn b_word(opcode: u32, funct3: u32, rs1: u8, rs2: u8, imm: i32) -> u32
    requires opcode { opcode < 2 ^ 7 }
    requires funct3 { funct3 < 2 ^ 3 }
    requires fits { Fits (B opcode funct3 rs1 rs2 imm) }
    ensures { result ≡ in_places (B opcode funct3 rs1 rs2 imm) }
{
    let bits = imm.cast_unsigned();
    opcode
        + (field(bits, 11, 1) << 7)
        + (field(bits, 1, 4) << 8)
        + (funct3 << 12)
        + (u32::from(rs1) << 15)
        + (u32::from(rs2) << 20)
        + (field(bits, 5, 6) << 25)
        + (field(bits, 12, 1) << 31)
}

fn u_word(opcode: u32, rd: u8, imm: i32) -> u32
    requires opcode { opcode < 2 ^ 7 }
    requires fits { Fits (U opcode rd imm) }
    ensures { result ≡ in_places (U opcode rd imm) }
{
    opcode + (u32::from(rd) << 7) + (field(imm.cast_unsigned(), 12, 20) << 12)
}

fn j_word(opcode: u32, rd: u8, imm: i32) -> u32
    requires opcode { opcode < 2 ^ 7 }
    requires fits { Fits (J opcode rd imm) }
    ensures { result ≡ in_places (J opcode rd imm) }
{
    let bits = imm.cast_unsigned();
    opcode
        + (u32::from(rd) << 7)
        + (field(bits, 12, 8) << 12)
        + (field(bits, 11, 1) << 20)
        + (field(bits, 1, 10) << 21)
        + (field(bits, 20, 1) << 31)
}

/// The word of an instruction whose fields are in range: registers from 0 to 31, signed immediates of 12 bits, even
/// offsets of 13 bits in branches and of 21 in JAL, multiples of 4096 in LUI and AUIPC, and shifts by 0 to 31. It spells
/// that instruction.
#[tactic(auto, using(crate::proofs::Listed::decode_encoded))]
pub fn encode(inst: Inst) -> u32
    requires { InRange inst }
    ensures word { result ≡ encoded inst }
    ensures back { decode result ≡ Some inst }
{
    word_of(inst)
}

#[tactic(auto, unfolding(crate::specs::Spelling::layout, crate::specs::Spelling::encoded, crate::specs::Spelling::InRange))]
fn word_of(inst: Inst) -> u32
    requires { InRange inst }
    ensures { result ≡ encoded inst }
{
    match inst {
        Inst::Lui(rd, imm) => u_word(0b0110111, rd, imm),
        Inst::Auipc(rd, imm) => u_word(0b0010111, rd, imm),
        Inst::Jal(rd, imm) => j_word(0b1101111, rd, imm),
        Inst::Jalr(rd, rs1, imm) => i_word(0b1100111, rd, 0b000, rs1, imm),
        Inst::Beq(rs1, rs2, imm) => b_word(0b1100011, 0b000, rs1, rs2, imm),
        Inst::Bne(rs1, rs2, imm) => b_word(0b1100011, 0b001, rs1, rs2, imm),
        Inst::Blt(rs1, rs2, imm) => b_word(0b1100011, 0b100, rs1, rs2, imm),
        Inst::Bge(rs1, rs2, imm) => b_word(0b1100011, 0b101, rs1, rs2, imm),
        Inst::Bltu(rs1, rs2, imm) => b_word(0b1100011, 0b110, rs1, rs2, imm),
        Inst::Bgeu(rs1, rs2, imm) => b_word(0b1100011, 0b111, rs1, rs2, imm),
        Inst::Lb(rd, rs1, imm) => i_word(0b0000011, rd, 0b000, rs1, imm),
        Inst::Lh(rd, rs1, imm) => i_word(0b0000011, rd, 0b001, rs1, imm),
        Inst::Lw(rd, rs1, imm) => i_word(0b0000011, rd, 0b010, rs1, imm),
        Inst::Lbu(rd, rs1, imm) => i_word(0b0000011, rd, 0b100, rs1, imm),
        Inst::Lhu(rd, rs1, imm) => i_word(0b0000011, rd, 0b101, rs1, imm),
        Inst::Sb(rs1, rs2, imm) => s_word(0b0100011, 0b000, rs1, rs2, imm),
        Inst::Sh(rs1, rs2, imm) => s_word(0b0100011, 0b001, rs1, rs2, imm),
        Inst::Sw(rs1, rs2, imm) => s_word(0b0100011, 0b010, rs1, rs2, imm),
        Inst::Addi(rd, rs1, imm) => i_word(0b0010011, rd, 0b000, rs1, imm),
        Inst::Slti(rd, rs1, imm) => i_word(0b0010011, rd, 0b010, rs1, imm),
        Inst::Sltiu(rd, rs1, imm) => i_word(0b0010011, rd, 0b011, rs1, imm),
        Inst::Xori(rd, rs1, imm) => i_word(0b0010011, rd, 0b100, rs1, imm),
        Inst::Ori(rd, rs1, imm) => i_word(0b0010011, rd, 0b110, rs1, imm),
        Inst::Andi(rd, rs1, imm) => i_word(0b0010011, rd, 0b111, rs1, imm),
        Inst::Slli(rd, rs1, amount) => shift_word(0b0010011, rd, 0b001, rs1, amount, 0b0000000),
        Inst::Srli(rd, rs1, amount) => shift_word(0b0010011, rd, 0b101, rs1, amount, 0b0000000),
        Inst::Srai(rd, rs1, amount) => shift_word(0b0010011, rd, 0b101, rs1, amount, 0b0100000),
        Inst::Add(rd, rs1, rs2) => r_word(0b0110011, rd, 0b000, rs1, rs2, 0b0000000),
        Inst::Sub(rd, rs1, rs2) => r_word(0b0110011, rd, 0b000, rs1, rs2, 0b0100000),
        Inst::Sll(rd, rs1, rs2) => r_word(0b0110011, rd, 0b001, rs1, rs2, 0b0000000),
        Inst::Slt(rd, rs1, rs2) => r_word(0b0110011, rd, 0b010, rs1, rs2, 0b0000000),
        Inst::Sltu(rd, rs1, rs2) => r_word(0b0110011, rd, 0b011, rs1, rs2, 0b0000000),
        Inst::Xor(rd, rs1, rs2) => r_word(0b0110011, rd, 0b100, rs1, rs2, 0b0000000),
        Inst::Srl(rd, rs1, rs2) => r_word(0b0110011, rd, 0b101, rs1, rs2, 0b0000000),
        Inst::Sra(rd, rs1, rs2) => r_word(0b0110011, rd, 0b101, rs1, rs2, 0b0100000),
        Inst::Or(rd, rs1, rs2) => r_word(0b0110011, rd, 0b110, rs1, rs2, 0b0000000),
        Inst::And(rd, rs1, rs2) => r_word(0b0110011, rd, 0b111, rs1, rs2, 0b0000000),
        Inst::Mul(rd, rs1, rs2) => r_word(0b0110011, rd, 0b000, rs1, rs2, 0b0000001),
        Inst::Mulh(rd, rs1, rs2) => r_word(0b0110011, rd, 0b001, rs1, rs2, 0b0000001),
        Inst::Mulhsu(rd, rs1, rs2) => r_word(0b0110011, rd, 0b010, rs1, rs2, 0b0000001),
        Inst::Mulhu(rd, rs1, rs2) => r_word(0b0110011, rd, 0b011, rs1, rs2, 0b0000001),
        Inst::Div(rd, rs1, rs2) => r_word(0b0110011, rd, 0b100, rs1, rs2, 0b0000001),
        Inst::Divu(rd, rs1, rs2) => r_word(0b0110011, rd, 0b101, rs1, rs2, 0b0000001),
        Inst::Rem(rd, rs1, rs2) => r_word(0b0110011, rd, 0b110, rs1, rs2, 0b0000001),
        Inst::Remu(rd, rs1, rs2) => r_word(0b0110011, rd, 0b111, rs1, rs2, 0b0000001),
        Inst::Ecall => i_word(0b1110011, 0, 0b000, 0, 0),
    }
}
