// The instructions of RV32I and its extension M: their words, what each does, and its one access to a queue of the
// decoupled machine. Words and instructions are inverse: an instruction whose fields are in range has one word, which
// spells it, and each other word spells none. Nothing here takes memory.
#![tactic(auto)]

pub use access::{bad_call, is_shared, is_within, queue_use};
pub use decoding::decode;
pub use effects::{form_of, next, value};
pub use encoding::encode;
pub use range::is_in_range;

mod access;
mod bits;
mod decoding;
mod effects;
mod encoding;
mod range;

use dae_base::{LoadKind, Queue, Width};

/// The one queue access of an instruction.
#[derive(Clone, Copy, PartialEq, Eq, Debug)]
pub enum QueueUse {
    /// None.
    Nothing,
    /// Takes the front of a queue.
    Take(Queue),
    /// Appends a word at the back of a queue.
    Push(Queue),
    /// Reserves a slot of a load queue, for what memory holds at an address.
    Load(Queue, LoadKind),
    /// Pushes an address and the width of a store.
    StoreAddress(Width),
}

/// An instruction of RV32IM: its registers in the order target, first source, second source, and then its immediate as
/// the number that it stands for (an offset in bytes, or the upper immediate with its twelve zeros) or its shift amount
/// (RISC-V unprivileged manual, "RV32/64G Instruction Set Listings").
#[derive(Clone, Copy)]
pub enum Inst {
    Lui(u8, i32),
    Auipc(u8, i32),
    Jal(u8, i32),
    Jalr(u8, u8, i32),
    Beq(u8, u8, i32),
    Bne(u8, u8, i32),
    Blt(u8, u8, i32),
    Bge(u8, u8, i32),
    Bltu(u8, u8, i32),
    Bgeu(u8, u8, i32),
    Lb(u8, u8, i32),
    Lh(u8, u8, i32),
    Lw(u8, u8, i32),
    Lbu(u8, u8, i32),
    Lhu(u8, u8, i32),
    Sb(u8, u8, i32),
    Sh(u8, u8, i32),
    Sw(u8, u8, i32),
    Addi(u8, u8, i32),
    Slti(u8, u8, i32),
    Sltiu(u8, u8, i32),
    Xori(u8, u8, i32),
    Ori(u8, u8, i32),
    Andi(u8, u8, i32),
    Slli(u8, u8, i32),
    Srli(u8, u8, i32),
    Srai(u8, u8, i32),
    Add(u8, u8, u8),
    Sub(u8, u8, u8),
    Sll(u8, u8, u8),
    Slt(u8, u8, u8),
    Sltu(u8, u8, u8),
    Xor(u8, u8, u8),
    Srl(u8, u8, u8),
    Sra(u8, u8, u8),
    Or(u8, u8, u8),
    And(u8, u8, u8),
    Mul(u8, u8, u8),
    Mulh(u8, u8, u8),
    Mulhsu(u8, u8, u8),
    Mulhu(u8, u8, u8),
    Div(u8, u8, u8),
    Divu(u8, u8, u8),
    Rem(u8, u8, u8),
    Remu(u8, u8, u8),
    Ecall,
}

/// The registers of an instruction, and the offset of its address as a word.
#[derive(Clone, Copy)]
pub enum InstructionForm {
    /// Its target and its two sources; a field that it does not have is x0.
    Computes(u8, u8, u8),
    /// What it reads, its target, and the base and the offset of its address.
    Loads(LoadKind, u8, u8, u32),
    /// The bytes that it writes, the base of its address, what it stores, and the offset.
    Stores(Width, u8, u8, u32),
    /// The environment call.
    Calls,
}

/// What keeps a processor from any further step.
#[derive(Clone, Copy, PartialEq, Eq, Debug)]
pub enum Fault {
    /// The counter is no multiple of 4, or lies past the code.
    BadPc,
    /// The word spells no instruction, or one that is not legal on this side.
    Illegal,
    /// An address that is not aligned to its width or not inside the private memory.
    Private,
    /// An address that is not aligned to its width, below 16, or past the end of common memory.
    Shared,
    /// An environment call of E that has no such number.
    Call,
}

/// How a processor halted.
#[derive(Clone, Copy, PartialEq, Eq, Debug)]
pub enum Halt {
    /// A halted.
    Plain,
    /// E halted with a status.
    Status(u32),
    /// E halted with the number of a trap.
    Trap(u32),
}

/// What the next instruction of a processor comes to.
#[derive(Clone, Copy)]
pub enum Request {
    /// There is none, since the processor halted.
    Halted,
    /// It has this fault.
    Faulty(Fault),
    /// It makes this access, with this word where one goes in.
    Asks(QueueUse, u32, Inst),
}
