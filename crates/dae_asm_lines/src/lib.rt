// Lines of the assembly text of an image: the tokens of a line, the one item that they spell, and
// the table of the instructions' names and operands, which serves reading and writing. Nothing here
// takes memory.
#![tactic(auto)]

pub use instructions::{instruction_of, like, name_of, operands_of};
pub use items::line_of;
pub use tokens::{Scanned, next_token};

mod instructions;
mod items;
mod numbers;
mod tokens;

use dae_base::Side;
use dae_encode::Inst;

/// What a branch or a jump goes to, or where a code is entered: an offset or an address in bytes, or
/// a label.
#[derive(Clone, Copy)]
pub enum JumpTarget<'t> {
    Number(i64),
    Label(&'t [u8]),
}

/// The operands of an instruction in the order in which a line has them. A register is its number.
#[derive(Clone, Copy)]
pub enum Operands<T> {
    /// `x1,x2,x3`
    Registers(i64, i64, i64),
    /// `x1,x2,-5`
    Immediate(i64, i64, i64),
    /// `x1,4(x2)`: a register, an offset in bytes and a base.
    Based(i64, i64, i64),
    /// `x1,x2,T`
    Branch(i64, i64, T),
    /// `x1,74565`: a register and the bits from 12 on.
    Upper(i64, i64),
    /// `x1,T`
    Jump(i64, T),
    /// None.
    Alone,
}

/// What a line says. Numbers may be out of any range: those below -10^12 count as -10^12, and those
/// above 10^12 as 10^12.
#[derive(Clone, Copy)]
pub enum LineItem<'t> {
    /// `.budget`: ld, al, sa, sd, ab, eb and cq.
    Budget([i64; 7]),
    /// `.memory`, in bytes.
    Memory(i64),
    /// `.calls`
    Calls(i64),
    /// `.private`, in bytes: that of A and that of E.
    Private(i64, i64),
    /// `.entry`: that of A and that of E.
    Entry(JumpTarget<'t>, JumpTarget<'t>),
    /// `.a` or `.e`
    Code(Side),
    /// `.data`
    Data,
    /// `NAME:`
    Label(&'t [u8]),
    /// An instruction like this one, but for its operands.
    Instruction(Inst, Operands<JumpTarget<'t>>),
    /// `.word`
    Plain(i64),
    /// `.byte`: the part of the line that holds its numbers, from 1 to 16.
    Bytes(&'t [u8]),
    /// `.line`: a side, a word, a file and a line.
    Mark(Side, i64, i64, i64),
    /// `.name`: the part of the line that holds its numbers.
    Name(&'t [u8]),
}

/// A line of a text.
#[derive(Clone, Copy)]
pub enum Line<'t> {
    /// It has no tokens.
    Empty,
    /// It spells this item.
    Says(LineItem<'t>),
    /// It spells none.
    Bad,
}
