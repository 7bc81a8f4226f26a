// The structured form.

ghost use Rattle.std.specs.Prelude.{◌≡◌, IfOk};

use dae_base::{Items, LoadKind, Place, Text, Width};
use dae_meaning::{Comparison, Operator, Spelling};
use std::alloc::{AllocError, Global};

/// A variable of the function, or a number.
#[derive(Clone, Copy, PartialEq, Eq)]
pub enum Operand {
    Variable(u32),
    Number(u32),
}

/// A condition.
#[derive(Clone, Copy, PartialEq, Eq)]
pub struct Test {
    pub comparison: Comparison,
    pub left: Operand,
    pub right: Operand,
}

/// What an assignment computes: an operand, its low bits extended to a word, an operation on two operands, 1 where a
/// condition holds and else 0, or the address so many bytes behind the start of the running function's frame.
#[derive(Clone, Copy, PartialEq, Eq)]
pub enum Value {
    Same(Operand),
    Extended(LoadKind, Operand),
    Binary(Operator, Operand, Operand),
    Holds(Test),
    FrameAddress(u32),
}

/// What must hold where it stands, or the program traps: an address is good for an access of this width (3 where it is
/// misaligned, else 2 where it is outside the memory); the byte so many bytes behind an address is in the memory (2); a
/// number isn't 0 (1); a call of this function stands within the call limit and its frame within the memory (4); the
/// running function's own frame does (4); never (5).
#[derive(Clone, Copy)]
pub enum Check {
    Place(Width, Operand),
    InBounds(Operand, u32),
    Zero(Operand),
    Room(u32),
    Frame,
    Abort,
}

/// A statement that holds no others. `Load` and `Store` give the address first, and `Call` the variable that gets the
/// result, the function by its place in the form, and the arguments.
#[derive(Drop)]
pub enum Item {
    Assign(u32, Value),
    Load(u32, LoadKind, Operand),
    Store(Width, Operand, Operand),
    Print(Spelling, Operand),
    Expect(Check),
    Break,
    Continue,
    Call(u32, u32, Items<Operand>),
    Return(Operand),
    Halt(Operand),
}

fn copy_operands(alloc: Global, operands: &[Operand]) -> Result<Items<Operand>, AllocError>
    ensures { IfOk result (λ copy. copy ≡ operands.now) }
{
    let mut copy = Vec::new(alloc);
    copy.extend_from_slice(operands)?;
    Ok(Items::from_vec(copy))
}

impl Item {
    /// Another item that is the same.
    pub fn copy(&self, alloc: Global) -> Result<Item, AllocError>
        ensures { IfOk result (λ copy. copy ≡ self.now) }
    {
        match self {
            Item::Assign(variable, value) => Ok(Item::Assign(*variable, *value)),
            Item::Load(variable, kind, operand) => Ok(Item::Load(*variable, *kind, *operand)),
            Item::Store(width, x, y) => Ok(Item::Store(*width, *x, *y)),
            Item::Print(spelling, operand) => Ok(Item::Print(*spelling, *operand)),
            Item::Expect(check) => Ok(Item::Expect(*check)),
            Item::Break => Ok(Item::Break),
            Item::Continue => Ok(Item::Continue),
            Item::Call(variable, function, operands) => {
                let operands = copy_operands(alloc, operands.as_slice())?;
                Ok(Item::Call(*variable, *function, operands))
            }
            Item::Return(operand) => Ok(Item::Return(*operand)),
            Item::Halt(operand) => Ok(Item::Halt(*operand)),
        }
    }
}

/// A statement, with the place that it comes from. An `If` has its two branches. A `Loop` repeats its body and its step:
/// a `Continue` in the body goes to the step.
#[derive(Drop)]
pub enum Statement {
    Simple(Place, Item),
    If(Place, Test, Vec<Statement>, Vec<Statement>),
    Loop(Place, Vec<Statement>, Vec<Statement>),
}

/// A function with a definition. Its variables are numbered from 0: variable 0 gets the result, and the parameters
/// follow from 1 on. The frame is in bytes.
#[derive(Drop)]
pub struct Function {
    pub name: Text,
    pub parameters: u32,
    pub variables: u32,
    pub frame: u64,
    pub body: Items<Statement>,
}

/// A program in structured form: the size of common memory and where frames begin in it, both in bytes, the most calls
/// inside one another, the place of main among the functions, and the functions with a definition.
#[derive(Drop)]
pub struct Ir {
    pub memory: u32,
    pub frames: u32,
    pub calls: u16,
    pub main: u32,
    pub functions: Items<Function>,
}
