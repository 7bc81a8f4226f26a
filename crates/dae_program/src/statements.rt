// Statements.

use crate::expressions::Expression;
use dae_base::{Place, Width};
use dae_meaning::Spelling;

/// What `printf` prints: a byte of the format, an argument, or the bytes that an argument points to. Arguments are numbered
/// from 0.
#[derive(Clone, Copy)]
pub enum FormatPiece {
    Byte(u8),
    Word(Spelling, u32),
    String(u32),
}

/// An item of an initialised aggregate: its offset in the frame in bytes, how wide it is, and its value as an address of an
/// object with static storage or a number.
#[derive(Drop)]
pub struct Setting {
    pub offset: u32,
    pub width: Width,
    pub value: Expression,
}

/// A statement, with the place of its first token. Blocks are gone: their declarations are assignments in their turn, of 0
/// where a scalar has no initialiser.
#[cycle(statement)]
#[derive(Drop)]
pub enum Statement {
    Evaluate(Place, Box<Expression>),
    /// An initialised aggregate of so many bytes from an offset in the frame on: zeros, and then the items.
    Initialise(Place, u32, u32, Vec<Setting>),
    Print(Place, Vec<Expression>, Vec<FormatPiece>),
    If(Place, Box<Expression>, Vec<Statement>, Vec<Statement>),
    /// `while` and `for`: a test or none, the body, and what follows each turn, or nothing.
    Loop(Place, Option<Box<Expression>>, Vec<Statement>, Option<Box<Expression>>),
    Do(Place, Vec<Statement>, Box<Expression>),
    Switch(Place, Box<Expression>, Vec<Arm>),
    Break(Place),
    Continue(Place),
    Return(Place, Option<Box<Expression>>),
}

/// Statements of a switch with the labels before the first of them, in order, converted to the type of the switch's value.
/// `None` is `default`.
#[cycle(statement)]
#[derive(Drop)]
pub struct Arm {
    pub labels: Vec<Option<u32>>,
    pub statements: Vec<Statement>,
}
