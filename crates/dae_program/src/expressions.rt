// Expressions, and what they assign.

use dae_base::{LoadKind, Place};
use dae_meaning::{Comparison, Operator};

/// Where the operator of a step stands: before its operand, so that the new value is given, or behind it, so that the value
/// before is.
#[derive(Clone, Copy)]
pub enum Fixity {
    Prefix,
    Postfix,
}

/// An expression that gives a word, with the place of its first token. The address of an object is such a word: a
/// subscript is a sum of addresses, a member the sum of an address and an offset, and an array decays to its address.
#[cycle(tree)]
#[derive(Drop)]
pub enum Expression {
    /// An integer constant expression (C90 6.4).
    Number(u32),
    /// The address so many bytes behind the start of an object with static storage, by its number in the file. String
    /// literals count among them.
    Address(u32, u32),
    /// The address so many bytes behind the start of the running function's frame.
    Frame(Place, u32),
    /// A variable's value.
    Variable(Place, u32),
    /// The value of the object at an address. The flag says whether the address came through `*`, `->` or a subscript.
    Read(Place, LoadKind, bool, Box<Expression>),
    /// A conversion to a narrower type, or to the other sign: the low bits, extended.
    Convert(Place, LoadKind, Box<Expression>),
    /// `!`
    Not(Place, Box<Expression>),
    /// An operation on two words. A minus sign is a difference from 0, and `~` an exclusive or with the word of all ones.
    Binary(Place, Operator, Box<Expression>, Box<Expression>),
    /// A comparison, 1 or 0. The flag says that the right operand is the comparison's left one, as for `>`.
    Compare(Place, Comparison, bool, Box<Expression>, Box<Expression>),
    And(Place, Box<Expression>, Box<Expression>),
    Or(Place, Box<Expression>, Box<Expression>),
    Conditional(Place, Box<Expression>, Box<Expression>, Box<Expression>),
    Comma(Box<Expression>, Box<Expression>),
    /// `=`. The right side is converted already.
    Assign(Place, LoadKind, Target, Box<Expression>),
    /// `+=` and its kin. The right side is converted and scaled already.
    Update(Place, LoadKind, Target, Operator, Box<Expression>),
    /// `++` and `--`, which add a number.
    Step(Place, LoadKind, Target, u32, Fixity),
    /// A call of a function by its number in the file, with the arguments converted.
    Call(Place, u32, Vec<Expression>),
    Putchar(Place, Box<Expression>),
    /// `exit`, and a return from `main`.
    Exit(Place, Box<Expression>),
    Abort(Place),
}

/// What is assigned: a variable, or the object at an address. The flag says whether the address came through `*`, `->` or a
/// subscript.
#[cycle(tree)]
#[derive(Drop)]
pub enum Target {
    Variable(u32),
    Object(bool, Box<Expression>),
}
