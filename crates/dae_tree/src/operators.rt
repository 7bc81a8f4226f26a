// The operators, and their tables, in which definitions and code look them up: the sign of each, and a level (C90 6.3).

use crate::levels::{
    ADDITIVE, ASSIGNMENT, BITWISE_AND, BITWISE_OR, BITWISE_XOR, CAST, CONDITIONAL, EQUALITY,
    LOGICAL_AND, LOGICAL_OR, MULTIPLICATIVE, POSTFIX, RELATIONAL, SHIFT, UNARY,
};
use crate::signs::Sign;

/// A binary operator (C90 6.3.5 to 6.3.14).
#[derive(Clone, Copy, PartialEq, Eq)]
pub enum BinaryOperator {
    Multiply,
    Divide,
    Remainder,
    Add,
    Subtract,
    ShiftLeft,
    ShiftRight,
    Less,
    Greater,
    AtMost,
    AtLeast,
    Equal,
    NotEqual,
    And,
    Xor,
    Or,
    AndAnd,
    OrOr,
}

/// An assignment operator (C90 6.3.16).
#[derive(Clone, Copy, PartialEq, Eq)]
pub enum AssignmentOperator {
    Assign,
    Multiply,
    Divide,
    Remainder,
    Add,
    Subtract,
    ShiftLeft,
    ShiftRight,
    And,
    Xor,
    Or,
}

/// An operator before its operand (C90 6.3.3), sizeof left out.
#[derive(Clone, Copy, PartialEq, Eq)]
pub enum PrefixOperator {
    Increment,
    Decrement,
    Address,
    Indirection,
    Plus,
    Minus,
    Complement,
    Not,
}

/// An operator behind its operand (C90 6.3.2.4).
#[derive(Clone, Copy, PartialEq, Eq)]
pub enum PostfixOperator {
    Increment,
    Decrement,
}

/// An operator before the name of a member (C90 6.3.2.3).
#[derive(Clone, Copy, PartialEq, Eq)]
pub enum MemberOperator {
    Dot,
    Arrow,
}

/// What a sign behind an operand begins (C90 6.3.2 and 6.3.5 to 6.3.16), or that it begins nothing.
#[derive(Clone, Copy, PartialEq, Eq)]
pub enum Operation {
    Subscript,
    Call,
    Member(MemberOperator),
    Step(PostfixOperator),
    Binary(BinaryOperator),
    Choice,
    Assignment(AssignmentOperator),
    Ends,
}

/// What signs behind an operand begin, and the level of the whole (C90 6.3.2 and 6.3.5 to 6.3.16).
#[rattlefmt::skip]
pub const OPERATIONS: [(Sign, Operation, u8); 36] = [
    (Sign::LeftBracket, Operation::Subscript, POSTFIX),
    (Sign::LeftParen, Operation::Call, POSTFIX),
    (Sign::Dot, Operation::Member(MemberOperator::Dot), POSTFIX),
    (Sign::Arrow, Operation::Member(MemberOperator::Arrow), POSTFIX),
    (Sign::Increment, Operation::Step(PostfixOperator::Increment), POSTFIX),
    (Sign::Decrement, Operation::Step(PostfixOperator::Decrement), POSTFIX),
    (Sign::Times, Operation::Binary(BinaryOperator::Multiply), MULTIPLICATIVE),
    (Sign::Divide, Operation::Binary(BinaryOperator::Divide), MULTIPLICATIVE),
    (Sign::Remainder, Operation::Binary(BinaryOperator::Remainder), MULTIPLICATIVE),
    (Sign::Plus, Operation::Binary(BinaryOperator::Add), ADDITIVE),
    (Sign::Minus, Operation::Binary(BinaryOperator::Subtract), ADDITIVE),
    (Sign::ShiftLeft, Operation::Binary(BinaryOperator::ShiftLeft), SHIFT),
    (Sign::ShiftRight, Operation::Binary(BinaryOperator::ShiftRight), SHIFT),
    (Sign::Less, Operation::Binary(BinaryOperator::Less), RELATIONAL),
    (Sign::Greater, Operation::Binary(BinaryOperator::Greater), RELATIONAL),
    (Sign::AtMost, Operation::Binary(BinaryOperator::AtMost), RELATIONAL),
    (Sign::AtLeast, Operation::Binary(BinaryOperator::AtLeast), RELATIONAL),
    (Sign::Equal, Operation::Binary(BinaryOperator::Equal), EQUALITY),
    (Sign::NotEqual, Operation::Binary(BinaryOperator::NotEqual), EQUALITY),
    (Sign::And, Operation::Binary(BinaryOperator::And), BITWISE_AND),
    (Sign::Xor, Operation::Binary(BinaryOperator::Xor), BITWISE_XOR),
    (Sign::Or, Operation::Binary(BinaryOperator::Or), BITWISE_OR),
    (Sign::AndAnd, Operation::Binary(BinaryOperator::AndAnd), LOGICAL_AND),
    (Sign::OrOr, Operation::Binary(BinaryOperator::OrOr), LOGICAL_OR),
    (Sign::Question, Operation::Choice, CONDITIONAL),
    (Sign::Assign, Operation::Assignment(AssignmentOperator::Assign), ASSIGNMENT),
    (Sign::TimesAssign, Operation::Assignment(AssignmentOperator::Multiply), ASSIGNMENT),
    (Sign::DivideAssign, Operation::Assignment(AssignmentOperator::Divide), ASSIGNMENT),
    (Sign::RemainderAssign, Operation::Assignment(AssignmentOperator::Remainder), ASSIGNMENT),
    (Sign::PlusAssign, Operation::Assignment(AssignmentOperator::Add), ASSIGNMENT),
    (Sign::MinusAssign, Operation::Assignment(AssignmentOperator::Subtract), ASSIGNMENT),
    (Sign::ShiftLeftAssign, Operation::Assignment(AssignmentOperator::ShiftLeft), ASSIGNMENT),
    (Sign::ShiftRightAssign, Operation::Assignment(AssignmentOperator::ShiftRight), ASSIGNMENT),
    (Sign::AndAssign, Operation::Assignment(AssignmentOperator::And), ASSIGNMENT),
    (Sign::XorAssign, Operation::Assignment(AssignmentOperator::Xor), ASSIGNMENT),
    (Sign::OrAssign, Operation::Assignment(AssignmentOperator::Or), ASSIGNMENT),
];

/// The operators before an operand, and the highest level of the operand (C90 6.3.3).
pub const PREFIXES: [(Sign, PrefixOperator, u8); 8] = [
    (Sign::Increment, PrefixOperator::Increment, UNARY),
    (Sign::Decrement, PrefixOperator::Decrement, UNARY),
    (Sign::And, PrefixOperator::Address, CAST),
    (Sign::Times, PrefixOperator::Indirection, CAST),
    (Sign::Plus, PrefixOperator::Plus, CAST),
    (Sign::Minus, PrefixOperator::Minus, CAST),
    (Sign::Tilde, PrefixOperator::Complement, CAST),
    (Sign::Not, PrefixOperator::Not, CAST),
];
