// The levels of expressions, from what binds most strongly up (C90 6.3).

/// Names, constants, literals, and expressions in parentheses (C90 6.3.1).
pub const PRIMARY: u8 = 0;
/// Operators behind their operand (C90 6.3.2).
pub const POSTFIX: u8 = 1;
/// Operators before their operand (C90 6.3.3).
pub const UNARY: u8 = 2;
/// Casts (C90 6.3.4).
pub const CAST: u8 = 3;
/// `*`, `/` and `%` (C90 6.3.5).
pub const MULTIPLICATIVE: u8 = 4;
/// `+` and `-` (C90 6.3.6).
pub const ADDITIVE: u8 = 5;
/// `<<` and `>>` (C90 6.3.7).
pub const SHIFT: u8 = 6;
/// `<`, `>`, `<=` and `>=` (C90 6.3.8).
pub const RELATIONAL: u8 = 7;
/// `==` and `!=` (C90 6.3.9).
pub const EQUALITY: u8 = 8;
/// `&` (C90 6.3.10).
pub const BITWISE_AND: u8 = 9;
/// `^` (C90 6.3.11).
pub const BITWISE_XOR: u8 = 10;
/// `|` (C90 6.3.12).
pub const BITWISE_OR: u8 = 11;
/// `&&` (C90 6.3.13).
pub const LOGICAL_AND: u8 = 12;
/// `||` (C90 6.3.14).
pub const LOGICAL_OR: u8 = 13;
/// The conditional operator (C90 6.3.15).
pub const CONDITIONAL: u8 = 14;
/// Assignments (C90 6.3.16).
pub const ASSIGNMENT: u8 = 15;
/// The comma, and so any expression (C90 6.3.17).
pub const COMMA: u8 = 16;
/// Above all expressions.
pub const NONE: u8 = 17;
