// What a sign before or behind an operand is, and what binds how strongly (C90 6.3), as the tables of operators have it. Behind an
// operand these are asked at each token, so that there is a case for each row in place of a walk through the table.

ghost use Rattle.std.specs.Prelude.{◌≡◌};
ghost use Rattle.dae_tree.specs.Operators as operators;

use dae_tree::{
    ADDITIVE, ASSIGNMENT, AssignmentOperator, BITWISE_AND, BITWISE_OR, BITWISE_XOR, BinaryOperator,
    CONDITIONAL, EQUALITY, LOGICAL_AND, LOGICAL_OR, MULTIPLICATIVE, MemberOperator, NONE,
    Operation, POSTFIX, PREFIXES, PRIMARY, PostfixOperator, PrefixOperator, RELATIONAL, SHIFT,
    Sign, UNARY,
};

/// The first row of a sign.
fn row_at<T: Copy>(rows: &[(Sign, T, u8)], sign: Sign) -> Option<(Sign, T, u8)>
    ensures { result ≡ operators.row_at rows.now sign }
{
    for row in rows {
        if row.0 == sign {
            return Some(*row);
        }
    }
    None
}

/// The first row of an operator.
fn row_of<T: Copy + PartialEq>(rows: &[(Sign, T, u8)], operator: T) -> Option<(Sign, T, u8)>
    ensures { result ≡ operators.row_of T.eq rows.now operator }
{
    for row in rows {
        if row.1 == operator {
            return Some(*row);
        }
    }
    None
}

/// What a sign begins behind an operand (C90 6.3.2 and 6.3.5 to 6.3.16).
pub fn begun_by(sign: Sign) -> Operation
    ensures { result ≡ operators.operation sign }
{
    match sign {
        Sign::LeftBracket => Operation::Subscript,
        Sign::LeftParen => Operation::Call,
        Sign::Dot => Operation::Member(MemberOperator::Dot),
        Sign::Arrow => Operation::Member(MemberOperator::Arrow),
        Sign::Increment => Operation::Step(PostfixOperator::Increment),
        Sign::Decrement => Operation::Step(PostfixOperator::Decrement),
        Sign::Times => Operation::Binary(BinaryOperator::Multiply),
        Sign::Divide => Operation::Binary(BinaryOperator::Divide),
        Sign::Remainder => Operation::Binary(BinaryOperator::Remainder),
        Sign::Plus => Operation::Binary(BinaryOperator::Add),
        Sign::Minus => Operation::Binary(BinaryOperator::Subtract),
        Sign::ShiftLeft => Operation::Binary(BinaryOperator::ShiftLeft),
        Sign::ShiftRight => Operation::Binary(BinaryOperator::ShiftRight),
        Sign::Less => Operation::Binary(BinaryOperator::Less),
        Sign::Greater => Operation::Binary(BinaryOperator::Greater),
        Sign::AtMost => Operation::Binary(BinaryOperator::AtMost),
        Sign::AtLeast => Operation::Binary(BinaryOperator::AtLeast),
        Sign::Equal => Operation::Binary(BinaryOperator::Equal),
        Sign::NotEqual => Operation::Binary(BinaryOperator::NotEqual),
        Sign::And => Operation::Binary(BinaryOperator::And),
        Sign::Xor => Operation::Binary(BinaryOperator::Xor),
        Sign::Or => Operation::Binary(BinaryOperator::Or),
        Sign::AndAnd => Operation::Binary(BinaryOperator::AndAnd),
        Sign::OrOr => Operation::Binary(BinaryOperator::OrOr),
        Sign::Question => Operation::Choice,
        Sign::Assign => Operation::Assignment(AssignmentOperator::Assign),
        Sign::TimesAssign => Operation::Assignment(AssignmentOperator::Multiply),
        Sign::DivideAssign => Operation::Assignment(AssignmentOperator::Divide),
        Sign::RemainderAssign => Operation::Assignment(AssignmentOperator::Remainder),
        Sign::PlusAssign => Operation::Assignment(AssignmentOperator::Add),
        Sign::MinusAssign => Operation::Assignment(AssignmentOperator::Subtract),
        Sign::ShiftLeftAssign => Operation::Assignment(AssignmentOperator::ShiftLeft),
        Sign::ShiftRightAssign => Operation::Assignment(AssignmentOperator::ShiftRight),
        Sign::AndAssign => Operation::Assignment(AssignmentOperator::And),
        Sign::XorAssign => Operation::Assignment(AssignmentOperator::Xor),
        Sign::OrAssign => Operation::Assignment(AssignmentOperator::Or),
        Sign::RightBracket
        | Sign::RightParen
        | Sign::LeftBrace
        | Sign::RightBrace
        | Sign::Tilde
        | Sign::Not
        | Sign::Colon
        | Sign::Semicolon
        | Sign::Comma => Operation::Ends,
    }
}

/// The operator that a sign before an operand is (C90 6.3.3).
pub fn prefix_operator(sign: Sign) -> Option<PrefixOperator>
    ensures { result ≡ operators.prefix_at sign }
{
    Some(row_at(&PREFIXES, sign)?.1)
}

/// The level of the whole.
pub fn reach(operation: Operation) -> u8
    ensures { result ≡ operators.reach operation }
{
    match operation {
        Operation::Subscript => POSTFIX,
        Operation::Call => POSTFIX,
        Operation::Member(_) => POSTFIX,
        Operation::Step(_) => POSTFIX,
        Operation::Binary(operator) => strength(operator),
        Operation::Choice => CONDITIONAL,
        Operation::Assignment(_) => ASSIGNMENT,
        Operation::Ends => NONE,
    }
}

/// The highest level of what stands on the left.
pub fn left_level(operation: Operation) -> u8
    ensures { result ≡ operators.left_level operation }
{
    match operation {
        Operation::Choice => LOGICAL_OR,
        Operation::Assignment(_) => UNARY,
        Operation::Ends => PRIMARY,
        _ => reach(operation),
    }
}

/// The level of a binary expression (C90 6.3.5 to 6.3.14).
pub fn strength(operator: BinaryOperator) -> u8
    ensures { result ≡ operators.strength operator }
{
    match operator {
        BinaryOperator::Multiply | BinaryOperator::Divide | BinaryOperator::Remainder =>
            MULTIPLICATIVE,
        BinaryOperator::Add | BinaryOperator::Subtract => ADDITIVE,
        BinaryOperator::ShiftLeft | BinaryOperator::ShiftRight => SHIFT,
        BinaryOperator::Less
        | BinaryOperator::Greater
        | BinaryOperator::AtMost
        | BinaryOperator::AtLeast => RELATIONAL,
        BinaryOperator::Equal | BinaryOperator::NotEqual => EQUALITY,
        BinaryOperator::And => BITWISE_AND,
        BinaryOperator::Xor => BITWISE_XOR,
        BinaryOperator::Or => BITWISE_OR,
        BinaryOperator::AndAnd => LOGICAL_AND,
        BinaryOperator::OrOr => LOGICAL_OR,
    }
}

/// The highest level of its right operand, one below its own, since these operators go to the left.
pub fn under(operator: BinaryOperator) -> u8
    ensures { result ≡ operators.under operator }
{
    strength(operator).saturating_sub(1)
}

/// The highest level of the operand behind a prefix (C90 6.3.3).
pub fn operand_level(operator: PrefixOperator) -> u8
    ensures { result ≡ operators.operand_level operator }
{
    row_of(&PREFIXES, operator).map_or(NONE, |row| row.2)
}
