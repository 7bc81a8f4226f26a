// What operators do to words (C90 6.3.5 to 6.3.14).

ghost use Rattle.std.specs.Prelude.{◌≡◌, if◌then◌else◌};
ghost use Rattle.dae_meaning.specs.declared.Comparison.TheVariants as comparison;
ghost use Rattle.dae_meaning.specs.declared.Operator.TheVariants as operators;
ghost use Rattle.dae_meaning.specs.Operations.{combined, compared};
ghost use Rattle.dae_types_kinds.specs.Values.{deed, is_shift, is_equality, is_comparison, is_sum, is_difference, operator_of, divides, is_unsigned_for, type_for};
ghost use Rattle.dae_types_folding.specs.Views.{is_without_sign, view_deed};

use dae_base::Signedness;
use dae_meaning::{Comparison, Operator};
use dae_tree::{AssignmentOperator, BinaryOperator};
use dae_types_kinds::{INT_ID, Shape, UNSIGNED_ID};
use dae_types_tables::is_unsigned;

/// An operation, or a comparison with whether its operands are turned.
#[derive(Clone, Copy)]
pub enum WordOperation {
    Operates(Operator),
    Compares(Comparison, bool),
}

/// How two operands go together: as words; as a pointer to a type and an index, or an index and a pointer; as two pointers to
/// a type whose distance is asked; or as two pointers that are compared. A type is given by its number.
#[derive(Clone, Copy)]
pub enum Combination {
    Words,
    PointerFirst(usize),
    PointerSecond(usize),
    Distance(usize),
    Pointers,
}

/// What an operator does, on operands with a sign or without.
pub fn deed_of(signedness: Signedness, operator: BinaryOperator) -> WordOperation
    ensures { view_deed result ≡ deed (is_without_sign signedness) operator }
{
    match operator {
        BinaryOperator::Multiply => WordOperation::Operates(Operator::Multiply),
        BinaryOperator::Divide => WordOperation::Operates(division_for(signedness)),
        BinaryOperator::Remainder => WordOperation::Operates(remainder_for(signedness)),
        BinaryOperator::Add => WordOperation::Operates(Operator::Add),
        BinaryOperator::Subtract => WordOperation::Operates(Operator::Subtract),
        BinaryOperator::ShiftLeft => WordOperation::Operates(Operator::ShiftLeft),
        BinaryOperator::ShiftRight => WordOperation::Operates(right_shift_for(signedness)),
        BinaryOperator::Less => WordOperation::Compares(less(signedness), false),
        BinaryOperator::Greater => WordOperation::Compares(less(signedness), true),
        BinaryOperator::AtMost => WordOperation::Compares(at_least(signedness), true),
        BinaryOperator::AtLeast => WordOperation::Compares(at_least(signedness), false),
        BinaryOperator::Equal => WordOperation::Compares(Comparison::Equal, false),
        BinaryOperator::NotEqual => WordOperation::Compares(Comparison::NotEqual, false),
        BinaryOperator::And | BinaryOperator::AndAnd => WordOperation::Operates(Operator::And),
        BinaryOperator::Xor => WordOperation::Operates(Operator::Xor),
        BinaryOperator::Or | BinaryOperator::OrOr => WordOperation::Operates(Operator::Or),
    }
}

/// The division of words with a sign or without.
fn division_for(signedness: Signedness) -> Operator
    ensures { result
        ≡ (if is_without_sign signedness then operators.DivideUnsigned
        else operators.DivideSigned) }
{
    match signedness {
        Signedness::Signed => Operator::DivideSigned,
        Signedness::Unsigned => Operator::DivideUnsigned,
    }
}

/// The remainder of words with a sign or without.
fn remainder_for(signedness: Signedness) -> Operator
    ensures { result
        ≡ (if is_without_sign signedness then operators.RemainderUnsigned
        else operators.RemainderSigned) }
{
    match signedness {
        Signedness::Signed => Operator::RemainderSigned,
        Signedness::Unsigned => Operator::RemainderUnsigned,
    }
}

/// The shift to the right of a word with a sign or without.
fn right_shift_for(signedness: Signedness) -> Operator
    ensures { result
        ≡ (if is_without_sign signedness then operators.ShiftRightUnsigned
        else operators.ShiftRightSigned) }
{
    match signedness {
        Signedness::Signed => Operator::ShiftRightSigned,
        Signedness::Unsigned => Operator::ShiftRightUnsigned,
    }
}

/// Whether a word is less than another, with a sign or without.
fn less(signedness: Signedness) -> Comparison
    ensures { result
        ≡ (if is_without_sign signedness then comparison.LessUnsigned
        else comparison.LessSigned) }
{
    match signedness {
        Signedness::Signed => Comparison::LessSigned,
        Signedness::Unsigned => Comparison::LessUnsigned,
    }
}

/// Whether a word is at least another, with a sign or without.
fn at_least(signedness: Signedness) -> Comparison
    ensures { result
        ≡ (if is_without_sign signedness then comparison.AtLeastUnsigned
        else comparison.AtLeastSigned) }
{
    match signedness {
        Signedness::Signed => Comparison::AtLeastSigned,
        Signedness::Unsigned => Comparison::AtLeastUnsigned,
    }
}

/// Whether an operator is a shift.
pub fn is_shift(operator: BinaryOperator) -> bool
    ensures { result ≡ is_shift operator }
{
    match operator {
        BinaryOperator::ShiftLeft | BinaryOperator::ShiftRight => true,
        _ => false,
    }
}

/// Whether an operator asks if two values are equal.
pub fn is_equality(operator: BinaryOperator) -> bool
    ensures { result ≡ is_equality operator }
{
    match operator {
        BinaryOperator::Equal | BinaryOperator::NotEqual => true,
        _ => false,
    }
}

/// Whether an operator compares.
pub fn is_comparison(operator: BinaryOperator) -> bool
    ensures { result ≡ is_comparison operator }
{
    match operator {
        BinaryOperator::Less | BinaryOperator::Greater => true,
        BinaryOperator::AtMost | BinaryOperator::AtLeast => true,
        _ => is_equality(operator),
    }
}

/// Whether an operator is a sum.
pub fn is_sum(operator: BinaryOperator) -> bool
    ensures { result ≡ is_sum operator }
{
    match operator {
        BinaryOperator::Add => true,
        _ => false,
    }
}

/// Whether an operator is a difference.
pub fn is_difference(operator: BinaryOperator) -> bool
    ensures { result ≡ is_difference operator }
{
    match operator {
        BinaryOperator::Subtract => true,
        _ => false,
    }
}

/// The operator of a compound assignment. `=` has none, and counts as a sum.
pub fn operator_of(assignment: AssignmentOperator) -> BinaryOperator
    ensures { result ≡ operator_of assignment }
{
    match assignment {
        AssignmentOperator::Assign | AssignmentOperator::Add => BinaryOperator::Add,
        AssignmentOperator::Multiply => BinaryOperator::Multiply,
        AssignmentOperator::Divide => BinaryOperator::Divide,
        AssignmentOperator::Remainder => BinaryOperator::Remainder,
        AssignmentOperator::Subtract => BinaryOperator::Subtract,
        AssignmentOperator::ShiftLeft => BinaryOperator::ShiftLeft,
        AssignmentOperator::ShiftRight => BinaryOperator::ShiftRight,
        AssignmentOperator::And => BinaryOperator::And,
        AssignmentOperator::Xor => BinaryOperator::Xor,
        AssignmentOperator::Or => BinaryOperator::Or,
    }
}

/// Whether an operation traps by zero.
pub fn divides(operator: Operator) -> bool
    ensures { result ≡ divides operator }
{
    match operator {
        Operator::DivideSigned | Operator::DivideUnsigned => true,
        Operator::RemainderSigned | Operator::RemainderUnsigned => true,
        _ => false,
    }
}

/// Whether an operator works on words with a sign or without: a shift by its left operand alone.
pub fn signedness_for(operator: BinaryOperator, left: Shape, right: Shape) -> Signedness
    ensures { is_without_sign result ≡ is_unsigned_for operator left right }
{
    if is_unsigned(left) || (!is_shift(operator) && is_unsigned(right)) {
        Signedness::Unsigned
    } else {
        Signedness::Signed
    }
}

/// The type of an operation on words with a sign or without.
pub fn type_for(operator: BinaryOperator, signedness: Signedness) -> usize
    ensures { result ≡ type_for operator (is_without_sign signedness) }
{
    if is_comparison(operator) {
        return INT_ID;
    }
    match signedness {
        Signedness::Signed => INT_ID,
        Signedness::Unsigned => UNSIGNED_ID,
    }
}

/// What an operation on two words gives.
#[tactic(auto, unfolding(dae_meaning::specs::Operations::combined))]
pub fn apply(operator: Operator, x: u32, y: u32) -> u32
    ensures { result ≡ combined operator x y }
{
    match operator {
        Operator::Add => x.wrapping_add(y),
        Operator::Subtract => x.wrapping_sub(y),
        Operator::Multiply => x.wrapping_mul(y),
        Operator::DivideSigned => quotient(x, y),
        Operator::DivideUnsigned => x.checked_div(y).unwrap_or(u32::MAX),
        Operator::RemainderSigned => remainder(x, y),
        Operator::RemainderUnsigned => x.checked_rem(y).unwrap_or(x),
        Operator::And => x & y,
        Operator::Or => x | y,
        Operator::Xor => x ^ y,
        Operator::ShiftLeft => x.wrapping_shl(y),
        Operator::ShiftRightSigned => (x.cast_signed() >> (y % 32)).cast_unsigned(),
        Operator::ShiftRightUnsigned => x >> (y % 32),
    }
}

#[tactic(auto, unfolding(dae_meaning::specs::Operations::combined))]
fn quotient(x: u32, y: u32) -> u32
    ensures { result ≡ combined operators.DivideSigned x y }
{
    if y == 0 {
        u32::MAX
    } else {
        x.cast_signed()
            .wrapping_div(y.cast_signed())
            .cast_unsigned()
    }
}

#[tactic(auto, unfolding(dae_meaning::specs::Operations::combined))]
fn remainder(x: u32, y: u32) -> u32
    ensures { result ≡ combined operators.RemainderSigned x y }
{
    if y == 0 {
        x
    } else {
        x.cast_signed()
            .wrapping_rem(y.cast_signed())
            .cast_unsigned()
    }
}

/// Whether a comparison of two words holds.
#[tactic(auto, unfolding(dae_meaning::specs::Operations::compared))]
pub fn compare(comparison: Comparison, x: u32, y: u32) -> bool
    ensures { result ≡ compared comparison x y }
{
    match comparison {
        Comparison::Equal => x == y,
        Comparison::NotEqual => x != y,
        Comparison::LessSigned => x.cast_signed() < y.cast_signed(),
        Comparison::AtLeastSigned => x.cast_signed() >= y.cast_signed(),
        Comparison::LessUnsigned => x < y,
        Comparison::AtLeastUnsigned => x >= y,
    }
}
