// What is read and what is computed, by the equations that are known.

ghost use Rattle.std.specs.Prelude.{◌≡◌, nat_eq, IfOk};
ghost use Rattle.dae_ir.specs.Classes.{classes_in};
ghost use Rattle.dae_commons.specs.Copies as spec;

use crate::equations::Equation;
use crate::needs::are_alike;
use dae_base::Items;
use dae_ir::{Check, Class, Operand, Test, Value};
use std::alloc::{AllocError, Global};

/// The variable that a value copies, or this one.
fn source_in(variable: u32, value: Value) -> u32
    ensures { result ≡ spec.source_in variable value }
{
    match value {
        Value::Same(Operand::Variable(source)) => source,
        Value::Same(Operand::Number(_)) => variable,
        Value::Extended(_, _) | Value::Binary(_, _, _) => variable,
        Value::Holds(_) | Value::FrameAddress(_) => variable,
    }
}

fn is_copy(row: &[Class], variable: u32, equation: Equation) -> bool
    ensures { result ≡ spec.is_copy (classes_in row.now) variable equation }
{
    equation.variable == variable && are_alike(row, source_in(variable, equation.value), variable)
}

/// The variable that a variable is known to be a copy of, where just those processors need it that need the copy, or the variable.
fn copy_source(row: &[Class], known: &[Equation], variable: u32) -> u32
    ensures { result ≡ spec.copy_source (classes_in row.now) known.now variable }
{
    for equation in known {
        if is_copy(row, variable, *equation) {
            return source_in(variable, equation.value);
        }
    }
    variable
}

/// An operand, as what it is a copy of.
pub fn propagate_operand(row: &[Class], known: &[Equation], x: Operand) -> Operand
    ensures { result ≡ spec.propagated_operand (classes_in row.now) known.now x }
{
    match x {
        Operand::Variable(variable) => Operand::Variable(copy_source(row, known, variable)),
        Operand::Number(number) => Operand::Number(number),
    }
}

/// A condition on what its operands are copies of.
pub fn propagate_test(row: &[Class], known: &[Equation], test: Test) -> Test
    ensures { result ≡ spec.propagated_test (classes_in row.now) known.now test }
{
    Test {
        comparison: test.comparison,
        left: propagate_operand(row, known, test.left),
        right: propagate_operand(row, known, test.right),
    }
}

/// A value of what its operands are copies of.
pub fn propagate_value(row: &[Class], known: &[Equation], value: Value) -> Value
    ensures { result ≡ spec.propagated_value (classes_in row.now) known.now value }
{
    match value {
        Value::Same(x) => Value::Same(propagate_operand(row, known, x)),
        Value::Extended(kind, x) => Value::Extended(kind, propagate_operand(row, known, x)),
        Value::Binary(operator, x, y) => {
            let x = propagate_operand(row, known, x);
            let y = propagate_operand(row, known, y);
            Value::Binary(operator, x, y)
        }
        Value::Holds(test) => Value::Holds(propagate_test(row, known, test)),
        Value::FrameAddress(offset) => Value::FrameAddress(offset),
    }
}

/// A check of what its operand is a copy of.
pub fn propagate_check(row: &[Class], known: &[Equation], check: Check) -> Check
    ensures { result ≡ spec.propagated_check (classes_in row.now) known.now check }
{
    match check {
        Check::Place(width, x) => Check::Place(width, propagate_operand(row, known, x)),
        Check::InBounds(x, offset) => Check::InBounds(propagate_operand(row, known, x), offset),
        Check::Zero(x) => Check::Zero(propagate_operand(row, known, x)),
        Check::Room(function) => Check::Room(function),
        Check::Frame => Check::Frame,
        Check::Abort => Check::Abort,
    }
}

/// Arguments, as what they are copies of.
pub fn propagate_operands(
    alloc: Global,
    row: &[Class],
    known: &[Equation],
    xs: &[Operand],
) -> Result<Items<Operand>, AllocError>
    ensures { IfOk result (λ ys.
        ys ≡ spec.propagated_operands (classes_in row.now) known.now xs.now) }
{
    let mut ys = Vec::new(alloc);
    for x in xs {
        ys.push(propagate_operand(row, known, *x))?;
    }
    Ok(Items::from_vec(ys))
}

fn operand_word(x: Operand) -> u32
    ensures { result ≡ spec.operand_word x }
{
    match x {
        Operand::Variable(variable) => variable,
        Operand::Number(number) => number,
    }
}

/// The word that stands last in a value.
fn last_word(value: Value) -> u32
    ensures { result ≡ spec.last_word value }
{
    match value {
        Value::Same(x) => operand_word(x),
        Value::Extended(_, x) => operand_word(x),
        Value::Binary(_, _, x) => operand_word(x),
        Value::Holds(test) => operand_word(test.right),
        Value::FrameAddress(offset) => offset,
    }
}

/// Whether two values may be the same, by the words that stand last in them.
fn may_be_same(one: Value, other: Value) -> bool
    ensures { result ≡ nat_eq (spec.last_word one) (spec.last_word other) }
{
    last_word(one) == last_word(other)
}

/// Whether two values are the same. Most that aren't have other words last, so that one look tells them apart.
fn are_same(one: Value, other: Value) -> bool
    ensures { result ≡ spec.are_same one other }
{
    if may_be_same(one, other) {
        one == other
    } else {
        false
    }
}

fn holds_already(row: &[Class], variable: u32, value: Value, equation: Equation) -> bool
    ensures { result ≡ spec.holds_already (classes_in row.now) variable value equation }
{
    are_same(equation.value, value)
        && equation.variable != variable
        && are_alike(row, equation.variable, variable)
}

/// A copy of another variable that holds the value already, where just those processors need it that need this one, or the value.
fn held_value(row: &[Class], known: &[Equation], variable: u32, value: Value) -> Value
    ensures { result ≡ spec.held_value (classes_in row.now) known.now variable value }
{
    for equation in known {
        if holds_already(row, variable, value, *equation) {
            return Value::Same(Operand::Variable(equation.variable));
        }
    }
    value
}

/// Whether a value is an operand as it stands.
pub fn is_operand(value: Value) -> bool
    ensures { result ≡ spec.is_operand value }
{
    match value {
        Value::Same(_) => true,
        Value::Extended(_, _) | Value::Binary(_, _, _) => false,
        Value::Holds(_) | Value::FrameAddress(_) => false,
    }
}

/// What is assigned to a variable that is to get a value: an operand stays.
pub fn compute_once(row: &[Class], known: &[Equation], variable: u32, value: Value) -> Value
    ensures { result ≡ spec.computed_once (classes_in row.now) known.now variable value }
{
    if is_operand(value) {
        value
    } else {
        held_value(row, known, variable, value)
    }
}
