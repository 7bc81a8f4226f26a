// What is assigned to a variable: where that is set to itself, the sum that it holds.

ghost use Rattle.std.specs.Prelude.{◌≡◌};
ghost use Rattle.dae_ir.specs.Classes.{classes_in};
ghost use Rattle.dae_commons.specs.Sums as spec;

use crate::copies::{compute_once, propagate_value};
use crate::equations::Equation;
use crate::needs::class_of;
use dae_ir::{Class, Operand, Value};
use dae_meaning::Operator;

/// Whether a variable is set to itself.
pub fn is_itself(variable: u32, value: Value) -> bool
    ensures { result ≡ spec.is_itself variable value }
{
    match value {
        Value::Same(Operand::Variable(source)) => source == variable,
        Value::Same(Operand::Number(_)) => false,
        Value::Extended(_, _) | Value::Binary(_, _, _) => false,
        Value::Holds(_) | Value::FrameAddress(_) => false,
    }
}

/// The sum of a variable and a number, where an access can add the number and A needs the variable; or else another value.
fn base_sum_or(row: &[Class], base: u32, offset: u32, other: Value) -> Value
    ensures { result ≡ spec.base_sum_or (classes_in row.now) base offset other }
{
    let class = class_of(row, base);
    if offset < 2048 && class.a {
        Value::Binary(
            Operator::Add,
            Operand::Variable(base),
            Operand::Number(offset),
        )
    } else {
        other
    }
}

/// A value as such a sum, where it is one, or else another value.
fn as_sum_or(row: &[Class], value: Value, other: Value) -> Value
    ensures { result ≡ spec.as_sum_or (classes_in row.now) value other }
{
    match value {
        Value::Binary(Operator::Add, Operand::Variable(base), Operand::Number(offset)) => {
            base_sum_or(row, base, offset, other)
        }
        Value::Binary(Operator::Add, Operand::Number(offset), Operand::Variable(base)) => {
            base_sum_or(row, base, offset, other)
        }
        _ => other,
    }
}

/// The sum that a variable is known to hold, or the variable itself.
fn held_sum(row: &[Class], known: &[Equation], variable: u32) -> Value
    ensures { result ≡ spec.held_sum (classes_in row.now) known.now variable }
{
    for equation in known {
        if equation.variable == variable {
            let own = Value::Same(Operand::Variable(variable));
            return as_sum_or(row, equation.value, own);
        }
    }
    Value::Same(Operand::Variable(variable))
}

/// What a variable is computed from again that is set to itself.
fn compute_again(row: &[Class], known: &[Equation], variable: u32) -> Value
    ensures { result ≡ spec.computed_again (classes_in row.now) known.now variable }
{
    let class = class_of(row, variable);
    if class.a && !class.e {
        held_sum(row, known, variable)
    } else {
        Value::Same(Operand::Variable(variable))
    }
}

/// What is written where a value is assigned to a variable.
pub fn assigned_value(row: &[Class], known: &[Equation], variable: u32, value: Value) -> Value
    ensures { result ≡ spec.assigned_value (classes_in row.now) known.now variable value }
{
    if is_itself(variable, value) {
        compute_again(row, known, variable)
    } else {
        compute_once(row, known, variable, propagate_value(row, known, value))
    }
}
