// The highest variable of equations, above which none is involved.

ghost use Rattle.std.specs.Prelude.{◌≡◌};
ghost use Rattle.dae_commons.specs.Above as spec;

use dae_ir::{Operand, Value};

/// The operand's variable, or 0 where it is a number.
fn highest_in_operand(x: Operand) -> u32
    ensures { result ≡ spec.highest_in_operand x }
{
    match x {
        Operand::Variable(variable) => variable,
        Operand::Number(_) => 0,
    }
}

/// The highest variable that a value involves, or 0 where there is none.
fn highest_in_value(value: Value) -> u32
    ensures { result ≡ spec.highest_in_value value }
{
    match value {
        Value::Same(x) => highest_in_operand(x),
        Value::Extended(_, x) => highest_in_operand(x),
        Value::Binary(_, x, y) => highest_in_operand(x).max(highest_in_operand(y)),
        Value::Holds(test) => highest_in_operand(test.left).max(highest_in_operand(test.right)),
        Value::FrameAddress(_) => 0,
    }
}

/// The highest of a variable, of one that holds a value, and of those that the value involves.
pub fn highest_with(highest: u32, variable: u32, value: Value) -> u32
    ensures { result ≡ spec.highest_with highest variable value }
{
    highest.max(variable).max(highest_in_value(value))
}
