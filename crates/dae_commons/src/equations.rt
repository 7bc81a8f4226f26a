// Equations, and lists of them.

ghost use Rattle.std.specs.Prelude.{◌≡◌, ◌++◌, take, option_to_list, IfOk, OnOk};
ghost use Rattle.dae_commons.specs.Equations.{both_known, equation_of, involves, is_among, operand_involves, same_equation};
ghost use Rattle.dae_commons.specs.Equations.{value_involves, without_variable};

use dae_ir::{Operand, Value};
use std::alloc::{AllocError, Global};

/// The variable holds what the value computes.
#[derive(Clone, Copy)]
pub struct Equation {
    pub variable: u32,
    pub value: Value,
}

fn operand_involves(variable: u32, operand: Operand) -> bool
    ensures { result ≡ operand_involves variable operand }
{
    match operand {
        Operand::Variable(other) => other == variable,
        Operand::Number(_) => false,
    }
}

fn value_involves(variable: u32, value: Value) -> bool
    ensures { result ≡ value_involves variable value }
{
    match value {
        Value::Same(x) => operand_involves(variable, x),
        Value::Extended(_, x) => operand_involves(variable, x),
        Value::Binary(_, x, y) => operand_involves(variable, x) || operand_involves(variable, y),
        Value::Holds(test) => {
            operand_involves(variable, test.left) || operand_involves(variable, test.right)
        }
        Value::FrameAddress(_) => false,
    }
}

fn involves(variable: u32, equation: Equation) -> bool
    ensures { result ≡ involves variable equation }
{
    equation.variable == variable || value_involves(variable, equation.value)
}

/// Nothing is known any longer that involves a variable.
pub fn remove_involved(equations: &mut Vec<Equation>, variable: u32)
    ensures { equations.new.items ≡ without_variable variable equations.old.items }
{
    equations.retain(|equation| !involves(variable, *equation));
}

/// An equation, where there is one, comes before others, of which the latest few are kept, so that the time for an item doesn't grow
/// with the list that it stands in.
pub fn push_equation(
    equations: &mut Vec<Equation>,
    equation: Option<Equation>,
) -> Result<(), AllocError>
    ensures { OnOk result
        (equations.new.items ≡ take 32 (option_to_list equation ++ equations.old.items)) }
{
    if let Some(equation) = equation {
        equations.insert(0, equation)?;
    }
    equations.truncate(32);
    Ok(())
}

/// That a variable holds what was assigned to it, if it didn't stand there itself.
pub fn equation_of(variable: u32, value: Value) -> Option<Equation>
    ensures { option_to_list result ≡ equation_of variable value }
{
    if value_involves(variable, value) {
        None
    } else {
        Some(Equation { variable, value })
    }
}

fn same_equation(one: Equation, other: Equation) -> bool
    ensures { result ≡ same_equation one other }
{
    one.variable == other.variable && one.value == other.value
}

fn is_among(equation: Equation, known: &[Equation]) -> bool
    ensures { result ≡ is_among equation known.now }
{
    for other in known {
        if same_equation(equation, *other) {
            return true;
        }
    }
    false
}

/// The equations that are known at the ends of two lists.
pub fn both_known(
    alloc: Global,
    one: &[Equation],
    other: &[Equation],
) -> Result<Vec<Equation>, AllocError>
    ensures { IfOk result (λ new. new.items ≡ both_known one.now other.now) }
{
    let mut kept = Vec::new(alloc);
    for equation in one {
        if is_among(*equation, other) {
            kept.push(*equation)?;
        }
    }
    Ok(kept)
}
