// What is asked of code in which variables hold values for loops.

ghost use Rattle.std.specs.Prelude.{◌≡◌, ℕ, ◌≤◌, nat_eq, true, OnOk};
ghost use Rattle.dae_ir.specs.Classes.{has, has_check, has_test, has_value};
ghost use Rattle.dae_ir.specs.Scope.{IsIn, ValueIn};
ghost use Rattle.dae_ir.specs.SetFirst.{AllRead};
ghost use Rattle.dae_hoist.specs.Kept as spec;
ghost use Rattle.dae_hoist.specs.Planned.{hoisting_of};

use crate::plan::{HoistPlan, is_kept, leads_to_addresses, led_to_addresses};
use dae_ir::{Check, NotChanged, Operand, Test, Value};

/// A variable is kept.
pub fn keep_variable(plan: &HoistPlan, variable: u32) -> Result<(), NotChanged>
    ensures { OnOk result (spec.is_kept (hoisting_of plan.now) variable ≡ true) }
{
    if is_kept(plan, variable) {
        Ok(())
    } else {
        Err(NotChanged::Kept)
    }
}

/// What is read is kept.
pub fn keep_operand(plan: &HoistPlan, x: Operand) -> Result<(), NotChanged>
    ensures { OnOk result (has (spec.is_kept (hoisting_of plan.now)) x ≡ true) }
{
    match x {
        Operand::Variable(variable) => keep_variable(plan, variable),
        Operand::Number(_) => Ok(()),
    }
}

/// What a condition reads is kept.
pub fn keep_test(plan: &HoistPlan, test: Test) -> Result<(), NotChanged>
    ensures { OnOk result (has_test (spec.is_kept (hoisting_of plan.now)) test ≡ true) }
{
    keep_operand(plan, test.left)?;
    keep_operand(plan, test.right)?;
    Ok(())
}

/// What a value reads is kept.
pub fn keep_value(plan: &HoistPlan, value: Value) -> Result<(), NotChanged>
    ensures { OnOk result (has_value (spec.is_kept (hoisting_of plan.now)) value ≡ true) }
{
    match value {
        Value::Same(x) => keep_operand(plan, x),
        Value::Extended(_, x) => keep_operand(plan, x),
        Value::Binary(_, x, y) => {
            keep_operand(plan, x)?;
            keep_operand(plan, y)?;
            Ok(())
        }
        Value::Holds(test) => keep_test(plan, test),
        Value::FrameAddress(_) => Ok(()),
    }
}

/// What a check reads is kept.
pub fn keep_check(plan: &HoistPlan, check: Check) -> Result<(), NotChanged>
    ensures { OnOk result (has_check (spec.is_kept (hoisting_of plan.now)) check ≡ true) }
{
    match check {
        Check::Place(_, x) => keep_operand(plan, x),
        Check::InBounds(x, _) => keep_operand(plan, x),
        Check::Zero(x) => keep_operand(plan, x),
        Check::Room(_) | Check::Frame | Check::Abort => Ok(()),
    }
}

/// Arguments are kept.
pub fn keep_operands(plan: &HoistPlan, xs: &[Operand]) -> Result<(), NotChanged>
    ensures { OnOk result (AllRead (spec.is_kept (hoisting_of plan.now)) xs.now) }
{
    for x in xs {
        keep_operand(plan, *x)?;
    }
    Ok(())
}

/// The result and the parameters are kept.
pub fn keep_parameters(plan: &HoistPlan) -> Result<(), NotChanged>
    ensures { OnOk result ((v : ℕ) → v ≤ plan.now.parameters
        → spec.is_kept (hoisting_of plan.now) v ≡ true) }
{
    for variable in 0..plan.parameters {
        keep_variable(plan, variable)?;
    }
    keep_variable(plan, plan.parameters)?;
    Ok(())
}

fn is_same(one: u32, other: u32) -> bool
    ensures { result ≡ nat_eq one other }
{
    one == other
}

fn is_listed(variables: &[u32], variable: u32) -> bool
    ensures { result ≡ spec.is_listed variables.now variable }
{
    for other in variables {
        if is_same(*other, variable) {
            return true;
        }
    }
    false
}

// A variable is a parameter, or one of those that are set before.
fn is_set(plan: &HoistPlan, set: &[u32], variable: u32) -> bool
    ensures { result ≡ spec.is_set (hoisting_of plan.now) set.now variable }
{
    (0 < variable && variable <= plan.parameters) || is_listed(set, variable)
}

fn set_operand(plan: &HoistPlan, set: &[u32], x: Operand) -> Result<(), NotChanged>
    ensures set { OnOk result (has (spec.is_set (hoisting_of plan.now) set.now) x ≡ true) }
    ensures there { OnOk result (IsIn plan.now.variables x) }
{
    match x {
        Operand::Variable(variable) => {
            if is_set(plan, set, variable) && variable < plan.variables {
                Ok(())
            } else {
                Err(NotChanged::Kept)
            }
        }
        Operand::Number(_) => Ok(()),
    }
}

// A value is made of numbers and of variables that are set before.
fn set_value(plan: &HoistPlan, set: &[u32], value: Value) -> Result<(), NotChanged>
    ensures set { OnOk result
        (has_value (spec.is_set (hoisting_of plan.now) set.now) value ≡ true) }
    ensures there { OnOk result (ValueIn plan.now.variables value) }
{
    match value {
        Value::Same(x) => set_operand(plan, set, x),
        Value::Extended(_, x) => set_operand(plan, set, x),
        Value::Binary(_, x, y) => {
            set_operand(plan, set, x)?;
            set_operand(plan, set, y)?;
            Ok(())
        }
        Value::Holds(test) => {
            set_operand(plan, set, test.left)?;
            set_operand(plan, set, test.right)?;
            Ok(())
        }
        Value::FrameAddress(_) => Ok(()),
    }
}

fn addressed_operand(plan: &HoistPlan, x: Operand) -> bool
    ensures { result ≡ has (hoisting_of plan.now).new_sets x }
{
    match x {
        Operand::Variable(variable) => leads_to_addresses(plan, variable),
        Operand::Number(_) => true,
    }
}

// Whether all variables of a value lead to addresses.
fn addressed_value(plan: &HoistPlan, value: Value) -> bool
    ensures { result ≡ has_value (hoisting_of plan.now).new_sets value }
{
    match value {
        Value::Same(x) => addressed_operand(plan, x),
        Value::Extended(_, x) => addressed_operand(plan, x),
        Value::Binary(_, x, y) => addressed_operand(plan, x) && addressed_operand(plan, y),
        Value::Holds(test) => {
            addressed_operand(plan, test.left) && addressed_operand(plan, test.right)
        }
        Value::FrameAddress(_) => true,
    }
}

/// A variable that is assigned leads to addresses as before, or may hold the value that was found for it.
pub fn fit(
    plan: &HoistPlan,
    set: &[u32],
    variable: u32,
    found: Option<Value>,
) -> Result<(), NotChanged>
    ensures { OnOk result (spec.Fits (hoisting_of plan.now) set.now variable found) }
{
    match found {
        None => {
            if led_to_addresses(plan, variable) == leads_to_addresses(plan, variable) {
                Ok(())
            } else {
                Err(NotChanged::Kept)
            }
        }
        Some(value) => {
            set_value(plan, set, value)?;
            if !leads_to_addresses(plan, variable) || addressed_value(plan, value) {
                Ok(())
            } else {
                Err(NotChanged::Kept)
            }
        }
    }
}
