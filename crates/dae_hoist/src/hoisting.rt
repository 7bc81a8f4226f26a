// The walk that gives variables the values that were found for them.

ghost use Rattle.std.specs.Prelude.{◌≡◌, length, take, true, IfOk, OnOk};
ghost use Rattle.dae_ir.specs.Classes.{has_value};
ghost use Rattle.dae_hoist.specs.Hoisted.{found_or, hoisted_item};
ghost use Rattle.dae_hoist.specs.Kept.{Fits, ItemKept, is_kept, set_behind};
ghost use Rattle.dae_hoist.specs.Planned.{IsHoistedList, IsHoistedStatement, hoisting_of, set_in};

use crate::keeping::{
    fit, keep_check, keep_operand, keep_operands, keep_test, keep_value, keep_variable,
};
use crate::plan::{HoistPlan, value_for};
use dae_ir::{Item, NotChanged, Statement, Value};
use std::alloc::{AllocError, Global};

/// The variables of which is known that they are set before a place, beside the parameters.
#[derive(Drop)]
pub struct SetVariables {
    pub variables: Vec<u32>,
}

fn found_or(found: Option<Value>, value: Value) -> Value
    ensures { result ≡ found_or found value }
{
    match found {
        Some(other) => other,
        None => value,
    }
}

// What is assigned to a variable in place of a value.
fn hoist_value(
    plan: &HoistPlan,
    set: &[u32],
    variable: u32,
    value: Value,
) -> Result<Value, NotChanged>
    ensures value { IfOk result (λ y.
        y ≡ found_or ((hoisting_of plan.now).holding variable) value) }
    ensures reads { IfOk result (λ _.
        has_value (is_kept (hoisting_of plan.now)) value ≡ true) }
    ensures fits { IfOk result (λ _.
        Fits (hoisting_of plan.now) set.now variable ((hoisting_of plan.now).holding variable)) }
{
    let found = value_for(plan, variable);
    keep_value(plan, value)?;
    fit(plan, set, variable, found)?;
    Ok(found_or(found, value))
}

// An item by the plan.
fn hoist_item(alloc: Global, plan: &HoistPlan, set: &[u32], item: &Item) -> Result<Item, NotChanged>
    ensures item { IfOk result (λ new.
        new ≡ hoisted_item (hoisting_of plan.now).holding item.now) }
    ensures kept { IfOk result (λ _. ItemKept (hoisting_of plan.now) set.now item.now) }
{
    match item {
        Item::Assign(variable, value) => {
            let value = hoist_value(plan, set, *variable, *value)?;
            Ok(Item::Assign(*variable, value))
        }
        Item::Load(variable, kind, x) => {
            keep_variable(plan, *variable)?;
            keep_operand(plan, *x)?;
            Ok(Item::Load(*variable, *kind, *x))
        }
        Item::Store(width, x, y) => {
            keep_operand(plan, *x)?;
            keep_operand(plan, *y)?;
            Ok(Item::Store(*width, *x, *y))
        }
        Item::Print(spelling, x) => {
            keep_operand(plan, *x)?;
            Ok(Item::Print(*spelling, *x))
        }
        Item::Expect(check) => {
            keep_check(plan, *check)?;
            Ok(Item::Expect(*check))
        }
        Item::Call(variable, _, xs) => {
            keep_variable(plan, *variable)?;
            keep_operands(plan, xs.as_slice())?;
            Ok(item.copy(alloc)?)
        }
        Item::Return(x) => {
            keep_operand(plan, *x)?;
            Ok(Item::Return(*x))
        }
        Item::Halt(x) => {
            keep_operand(plan, *x)?;
            Ok(Item::Halt(*x))
        }
        Item::Break => Ok(Item::Break),
        Item::Continue => Ok(Item::Continue),
    }
}

// What an item sets is set behind it.
fn note_set(before: &mut SetVariables, item: &Item) -> Result<(), AllocError>
    ensures { OnOk result (set_in before.new ≡ set_behind (set_in before.old) item.now) }
{
    match item {
        Item::Assign(variable, _) => {
            before.variables.push(*variable)?;
            Ok(())
        }
        Item::Load(variable, _, _) => {
            before.variables.push(*variable)?;
            Ok(())
        }
        Item::Call(variable, _, _) => {
            before.variables.push(*variable)?;
            Ok(())
        }
        Item::Store(_, _, _) | Item::Print(_, _) | Item::Expect(_) => Ok(()),
        Item::Break | Item::Continue | Item::Return(_) | Item::Halt(_) => Ok(()),
    }
}

fn count_set(before: &SetVariables) -> usize
    ensures { result ≡ length (set_in before.now) }
{
    before.variables.len()
}

// Only so many are known to be set.
fn forget_since(before: &mut SetVariables, count: usize)
    ensures { set_in before.new ≡ take count (set_in before.old) }
{
    before.variables.truncate(count);
}

/// A list of statements by the plan, behind what sets these variables.
#[cycle(hoist)]
pub fn hoist_list(
    alloc: Global,
    plan: &HoistPlan,
    before: &mut SetVariables,
    statements: &[Statement],
) -> Result<Vec<Statement>, NotChanged>
    ensures { IfOk result (λ new.
        IsHoistedList (hoisting_of plan.now) statements.now (set_in before.old)
        (set_in before.new) new.items) }
{
    let count = count_set(before);
    let mut out = Vec::with_capacity(alloc, statements.len())?;
    for statement in statements {
        let hoisted = hoist_statement(alloc, plan, before, statement)?;
        out.push(hoisted)?;
    }
    forget_since(before, count);
    Ok(out)
}

#[cycle(hoist)]
fn hoist_statement(
    alloc: Global,
    plan: &HoistPlan,
    before: &mut SetVariables,
    statement: &Statement,
) -> Result<Statement, NotChanged>
    ensures { IfOk result (λ new.
        IsHoistedStatement (hoisting_of plan.now) statement.now (set_in before.old)
        (set_in before.new) new) }
{
    match statement {
        Statement::Simple(place, item) => {
            let hoisted = hoist_item(alloc, plan, &before.variables, item)?;
            note_set(before, item)?;
            Ok(Statement::Simple(*place, hoisted))
        }
        Statement::If(place, test, yes, no) => {
            keep_test(plan, *test)?;
            let first = hoist_list(alloc, plan, before, yes)?;
            let second = hoist_list(alloc, plan, before, no)?;
            Ok(Statement::If(*place, *test, first, second))
        }
        Statement::Loop(place, body, step) => {
            let first = hoist_list(alloc, plan, before, body)?;
            let second = hoist_list(alloc, plan, before, step)?;
            Ok(Statement::Loop(*place, first, second))
        }
    }
}
