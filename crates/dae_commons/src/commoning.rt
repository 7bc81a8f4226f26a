// The walk along the code.

ghost use Rattle.std.specs.Prelude.{◌≡◌, IfOk, None, Some};
ghost use Rattle.dae_ir.specs.Classes.{classes_in};
ghost use Rattle.dae_ir.specs.declared.form.Item.TheVariants as items;
ghost use Rattle.dae_commons.specs.Commoned.{IsCommonedList, IsCommonedTo, known_after_set, commoned_item, known_after};

use crate::copies::{
    is_operand, propagate_check, propagate_operand, propagate_operands, propagate_test,
};
use crate::known::{KnownEquations, equations_in, meet, with_equation, without_variable};
use crate::setting::known_in_loop;
use crate::sums::{assigned_value, is_itself};
use dae_ir::{Class, Item, Statement, Value};
use std::alloc::{AllocError, Global};

/// An item in the new form, and the equations that are known behind it, where the code goes on there.
#[derive(Drop)]
struct CommonedItem {
    item: Item,
    known: Option<KnownEquations>,
}

/// A statement in the new form, and the equations that are known behind it, where the code goes on there.
#[derive(Drop)]
struct CommonedStatement {
    statement: Statement,
    known: Option<KnownEquations>,
}

/// A list of statements in the new form, and what is known at its end.
#[derive(Drop)]
pub struct CommonedList {
    pub statements: Vec<Statement>,
    pub known: Option<KnownEquations>,
}

fn with_known(item: Item, known: KnownEquations) -> CommonedItem
    ensures item { result.item ≡ item }
    ensures known { result.known ≡ Some known }
{
    CommonedItem {
        item,
        known: Some(known),
    }
}

// The code doesn't go on behind the item.
fn without_known(item: Item) -> CommonedItem
    ensures item { result.item ≡ item }
    ensures known { result.known ≡ None }
{
    CommonedItem { item, known: None }
}

// What is known behind an assignment of one value, which is written as another.
fn known_after_set(
    known: KnownEquations,
    variable: u32,
    old: Value,
    new: Value,
) -> Result<KnownEquations, AllocError>
    ensures { IfOk result (λ behind. behind ≡ known_after_set known variable old new) }
{
    if is_itself(variable, old) {
        Ok(known)
    } else if is_operand(old) {
        Ok(without_variable(known, variable))
    } else {
        with_equation(known, variable, new)
    }
}

fn common_assignment(
    row: &[Class],
    known: KnownEquations,
    variable: u32,
    value: Value,
) -> Result<CommonedItem, AllocError>
    ensures item { IfOk result (λ new. new.item
        ≡ commoned_item (classes_in row.now) known (items.Assign variable value)) }
    ensures known { IfOk result (λ new. new.known
        ≡ known_after (classes_in row.now) known (items.Assign variable value)) }
{
    let new = assigned_value(row, known.as_slice(), variable, value);
    let behind = known_after_set(known, variable, value, new)?;
    Ok(with_known(Item::Assign(variable, new), behind))
}

// An item by the equations that are known, and what is known behind it.
fn common_item(
    alloc: Global,
    row: &[Class],
    known: KnownEquations,
    item: &Item,
) -> Result<CommonedItem, AllocError>
    ensures item { IfOk result (λ new.
        new.item ≡ commoned_item (classes_in row.now) known item.now) }
    ensures known { IfOk result (λ new.
        new.known ≡ known_after (classes_in row.now) known item.now) }
{
    match item {
        Item::Assign(variable, value) => common_assignment(row, known, *variable, *value),
        Item::Load(variable, kind, x) => {
            let x = propagate_operand(row, known.as_slice(), *x);
            let behind = without_variable(known, *variable);
            Ok(with_known(Item::Load(*variable, *kind, x), behind))
        }
        Item::Store(width, x, y) => {
            let x = propagate_operand(row, known.as_slice(), *x);
            let y = propagate_operand(row, known.as_slice(), *y);
            Ok(with_known(Item::Store(*width, x, y), known))
        }
        Item::Print(spelling, x) => {
            let x = propagate_operand(row, known.as_slice(), *x);
            Ok(with_known(Item::Print(*spelling, x), known))
        }
        Item::Expect(check) => {
            let check = propagate_check(row, known.as_slice(), *check);
            Ok(with_known(Item::Expect(check), known))
        }
        Item::Call(variable, function, xs) => {
            let xs = propagate_operands(alloc, row, known.as_slice(), xs.as_slice())?;
            Ok(with_known(
                Item::Call(*variable, *function, xs),
                KnownEquations::new(alloc),
            ))
        }
        Item::Break => Ok(without_known(Item::Break)),
        Item::Continue => Ok(without_known(Item::Continue)),
        Item::Return(x) => Ok(without_known(Item::Return(propagate_operand(
            row,
            known.as_slice(),
            *x,
        )))),
        Item::Halt(x) => Ok(without_known(Item::Halt(propagate_operand(
            row,
            known.as_slice(),
            *x,
        )))),
    }
}

/// A list of statements, where these equations are known at its start.
#[cycle(common)]
pub fn common_list(
    alloc: Global,
    row: &[Class],
    known: &KnownEquations,
    statements: &[Statement],
) -> Result<CommonedList, AllocError>
    ensures { IfOk result (λ new.
        IsCommonedList (classes_in row.now) statements.now known.now new.statements.items
        new.known) }
{
    let start = known.copy(alloc)?;
    let mut current = Some(start);
    let mut out = Vec::with_capacity(alloc, statements.len())?;
    for statement in statements {
        let common = common_statement(alloc, row, current, statement)?;
        current = common.known;
        out.push(common.statement)?;
    }
    Ok(CommonedList {
        statements: out,
        known: current,
    })
}

#[cycle(common)]
fn common_statement(
    alloc: Global,
    row: &[Class],
    known: Option<KnownEquations>,
    statement: &Statement,
) -> Result<CommonedStatement, AllocError>
    ensures { IfOk result (λ new.
        IsCommonedTo (classes_in row.now) statement.now known new.known new.statement) }
{
    let equations = equations_in(alloc, known);
    match statement {
        Statement::Simple(place, item) => {
            let common = common_item(alloc, row, equations, item)?;
            Ok(CommonedStatement {
                statement: Statement::Simple(*place, common.item),
                known: common.known,
            })
        }
        Statement::If(place, test, yes, no) => {
            let test = propagate_test(row, equations.as_slice(), *test);
            let first = common_list(alloc, row, &equations, yes)?;
            let second = common_list(alloc, row, &equations, no)?;
            let behind = meet(alloc, first.known, second.known)?;
            Ok(CommonedStatement {
                statement: Statement::If(*place, test, first.statements, second.statements),
                known: behind,
            })
        }
        Statement::Loop(place, body, step) => {
            let inside = known_in_loop(alloc, equations, body, step)?;
            let first = common_list(alloc, row, &inside, body)?;
            let second = common_list(alloc, row, &inside, step)?;
            Ok(CommonedStatement {
                statement: Statement::Loop(*place, first.statements, second.statements),
                known: Some(inside),
            })
        }
    }
}
