// What is known through code that sets variables.

ghost use Rattle.std.specs.Prelude.{◌≡◌, IfOk};
ghost use Rattle.dae_ir.specs.Form.{form_of};
ghost use Rattle.dae_commons.specs.Equations.{IsWithoutStatement, known_in_loop, without_item, without_set};

use crate::known::{KnownEquations, without_variable};
use dae_ir::{Item, Statement};
use std::alloc::{AllocError, Global};

// Nothing is known that involves what the item sets, and nothing behind a call.
fn without_item(
    alloc: Global,
    known: KnownEquations,
    item: &Item,
) -> Result<KnownEquations, AllocError>
    ensures { IfOk result (λ new. new ≡ without_item known item.now) }
{
    match item {
        Item::Assign(variable, _) => Ok(without_variable(known, *variable)),
        Item::Load(variable, _, _) => Ok(without_variable(known, *variable)),
        Item::Call(_, _, _) => Ok(KnownEquations::new(alloc)),
        Item::Store(_, _, _) | Item::Print(_, _) | Item::Expect(_) => Ok(known),
        Item::Break | Item::Continue | Item::Return(_) | Item::Halt(_) => Ok(known),
    }
}

#[cycle(without)]
fn without_list(
    alloc: Global,
    known: KnownEquations,
    statements: &[Statement],
) -> Result<KnownEquations, AllocError>
    ensures { IfOk result (λ new. new ≡ without_set known (form_of statements.now)) }
{
    let mut current = known;
    for statement in statements {
        current = without_statement(alloc, current, statement)?;
    }
    Ok(current)
}

#[cycle(without)]
fn without_statement(
    alloc: Global,
    known: KnownEquations,
    statement: &Statement,
) -> Result<KnownEquations, AllocError>
    ensures { IfOk result (λ new. IsWithoutStatement statement.now known new) }
{
    match statement {
        Statement::Simple(_, item) => without_item(alloc, known, item),
        Statement::If(_, _, first, second) | Statement::Loop(_, first, second) => {
            let middle = without_list(alloc, known, first)?;
            without_list(alloc, middle, second)
        }
    }
}

/// What is known in a loop, and behind it, of what was known before. Where that was nothing, the loop isn't gone through.
pub fn known_in_loop(
    alloc: Global,
    known: KnownEquations,
    body: &[Statement],
    step: &[Statement],
) -> Result<KnownEquations, AllocError>
    ensures { IfOk result (λ new.
        new ≡ known_in_loop known (form_of body.now) (form_of step.now)) }
{
    if known.is_empty() {
        return Ok(known);
    }
    let middle = without_list(alloc, known, body)?;
    without_list(alloc, middle, step)
}
