// The walk that threads conditions.

ghost use Rattle.std.specs.Prelude.{◌≡◌, ◌++◌, [], ◌∷◌, IfOk, OnOk};
ghost use Rattle.dae_ir.specs.Form.{form_of};
ghost use Rattle.dae_threads.specs.Threaded.{IsThreaded};
ghost use Rattle.dae_threads.specs.Walked.{AreWithBoth, AreWithNext, IsThreadedTo};

use crate::checking::check_of_sum;
use crate::leading::join_condition;
use dae_ir::{NotChanged, Statement};
use std::alloc::{AllocError, Global};

fn push_one(out: &mut Vec<Statement>, statement: Statement) -> Result<(), AllocError>
    ensures { OnOk result (out.new.items ≡ out.old.items ++ statement ∷ []) }
{
    out.push(statement)?;
    Ok(())
}

fn push_two(
    out: &mut Vec<Statement>,
    statement: Statement,
    next: Statement,
) -> Result<(), AllocError>
    ensures { OnOk result (out.new.items ≡ out.old.items ++ statement ∷ next ∷ []) }
{
    out.push(statement)?;
    out.push(next)?;
    Ok(())
}

// Two statements come behind others, a check of a sum before the sum.
fn push_apart(
    out: &mut Vec<Statement>,
    statement: Statement,
    next: Statement,
) -> Result<(), AllocError>
    ensures { OnOk result (AreWithBoth out.old.items statement next out.new.items) }
{
    match check_of_sum(&statement, &next) {
        Ok(first) => push_two(out, first.check, first.sum),
        Err(_) => push_two(out, statement, next),
    }
}

// Two statements come behind others, as one where they can be joined.
fn push_pair(
    alloc: Global,
    out: &mut Vec<Statement>,
    statement: Statement,
    next: Statement,
) -> Result<(), AllocError>
    ensures { OnOk result (AreWithBoth out.old.items statement next out.new.items) }
{
    match join_condition(alloc, &statement, &next) {
        Ok(joined) => push_one(out, joined),
        Err(NotChanged::Kept) => push_apart(out, statement, next),
        Err(NotChanged::Memory) => Err(AllocError),
    }
}

// A statement comes behind others, joined to the last of them where it can be.
fn push_next(alloc: Global, out: &mut Vec<Statement>, next: Statement) -> Result<(), AllocError>
    ensures { OnOk result (AreWithNext out.old.items next out.new.items) }
{
    match out.pop() {
        Some(statement) => push_pair(alloc, out, statement, next),
        None => push_one(out, next),
    }
}

#[cycle(thread)]
fn thread_statement(alloc: Global, statement: &Statement) -> Result<Statement, AllocError>
    ensures { IfOk result (IsThreadedTo statement.now) }
{
    match statement {
        Statement::Simple(place, item) => {
            let copy = item.copy(alloc)?;
            Ok(Statement::Simple(*place, copy))
        }
        Statement::If(place, test, yes, no) => {
            let first = thread_list(alloc, yes)?;
            let second = thread_list(alloc, no)?;
            Ok(Statement::If(*place, *test, first, second))
        }
        Statement::Loop(place, body, step) => {
            let first = thread_list(alloc, body)?;
            let second = thread_list(alloc, step)?;
            Ok(Statement::Loop(*place, first, second))
        }
    }
}

/// A list of statements whose conditions are threaded, from the innermost lists on.
#[cycle(thread)]
pub fn thread_list(alloc: Global, statements: &[Statement]) -> Result<Vec<Statement>, AllocError>
    ensures { IfOk result (λ new.
        IsThreaded (form_of statements.now) (form_of new.items)) }
{
    let mut out = Vec::with_capacity(alloc, statements.len())?;
    for statement in statements {
        let next = thread_statement(alloc, statement)?;
        push_next(alloc, &mut out, next)?;
    }
    Ok(out)
}
