// Copies of statements.

ghost use Rattle.std.specs.Prelude.{◌≤◌, [], length, take, IfOk, OnOk};
ghost use Rattle.dae_threads.specs.Walked.{AreCopiedBehind, IsCopy};

use dae_ir::Statement;
use std::alloc::{AllocError, Global};

#[cycle(copy)]
fn copy_statement(alloc: Global, statement: &Statement) -> Result<Statement, AllocError>
    ensures { IfOk result (IsCopy statement.now) }
{
    match statement {
        Statement::Simple(place, item) => {
            let copy = item.copy(alloc)?;
            Ok(Statement::Simple(*place, copy))
        }
        Statement::If(place, test, yes, no) => {
            let mut first = Vec::new(alloc);
            copy_behind(alloc, yes, &mut first)?;
            let mut second = Vec::new(alloc);
            copy_behind(alloc, no, &mut second)?;
            Ok(Statement::If(*place, *test, first, second))
        }
        Statement::Loop(place, body, step) => {
            let mut first = Vec::new(alloc);
            copy_behind(alloc, body, &mut first)?;
            let mut second = Vec::new(alloc);
            copy_behind(alloc, step, &mut second)?;
            Ok(Statement::Loop(*place, first, second))
        }
    }
}

/// Statements are copied behind others.
#[cycle(copy)]
pub fn copy_behind(
    alloc: Global,
    statements: &[Statement],
    out: &mut Vec<Statement>,
) -> Result<(), AllocError>
    ensures { OnOk result (AreCopiedBehind out.old.items statements.now out.new.items) }
{
    for statement in statements {
        let copy = copy_statement(alloc, statement)?;
        out.push(copy)?;
    }
    Ok(())
}

/// A copy of the first statements of a list.
pub fn copy_first(
    alloc: Global,
    statements: &[Statement],
    count: usize,
) -> Result<Vec<Statement>, AllocError>
    requires { count ≤ length statements.now }
    ensures { IfOk result (λ new. AreCopiedBehind [] (take count statements.now) new.items) }
{
    let mut new = Vec::new(alloc);
    for index in 0..count {
        let copy = copy_statement(alloc, &statements[index])?;
        new.push(copy)?;
    }
    Ok(new)
}
