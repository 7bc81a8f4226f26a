// Whole forms in which conditions are threaded.

ghost use Rattle.std.specs.Prelude.{IfOk};
ghost use Rattle.dae_threads.specs.Forms.{AreThreadedFunctions, IsThreadedFunction, IsThreadingOf};

use crate::flattening::flatten_list;
use crate::threading::thread_list;
use dae_base::{Items, Width};
use dae_ir::{Check, Function, Ir, Item, Statement};
use std::alloc::{AllocError, Global};

fn thread_function(alloc: Global, function: Function) -> Result<Function, AllocError>
    ensures { IfOk result (IsThreadedFunction function) }
{
    let threaded = thread_list(alloc, function.body.as_slice())?;
    let body = flatten_list(alloc, &threaded)?;
    Ok(Function {
        name: function.name,
        parameters: function.parameters,
        variables: function.variables,
        frame: function.frame,
        body: Items::from_vec(body),
    })
}

#[cycle(may)]
fn statement_may_change(statement: &Statement) -> bool {
    match statement {
        Statement::Simple(_, Item::Expect(Check::Place(Width::B1, _))) => true,
        Statement::Simple(_, _) => false,
        Statement::If(_, _, _, _) => true,
        Statement::Loop(_, body, step) => may_change(body) || may_change(step),
    }
}

// Whether there is an If, or a byte that is checked: nothing else gives occasion for a change. No proof rests on the answer.
#[cycle(may)]
fn may_change(statements: &[Statement]) -> bool {
    for statement in statements {
        if statement_may_change(statement) {
            return true;
        }
    }
    false
}

// A function that gives no occasion for a change stays as it is.
fn thread_where_occasion(alloc: Global, function: Function) -> Result<Function, AllocError>
    ensures { IfOk result (IsThreadedFunction function) }
{
    if may_change(function.body.as_slice()) {
        thread_function(alloc, function)
    } else {
        Ok(function)
    }
}

/// The form in which an If that tests what the If before it gave a variable goes, where each end of that one gave a number, and the
/// code doesn't grow: the lists of the condition stand at those ends. Checks of sums come before the sums, and the first list of an If
/// behind it where the second one ends early. The form is given up, also where memory is wanting.
#[tactic(auto, using(crate::proofs::Wholes::threaded_push))]
pub fn thread_conditions(alloc: Global, ir: Ir) -> Result<Ir, AllocError>
    ensures { IfOk result (IsThreadingOf ir) }
{
    let mut functions = Vec::new(alloc);
    for function in ir.functions.into_vec() {
        functions.push(thread_where_occasion(alloc, function)?)?;
    }
    Ok(Ir {
        memory: ir.memory,
        frames: ir.frames,
        calls: ir.calls,
        main: ir.main,
        functions: Items::from_vec(functions),
    })
}
