// Whole forms without the checks of places that are known to pass.

ghost use Rattle.std.specs.Prelude.{◌≡◌, IfOk};
ghost use Rattle.dae_elide.specs.Forms.{AreElidedFunctions, IsElidedFunction, IsElisionOf};

use crate::checking::checks_no_place;
use crate::eliding::elide_list;
use crate::likes::steps_like;
use dae_base::Items;
use dae_ir::{Class, Function, Ir};
use dae_select_facts::unknown;
use std::alloc::{AllocError, Global};

fn elide_function(
    alloc: Global,
    memory: u32,
    classes: &[Class],
    function: Function,
) -> Result<Function, AllocError>
    ensures { IfOk result (IsElidedFunction memory function) }
{
    let body = function.body.as_slice();
    let steps = steps_like(alloc, body)?;
    let body = elide_list(alloc, memory, classes, unknown(alloc), body, &steps)?;
    Ok(Function {
        name: function.name,
        parameters: function.parameters,
        variables: function.variables,
        frame: function.frame,
        body: Items::from_vec(body),
    })
}

/// The function without its known checks. One that checks no place stays as it is, and isn't walked through any further.
fn elide_where_checked(
    alloc: Global,
    memory: u32,
    classes: &[Class],
    function: Function,
) -> Result<Function, AllocError>
    ensures { IfOk result (IsElidedFunction memory function) }
{
    if checks_no_place(function.body.as_slice()) {
        return Ok(function);
    }
    elide_function(alloc, memory, classes, function)
}

fn row(tables: &[Items<Class>], function: usize) -> &[Class] {
    match tables.get(function) {
        Some(row) => row.as_slice(),
        None => &[],
    }
}

/// The form in which checks of places stand no more that are known to pass, of variables that A alone needs by these classes: so
/// nothing more is sent. Any classes give such a form. The form is given up, also where memory is wanting.
#[tactic(auto, using(crate::proofs::Walked::elided_push))]
pub fn elide_checks(alloc: Global, ir: Ir, tables: &[Items<Class>]) -> Result<Ir, AllocError>
    ensures { IfOk result (IsElisionOf ir) }
{
    let mut functions = Vec::new(alloc);
    for function in ir.functions.into_vec() {
        let classes = row(tables, functions.len());
        functions.push(elide_where_checked(alloc, ir.memory, classes, function)?)?;
    }
    Ok(Ir {
        memory: ir.memory,
        frames: ir.frames,
        calls: ir.calls,
        main: ir.main,
        functions: Items::from_vec(functions),
    })
}
