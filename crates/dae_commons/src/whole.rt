// Whole forms without their common subexpressions.

ghost use Rattle.std.specs.Prelude.{◌≡◌, IfOk, slice_get};
ghost use Rattle.dae_ir.specs.Classes.{classes_in, row_of};
ghost use Rattle.dae_commons.specs.Forms.{IsCommonedFunction, IsCommoningOf};

use crate::commoning::common_list;
use crate::known::KnownEquations;
use dae_base::Items;
use dae_ir::{Class, Function, Ir};
use std::alloc::{AllocError, Global};

fn row_of(tables: &[Items<Class>], function: usize) -> &[Class]
    ensures { result.now ≡ row_of (slice_get tables.now function) }
{
    match tables.get(function) {
        Some(row) => row.as_slice(),
        None => &[],
    }
}

fn common_function(alloc: Global, row: &[Class], function: Function) -> Result<Function, AllocError>
    ensures { IfOk result (IsCommonedFunction (classes_in row.now) function) }
{
    let nothing = KnownEquations::new(alloc);
    let list = common_list(alloc, row, &nothing, function.body.as_slice())?;
    Ok(Function {
        name: function.name,
        parameters: function.parameters,
        variables: function.variables,
        frame: function.frame,
        body: Items::from_vec(list.statements),
    })
}

/// The form in which no value is computed that is known to be held by a variable already, where just those processors need that
/// variable that need the one which gets the value; and in which a variable of the access side that was set to itself is computed
/// again from a sum that it holds, where an access can add that. The tables say who needs the variables of each function. The form is
/// given up, also where memory is wanting.
pub fn eliminate_commons(alloc: Global, ir: Ir, tables: &[Items<Class>]) -> Result<Ir, AllocError>
    ensures { IfOk result (IsCommoningOf tables.now ir) }
{
    let mut functions = Items::new(alloc);
    for function in ir.functions.into_vec() {
        let row = row_of(tables, functions.len());
        let common = common_function(alloc, row, function)?;
        functions.push(common)?;
    }
    Ok(Ir {
        memory: ir.memory,
        frames: ir.frames,
        calls: ir.calls,
        main: ir.main,
        functions,
    })
}
