// Whole forms in which variables hold values for loops.

ghost use Rattle.std.specs.Prelude.{◌≡◌, IfOk, slice_get};
ghost use Rattle.dae_ir.specs.Classes.{row_of};
ghost use Rattle.dae_hoist.specs.Forms.{IsHoistOf, IsHoistedFunction, IsHoistedOrSame, addresses_in, with_statements};

use crate::finding::find_invariants;
use crate::hoisting::{SetVariables, hoist_list};
use crate::keeping::keep_parameters;
use dae_base::Items;
use dae_ir::{Class, Function, Ir, NotChanged, Statement};
use std::alloc::{AllocError, Global};

/// A body in which variables hold values for loops, and the classes of the function's variables.
#[derive(Drop)]
struct HoistedBody {
    body: Items<Statement>,
    row: Items<Class>,
}

/// A function in which variables hold values for loops, and the classes of its variables.
#[derive(Drop)]
struct HoistedFunction {
    function: Function,
    row: Items<Class>,
}

/// A form in which variables hold values for loops, and for each function the classes of its variables.
#[derive(Drop)]
pub struct HoistedForm {
    pub ir: Ir,
    pub tables: Items<Items<Class>>,
}

fn row_of(tables: &[Items<Class>], function: usize) -> &[Class]
    ensures { result.now ≡ row_of (slice_get tables.now function) }
{
    match tables.get(function) {
        Some(row) => row.as_slice(),
        None => &[],
    }
}

fn copy_row(alloc: Global, row: &[Class]) -> Result<Items<Class>, AllocError>
    ensures { IfOk result (λ new. new ≡ row.now) }
{
    let mut new = Vec::new(alloc);
    new.extend_from_slice(row)?;
    Ok(Items::from_vec(new))
}

fn hoist_body(alloc: Global, row: &[Class], function: &Function) -> Result<HoistedBody, NotChanged>
    ensures { IfOk result (λ h.
        IsHoistedFunction (addresses_in row.now) (addresses_in h.row) function.now
        (with_statements function.now h.body)) }
{
    let plan = find_invariants(alloc, row, function)?;
    keep_parameters(&plan)?;
    let variables = Vec::new(alloc);
    let mut before = SetVariables { variables };
    let statements = hoist_list(alloc, &plan, &mut before, function.body.as_slice())?;
    Ok(HoistedBody {
        body: Items::from_vec(statements),
        row: Items::from_vec(plan.new_row),
    })
}

fn keep_function(
    alloc: Global,
    row: &[Class],
    function: Function,
) -> Result<HoistedFunction, AllocError>
    ensures { IfOk result (λ h.
        IsHoistedOrSame (addresses_in row.now) (addresses_in h.row) function h.function) }
{
    let same = copy_row(alloc, row)?;
    Ok(HoistedFunction {
        function,
        row: same,
    })
}

fn hoist_function(
    alloc: Global,
    row: &[Class],
    function: Function,
) -> Result<HoistedFunction, AllocError>
    ensures { IfOk result (λ h.
        IsHoistedOrSame (addresses_in row.now) (addresses_in h.row) function h.function) }
{
    match hoist_body(alloc, row, &function) {
        Ok(hoisted) => Ok(HoistedFunction {
            function: Function {
                name: function.name,
                parameters: function.parameters,
                variables: function.variables,
                frame: function.frame,
                body: hoisted.body,
            },
            row: hoisted.row,
        }),
        Err(NotChanged::Memory) => Err(AllocError),
        Err(NotChanged::Kept) => keep_function(alloc, row, function),
    }
}

/// The form in which variables that nothing reads hold, before loops, values that don't change there, and the classes of all
/// variables: such a variable is of the class of the one that gets the value in the loop. The tables say who needs the variables of
/// each function. The form is given up, also where memory is wanting.
pub fn hoist_invariants(
    alloc: Global,
    ir: Ir,
    tables: &[Items<Class>],
) -> Result<HoistedForm, AllocError>
    ensures { IfOk result (λ h. IsHoistOf tables.now h.tables ir h.ir) }
{
    let mut functions = Items::new(alloc);
    let mut rows = Items::new(alloc);
    for function in ir.functions.into_vec() {
        let row = row_of(tables, functions.len());
        let hoisted = hoist_function(alloc, row, function)?;
        functions.push(hoisted.function)?;
        rows.push(hoisted.row)?;
    }
    Ok(HoistedForm {
        ir: Ir {
            memory: ir.memory,
            frames: ir.frames,
            calls: ir.calls,
            main: ir.main,
            functions,
        },
        tables: rows,
    })
}
