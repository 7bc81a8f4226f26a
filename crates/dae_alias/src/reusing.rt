// Whole forms whose loads are reused.

ghost use Rattle.std.specs.Prelude.{◌≡◌, IfErr, IfOk, OnOk, false};
ghost use Rattle.std.specs.List.{list_all, list_any};
ghost use Rattle.dae_alias.specs.Forms.{AreReused, IsReusedFunction, IsReuseOf, is_reusable};
ghost use Rattle.dae_alias.specs.declared.errors.ReuseError.TheVariants as errors;

use crate::errors::ReuseError;
use crate::loads::has_no_load;
use crate::marking::mark_repeated;
use crate::tables::number_marked;
use crate::turning::turn_statements;
use dae_base::Items;
use dae_ir::{Function, Ir};
use std::alloc::Global;

// Whether a load is marked.
fn any_marked(marks: &[bool]) -> bool
    ensures { result ≡ list_any (λ mark. mark) marks.now }
{
    marks.iter().any(|mark| *mark)
}

// A function of which no load is repeated stays as it is.
fn reuse_in_function(alloc: Global, function: Function) -> Result<Function, ReuseError>
    ensures reused { IfOk result (IsReusedFunction function) }
    ensures many { IfErr result (λ e. e ≡ errors.Variables → is_reusable function ≡ false) }
{
    if has_no_load(function.body.as_slice()) {
        return Ok(function);
    }
    let marks = mark_repeated(alloc, function.body.as_slice())?;
    if marks.len() > (u32::MAX - function.variables) as usize {
        return Err(ReuseError::Variables);
    }
    if !any_marked(&marks) {
        return Ok(function);
    }
    let table = number_marked(alloc, &marks, function.variables)?;
    let part = turn_statements(alloc, &table.holders, 0, function.body.as_slice())?;
    Ok(Function {
        name: function.name,
        parameters: function.parameters,
        variables: table.variables,
        frame: function.frame,
        body: Items::from_vec(part.statements),
    })
}

/// The form in which a load that repeats an earlier one of its stretch is a copy. The form is given up, also where it
/// fails: words don't number the variables of a function and one more for each of its loads, or memory is wanting.
#[tactic(auto, using(crate::proofs::Whole::reused_push))]
pub fn reuse(alloc: Global, ir: Ir) -> Result<Ir, ReuseError>
    ensures reused { IfOk result (IsReuseOf ir) }
    ensures many { IfErr result
        (λ e. e ≡ errors.Variables → list_all is_reusable ir.functions ≡ false) }
{
    let mut functions = Vec::new(alloc);
    for function in ir.functions.into_vec() {
        functions.push(reuse_in_function(alloc, function)?)?;
    }
    Ok(Ir {
        memory: ir.memory,
        frames: ir.frames,
        calls: ir.calls,
        main: ir.main,
        functions: Items::from_vec(functions),
    })
}
