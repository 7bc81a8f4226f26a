// Whole forms whose variables are renamed by webs.

ghost use Rattle.std.specs.Prelude.{◌≡◌, ◌+◌, ◌-◌, ◌*◌, ◌≤◌, length, IfOk};
ghost use Rattle.dae_webs.specs.Current.{own_webs};
ghost use Rattle.dae_webs.specs.Forms.{AreRenamedFunctions, IsRenamedFunction, IsRenamedOrSame, IsRenamingOf, with_body};

use crate::finding::find_webs;
use crate::plan::{Renaming, WebPlan};
use crate::renaming::rename_list;
use dae_base::Items;
use dae_ir::{Function, Ir, NotChanged, Statement};
use std::alloc::{AllocError, Global};

/// The number of variables of a function, and its body.
#[derive(Drop)]
struct RenamedBody {
    variables: u32,
    statements: Vec<Statement>,
}

// How many variables a plan makes: at most half as many further ones as there are beyond 9.
fn variables_with(plan: &WebPlan) -> Result<u32, NotChanged>
    ensures count { IfOk result (λ n. n ≡ plan.now.variables + length plan.now.owners.items) }
    ensures few { IfOk result (λ n.
        2 * n ≤ 2 * plan.now.variables + (plan.now.variables - 9)) }
{
    let more = u32::try_from(plan.owners.len()).map_err(|_| NotChanged::Kept)?;
    if more > plan.variables.saturating_sub(9) / 2 {
        return Err(NotChanged::Kept);
    }
    plan.variables.checked_add(more).ok_or(NotChanged::Kept)
}

// Each of so many variables is its own web.
fn own_webs(alloc: Global, variables: u32) -> Result<Vec<Option<u32>>, AllocError>
    ensures { IfOk result (λ xs. xs.items ≡ own_webs 0 variables) }
{
    let mut webs = Vec::new(alloc);
    for variable in 0..variables {
        webs.push(Some(variable))?;
    }
    Ok(webs)
}

fn rename_body(alloc: Global, function: &Function) -> Result<RenamedBody, NotChanged>
    ensures { IfOk result (λ r. IsRenamedFunction function.now
        (with_body function.now r.variables r.statements.items)) }
{
    let plan = find_webs(alloc, function)?;
    if plan.owners.is_empty() {
        return Err(NotChanged::Kept);
    }
    let variables = variables_with(&plan)?;
    let mut renaming = Renaming {
        webs: own_webs(alloc, function.variables)?,
        definitions: 0,
    };
    let statements = rename_list(alloc, &plan, &mut renaming, function.body.as_slice())?;
    Ok(RenamedBody {
        variables,
        statements,
    })
}

fn rename_function(alloc: Global, function: Function) -> Result<Function, AllocError>
    ensures { IfOk result (IsRenamedOrSame function) }
{
    match rename_body(alloc, &function) {
        Ok(renamed) => Ok(Function {
            name: function.name,
            parameters: function.parameters,
            variables: renamed.variables,
            frame: function.frame,
            body: Items::from_vec(renamed.statements),
        }),
        Err(NotChanged::Memory) => Err(AllocError),
        Err(NotChanged::Kept) => Ok(function),
    }
}

/// The form in which the webs of each function's variables are variables of their own, where there are not too many. The form is
/// given up, also where memory is wanting.
#[tactic(auto, using(crate::proofs::Wholes::renamed_push))]
pub fn rename_webs(alloc: Global, ir: Ir) -> Result<Ir, AllocError>
    ensures { IfOk result (IsRenamingOf ir) }
{
    let mut functions = Vec::new(alloc);
    for function in ir.functions.into_vec() {
        functions.push(rename_function(alloc, function)?)?;
    }
    Ok(Ir {
        memory: ir.memory,
        frames: ir.frames,
        calls: ir.calls,
        main: ir.main,
        functions: Items::from_vec(functions),
    })
}
