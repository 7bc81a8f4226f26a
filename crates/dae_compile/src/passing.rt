// The passes from form to form behind the lowering that ask something of the form before them.

ghost use Rattle.std.specs.Prelude.{◌≡◌, IfOk, true};
ghost use Rattle.std.specs.List.{list_all};
ghost use Rattle.dae_alias.specs.Forms.{IsReuseOf, is_reusable};
ghost use Rattle.dae_elide.specs.Forms.{IsElisionOf};
ghost use Rattle.dae_ir.specs.Scope.{IsScoped};
ghost use Rattle.dae_compile.specs.Passes.{HasSumsAtAccesses, IsCommonedAgain, IsWithoutCommons};

use dae_alias::{ReuseError, reuse};
use dae_commons::{eliminate_commons, form_has_no_self_set};
use dae_elide::{elide_checks, form_checks_no_place};
use dae_hoist::hoist_invariants;
use dae_ir::Ir;
use dae_slice::classes;
use std::alloc::{AllocError, Global};

/// The form without its common subexpressions, by its least classes, where what doesn't change in loops is computed before them. An
/// error is want of memory.
pub fn without_commons(alloc: Global, ir: Ir) -> Result<Ir, AllocError>
    requires { IsScoped ir }
    ensures { IfOk result (IsWithoutCommons ir) }
{
    let tables = classes(alloc, &ir)?;
    let form = hoist_invariants(alloc, ir, tables.as_slice())?;
    let new = eliminate_commons(alloc, form.ir, form.tables.as_slice())?;
    Ok(new)
}

/// The form without the checks that are known to pass, by its least classes, which a form without checks of places needs not. An error is
/// want of memory.
pub fn without_known_checks(alloc: Global, ir: Ir) -> Result<Ir, AllocError>
    requires { IsScoped ir }
    ensures { IfOk result (IsElisionOf ir) }
{
    if form_checks_no_place(&ir) {
        return elide_checks(alloc, ir, &[]);
    }
    let tables = classes(alloc, &ir)?;
    elide_checks(alloc, ir, tables.as_slice())
}

/// The form without its common subexpressions once more, by its least classes. An error is want of memory.
fn common_again(alloc: Global, ir: Ir) -> Result<Ir, AllocError>
    requires { IsScoped ir }
    ensures { IfOk result (IsCommonedAgain ir) }
{
    let tables = classes(alloc, &ir)?;
    let new = eliminate_commons(alloc, ir, tables.as_slice())?;
    Ok(new)
}

/// The form with sums computed where an access behind can stand for them, and without the common subexpressions that this makes, by its
/// least classes. Such a sum stands where a variable is set to itself, so a form without one stays as it is. An error is want of memory.
pub fn with_sums_at_accesses(alloc: Global, ir: Ir) -> Result<Ir, AllocError>
    requires { IsScoped ir }
    ensures { IfOk result (HasSumsAtAccesses ir) }
{
    if form_has_no_self_set(&ir) {
        return Ok(ir);
    }
    common_again(alloc, ir)
}

/// The form with its loads reused, where words number its variables and one more for each load. An error is want of memory.
pub fn reuse_loads(alloc: Global, ir: Ir) -> Result<Ir, AllocError>
    requires { list_all is_reusable ir.functions ≡ true }
    ensures { IfOk result (IsReuseOf ir) }
{
    match reuse(alloc, ir) {
        Ok(new) => Ok(new),
        Err(ReuseError::Memory) => Err(AllocError),
        Err(ReuseError::Variables) => unreachable!(),
    }
}
