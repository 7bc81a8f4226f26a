// The form of a whole program.

ghost use Rattle.std.specs.Prelude.{◌≡◌, ◌<◌, ◌^◌, length, IfOk};
ghost use Rattle.std.specs.List.{AllByRecursion};
ghost use Rattle.dae_lower_formed.specs.Formed.{IsLowered};
ghost use Rattle.dae_ir.specs.Scope.{IsScoped};
ghost use Rattle.dae_ir.specs.SetFirst.{IsFunctionSetFirst};
ghost use Rattle.dae_lower_programs.specs.Functions.{HaveNumbers};
ghost use Rattle.dae_lower_programs.specs.Lowered.{HasRoom};

use crate::functions::lower_functions;
use dae_base::Items;
use dae_ir::Ir;
use dae_program::Program;
use std::alloc::{AllocError, Global};

/// The form of a program as the definition has it.
fn lower_program(alloc: Global, program: &Program, calls: u16) -> Result<Ir, AllocError>
    requires few { length program.now.functions < 2 ^ 32 }
    requires numbers { HaveNumbers program.now program.now.functions }
    ensures lowered { IfOk result (λ ir. IsLowered program.now ir) }
    ensures calls { IfOk result (λ ir. ir.calls ≡ calls) }
{
    let functions = lower_functions(alloc, program)?;
    Ok(Ir {
        memory: program.memory,
        frames: program.frames,
        calls,
        main: program.main,
        functions: Items::from_vec(functions),
    })
}

/// The form of a program, with at most so many calls inside one another, where words number its functions and the variables of
/// their forms. It is well made, sets each variable before it reads it, and has room in its memory.
pub fn lower(alloc: Global, program: &Program, calls: u16) -> Result<Ir, AllocError>
    requires few { length program.now.functions < 2 ^ 32 }
    requires numbers { HaveNumbers program.now program.now.functions }
    ensures lowered { IfOk result (λ ir. IsLowered program.now ir) }
    ensures calls { IfOk result (λ ir. ir.calls ≡ calls) }
    ensures scoped { IfOk result IsScoped }
    ensures first { IfOk result (λ ir. AllByRecursion IsFunctionSetFirst ir.functions) }
    ensures room { IfOk result (HasRoom program.now) }
{
    dae_lower_formed::forms_scoped();
    dae_lower_formed::forms_set_first();
    let ir = lower_program(alloc, program, calls)?;
    Ok(ir)
}
