// The image of a typed program, and its report.

ghost use Rattle.std.specs.Prelude.{◌≡◌, ◌<◌, ◌≤◌, ◌%◌, ◌^◌, length, IfErr, IfOk, IsTrue};
ghost use Rattle.std.specs.List.{All, AllByRecursion, list_all};
ghost use Rattle.dae_image.specs.Contents.{is_name};
ghost use Rattle.dae_ir_pair.specs.Budget.{IsWithinCap};
ghost use Rattle.dae_compile_promise.specs.Promises.{KeepsMeaning};
ghost use Rattle.dae_link.specs.declared.error.CodeError.TheVariants as errors;
ghost use Rattle.dae_ir.specs.Scope.{IsScoped};
ghost use Rattle.dae_ir.specs.SetFirst.{IsFunctionSetFirst};
ghost use Rattle.dae_lower_programs.specs.Functions.{HaveNumbers};
ghost use Rattle.dae_lower_programs.specs.Lowered.{HasRoom};
ghost use Rattle.dae_compile.specs.Compiled.{AreCompiledFrom, HasFewVariables, HasTooMuchPrivate, HasTooMuchCode, IsFinalForm};

use crate::passing::{reuse_loads, with_sums_at_accesses, without_commons, without_known_checks};
use crate::{Compiled, generate};
use dae_alias::{forms_are_reused, reuse_stays_small};
use dae_base::{Items, Text};
use dae_commons::{commoning_keeps_counts, forms_are_commoned};
use dae_compile_promise::image_keeps_meaning;
use dae_elide::{checks_are_elided, elision_keeps_sizes};
use dae_hoist::{forms_are_hoisted, hoisting_keeps_sizes};
use dae_ir::Ir;
use dae_link::CodeError;
use dae_lower_programs::lower;
use dae_program::Program;
use dae_threads::{forms_are_threaded, thread_conditions, threading_adds_nothing};
use dae_webs::{forms_are_renamed, rename_webs, renaming_keeps_sizes};
use std::alloc::{AllocError, Global};

// A byte is below 256.
fn see_bytes(bytes: &[u8])
    ensures { All (λ b. b < 256) bytes.now }
{}

/// A final form of a program, with at most so many calls inside one another: the lowered form with its variables renamed by webs,
/// then with what doesn't change in loops before them and without its common subexpressions, then without the checks that are known to
/// pass, then with sums computed where they are accessed, then with its conditions threaded and checks of sums before the sums, and
/// then with its loads reused. It is well made, sets each variable before it reads it, and has room in its memory. An error is want of
/// memory.
fn final_form(alloc: Global, program: &Program, calls: u16) -> Result<Ir, AllocError>
    requires functions { length program.now.functions < 2 ^ 32 }
    requires numbers { HaveNumbers program.now program.now.functions }
    requires variables { HasFewVariables program.now }
    ensures made { IfOk result (IsFinalForm program.now calls) }
    ensures scoped { IfOk result IsScoped }
    ensures first { IfOk result (λ ir. AllByRecursion IsFunctionSetFirst ir.functions) }
    ensures room { IfOk result (HasRoom program.now) }
{
    forms_are_renamed();
    renaming_keeps_sizes();
    forms_are_hoisted();
    hoisting_keeps_sizes();
    forms_are_commoned();
    commoning_keeps_counts();
    checks_are_elided();
    elision_keeps_sizes();
    forms_are_threaded();
    threading_adds_nothing();
    forms_are_reused();
    reuse_stays_small();
    let lowered = lower(alloc, program, calls)?;
    let renamed = rename_webs(alloc, lowered)?;
    let common = without_commons(alloc, renamed)?;
    let bare = without_known_checks(alloc, common)?;
    let near = with_sums_at_accesses(alloc, bare)?;
    let threaded = thread_conditions(alloc, near)?;
    let ir = reuse_loads(alloc, threaded)?;
    Ok(ir)
}

/// The image of a program and the report of its form, with at most so many calls inside one another, where a group holds at most `cap` loads
/// for E and as many copies, from 1 to 64; the names are those of its files. In every order of steps it does what
/// the program means. Words must number its functions, and the variables of each.
///
/// # Errors
///
/// `Memory` where memory is wanting; `Code` and `Private` where a code or a private memory is larger than an image
/// may have.
pub fn compile_program(
    alloc: Global,
    program: Program,
    calls: u16,
    cap: u8,
    names: Items<Text>,
) -> Result<Compiled, CodeError>
    requires functions { length program.functions < 2 ^ 32 }
    requires numbers { HaveNumbers program program.functions }
    requires variables { HasFewVariables program }
    requires least { 64 ≤ program.memory }
    requires aligned { program.memory % 16 ≡ 0 }
    requires called { 1 ≤ calls }
    requires shallow { calls ≤ 4096 }
    requires some { 1 ≤ cap }
    requires few { cap ≤ 64 }
    requires files { length names ≤ 1024 }
    requires named { IsTrue (list_all is_name names) }
    ensures keeps { IfOk result (λ c. KeepsMeaning program calls c.image) }
    ensures compiled { IfOk result (AreCompiledFrom program calls cap) }
    ensures budget { IfOk result (λ c. IsWithinCap cap c.image.budget) }
    ensures names { IfOk result (λ c. c.image.names ≡ names) }
    ensures long { IfErr result (λ e. e ≡ errors.Code → HasTooMuchCode program calls) }
    ensures deep { IfErr result (λ e. e ≡ errors.Private → HasTooMuchPrivate program calls) }
{
    image_keeps_meaning();
    let ir = final_form(alloc, &program, calls)?;
    let Program { content, .. } = program;
    see_bytes(content.as_slice());
    generate(alloc, &ir, cap, content, names)
}
