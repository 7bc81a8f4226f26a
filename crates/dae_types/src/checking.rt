// The check of a whole file.

ghost use Rattle.std.specs.Prelude.{◌≡◌, Ok};
ghost use Rattle.dae_types_rules.specs.Plan.{Gives};
ghost use Rattle.dae_types_tables.specs.Seen.{tables};
ghost use Rattle.dae_types.specs.Answers.{Answers, IsWant, start_in};

use crate::assembling::assemble;
use crate::names::{copy_all, numbers_in};
use dae_tree::File;
use dae_types_externals::file_products;
use dae_types_file_plans::files_are_checked;
use dae_types_kinds::CheckError;
use dae_types_linkage::{begin_file, declare_stdio, declare_stdlib};
use dae_types_sound::is_sound;
use dae_types_tables::Checker;
use dae_types_typed::{FileParts, TypedFile};
use std::alloc::Global;

/// The tables before a file's first token.
fn begin(alloc: Global, file: &File) -> Result<Checker, CheckError>
    ensures { Gives tables result (Ok (start_in file.now)) }
{
    let numbers = numbers_in(file.names());
    let literals = copy_all(alloc, file.literals())?;
    let Ok(mut checker) = begin_file(alloc, literals, numbers.main) else {
        return Err(CheckError::Memory);
    };
    declare_stdio(&mut checker, file, &numbers)?;
    declare_stdlib(&mut checker, file, &numbers)?;
    Ok(checker)
}

/// What the check of a file gives before it is known to be sound.
#[tactic(auto, using(crate::proofs::Refusals::refused, crate::proofs::Refusals::wanted))]
fn check_parts(alloc: Global, file: &File) -> Result<FileParts, CheckError>
    ensures { Answers file.now result }
{
    let mut checker = begin(alloc, file)?;
    files_are_checked();
    let products = file_products(&mut checker, file.externals())?;
    match assemble(checker, products, file.names()) {
        Ok(parts) => Ok(parts),
        Err(error) => Err(want_in(error)),
    }
}

/// What was wanting where a file was put together. No rule is asked there.
fn want_in(error: CheckError) -> CheckError
    ensures { IsWant result }
{
    match error {
        CheckError::Memory => CheckError::Memory,
        CheckError::Unsound | CheckError::Rule(_) => CheckError::Unsound,
    }
}

/// Checks the types of a file (C90 6.1.2, 6.2, 6.3, 6.5, 6.6 and 6.7). A file in which no rule is broken becomes a typed file;
/// in another a rule that is broken is answered, with a place where it is. Both may fail for want of memory; and a file
/// fails for which the test of what a joiner relies on says no.
pub fn check(alloc: Global, file: &File) -> Result<TypedFile, CheckError>
    ensures { Answers file.now result }
{
    let parts = check_parts(alloc, file)?;
    if is_sound(alloc, &parts)? {
        Ok(TypedFile::new(parts))
    } else {
        Err(CheckError::Unsound)
    }
}
