// The program of several texts.

ghost use Rattle.std.specs.Prelude.{◌≤◌, ◌^◌, length, IfErr, IfOk};
ghost use Rattle.std.specs.List.{All};
ghost use Rattle.dae_tree.specs.Files.{IsFile};
ghost use Rattle.dae_accept.specs.Read.{IsShort, texts_in};
ghost use Rattle.dae_accept.specs.Accepted.{IsAccepted, IsRefusedFor};
ghost use Rattle.dae_accept.specs.Checked.{Checks};
ghost use Rattle.dae_accept.specs.Origins.{IsOfFiles};

use crate::error::CompileError;
use crate::{read_are_within, read_files};
use dae_program::Program;
use dae_sizes::functions_are_counted;
use dae_tree::File;
use dae_types::check;
use dae_types_kinds::CheckError;
use dae_types_typed::TypedFile;
use dae_unit_join::join;
use std::alloc::Global;

// Each file is one of the grammar.
fn see_files(files: &[File])
    ensures { All IsFile files.now }
{
    for file in files {
        file.externals();
    }
}

/// What the files are after a check of each, in order; or a rule that is broken in the first file that breaks one.
fn check_files(alloc: Global, files: &[File]) -> Result<Vec<TypedFile>, CheckError>
    ensures { Checks result files.now }
{
    let mut all = Vec::new(alloc);
    for file in files {
        let typed = check(alloc, file)?;
        all.push(typed)?;
    }
    Ok(all)
}

/// The program of texts in a memory of so many bytes, at most 2^26: at most 1,024 texts, each of at most 1,048,576
/// bytes.
///
/// # Errors
///
/// The first stage that fails, of all tokens, all trees, all types, and joining, says why: `Lex` for the first text
/// that has no tokens in the room that is left (C90 5.1.1.2, 6.1, 6.8), `Tree` for the first whose tokens have no
/// tree within the limits (6.3 to 6.7), `Rule` for a rule of types that the first file with a broken one breaks
/// (6.1.2, 6.2, 6.3, 6.5, 6.6, 6.7), and `Join` for the first cause why the files don't join (5.1.1.1, 6.1.2.2,
/// 6.7). `Memory` is free.
pub fn accept(alloc: Global, texts: &[Vec<u8>], memory: u32) -> Result<Program, CompileError>
    requires few { length texts.now ≤ 1024 }
    requires short { All IsShort texts.now }
    requires memory { memory ≤ 2 ^ 26 }
    ensures accepted { IfOk result (IsAccepted (texts_in texts.now) memory) }
    ensures files { IfOk result (IsOfFiles (texts_in texts.now)) }
    ensures refused { IfErr result (IsRefusedFor (texts_in texts.now) memory) }
{
    read_are_within();
    functions_are_counted();
    let files = read_files(alloc, texts)?;
    see_files(files.as_slice());
    let typed = check_files(alloc, files.as_slice())?;
    let program = join(alloc, typed, memory)?;
    Ok(program)
}
