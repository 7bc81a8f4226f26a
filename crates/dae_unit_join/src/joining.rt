// Joining files to a program.

ghost use Rattle.std.specs.Prelude.{◌≤◌, ◌<◌, ◌^◌, length, IfOk, IfErr};
ghost use Rattle.std.specs.List.{All, AllByRecursion};
ghost use Rattle.dae_types_typed.specs.Sound.{IsSound};
ghost use Rattle.dae_unit.specs.Meanings.{bodies_of};
ghost use Rattle.dae_unit_join.specs.Joined.{IsRefused};
ghost use Rattle.dae_unit_join.specs.Promise.{HaveParameters, IsJoinedTo};

use crate::joined_have_parameters;
use crate::parts::join_parts;
use dae_program::Program;
use dae_types_typed::TypedFile;
use dae_unit::JoinError;
use std::alloc::Global;

// No file has a broken rule.
fn see_sound(files: &[TypedFile])
    ensures { All IsSound files.now }
{
    for file in files {
        file.parts();
    }
}

/// The program that files come to in a memory of so many bytes, at most 2^26, or the first cause why they don't join. The
/// files are given up. Where they join, each function of theirs has the parameters of its type. Words number the files and their
/// functions.
pub fn join(alloc: Global, files: Vec<TypedFile>, memory: u32) -> Result<Program, JoinError>
    requires memory { memory ≤ 2 ^ 26 }
    requires files { length files.items < 2 ^ 32 }
    requires functions { length (bodies_of files.items) < 2 ^ 32 }
    ensures ok { IfOk result (IsJoinedTo files.items memory) }
    ensures parameters { IfOk result (λ program. AllByRecursion HaveParameters files.items) }
    ensures err { IfErr result (IsRefused files.items memory) }
{
    joined_have_parameters();
    see_sound(files.as_slice());
    let parts = join_parts(alloc, files, memory)?;
    Ok(Program {
        memory,
        content: parts.content,
        frames: parts.frames,
        links: parts.links,
        functions: parts.functions,
        main: parts.main,
    })
}
