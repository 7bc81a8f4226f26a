// The image of several texts, and its report.

ghost use Rattle.std.specs.Prelude.{◌≡◌, ◌≤◌, length, IfErr, IfOk, IsTrue};
ghost use Rattle.std.specs.List.{All, list_all};
ghost use Rattle.dae_image.specs.Contents.{is_name};
ghost use Rattle.dae_accept.specs.Read.{IsShort, texts_in};
ghost use Rattle.dae_accept.specs.Accepted.{IsRefusedFor};
ghost use Rattle.dae_compile.specs.Images.{IsCompilationOf};

use crate::Compiled;
use crate::programs::compile_program;
use dae_accept::{CompileError, accept, read_are_within};
use dae_base::{Items, Text};
use dae_cli_options::Options;
use dae_compile_promise::later_forms_do_programs;
use dae_link::CodeError;
use dae_lower_bounds::sets_bounded;
use dae_lower_formed::{forms_name, variables_within};
use dae_sizes::{
    definitions_are_short, forms_are_within, frames_are_within, functions_are_counted,
    functions_are_within, functions_initialise_constants, functions_test_values,
};
use std::alloc::Global;

/// The image of texts, which are those of the files with these names, and the report of its form: at most 1,024 texts, each
/// of at most 1,048,576 bytes. The image is small beside them, and names the files.
///
/// # Errors
///
/// `Memory` where memory is wanting. Every other error comes where the texts aren't accepted, and says why, as
/// `accept` of `dae_accept` does. No accepted texts have a code or a private memory that an image can't have.
pub fn compile(
    alloc: Global,
    texts: &[Vec<u8>],
    names: Items<Text>,
    options: Options,
) -> Result<Compiled, CompileError>
    requires few { length texts.now ≤ 1024 }
    requires short { All IsShort texts.now }
    requires each { length names ≡ length texts.now }
    requires named { IsTrue (list_all is_name names) }
    ensures compiled { IfOk result (IsCompilationOf (texts_in texts.now) names options) }
    ensures refused { IfErr result (IsRefusedFor (texts_in texts.now) options.memory) }
{
    read_are_within();
    definitions_are_short();
    forms_are_within();
    frames_are_within();
    functions_are_counted();
    functions_are_within();
    forms_name();
    variables_within();
    functions_initialise_constants();
    functions_test_values();
    sets_bounded();
    later_forms_do_programs();
    let program = accept(alloc, texts, options.memory)?;
    match compile_program(alloc, program, options.calls, options.cap, names) {
        Ok(compiled) => Ok(compiled),
        Err(CodeError::Memory) => Err(CompileError::Memory),
        Err(CodeError::Code) => unreachable!(),
        Err(CodeError::Private) => unreachable!(),
    }
}
