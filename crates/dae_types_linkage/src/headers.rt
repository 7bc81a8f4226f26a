// What is declared before a file's first token: the basic types, and the functions of the headers that it includes
// (C90 7.9.6.3, 7.9.7.9, 7.10.4.1 and 7.10.4.3).

ghost use Rattle.std.specs.Prelude.{◌≡◌, IfOk};
ghost use Rattle.dae_types_file_plans.specs.Files.{empty_tables, with_library, with_stdio, with_stdlib};
ghost use Rattle.dae_types_tables.specs.Seen.{tables, Leaves};
ghost use Rattle.dae_types_linkage.specs.Headers.{with_library_types};
ghost use Rattle.dae_types_linkage.specs.Numbering.{view_numbers};

use dae_base::Items;
use dae_tree::{File, Header};
use dae_types_kinds::{
    CHAR_ID, CheckError, Entity, INT_ID, LibraryFunction, NO_PARAMETERS_ID, Routine, Shape, VOID_ID,
};
use dae_types_tables::Checker;
use std::alloc::Global;

/// int (char *), the type of printf.
const PRINTF_TYPE: usize = 11;
/// int (int), the type of putchar.
const PUTCHAR_TYPE: usize = 13;
/// void (int), the type of exit.
const EXIT_TYPE: usize = 14;
/// void (void), the type of abort.
const ABORT_TYPE: usize = 15;

/// The numbers of the names of the library's functions, where a file has them.
#[derive(Clone, Copy)]
pub struct LibraryNames {
    pub printf: Option<u32>,
    pub putchar: Option<u32>,
    pub exit: Option<u32>,
    pub abort: Option<u32>,
    pub main: Option<u32>,
}

/// Makes the types of the library's functions.
fn make_library_types(checker: &mut Checker) -> Result<(), CheckError>
    ensures { Leaves checker.new result (with_library_types (tables checker.old)) }
{
    let text = checker.make(Shape::Pointer(CHAR_ID))?;
    let list_of_text = checker.make(Shape::Parameter(NO_PARAMETERS_ID, text))?;
    checker.make(Shape::Function(INT_ID, list_of_text))?;
    let list_of_int = checker.make(Shape::Parameter(NO_PARAMETERS_ID, INT_ID))?;
    checker.make(Shape::Function(INT_ID, list_of_int))?;
    checker.make(Shape::Function(VOID_ID, list_of_int))?;
    checker.make(Shape::Function(VOID_ID, NO_PARAMETERS_ID))?;
    Ok(())
}

/// The tables of a file with these literals, in which the name main has this number, before anything is declared.
pub fn begin_file(
    alloc: Global,
    literals: Items<Items<u8>>,
    main: Option<u32>,
) -> Result<Checker, CheckError>
    ensures { IfOk result (λ c. tables c ≡ empty_tables literals main) }
{
    let mut checker = Checker::new(alloc, literals, main)?;
    make_library_types(&mut checker)?;
    Ok(checker)
}

/// Declares a function of the library, where the file has its name.
fn declare_library(
    checker: &mut Checker,
    function: LibraryFunction,
    type_id: usize,
    name: Option<u32>,
) -> Result<(), CheckError>
    ensures { Leaves checker.new result (with_library function type_id name (tables checker.old)) }
{
    let Some(name) = name else {
        return Ok(());
    };
    let number = checker.add_routine(Routine {
        name,
        type_id,
        own: false,
        defined: false,
        library: Some(function),
    })?;
    checker.add_name(name, Entity::Function(number))
}

/// Declares the functions of `<stdio.h>`, where the file includes it.
pub fn declare_stdio(
    checker: &mut Checker,
    file: &File,
    numbers: &LibraryNames,
) -> Result<(), CheckError>
    ensures { Leaves checker.new result
        (with_stdio file.now.stdio (view_numbers numbers.now) (tables checker.old)) }
{
    if !file.includes(Header::Stdio) {
        return Ok(());
    }
    declare_library(
        checker,
        LibraryFunction::Printf,
        PRINTF_TYPE,
        numbers.printf,
    )?;
    declare_library(
        checker,
        LibraryFunction::Putchar,
        PUTCHAR_TYPE,
        numbers.putchar,
    )
}

/// Declares the functions of `<stdlib.h>`, where the file includes it.
pub fn declare_stdlib(
    checker: &mut Checker,
    file: &File,
    numbers: &LibraryNames,
) -> Result<(), CheckError>
    ensures { Leaves checker.new result
        (with_stdlib file.now.stdlib (view_numbers numbers.now) (tables checker.old)) }
{
    if !file.includes(Header::Stdlib) {
        return Ok(());
    }
    declare_library(checker, LibraryFunction::Exit, EXIT_TYPE, numbers.exit)?;
    declare_library(checker, LibraryFunction::Abort, ABORT_TYPE, numbers.abort)
}
