// Functions of a file: their declarations, and what a definition asks (C90 6.7.1, 5.1.2.2.1 and 6.1.2.2).

ghost use Rattle.std.specs.Prelude.{◌≡◌};
ghost use Rattle.dae_types_file_plans.specs.Files.{declared_function, function_at, is_main_name, name_number, new_routine, retyped, routine_by, second_at};
ghost use Rattle.dae_types_kinds.specs.Values.{parameters_of, result_of};
ghost use Rattle.dae_types_rules.specs.Plan.{pure};
ghost use Rattle.dae_types_rules.specs.Table.{clashes_with_function, is_again, is_defined, is_empty_list, is_int, is_main_type, is_static};
ghost use Rattle.dae_types_tables.specs.Seen.{tables, Follows, LeavesAnd};

use crate::blocks::own_entity;
use crate::introductions::Introduction;
use crate::objects::is_static;
use dae_base::Place;
use dae_tree::{Keyword, Name};
use dae_types_kinds::{
    CheckError, Entity, Routine, Rule, Shape, is_printf, parameters_of, result_of,
};
use dae_types_tables::{Checker, broken};

/// Declares a function, and gives its number. The word is its storage class.
#[tactic(auto, unfolding(dae_types_rules::specs::Plan::ask_all))]
pub fn declare_function(
    checker: &mut Checker,
    word: Option<Keyword>,
    introduction: Introduction,
    type_id: usize,
) -> Result<Option<usize>, CheckError>
    ensures { Follows checker.new result
        (function_at introduction.place (is_static word) introduction.given introduction.name
        (pure type_id)) checker.old }
{
    let place = introduction.place;
    let name = introduction.name;
    if is_main_name(checker, name) && !is_main_type(checker, type_id) {
        return Err(broken(Rule::BadMain, place));
    }
    let found = own_entity(checker, name);
    if clashes_with_function(checker, type_id, word, found) {
        return Err(broken(Rule::Redeclared, place));
    }
    if introduction.given {
        return Err(broken(Rule::BadInitialiser, place));
    }
    Ok(Some(enter_function(checker, name, word, type_id, found)?))
}

/// Whether a name is main.
pub fn is_main_name(checker: &Checker, name: Option<Name>) -> bool
    ensures { result ≡ is_main_name (tables checker.now) name }
{
    match (name, checker.main()) {
        (Some(name), Some(main)) => main == name.number,
        _ => false,
    }
}

/// Whether a type is that of main: int, without parameters.
fn is_main_type(checker: &Checker, type_id: usize) -> bool
    ensures { result ≡ is_main_type (tables checker.now) type_id }
{
    let shape = checker.shape_of(type_id);
    is_int(checker.shape_of(result_of(shape)))
        && is_empty_list(checker.shape_of(parameters_of(shape)))
}

/// Whether a type is int.
fn is_int(shape: Shape) -> bool
    ensures { result ≡ is_int shape }
{
    match shape {
        Shape::Int => true,
        _ => false,
    }
}

/// Whether a list of parameters has none.
fn is_empty_list(shape: Shape) -> bool
    ensures { result ≡ is_empty_list shape }
{
    match shape {
        Shape::NoParameters => true,
        _ => false,
    }
}

/// Whether a function may not have a name that stands for this already.
fn clashes_with_function(
    checker: &Checker,
    type_id: usize,
    word: Option<Keyword>,
    found: Option<Entity>,
) -> bool
    ensures { result
        ≡ clashes_with_function (tables checker.now) type_id (is_static word) found }
{
    match found {
        None => false,
        Some(Entity::Function(number)) => {
            !is_again(checker, type_id, word, checker.routine(number))
        }
        Some(_) => true,
    }
}

/// Whether a function may be declared again with this type and word.
fn is_again(
    checker: &Checker,
    type_id: usize,
    word: Option<Keyword>,
    routine: Option<Routine>,
) -> bool
    ensures { result ≡ is_again (tables checker.now) type_id (is_static word) routine }
{
    match routine {
        Some(routine) => {
            checker.same(routine.type_id, type_id)
                && (!is_static(word) || routine.own)
                && !is_printf(routine.library)
        }
        None => false,
    }
}

/// Enters a function into the tables, or the composite of its types, and gives its number.
fn enter_function(
    checker: &mut Checker,
    name: Option<Name>,
    word: Option<Keyword>,
    type_id: usize,
    found: Option<Entity>,
) -> Result<usize, CheckError>
    ensures { LeavesAnd checker.new result
        (declared_function name (is_static word) type_id found (tables checker.old)) }
{
    let Some(Entity::Function(number)) = found else {
        return add_function(checker, name, word, type_id);
    };
    if let Some(routine) = checker.routine(number) {
        let composite = checker.composite(routine.type_id, type_id)?;
        checker.set_routine(
            number,
            Routine {
                type_id: composite,
                ..routine
            },
        );
    }
    Ok(number)
}

/// Adds a function, and gives its number.
fn add_function(
    checker: &mut Checker,
    name: Option<Name>,
    word: Option<Keyword>,
    type_id: usize,
) -> Result<usize, CheckError>
    ensures { LeavesAnd checker.new result
        (new_routine name (is_static word) type_id (tables checker.old)) }
{
    let name = name_number(name);
    let number = checker.add_routine(Routine {
        name,
        type_id,
        own: is_static(word),
        defined: false,
        library: None,
    })?;
    checker.add_name(name, Entity::Function(number))?;
    Ok(number)
}

/// The number of a name, or 0 where there is none.
pub fn name_number(name: Option<Name>) -> u32
    ensures { result ≡ name_number name }
{
    match name {
        Some(name) => name.number,
        None => 0,
    }
}

/// Notes that a function has a body.
#[tactic(auto, unfolding(dae_types_rules::specs::Plan::ask_all))]
pub fn define_function(
    checker: &mut Checker,
    place: Place,
    function: Option<usize>,
) -> Result<Option<usize>, CheckError>
    ensures { Follows checker.new result (second_at place (pure function)) checker.old }
{
    if is_defined(routine_by(checker, function)) {
        return Err(broken(Rule::Redefined, place));
    }
    if let Some(number) = function {
        if let Some(routine) = checker.routine(number) {
            checker.set_routine(
                number,
                Routine {
                    defined: true,
                    ..routine
                },
            );
        }
    }
    Ok(function)
}

/// The function of a number, where there is one.
fn routine_by(checker: &Checker, number: Option<usize>) -> Option<Routine>
    ensures { result ≡ routine_by (tables checker.now) number }
{
    match number {
        Some(number) => checker.routine(number),
        None => None,
    }
}

/// Whether a function has a body, or is the library's.
fn is_defined(routine: Option<Routine>) -> bool
    ensures { result ≡ is_defined routine }
{
    match routine {
        Some(routine) => routine.defined || routine.library.is_some(),
        None => false,
    }
}
