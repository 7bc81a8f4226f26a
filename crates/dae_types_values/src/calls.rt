// Calls and their arguments (C90 6.3.2.2).

ghost use Rattle.std.specs.Prelude.{◌≡◌, Ok, None, length, slice_get};
ghost use Rattle.dae_program.specs.Trees as program;
ghost use Rattle.dae_program.specs.Views.{view};
ghost use Rattle.dae_types_kinds.specs.Types.{shape_of};
ghost use Rattle.dae_types_kinds.specs.Values.{call_tree, called, first_of_list, library_of, listed, parameters_of, result_of, routine_type};
ghost use Rattle.dae_types_rules.specs.Plan.{Gives};
ghost use Rattle.dae_types_rules.specs.Sites.{AtCall};
ghost use Rattle.dae_types_rules.specs.Table.{argument_count, fits_some};
ghost use Rattle.dae_types_plans.specs.Steps.{argument_at, call_at, is_main, parameter_type, parameter_types, parameters_from, passed, routine_in, with_call};
ghost use Rattle.dae_types_tables.specs.Seen.{FollowsBy, Leaves, tables};
ghost use Rattle.dae_types_folding.specs.Views.{MakesTree, MakesValue, view_value};
ghost use Rattle.dae_types_values.specs.Results.{differs_in_number, one, views};

use crate::converting::{convert, fits};
use dae_base::Place;
use dae_program::Expression;
use dae_tree::Name;
use dae_types_folding::{TypedValue, boxed};
use dae_types_kinds::{
    CheckError, Entity, LibraryFunction, Rule, Shape, is_printf, library_of, parameters_of,
    result_of, routine_type, word_for,
};
use dae_types_tables::{Checker, broken, is_structure};
use std::alloc::Global;

/// The function that a name stands for.
pub fn routine_of(checker: &Checker, name: Name) -> Option<usize>
    ensures { result ≡ routine_in (found_name (tables checker.now) name.number) }
{
    match checker.found_name(name.number) {
        Some(Entity::Function(function)) => Some(function),
        _ => None,
    }
}

ghost use Rattle.dae_types_kinds.specs.Tables.{found_name};

/// The types of parameters in their order, from their list of at most so many.
fn parameters_from(checker: &Checker, depth: usize, shape: Shape) -> Result<Vec<usize>, CheckError>
    ensures { Gives (λ ts. ts.items) result
        (Ok (parameters_from depth (tables checker.now) shape)) }
{
    if depth == 0 {
        return Ok(Vec::new(checker.alloc));
    }
    match shape {
        Shape::Parameter(before, type_id) => {
            let shape = checker.shape_of(before);
            let mut types = parameters_from(checker, depth - 1, shape)?;
            types.push(type_id)?;
            Ok(types)
        }
        _ => Ok(Vec::new(checker.alloc)),
    }
}

/// The types of a function's parameters.
#[tactic(auto, unfolding(dae_types_plans::specs::Steps::parameter_types))]
fn parameter_types(checker: &Checker, function: usize) -> Result<Vec<usize>, CheckError>
    ensures { Gives (λ ts. ts.items) result (Ok (parameter_types (tables checker.now) function)) }
{
    let shape = checker.shape_of(routine_type(checker.routine(function)));
    let list = checker.shape_of(parameters_of(shape));
    parameters_from(checker, checker.count_shapes(), list)
}

/// The type of a parameter, where a function is called and has it. The list of types is made for each argument.
fn parameter_type(
    checker: &Checker,
    function: Option<usize>,
    number: usize,
) -> Result<Option<usize>, CheckError>
    ensures { Gives (λ t. t) result (Ok (parameter_type (tables checker.now) function number)) }
{
    match function {
        Some(function) => {
            let types = parameter_types(checker, function)?;
            Ok(types.get(number).copied())
        }
        None => Ok(None),
    }
}

/// Whether a value may be passed to a parameter of a type, if there is one.
fn fits_some(checker: &Checker, x: &TypedValue, type_id: Option<usize>) -> bool
    ensures { result ≡ fits_some (tables checker.now) (view_value x.now) type_id }
{
    match type_id {
        Some(type_id) => fits(checker, x, type_id),
        None => true,
    }
}

/// An argument as it is passed.
fn passed(
    checker: &Checker,
    place: Place,
    x: TypedValue,
    type_id: Option<usize>,
) -> Result<Box<Expression>, CheckError>
    ensures { MakesTree result (passed place (tables checker.now) (view_value x) type_id) }
{
    match type_id {
        Some(type_id) => {
            let x = convert(checker, place, x, type_id)?;
            Ok(x.tree)
        }
        None => Ok(x.tree),
    }
}

/// An argument, by its number, of a function or of what is none, behind those that are done.
#[tactic(auto, unfolding(dae_types_rules::specs::Plan::ask_all))]
pub fn add_argument(
    checker: &Checker,
    place: Place,
    function: Option<usize>,
    number: usize,
    mut done: Vec<Expression>,
    x: TypedValue,
) -> Result<Vec<Expression>, CheckError>
    ensures { FollowsBy views checker.now result
        (argument_at place function number (views done) (one x)) checker.now }
{
    let type_id = parameter_type(checker, function, number)?;
    if !fits_some(checker, &x, type_id) {
        return Err(broken(Rule::BadArgument, place));
    }
    if type_id.is_some() && is_structure(checker.shape_of(x.type_id)) {
        return Err(broken(Rule::StructureValue, place));
    }
    let argument = passed(checker, place, x, type_id)?;
    done.push(Box::into_inner(argument))?;
    Ok(done)
}

/// Whether a name is main.
fn is_main(checker: &Checker, name: u32) -> bool
    ensures { result ≡ is_main (tables checker.now) name }
{
    match checker.main() {
        Some(main) => main == name,
        None => false,
    }
}

/// Notes a call of a function that isn't the library's.
fn note_call(
    checker: &mut Checker,
    function: usize,
    place: Place,
    library: Option<LibraryFunction>,
) -> Result<(), CheckError>
    ensures { Leaves checker.new result (with_call function place library (tables checker.old)) }
{
    match library {
        Some(_) => Ok(()),
        None => checker.add_use(Entity::Function(function), place),
    }
}

/// Whether a function has another number of parameters.
fn differs_in_number(checker: &Checker, function: usize, given: usize) -> Result<bool, CheckError>
    ensures { Gives (λ b. b) result (Ok (differs_in_number (tables checker.now) function given)) }
{
    let types = parameter_types(checker, function)?;
    Ok(given != types.len())
}

/// A call of a function by its name, with so many arguments. Nothing of it is gone through yet.
#[tactic(auto, unfolding(dae_types_rules::specs::Plan::ask_all))]
pub fn begin_call(
    checker: &mut Checker,
    place: Place,
    name: Name,
    function: usize,
    given: usize,
) -> Result<(), CheckError>
    ensures { FollowsBy (λ _. tt {0}) checker.new result
        (call_at place name function given) checker.old }
{
    let library = library_of(checker.routine(function));
    if is_printf(library) {
        return Err(broken(Rule::PrintfPlace, place));
    }
    if is_main(checker, name.number) {
        return Err(broken(Rule::MainCalled, place));
    }
    let differs = differs_in_number(checker, function, given)?;
    if differs {
        return Err(broken(Rule::ArgumentCount, place));
    }
    note_call(checker, function, name.place, library)
}

/// The first of some arguments, or 0.
fn first_of(mut arguments: Vec<Expression>) -> Expression
    ensures { view result ≡ first_of_list (views arguments) }
{
    if arguments.is_empty() {
        Expression::Number(0)
    } else {
        arguments.remove(0)
    }
}

/// A call of a function of the program.
fn routine_call(place: Place, function: u32, arguments: Vec<Expression>) -> Expression
    ensures { view result ≡ program.Call place function (listed (views arguments)) }
{
    Expression::Call(place, function, arguments)
}

/// A call with its arguments.
fn call_tree(
    alloc: Global,
    place: Place,
    function: u32,
    library: Option<LibraryFunction>,
    arguments: Vec<Expression>,
) -> Result<Box<Expression>, CheckError>
    ensures { MakesTree result (call_tree place function library (views arguments)) }
{
    match library {
        Some(LibraryFunction::Putchar) => {
            let argument = boxed(alloc, first_of(arguments))?;
            boxed(alloc, Expression::Putchar(place, argument))
        }
        Some(LibraryFunction::Exit) => {
            let argument = boxed(alloc, first_of(arguments))?;
            boxed(alloc, Expression::Exit(place, argument))
        }
        Some(LibraryFunction::Abort) => boxed(alloc, Expression::Abort(place)),
        Some(LibraryFunction::Printf) => { boxed(alloc, routine_call(place, function, arguments)) }
        None => boxed(alloc, routine_call(place, function, arguments)),
    }
}

/// What a call of a function gives.
pub fn call(
    checker: &Checker,
    place: Place,
    function: usize,
    arguments: Vec<Expression>,
) -> Result<TypedValue, CheckError>
    ensures { MakesValue result (called place (tables checker.now) function (views arguments)) }
{
    let routine = checker.routine(function);
    let type_id = result_of(checker.shape_of(routine_type(routine)));
    let number = word_for(function);
    let tree = call_tree(checker.alloc, place, number, library_of(routine), arguments)?;
    Ok(TypedValue::plain(tree, type_id))
}
