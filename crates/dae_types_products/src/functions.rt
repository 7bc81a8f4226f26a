// The functions of a typed file, from their bodies.

ghost use Rattle.std.specs.Prelude.{◌≡◌, ◌≤◌, Ok, [], ◌∷◌, length, slice_get, MatchOption};
ghost use Rattle.dae_types_plans.specs.Steps.{parameter_types, parameters_from};
ghost use Rattle.dae_types_kinds.specs.Values.{parameters_of, routine_type};
ghost use Rattle.dae_types_rules.specs.Plan.{Gives};
ghost use Rattle.dae_types_tables.specs.Seen.{tables};
ghost use Rattle.dae_types_typed.specs.Reading.{places_of_bodies};
ghost use Rattle.dae_types_typed.specs.Sound.{bytes_or, routine_named};
ghost use Rattle.dae_types_products.specs.Functions.{view_all, view_placed, written_all, written_of};

use crate::frames::{count_variables, frame_size, slots_of};
use crate::products::Body;
use dae_base::{Items, Place, Text};
use dae_types_file_plans::{FileDeclaration, Role};
use dae_types_kinds::{CheckError, Entity, Routine, Shape, parameters_of, routine_type};
use dae_types_tables::Checker;
use dae_types_typed::TypedFunction;
use std::alloc::Global;

/// The text of a name. The names of C are ASCII, so each is one.
fn text_of(alloc: Global, bytes: &[u8]) -> Result<Text, CheckError>
    ensures { Gives (λ t. t) result (Ok bytes.now) }
{
    match std::str::from_utf8(bytes) {
        Ok(text) => Ok(Text::from_str(alloc, text)?),
        Err(_) => Err(CheckError::Unsound),
    }
}

/// The bytes of a name, by its number; past the end of the list, none.
fn bytes_or(names: &[Items<u8>], number: u32) -> &[u8]
    ensures { result.now ≡ bytes_or (slice_get names.now number) }
{
    match names.get(number as usize) {
        Some(bytes) => bytes.as_slice(),
        None => &[],
    }
}

/// The bytes of a function's name; of none, none.
fn name_of(names: &[Items<u8>], routine: Option<Routine>) -> &[u8]
    ensures { result.now ≡ routine_named names.now routine }
{
    match routine {
        Some(routine) => bytes_or(names, routine.name),
        None => &[],
    }
}

/// The number of parameters in a list of at most so many.
fn count_parameters_from(checker: &Checker, depth: usize, shape: Shape) -> usize
    ensures is { result ≡ length (parameters_from depth (tables checker.now) shape) }
    ensures few { result ≤ depth }
{
    if depth == 0 {
        return 0;
    }
    match shape {
        Shape::Parameter(before, _) => {
            count_parameters_from(checker, depth - 1, checker.shape_of(before)) + 1
        }
        _ => 0,
    }
}

/// The number of a function's parameters.
#[tactic(auto, unfolding(dae_types_plans::specs::Steps::parameter_types))]
fn count_parameters(checker: &Checker, function: usize) -> usize
    ensures { result ≡ length (parameter_types (tables checker.now) function) }
{
    let shape = checker.shape_of(routine_type(checker.routine(function)));
    let list = checker.shape_of(parameters_of(shape));
    count_parameters_from(checker, checker.count_shapes(), list)
}

/// A typed function, from its body, with the place of its name.
fn typed_function(
    checker: &Checker,
    names: &[Items<u8>],
    place: Place,
    body: Body,
) -> Result<TypedFunction, CheckError>
    ensures { Gives view_placed result
        (Ok (written_of (tables checker.now) names.now body, place)) }
{
    let routine = body.routine;
    let count = count_parameters(checker, routine);
    let locals = body.locals.as_slice();
    let storages = body.storages.as_slice();
    let name = text_of(checker.alloc, name_of(names, checker.routine(routine)))?;
    let parameters = slots_of(checker, count, locals, storages)?;
    let variables = count_variables(count, storages);
    let frame = frame_size(checker, locals, storages);
    Ok(TypedFunction {
        routine,
        name,
        place,
        parameters: Items::from_vec(parameters),
        variables,
        frame,
        body: Items::from_vec(body.statements),
    })
}

/// The first of these, and the others.
fn next_place(places: &[Place]) -> Option<(Place, &[Place])>
    ensures { MatchOption result (places.now ≡ []) (λ next. places.now ≡ next.0 ∷ next.1.now) }
{
    match places {
        [] => None,
        [first, rest @ ..] => Some((*first, rest)),
    }
}

/// Typed functions, from their bodies, with the places of their names in the same order.
#[tactic(auto, using(crate::proofs::Lists::functions_append, crate::proofs::Lists::places_append, crate::proofs::Lists::all_append))]
pub fn functions_in(
    checker: &Checker,
    names: &[Items<u8>],
    places: &[Place],
    bodies: Vec<Body>,
) -> Result<Vec<TypedFunction>, CheckError>
    ensures { Gives view_all result
        (Ok (written_all (tables checker.now) names.now bodies.items, places.now)) }
{
    let mut functions = Vec::new(checker.alloc);
    let mut rest = places;
    for body in bodies {
        let Some((place, others)) = next_place(rest) else {
            return Err(CheckError::Unsound);
        };
        functions.push(typed_function(checker, names, place, body)?)?;
        rest = others;
    }
    if !rest.is_empty() {
        return Err(CheckError::Unsound);
    }
    Ok(functions)
}

/// Where functions are defined, in the order of the text.
pub fn places_of_bodies(
    alloc: Global,
    declarations: &[FileDeclaration],
) -> Result<Vec<Place>, CheckError>
    ensures { Gives (λ places. places.items) result (Ok (places_of_bodies declarations.now)) }
{
    let mut places = Vec::new(alloc);
    for declaration in declarations {
        if let (Role::Definition, Entity::Function(_)) = (declaration.role, declaration.entity) {
            places.push(declaration.place)?;
        }
    }
    Ok(places)
}
