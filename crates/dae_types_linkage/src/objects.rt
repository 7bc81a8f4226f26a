// Objects of a file: declarations, tentative definitions and linkage (C90 6.1.2.2 and 6.7.2).

ghost use Rattle.std.specs.Prelude.{◌≡◌, ◌||◌, not, None, slice_get};
ghost use Rattle.dae_types_file_plans.specs.Files.{declared_object, first_placed, new_object, object_at, type_of_object, with_object_type};
ghost use Rattle.dae_types_rules.specs.Plan.{pure};
ghost use Rattle.dae_types_rules.specs.Table.{clashes_with_object, is_extern, is_initialised, is_same_object, is_static};
ghost use Rattle.dae_types_tables.specs.Seen.{tables, Follows, LeavesAnd};

use crate::blocks::own_entity;
use crate::functions::name_number;
use crate::introductions::Introduction;
use dae_base::Place;
use dae_tree::Keyword;
use dae_types_kinds::{CheckError, Entity, INT_ID, Rule, StaticObject};
use dae_types_tables::{Checker, broken, is_array, is_void};

/// Declares an object, and gives its number. The word is its storage class.
#[tactic(auto, unfolding(dae_types_rules::specs::Plan::ask_all))]
pub fn declare_object(
    checker: &mut Checker,
    word: Option<Keyword>,
    introduction: Introduction,
    type_id: usize,
) -> Result<Option<usize>, CheckError>
    ensures { Follows checker.new result
        (object_at introduction.place word introduction.given introduction.name (pure type_id))
        checker.old }
{
    let place = introduction.place;
    let given = introduction.given;
    let shape = checker.shape_of(type_id);
    if is_void(shape) {
        return Err(broken(Rule::VoidObject, place));
    }
    let found = own_entity(checker, introduction.name);
    if clashes_with_object(checker, type_id, word, found) {
        return Err(broken(Rule::Redeclared, place));
    }
    if given && is_initialised(checker, found) {
        return Err(broken(Rule::Redefined, place));
    }
    if given && !is_array(shape) && !checker.is_complete(type_id) {
        return Err(broken(Rule::Incomplete, place));
    }
    Ok(Some(enter_object(checker, word, introduction, type_id, found)?))
}

/// Whether the word static stands in specifiers.
pub fn is_static(word: Option<Keyword>) -> bool
    ensures { result ≡ is_static word }
{
    match word {
        Some(Keyword::Static) => true,
        _ => false,
    }
}

/// Whether the word extern stands in specifiers.
pub fn is_extern(word: Option<Keyword>) -> bool
    ensures { result ≡ is_extern word }
{
    match word {
        Some(Keyword::Extern) => true,
        _ => false,
    }
}

/// Whether an object may not have a name that stands for this already.
fn clashes_with_object(
    checker: &Checker,
    type_id: usize,
    word: Option<Keyword>,
    found: Option<Entity>,
) -> bool
    ensures { result ≡ clashes_with_object (tables checker.now) type_id word found }
{
    match found {
        None => false,
        Some(Entity::Object(number)) => {
            !is_same_object(checker, type_id, word, checker.object(number))
        }
        Some(_) => true,
    }
}

/// Whether an object may be declared again with this type and word.
fn is_same_object(
    checker: &Checker,
    type_id: usize,
    word: Option<Keyword>,
    object: Option<StaticObject>,
) -> bool
    ensures { result ≡ is_same_object (tables checker.now) type_id word object }
{
    match object {
        Some(object) => {
            checker.same(object.type_id, type_id)
                && (is_extern(word) || is_static(word) == object.own)
        }
        None => false,
    }
}

/// Whether a name stands for an object that is initialised.
fn is_initialised(checker: &Checker, found: Option<Entity>) -> bool
    ensures { result ≡ is_initialised (tables checker.now) found }
{
    match found {
        Some(Entity::Object(number)) => match checker.object(number) {
            Some(object) => object.initialised,
            None => false,
        },
        _ => false,
    }
}

/// Enters an object into the tables, or what a declaration more says of it, and gives its number.
fn enter_object(
    checker: &mut Checker,
    word: Option<Keyword>,
    introduction: Introduction,
    type_id: usize,
    found: Option<Entity>,
) -> Result<usize, CheckError>
    ensures { LeavesAnd checker.new result
        (declared_object introduction.place introduction.name word introduction.given type_id
        found (tables checker.old)) }
{
    let Some(Entity::Object(number)) = found else {
        return add_object(checker, word, introduction, type_id);
    };
    if let Some(object) = checker.object(number) {
        let composite = checker.composite(object.type_id, type_id)?;
        checker.set_object(
            number,
            StaticObject {
                type_id: composite,
                initialised: object.initialised || introduction.given,
                placed: first_placed(object.placed, word, introduction),
                ..object
            },
        );
    }
    Ok(number)
}

/// The first declaration that gives an object room: the one so far, else this one if it does.
fn first_placed(
    so_far: Option<Place>,
    word: Option<Keyword>,
    introduction: Introduction,
) -> Option<Place>
    ensures { result
        ≡ first_placed so_far (introduction.given || not (is_extern word)) introduction.place }
{
    match so_far {
        Some(first) => Some(first),
        None => room_given(word, introduction),
    }
}

/// Where a declaration gives an object room, unless it only refers to it.
fn room_given(word: Option<Keyword>, introduction: Introduction) -> Option<Place>
    ensures { result
        ≡ first_placed None (introduction.given || not (is_extern word)) introduction.place }
{
    if introduction.given || !is_extern(word) {
        Some(introduction.place)
    } else {
        None
    }
}

/// Adds an object, and gives its number.
fn add_object(
    checker: &mut Checker,
    word: Option<Keyword>,
    introduction: Introduction,
    type_id: usize,
) -> Result<usize, CheckError>
    ensures { LeavesAnd checker.new result
        (new_object introduction.place introduction.name word introduction.given type_id
        (tables checker.old)) }
{
    let name = name_number(introduction.name);
    let number = checker.add_object(StaticObject {
        name,
        type_id,
        own: is_static(word),
        initialised: introduction.given,
        placed: room_given(word, introduction),
    })?;
    checker.add_name(name, Entity::Object(number))?;
    Ok(number)
}

/// The type of an object.
pub fn type_of_object(checker: &Checker, number: usize) -> usize
    ensures { result ≡ type_of_object (tables checker.now) number }
{
    match checker.object(number) {
        Some(object) => object.type_id,
        None => INT_ID,
    }
}

/// Gives an object another type: that of an array with the size that it got from its initialiser.
pub fn set_object_type(checker: &mut Checker, number: usize, type_id: usize)
    ensures { tables checker.new
        ≡ with_object_type number type_id (tables checker.old)
        (slice_get (tables checker.old).objects number) }
{
    if let Some(object) = checker.object(number) {
        checker.set_object(number, StaticObject { type_id, ..object });
    }
}
