// Names, constants and literals (C90 6.3.1).

ghost use Rattle.std.specs.Prelude.{◌≡◌, if◌then◌else◌, slice_get};
ghost use Rattle.dae_types_kinds.specs.Types.{int_id, unsigned_id};
ghost use Rattle.dae_types_kinds.specs.Values.{number, literal, local_type, object_at, object_number, object_type, stored_in};
ghost use Rattle.dae_types_plans.specs.Steps.{does, name_at, nothing};
ghost use Rattle.dae_types_tables.specs.Seen.{tables};
ghost use Rattle.dae_types_folding.specs.Views.{MakesValue};
ghost use Rattle.dae_types_values.specs.Results.{GivesValue};

use dae_base::Place;
use dae_program::Expression;
use dae_tree::{Constant, Name};
use dae_types_folding::{TypedValue, boxed};
use dae_types_kinds::{
    Addressing, CHAR_ID, Category, CheckError, Entity, INT_ID, Known, Rule, Shape, Storage,
    UNSIGNED_ID, word_for,
};
use dae_types_tables::{Checker, broken};
use std::alloc::Global;

/// An integer constant.
pub fn constant_number(alloc: Global, constant: Constant) -> Result<TypedValue, CheckError>
    ensures { MakesValue result
        (number constant.value (if constant.unsigned then unsigned_id else int_id)) }
{
    TypedValue::number(
        alloc,
        constant.value,
        if constant.unsigned {
            UNSIGNED_ID
        } else {
            INT_ID
        },
    )
}

/// The object with static storage of a number, of a type.
fn object_at(alloc: Global, number: u32, type_id: usize) -> Result<TypedValue, CheckError>
    ensures { MakesValue result (object_at number type_id) }
{
    Ok(TypedValue {
        tree: boxed(alloc, Expression::Address(number, 0))?,
        type_id,
        category: Category::At(Addressing::Direct),
        known: Known::Address(Some(number), 0),
    })
}

/// A string literal, by its number: an array of its bytes and a zero byte.
pub fn literal(checker: &mut Checker, number: u32) -> Result<TypedValue, CheckError>
    ensures { GivesValue checker.new result (does (λ s x. literal number s) nothing) checker.old }
{
    let size = checker.literal_size(number as usize);
    let type_id = checker.make(Shape::Array(CHAR_ID, Some(size)))?;
    object_at(checker.alloc, number, type_id)
}

/// An object of the file, behind the literals.
fn object(checker: &Checker, number: usize) -> Result<TypedValue, CheckError>
    ensures { MakesValue result
        (object_at (object_number (tables checker.now) number)
        (object_type (slice_get (tables checker.now).objects number))) }
{
    let behind = word_for(checker.count_literals().saturating_add(number));
    match checker.object(number) {
        Some(object) => object_at(checker.alloc, behind, object.type_id),
        None => object_at(checker.alloc, behind, INT_ID),
    }
}

/// What is kept in a variable, or in the frame.
fn stored_in(
    alloc: Global,
    place: Place,
    type_id: usize,
    storage: Option<Storage>,
) -> Result<TypedValue, CheckError>
    ensures { MakesValue result (stored_in place type_id storage) }
{
    match storage {
        Some(Storage::Variable(variable)) => Ok(TypedValue {
            tree: boxed(alloc, Expression::Variable(place, variable))?,
            type_id,
            category: Category::InVariable(variable),
            known: Known::Nothing,
        }),
        Some(Storage::Frame(offset)) => Ok(TypedValue {
            tree: boxed(alloc, Expression::Frame(place, offset))?,
            type_id,
            category: Category::At(Addressing::Direct),
            known: Known::Nothing,
        }),
        None => Ok(TypedValue {
            tree: boxed(alloc, Expression::Frame(place, 0))?,
            type_id,
            category: Category::At(Addressing::Direct),
            known: Known::Nothing,
        }),
    }
}

/// The type of a parameter or local object.
fn local_type(checker: &Checker, number: usize) -> usize
    ensures { result ≡ local_type (slice_get (tables checker.now).locals number) }
{
    match checker.local(number) {
        Some(local) => local.type_id,
        None => INT_ID,
    }
}

/// A use of a name.
#[tactic(auto, unfolding(dae_types_rules::specs::Plan::ask_all))]
pub fn name(checker: &mut Checker, name: Name) -> Result<TypedValue, CheckError>
    ensures { GivesValue checker.new result (name_at name) checker.old }
{
    match checker.found_name(name.number) {
        None => Err(broken(Rule::Undeclared, name.place)),
        Some(Entity::Function(_)) => Err(broken(Rule::FunctionValue, name.place)),
        Some(Entity::Object(number)) => {
            let x = object(checker, number)?;
            checker.add_use(Entity::Object(number), name.place)?;
            Ok(x)
        }
        Some(Entity::Local(number)) => {
            let type_id = local_type(checker, number);
            let storage = checker.storage(number);
            stored_in(checker.alloc, name.place, type_id, storage)
        }
        Some(Entity::Enumerator(word)) => TypedValue::number(checker.alloc, word, INT_ID),
        Some(Entity::Type(_)) => Err(broken(Rule::TypedefMisuse, name.place)),
    }
}
