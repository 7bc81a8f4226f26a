// Lists in braces in an initialiser, and what an object holds when it is filled (C90 6.5.7).

ghost use Rattle.std.specs.Prelude.{◌≡◌, [], ◌∷◌, Ok};
ghost use Rattle.dae_tree.specs.FileViews.{view_initialiser, views_initialisers};
ghost use Rattle.dae_types_kinds.specs.Types.{shape_of};
ghost use Rattle.dae_types_rules.specs.Plan.{Gives, pure};
ghost use Rattle.dae_types_file_plans.specs.Initialisers.{aggregate_at, begun_in, content_at, filled_type, is_literal, is_one, is_one_literal, is_value_for, list_ends, opening_at};
ghost use Rattle.dae_types_file_plans.specs.Statements.{scalar_list_at};
ghost use Rattle.dae_types_folding.specs.Views.{view_value};
ghost use Rattle.dae_types_tables.specs.Seen.{tables, Follows, FollowsBy, LeavesAnd};
ghost use Rattle.dae_types_fills.specs.Slots.{view_rest, view_stack};
ghost use Rattle.dae_types_fills.specs.Fillings.{view_content, view_filling, view_opening};

use crate::filling::{Filling, has_literal};
use crate::printing::literal_in;
use crate::slots::{Unfilled, is_text_array, next_slot, parts_of};
use dae_base::Place;
use dae_program::Setting;
use dae_tree::Initialiser;
use dae_types_folding::TypedValue;
use dae_types_kinds::{CheckError, Rule, Shape};
use dae_types_tables::{Checker, MOST_BYTES, broken, is_scalar, is_structure};
use std::alloc::Global;

/// What a list fills, and what stands behind it, the next part at the end.
#[derive(Drop)]
pub struct Opening {
    pub inside: Filling,
    pub behind: Vec<Unfilled>,
}

/// What a list stands in: what is left behind the list, the next part at the end, and whether no more is said there of
/// what is too many.
#[derive(Drop)]
pub struct Enclosing {
    pub rest: Vec<Unfilled>,
    pub over: bool,
}

/// What an object holds, and its type.
#[derive(Drop)]
pub struct Content {
    pub items: Vec<Setting>,
    pub type_id: usize,
}

/// Whether a list has one initialiser.
#[tactic(auto, using(crate::proofs::Stacks::one_of_length))]
fn is_one(list: &[Initialiser]) -> bool
    ensures { result ≡ is_one (views_initialisers list.now) }
{
    list.len() == 1
}

/// Whether an initialiser is a literal.
fn is_literal(initialiser: &Initialiser) -> bool
    ensures { result ≡ is_literal (view_initialiser initialiser.now) }
{
    match initialiser {
        Initialiser::Value(e) => has_literal(literal_in(e)),
        Initialiser::List(_, _, _) => false,
    }
}

/// Whether a list has one initialiser, which is a literal.
#[tactic(auto, using(crate::proofs::Stacks::first_literal))]
fn is_one_literal(list: &[Initialiser]) -> bool
    ensures { result ≡ is_one_literal (views_initialisers list.now) }
{
    match list.first() {
        Some(initialiser) => is_one(list) && is_literal(initialiser),
        None => false,
    }
}

/// A part alone, as what is to be filled.
fn stack_of(alloc: Global, part: Unfilled) -> Result<Vec<Unfilled>, CheckError>
    ensures { Gives (λ v. view_stack v.items) result (Ok (view_rest part ∷ [])) }
{
    let mut stack = Vec::new(alloc);
    stack.push(part)?;
    Ok(stack)
}

/// Begins a list in braces.
#[tactic(auto, unfolding(dae_types_rules::specs::Plan::ask_all))]
pub fn open_list(
    checker: &Checker,
    place: Place,
    filling: Filling,
    list: &[Initialiser],
) -> Result<Opening, CheckError>
    ensures { FollowsBy view_opening checker.now result
        (opening_at place (view_filling filling) (views_initialisers list.now)) checker.now }
{
    let Some(slot) = next_slot(checker, filling.rest)? else {
        if !filling.over {
            return Err(broken(Rule::TooManyInitialisers, place));
        }
        return Ok(Opening {
            inside: Filling {
                rest: Vec::new(checker.alloc),
                items: filling.items,
                count: filling.count,
                over: true,
            },
            behind: Vec::new(checker.alloc),
        });
    };
    let shape = checker.shape_of(slot.type_id);
    let scalar = is_scalar(shape);
    if scalar && !is_one(list) {
        return Err(broken(Rule::BadInitialiser, place));
    }
    let text = is_text_array(checker, shape) && is_one_literal(list);
    let whole = scalar || text;
    let part = if whole {
        Unfilled::Once(slot.offset, slot.type_id)
    } else {
        parts_of(slot.offset, slot.type_id, shape)
    };
    let rest = stack_of(checker.alloc, part)?;
    Ok(Opening {
        inside: Filling {
            rest,
            items: filling.items,
            count: filling.count,
            over: whole,
        },
        behind: slot.rest,
    })
}

/// How many elements were begun in a part, else so many.
fn begun_of(part: Unfilled, count: u32) -> u32
    ensures { result ≡ begun_in (view_rest part ∷ []) count }
{
    match part {
        Unfilled::Elements(_, _, begun, _) => begun,
        _ => count,
    }
}

/// How many elements were begun in what a list filled, else so many.
#[tactic(auto, using(crate::proofs::Stacks::begun_at_the_bottom))]
fn begun_in(rest: &[Unfilled], count: u32) -> u32
    ensures { result ≡ begun_in (view_stack rest.now) count }
{
    match rest.first() {
        Some(part) => begun_of(*part, count),
        None => count,
    }
}

/// Goes on behind a list in braces, in what it stands in.
pub fn close_list(enclosing: Enclosing, inside: Filling) -> Filling
    ensures { view_filling result
        ≡ list_ends enclosing.over (view_stack enclosing.rest.items) (view_filling inside) }
{
    let count = begun_in(&inside.rest, inside.count);
    Filling {
        rest: enclosing.rest,
        items: inside.items,
        count,
        over: enclosing.over,
    }
}

/// The type of an object with so many elements, where it is an array of unknown size.
fn filled_type(checker: &mut Checker, type_id: usize, count: u32) -> Result<usize, CheckError>
    ensures { LeavesAnd checker.new result
        (filled_type (tables checker.old) type_id count (shape_of (tables checker.old) type_id)) }
{
    match checker.shape_of(type_id) {
        Shape::Array(element, None) => checker.make(Shape::Array(element, Some(count))),
        _ => Ok(type_id),
    }
}

/// What an object of a type, declared at this place, holds when it is filled.
#[tactic(auto, unfolding(dae_types_rules::specs::Plan::ask_all))]
pub fn finish_content(
    checker: &mut Checker,
    place: Place,
    type_id: usize,
    filling: Filling,
) -> Result<Content, CheckError>
    ensures { FollowsBy view_content checker.new result
        (content_at place type_id (pure (view_filling filling))) checker.old }
{
    let type_id = filled_type(checker, type_id, filling.count)?;
    if checker.layout_at(type_id).size > MOST_BYTES {
        return Err(broken(Rule::ObjectTooLarge, place));
    }
    Ok(Content {
        items: filling.items,
        type_id,
    })
}

/// Refuses a list of more than one for a scalar.
#[tactic(auto, unfolding(dae_types_rules::specs::Plan::ask_all))]
pub fn check_scalar_list(
    checker: &Checker,
    place: Place,
    list: &[Initialiser],
) -> Result<(), CheckError>
    ensures { Follows checker.now result
        (scalar_list_at place (views_initialisers list.now)) checker.now }
{
    if is_one(list) {
        return Ok(());
    }
    Err(broken(Rule::BadInitialiser, place))
}

/// Whether an initialiser is a value for a whole aggregate of this type.
pub fn is_value_for(checker: &Checker, type_id: usize, initialiser: &Initialiser) -> bool
    ensures { result
        ≡ is_value_for (tables checker.now) type_id (view_initialiser initialiser.now) }
{
    let shape = checker.shape_of(type_id);
    match initialiser {
        Initialiser::Value(e) => {
            !is_scalar(shape) && !(is_text_array(checker, shape) && has_literal(literal_in(e)))
        }
        Initialiser::List(_, _, _) => false,
    }
}

/// Refuses a value for a whole aggregate of this type.
#[tactic(auto, unfolding(dae_types_rules::specs::Plan::ask_all))]
pub fn refuse_value(
    checker: &Checker,
    place: Place,
    type_id: usize,
    x: &TypedValue,
) -> Result<Filling, CheckError>
    ensures { FollowsBy view_filling checker.now result
        (aggregate_at place type_id (pure (view_value x.now))) checker.now }
{
    let is_value = is_structure(checker.shape_of(x.type_id));
    if is_structure(checker.shape_of(type_id)) && is_value {
        return Err(broken(Rule::StructureValue, place));
    }
    Err(broken(Rule::BadInitialiser, place))
}
