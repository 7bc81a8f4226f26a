// Initialisers of objects that are filled with constants (C90 6.5.7).

ghost use Rattle.std.specs.Prelude.{[], ◌∷◌, Ok};
ghost use Rattle.dae_tree.specs.Depth.{place_of};
ghost use Rattle.dae_tree.specs.Trees.{Value};
ghost use Rattle.dae_tree.specs.Views.{view};
ghost use Rattle.dae_tree.specs.FileViews.{view_initialiser, views_initialisers};
ghost use Rattle.dae_types_rules.specs.Plan.{Gives};
ghost use Rattle.dae_types_plans.specs.Expressions.{plan_value};
ghost use Rattle.dae_types_file_plans.specs.Initialisers.{Once, aggregate_at, empty_filling, plan_content, plan_initialiser, plan_initialisers};
ghost use Rattle.dae_types_tables.specs.Seen.{Follows, FollowsBy};
ghost use Rattle.dae_types_fills.specs.Fillings.{view_content, view_filling};
ghost use Rattle.dae_types_locals.specs.Plans.{looked_through, plan_list, plan_whole};

use dae_base::Place;
use dae_tree::{Expression, Initialiser};
use dae_types_fills::{
    Content, Enclosing, Filling, Unfilled, close_list, fill_item, finish_content, is_value_for,
    land, literal_in, open_list, refuse_value,
};
use dae_types_kinds::CheckError;
use dae_types_tables::Checker;
use dae_types_walk::operand;
use std::alloc::Global;

/// Goes through an initialiser of what is still to be filled.
#[cycle(fill)]
fn fill(checker: &mut Checker, filling: Filling, one: &Initialiser) -> Result<Filling, CheckError>
    ensures { FollowsBy view_filling checker.new result
        (plan_initialiser (view_filling filling) (view_initialiser one.now)) checker.old }
{
    match one {
        Initialiser::Value(e) => fill_value(checker, filling, e),
        Initialiser::List(place, inner, _) => fill_list(checker, *place, filling, inner),
    }
}

/// Goes through a list in braces, which fills the next object alone.
#[cycle(fill)]
fn fill_list(
    checker: &mut Checker,
    place: Place,
    filling: Filling,
    inner: &[Initialiser],
) -> Result<Filling, CheckError>
    ensures { FollowsBy view_filling checker.new result
        (plan_list place (view_filling filling) (views_initialisers inner.now)) checker.old }
{
    let over = filling.over;
    let opening = open_list(checker, place, filling, inner)?;
    let enclosing = Enclosing {
        rest: opening.behind,
        over,
    };
    let inside = fill_all(checker, opening.inside, inner)?;
    Ok(close_list(enclosing, inside))
}

/// Goes through initialisers in their order.
#[cycle(fill)]
fn fill_all(
    checker: &mut Checker,
    mut filling: Filling,
    all: &[Initialiser],
) -> Result<Filling, CheckError>
    ensures { FollowsBy view_filling checker.new result
        (plan_initialisers (view_filling filling) (views_initialisers all.now)) checker.old }
{
    for one in all {
        filling = fill(checker, filling, one)?;
    }
    Ok(filling)
}

/// Goes through an expression as an item: its value says where it lands.
fn fill_value(
    checker: &mut Checker,
    filling: Filling,
    e: &Expression,
) -> Result<Filling, CheckError>
    ensures { FollowsBy view_filling checker.new result
        (plan_initialiser (view_filling filling) (Value (view e.now))) checker.old }
{
    let x = operand(checker, e)?;
    let landing = land(checker, e.place(), literal_in(e), filling, &x)?;
    fill_item(checker, e.place(), literal_in(e), &x, landing)
}

/// Nothing of an object of a type, which stands at an offset, is filled yet.
fn begin_object(alloc: Global, offset: u32, type_id: usize) -> Result<Filling, CheckError>
    ensures { Gives view_filling result (Ok (empty_filling (Once offset type_id ∷ []))) }
{
    let mut rest = Vec::new(alloc);
    rest.push(Unfilled::Once(offset, type_id))?;
    Ok(Filling {
        rest,
        items: Vec::new(alloc),
        count: 0,
        over: false,
    })
}

/// Goes through an expression as the value of a whole aggregate of a type, which it can't be.
fn refuse_whole(
    checker: &mut Checker,
    type_id: usize,
    e: &Expression,
) -> Result<Filling, CheckError>
    ensures { FollowsBy view_filling checker.new result
        (aggregate_at (place_of (view e.now)) type_id (plan_value (view e.now))) checker.old }
{
    let x = operand(checker, e)?;
    refuse_value(checker, e.place(), type_id, &x)
}

/// Goes through an expression as the first item of an object of a type at an offset.
fn fill_object(
    checker: &mut Checker,
    offset: u32,
    type_id: usize,
    e: &Expression,
) -> Result<Filling, CheckError>
    ensures { FollowsBy view_filling checker.new result
        (plan_initialiser (empty_filling (Once offset type_id ∷ [])) (Value (view e.now)))
        checker.old }
{
    let filling = begin_object(checker.alloc, offset, type_id)?;
    fill_value(checker, filling, e)
}

/// Goes through the whole initialiser of an object of a type at an offset.
fn fill_whole(
    checker: &mut Checker,
    offset: u32,
    type_id: usize,
    one: &Initialiser,
) -> Result<Filling, CheckError>
    ensures { FollowsBy view_filling checker.new result
        (plan_whole offset type_id (view_initialiser one.now)) checker.old }
{
    match one {
        Initialiser::Value(e) => {
            if is_value_for(checker, type_id, one) {
                refuse_whole(checker, type_id, e)
            } else {
                fill_object(checker, offset, type_id, e)
            }
        }
        Initialiser::List(place, inner, _) => {
            let filling = begin_object(checker.alloc, offset, type_id)?;
            fill_list(checker, *place, filling, inner)
        }
    }
}

/// What an object of a type, which is declared at this place, holds by its initialiser: constants, at offsets in bytes from where
/// the object stands, which is at this offset, and the type with the size that an array of unknown size gets. An error is a rule
/// that is broken, or want of memory.
pub fn content(
    checker: &mut Checker,
    place: Place,
    offset: u32,
    type_id: usize,
    initialiser: &Initialiser,
) -> Result<Content, CheckError>
    ensures { FollowsBy view_content checker.new result
        (plan_content place offset type_id (view_initialiser initialiser.now)) checker.old }
{
    let filling = fill_whole(checker, offset, type_id, initialiser)?;
    finish_content(checker, place, type_id, filling)
}

/// Looks through the initialiser of what is no object: what it names must be declared. An error is a rule that is broken, or want
/// of memory.
pub fn look_through(checker: &mut Checker, initialiser: &Initialiser) -> Result<(), CheckError>
    ensures { Follows checker.new result
        (looked_through (view_initialiser initialiser.now)) checker.old }
{
    let nothing = Filling {
        rest: Vec::new(checker.alloc),
        items: Vec::new(checker.alloc),
        count: 0,
        over: true,
    };
    fill(checker, nothing, initialiser)?;
    Ok(())
}
