// Local objects at their declarations, with their initialisers (C90 6.5.7).

ghost use Rattle.dae_tree.specs.Trees.{Value};
ghost use Rattle.dae_tree.specs.Views.{view};
ghost use Rattle.dae_tree.specs.FileViews.{view_initialiser, view_value, views_initialisers};
ghost use Rattle.dae_types_file_plans.specs.Statements.{plan_local, plan_scalar};
ghost use Rattle.dae_types_bodies.specs.Written.{GivesStatements};
ghost use Rattle.dae_types_locals.specs.Plans.{plan_initialised, plan_scalar_list};

use crate::initialisers::{content, look_through};
use dae_base::Place;
use dae_program::Statement;
use dae_tree::{Expression, Initialiser};
use dae_types_bodies::{
    begin_local, initialise_aggregate, initialise_scalar, offset_of_local, type_of_local,
};
use dae_types_fills::check_scalar_list;
use dae_types_kinds::CheckError;
use dae_types_tables::{Checker, is_scalar};
use dae_types_walk::operand;

/// Sets a local scalar by its initialiser, an expression perhaps in braces. The place is that of its name.
#[cycle(scalar)]
fn set_scalar(
    checker: &mut Checker,
    place: Place,
    number: usize,
    initialiser: &Initialiser,
) -> Result<Vec<Statement>, CheckError>
    ensures { GivesStatements checker.new result
        (plan_scalar place number (view_initialiser initialiser.now)) checker.old }
{
    match initialiser {
        Initialiser::Value(e) => set_value(checker, place, number, e),
        Initialiser::List(brace, list, _) => set_first(checker, place, number, *brace, list),
    }
}

/// Sets a local scalar by a list of one initialiser.
#[cycle(scalar)]
fn set_first(
    checker: &mut Checker,
    place: Place,
    number: usize,
    brace: Place,
    list: &[Initialiser],
) -> Result<Vec<Statement>, CheckError>
    ensures { GivesStatements checker.new result
        (plan_scalar_list place number brace (views_initialisers list.now)) checker.old }
{
    check_scalar_list(checker, brace, list)?;
    match list {
        [first, ..] => set_scalar(checker, place, number, first),
        [] => Ok(Vec::new(checker.alloc)),
    }
}

/// Sets a local scalar to the value of an expression.
fn set_value(
    checker: &mut Checker,
    place: Place,
    number: usize,
    e: &Expression,
) -> Result<Vec<Statement>, CheckError>
    ensures { GivesStatements checker.new result
        (plan_scalar place number (Value (view e.now))) checker.old }
{
    let x = operand(checker, e)?;
    initialise_scalar(checker, place, e.place(), number, x)
}

/// Initialises a local object, whose name stands at this place.
fn initialise(
    checker: &mut Checker,
    place: Place,
    number: usize,
    initialiser: &Initialiser,
) -> Result<Vec<Statement>, CheckError>
    ensures { GivesStatements checker.new result
        (plan_initialised place number (view_initialiser initialiser.now)) checker.old }
{
    let type_id = type_of_local(checker, number);
    if is_scalar(checker.shape_of(type_id)) {
        set_scalar(checker, place, number, initialiser)
    } else {
        let offset = offset_of_local(checker, number);
        let content = content(checker, place, offset, type_id, initialiser)?;
        initialise_aggregate(checker, place, number, content)
    }
}

/// Begins a local object with its initialiser or without, or looks through the initialiser of what is none.
pub fn begin(
    checker: &mut Checker,
    place: Place,
    given: &Option<(Place, Initialiser)>,
    number: Option<usize>,
) -> Result<Vec<Statement>, CheckError>
    ensures { GivesStatements checker.new result
        (plan_local place (view_value given.now) number) checker.old }
{
    match given {
        Some((_, initialiser)) => match number {
            Some(number) => initialise(checker, place, number, initialiser),
            None => {
                look_through(checker, initialiser)?;
                Ok(Vec::new(checker.alloc))
            }
        },
        None => match number {
            Some(number) => begin_local(checker, place, number),
            None => Ok(Vec::new(checker.alloc)),
        },
    }
}
