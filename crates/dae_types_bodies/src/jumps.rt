// Conditions, and statements that go elsewhere (C90 6.6.4 to 6.6.6).

ghost use Rattle.std.specs.Prelude.{◌≡◌};
ghost use Rattle.dae_program.specs.Views.{view};
ghost use Rattle.dae_types_file_plans.specs.Statements.{as_result, break_at, continue_at, nothing_returned, return_at, returned, test_at};
ghost use Rattle.dae_types_tables.specs.Seen.{tables, FollowsBy};
ghost use Rattle.dae_types_folding.specs.Views.{MakesTree, view_boxed, view_value};
ghost use Rattle.dae_types_values.specs.Results.{one};
ghost use Rattle.dae_types_bodies.specs.Written.{GivesStatements, MakesStatements};

use crate::sequences::alone;
use dae_base::Place;
use dae_program::{Expression, Statement};
use dae_types_file_plans::Surrounding;
use dae_types_folding::{TypedValue, boxed};
use dae_types_kinds::{CheckError, Rule};
use dae_types_tables::{Checker, broken, is_structure, is_void};
use dae_types_values::{convert, fits, scalar, value};
use std::alloc::Global;

/// The tree of a condition: a value that is a scalar.
pub fn test(
    checker: &mut Checker,
    place: Place,
    x: TypedValue,
) -> Result<Box<Expression>, CheckError>
    ensures { FollowsBy view_boxed checker.new result (test_at place (one x)) checker.old }
{
    let x = value(checker, place, x)?;
    let x = scalar(checker, place, x)?;
    Ok(x.tree)
}

/// A return of a value; in main it ends the program.
fn returned(
    alloc: Global,
    place: Place,
    around: Surrounding,
    e: Box<Expression>,
) -> Result<Vec<Statement>, CheckError>
    ensures { MakesStatements result (returned place around.is_main (view e.value)) }
{
    if around.is_main {
        let exit = boxed(alloc, Expression::Exit(place, e))?;
        alone(alloc, Statement::Evaluate(place, exit))
    } else {
        alone(alloc, Statement::Return(place, Some(e)))
    }
}

/// A value as the result of a function, unless its type is faulty.
fn as_result(
    checker: &Checker,
    place: Place,
    wanted: Option<usize>,
    x: TypedValue,
) -> Result<Box<Expression>, CheckError>
    ensures { MakesTree result (as_result place (tables checker.now) wanted (view_value x)) }
{
    match wanted {
        Some(type_id) => Ok(convert(checker, place, x, type_id)?.tree),
        None => Ok(x.tree),
    }
}

/// `return` with a value.
#[tactic(auto, unfolding(dae_types_rules::specs::Plan::ask_all))]
pub fn return_value(
    checker: &Checker,
    place: Place,
    around: Surrounding,
    x: TypedValue,
) -> Result<Vec<Statement>, CheckError>
    ensures { GivesStatements checker.now result (return_at place around (one x)) checker.now }
{
    if let Some(type_id) = around.result {
        if is_void(checker.shape_of(type_id)) || !fits(checker, &x, type_id) {
            return Err(broken(Rule::BadReturn, place));
        }
        if is_structure(checker.shape_of(x.type_id)) {
            return Err(broken(Rule::StructureValue, place));
        }
    }
    let e = as_result(checker, place, around.result, x)?;
    returned(checker.alloc, place, around, e)
}

/// `return` without a value; in main it ends the program with 0.
pub fn return_nothing(
    alloc: Global,
    place: Place,
    around: Surrounding,
) -> Result<Vec<Statement>, CheckError>
    ensures { MakesStatements result (nothing_returned place around.is_main) }
{
    if around.is_main {
        let zero = boxed(alloc, Expression::Number(0))?;
        let exit = boxed(alloc, Expression::Exit(place, zero))?;
        alone(alloc, Statement::Evaluate(place, exit))
    } else {
        alone(alloc, Statement::Return(place, None))
    }
}

/// `break`, which ends a loop or a switch.
#[inline(never)]
#[tactic(auto, unfolding(dae_types_rules::specs::Plan::ask_all))]
pub fn break_out(
    checker: &Checker,
    place: Place,
    around: Surrounding,
) -> Result<Vec<Statement>, CheckError>
    ensures { GivesStatements checker.now result (break_at place around) checker.now }
{
    if !(around.inside_loop || around.inside_switch) {
        return Err(broken(Rule::LoopOutside, place));
    }
    alone(checker.alloc, Statement::Break(place))
}

/// `continue`, which ends a turn of a loop.
#[inline(never)]
#[tactic(auto, unfolding(dae_types_rules::specs::Plan::ask_all))]
pub fn go_on(
    checker: &Checker,
    place: Place,
    around: Surrounding,
) -> Result<Vec<Statement>, CheckError>
    ensures { GivesStatements checker.now result (continue_at place around) checker.now }
{
    if !around.inside_loop {
        return Err(broken(Rule::LoopOutside, place));
    }
    alone(checker.alloc, Statement::Continue(place))
}
