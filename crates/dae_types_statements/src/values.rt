// The expressions that statements hold: values that are read, conditions and labels (C90 6.6.1.1, 6.6.4 and 6.6.5).

ghost use Rattle.std.specs.Prelude.{◌≡◌};
ghost use Rattle.dae_tree.specs.Views.{view as view_tree, view_optional};
ghost use Rattle.dae_program.specs.Views.{view_some};
ghost use Rattle.dae_types_folding.specs.Views.{view_boxed};
ghost use Rattle.dae_types_file_plans.specs.Statements.{label_at, plan_condition, plan_optional, plan_return, plan_test, starting_place};
ghost use Rattle.dae_types_tables.specs.Seen.{Follows, FollowsBy};
ghost use Rattle.dae_types_values.specs.Results.{GivesValue};
ghost use Rattle.dae_types_bodies.specs.Written.{GivesStatements};
ghost use Rattle.dae_types_statements.specs.Plans.{plan_selected};

use dae_base::Place;
use dae_program::{Expression, Statement};
use dae_tree::Expression as Tree;
use dae_types_bodies::{return_nothing, return_value, test};
use dae_types_file_plans::Surrounding;
use dae_types_folding::TypedValue;
use dae_types_kinds::CheckError;
use dae_types_tables::Checker;
use dae_types_values::integer;
use dae_types_walk::{constant_value, expression, operand};

/// A condition, which must be a scalar.
#[inline(never)]
pub fn condition(checker: &mut Checker, e: &Tree) -> Result<Box<Expression>, CheckError>
    ensures { FollowsBy view_boxed checker.new result
        (plan_condition (view_tree e.now)) checker.old }
{
    let x = expression(checker, e)?;
    test(checker, e.place(), x)
}

/// The condition of a `for`, if it has one.
#[inline(never)]
pub fn optional_condition(
    checker: &mut Checker,
    e: &Option<Box<Tree>>,
) -> Result<Option<Box<Expression>>, CheckError>
    ensures { FollowsBy view_some checker.new result (plan_test (view_optional e.now)) checker.old }
{
    match e {
        Some(e) => Ok(Some(condition(checker, e)?)),
        None => Ok(None),
    }
}

/// An expression of a `for`, if it has one.
#[inline(never)]
pub fn optional_value(
    checker: &mut Checker,
    e: &Option<Box<Tree>>,
) -> Result<Option<Box<Expression>>, CheckError>
    ensures { FollowsBy view_some checker.new result
        (plan_optional (view_optional e.now)) checker.old }
{
    match e {
        Some(e) => Ok(Some(operand(checker, e)?.tree)),
        None => Ok(None),
    }
}

/// The place of the expression at the start of a `for`, or else this one.
pub fn starting_place(place: Place, start: &Option<Box<Tree>>) -> Place
    ensures { result ≡ starting_place place (view_optional start.now) }
{
    match start {
        Some(e) => e.place(),
        None => place,
    }
}

/// The value that a `switch` selects by, an integer.
#[inline(never)]
pub fn selector(checker: &mut Checker, e: &Tree) -> Result<TypedValue, CheckError>
    ensures { GivesValue checker.new result (plan_selected (view_tree e.now)) checker.old }
{
    let x = operand(checker, e)?;
    integer(checker, e.place(), x)
}

/// The word of a label of a `switch`, a constant.
#[inline(never)]
pub fn label(checker: &mut Checker, e: &Tree) -> Result<u32, CheckError>
    ensures { Follows checker.new result (label_at (view_tree e.now)) checker.old }
{
    let x = operand(checker, e)?;
    constant_value(checker, e.place(), x)
}

/// `return` with a value or without.
#[inline(never)]
pub fn give_back(
    checker: &mut Checker,
    place: Place,
    around: Surrounding,
    e: &Option<Box<Tree>>,
) -> Result<Vec<Statement>, CheckError>
    ensures { GivesStatements checker.new result
        (plan_return place around (view_optional e.now)) checker.old }
{
    match e {
        Some(e) => {
            let x = operand(checker, e)?;
            return_value(checker, place, around, x)
        }
        None => return_nothing(checker.alloc, place, around),
    }
}
