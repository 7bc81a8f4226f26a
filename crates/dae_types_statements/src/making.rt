// Typed statements of parts that are done.

ghost use Rattle.dae_program.specs.Trees.{Do, Done, If, Loop, Switch};
ghost use Rattle.dae_program.specs.Views.{view, view_some};
ghost use Rattle.dae_types_file_plans.specs.Statements.{arms_of, started};
ghost use Rattle.dae_types_bodies.specs.Arms.{armed};
ghost use Rattle.dae_types_bodies.specs.Written.{MakesStatements, as_statements};

use dae_base::Place;
use dae_program::{Arm, Expression, Statement};
use dae_types_bodies::{alone, append};
use dae_types_kinds::CheckError;
use std::alloc::Global;

/// A condition that is done.
#[derive(Drop)]
pub struct TypedCondition {
    pub tree: Box<Expression>,
}

/// Statements that are done.
#[derive(Drop)]
pub struct Written {
    pub statements: Vec<Statement>,
}

/// The heading of a `for`: its expressions, which are done.
#[derive(Drop)]
pub struct TypedHeading {
    /// The place of the statement.
    pub place: Place,
    /// The place of the expression at the start, if there is one.
    pub first: Place,
    pub start: Option<Box<Expression>>,
    pub test: Option<Box<Expression>>,
    pub step: Option<Box<Expression>>,
}

/// `if` and `else`.
#[inline(never)]
pub fn choose(
    alloc: Global,
    place: Place,
    test: Box<Expression>,
    yes: Vec<Statement>,
    no: Vec<Statement>,
) -> Result<Vec<Statement>, CheckError>
    ensures { MakesStatements result
        (If place (view test.value) (as_statements yes) (as_statements no) Done) }
{
    alone(alloc, Statement::If(place, test, yes, no))
}

/// `while` and `for`, where nothing is done at the start.
#[inline(never)]
pub fn repeat(
    alloc: Global,
    place: Place,
    test: Option<Box<Expression>>,
    body: Vec<Statement>,
    step: Option<Box<Expression>>,
) -> Result<Vec<Statement>, CheckError>
    ensures { MakesStatements result
        (Loop place (view_some test) (as_statements body) (view_some step) Done) }
{
    alone(alloc, Statement::Loop(place, test, body, step))
}

/// `for`.
#[inline(never)]
pub fn repeat_from(
    alloc: Global,
    heading: TypedHeading,
    body: Vec<Statement>,
) -> Result<Vec<Statement>, CheckError>
    ensures { MakesStatements result
        (started heading.first (view_some heading.start)
        (Loop heading.place (view_some heading.test) (as_statements body) (view_some heading.step)
        Done)) }
{
    let TypedHeading {
        place,
        first,
        start,
        test,
        step,
    } = heading;
    let repeated = repeat(alloc, place, test, body, step)?;
    match start {
        Some(e) => append(alone(alloc, Statement::Evaluate(first, e))?, repeated),
        None => Ok(repeated),
    }
}

/// `do`.
#[inline(never)]
pub fn repeat_before(
    alloc: Global,
    place: Place,
    body: Vec<Statement>,
    test: Box<Expression>,
) -> Result<Vec<Statement>, CheckError>
    ensures { MakesStatements result (Do place (as_statements body) (view test.value) Done) }
{
    alone(alloc, Statement::Do(place, body, test))
}

/// `switch`.
#[inline(never)]
pub fn branch(
    alloc: Global,
    place: Place,
    value: Box<Expression>,
    arms: Vec<Arm>,
) -> Result<Vec<Statement>, CheckError>
    ensures { MakesStatements result
        (Switch place (view value.value) (arms_of (armed arms.items)) Done) }
{
    alone(alloc, Statement::Switch(place, value, arms))
}
