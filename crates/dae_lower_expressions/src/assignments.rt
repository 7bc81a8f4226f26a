// The assignments of expressions are added to what is to come, or removed from it.

ghost use Rattle.std.specs.Prelude.{◌≡◌, IfOk};
ghost use Rattle.dae_lower_expressions.specs.Assignments.{all_assignments, assignments};
ghost use Rattle.dae_lower_expressions.specs.Assignments.{target_assignments};
ghost use Rattle.dae_lower_maker.specs.Counting.{Changes, counts_of};
ghost use Rattle.dae_program.specs.Views.{view, view_expressions, view_target};

use dae_lower_maker::{Change, Later};
use dae_program::{Expression, Target};
use std::alloc::AllocError;

/// Adds or removes the assignments of an expression.
#[cycle(count)]
pub fn count(later: &mut Later, change: Change, e: &Expression) -> Result<(), AllocError>
    ensures { IfOk result
        (λ x. Changes change (assignments (view e.now)) (counts_of later.old)
        (counts_of later.new)) }
{
    match e {
        Expression::Number(_) => Ok(()),
        Expression::Address(_, _) => Ok(()),
        Expression::Frame(_, _) => Ok(()),
        Expression::Variable(_, _) => Ok(()),
        Expression::Read(_, _, _, a) => {
            count(later, change, a)?;
            Ok(())
        }
        Expression::Convert(_, _, a) => {
            count(later, change, a)?;
            Ok(())
        }
        Expression::Not(_, a) => {
            count(later, change, a)?;
            Ok(())
        }
        Expression::Binary(_, _, a, b) => {
            count(later, change, a)?;
            count(later, change, b)?;
            Ok(())
        }
        Expression::Compare(_, _, _, a, b) => {
            count(later, change, a)?;
            count(later, change, b)?;
            Ok(())
        }
        Expression::And(_, a, b) => {
            count(later, change, a)?;
            count(later, change, b)?;
            Ok(())
        }
        Expression::Or(_, a, b) => {
            count(later, change, a)?;
            count(later, change, b)?;
            Ok(())
        }
        Expression::Conditional(_, a, b, c) => {
            count(later, change, a)?;
            count(later, change, b)?;
            count(later, change, c)?;
            Ok(())
        }
        Expression::Comma(a, b) => {
            count(later, change, a)?;
            count(later, change, b)?;
            Ok(())
        }
        Expression::Assign(_, _, t, a) => {
            count_target(later, change, t)?;
            count(later, change, a)?;
            Ok(())
        }
        Expression::Update(_, _, t, _, a) => {
            count_target(later, change, t)?;
            count(later, change, a)?;
            Ok(())
        }
        Expression::Step(_, _, t, _, _) => {
            count_target(later, change, t)?;
            Ok(())
        }
        Expression::Call(_, _, xs) => {
            count_all(later, change, xs)?;
            Ok(())
        }
        Expression::Putchar(_, a) => {
            count(later, change, a)?;
            Ok(())
        }
        Expression::Exit(_, a) => {
            count(later, change, a)?;
            Ok(())
        }
        Expression::Abort(_) => Ok(()),
    }
}

#[cycle(count)]
fn count_target(later: &mut Later, change: Change, t: &Target) -> Result<(), AllocError>
    ensures { IfOk result
        (λ x. Changes change (target_assignments (view_target t.now)) (counts_of later.old)
        (counts_of later.new)) }
{
    match t {
        Target::Variable(v) => {
            later.change(*v, change)?;
            Ok(())
        }
        Target::Object(_, a) => {
            count(later, change, a)?;
            Ok(())
        }
    }
}

/// Adds or removes the assignments of all expressions of a list.
#[cycle(count)]
pub fn count_all(later: &mut Later, change: Change, xs: &[Expression]) -> Result<(), AllocError>
    ensures { IfOk result
        (λ x. Changes change (all_assignments (view_expressions xs.now)) (counts_of later.old)
        (counts_of later.new)) }
{
    for e in xs {
        count(later, change, e)?;
    }
    Ok(())
}
