// Expressions as statements, among them the calls of `printf` (C90 6.6.3 and 7.9.6.3).

ghost use Rattle.std.specs.Prelude.{◌≡◌, slice_get};
ghost use Rattle.dae_tree.specs.Views.{view, views};
ghost use Rattle.dae_types_file_plans.specs.Statements.{arguments_of, callee_name, is_printf_name, plan_evaluate, plan_printf};
ghost use Rattle.dae_types_tables.specs.Seen.{FollowsBy, tables};
ghost use Rattle.dae_types_values.specs.Results.{views as views_of_arguments};
ghost use Rattle.dae_types_bodies.specs.Written.{GivesStatements};
ghost use Rattle.dae_types_statements.specs.Plans.{plan_arguments_printed, plan_format_printed, plan_plain};

use dae_base::Place;
use dae_program::{Expression, Statement};
use dae_tree::{Expression as Tree, Name};
use dae_types_bodies::alone;
use dae_types_fills::{add_printed, kinds_of_arguments, literal_in, read_format};
use dae_types_kinds::{CheckError, Rule, is_printf};
use dae_types_tables::{Checker, broken};
use dae_types_values::routine_of;
use dae_types_walk::{name_in, operand};

/// Whether a name stands for the library's `printf`.
fn is_printf_name(checker: &Checker, name: Option<Name>) -> bool
    ensures { result ≡ is_printf_name (tables checker.now) name }
{
    let Some(name) = name else {
        return false;
    };
    let Some(function) = routine_of(checker, name) else {
        return false;
    };
    match checker.routine(function) {
        Some(routine) => is_printf(routine.library),
        None => false,
    }
}

/// The name of what is called.
#[tactic(auto, using(dae_tree::proofs::Laws::view_call, dae_tree::proofs::Laws::view_sizeof_type, dae_tree::proofs::Laws::view_cast))]
fn callee_name(e: &Tree) -> Option<Name>
    ensures { result ≡ callee_name (view e.now) }
{
    match e {
        Tree::Call(callee, _, _) => name_in(callee),
        Tree::Identifier(_) => None,
        Tree::Parenthesised(_, _) => None,
        Tree::Constant(_, _) => None,
        Tree::Literal(_, _) => None,
        Tree::Index(_, _, _) => None,
        Tree::Member(_, _, _, _) => None,
        Tree::Postfix(_, _, _) => None,
        Tree::Prefix(_, _, _) => None,
        Tree::SizeofExpression(_, _) => None,
        Tree::SizeofType(_, _, _) => None,
        Tree::Cast(_, _, _) => None,
        Tree::Binary(_, _, _, _) => None,
        Tree::Conditional(_, _, _, _) => None,
        Tree::Assignment(_, _, _, _) => None,
        Tree::Comma(_, _) => None,
    }
}

/// The arguments of a call; of what is none there are none.
#[tactic(auto, using(dae_tree::proofs::Laws::view_sizeof_type, dae_tree::proofs::Laws::view_cast))]
fn arguments_of(e: &Tree) -> &[Tree]
    ensures { views result.now ≡ arguments_of (view e.now) }
{
    match e {
        Tree::Call(_, _, list) => list,
        Tree::Identifier(_) => &[],
        Tree::Parenthesised(_, _) => &[],
        Tree::Constant(_, _) => &[],
        Tree::Literal(_, _) => &[],
        Tree::Index(_, _, _) => &[],
        Tree::Member(_, _, _, _) => &[],
        Tree::Postfix(_, _, _) => &[],
        Tree::Prefix(_, _, _) => &[],
        Tree::SizeofExpression(_, _) => &[],
        Tree::SizeofType(_, _, _) => &[],
        Tree::Cast(_, _, _) => &[],
        Tree::Binary(_, _, _, _) => &[],
        Tree::Conditional(_, _, _, _) => &[],
        Tree::Assignment(_, _, _, _) => &[],
        Tree::Comma(_, _) => &[],
    }
}

/// What a conversion wants: text or a number; nothing past the last one.
fn kind_at(kinds: &[bool], number: usize) -> Option<bool>
    ensures { result ≡ slice_get kinds.now number }
{
    kinds.get(number).copied()
}

/// The arguments behind a format, whose conversions want these kinds.
fn printed(
    checker: &mut Checker,
    kinds: &[bool],
    list: &[Tree],
) -> Result<Vec<Expression>, CheckError>
    ensures { FollowsBy views_of_arguments checker.new result
        (plan_arguments_printed kinds.now list.now) checker.old }
{
    let mut done = Vec::new(checker.alloc);
    let mut number = 0;
    for e in list {
        let x = operand(checker, e)?;
        done = add_printed(checker, e.place(), kind_at(kinds, number), done, x)?;
        number += 1;
    }
    Ok(done)
}

/// A call of `printf` by its format and the arguments behind it, at the place of the statement.
#[tactic(auto, using(crate::proofs::Printed::listed, crate::proofs::Printed::counted))]
fn print(
    checker: &mut Checker,
    place: Place,
    format: &Tree,
    rest: &[Tree],
) -> Result<Vec<Statement>, CheckError>
    ensures { GivesStatements checker.new result
        (plan_format_printed place format.now rest.now) checker.old }
{
    let pieces = read_format(checker, format.place(), literal_in(format), rest.len())?;
    let kinds = kinds_of_arguments(checker.alloc, &pieces)?;
    let arguments = printed(checker, &kinds, rest)?;
    alone(checker.alloc, Statement::Print(place, arguments, pieces))
}

/// A call of `printf` by its arguments, at the place of the statement.
#[tactic(auto, unfolding(dae_types_rules::specs::Plan::ask_all))]
fn print_all(
    checker: &mut Checker,
    place: Place,
    list: &[Tree],
) -> Result<Vec<Statement>, CheckError>
    ensures { GivesStatements checker.new result (plan_printf place (views list.now)) checker.old }
{
    match list {
        [format, rest @ ..] => print(checker, place, format, rest),
        [] => Err(broken(Rule::BadFormat, place)),
    }
}

/// An expression whose value isn't used.
fn plain(checker: &mut Checker, e: &Tree) -> Result<Vec<Statement>, CheckError>
    ensures { GivesStatements checker.new result (plan_plain e.now) checker.old }
{
    let x = operand(checker, e)?;
    alone(checker.alloc, Statement::Evaluate(e.place(), x.tree))
}

/// An expression as a statement: a call of `printf`, or another one.
#[inline(never)]
pub fn evaluate(checker: &mut Checker, e: &Tree) -> Result<Vec<Statement>, CheckError>
    ensures { GivesStatements checker.new result (plan_evaluate (view e.now)) checker.old }
{
    if is_printf_name(checker, callee_name(e)) {
        print_all(checker, e.place(), arguments_of(e))
    } else {
        plain(checker, e)
    }
}
