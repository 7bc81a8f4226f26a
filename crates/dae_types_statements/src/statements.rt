// Statements, which hold statements (C90 6.6).

ghost use Rattle.std.specs.Prelude.{◌≡◌, [], OnOk};
ghost use Rattle.dae_tree.specs.FileViews.{view_declarations, view_statement, views_statements};
ghost use Rattle.dae_tree.specs.Views.{view as view_tree};
ghost use Rattle.dae_program.specs.Views.{view, view_some};
ghost use Rattle.dae_types_rules.specs.Plan.{Fails, check_of};
ghost use Rattle.dae_types_file_plans.specs.Statements.{in_loop, in_switch, plan_arms, plan_block, plan_statement, plan_statements, switch_body_at};
ghost use Rattle.dae_types_tables.specs.Seen.{Follows, FollowsBy, tables};
ghost use Rattle.dae_types_values.specs.Results.{one as done_value};
ghost use Rattle.dae_types_bodies.specs.Arms.{view_arming};
ghost use Rattle.dae_types_bodies.specs.Written.{GivesStatements, as_statements};
ghost use Rattle.dae_types_statements.specs.Plans.{plan_chosen, plan_do, plan_for, plan_label, plan_no_block, plan_otherwise, plan_scope, plan_stray, plan_switch, plan_switch_block, plan_switch_body, plan_switch_parts, plan_unlabelled, plan_while, unarmed, view_arms};

use crate::evaluating::evaluate;
use crate::making::{
    TypedCondition, TypedHeading, Written, branch, choose, repeat, repeat_before, repeat_from,
};
use crate::values::{
    condition, give_back, label, optional_condition, optional_value, selector, starting_place,
};
use dae_base::Place;
use dae_program::{Arm, Statement};
use dae_tree::{Block, Declaration, Expression as Tree, Statement as TreeStatement};
use dae_types_bodies::{Arming, add_case, add_default, add_statements, append, break_out, go_on};
use dae_types_file_plans::Surrounding;
use dae_types_folding::TypedValue;
use dae_types_kinds::{CheckError, Rule};
use dae_types_locals::declarations;
use dae_types_tables::{Checker, broken};
use dae_types_walk::place_of_specifiers;

/// What stands round the body of a loop.
fn in_loop(around: Surrounding) -> Surrounding
    ensures { result ≡ in_loop around }
{
    Surrounding {
        result: around.result,
        is_main: around.is_main,
        inside_loop: true,
        inside_switch: around.inside_switch,
    }
}

/// What stands round the body of a switch.
fn in_switch(around: Surrounding) -> Surrounding
    ensures { result ≡ in_switch around }
{
    Surrounding {
        result: around.result,
        is_main: around.is_main,
        inside_loop: around.inside_loop,
        inside_switch: true,
    }
}

/// A label outside a switch, at this place.
#[tactic(auto, unfolding(dae_types_rules::specs::Plan::ask_all))]
fn stray_label(checker: &Checker, place: Place) -> CheckError
    ensures { Fails result (check_of (plan_stray place) (tables checker.now)) }
{
    broken(Rule::CaseOutside, place)
}

/// A statement that is no block as the body of a switch, at this place.
#[tactic(auto, unfolding(dae_types_rules::specs::Plan::ask_all))]
fn no_block(checker: &Checker, place: Place) -> CheckError
    ensures { Fails result (check_of (plan_no_block place) (tables checker.now)) }
{
    broken(Rule::SwitchBody, place)
}

/// The body of a switch has no declarations.
#[tactic(auto, unfolding(dae_types_rules::specs::Plan::ask_all))]
fn check_switch_body(checker: &Checker, list: &[Declaration]) -> Result<(), CheckError>
    ensures follows { Follows checker.now result
        (switch_body_at (view_declarations list.now)) checker.now }
    ensures none { OnOk result (view_declarations list.now ≡ []) }
{
    match list {
        [first, ..] => {
            let place = place_of_specifiers(&first.specifiers, first.end);
            Err(broken(Rule::SwitchBody, place))
        }
        [] => Ok(()),
    }
}

/// A statement.
#[cycle(statement)]
fn statement(
    checker: &mut Checker,
    around: Surrounding,
    one: &TreeStatement,
) -> Result<Vec<Statement>, CheckError>
    ensures { GivesStatements checker.new result
        (plan_statement around (view_statement one.now)) checker.old }
{
    match one {
        TreeStatement::Block(inner) => scope(checker, around, inner),
        TreeStatement::Empty(_) => Ok(Vec::new(checker.alloc)),
        TreeStatement::Evaluate(e, _) => evaluate(checker, e),
        TreeStatement::If(place, test, t) => {
            let test = condition(checker, &test.expression)?;
            if_true(checker, around, *place, TypedCondition { tree: test }, t)
        }
        TreeStatement::IfElse(place, test, t, u) => {
            let test = condition(checker, &test.expression)?;
            let statements = statement(checker, around, t)?;
            let test = TypedCondition { tree: test };
            if_false(checker, around, *place, test, Written { statements }, u)
        }
        TreeStatement::While(place, test, t) => {
            let test = condition(checker, &test.expression)?;
            while_true(checker, around, *place, TypedCondition { tree: test }, t)
        }
        TreeStatement::Do(place, t, _, test, _) => {
            let body = statement(checker, in_loop(around), t)?;
            until_false(checker, *place, body, &test.expression)
        }
        TreeStatement::For(place, _, heading, t) => {
            let start = optional_value(checker, &heading.start)?;
            let test = optional_condition(checker, &heading.test)?;
            let step = optional_value(checker, &heading.step)?;
            let first = starting_place(*place, &heading.start);
            let heading = TypedHeading {
                place: *place,
                first,
                start,
                test,
                step,
            };
            for_each(checker, around, heading, t)
        }
        TreeStatement::Break(place, _) => break_out(checker, *place, around),
        TreeStatement::Continue(place, _) => go_on(checker, *place, around),
        TreeStatement::Return(place, e, _) => give_back(checker, *place, around, e),
        TreeStatement::Switch(place, test, t) => {
            let value = selector(checker, &test.expression)?;
            switch(checker, around, *place, value, t)
        }
        TreeStatement::Case(place, _, _) => Err(stray_label(checker, *place)),
        TreeStatement::Default(place, _) => Err(stray_label(checker, *place)),
    }
}

/// A block, in a scope of its own.
#[cycle(statement)]
#[inline(never)]
fn scope(
    checker: &mut Checker,
    around: Surrounding,
    inner: &Block,
) -> Result<Vec<Statement>, CheckError>
    ensures { GivesStatements checker.new result (plan_scope around inner.now) checker.old }
{
    let outer = checker.open();
    let begun = declarations(checker, &inner.declarations)?;
    let done = sequence(
        checker,
        around,
        Written { statements: begun },
        &inner.statements,
    )?;
    checker.close(outer)?;
    Ok(done)
}

/// Statements behind those that are done.
#[cycle(statement)]
#[inline(never)]
fn sequence(
    checker: &mut Checker,
    around: Surrounding,
    mut done: Written,
    list: &[TreeStatement],
) -> Result<Vec<Statement>, CheckError>
    ensures { GivesStatements checker.new result
        (plan_statements around (as_statements done.statements)
        (views_statements list.now)) checker.old }
{
    for one in list {
        let next = statement(checker, around, one)?;
        let statements = append(done.statements, next)?;
        done = Written { statements };
    }
    Ok(done.statements)
}

/// `if` behind its condition.
#[cycle(statement)]
#[inline(never)]
fn if_true(
    checker: &mut Checker,
    around: Surrounding,
    place: Place,
    test: TypedCondition,
    one: &TreeStatement,
) -> Result<Vec<Statement>, CheckError>
    ensures { GivesStatements checker.new result
        (plan_chosen place (view test.tree.value) around (view_statement one.now)) checker.old }
{
    let yes = statement(checker, around, one)?;
    choose(
        checker.alloc,
        place,
        test.tree,
        yes,
        Vec::new(checker.alloc),
    )
}

/// `if` with `else`, behind its condition and the statement before `else`.
#[cycle(statement)]
#[inline(never)]
fn if_false(
    checker: &mut Checker,
    around: Surrounding,
    place: Place,
    test: TypedCondition,
    yes: Written,
    one: &TreeStatement,
) -> Result<Vec<Statement>, CheckError>
    ensures { GivesStatements checker.new result
        (plan_otherwise place (view test.tree.value) (as_statements yes.statements) around
        (view_statement one.now)) checker.old }
{
    let no = statement(checker, around, one)?;
    choose(checker.alloc, place, test.tree, yes.statements, no)
}

/// `while` behind its condition.
#[cycle(statement)]
#[inline(never)]
fn while_true(
    checker: &mut Checker,
    around: Surrounding,
    place: Place,
    test: TypedCondition,
    one: &TreeStatement,
) -> Result<Vec<Statement>, CheckError>
    ensures { GivesStatements checker.new result
        (plan_while place (view test.tree.value) around (view_statement one.now)) checker.old }
{
    let body = statement(checker, in_loop(around), one)?;
    repeat(checker.alloc, place, Some(test.tree), body, None)
}

/// `do` behind its body.
#[inline(never)]
fn until_false(
    checker: &mut Checker,
    place: Place,
    body: Vec<Statement>,
    e: &Tree,
) -> Result<Vec<Statement>, CheckError>
    ensures { GivesStatements checker.new result
        (plan_do place (as_statements body) (view_tree e.now)) checker.old }
{
    let test = condition(checker, e)?;
    repeat_before(checker.alloc, place, body, test)
}

/// `for` behind its expressions.
#[cycle(statement)]
#[inline(never)]
fn for_each(
    checker: &mut Checker,
    around: Surrounding,
    heading: TypedHeading,
    one: &TreeStatement,
) -> Result<Vec<Statement>, CheckError>
    ensures { GivesStatements checker.new result
        (plan_for heading.first (view_some heading.start) heading.place (view_some heading.test)
        (view_some heading.step) around (view_statement one.now)) checker.old }
{
    let body = statement(checker, in_loop(around), one)?;
    repeat_from(checker.alloc, heading, body)
}

/// `switch` behind its value.
#[cycle(statement)]
#[inline(never)]
fn switch(
    checker: &mut Checker,
    around: Surrounding,
    place: Place,
    value: TypedValue,
    one: &TreeStatement,
) -> Result<Vec<Statement>, CheckError>
    ensures { GivesStatements checker.new result
        (plan_switch place (done_value value) around (view_statement one.now)) checker.old }
{
    let arms = switch_body(checker, in_switch(around), one)?;
    branch(checker.alloc, place, value.tree, arms)
}

/// The body of a switch: a block.
#[cycle(statement)]
fn switch_body(
    checker: &mut Checker,
    around: Surrounding,
    one: &TreeStatement,
) -> Result<Vec<Arm>, CheckError>
    ensures { FollowsBy view_arms checker.new result
        (plan_switch_body around (view_statement one.now)) checker.old }
{
    match one {
        TreeStatement::Block(inner) => switch_block(checker, around, inner),
        _ => Err(no_block(checker, one.place())),
    }
}

/// The block of a switch, in a scope of its own.
#[cycle(statement)]
fn switch_block(
    checker: &mut Checker,
    around: Surrounding,
    inner: &Block,
) -> Result<Vec<Arm>, CheckError>
    ensures { FollowsBy view_arms checker.new result
        (plan_switch_block around inner.now) checker.old }
{
    let enclosing = checker.open();
    let arms = switch_parts(checker, around, inner)?;
    checker.close(enclosing)?;
    Ok(arms)
}

/// What stands in the block of a switch.
#[cycle(statement)]
fn switch_parts(
    checker: &mut Checker,
    around: Surrounding,
    inner: &Block,
) -> Result<Vec<Arm>, CheckError>
    ensures { FollowsBy view_arms checker.new result
        (plan_switch_parts around inner.now) checker.old }
{
    check_switch_body(checker, &inner.declarations)?;
    arms(checker, around, &inner.statements)
}

/// The arms of a switch.
#[cycle(statement)]
fn arms(
    checker: &mut Checker,
    around: Surrounding,
    list: &[TreeStatement],
) -> Result<Vec<Arm>, CheckError>
    ensures { FollowsBy view_arms checker.new result
        (plan_arms around unarmed (views_statements list.now)) checker.old }
{
    let mut arming = Arming::new(checker.alloc);
    for one in list {
        arming = labelled(checker, around, arming, one)?;
    }
    Ok(arming.arms)
}

/// The labels before a statement of a switch, and the statement.
#[cycle(statement)]
#[inline(never)]
fn labelled(
    checker: &mut Checker,
    around: Surrounding,
    arming: Arming,
    one: &TreeStatement,
) -> Result<Arming, CheckError>
    ensures { FollowsBy view_arming checker.new result
        (plan_label around (view_arming arming) (view_statement one.now)) checker.old }
{
    match one {
        TreeStatement::Case(place, e, t) => {
            let word = label(checker, e)?;
            let arming = add_case(checker, *place, arming, word)?;
            labelled(checker, around, arming, t)
        }
        TreeStatement::Default(place, t) => {
            let arming = add_default(checker, *place, arming)?;
            labelled(checker, around, arming, t)
        }
        _ => unlabelled(checker, around, arming, one),
    }
}

/// A statement of a switch behind its labels.
#[cycle(statement)]
#[inline(never)]
fn unlabelled(
    checker: &mut Checker,
    around: Surrounding,
    arming: Arming,
    one: &TreeStatement,
) -> Result<Arming, CheckError>
    ensures { FollowsBy view_arming checker.new result
        (plan_unlabelled around (view_arming arming) (view_statement one.now)) checker.old }
{
    let written = statement(checker, around, one)?;
    let arms = add_statements(checker.alloc, arming.arms, written)?;
    Ok(Arming {
        seen: arming.seen,
        arms,
    })
}

/// The body of a function, whose scope is begun: the statements that its declarations and statements come to. An error is a rule
/// that is broken, or want of memory.
pub fn block(
    checker: &mut Checker,
    around: Surrounding,
    declarations: &[Declaration],
    statements: &[TreeStatement],
) -> Result<Vec<Statement>, CheckError>
    ensures { GivesStatements checker.new result
        (plan_block around (view_declarations declarations.now)
        (views_statements statements.now)) checker.old }
{
    let begun = dae_types_locals::declarations(checker, declarations)?;
    sequence(checker, around, Written { statements: begun }, statements)
}
