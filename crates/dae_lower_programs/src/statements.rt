// Statements in order, each behind those before it (C90 6.6).

ghost use Rattle.std.specs.Prelude.{IfOk};
ghost use Rattle.dae_lower.specs.Lowering.{arms_from, effect_of_some, leave_unless};
ghost use Rattle.dae_lower.specs.Lowering.{leave_unless_some, preheader, statements, unread};
ghost use Rattle.dae_lower_expressions.specs.Lowered.{MakesWhole, links_in};
ghost use Rattle.dae_lower_programs.specs.Made.{MakesBlock};
ghost use Rattle.dae_lower_programs.specs.Sound.{AreArmsSound, AreSound};
ghost use Rattle.dae_lower_programs.specs.Switching.{switch_on};
ghost use Rattle.dae_program.specs.Trees.{Done, Initialise, Return};
ghost use Rattle.dae_program.specs.Views.{statement_then, view, view_settings, view_some, view_statements, arms_of};

use crate::blocks::single;
use crate::initialising::{Aggregate, put_all, zero};
use crate::printing::print;
use crate::switching::{begin_switch, do_arm, end_switch};
use dae_base::Place;
use dae_ir::{Item, Operand, Statement as FormStatement, Value};
use dae_lower_expressions::Lowerer;
use dae_program::{Arm, Expression, Links, Setting, Statement};
use std::alloc::AllocError;

/// A loop is left where a condition doesn't hold.
fn leave_unless(
    lowerer: &mut Lowerer,
    links: &Links,
    none: u32,
    place: Place,
    e: &Expression,
) -> Result<(), AllocError>
    ensures { IfOk result
        (MakesWhole
        (leave_unless (links_in none links.now) place (view e.now)) lowerer.old lowerer.new) }
{
    let condition = lowerer.whole_condition(links, none, e)?;
    let stay = Vec::new(lowerer.alloc);
    let leave = single(lowerer.alloc, place, Item::Break)?;
    lowerer.maker.branch(place, condition, stay, leave)?;
    Ok(())
}

/// A loop is left where its test doesn't hold, if it has one.
fn leave_unless_some(
    lowerer: &mut Lowerer,
    links: &Links,
    none: u32,
    place: Place,
    test: &Option<Box<Expression>>,
) -> Result<(), AllocError>
    ensures { IfOk result
        (MakesWhole
        (leave_unless_some (links_in none links.now) place
        (view_some test.now)) lowerer.old lowerer.new) }
{
    match test {
        Some(e) => {
            leave_unless(lowerer, links, none, place, e)?;
            Ok(())
        }
        None => Ok(()),
    }
}

/// An expression for its effects, if there is one.
fn effect_of_some(
    lowerer: &mut Lowerer,
    links: &Links,
    none: u32,
    step: &Option<Box<Expression>>,
) -> Result<(), AllocError>
    ensures { IfOk result
        (MakesWhole
        (effect_of_some (links_in none links.now) (view_some step.now)) lowerer.old lowerer.new) }
{
    match step {
        Some(e) => {
            lowerer.whole_effect(links, none, e)?;
            Ok(())
        }
        None => Ok(()),
    }
}

/// The test behind the body of a loop, as statements of their own.
fn test_block(
    lowerer: &mut Lowerer,
    links: &Links,
    none: u32,
    place: Place,
    e: &Expression,
) -> Result<Vec<FormStatement>, AllocError>
    ensures { IfOk result
        (λ inner.
        MakesBlock
        (leave_unless (links_in none links.now) place
        (view e.now)) lowerer.old lowerer.new inner.items) }
{
    let outer = lowerer.maker.begin_block(lowerer.alloc);
    leave_unless(lowerer, links, none, place, e)?;
    Ok(lowerer.maker.end_block(outer))
}

/// What follows each turn of a loop, as statements of their own.
fn step_block(
    lowerer: &mut Lowerer,
    links: &Links,
    none: u32,
    step: &Option<Box<Expression>>,
) -> Result<Vec<FormStatement>, AllocError>
    ensures { IfOk result
        (λ inner.
        MakesBlock
        (effect_of_some (links_in none links.now)
        (view_some step.now)) lowerer.old lowerer.new inner.items) }
{
    let outer = lowerer.maker.begin_block(lowerer.alloc);
    effect_of_some(lowerer, links, none, step)?;
    Ok(lowerer.maker.end_block(outer))
}

/// An initialised aggregate.
fn initialise(
    lowerer: &mut Lowerer,
    links: &Links,
    none: u32,
    aggregate: Aggregate,
    items: &[Setting],
) -> Result<(), AllocError>
    ensures { IfOk result
        (MakesWhole
        (statements (links_in none links.now)
        (Initialise aggregate.place aggregate.offset aggregate.size
        (view_settings items.now) Done)) lowerer.old lowerer.new) }
{
    let v = zero(lowerer, aggregate)?;
    put_all(lowerer, links, none, aggregate.place, v, items)?;
    Ok(())
}

/// A return, of 0 where there is no value.
fn give_back(
    lowerer: &mut Lowerer,
    links: &Links,
    none: u32,
    place: Place,
    value: &Option<Box<Expression>>,
) -> Result<(), AllocError>
    ensures { IfOk result
        (MakesWhole
        (statements (links_in none links.now)
        (Return place (view_some value.now) Done)) lowerer.old lowerer.new) }
{
    match value {
        Some(e) => {
            let x = lowerer.whole_value(links, none, e)?;
            lowerer.maker.item(place, Item::Return(x))?;
            Ok(())
        }
        None => {
            lowerer.maker.item(place, Item::Return(Operand::Number(0)))?;
            Ok(())
        }
    }
}

/// A variable that nothing reads.
fn reserve_unread(lowerer: &mut Lowerer, place: Place) -> Result<(), AllocError>
    ensures { IfOk result (MakesWhole (unread place) lowerer.old lowerer.new) }
{
    lowerer.maker.set(place, Value::Same(Operand::Number(0)))?;
    Ok(())
}

/// What stands before a loop: variables that nothing reads, so that what doesn't change in the loop may be computed there later.
fn preheader(lowerer: &mut Lowerer, place: Place) -> Result<(), AllocError>
    ensures { IfOk result (MakesWhole (preheader place) lowerer.old lowerer.new) }
{
    reserve_unread(lowerer, place)?;
    reserve_unread(lowerer, place)?;
    reserve_unread(lowerer, place)?;
    Ok(())
}

/// Statements in order, whose arms words number. `none` is the number of no function.
#[cycle(statements)]
pub fn make_statements(
    lowerer: &mut Lowerer,
    links: &Links,
    none: u32,
    ss: &[Statement],
) -> Result<(), AllocError>
    requires { AreSound (view_statements ss.now) }
    ensures { IfOk result
        (MakesWhole
        (statements (links_in none links.now) (view_statements ss.now)) lowerer.old lowerer.new) }
{
    for s in ss {
        make_statement(lowerer, links, none, s)?;
    }
    Ok(())
}

#[cycle(statements)]
fn make_statement(
    lowerer: &mut Lowerer,
    links: &Links,
    none: u32,
    s: &Statement,
) -> Result<(), AllocError>
    requires { AreSound (statement_then s.now Done) }
    ensures { IfOk result
        (MakesWhole
        (statements (links_in none links.now)
        (statement_then s.now Done)) lowerer.old lowerer.new) }
{
    match s {
        Statement::Evaluate(_, e) => {
            lowerer.whole_effect(links, none, e)?;
            Ok(())
        }
        Statement::Initialise(place, offset, size, items) => {
            let aggregate = Aggregate {
                place: *place,
                offset: *offset,
                size: *size,
            };
            initialise(lowerer, links, none, aggregate, items)?;
            Ok(())
        }
        Statement::Print(place, xs, pieces) => {
            let operands = lowerer.whole_operands(links, none, xs)?;
            print(lowerer, *place, &operands, pieces)?;
            Ok(())
        }
        Statement::If(place, e, yes, no) => {
            let condition = lowerer.whole_condition(links, none, e)?;
            let holds = block(lowerer, links, none, yes)?;
            let fails = block(lowerer, links, none, no)?;
            lowerer.maker.branch(*place, condition, holds, fails)?;
            Ok(())
        }
        Statement::Loop(place, test, body, step) => {
            preheader(lowerer, *place)?;
            let outer = lowerer.maker.begin_block(lowerer.alloc);
            leave_unless_some(lowerer, links, none, *place, test)?;
            make_statements(lowerer, links, none, body)?;
            let turn = lowerer.maker.end_block(outer);
            let after = step_block(lowerer, links, none, step)?;
            lowerer.maker.repeat(*place, turn, after)?;
            Ok(())
        }
        Statement::Do(place, body, test) => {
            preheader(lowerer, *place)?;
            let turn = block(lowerer, links, none, body)?;
            let after = test_block(lowerer, links, none, *place, test)?;
            lowerer.maker.repeat(*place, turn, after)?;
            Ok(())
        }
        Statement::Switch(place, e, arms) => {
            let x = lowerer.whole_value(links, none, e)?;
            make_switch(lowerer, links, none, *place, x, arms)?;
            Ok(())
        }
        Statement::Break(place) => {
            lowerer.maker.item(*place, Item::Break)?;
            Ok(())
        }
        Statement::Continue(place) => {
            lowerer.maker.item(*place, Item::Continue)?;
            Ok(())
        }
        Statement::Return(place, value) => {
            give_back(lowerer, links, none, *place, value)?;
            Ok(())
        }
    }
}

/// Statements in a branch or a loop, as statements of their own.
#[cycle(statements)]
fn block(
    lowerer: &mut Lowerer,
    links: &Links,
    none: u32,
    ss: &[Statement],
) -> Result<Vec<FormStatement>, AllocError>
    requires { AreSound (view_statements ss.now) }
    ensures { IfOk result
        (λ inner.
        MakesBlock
        (statements (links_in none links.now)
        (view_statements ss.now)) lowerer.old lowerer.new inner.items) }
{
    let outer = lowerer.maker.begin_block(lowerer.alloc);
    make_statements(lowerer, links, none, ss)?;
    Ok(lowerer.maker.end_block(outer))
}

/// A switch, once its value is known.
#[cycle(statements)]
fn make_switch(
    lowerer: &mut Lowerer,
    links: &Links,
    none: u32,
    place: Place,
    x: Operand,
    arms: &[Arm],
) -> Result<(), AllocError>
    requires { AreArmsSound (arms_of arms.now) }
    ensures { IfOk result
        (MakesWhole
        (switch_on (links_in none links.now) place (arms_of arms.now) x) lowerer.old lowerer.new) }
{
    let switch = begin_switch(lowerer, place, x, arms)?;
    let outer = lowerer.maker.begin_block(lowerer.alloc);
    make_arms(lowerer, links, none, place, switch.arm, arms)?;
    lowerer.maker.item(place, Item::Break)?;
    let body = lowerer.maker.end_block(outer);
    end_switch(lowerer, switch, body)?;
    Ok(())
}

/// The arms of a switch. A variable has the number of the arm where it begins.
#[cycle(statements)]
fn make_arms(
    lowerer: &mut Lowerer,
    links: &Links,
    none: u32,
    place: Place,
    v: u32,
    arms: &[Arm],
) -> Result<(), AllocError>
    requires { AreArmsSound (arms_of arms.now) }
    ensures { IfOk result
        (MakesWhole
        (arms_from (links_in none links.now) place v 0
        (arms_of arms.now)) lowerer.old lowerer.new) }
{
    let mut number = 0;
    for arm in arms {
        let body = block(lowerer, links, none, &arm.statements)?;
        do_arm(lowerer, place, v, number, body)?;
        number += 1;
    }
    Ok(())
}
