// Whether each variable is set before it is read in expressions.

ghost use Rattle.std.specs.Prelude.{◌≡◌, IfOk, Some};
ghost use Rattle.dae_program.specs.Views.{view, view_expressions, view_settings, view_some, view_target};
ghost use Rattle.dae_types_ready.specs.Reads.{Sets, reading, reading_all, reading_aside, reading_items, reading_old, reading_some, reading_target, setting_target};

use crate::doubts::Doubt;
use crate::flags::{copy_of, meet, read_variable, set_all, set_variable};
use dae_program::{Expression, Setting, Target};
use std::alloc::Global;

/// What is set behind an expression, where it reads set variables alone.
#[cycle(reads)]
pub fn read(alloc: Global, set: Vec<bool>, e: &Expression) -> Result<Vec<bool>, Doubt>
    ensures { IfOk result (Sets (reading (view e.now)) set.items) }
{
    match e {
        Expression::Number(_) => Ok(set),
        Expression::Address(_, _) => Ok(set),
        Expression::Frame(_, _) => Ok(set),
        Expression::Variable(_, v) => read_variable(set, *v),
        Expression::Read(_, _, _, a) => read(alloc, set, a),
        Expression::Convert(_, _, a) => read(alloc, set, a),
        Expression::Not(_, a) => read(alloc, set, a),
        Expression::Binary(_, _, a, b) => {
            let set = read(alloc, set, a)?;
            read(alloc, set, b)
        }
        Expression::Compare(_, _, _, a, b) => {
            let set = read(alloc, set, a)?;
            read(alloc, set, b)
        }
        Expression::And(_, a, b) => {
            let set = read(alloc, set, a)?;
            read_aside(alloc, set, b)
        }
        Expression::Or(_, a, b) => {
            let set = read(alloc, set, a)?;
            read_aside(alloc, set, b)
        }
        Expression::Conditional(_, a, b, c) => {
            let set = read(alloc, set, a)?;
            let other = copy_of(&set)?;
            let yes = read(alloc, set, b)?;
            let no = read(alloc, other, c)?;
            meet(alloc, &yes, &no)
        }
        Expression::Comma(a, b) => {
            let set = read(alloc, set, a)?;
            read(alloc, set, b)
        }
        Expression::Assign(_, _, t, a) => {
            let set = read_target(alloc, set, t)?;
            let set = read(alloc, set, a)?;
            set_target(set, t)
        }
        Expression::Update(_, _, t, _, a) => {
            let set = read_target(alloc, set, t)?;
            let set = read_old(set, t)?;
            let set = read(alloc, set, a)?;
            set_target(set, t)
        }
        Expression::Step(_, _, t, _, _) => {
            let set = read_target(alloc, set, t)?;
            read_old(set, t)
        }
        Expression::Call(_, _, xs) => read_all(alloc, set, xs),
        Expression::Putchar(_, a) => read(alloc, set, a),
        Expression::Exit(_, a) => {
            let set = read(alloc, set, a)?;
            Ok(set_all(set))
        }
        Expression::Abort(_) => Ok(set),
    }
}

/// The same of an expression that may not be evaluated, so that what it sets doesn't count.
#[cycle(reads)]
fn read_aside(alloc: Global, set: Vec<bool>, e: &Expression) -> Result<Vec<bool>, Doubt>
    ensures { IfOk result (Sets (reading_aside (view e.now)) set.items) }
{
    let copy = copy_of(&set)?;
    read(alloc, copy, e)?;
    Ok(set)
}

/// The same of the address of a target.
#[cycle(reads)]
fn read_target(alloc: Global, set: Vec<bool>, t: &Target) -> Result<Vec<bool>, Doubt>
    ensures { IfOk result (Sets (reading_target (view_target t.now)) set.items) }
{
    match t {
        Target::Variable(_) => Ok(set),
        Target::Object(_, a) => read(alloc, set, a),
    }
}

/// The same of several expressions, one after the other.
#[cycle(reads)]
pub fn read_all(alloc: Global, set: Vec<bool>, xs: &[Expression]) -> Result<Vec<bool>, Doubt>
    ensures { IfOk result (Sets (reading_all (view_expressions xs.now)) set.items) }
{
    let mut set = set;
    for e in xs {
        set = read(alloc, set, e)?;
    }
    Ok(set)
}

/// The old value of a target is read.
fn read_old(set: Vec<bool>, t: &Target) -> Result<Vec<bool>, Doubt>
    ensures { IfOk result (Sets (reading_old (view_target t.now)) set.items) }
{
    match t {
        Target::Variable(v) => read_variable(set, *v),
        Target::Object(_, _) => Ok(set),
    }
}

fn set_target(set: Vec<bool>, t: &Target) -> Result<Vec<bool>, Doubt>
    ensures { IfOk result (Sets (setting_target (view_target t.now)) set.items) }
{
    match t {
        Target::Variable(v) => set_variable(set, *v),
        Target::Object(_, _) => Ok(set),
    }
}

/// The same of an expression, if there is one.
pub fn read_some(
    alloc: Global,
    set: Vec<bool>,
    e: &Option<Box<Expression>>,
) -> Result<Vec<bool>, Doubt>
    ensures { IfOk result (Sets (reading_some (view_some e.now)) set.items) }
{
    match e {
        Some(e) => read(alloc, set, e),
        None => Ok(set),
    }
}

/// The same of the items of an initialised aggregate.
pub fn read_items(alloc: Global, set: Vec<bool>, items: &[Setting]) -> Result<Vec<bool>, Doubt>
    ensures { IfOk result (Sets (reading_items (view_settings items.now)) set.items) }
{
    let mut set = set;
    for item in items {
        set = read(alloc, set, &item.value)?;
    }
    Ok(set)
}
