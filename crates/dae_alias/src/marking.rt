// The first walk: which loads later ones of their stretch repeat.

ghost use Rattle.std.specs.Prelude.{OnOk, IfOk};
ghost use Rattle.dae_base.specs.declared.Place.{Place};
ghost use Rattle.dae_alias.specs.Marking.{IsAt, Marks, MarksAll, AreRepeated};
ghost use Rattle.dae_alias.specs.Meeting.{known_in};
ghost use Rattle.dae_alias.specs.Stretches.{IsSetSeldom};
ghost use Rattle.dae_ir.specs.declared.form.Statement.TheVariants.{Simple};
ghost use Rattle.dae_ir.specs.declared.form.Item.TheVariants as item;

use crate::walking::{Walk, begin_again, meet, pass, start};
use dae_base::LoadKind;
use dae_ir::{Item, Operand, Statement};
use std::alloc::{AllocError, Global};

fn mark_load(
    alloc: Global,
    marks: &mut Vec<bool>,
    walk: &mut Walk,
    variable: u32,
    kind: LoadKind,
    x: Operand,
) -> Result<(), AllocError>
    requires at { IsAt walk.old marks.old.items }
    requires seldom { IsSetSeldom (known_in walk.old) }
    ensures { OnOk result
        ((place : Place)
        → Marks (Simple place (item.Load variable kind x)) walk.old walk.new marks.old.items
        marks.new.items) }
{
    let given = meet(alloc, walk, variable, kind, x)?;
    if let Some(earlier) = given {
        marks[earlier.number] = true;
    }
    marks.push(false)?;
    Ok(())
}

fn mark_item(
    alloc: Global,
    marks: &mut Vec<bool>,
    walk: &mut Walk,
    item: &Item,
) -> Result<(), AllocError>
    requires at { IsAt walk.old marks.old.items }
    requires seldom { IsSetSeldom (known_in walk.old) }
    ensures { OnOk result
        ((place : Place)
        → Marks (Simple place item.now) walk.old walk.new marks.old.items marks.new.items) }
{
    if let Item::Load(variable, kind, x) = item {
        return mark_load(alloc, marks, walk, *variable, *kind, *x);
    }
    pass(alloc, walk, item)?;
    Ok(())
}

// Behind the marks of the loads before it.
#[cycle(mark)]
fn mark_statements(
    alloc: Global,
    marks: &mut Vec<bool>,
    statements: &[Statement],
) -> Result<(), AllocError>
    ensures { OnOk result (MarksAll statements.now marks.old.items marks.new.items) }
{
    let mut walk = start(alloc, marks.len());
    for statement in statements {
        mark_statement(alloc, marks, &mut walk, statement)?;
    }
    Ok(())
}

#[cycle(mark)]
fn mark_statement(
    alloc: Global,
    marks: &mut Vec<bool>,
    walk: &mut Walk,
    statement: &Statement,
) -> Result<(), AllocError>
    requires at { IsAt walk.old marks.old.items }
    requires seldom { IsSetSeldom (known_in walk.old) }
    ensures { OnOk result
        (Marks statement.now walk.old walk.new marks.old.items marks.new.items) }
{
    match statement {
        Statement::Simple(_, item) => {
            mark_item(alloc, marks, walk, item)?;
            Ok(())
        }
        Statement::If(_, _, first, second) | Statement::Loop(_, first, second) => {
            mark_statements(alloc, marks, first)?;
            mark_statements(alloc, marks, second)?;
            begin_again(walk);
            walk.loads = marks.len();
            Ok(())
        }
    }
}

/// For each load, in the order of the text, whether a later one of its stretch repeats it.
pub fn mark_repeated(alloc: Global, statements: &[Statement]) -> Result<Vec<bool>, AllocError>
    ensures { IfOk result (λ marks. AreRepeated statements.now marks.items) }
{
    let mut marks = Vec::new(alloc);
    mark_statements(alloc, &mut marks, statements)?;
    Ok(marks)
}
