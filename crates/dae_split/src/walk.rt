// The steps of lists of statements, and of the lists inside them.

ghost use Rattle.std.specs.Prelude.{◌≡◌, ◌+◌, ◌-◌, ◌<◌, ◌≤◌, ◌^◌, OnOk, IfOk};
ghost use Rattle.dae_ir.specs.Code.{Done, If, Loop};
ghost use Rattle.dae_ir.specs.Form.{Form, before, form_of};
ghost use Rattle.dae_ir.specs.Classes.{classes_of};
ghost use Rattle.dae_ir.specs.Rounds.{decision};
ghost use Rattle.dae_ir.specs.Streams.{onto};
ghost use Rattle.dae_split.specs.Making.{is_a, lies_outside, CallsFit, Adds, region_message, branch_at};
ghost use Rattle.dae_split.specs.Stretches.{Extends, list_of, rounds_from};

use crate::classes::has_test;
use crate::groups::{at, put};
use crate::items::{add_item, close};
use crate::regions::plan_of;
use crate::work::{Stretch, Task, Zone};
use dae_base::{Items, Side};
use dae_ir::{Action, Branch, Class, Function, Mark, Operand, Statement, Step, Test};
use std::alloc::{AllocError, Global};

// The processor that decides tells the other, but inside of a region.
fn branch(tables: &[Items<Class>], task: Task, zone: Zone, test: Test) -> Branch
    ensures { result
        ≡ branch_at (lies_outside zone) (is_a task.side)
        (decision (classes_of tables.now task.function) test) }
{
    match zone {
        Zone::Region => Branch::Silent(test),
        Zone::Outside => match (task.side, has_test(tables, task.function, test)) {
            (Side::A, true) | (Side::E, false) => Branch::Tells(test),
            (Side::A, false) | (Side::E, true) => Branch::Hears,
        },
    }
}

// A's message behind a region of its own, which E hears.
fn region_message(side: Side) -> Action
    ensures { result ≡ region_message (is_a side) }
{
    match side {
        Side::A => Action::Tell(Operand::Number(0)),
        Side::E => Action::Hear(None),
    }
}

fn put_if(
    steps: &mut Vec<Step>,
    mark: Mark,
    branch: Branch,
    p: Vec<Step>,
    q: Vec<Step>,
) -> Result<(), AllocError>
    ensures { OnOk result
        (Adds (If mark branch (onto p.items Done)
        (onto q.items Done)) steps.old.items steps.new.items) }
{
    steps.push(Step::If(mark, branch, p, q))?;
    Ok(())
}

fn put_loop(
    steps: &mut Vec<Step>,
    mark: Mark,
    body: Vec<Step>,
    step: Vec<Step>,
) -> Result<(), AllocError>
    ensures { OnOk result
        (Adds (Loop mark (onto body.items Done)
        (onto step.items Done)) steps.old.items steps.new.items) }
{
    steps.push(Step::Loop(mark, body, step))?;
    Ok(())
}

#[cycle(walk)]
fn add_statement(
    x: &mut Stretch,
    functions: &[Function],
    tables: &[Items<Class>],
    task: Task,
    zone: Zone,
    statement: &Statement,
) -> Result<(), AllocError>
    requires below { x.old.number < 2 ^ 63 - 1 }
    requires fit { CallsFit functions.now (before statement.now Done) }
    ensures made { OnOk result
        ((k : Form)
        → Extends (lies_outside zone) task tables.now x.old x.new
        (rounds_from zone task tables.now x.new k)
        (rounds_from zone task tables.now x.old (before statement.now k))) }
    ensures number { OnOk result (x.new.number ≤ x.old.number + 1) }
{
    match statement {
        Statement::Simple(place, item) => {
            add_item(x, functions, tables, task, *place, item)?;
            Ok(())
        }
        Statement::If(place, test, p, q) => {
            close(x, tables, task)?;
            let plan = plan_of(tables, task, zone, statement);
            let mark = at(*place, x.number);
            if !plan.stands {
                put(&mut x.steps, plan.tells, mark, region_message(task.side))?;
                return Ok(());
            }
            let first = list(x.alloc, functions, tables, task, plan.zone, p)?;
            let second = list(x.alloc, functions, tables, task, plan.zone, q)?;
            let branch = branch(tables, task, plan.zone, *test);
            put_if(&mut x.steps, mark, branch, first, second)?;
            put(&mut x.steps, plan.tells, mark, region_message(task.side))?;
            Ok(())
        }
        Statement::Loop(place, body, step) => {
            close(x, tables, task)?;
            let plan = plan_of(tables, task, zone, statement);
            let mark = at(*place, x.number);
            if !plan.stands {
                put(&mut x.steps, plan.tells, mark, region_message(task.side))?;
                return Ok(());
            }
            let first = list(x.alloc, functions, tables, task, plan.zone, body)?;
            let second = list(x.alloc, functions, tables, task, plan.zone, step)?;
            put_loop(&mut x.steps, mark, first, second)?;
            put(&mut x.steps, plan.tells, mark, region_message(task.side))?;
            Ok(())
        }
    }
}

/// What a side does of a list of statements, outside of regions or inside.
#[cycle(walk)]
pub fn list(
    alloc: Global,
    functions: &[Function],
    tables: &[Items<Class>],
    task: Task,
    zone: Zone,
    body: &[Statement],
) -> Result<Vec<Step>, AllocError>
    requires fit { CallsFit functions.now (form_of body.now) }
    ensures { IfOk result
        (λ steps. onto steps.items Done
        ≡ list_of zone task tables.now (form_of body.now)) }
{
    let steps = Vec::with_capacity(alloc, body.len())?;
    let mut x = Stretch {
        alloc,
        steps,
        group: Vec::new(alloc),
        number: 0,
    };
    for statement in body {
        add_statement(&mut x, functions, tables, task, zone, statement)?;
    }
    close(&mut x, tables, task)?;
    Ok(x.steps)
}
