// What each side does of a group.

ghost use Rattle.std.specs.Prelude.{◌≡◌, ℕ, OnOk};
ghost use Rattle.dae_ir.specs.Classes.{classes_of};
ghost use Rattle.dae_ir.specs.Streams.{Actions, mark, when, a_part, e_part, parts, message, gives_address, hears_check, e_last, a_group, e_group, group_of, only_fails_by, part_fails_by, all_fail_by, only_failure, hears_group};
ghost use Rattle.dae_ir.specs.declared.stream.Action.{Action};
ghost use Rattle.dae_split.specs.Making.{is_a, Adds, message_at};

use crate::classes::class;
use crate::work::Task;
use dae_base::{Items, Place, Side, Width};
use dae_ir::{Action, Check, Class, Failure, Last, Mark, Operand, Part, Step};
use std::alloc::AllocError;

/// Appends an action, where the flag says so.
pub fn put(steps: &mut Vec<Step>, flag: bool, mark: Mark, action: Action) -> Result<(), AllocError>
    ensures { OnOk result (Adds (when flag mark action) steps.old.items steps.new.items) }
{
    if flag {
        steps.push(Step::Act(mark, action))?;
    }
    Ok(())
}

/// The mark of an action behind so many groups.
pub fn at(place: Place, number: u64) -> Mark
    ensures { result ≡ mark place number }
{
    Mark {
        place,
        group: number,
    }
}

fn put_a_part(
    steps: &mut Vec<Step>,
    tables: &[Items<Class>],
    function: usize,
    number: u64,
    part: Part,
) -> Result<(), AllocError>
    ensures { OnOk result
        (Adds (a_part
        (classes_of tables.now function) number part) steps.old.items steps.new.items) }
{
    match part {
        Part::Sets(place, v, value) => {
            let class = class(tables, function, v);
            let mark = at(place, number);
            put(steps, class.a, mark, Action::Set(v, value))?;
            put(steps, class.a && class.e, mark, Action::Offer(v))
        }
        Part::Loads(place, v, kind, address) => {
            let class = class(tables, function, v);
            let mark = at(place, number);
            let issue = Action::Issue(kind, address);
            put(steps, !class.a && class.e, mark, issue)?;
            put(steps, class.a, mark, Action::Own(v, kind, address))?;
            put(steps, class.a && class.e, mark, Action::Offer(v))
        }
        Part::Tests(place, check) => put(steps, true, at(place, number), Action::Probe(check)),
    }
}

fn put_e_part(
    steps: &mut Vec<Step>,
    tables: &[Items<Class>],
    function: usize,
    number: u64,
    part: Part,
) -> Result<(), AllocError>
    ensures { OnOk result
        (Adds (e_part
        (classes_of tables.now function) number part) steps.old.items steps.new.items) }
{
    match part {
        Part::Sets(place, v, value) => {
            let class = class(tables, function, v);
            let mark = at(place, number);
            put(steps, class.a && class.e, mark, Action::Accept(v))?;
            put(steps, !class.a && class.e, mark, Action::Set(v, value))
        }
        Part::Loads(place, v, _, _) => {
            let class = class(tables, function, v);
            let mark = at(place, number);
            put(steps, class.a && class.e, mark, Action::Accept(v))?;
            put(steps, !class.a && class.e, mark, Action::Receive(v))
        }
        Part::Tests(..) => Ok(()),
    }
}

fn put_a_parts(
    steps: &mut Vec<Step>,
    tables: &[Items<Class>],
    function: usize,
    number: u64,
    group: &[Part],
) -> Result<(), AllocError>
    ensures { OnOk result
        (Adds (parts
        (a_part
        (classes_of tables.now function) number) group.now) steps.old.items steps.new.items) }
{
    for part in group {
        put_a_part(steps, tables, function, number, *part)?;
    }
    Ok(())
}

fn put_e_parts(
    steps: &mut Vec<Step>,
    tables: &[Items<Class>],
    function: usize,
    number: u64,
    group: &[Part],
) -> Result<(), AllocError>
    ensures { OnOk result
        (Adds (parts
        (e_part
        (classes_of tables.now function) number) group.now) steps.old.items steps.new.items) }
{
    for part in group {
        put_e_part(steps, tables, function, number, *part)?;
    }
    Ok(())
}

fn first_check(group: &[Part]) -> Option<Place>
    ensures { (number : ℕ) (x : Action) (k : Actions)
        → message number x group.now k ≡ message_at result number x k }
{
    for part in group {
        if let Part::Tests(place, _) = part {
            return Some(*place);
        }
    }
    None
}

fn only_fails_by(failure: Failure, check: Check) -> bool
    ensures { result ≡ only_fails_by failure check }
{
    match failure {
        Failure::OutOfBounds => match check {
            Check::Place(width, _) => matches!(width, Width::B1),
            Check::InBounds(..) => true,
            Check::Zero(_) | Check::Room(_) | Check::Frame | Check::Abort => false,
        },
        Failure::OutOfRoom => match check {
            Check::Room(_) | Check::Frame => true,
            Check::Place(..) | Check::InBounds(..) | Check::Zero(_) | Check::Abort => false,
        },
    }
}

fn part_fails_by(failure: Failure, part: Part) -> bool
    ensures { result ≡ part_fails_by failure part }
{
    match part {
        Part::Sets(..) | Part::Loads(..) => true,
        Part::Tests(_, check) => only_fails_by(failure, check),
    }
}

fn all_fail_by(failure: Failure, group: &[Part]) -> bool
    ensures { result ≡ all_fail_by failure group.now }
{
    for part in group {
        if !part_fails_by(failure, *part) {
            return false;
        }
    }
    true
}

/// How the checks of a group can fail, where that is in one way alone.
fn only_failure(group: &[Part]) -> Option<Failure>
    ensures { result ≡ only_failure group.now }
{
    if all_fail_by(Failure::OutOfBounds, group) {
        Some(Failure::OutOfBounds)
    } else if all_fail_by(Failure::OutOfRoom, group) {
        Some(Failure::OutOfRoom)
    } else {
        None
    }
}

fn put_message(
    steps: &mut Vec<Step>,
    number: u64,
    action: Action,
    group: &[Part],
) -> Result<(), AllocError>
    ensures { OnOk result (Adds (message number action group.now) steps.old.items steps.new.items) }
{
    match first_check(group) {
        Some(place) => put(steps, true, at(place, number), action),
        None => Ok(()),
    }
}

fn put_group_hear(steps: &mut Vec<Step>, number: u64, group: &[Part]) -> Result<(), AllocError>
    ensures { OnOk result (Adds (hears_group number group.now) steps.old.items steps.new.items) }
{
    let action = Action::Hear(only_failure(group));
    put_message(steps, number, action, group)
}

fn put_address(steps: &mut Vec<Step>, number: u64, last: Last) -> Result<(), AllocError>
    ensures { OnOk result (Adds (gives_address number last) steps.old.items steps.new.items) }
{
    match last {
        Last::Stores(place, width, address, _) => {
            put(
                steps,
                true,
                at(place, number),
                Action::Address(width, address),
            )
        }
        Last::Nothing | Last::Prints(..) | Last::Decides(..) => Ok(()),
    }
}

fn put_hear(steps: &mut Vec<Step>, number: u64, last: Last) -> Result<(), AllocError>
    ensures { OnOk result (Adds (hears_check number last) steps.old.items steps.new.items) }
{
    match last {
        Last::Decides(place, _) => put(steps, true, at(place, number), Action::Hear(None)),
        Last::Nothing | Last::Stores(..) | Last::Prints(..) => Ok(()),
    }
}

fn put_e_last(steps: &mut Vec<Step>, number: u64, last: Last) -> Result<(), AllocError>
    ensures { OnOk result (Adds (e_last number last) steps.old.items steps.new.items) }
{
    match last {
        Last::Nothing => Ok(()),
        Last::Stores(place, _, _, datum) => put(
            steps,
            true,
            at(place, number),
            Action::Datum(datum),
        ),
        Last::Prints(place, spelling, operand) => {
            put(
                steps,
                true,
                at(place, number),
                Action::Emit(spelling, operand),
            )
        }
        Last::Decides(place, check) => {
            let mark = at(place, number);
            put(steps, true, mark, Action::Probe(check))?;
            put(steps, true, mark, Action::Tell(Operand::Number(0)))
        }
    }
}

fn put_a_group(
    steps: &mut Vec<Step>,
    tables: &[Items<Class>],
    function: usize,
    number: u64,
    group: &[Part],
    last: Last,
) -> Result<(), AllocError>
    ensures { OnOk result
        (Adds (a_group
        (classes_of tables.now function) number group.now last) steps.old.items steps.new.items) }
{
    put_a_parts(steps, tables, function, number, group)?;
    put_address(steps, number, last)?;
    put_message(steps, number, Action::Tell(Operand::Number(0)), group)?;
    put_hear(steps, number, last)
}

fn put_e_group(
    steps: &mut Vec<Step>,
    tables: &[Items<Class>],
    function: usize,
    number: u64,
    group: &[Part],
    last: Last,
) -> Result<(), AllocError>
    ensures { OnOk result
        (Adds (e_group
        (classes_of tables.now function) number group.now last) steps.old.items steps.new.items) }
{
    put_group_hear(steps, number, group)?;
    put_e_parts(steps, tables, function, number, group)?;
    put_e_last(steps, number, last)
}

/// Appends what the side does of the group that comes behind so many others.
pub fn put_group(
    steps: &mut Vec<Step>,
    tables: &[Items<Class>],
    task: Task,
    number: u64,
    group: &[Part],
    last: Last,
) -> Result<(), AllocError>
    ensures { OnOk result
        (Adds (group_of (is_a task.side)
        (classes_of tables.now task.function) number group.now last) steps.old.items
        steps.new.items) }
{
    match task.side {
        Side::A => put_a_group(steps, tables, task.function, number, group, last),
        Side::E => put_e_group(steps, tables, task.function, number, group, last),
    }
}
