// A plan of which variables hold which values for loops. What it says is nowhere relied on: the walk by it tests each step.

ghost use Rattle.std.specs.Prelude.{◌≡◌, IfOk};

use crate::candidates::{
    clear_flags, has_flag, holds_loop, no_flags, set_flag, stamp, taken_variables, variable_set,
};
use crate::events::{Event, Events, add_events, events_in};
use crate::plan::HoistPlan;
use dae_ir::{Class, Function, Item, NotChanged, Operand, Statement, Test, Value};
use std::alloc::{AllocError, Global};

/// A variable holds a value, for variables of a class.
#[derive(Clone, Copy)]
struct HeldValue {
    variable: u32,
    value: Value,
    class: Class,
}

/// A variable gets what another holds.
#[derive(Clone, Copy)]
struct Substitute {
    variable: u32,
    holder: u32,
}

#[derive(Drop)]
struct Substitutes {
    list: Vec<Substitute>,
}

/// By their numbers: the values and the classes of variables so far, which are taken, which are set before the place in question,
/// and the number of the latest loop that sets them.
#[derive(Drop)]
struct Finding {
    values: Vec<Option<Value>>,
    classes: Vec<Class>,
    taken: Vec<bool>,
    set: Vec<bool>,
    stamps: Vec<u32>,
    loops: u32,
    found: bool,
}

/// In a loop of a number: the variables before it that may hold values, and those that hold one, also from loops around it.
#[derive(Drop)]
struct Search {
    number: u32,
    free: Vec<u32>,
    held: Vec<HeldValue>,
}

/// Of a list as far as it is passed: the free variables directly before the place, and the variables that it sets first.
#[derive(Drop)]
struct PassedList {
    front: Vec<u32>,
    set: Vec<u32>,
}

const NOBODY: Class = Class { a: false, e: false };

fn class_of(classes: &[Class], variable: u32) -> Class {
    match classes.get(variable as usize) {
        Some(class) => *class,
        None => NOBODY,
    }
}

// An operand, as the variable that holds it.
fn written_operand(substitutes: &[Substitute], x: Operand) -> Operand {
    match x {
        Operand::Variable(variable) => {
            let mut written = x;
            for substitute in substitutes {
                if substitute.variable == variable {
                    written = Operand::Variable(substitute.holder);
                }
            }
            written
        }
        Operand::Number(_) => x,
    }
}

fn written_test(substitutes: &[Substitute], test: Test) -> Test {
    Test {
        comparison: test.comparison,
        left: written_operand(substitutes, test.left),
        right: written_operand(substitutes, test.right),
    }
}

fn written_value(substitutes: &[Substitute], value: Value) -> Value {
    match value {
        Value::Same(x) => Value::Same(written_operand(substitutes, x)),
        Value::Extended(kind, x) => Value::Extended(kind, written_operand(substitutes, x)),
        Value::Binary(operator, x, y) => {
            let x = written_operand(substitutes, x);
            let y = written_operand(substitutes, y);
            Value::Binary(operator, x, y)
        }
        Value::Holds(test) => Value::Holds(written_test(substitutes, test)),
        Value::FrameAddress(offset) => Value::FrameAddress(offset),
    }
}

// Whether an operand is set before the loop, and not in it.
fn lasts(finding: &Finding, number: u32, x: Operand) -> bool {
    match x {
        Operand::Variable(variable) => match finding.stamps.get(variable as usize) {
            Some(stamp) => *stamp != number && has_flag(&finding.set, variable),
            None => false,
        },
        Operand::Number(_) => true,
    }
}

// Whether a value is computed of what is set before the loop, and not in it.
fn is_invariant(finding: &Finding, number: u32, value: Value) -> bool {
    match value {
        Value::Same(_) => false,
        Value::Extended(_, x) => lasts(finding, number, x),
        Value::Binary(_, x, y) => lasts(finding, number, x) && lasts(finding, number, y),
        Value::Holds(test) => {
            lasts(finding, number, test.left) && lasts(finding, number, test.right)
        }
        Value::FrameAddress(_) => true,
    }
}

// The variable that holds a value already, for variables of this class.
fn holder_of(held: &[HeldValue], value: Value, class: Class) -> Option<u32> {
    let mut holder = None;
    for one in held {
        if one.value == value && one.class == class {
            holder = Some(one.variable);
        }
    }
    holder
}

// A free variable is to hold a value, if there is one.
fn hold(
    finding: &mut Finding,
    search: &mut Search,
    value: Value,
    class: Class,
) -> Result<Option<u32>, AllocError> {
    match search.free.pop() {
        None => Ok(None),
        Some(variable) => {
            let number = variable as usize;
            if number < finding.values.len() && number < finding.classes.len() {
                finding.values[number] = Some(value);
                finding.classes[number] = class;
                finding.found = true;
                search.held.push(HeldValue {
                    variable,
                    value,
                    class,
                })?;
                Ok(Some(variable))
            } else {
                Ok(None)
            }
        }
    }
}

// A variable is set, and stands for itself again.
fn forget(substitutes: &mut Substitutes, variable: u32) {
    for index in 0..substitutes.list.len() {
        if index < substitutes.list.len() && substitutes.list[index].variable == variable {
            substitutes.list[index] = Substitute {
                variable,
                holder: variable,
            };
        }
    }
}

// A value that is assigned to a variable in the loop.
fn look_at_value(
    finding: &mut Finding,
    search: &mut Search,
    substitutes: &mut Substitutes,
    variable: u32,
    value: Value,
) -> Result<(), AllocError> {
    let value = written_value(&substitutes.list, value);
    forget(substitutes, variable);
    let class = class_of(&finding.classes, variable);
    if class == NOBODY || !is_invariant(finding, search.number, value) {
        return Ok(());
    }
    let holder = match holder_of(&search.held, value, class) {
        Some(holder) => Some(holder),
        None => hold(finding, search, value, class)?,
    };
    if let Some(holder) = holder {
        substitutes.list.push(Substitute { variable, holder })?;
    }
    Ok(())
}

// The values in the lists of a loop. No variable has a substitute at the beginning of a list, nor behind lists in it.
fn look_at_events(
    alloc: Global,
    finding: &mut Finding,
    search: &mut Search,
    events: &[Event],
) -> Result<(), AllocError> {
    let mut substitutes = Substitutes {
        list: Vec::new(alloc),
    };
    for event in events {
        match event {
            Event::Assigned(variable, value) => {
                look_at_value(finding, search, &mut substitutes, *variable, *value)?;
            }
            Event::Set(variable) => forget(&mut substitutes, *variable),
            Event::Parted => substitutes.list.truncate(0),
        }
    }
    Ok(())
}

// The variables that are set in a loop get its number.
fn stamp_events(stamps: &mut Vec<u32>, number: u32, events: &[Event]) {
    for event in events {
        match event {
            Event::Assigned(variable, _) => stamp(stamps, number, *variable),
            Event::Set(variable) => stamp(stamps, number, *variable),
            Event::Parted => {}
        }
    }
}

// The variables that hold values in a loop, those of loops around it too. The free ones are taken from the last one on.
fn find_in_loop(
    alloc: Global,
    finding: &mut Finding,
    events: &Events,
    held: &[HeldValue],
    free: Vec<u32>,
) -> Result<Vec<HeldValue>, AllocError> {
    let events = events_in(events, finding.loops as usize);
    let number = finding.loops.wrapping_add(1);
    finding.loops = number;
    stamp_events(&mut finding.stamps, number, events);
    let mut around = Vec::new(alloc);
    around.extend_from_slice(held)?;
    let mut search = Search {
        number,
        free,
        held: around,
    };
    look_at_events(alloc, finding, &mut search, events)?;
    Ok(search.held)
}

// The other way round.
fn reversed(alloc: Global, variables: &[u32]) -> Result<Vec<u32>, AllocError> {
    let mut out = Vec::new(alloc);
    for index in (0..variables.len()).rev() {
        out.push(variables[index])?;
    }
    Ok(out)
}

// What an item sets is set behind it, in its list; and a variable that is assigned and that nothing takes is free for a loop that
// follows at once.
fn pass_item(
    finding: &mut Finding,
    passed: &mut PassedList,
    item: &Item,
) -> Result<(), AllocError> {
    if let Some(variable) = variable_set(item) {
        if !has_flag(&finding.set, variable) {
            set_flag(&mut finding.set, variable);
            passed.set.push(variable)?;
        }
    }
    match item {
        Item::Assign(variable, _) => {
            if has_flag(&finding.taken, *variable) {
                passed.front.truncate(0);
            } else {
                passed.front.push(*variable)?;
            }
            Ok(())
        }
        _ => {
            passed.front.truncate(0);
            Ok(())
        }
    }
}

#[cycle(find)]
fn find_in_list(
    alloc: Global,
    finding: &mut Finding,
    events: &Events,
    held: &[HeldValue],
    statements: &[Statement],
) -> Result<(), AllocError> {
    let mut passed = PassedList {
        front: Vec::new(alloc),
        set: Vec::new(alloc),
    };
    for statement in statements {
        find_in_statement(alloc, finding, events, held, &mut passed, statement)?;
    }
    clear_flags(&mut finding.set, &passed.set);
    Ok(())
}

#[cycle(find)]
fn find_in_statement(
    alloc: Global,
    finding: &mut Finding,
    events: &Events,
    held: &[HeldValue],
    passed: &mut PassedList,
    statement: &Statement,
) -> Result<(), AllocError> {
    match statement {
        Statement::Simple(_, item) => pass_item(finding, passed, item),
        Statement::If(_, _, yes, no) => {
            passed.front.truncate(0);
            find_in_list(alloc, finding, events, held, yes)?;
            find_in_list(alloc, finding, events, held, no)
        }
        Statement::Loop(_, body, step) => {
            let free = reversed(alloc, &passed.front)?;
            passed.front.truncate(0);
            let inside = find_in_loop(alloc, finding, events, held, free)?;
            find_in_list(alloc, finding, events, &inside, body)?;
            find_in_list(alloc, finding, events, &inside, step)
        }
    }
}

fn no_values(alloc: Global, variables: u32) -> Result<Vec<Option<Value>>, AllocError> {
    let mut values = Vec::with_capacity(alloc, variables as usize)?;
    for _ in 0..variables {
        values.push(None)?;
    }
    Ok(values)
}

fn no_stamps(alloc: Global, variables: u32) -> Result<Vec<u32>, AllocError> {
    let mut stamps = Vec::with_capacity(alloc, variables as usize)?;
    for _ in 0..variables {
        stamps.push(0)?;
    }
    Ok(stamps)
}

fn copied(alloc: Global, row: &[Class]) -> Result<Vec<Class>, AllocError>
    ensures { IfOk result (λ new. new.items ≡ row.now) }
{
    let mut new = Vec::new(alloc);
    new.extend_from_slice(row)?;
    Ok(new)
}

/// The values that variables hold for the loops behind them: each is computed in the loop, of what is set before and not in it. A
/// variable that is to hold one is of the class of the variable that gets it in the loop.
///
/// # Errors
///
/// `Kept` where there is none.
pub fn find_invariants(
    alloc: Global,
    row: &[Class],
    function: &Function,
) -> Result<HoistPlan, NotChanged>
    ensures parameters { IfOk result (λ plan. plan.parameters ≡ function.now.parameters) }
    ensures variables { IfOk result (λ plan. plan.variables ≡ function.now.variables) }
    ensures row { IfOk result (λ plan. plan.row.items ≡ row.now) }
{
    if !holds_loop(function.body.as_slice()) {
        return Err(NotChanged::Kept);
    }
    let mut finding = Finding {
        values: no_values(alloc, function.variables)?,
        classes: copied(alloc, row)?,
        taken: taken_variables(alloc, function)?,
        set: no_flags(alloc, function.variables)?,
        stamps: no_stamps(alloc, function.variables)?,
        loops: 0,
        found: false,
    };
    for parameter in 0..function.parameters {
        set_flag(&mut finding.set, parameter.wrapping_add(1));
    }
    let mut events = Events {
        events: Vec::new(alloc),
        loops: Vec::new(alloc),
    };
    add_events(&mut events, row, function.body.as_slice())?;
    find_in_list(alloc, &mut finding, &events, &[], function.body.as_slice())?;
    if !finding.found {
        return Err(NotChanged::Kept);
    }
    let row = copied(alloc, row)?;
    Ok(HoistPlan {
        parameters: function.parameters,
        variables: function.variables,
        values: finding.values,
        row,
        new_row: finding.classes,
    })
}
