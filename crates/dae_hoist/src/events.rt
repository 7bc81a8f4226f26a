// What a search for values in loops meets, in the order of the text: so that a loop's part of it is gone through, and not the whole
// code in the loop.

use crate::candidates::variable_set;
use dae_ir::{Class, Item, Statement, Value};
use std::alloc::AllocError;

/// A variable that a processor needs is assigned a value, or is set in another way; or a list begins or ends.
#[derive(Clone, Copy)]
pub enum Event {
    Assigned(u32, Value),
    Set(u32),
    Parted,
}

/// A loop's part of the events: from the first one up to the end.
#[derive(Clone, Copy)]
pub struct LoopPart {
    pub first: usize,
    pub end: usize,
}

/// The events of a function, and the parts of its loops, both in the order of the text.
#[derive(Drop)]
pub struct Events {
    pub events: Vec<Event>,
    pub loops: Vec<LoopPart>,
}

fn is_needed(classes: &[Class], variable: u32) -> bool {
    match classes.get(variable as usize) {
        Some(class) => class.a || class.e,
        None => false,
    }
}

fn ends_parted(events: &[Event]) -> bool {
    match events.last() {
        Some(event) => matches!(event, Event::Parted),
        None => false,
    }
}

// A list begins or ends, unless one does so already.
fn part_lists(events: &mut Events) -> Result<(), AllocError> {
    if !ends_parted(&events.events) {
        events.events.push(Event::Parted)?;
    }
    Ok(())
}

fn add_item(events: &mut Events, classes: &[Class], item: &Item) -> Result<(), AllocError> {
    if let Some(variable) = variable_set(item) {
        if is_needed(classes, variable) {
            let event = match item {
                Item::Assign(_, value) => Event::Assigned(variable, *value),
                _ => Event::Set(variable),
            };
            events.events.push(event)?;
        }
    }
    Ok(())
}

/// The events of statements come behind others.
#[cycle(events)]
pub fn add_events(
    events: &mut Events,
    classes: &[Class],
    statements: &[Statement],
) -> Result<(), AllocError> {
    for statement in statements {
        add_events_of(events, classes, statement)?;
    }
    Ok(())
}

#[cycle(events)]
fn add_events_of(
    events: &mut Events,
    classes: &[Class],
    statement: &Statement,
) -> Result<(), AllocError> {
    match statement {
        Statement::Simple(_, item) => add_item(events, classes, item),
        Statement::If(_, _, yes, no) => {
            part_lists(events)?;
            add_events(events, classes, yes)?;
            part_lists(events)?;
            add_events(events, classes, no)?;
            part_lists(events)
        }
        Statement::Loop(_, body, step) => {
            part_lists(events)?;
            let number = events.loops.len();
            let first = events.events.len();
            events.loops.push(LoopPart { first, end: first })?;
            add_events(events, classes, body)?;
            part_lists(events)?;
            add_events(events, classes, step)?;
            part_lists(events)?;
            let end = events.events.len();
            if number < events.loops.len() {
                events.loops[number] = LoopPart { first, end };
            }
            Ok(())
        }
    }
}

/// The events in a loop, by the number of the loop.
pub fn events_in(events: &Events, number: usize) -> &[Event] {
    match events.loops.get(number) {
        Some(part) => {
            if part.first <= part.end && part.end <= events.events.len() {
                &events.events[part.first..part.end]
            } else {
                &[]
            }
        }
        None => &[],
    }
}
