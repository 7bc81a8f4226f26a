//! The lines of runs under schedules, traces, and lines that name a pick or none.

use crate::images::{depths_of, image_of};
use dae_image::Image;
use dae_machine::{Machine, Schedule, Words};
use dae_rows::{number, part, text_of, told};
use dae_trace::{check, line, read_line};
use std::alloc::{AllocError, Global};
use std::process::Abort;
use std::test::Fail;

/// Adds the lines of up to twenty turns, one behind the other.
fn add_lines(
    machine: &mut Machine,
    schedule: Schedule,
    text: &mut Vec<u8>,
) -> Result<(), AllocError> {
    let mut words = Words::of(schedule);
    for _ in 0..20 {
        let Some(pick) = machine.pick(words.next()) else {
            break;
        };
        if machine.taken() >= 1_000_000_000_000 {
            break;
        }
        text.extend_from_slice(line(machine, pick).as_bytes())?;
        let _ = machine.step(pick);
    }
    Ok(())
}

/// A schedule by its name, or that of a seed.
fn schedule_of(name: &str) -> Schedule {
    match name {
        "round" => Schedule::Round,
        "fill" => Schedule::Fill,
        "drain" => Schedule::Drain,
        _ => Schedule::Seed(number(name)),
    }
}

/// The machine of an image before its first step.
fn opened(alloc: Global, image: &Image) -> Result<Box<Machine>, Fail> {
    let machine = Machine::open(alloc, image, depths_of(1))?;
    Ok(Box::new(alloc, machine)?)
}

/// The lines of a row's image under its schedule.
pub fn lines_told(rt: &impl Abort, alloc: Global, row: &str) -> Result<String, Fail> {
    let image = image_of(rt, alloc, part(row, 2))?;
    let mut machine = opened(alloc, &image)?;
    let mut text = Vec::new(alloc);
    add_lines(&mut machine, schedule_of(part(row, 3)), &mut text)?;
    Ok(text_of(alloc, text.as_slice())?)
}

/// The pick that a row's line names, if it names one.
pub fn name_told(alloc: Global, row: &str) -> Result<String, AllocError> {
    let text = told(alloc, part(row, 2))?;
    let found = read_line(text.as_slice());
    format!(in alloc; "{found:?}")
}

/// What a row's trace is of its image.
pub fn trace_told(rt: &impl Abort, alloc: Global, row: &str) -> Result<String, Fail> {
    let image = image_of(rt, alloc, part(row, 2))?;
    let trace = told(alloc, part(row, 3))?;
    assert!(rt; trace.len() <= 200);
    let found = check(alloc, &image, depths_of(1), trace.as_slice());
    Ok(format!(in alloc; "{found:?}")?)
}
