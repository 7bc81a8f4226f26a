// Images of small forms run as the forms mean, under every schedule, with each depth at its budget.

ghost use Rattle.std.specs.Prelude.{◌≡◌, ◌≤◌, length, IsTrue, IfOk};
ghost use Rattle.std.specs.List.{list_all};
ghost use Rattle.dae_image.specs.Contents.{is_name};
ghost use Rattle.dae_core.specs.Held.{CanHold};

use crate::forms::form_of;
use crate::splits::budget_text;
use dae_base::{Depths, Items, Text};
use dae_image::{Image, LineMark};
use dae_ir::{Ir, Pair, Stream};
use dae_link::{CodeError, link};
use dae_machine::{Machine, Rest, Schedule, Turn, Words};
use dae_regalloc::{allocate, can_number};
use dae_rows::{bytes_of, part, text_of};
use dae_select_walks::Home;
use dae_split_pair::{decouple, is_scoped};
use std::alloc::{AllocError, Global};
use std::test::Fail;

static SCHEDULES: [Schedule; 6] = [
    Schedule::Round,
    Schedule::A,
    Schedule::E,
    Schedule::Fill,
    Schedule::Drain,
    Schedule::Seed(7),
];

fn schedules() -> &'static [Schedule] {
    SCHEDULES.as_slice()
}

// A queue holds an item at least.
fn depths_of(budget: Depths) -> Depths
    ensures { CanHold result }
{
    Depths {
        ld: budget.ld.max(1),
        al: budget.al.max(1),
        sa: budget.sa.max(1),
        sd: budget.sd.max(1),
        ab: budget.ab.max(1),
        eb: budget.eb.max(1),
        cq: budget.cq.max(1),
    }
}

fn fits_machine(ir: &Ir) -> bool
    ensures memory { IsTrue result → ir.now.memory ≡ 4096 }
    ensures frames { IsTrue result → ir.now.frames ≡ 64 }
    ensures some { IsTrue result → 1 ≤ ir.now.calls }
    ensures few { IsTrue result → ir.now.calls ≤ 1000 }
{
    ir.memory == 4096 && ir.frames == 64 && 1 <= ir.calls && ir.calls <= 1000
}

// The name of the one file.
fn names_of(alloc: Global) -> Result<Items<Text>, AllocError>
    ensures few { IfOk result (λ names. length names ≤ 1024) }
    ensures named { IfOk result (λ names. IsTrue (list_all is_name names)) }
{
    let name = Text::from_str(alloc, "a.c")?;
    Ok(Items::from_vec(Vec::from_array(alloc, [name])?))
}

fn boxed<T: Drop>(alloc: Global, value: T) -> Result<Box<T>, AllocError> {
    Ok(Box::new(alloc, value)?)
}

fn boxed_image(
    alloc: Global,
    linked: Result<Image, CodeError>,
) -> Result<Option<Box<Image>>, Fail> {
    let image = linked?;
    Ok(Some(boxed(alloc, image)?))
}

// The image of a form that is well made, where a group has at most four loads for E and as many copies.
fn image_of(alloc: Global, ir: &Ir, content: &[u8]) -> Result<Option<Box<Image>>, Fail> {
    if !is_scoped(ir) || !fits_machine(ir) || content.len() > 64 {
        return Ok(None);
    }
    let content = Items::from_vec(Vec::from_slice(alloc, content)?);
    let names = names_of(alloc)?;
    let made = decouple(alloc, ir, 4)?;
    let linked = link(alloc, &made.pair, made.budget, content, names);
    boxed_image(alloc, linked)
}

// Up to so many turns, whose prints are added.
fn make_turns(
    machine: &mut Machine,
    schedule: Schedule,
    turns: u32,
    out: &mut Vec<u8>,
) -> Result<(), AllocError> {
    let mut words = Words::of(schedule);
    for _ in 0..turns {
        if machine.taken() >= 1_000_000_000_000 {
            break;
        }
        match machine.turn(words.next()) {
            Turn::Stepped(_, piece) => out.extend_from_slice(piece.text().as_bytes())?,
            Turn::Final(_) | Turn::Stuck => break,
        }
    }
    Ok(())
}

// How a run of the image rests after so many turns, whose prints are added.
fn run(
    alloc: Global,
    image: &Image,
    schedule: Schedule,
    turns: u32,
    out: &mut Vec<u8>,
) -> Result<Option<Rest>, Fail> {
    let machine = Machine::open(alloc, image, depths_of(image.budget))?;
    let mut machine = boxed(alloc, machine)?;
    make_turns(&mut machine, schedule, turns, out)?;
    Ok(machine.rest())
}

// How a run of the image under a schedule rests, and what it prints.
fn outcome(alloc: Global, image: &Image, schedule: Schedule) -> Result<String, Fail> {
    let mut out = Vec::new(alloc);
    let rest = run(alloc, image, schedule, 1_000_000, &mut out)?;
    let printed = text_of(alloc, out.as_slice())?;
    Ok(format!(in alloc; "{rest:?} {printed}")?)
}

// Whether a run under each schedule is as it is under the first.
fn is_alike(alloc: Global, image: &Image, due: &str) -> Result<bool, Fail> {
    for schedule in schedules() {
        let other = outcome(alloc, image, *schedule)?;
        if other.as_str() != due {
            return Ok(false);
        }
    }
    Ok(true)
}

// The budget of an image, and how it is run, if that is alike under every schedule.
fn runs_of(alloc: Global, image: &Image) -> Result<String, Fail> {
    let first = outcome(alloc, image, Schedule::Round)?;
    if !is_alike(alloc, image, first.as_str())? {
        return Ok(String::from_str(alloc, "runs differ")?);
    }
    let budget = budget_text(alloc, &image.budget)?;
    Ok(format!(in alloc; "{budget} {first}")?)
}

/// The budget of a row's form, and how its image runs with the row's data.
pub fn runs_told(alloc: Global, row: &str) -> Result<String, Fail> {
    let form = form_of(alloc, part(row, 2))?;
    let content = bytes_of(alloc, part(row, 3))?;
    match image_of(alloc, &form, content.as_slice())? {
        Some(image) => runs_of(alloc, &image),
        None => Ok(String::new(alloc)),
    }
}

// Whether a run of the image is still going after a thousand turns of a schedule, and has printed this letter alone, if any.
fn goes_on_under(
    alloc: Global,
    image: &Image,
    schedule: Schedule,
    letter: Option<u8>,
) -> Result<bool, Fail> {
    let mut out = Vec::new(alloc);
    let rest = run(alloc, image, schedule, 1000, &mut out)?;
    Ok(rest.is_none() && out.is_empty() == letter.is_none() && is_all(out.as_slice(), letter))
}

// Whether all bytes are this letter.
fn is_all(bytes: &[u8], letter: Option<u8>) -> bool {
    for byte in bytes {
        if Some(*byte) != letter {
            return false;
        }
    }
    true
}

fn goes_on_alike(alloc: Global, image: &Image, letter: Option<u8>) -> Result<bool, Fail> {
    for schedule in schedules() {
        if !goes_on_under(alloc, image, *schedule, letter)? {
            return Ok(false);
        }
    }
    Ok(true)
}

/// Whether a row's form goes on under every schedule, and prints the row's letter alone, if it has one.
pub fn going_told(alloc: Global, row: &str) -> Result<String, Fail> {
    let form = form_of(alloc, part(row, 2))?;
    let letter = part(row, 3).as_bytes().first().copied();
    match image_of(alloc, &form, &[])? {
        Some(image) => {
            let goes_on = goes_on_alike(alloc, &image, letter)?;
            Ok(format!(in alloc; "{goes_on}")?)
        }
        None => Ok(String::new(alloc)),
    }
}

fn is_register(home: &Home) -> bool {
    matches!(home, Home::Register(_))
}

// Whether all variables of the stream's first function have registers.
fn is_in_registers(alloc: Global, stream: &Stream) -> Result<bool, AllocError> {
    let Some(function) = stream.functions.as_slice().first() else {
        return Ok(true);
    };
    if !can_number(function.body.as_slice()) {
        return Ok(false);
    }
    let homes = allocate(alloc, function.parameters, function.body.as_slice())?;
    Ok(homes.as_slice().iter().all(is_register))
}

fn both_in_registers(alloc: Global, pair: &Pair) -> Result<bool, AllocError> {
    Ok(is_in_registers(alloc, &pair.a)? && is_in_registers(alloc, &pair.e)?)
}

// Whether all variables of the program's first function have registers, on both sides.
fn are_in_registers(alloc: Global, ir: &Ir) -> Result<bool, AllocError> {
    if !is_scoped(ir) {
        return Ok(false);
    }
    let made = decouple(alloc, ir, 4)?;
    both_in_registers(alloc, &made.pair)
}

/// The same of a row's form.
pub fn registers_told(alloc: Global, row: &str) -> Result<String, AllocError> {
    let form = form_of(alloc, part(row, 2))?;
    let are_all = are_in_registers(alloc, &form)?;
    format!(in alloc; "{are_all}")
}

// Adds a mark: its side, its word, its file and its line.
fn add_mark(alloc: Global, text: &mut String, mark: &LineMark) -> Result<(), AllocError> {
    let (side, word, file, line) = (mark.side, mark.word, mark.file, mark.line);
    let mark = format!(in alloc; " {side:?} {word} {file} {line}")?;
    text.push_str(mark.as_str())
}

fn marks_of(alloc: Global, image: &Image) -> Result<String, AllocError> {
    let mut text = String::new(alloc);
    for mark in image.lines.as_slice() {
        add_mark(alloc, &mut text, mark)?;
    }
    Ok(text)
}

/// The marks of the image of a row's form, one at the first word of the first action of each line. Before the actions of main there are
/// five words of each side; a byte is printed by three words.
pub fn marks_told(alloc: Global, row: &str) -> Result<String, Fail> {
    let form = form_of(alloc, part(row, 2))?;
    match image_of(alloc, &form, &[])? {
        Some(image) => Ok(marks_of(alloc, &image)?),
        None => Ok(String::new(alloc)),
    }
}
