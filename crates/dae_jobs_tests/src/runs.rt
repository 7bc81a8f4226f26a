//! Timed runs of images: how they end, what each of their ticks picks and what they print.

use crate::images::{depths_of, image_of};
use dae_base::{Queue, Side};
use dae_cli_options::Costs;
use dae_image::Image;
use dae_rows::{part, word_in};
use dae_timing::{Tick, TickState, Timed};
use std::alloc::{AllocError, Global};
use std::process::Abort;
use std::test::Fail;

fn small_in(text: &str, at: usize) -> u16 {
    word_in(text, at).parse::<u16>().unwrap_or(0)
}

/// The costs that words 1 to 3 of a text spell: of loads, products and quotients, each 1 to 1,000.
fn costs_in(rt: &impl Abort, text: &str) -> Costs {
    let (load, mul, div) = (small_in(text, 1), small_in(text, 2), small_in(text, 3));
    assert!(rt; load >= 1 && load <= 1000);
    assert!(rt; mul >= 1 && mul <= 1000);
    assert!(rt; div >= 1 && div <= 1000);
    Costs { load, mul, div }
}

/// The machine of this image before its first tick. A text spells the depth of each queue and the costs.
fn opened(
    rt: &impl Abort,
    alloc: Global,
    image: &Image,
    text: &str,
) -> Result<Box<Timed>, AllocError> {
    let depth = small_in(text, 0);
    assert!(rt; depth >= 1);
    match Timed::open(alloc, image, depths_of(depth), costs_in(rt, text)) {
        Ok(timed) => Ok(Box::new(alloc, timed)?),
        Err(_) => panic!(rt; "not opened"),
    }
}

/// The machine of a row's image before its first tick.
fn opened_of(rt: &impl Abort, alloc: Global, row: &str) -> Result<Box<Timed>, Fail> {
    let image = image_of(rt, alloc, part(row, 2))?;
    Ok(opened(rt, alloc, &image, part(row, 3))?)
}

/// The most ticks that a row states.
fn most_ticks(row: &str) -> u64 {
    u64::from(small_in(part(row, 3), 4))
}

fn tick_of(rt: &impl Abort, timed: &mut Timed) -> Tick {
    assert!(rt; timed.ticks() < 100_000_000_000);
    timed.tick()
}

/// Makes so many ticks at most, and tells what the last one came to.
fn make_ticks(rt: &impl Abort, timed: &mut Timed, most: u64) -> TickState {
    for _ in 0..most {
        let state = tick_of(rt, timed).state;
        if state != TickState::Going {
            return state;
        }
    }
    TickState::Going
}

/// In how many ticks A waited for each queue.
fn waits_of_a(timed: &Timed) -> [u64; 6] {
    [
        timed.waits(Side::A, Queue::Ld),
        timed.waits(Side::A, Queue::Al),
        timed.waits(Side::A, Queue::Sa),
        timed.waits(Side::A, Queue::Ab),
        timed.waits(Side::A, Queue::Eb),
        timed.waits(Side::A, Queue::Cq),
    ]
}

/// In how many ticks E waited for each queue.
fn waits_of_e(timed: &Timed) -> [u64; 5] {
    [
        timed.waits(Side::E, Queue::Ld),
        timed.waits(Side::E, Queue::Sd),
        timed.waits(Side::E, Queue::Ab),
        timed.waits(Side::E, Queue::Eb),
        timed.waits(Side::E, Queue::Cq),
    ]
}

/// How a run is told where its last tick came to this.
fn told_at(alloc: Global, timed: &Timed, state: TickState) -> Result<String, AllocError> {
    let (steps, ticks) = (timed.machine().taken(), timed.ticks());
    let (a, e) = (waits_of_a(timed), waits_of_e(timed));
    format!(in alloc; "{state:?} {steps} {ticks} {a:?} {e:?}")
}

/// How the run of a row ends, or that it goes on behind its ticks.
pub fn run_told(rt: &impl Abort, alloc: Global, row: &str) -> Result<String, Fail> {
    let mut timed = opened_of(rt, alloc, row)?;
    let state = make_ticks(rt, &mut timed, most_ticks(row));
    Ok(told_at(alloc, &timed, state)?)
}

/// Adds the picks of a tick: the drain, the fill of al, that of ld, the step of E and that of A.
fn add_picks(
    rt: &impl Abort,
    alloc: Global,
    timed: &mut Timed,
    text: &mut String,
) -> Result<(), AllocError> {
    let tick = tick_of(rt, timed);
    let picks = [tick.drain, tick.fill_a, tick.fill_e, tick.e, tick.a];
    let line = format!(in alloc; "{picks:?}\n")?;
    text.push_str(line.as_str())
}

fn add_all_picks(
    rt: &impl Abort,
    alloc: Global,
    timed: &mut Timed,
    most: u64,
    text: &mut String,
) -> Result<(), AllocError> {
    for _ in 0..most {
        add_picks(rt, alloc, timed, text)?;
    }
    Ok(())
}

/// What each tick of a row picks, a line a tick.
pub fn picks_told(rt: &impl Abort, alloc: Global, row: &str) -> Result<String, Fail> {
    let mut timed = opened_of(rt, alloc, row)?;
    let mut text = String::new(alloc);
    add_all_picks(rt, alloc, &mut timed, most_ticks(row), &mut text)?;
    Ok(text)
}

/// Adds what so many ticks print.
fn add_prints(
    rt: &impl Abort,
    timed: &mut Timed,
    most: u64,
    text: &mut String,
) -> Result<(), AllocError> {
    for _ in 0..most {
        let tick = tick_of(rt, timed);
        text.push_str(std::str::from_utf8(tick.piece.text().as_bytes()).unwrap_or("?"))?;
    }
    Ok(())
}

/// What the ticks of a row print.
pub fn prints_told(rt: &impl Abort, alloc: Global, row: &str) -> Result<String, Fail> {
    let mut timed = opened_of(rt, alloc, row)?;
    let mut text = String::new(alloc);
    add_prints(rt, &mut timed, most_ticks(row), &mut text)?;
    Ok(text)
}

/// Why the machine of a row isn't opened.
pub fn refusal_told(rt: &impl Abort, alloc: Global, row: &str) -> Result<String, Fail> {
    let image = image_of(rt, alloc, part(row, 2))?;
    let refusal = Timed::open(alloc, &image, depths_of(1), costs_in(rt, part(row, 3))).err();
    Ok(format!(in alloc; "{refusal:?}")?)
}
