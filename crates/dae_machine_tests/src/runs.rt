//! The worked images, and the words of schedules.

use crate::images::image_in;
use dae_base::{Depths, Queue, Side, Width};
use dae_core::CoreAnswer;
use dae_image::Image;
use dae_machine::{Entry, Machine, Pick, Rest, Schedule, Words};
use dae_rows::{number, part};
use std::alloc::{AllocError, Global};
use std::process::Abort;
use std::test::Fail;

const ONES: Depths = Depths {
    ld: 1,
    al: 1,
    sa: 1,
    sd: 1,
    ab: 1,
    eb: 1,
    cq: 1,
};

/// Up to twenty turns of a schedule, and how the machine rests then.
fn run(machine: &mut Machine, schedule: Schedule) -> Option<Rest> {
    let mut words = Words::of(schedule);
    for _ in 0..20 {
        if machine.taken() < 1_000_000_000_000 {
            let _ = machine.turn(words.next());
        }
    }
    machine.rest()
}

/// A schedule by its name, or that of a seed.
fn schedule_of(name: &str) -> Schedule {
    match name {
        "round" => Schedule::Round,
        "A" => Schedule::A,
        "E" => Schedule::E,
        "fill" => Schedule::Fill,
        "drain" => Schedule::Drain,
        _ => Schedule::Seed(number(name)),
    }
}

fn opened(alloc: Global, image: &Image) -> Result<Box<Machine>, Fail> {
    let machine = Machine::open(alloc, image, ONES)?;
    Ok(Box::new(alloc, machine)?)
}

/// How a run under a schedule rests, its steps, and the bytes from address 16 on.
fn run_of(alloc: Global, machine: &mut Machine, name: &str) -> Result<String, AllocError> {
    let rest = run(machine, schedule_of(name));
    let (steps, memory) = (machine.taken(), machine.memory().get(16..24));
    format!(in alloc; "{rest:?} {steps} {memory:?}")
}

/// How a row's image is run under its schedule.
pub fn run_told(rt: &impl Abort, alloc: Global, row: &str) -> Result<String, Fail> {
    let image = image_in(rt, alloc, part(row, 2), "")?;
    let mut machine = opened(alloc, &image)?;
    Ok(run_of(alloc, &mut machine, part(row, 3))?)
}

/// Why the machine of a row's image isn't opened.
pub fn refusal_told(rt: &impl Abort, alloc: Global, row: &str) -> Result<String, Fail> {
    let image = image_in(rt, alloc, part(row, 2), part(row, 3))?;
    let refusal = Machine::open(alloc, &image, ONES).err();
    Ok(format!(in alloc; "{refusal:?}")?)
}

/// The first two words of a row's schedule.
pub fn words_told(alloc: Global, row: &str) -> Result<String, AllocError> {
    let mut words = Words::of(schedule_of(part(row, 2)));
    let (first, second) = (words.next(), words.next());
    format!(in alloc; "{first} {second}")
}

fn check_step(rt: &impl Abort, machine: &mut Machine, pick: Pick) {
    assert!(rt; machine.enabled(pick) && machine.taken() < 1_000_000_000_000);
    assert!(rt; machine.step(pick).is_empty());
}

fn check_entries(rt: &impl Abort, machine: &Machine) {
    let load = Entry {
        number: 0,
        addr: 20,
        width: Width::B4,
        value: Some(7),
    };
    let store = Entry {
        number: 0,
        addr: 16,
        width: Width::B4,
        value: None,
    };
    for (queue, at, entry) in [
        (Queue::Ld, 0, Some(load)),
        (Queue::Sa, 0, Some(store)),
        (Queue::Sa, 1, None),
    ] {
        assert_eq!(rt; machine.entry(queue, at), entry);
    }
}

/// The machine after a store's address and a load, whose word has come.
fn check_loaded(rt: &impl Abort, machine: &Machine) {
    assert!(rt; !machine.enabled(Pick::Drain));
    assert!(rt; matches!(machine.answer(Side::A), CoreAnswer::Did(_)));
    assert_eq!(rt; machine.counter(Side::A), 8);
    assert_eq!(rt; machine.register(Side::E, 10), 0);
    assert_eq!(rt; (machine.len(Queue::Ld), machine.len(Queue::Sa)), (1, 1));
    check_entries(rt, machine);
    assert_eq!(rt; machine.filling(Side::E, 0), None);
}

#[test]
fn a_load_passes_an_older_store_beside_it(rt: HostRuntime) -> Result<(), Fail> {
    let image = image_in(&rt, rt.alloc(), "adds", "")?;
    let mut machine = opened(rt.alloc(), &image)?;
    check_step(&rt, &mut machine, Pick::A);
    check_step(&rt, &mut machine, Pick::A);
    check_step(&rt, &mut machine, Pick::Fill(Side::E, 0));
    check_loaded(&rt, &machine);
    Ok(())
}
