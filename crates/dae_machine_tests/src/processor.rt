//! What the environment call prints, and how a processor halts, waits and faults.

ghost use Rattle.dae_core.specs.Queues.{empty_queues, ready};
ghost use Rattle.std.specs.Prelude.{None, refl};

use dae_base::{Depths, LoadKind, Queue, Side, Width};
use dae_core::{Core, CoreAnswer, Fault, Halt, Ports, Queues, load, store};
use dae_encode::QueueUse;
use std::alloc::{AllocError, Global};
use std::process::Abort;

/// No queues at all.
#[derive(Drop)]
struct NoQueues;

impl Ports for NoQueues {
    ghost is_ready = { λ q access. ready (record { ld = 0; al = 0; sa = 0; sd = 0; ab = 0; eb = 0; cq = 0 }) access empty_queues };

    ghost front = { λ q queue. None };

    ghost after = { λ q access word. q };

    ghost can_count = { λ q. Unit };

    ghost take_uses_no_word = { λ q queue v w. refl };

    ghost nothing_is_ready = { λ q. refl };

    ghost nothing_changes = { λ q w. refl };

    fn offer(&self, access: QueueUse) -> Option<u32> {
        match access {
            QueueUse::Nothing => Some(0),
            _ => None,
        }
    }

    fn commit(&mut self, _access: QueueUse, _word: u32) {}
}

fn has_printed(answer: &CoreAnswer, text: &[u8]) -> bool {
    match answer {
        CoreAnswer::Did(piece) => piece.text().as_bytes() == text,
        _ => false,
    }
}

/// A processor of the side E at the first word of the code.
fn opened(alloc: Global, code: &[u32]) -> Result<Box<Core>, AllocError> {
    let core = Core::open(alloc, Side::E, 0, 0, false, code)?;
    Ok(Box::new(alloc, core)?)
}

fn step(core: &mut Core) -> CoreAnswer {
    core.step(64, &mut NoQueues)
}

fn look(core: &Core) -> CoreAnswer {
    core.look(64, &NoQueues)
}

/// Each of five steps prints nothing, but the third prints the text.
fn check_steps(rt: &impl Abort, core: &mut Core, text: &[u8]) {
    for at in 0..5 {
        let answer = step(core);
        assert!(rt; has_printed(&answer, if at == 2 { text } else { b"" }));
    }
}

/// The call that ends a run has done so with the number -7.
fn check_end(rt: &impl Abort, core: &mut Core) {
    assert_eq!(rt; core.register(10), 0xFFFF_FFF9);
    assert_eq!(rt; core.counter(), 20);
    assert_eq!(rt; core.halted(), Some(Halt::Status(0xFFFF_FFF9)));
    assert!(rt; matches!(step(core), CoreAnswer::Halted));
}

/// A call by the selector prints the text for the number -7, and the call after it ends the run with that number.
fn check_call(rt: &impl Abort, alloc: Global, selector: u8, text: &[u8]) -> Result<(), AllocError> {
    // addi x17, x0, selector; addi x10, x0, -7; ecall; addi x17, x0, 0; ecall
    let code = [
        0x0000_0893 + u32::from(selector) * 0x0010_0000,
        0xFF90_0513,
        0x0000_0073,
        0x0000_0893,
        0x0000_0073,
    ];
    let mut core = opened(alloc, &code)?;
    check_steps(rt, &mut core, text);
    check_end(rt, &mut core);
    Ok(())
}

#[test]
fn calls_print_and_halt(rt: HostRuntime) -> Result<(), AllocError> {
    check_call(&rt, rt.alloc(), 1, &[249])?;
    check_call(&rt, rt.alloc(), 2, b"-7")?;
    check_call(&rt, rt.alloc(), 3, b"4294967289")?;
    check_call(&rt, rt.alloc(), 4, b"fffffff9")
}

/// The word faults so, or waits for the queue of loaded words.
fn check_look(
    rt: &impl Abort,
    alloc: Global,
    word: u32,
    fault: Option<Fault>,
) -> Result<(), AllocError> {
    let core = opened(alloc, &[word])?;
    match (look(&core), fault) {
        (CoreAnswer::Faulted(found), Some(wanted)) => assert_eq!(rt; found, wanted),
        (CoreAnswer::Waits(queue), None) => assert_eq!(rt; queue, Queue::Ld),
        _ => assert!(rt; false),
    }
    Ok(())
}

/// A counter behind the code's last word is no place of an instruction.
fn check_look_behind(rt: &impl Abort, alloc: Global) -> Result<(), AllocError> {
    let core = Core::open(alloc, Side::A, 4, 0, false, &[0x73])?;
    assert!(rt; matches!(look(&core), CoreAnswer::Faulted(Fault::BadPc)));
    Ok(())
}

#[test]
fn a_fault_comes_before_a_wait(rt: HostRuntime) -> Result<(), AllocError> {
    // addi x1, x30, 0; sw x30, 0(x0); lw x1, 0(x30); add x1, x30, x29; fence.i
    check_look(&rt, rt.alloc(), 0x000F_0093, None)?;
    check_look(&rt, rt.alloc(), 0x01E0_2023, Some(Fault::Private))?;
    check_look(&rt, rt.alloc(), 0x000F_2083, None)?;
    check_look(&rt, rt.alloc(), 0x01DF_00B3, Some(Fault::Illegal))?;
    check_look(&rt, rt.alloc(), 0x0000_100F, Some(Fault::Illegal))?;
    check_look_behind(&rt, rt.alloc())
}

const ONES: Depths = Depths {
    ld: 1,
    al: 1,
    sa: 1,
    sd: 1,
    ab: 1,
    eb: 1,
    cq: 1,
};

const PUSH: QueueUse = QueueUse::Push(Queue::Ab);

/// Queues with a message, if there is room for it.
fn with_message(alloc: Global, word: u32) -> Result<Queues, AllocError> {
    let mut queues = Queues::with_depths(alloc, ONES)?;
    if queues.offer(PUSH).is_some() {
        queues.commit(PUSH, word);
    }
    Ok(queues)
}

fn check_offers(rt: &impl Abort, queues: &Queues, rows: &[(QueueUse, Option<u32>)]) {
    for (access, word) in rows {
        assert_eq!(rt; queues.offer(*access), *word);
    }
}

const TAKE: QueueUse = QueueUse::Take(Queue::Ab);

/// Queues without a message take one, and give none.
fn check_without_message(rt: &impl Abort, alloc: Global) -> Result<(), AllocError> {
    let queues = Queues::with_depths(alloc, ONES)?;
    let queues = Box::new(alloc, queues)?;
    check_offers(rt, &queues, &[(PUSH, Some(0)), (TAKE, None)]);
    Ok(())
}

/// Queues with a message give it, and take no other.
fn check_with_message(rt: &impl Abort, alloc: Global) -> Result<(), AllocError> {
    let queues = with_message(alloc, 5)?;
    let queues = Box::new(alloc, queues)?;
    let other = QueueUse::Push(Queue::Ld);
    check_offers(rt, &queues, &[(PUSH, None), (TAKE, Some(5)), (other, None)]);
    Ok(())
}

#[test]
fn a_message_waits_to_be_taken(rt: HostRuntime) -> Result<(), AllocError> {
    check_without_message(&rt, rt.alloc())?;
    check_with_message(&rt, rt.alloc())
}

#[test]
fn memories_are_little_endian(rt: HostRuntime) {
    let mut memory = [0x44, 0x33, 0x22, 0x11];
    assert_eq!(rt; load(&memory, LoadKind::I32, 0), 0x1122_3344);
    assert_eq!(rt; load(&memory, LoadKind::U16, 2), 0x1122);
    store(&mut memory, Width::B2, 0, 0x00FF_FF80);
    assert_eq!(rt; load(&memory, LoadKind::I8, 0), 0xFFFF_FF80);
    assert_eq!(rt; load(&memory, LoadKind::I16, 0), 0xFFFF_FF80);
    assert_eq!(rt; load(&memory, LoadKind::U8, 4), 0);
}
