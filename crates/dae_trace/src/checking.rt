// Whether bytes are the lines of a run.
ghost use Rattle.std.specs.Prelude.{◌≡◌, ◌≢◌, ◌≤◌, ◌<◌, true, false, List, ℕ, is_some, length, take, drop};
ghost use Rattle.dae_core.specs.Held.{CanHold};
ghost use Rattle.dae_machine.specs.Machine.{step};
ghost use Rattle.dae_machine.specs.Tries.{Stepped};
ghost use Rattle.dae_trace.specs.Lines.{line};
ghost use Rattle.dae_trace.specs.Traces.{Checks, Follows, IsFirstLine, Numbered};

use crate::TraceAnswer;
use crate::reading::read_line;
use crate::stepping::line;
use dae_base::Depths;
use dae_image::Image;
use dae_machine::{Machine, OpenError, Pick, Rest};
use std::alloc::Global;

/// What bytes are as a trace of this image, with queues of these depths.
pub fn check(alloc: Global, image: &Image, depths: Depths, trace: &[u8]) -> TraceAnswer
    requires holds { CanHold depths }
    requires short { length trace.now ≤ 268435456 }
    ensures { Checks result image.now depths trace.now }
{
    match Machine::open(alloc, image, depths) {
        Ok(mut machine) => follow(&mut machine, trace),
        Err(OpenError::DepthBelow(queue, needs, has)) => TraceAnswer::Depth(queue, needs, has),
        Err(OpenError::Memory) => TraceAnswer::Memory,
    }
}

// What bytes are as a trace of a machine before its first step.
fn follow(machine: &mut Machine, trace: &[u8]) -> TraceAnswer
    requires begun { machine.old.state.steps ≡ 0 }
    requires numbered { Numbered machine.old.state }
    requires short { length trace.now ≤ 268435456 }
    ensures { Follows result machine.old.setup machine.old.state trace.now }
{
    let mut rest = trace;
    let mut number: u32 = 0;
    while !rest.is_empty() {
        let (text, later) = rest.split_at(line_len(rest));
        number += 1;
        let Some(pick) = read_line(text) else {
            return TraceAnswer::BadLine(number);
        };
        if !step_by(machine, pick, text) {
            return TraceAnswer::NotARun(number);
        }
        rest = later;
    }
    match machine.rest() {
        Some(Rest::Final(end)) => TraceAnswer::Run(Some(end)),
        Some(Rest::Stuck) => TraceAnswer::Run(None),
        None => TraceAnswer::Run(None),
    }
}

// Takes the step of this pick where it is enabled and this is its line, or leaves the machine as it is.
fn step_by(machine: &mut Machine, pick: Pick, text: &[u8]) -> bool
    requires few { machine.old.state.steps < 1000000000000 }
    ensures done { result ≡ true → (line machine.old.state pick ≡ text.now)
        × ((piece : List ℕ) × Stepped pick piece machine.old machine.new) }
    ensures none { result ≡ false → (machine.new ≡ machine.old)
        × (is_some (step machine.old.setup machine.old.state pick) ≡ true
        → line machine.old.state pick ≢ text.now) }
{
    if !machine.enabled(pick) {
        return false;
    }
    if line(machine, pick).as_bytes() != text {
        return false;
    }
    let _ = machine.step(pick);
    true
}

// How long the first line is, with its line feed where it has one.
fn line_len(bytes: &[u8]) -> usize
    requires { 0 < length bytes.now }
    ensures most { result ≤ length bytes.now }
    ensures first { IsFirstLine bytes.now (take result bytes.now) (drop result bytes.now) }
{
    for (at, byte) in bytes.iter().enumerate() {
        if *byte == b'\n' {
            return at + 1;
        }
    }
    bytes.len()
}
