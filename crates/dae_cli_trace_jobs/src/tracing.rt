// The job `trace`: the line of each step of an image.
ghost use Rattle.std.specs.Prelude.{◌≡◌, ◌≢◌, ◌≤◌, ◌<◌, ℕ, IsSome, List, None, OnErr, OnOk};
ghost use Rattle.dae_io.specs.Sinks.{IsPut, IsPutFailed};
ghost use Rattle.dae_machine.specs.Machine.{IsCounted, step};
ghost use Rattle.dae_machine.specs.Tries.{Stepped};
ghost use Rattle.dae_trace.specs.Lines.{line};
ghost use Rattle.dae_cli_drive.specs.Puts.{GivesDue, sinks};
ghost use Rattle.dae_cli_drive.specs.Turns.{Rested};
ghost use Rattle.dae_cli_drive.specs.ImageFiles.{DueOfImageFile};
ghost use Rattle.dae_cli_drive.specs.Shelves.{KeepsNothing, shelf_seen};
ghost use Rattle.dae_cli_trace_jobs.specs.Tracing.{DueOfLines, DueOfTracing, TracesTo};

use dae_cli_drive::{Driven, NoteLine, image_of_file, put_budget, tell_end, tell_refusal};
use dae_cli_options::RunOptions;
use dae_image::Image;
use dae_io::{Shelf, Sink, SinkFailed};
use dae_machine::{Machine, Pick, Rest, Words};
use dae_trace::line;
use std::alloc::Global;

/// Runs the image of a file as the options say and puts the line of each step, and answers with the status.
pub fn trace<F: Shelf, O: Sink, N: Sink>(
    alloc: Global,
    name: &str,
    options: &RunOptions,
    shelf: &mut F,
    out: &mut O,
    note: &mut N,
) -> u8
    ensures gives { GivesDue (DueOfImageFile name.now
        (shelf_seen F.told F.count F.last F.given shelf.old shelf.new)
        (λ image. DueOfTracing image options.now)) result
        (sinks (O.seen out.old) (N.seen note.old)) (sinks (O.seen out.new) (N.seen note.new)) }
    ensures kept { KeepsNothing (shelf_seen F.told F.count F.last F.given shelf.old shelf.new) }
    // Memory is wanting only before the machine is opened.
    ensures unopened { result ≡ 7 → O.seen out.new ≡ O.seen out.old }
{
    match image_of_file(alloc, name, shelf) {
        Ok(image) => trace_image(alloc, &image, options, out, note),
        Err(stop) => stop.tell(note),
    }
}

// Notes the budget of an image, traces it, and notes how its machine came out.
fn trace_image<O: Sink, N: Sink>(
    alloc: Global,
    image: &Image,
    options: &RunOptions,
    out: &mut O,
    note: &mut N,
) -> u8
    ensures gives { GivesDue (DueOfTracing image.now options.now) result
        (sinks (O.seen out.old) (N.seen note.old)) (sinks (O.seen out.new) (N.seen note.new)) }
    ensures unopened { result ≡ 7 → O.seen out.new ≡ O.seen out.old }
{
    let mut line = match put_budget(alloc, image, note) {
        Ok(line) => line,
        Err(status) => return status,
    };
    match Machine::open(alloc, image, options.values().depths) {
        Ok(mut machine) => trace_opened(&mut machine, &mut line, options, out, note),
        Err(error) => tell_refusal(error, &mut line, note),
    }
}

// Traces an opened machine, and notes how it came out. It takes no memory.
fn trace_opened<O: Sink, N: Sink>(
    machine: &mut Machine,
    line: &mut NoteLine,
    options: &RunOptions,
    out: &mut O,
    note: &mut N,
) -> u8
    requires begun { machine.old.state.steps ≡ 0 }
    requires counted { IsCounted machine.old.state }
    requires unhalted { machine.old.state.e.halt ≡ None }
    ensures gives { GivesDue (DueOfLines machine.old.setup machine.old.state options.now) result
        (sinks (O.seen out.old) (N.seen note.old)) (sinks (O.seen out.new) (N.seen note.new)) }
    ensures has_memory { result ≢ 7 }
{
    match drive_trace(machine, options, out) {
        Driven::SinkFailed => 6,
        driven => tell_end(machine, driven, None, line, note),
    }
}

// Lets the machine make the turns of the schedule, until no pick is enabled or until it has taken the steps of the options in all,
// and puts the line of each step, one put a step. It takes no memory. Where a put fails, no further step is taken.
fn drive_trace<O: Sink>(machine: &mut Machine, options: &RunOptions, out: &mut O) -> Driven
    requires { machine.old.state.steps ≤ options.now.steps }
    ensures setup { machine.new.setup ≡ machine.old.setup }
    ensures traces { TracesTo result machine.old.setup machine.old.state machine.new.state
        options.now (O.seen out.old) (O.seen out.new) }
{
    let values = options.values();
    let mut words = Words::of(values.schedule);
    for _ in machine.taken()..values.steps {
        let Some(pick) = machine.pick(words.next()) else {
            return rested(machine);
        };
        if put_step(machine, pick, out).is_err() {
            return Driven::SinkFailed;
        }
    }
    rested(machine)
}

// Takes the step of an enabled pick, and puts its line.
fn put_step<O: Sink>(machine: &mut Machine, pick: Pick, out: &mut O) -> Result<(), SinkFailed>
    requires enabled { IsSome (step machine.old.setup machine.old.state pick) }
    requires few { machine.old.state.steps < 1000000000000 }
    ensures stepped { (piece : List ℕ) × Stepped pick piece machine.old machine.new }
    ensures whole { OnOk result (IsPut (line machine.old.state pick)
        (O.seen out.old) (O.seen out.new)) }
    ensures part { OnErr result (IsPutFailed (line machine.old.state pick)
        (O.seen out.old) (O.seen out.new)) }
{
    let text = line(machine, pick);
    let _ = machine.step(pick);
    out.put(text.as_bytes())
}

// How a machine rests, or that it can go on.
fn rested(machine: &Machine) -> Driven
    ensures { Rested result machine.now.state.steps machine.now.setup machine.now.state }
{
    match machine.rest() {
        Some(Rest::Final(end)) => Driven::Final(end),
        Some(Rest::Stuck) => Driven::Stuck,
        None => Driven::Spent,
    }
}
