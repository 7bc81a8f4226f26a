// The part that every job with a machine has: the line with an image's budget, and why no machine was opened; and the run of an
// image.
ghost use Rattle.std.specs.Prelude.{◌≡◌, ◌≢◌, None, [], ◌∷◌, IfErr, IfOk, OnOk, string_bytes};
ghost use Rattle.dae_base.specs.declared.Depths.{Depths};
ghost use Rattle.dae_image.specs.declared.Image.{Image};
ghost use Rattle.dae_machine.specs.Answers.{Refuses};
ghost use Rattle.dae_machine.specs.Machine.{IsCounted};
ghost use Rattle.dae_cli_drive.specs.Notes.{budget_line};
ghost use Rattle.dae_cli_drive.specs.Images.{DueOfImage, DueOfNoMachine, DueOfRun, IsNotBudgeted};
ghost use Rattle.dae_cli_drive.specs.Puts.{AreNoted, GivesDue, GivesNotesDue, Note, sinks};

use crate::driving::{Driven, drive};
use crate::ending::tell_end;
use crate::line::NoteLine;
use crate::notes;
use crate::stop::{Stop, noted};
use dae_cli_options::RunOptions;
use dae_image::Image;
use dae_io::Sink;
use dae_machine::{Machine, OpenError, Words};
use std::alloc::{AllocError, Global};

/// Opens a machine on an image, runs it as the options say, and notes the budget and how the machine came out. All
/// memory is taken before the first step. Nothing is put after a failed put.
pub fn run_image<O: Sink, N: Sink>(
    alloc: Global,
    image: &Image,
    options: &RunOptions,
    out: &mut O,
    note: &mut N,
) -> u8
    ensures gives { GivesDue (DueOfImage image.now options.now) result
        (sinks (O.seen out.old) (N.seen note.old)) (sinks (O.seen out.new) (N.seen note.new)) }
    // Memory is wanting only before the machine is opened.
    ensures unopened { result ≡ 7 → O.seen out.new ≡ O.seen out.old }
{
    let mut line = match put_budget(alloc, image, note) {
        Ok(line) => line,
        Err(status) => return status,
    };
    match Machine::open(alloc, image, options.values().depths) {
        Ok(mut machine) => run_opened(&mut machine, &mut line, options, out, note),
        Err(error) => tell_refusal(error, &mut line, note),
    }
}

/// Puts the line with an image's budget, and gives room for the lines after it.
///
/// # Errors
///
/// The status with which the job ends, where memory was wanting, which is told, or the put failed.
pub fn put_budget<N: Sink>(alloc: Global, image: &Image, note: &mut N) -> Result<NoteLine, u8>
    ensures ok { OnOk result (AreNoted (Note (budget_line image.now.budget) ∷ [])
        (N.seen note.old) (N.seen note.new)) }
    ensures err { IfErr result (λ status.
        IsNotBudgeted image.now status (N.seen note.old) (N.seen note.new)) }
{
    let Ok((budget, line)) = lines(alloc, image) else {
        return Err(Stop::Memory.tell(note));
    };
    match note.put(budget.as_bytes()) {
        Ok(()) => Ok(line),
        Err(_) => Err(6),
    }
}

// The line with the budget, and room for the lines after it.
fn lines(alloc: Global, image: &Image) -> Result<(String, NoteLine), AllocError>
    ensures { IfOk result (λ lines. string_bytes lines.0 ≡ budget_line image.now.budget) }
{
    let budget = notes::budget_line(alloc, &image.budget)?;
    let line = NoteLine::with_room(alloc)?;
    Ok((budget, line))
}

/// Tells why no machine was opened, and answers with the status.
pub fn tell_refusal<N: Sink>(error: OpenError, line: &mut NoteLine, note: &mut N) -> u8
    ensures { (image : Image) (d : Depths) → Refuses error image.budget d
        → GivesNotesDue (DueOfNoMachine image d) result (N.seen note.old) (N.seen note.new) }
{
    match error {
        OpenError::DepthBelow(queue, needs, has) => {
            notes::depth_line(line, queue, needs, has);
            noted(note, line.as_slice(), 4)
        }
        OpenError::Memory => Stop::Memory.tell(note),
    }
}

// Lets an opened machine run as the options say, and notes how it came out. It takes no memory.
fn run_opened<O: Sink, N: Sink>(
    machine: &mut Machine,
    line: &mut NoteLine,
    options: &RunOptions,
    out: &mut O,
    note: &mut N,
) -> u8
    requires begun { machine.old.state.steps ≡ 0 }
    requires counted { IsCounted machine.old.state }
    requires unhalted { machine.old.state.e.halt ≡ None }
    ensures gives { GivesDue (DueOfRun machine.old.setup machine.old.state options.now) result
        (sinks (O.seen out.old) (N.seen note.old)) (sinks (O.seen out.new) (N.seen note.new)) }
    ensures has_memory { result ≢ 7 }
{
    let values = options.values();
    let mut words = Words::of(values.schedule);
    match drive(machine, &mut words, options, out) {
        Driven::SinkFailed => 6,
        driven => tell_end(machine, driven, values.show, line, note),
    }
}
