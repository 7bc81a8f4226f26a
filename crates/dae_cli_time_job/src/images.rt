// An image is opened and run tick by tick, and notes tell how it came out.
ghost use Rattle.std.specs.Prelude.{◌≡◌, ◌≢◌, ◌≤◌, ◌++◌, OnOk, OnErr};
ghost use Rattle.dae_cli_drive.specs.declared.driving.Driven.TheVariants as Driven;
ghost use Rattle.dae_cli_drive.specs.Images.{status_of};
ghost use Rattle.dae_cli_drive.specs.Notes.{end_puts};
ghost use Rattle.dae_cli_drive.specs.Puts.{answer, AreNoted, AreNotedInPart, GivesDue, GivesNotes, sinks};
ghost use Rattle.dae_cli_time_job.specs.Driving.{IsOpened};
ghost use Rattle.dae_cli_time_job.specs.Due.{DueOfTicks, DueOfTiming};
ghost use Rattle.dae_cli_time_job.specs.Lines.{time_puts};

use crate::driving::drive_ticks;
use crate::lines;
use crate::options::TimeOptions;
use dae_base::Side;
use dae_cli_drive::{Driven, NoteLine, note_end, put_budget, status_of, tell_refusal};
use dae_cli_options::Shown;
use dae_image::Image;
use dae_io::{Sink, SinkFailed};
use dae_timing::Timed;
use std::alloc::Global;

/// Puts the line with the budget of an image, opens a machine on it, runs it tick by tick as the options say, and notes how it
/// came out. All memory is taken before the first tick. Nothing is put after a failed put.
pub fn time_image<O: Sink, N: Sink>(
    alloc: Global,
    image: &Image,
    options: &TimeOptions,
    out: &mut O,
    note: &mut N,
) -> u8
    ensures gives { GivesDue
        (DueOfTiming image.now options.now.run options.now.costs options.now.ticks) result
        (sinks (O.seen out.old) (N.seen note.old)) (sinks (O.seen out.new) (N.seen note.new)) }
    ensures unopened { result ≡ 7 → O.seen out.new ≡ O.seen out.old }
{
    let mut line = match put_budget(alloc, image, note) {
        Ok(line) => line,
        Err(status) => return status,
    };
    match Timed::open(alloc, image, options.run.values().depths, options.costs) {
        Ok(mut timed) => run_timed(&mut timed, &mut line, options, out, note),
        Err(error) => tell_refusal(error, &mut line, note),
    }
}

// Lets an opened machine make its ticks, and notes how it came out. It takes no memory.
fn run_timed<O: Sink, N: Sink>(
    timed: &mut Timed,
    line: &mut NoteLine,
    options: &TimeOptions,
    out: &mut O,
    note: &mut N,
) -> u8
    requires costs { timed.old.costs ≡ options.now.costs }
    requires opened { IsOpened timed.old.clock }
    requires few { options.now.ticks ≤ 100000000000 }
    ensures gives { GivesDue
        (DueOfTicks timed.old.setup options.now.costs timed.old.clock options.now.ticks
        options.now.run.show) result
        (sinks (O.seen out.old) (N.seen note.old)) (sinks (O.seen out.new) (N.seen note.new)) }
    ensures has_memory { result ≢ 7 }
{
    match drive_ticks(timed, options.ticks, out) {
        Driven::SinkFailed => 6,
        driven => tell_times(timed, driven, options.run.values().show, line, note),
    }
}

// Notes how a timed machine came out, and answers with the status, or with 6 where a put failed.
fn tell_times<N: Sink>(
    timed: &Timed,
    driven: Driven,
    show: Option<Shown>,
    line: &mut NoteLine,
    note: &mut N,
) -> u8
    requires whole { driven ≢ Driven.SinkFailed }
    ensures gives { GivesNotes (answer (status_of driven)
        (end_puts driven timed.now.setup timed.now.clock.state show ++ time_puts timed.now.clock))
        result (N.seen note.old) (N.seen note.new) }
    ensures has_memory { result ≢ 7 }
{
    match note_times(timed, driven, show, line, note) {
        Ok(()) => status_of(driven),
        Err(_) => 6,
    }
}

// Puts the lines that tell how a timed machine came out, one put each.
fn note_times<N: Sink>(
    timed: &Timed,
    driven: Driven,
    show: Option<Shown>,
    line: &mut NoteLine,
    note: &mut N,
) -> Result<(), SinkFailed>
    requires whole { driven ≢ Driven.SinkFailed }
    ensures made { OnOk result (AreNoted
        (end_puts driven timed.now.setup timed.now.clock.state show ++ time_puts timed.now.clock)
        (N.seen note.old) (N.seen note.new)) }
    ensures cut { OnErr result (AreNotedInPart
        (end_puts driven timed.now.setup timed.now.clock.state show ++ time_puts timed.now.clock)
        (N.seen note.old) (N.seen note.new)) }
{
    note_end(timed.machine(), driven, show, line, note)?;
    note_clock(timed, line, note)
}

// Puts the lines that tell of the ticks and the waits, one put each.
fn note_clock<N: Sink>(timed: &Timed, line: &mut NoteLine, note: &mut N) -> Result<(), SinkFailed>
    ensures made { OnOk result
        (AreNoted (time_puts timed.now.clock) (N.seen note.old) (N.seen note.new)) }
    ensures cut { OnErr result
        (AreNotedInPart (time_puts timed.now.clock) (N.seen note.old) (N.seen note.new)) }
{
    lines::ticks_line(line, timed.ticks());
    note.put(line.as_slice())?;
    lines::waits_line(line, timed, Side::A);
    note.put(line.as_slice())?;
    lines::waits_line(line, timed, Side::E);
    note.put(line.as_slice())?;
    Ok(())
}
