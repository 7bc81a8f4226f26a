// How a machine came out: its status, and the notes on it.
ghost use Rattle.std.specs.Prelude.{◌≡◌, ◌≢◌, OnErr, OnOk};
ghost use Rattle.dae_cli_drive.specs.declared.driving.Driven.TheVariants as Driven;
ghost use Rattle.dae_cli_drive.specs.Notes.{end_puts};
ghost use Rattle.dae_cli_drive.specs.Images.{status_of};
ghost use Rattle.dae_cli_drive.specs.Puts.{AreNoted, AreNotedInPart, GivesNotes, answer};

use crate::driving::Driven;
use crate::line::NoteLine;
use crate::notes;
use dae_cli_options::Shown;
use dae_io::{Sink, SinkFailed};
use dae_machine::{End, Machine};

/// Notes how a machine came out, and answers with the status, or with 6 where a put failed.
pub fn tell_end<N: Sink>(
    machine: &Machine,
    driven: Driven,
    show: Option<Shown>,
    line: &mut NoteLine,
    note: &mut N,
) -> u8
    requires whole { driven ≢ Driven.SinkFailed }
    ensures gives { GivesNotes
        (answer (status_of driven)
        (end_puts driven machine.now.setup machine.now.state show)) result
        (N.seen note.old) (N.seen note.new) }
    ensures has_memory { result ≢ 7 }
{
    match note_end(machine, driven, show, line, note) {
        Ok(()) => status_of(driven),
        Err(_) => 6,
    }
}

/// The status of a job by how its machine came out.
pub fn status_of(driven: Driven) -> u8
    requires { driven ≢ Driven.SinkFailed }
    ensures value { result ≡ status_of driven }
    ensures has_memory { result ≢ 7 }
{
    match driven {
        Driven::Final(End::Ended(_)) => 0,
        Driven::Final(End::Trapped(_)) => 1,
        Driven::Stuck => 9,
        Driven::Spent => 3,
        Driven::SinkFailed => unreachable!(),
    }
}

/// Puts the lines that tell how a machine came out, one put each.
pub fn note_end<N: Sink>(
    machine: &Machine,
    driven: Driven,
    show: Option<Shown>,
    line: &mut NoteLine,
    note: &mut N,
) -> Result<(), SinkFailed>
    requires whole { driven ≢ Driven.SinkFailed }
    ensures made { OnOk result (AreNoted
        (end_puts driven machine.now.setup machine.now.state show)
        (N.seen note.old) (N.seen note.new)) }
    ensures cut { OnErr result (AreNotedInPart
        (end_puts driven machine.now.setup machine.now.state show)
        (N.seen note.old) (N.seen note.new)) }
{
    notes::outcome_line(line, driven, machine);
    note.put(line.as_slice())?;
    notes::steps_line(line, machine.taken());
    note.put(line.as_slice())?;
    if let Some(shown) = show {
        notes::shown_line(line, shown, machine.memory());
        note.put(line.as_slice())?;
    }
    Ok(())
}
