// The job `report`: source files are compiled, and what is counted of their form is put on out.
ghost use Rattle.std.specs.Prelude.{◌≡◌, ◌≢◌, [], ◌∷◌, IfOk, map, string_bytes};
ghost use Rattle.dae_io.specs.Sinks.{SinkState};
ghost use Rattle.dae_cli_options.specs.Names.{AreFiles};
ghost use Rattle.dae_cli_drive.specs.Notes.{budget_line};
ghost use Rattle.dae_cli_drive.specs.Puts.{Gives, GivesDue, Out, answer, sinks};
ghost use Rattle.dae_cli_drive.specs.Shelves.{KeepsNothing, shelf_seen};
ghost use Rattle.dae_report.specs.Lines.{report_line};
ghost use Rattle.dae_cli_source_jobs.specs.Reporting.{DueOfCompiled, DueOfReporting};

use crate::sources::compilation_of_files;
use dae_cli_drive::{Stop, budget_line};
use dae_compile::{Compiled, Options};
use dae_io::{Shelf, Sink};
use dae_report::report_line;
use std::alloc::{AllocError, Global};

/// Compiles source files, notes the budget of their image, puts the report of their form on out, in one put, and answers
/// with the status.
pub fn report<F: Shelf, O: Sink, N: Sink>(
    alloc: Global,
    files: &[String],
    options: Options,
    shelf: &mut F,
    out: &mut O,
    note: &mut N,
) -> u8
    requires { AreFiles (map string_bytes files.now) }
    ensures gives { GivesDue (DueOfReporting (map string_bytes files.now)
        (shelf_seen F.told F.count F.last F.given shelf.old shelf.new) options) result
        (sinks (O.seen out.old) (N.seen note.old)) (sinks (O.seen out.new) (N.seen note.new)) }
    ensures kept { KeepsNothing (shelf_seen F.told F.count F.last F.given shelf.old shelf.new) }
    ensures unopened { result ≡ 7 → O.seen out.new ≡ O.seen out.old }
{
    match compilation_of_files(alloc, files, options, shelf) {
        Ok(compiled) => put_report(alloc, &compiled, out, note),
        Err(stop) => stop.tell(note),
    }
}

// Notes a budget and puts a report on out. All memory is taken before the first put.
fn put_report<O: Sink, N: Sink>(alloc: Global, compiled: &Compiled, out: &mut O, note: &mut N) -> u8
    ensures gives { GivesDue (DueOfCompiled compiled.now) result
        (sinks (O.seen out.old) (N.seen note.old)) (sinks (O.seen out.new) (N.seen note.new)) }
    ensures unopened { result ≡ 7 → O.seen out.new ≡ O.seen out.old }
{
    let Ok((budget, line)) = lines(alloc, compiled) else {
        return Stop::Memory.tell(note);
    };
    match note.put(budget.as_bytes()) {
        Ok(()) => put_line(out, line.as_bytes()),
        Err(_) => 6,
    }
}

// Puts a report on out, and answers with 0, or with 6 where the put failed.
fn put_line<O: Sink>(out: &mut O, line: &[u8]) -> u8
    ensures gives { (note : SinkState) → Gives (answer 0 (Out line.now ∷ [])) result
        (sinks (O.seen out.old) note) (sinks (O.seen out.new) note) }
    ensures has_memory { result ≢ 7 }
{
    match out.put(line) {
        Ok(()) => 0,
        Err(_) => 6,
    }
}

// The line with the budget, and the report.
fn lines(alloc: Global, compiled: &Compiled) -> Result<(String, String), AllocError>
    ensures budget { IfOk result
        (λ lines. string_bytes lines.0 ≡ budget_line compiled.now.image.budget) }
    ensures report { IfOk result (λ lines. string_bytes lines.1
        ≡ report_line compiled.now.image.budget compiled.now.report) }
{
    let budget = budget_line(alloc, &compiled.image.budget)?;
    let line = report_line(alloc, &compiled.image.budget, &compiled.report)?;
    Ok((budget, line))
}
