// The top call: words to a job, and each job by the call of its crate.
ghost use Rattle.std.specs.Prelude.{◌≡◌, ◌≢◌, map, string_bytes, None};
ghost use Rattle.dae_io.specs.Told.{TellsSame};
ghost use Rattle.dae_cli_drive.specs.Puts.{Answer, GivesDue, sinks};
ghost use Rattle.dae_cli_drive.specs.Shelves.{calm_told, shelf_seen};
ghost use Rattle.dae_cli_command.specs.Answers.{IsDue};
ghost use Rattle.dae_cli_command.specs.Leaving.{KeepsAsAsked, Leaves};

use dae_cli_asm_job::asm;
use dae_cli_debug_job::{DebugFiles, debug};
use dae_cli_drive::{Stop, exec, noted};
use dae_cli_guard_job::guard;
use dae_cli_listing_job::dis;
use dae_cli_source_jobs::{SourceOptions, big, compile_files, report, run};
use dae_cli_time_job::{TimeOptions, time};
use dae_cli_trace_jobs::{check, trace};
use dae_cli_words::{Job, spelled_job};
use dae_io::{CalmShelf, CalmSink, Shelf, Sink};
use std::alloc::Global;

/// Does the job that the words after the program's name spell, and answers with the program's status. Texts come from
/// the shelf, output goes to `out` and notes go to `note`. An answer is due by the words, by what the shelf tells and
/// by its faults; its puts are made in their order, or up to the first that fails. What the shelf holds stays, but for
/// the name under which the words ask to keep an image. The image is kept once at most, one that was compiled behind the
/// line with its budget, and with every answer but 0 and 6 all names tell what they told.
pub fn dae_main<F: Shelf, O: Sink, N: Sink>(
    alloc: Global,
    words: &[String],
    shelf: &mut F,
    out: &mut O,
    note: &mut N,
) -> u8
    ensures gives { GivesDue (IsDue (map string_bytes words.now)
        (shelf_seen F.told F.count F.last F.given shelf.old shelf.new) result) result
        (sinks (O.seen out.old) (N.seen note.old)) (sinks (O.seen out.new) (N.seen note.new)) }
    ensures held { Leaves (map string_bytes words.now) (F.told shelf.old) (F.told shelf.new) }
    ensures kept { KeepsAsAsked (map string_bytes words.now)
        (shelf_seen F.told F.count F.last F.given shelf.old shelf.new) result
        (N.seen note.old) (N.seen note.new) }
    ensures unkept { result ≢ 0 → result ≢ 6 → TellsSame (F.told shelf.old) (F.told shelf.new) }
    // Memory is wanting only before a machine is opened, so that nothing was put on out.
    ensures unopened { result ≡ 7 → O.seen out.new ≡ O.seen out.old }
{
    let Ok(found) = spelled_job(alloc, words) else {
        return Stop::Memory.tell(note);
    };
    let Some(job) = found else {
        return noted(note, b"words\n", 64);
    };
    match job {
        Job::Run(compiled, options, files) => {
            let options = SourceOptions {
                compiled,
                run: options,
            };
            run(alloc, files, &options, shelf, out, note)
        }
        Job::Big(compiled, run, functions) => {
            let options = SourceOptions { compiled, run };
            big(alloc, functions, &options, out, note)
        }
        Job::Exec(options, name) => exec(alloc, name, &options, shelf, out, note),
        Job::Compile(options, to, files) => compile_files(alloc, files, options, to, shelf, note),
        Job::Report(options, files) => report(alloc, files, options, shelf, out, note),
        Job::Trace(options, name) => trace(alloc, name, &options, shelf, out, note),
        Job::Check(depths, name, text) => check(alloc, name, text, &depths, shelf, note),
        Job::Time(run, costs, ticks, name) => {
            let options = TimeOptions { run, costs, ticks };
            time(alloc, name, &options, shelf, out, note)
        }
        Job::Debug(depths, image, script) => {
            let files = DebugFiles { image, script };
            debug(alloc, files, &depths, shelf, out, note)
        }
        Job::Guard(depths, name, text) => guard(alloc, name, text, &depths, shelf, note),
        Job::Asm(to, name) => asm(alloc, to, name, shelf, note),
        Job::Dis(name) => dis(alloc, name, shelf, out, note),
    }
}

/// The same over a shelf and sinks that never fail: what is due is always given, and no count of faults rises.
pub fn answer_calmly(alloc: Global, words: &[String], shelf: &mut CalmShelf<'_>) -> u8
    ensures { (due : Answer) × IsDue (map string_bytes words.now)
        (shelf_seen calm_told (λ _. 0) (λ _. None) (λ s. s.given.pieces) shelf.old shelf.new)
        result due × (result ≡ due.status) }
{
    dae_main(
        alloc,
        words,
        shelf,
        &mut CalmSink::new(),
        &mut CalmSink::new(),
    )
}
