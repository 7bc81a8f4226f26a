// The job `run`: source files are compiled, and their image is run.
ghost use Rattle.std.specs.Prelude.{◌≡◌, map, string_bytes};
ghost use Rattle.dae_cli_options.specs.Names.{AreFiles};
ghost use Rattle.dae_cli_drive.specs.Images.{DueOfImage};
ghost use Rattle.dae_cli_drive.specs.Puts.{GivesDue, sinks};
ghost use Rattle.dae_cli_drive.specs.Shelves.{KeepsNothing, shelf_seen};
ghost use Rattle.dae_cli_source_jobs.specs.Sources.{DueOfFiles};

use crate::options::SourceOptions;
use crate::sources::image_of_files;
use dae_cli_drive::run_image;
use dae_io::{Shelf, Sink};
use std::alloc::Global;

/// Compiles source files, runs their image, and answers with the status.
pub fn run<F: Shelf, O: Sink, N: Sink>(
    alloc: Global,
    files: &[String],
    options: &SourceOptions,
    shelf: &mut F,
    out: &mut O,
    note: &mut N,
) -> u8
    requires { AreFiles (map string_bytes files.now) }
    ensures gives { GivesDue (DueOfFiles (map string_bytes files.now)
        (shelf_seen F.told F.count F.last F.given shelf.old shelf.new)
        options.now.compiled (λ image. DueOfImage image options.now.run)) result
        (sinks (O.seen out.old) (N.seen note.old)) (sinks (O.seen out.new) (N.seen note.new)) }
    ensures kept { KeepsNothing (shelf_seen F.told F.count F.last F.given shelf.old shelf.new) }
    ensures unopened { result ≡ 7 → O.seen out.new ≡ O.seen out.old }
{
    match image_of_files(alloc, files, options.compiled, shelf) {
        Ok(image) => run_image(alloc, &image, &options.run, out, note),
        Err(stop) => stop.tell(note),
    }
}
