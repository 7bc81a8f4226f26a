// The job `exec`: the image of a file is run.
ghost use Rattle.std.specs.Prelude.{◌≡◌};
ghost use Rattle.dae_cli_drive.specs.Images.{DueOfImage};
ghost use Rattle.dae_cli_drive.specs.Puts.{GivesDue, sinks};
ghost use Rattle.dae_cli_drive.specs.ImageFiles.{DueOfImageFile};
ghost use Rattle.dae_cli_drive.specs.Shelves.{KeepsNothing, shelf_seen};

use crate::image::run_image;
use crate::images::image_of_file;
use dae_cli_options::RunOptions;
use dae_io::{Shelf, Sink};
use std::alloc::Global;

/// Runs the image of a file as the options say, and answers with the status.
pub fn exec<F: Shelf, O: Sink, N: Sink>(
    alloc: Global,
    name: &str,
    options: &RunOptions,
    shelf: &mut F,
    out: &mut O,
    note: &mut N,
) -> u8
    ensures gives { GivesDue (DueOfImageFile name.now
        (shelf_seen F.told F.count F.last F.given shelf.old shelf.new)
        (λ image. DueOfImage image options.now)) result
        (sinks (O.seen out.old) (N.seen note.old)) (sinks (O.seen out.new) (N.seen note.new)) }
    ensures kept { KeepsNothing (shelf_seen F.told F.count F.last F.given shelf.old shelf.new) }
    ensures unopened { result ≡ 7 → O.seen out.new ≡ O.seen out.old }
{
    match image_of_file(alloc, name, shelf) {
        Ok(image) => run_image(alloc, &image, options, out, note),
        Err(stop) => stop.tell(note),
    }
}
