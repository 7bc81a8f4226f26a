// The job `compile`: source files are compiled, and their image is kept.
ghost use Rattle.std.specs.Prelude.{◌≡◌, ◌≢◌, ◌⊎◌, IfOk, map, string_bytes};
ghost use Rattle.dae_image.specs.Images.{contents};
ghost use Rattle.dae_image.specs.Spelling.{spelling_2};
ghost use Rattle.dae_io.specs.Told.{TellsSame};
ghost use Rattle.dae_cli_options.specs.Names.{AreFiles};
ghost use Rattle.dae_cli_drive.specs.Notes.{budget_line};
ghost use Rattle.dae_cli_drive.specs.Puts.{GivesNotesDue};
ghost use Rattle.dae_cli_drive.specs.Keeping.{TellsBut, kept_line};
ghost use Rattle.dae_cli_drive.specs.Shelves.{shelf_seen};
ghost use Rattle.dae_cli_source_jobs.specs.Kept.{DueOfKept, KeepsFilesOnce, KeepsImageOnce};
ghost use Rattle.dae_cli_source_jobs.specs.Sources.{DueOfFiles};

use crate::sources::image_of_files;
use dae_cli_drive::{Stop, budget_line, keep_bytes, kept_line};
use dae_compile::Options;
use dae_image::{Image, write};
use dae_io::{Shelf, Sink};
use std::alloc::{AllocError, Global};

/// Compiles source files, keeps their image under a name, and answers with the status.
pub fn compile_files<F: Shelf, N: Sink>(
    alloc: Global,
    files: &[String],
    options: Options,
    to: &str,
    shelf: &mut F,
    note: &mut N,
) -> u8
    requires { AreFiles (map string_bytes files.now) }
    ensures gives { GivesNotesDue (DueOfFiles (map string_bytes files.now)
        (shelf_seen F.told F.count F.last F.given shelf.old shelf.new) options
        (DueOfKept (shelf_seen F.told F.count F.last F.given shelf.old shelf.new)
        result to.now)) result (N.seen note.old) (N.seen note.new) }
    ensures held { TellsSame (F.told shelf.old) (F.told shelf.new)
        ⊎ TellsBut to.now (F.told shelf.old) (F.told shelf.new) }
    ensures kept { KeepsFilesOnce (map string_bytes files.now)
        (shelf_seen F.told F.count F.last F.given shelf.old shelf.new) options to.now result
        (N.seen note.old) (N.seen note.new) }
    ensures unkept { result ≢ 0 → result ≢ 6 → TellsSame (F.told shelf.old) (F.told shelf.new) }
{
    match image_of_files(alloc, files, options, shelf) {
        Ok(image) => keep_image(alloc, &image, to, shelf, note),
        Err(stop) => stop.tell(note),
    }
}

// Keeps an image under a name. All memory is taken before the first line is put.
fn keep_image<F: Shelf, N: Sink>(
    alloc: Global,
    image: &Image,
    to: &str,
    shelf: &mut F,
    note: &mut N,
) -> u8
    ensures gives { GivesNotesDue (DueOfKept
        (shelf_seen F.told F.count F.last F.given shelf.old shelf.new) result to.now
        image.now) result (N.seen note.old) (N.seen note.new) }
    ensures held { TellsSame (F.told shelf.old) (F.told shelf.new)
        ⊎ TellsBut to.now (F.told shelf.old) (F.told shelf.new) }
    ensures kept { KeepsImageOnce (shelf_seen F.told F.count F.last F.given shelf.old shelf.new)
        to.now result (N.seen note.old) (N.seen note.new) image.now }
    ensures unkept { result ≢ 0 → result ≢ 6 → TellsSame (F.told shelf.old) (F.told shelf.new) }
{
    let Ok((budget, kept, bytes)) = texts_of(alloc, image, to) else {
        return Stop::Memory.tell(note);
    };
    match note.put(budget.as_bytes()) {
        Ok(()) => keep_bytes(to, bytes.as_slice(), kept.as_bytes(), shelf, note),
        Err(_) => 6,
    }
}

// The lines on an image that is kept under a name, and its bytes.
fn texts_of(alloc: Global, image: &Image, to: &str) -> Result<(String, String, Vec<u8>), AllocError>
    ensures budget { IfOk result (λ texts. string_bytes texts.0 ≡ budget_line image.now.budget) }
    ensures kept { IfOk result (λ texts. string_bytes texts.1 ≡ kept_line to.now) }
    ensures bytes { IfOk result (λ texts. texts.2.items ≡ spelling_2 (contents image.now)) }
{
    let budget = budget_line(alloc, &image.budget)?;
    let kept = kept_line(alloc, to)?;
    let bytes = write(alloc, image)?;
    Ok((budget, kept, bytes))
}
