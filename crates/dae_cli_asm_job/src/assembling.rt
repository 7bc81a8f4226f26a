// The job `asm`: the image that the assembly text of a file says is kept.
ghost use Rattle.std.specs.Prelude.{◌≡◌, ◌≢◌, ◌⊎◌, ◌≤◌, [], IfErr, IfOk, length, string_bytes};
ghost use Rattle.dae_asm.specs.Assembly.{Asm};
ghost use Rattle.dae_image.specs.Images.{contents};
ghost use Rattle.dae_image.specs.Spelling.{spelling_2};
ghost use Rattle.dae_io.specs.Told.{TellsSame};
ghost use Rattle.dae_cli_drive.specs.Puts.{GivesNotesDue, TellsOrWants, stop_answer};
ghost use Rattle.dae_cli_drive.specs.ImageFiles.{NoneOf};
ghost use Rattle.dae_cli_drive.specs.Keeping.{DueOfKeeping, KeepsAtMostOnce, TellsBut, kept_line};
ghost use Rattle.dae_cli_drive.specs.Shelves.{KeepsNothing, shelf_seen};
ghost use Rattle.dae_cli_asm_job.specs.Assembling.{DueOfAssembling, DueOfAssembly, DueOfAssemblyFile, IsAssembledOf, KeepsAssembledOnce, error_line};

use dae_asm::{AsmError, assemble};
use dae_cli_drive::{Stop, keep_bytes, kept_line, text_of_file};
use dae_image::{Image, write};
use dae_io::{Shelf, Sink};
use std::alloc::{AllocError, Global};

/// How many bytes an assembly text may have.
const MOST_ASSEMBLY: u32 = 134_217_728;

/// Keeps the image that the assembly text of a file says under the name `to`, and answers with the status.
pub fn asm<F: Shelf, N: Sink>(
    alloc: Global,
    to: &str,
    name: &str,
    shelf: &mut F,
    note: &mut N,
) -> u8
    ensures gives { GivesNotesDue (DueOfAssembling name.now
        (shelf_seen F.told F.count F.last F.given shelf.old shelf.new) result to.now) result
        (N.seen note.old) (N.seen note.new) }
    ensures held { TellsSame (F.told shelf.old) (F.told shelf.new)
        ⊎ TellsBut to.now (F.told shelf.old) (F.told shelf.new) }
    ensures kept { KeepsAssembledOnce name.now
        (shelf_seen F.told F.count F.last F.given shelf.old shelf.new) to.now result
        (N.seen note.old) (N.seen note.new) }
    ensures unkept { result ≢ 0 → result ≢ 6 → TellsSame (F.told shelf.old) (F.told shelf.new) }
{
    match image_of_file(alloc, name, shelf) {
        Ok(image) => keep_image(alloc, &image, to, shelf, note),
        Err(stop) => stop.tell(note),
    }
}

/// The image that the assembly text of a file says.
///
/// # Errors
///
/// The file isn't got, it is longer than such a text may be, its text says no image, or memory is wanting.
fn image_of_file<F: Shelf>(alloc: Global, name: &str, shelf: &mut F) -> Result<Image, Stop>
    ensures ok { IfOk result (λ image. IsAssembledOf (F.told shelf.old) name.now image) }
    ensures err { IfErr result (λ stop. DueOfAssemblyFile name.now
        (shelf_seen F.told F.count F.last F.given shelf.old shelf.new) NoneOf
        (stop_answer stop)) }
    ensures kept { KeepsNothing (shelf_seen F.told F.count F.last F.given shelf.old shelf.new) }
    ensures counted { F.count shelf.old ≤ F.count shelf.new }
{
    let text = text_of_file(alloc, name, MOST_ASSEMBLY, "refused text-too-long\n", shelf)?;
    image_of_text(alloc, text.as_slice())
}

/// The image that an assembly text says.
///
/// # Errors
///
/// The text says none, or memory is wanting.
fn image_of_text(alloc: Global, text: &[u8]) -> Result<Image, Stop>
    requires { length text.now ≤ 134217728 }
    ensures ok { IfOk result (λ image. Asm text.now image) }
    ensures err { IfErr result (λ stop. DueOfAssembly text.now NoneOf (stop_answer stop)) }
{
    match assemble(alloc, text) {
        Ok(image) => Ok(image),
        Err(AsmError::Memory) => Err(Stop::Memory),
        Err(error) => Err(Stop::told(2, error_line(alloc, error))),
    }
}

/// The line on why a text says no image.
fn error_line(alloc: Global, error: AsmError) -> Result<String, AllocError>
    ensures { IfOk result (λ line. string_bytes line ≡ error_line error) }
{
    match error {
        AsmError::BadLine(number) => format!(in alloc; "refused asm-line {number}\n"),
        AsmError::Label(number) => format!(in alloc; "refused asm-label {number}\n"),
        AsmError::BadValue(number) => format!(in alloc; "refused asm-value {number}\n"),
        AsmError::Memory => String::from_str(alloc, "memory\n"),
    }
}

// Keeps an image under a name. All memory is taken before it is kept.
fn keep_image<F: Shelf, N: Sink>(
    alloc: Global,
    image: &Image,
    to: &str,
    shelf: &mut F,
    note: &mut N,
) -> u8
    ensures gives { GivesNotesDue (DueOfKeeping []
        (shelf_seen F.told F.count F.last F.given shelf.old shelf.new) result to.now
        image.now) result (N.seen note.old) (N.seen note.new) }
    ensures held { TellsSame (F.told shelf.old) (F.told shelf.new)
        ⊎ TellsBut to.now (F.told shelf.old) (F.told shelf.new) }
    ensures kept { KeepsAtMostOnce []
        (shelf_seen F.told F.count F.last F.given shelf.old shelf.new) to.now
        (spelling_2 (contents image.now)) result (N.seen note.old) (N.seen note.new) }
    ensures unkept { result ≢ 0 → result ≢ 6 → TellsSame (F.told shelf.old) (F.told shelf.new) }
{
    let Ok((kept, bytes)) = texts_of(alloc, image, to) else {
        return Stop::Memory.tell(note);
    };
    keep_bytes(to, bytes.as_slice(), kept.as_bytes(), shelf, note)
}

// The line on an image that is kept under a name, and its bytes.
fn texts_of(alloc: Global, image: &Image, to: &str) -> Result<(String, Vec<u8>), AllocError>
    ensures kept { IfOk result (λ texts. string_bytes texts.0 ≡ kept_line to.now) }
    ensures bytes { IfOk result (λ texts. texts.1.items ≡ spelling_2 (contents image.now)) }
{
    let kept = kept_line(alloc, to)?;
    let bytes = write(alloc, image)?;
    Ok((kept, bytes))
}
