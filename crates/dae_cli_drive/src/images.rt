// The image of a file.
ghost use Rattle.std.specs.Prelude.{◌≡◌, ◌≤◌, IfErr, IfOk, length};
ghost use Rattle.dae_cli_drive.specs.Puts.{stop_answer};
ghost use Rattle.dae_cli_drive.specs.ImageFiles.{DueOfBytes, DueOfImageFile, IsImageIn, IsImageOfFile, NoneOf};
ghost use Rattle.dae_cli_drive.specs.Shelves.{KeepsNothing, shelf_seen};

use crate::{Stop, fetched, image_line};
use dae_image::{Image, ImageError, read};
use dae_io::Shelf;
use std::alloc::Global;

/// How many bytes of an image's file are read, which is more than the longest image has.
pub const MOST_BYTES: u32 = 536_870_912;

/// The image of the file with this name.
///
/// # Errors
///
/// The file isn't got, its bytes are no image, or memory is wanting.
pub fn image_of_file<F: Shelf>(alloc: Global, name: &str, shelf: &mut F) -> Result<Image, Stop>
    ensures ok { IfOk result (IsImageOfFile (F.told shelf.old) name.now) }
    ensures err { IfErr result (λ stop. DueOfImageFile name.now
        (shelf_seen F.told F.count F.last F.given shelf.old shelf.new) NoneOf
        (stop_answer stop)) }
    ensures kept { KeepsNothing (shelf_seen F.told F.count F.last F.given shelf.old shelf.new) }
    ensures counted { F.count shelf.old ≤ F.count shelf.new }
{
    let bytes = fetched(alloc, name, MOST_BYTES, shelf)?;
    image_of(alloc, bytes.as_slice())
}

/// The image that bytes spell.
///
/// # Errors
///
/// The bytes are no image, or memory is wanting.
pub fn image_of(alloc: Global, bytes: &[u8]) -> Result<Image, Stop>
    requires { length bytes.now ≤ 536870912 }
    ensures ok { IfOk result (IsImageIn bytes.now) }
    ensures err { IfErr result (λ stop. DueOfBytes bytes.now NoneOf (stop_answer stop)) }
{
    match read(alloc, bytes) {
        Ok(image) => Ok(image),
        Err(ImageError::Memory) => Err(Stop::Memory),
        Err(error) => Err(Stop::told(8, image_line(alloc, error))),
    }
}
