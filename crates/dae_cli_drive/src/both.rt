// The image of a file, and a text with a limit beside it.
ghost use Rattle.std.specs.Prelude.{◌≤◌, ◌<◌, IfErr, IfOk};
ghost use Rattle.dae_cli_drive.specs.Puts.{stop_answer};
ghost use Rattle.dae_cli_drive.specs.Shelves.{KeepsNothing, shelf_seen};
ghost use Rattle.dae_cli_drive.specs.TextFiles.{AreOfFiles, DueOfImageAndText, NoneOfBoth};

use crate::images::{MOST_BYTES, image_of};
use crate::texts::text_of_file;
use crate::{Stop, fetched};
use dae_image::Image;
use dae_io::Shelf;
use std::alloc::Global;

/// The image of one file and the text of another, which has at most so many bytes. The image's file is fetched first, then the text,
/// and then the image is read.
///
/// # Errors
///
/// One of the files isn't got, the text is longer, which the line `long` tells with status 2, the bytes of the image's file are no
/// image, or memory is wanting: the first of these in that order.
pub fn image_and_text<F: Shelf>(
    alloc: Global,
    name: &str,
    text_name: &str,
    most: u32,
    long: &str,
    shelf: &mut F,
) -> Result<(Image, Vec<u8>), Stop>
    requires { most < 4294967295 }
    ensures ok { IfOk result (λ both.
        AreOfFiles (F.told shelf.old) name.now text_name.now most both.0 both.1.items) }
    ensures err { IfErr result (λ stop. DueOfImageAndText name.now text_name.now most long.now
        (shelf_seen F.told F.count F.last F.given shelf.old shelf.new) NoneOfBoth
        (stop_answer stop)) }
    ensures kept { KeepsNothing (shelf_seen F.told F.count F.last F.given shelf.old shelf.new) }
    ensures counted { F.count shelf.old ≤ F.count shelf.new }
{
    let bytes = fetched(alloc, name, MOST_BYTES, shelf)?;
    let text = text_of_file(alloc, text_name, most, long, shelf)?;
    let image = image_of(alloc, bytes.as_slice())?;
    Ok((image, text))
}
