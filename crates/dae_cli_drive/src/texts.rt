// The text of a file, with a limit on its bytes.
ghost use Rattle.std.specs.Prelude.{◌≤◌, ◌<◌, IfErr, IfOk};
ghost use Rattle.dae_cli_drive.specs.Puts.{stop_answer};
ghost use Rattle.dae_cli_drive.specs.Shelves.{KeepsNothing, shelf_seen};
ghost use Rattle.dae_cli_drive.specs.TextFiles.{DueOfTextFile, IsTextOfFile, NoneOfText};

use crate::{Stop, fetched};
use dae_io::Shelf;
use std::alloc::Global;

/// The text of the file with this name, which has at most so many bytes. It is asked for one byte more.
///
/// # Errors
///
/// The file isn't got, its text is longer, which the line `long` tells with status 2, or memory is wanting.
pub fn text_of_file<F: Shelf>(
    alloc: Global,
    name: &str,
    most: u32,
    long: &str,
    shelf: &mut F,
) -> Result<Vec<u8>, Stop>
    requires { most < 4294967295 }
    ensures ok { IfOk result (λ text.
        IsTextOfFile (F.told shelf.old) name.now most text.items) }
    ensures err { IfErr result (λ stop. DueOfTextFile name.now most long.now
        (shelf_seen F.told F.count F.last F.given shelf.old shelf.new) NoneOfText
        (stop_answer stop)) }
    ensures kept { KeepsNothing (shelf_seen F.told F.count F.last F.given shelf.old shelf.new) }
    ensures counted { F.count shelf.old ≤ F.count shelf.new }
{
    let text = fetched(alloc, name, most + 1, shelf)?;
    if text.len() > most as usize {
        return Err(Stop::told(2, String::from_str(alloc, long)));
    }
    Ok(text)
}
