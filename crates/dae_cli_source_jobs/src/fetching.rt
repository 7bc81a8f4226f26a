// The texts of the source files of a job, which are fetched in order.
ghost use Rattle.std.specs.Prelude.{◌≡◌, ◌⊎◌, ◌≤◌, IfErr, IfOk, length, map, string_bytes};
ghost use Rattle.dae_io.specs.Told.{TellsSame};
ghost use Rattle.dae_accept.specs.Read.{texts_in};
ghost use Rattle.dae_cli_drive.specs.Lines.{memory_line};
ghost use Rattle.dae_cli_drive.specs.Puts.{stop_answer, told};
ghost use Rattle.dae_cli_source_jobs.specs.Fetching.{AreFetched, IsFirstNotFetched, IsNotFetched, most_source};
ghost use Rattle.dae_cli_drive.specs.Shelves.{IsTold, shelf_seen};

use crate::too_long_line;
use dae_cli_drive::{Stop, fetched};
use dae_io::Shelf;
use std::alloc::Global;

/// How many bytes the sources of a job may have.
const MOST_SOURCE: u32 = 1_048_576;

/// The texts of the files with these names, which together have at most 1,048,576 bytes.
pub fn fetch_all<F: Shelf>(
    alloc: Global,
    names: &[String],
    shelf: &mut F,
) -> Result<Vec<Vec<u8>>, Stop>
    ensures ok { IfOk result (λ texts. AreFetched (F.told shelf.old) most_source
        (map string_bytes names.now) (texts_in texts.items)) }
    ensures err { IfErr result (λ stop. (stop_answer stop ≡ told 7 memory_line)
        ⊎ IsFirstNotFetched (shelf_seen F.told F.count F.last F.given shelf.old shelf.new)
        most_source (map string_bytes names.now) (stop_answer stop)) }
    ensures held { TellsSame (F.told shelf.old) (F.told shelf.new) }
    ensures counted { F.count shelf.old ≤ F.count shelf.new }
    ensures given { F.given shelf.new ≡ F.given shelf.old }
{
    let mut texts = Vec::new(alloc);
    let mut left = MOST_SOURCE;
    for name in names {
        let text = fetch_one(alloc, name.as_str(), left, shelf)?;
        left -= text.len() as u32;
        if texts.push(text).is_err() {
            return Err(Stop::Memory);
        }
    }
    Ok(texts)
}

// The text of a file, which has at most so many bytes. It is asked for one byte more.
fn fetch_one<F: Shelf>(alloc: Global, name: &str, left: u32, shelf: &mut F) -> Result<Vec<u8>, Stop>
    requires { left ≤ 1048576 }
    ensures text { IfOk result (λ text. IsTold (F.told shelf.old) name.now text.items) }
    ensures short { IfOk result (λ text. length text.items ≤ left) }
    ensures err { IfErr result (λ stop. (stop_answer stop ≡ told 7 memory_line)
        ⊎ IsNotFetched (shelf_seen F.told F.count F.last F.given shelf.old shelf.new) left
        name.now (stop_answer stop)) }
    ensures held { TellsSame (F.told shelf.old) (F.told shelf.new) }
    ensures counted { F.count shelf.old ≤ F.count shelf.new }
    ensures given { F.given shelf.new ≡ F.given shelf.old }
{
    let text = fetched(alloc, name, left + 1, shelf)?;
    if text.len() > left as usize {
        return Err(Stop::told(2, too_long_line(alloc, name)));
    }
    Ok(text)
}
