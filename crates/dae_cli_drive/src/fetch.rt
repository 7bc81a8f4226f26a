// Fetching the file that a job names.
ghost use Rattle.std.specs.Prelude.{◌≡◌, ◌⊎◌, ◌≤◌, length, IfOk, IfErr};
ghost use Rattle.dae_io.specs.Faults.{FetchFailed};
ghost use Rattle.dae_io.specs.Told.{IsFirst, TellsSame};
ghost use Rattle.dae_cli_drive.specs.Lines.{memory_line, read_line};
ghost use Rattle.dae_cli_drive.specs.Puts.{stop_answer, told};

use crate::notes;
use crate::stop::Stop;
use dae_io::{FetchError, Shelf};
use std::alloc::Global;

/// The first `most` bytes of the file, or all where it is shorter.
pub fn fetched<F: Shelf>(
    alloc: Global,
    name: &str,
    most: u32,
    shelf: &mut F,
) -> Result<Vec<u8>, Stop>
    ensures bytes { IfOk result (λ text. IsFirst most (F.told shelf.old name.now) text.items) }
    ensures short { IfOk result (λ text. length text.items ≤ most) }
    ensures err { IfErr result (λ stop. (stop_answer stop ≡ told 7 memory_line)
        ⊎ ((stop_answer stop ≡ told 5 (read_line name.now))
        × FetchFailed (F.count shelf.old) (F.count shelf.new) (F.last shelf.new) name.now)) }
    ensures held { TellsSame (F.told shelf.old) (F.told shelf.new) }
    ensures counted { F.count shelf.old ≤ F.count shelf.new }
    ensures given { F.given shelf.new ≡ F.given shelf.old }
{
    let Ok(line) = notes::read_line(alloc, name) else {
        return Err(Stop::Memory);
    };
    match shelf.fetch(alloc, name, most) {
        Ok(text) => Ok(text),
        Err(FetchError::Failed) => Err(Stop::Told(5, line)),
        Err(FetchError::Memory) => Err(Stop::Memory),
    }
}
