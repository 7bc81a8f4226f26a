// A shelf over the real files.
ghost use Rattle.std.specs.Prelude.{◌≡◌, ℕ, ◌≤◌, [], length, IfOk, None};

use crate::faults::Faults;
use crate::given::{Given, PutCall};
use crate::shelf::{FetchError, KeepFailed, Shelf};
use crate::sink::SinkFailed;
use crate::transfer::{read_most, write_whole};
use std::alloc::Global;
use std::fs::{File, Files};

/// The shelf of the real files: a name is a path. It tells nothing of what they hold.
#[derive(Drop)]
pub struct DirShelf<'r, R> {
    pub files: &'r R,
    pub faults: Faults,
    pub given: Given,
}

impl<'r, R: Files> DirShelf<'r, R> {
    /// The shelf of these files.
    pub fn new(files: &'r R) -> DirShelf<'r, R>
        ensures count { result.faults.count ≡ 0 }
        ensures last { result.faults.last.fault ≡ None }
        ensures given { result.given.pieces ≡ [] }
    {
        DirShelf {
            files,
            faults: Faults::none(),
            given: Given::nothing(),
        }
    }
}

fn read_file<R: Files>(
    files: &R,
    alloc: Global,
    name: &str,
    most: usize,
) -> Result<Vec<u8>, FetchError>
    ensures { IfOk result (λ text. length text.items ≤ most) }
{
    let mut file = File::open(files, name).map_err(|_| FetchError::Failed)?;
    read_most(&mut file, alloc, most)
}

fn write_file<R: Files>(files: &R, name: &str, bytes: &[u8]) -> Result<(), SinkFailed> {
    let mut file = File::create(files, name).map_err(|_| SinkFailed)?;
    write_whole(&mut file, bytes)
}

impl<'r, R: Files> Shelf for DirShelf<'r, R> {
    ghost told = { λ _ _. None };

    ghost count = { λ shelf. shelf.faults.count };

    ghost last = { λ shelf. shelf.faults.last.fault };

    ghost given = { λ shelf. shelf.given.pieces };

    fn fetch(&mut self, alloc: Global, name: &str, most: u32) -> Result<Vec<u8>, FetchError> {
        let text = read_file(self.files, alloc, name, most as usize);
        if let Err(FetchError::Failed) = &text {
            self.faults.fetch_failed(name);
        }
        text
    }

    fn keep(&mut self, name: &str, bytes: &[u8]) -> Result<(), KeepFailed> {
        self.given = self.given.then(&PutCall { piece: bytes });
        let written = write_file(self.files, name, bytes);
        if written.is_err() {
            self.faults.keep_failed(name);
            return Err(KeepFailed);
        }
        Ok(())
    }
}
