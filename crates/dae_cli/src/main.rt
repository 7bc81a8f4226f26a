// The program: reads its words, the files that they name, and answers with a status, output and notes. The work is the
// top call's, which is generic over where texts come from and where bytes go.
#![tactic(auto)]

use dae_cli_command::dae_main;
use dae_cli_drive::noted;
use dae_io::{DirShelf, StdSink};
use std::alloc::{AllocError, Global};
use std::env;
use std::io::ErrorKind;
use std::process::ExitCode;

// How large a block is taken and given back before the work begins.
const KEPT_BYTES: usize = 16_777_216;

// Takes a block and gives it back. Once the C library has seen that, it keeps smaller blocks that are given back for those
// that are taken later; else it returns each large one to the system, and takes fresh pages for the next (glibc). The block's
// own pages are never touched. Where there is no room for it the work goes on, and says itself what memory it wants.
fn keep_freed_memory(alloc: Global) {
    let _ = Vec::<u8>::with_capacity(alloc, KEPT_BYTES);
}

// The words after the program's name.
fn words_of(alloc: Global, all: env::Args<Global>) -> Result<Vec<String>, AllocError> {
    let mut words = Vec::new(alloc);
    for word in all.skip(1) {
        words.push(word)?;
    }
    Ok(words)
}

fn main(rt: HostRuntime) -> ExitCode {
    let alloc = rt.alloc();
    keep_freed_memory(alloc);
    let mut shelf = DirShelf::new(&rt);
    let mut out = StdSink::new(rt.stdout());
    let mut note = StdSink::new(rt.stderr());
    let status = match env::args(&rt) {
        Ok(all) => match words_of(alloc, all) {
            Ok(words) => dae_main(alloc, words.as_slice(), &mut shelf, &mut out, &mut note),
            Err(_) => noted(&mut note, b"memory\n", 7),
        },
        // A word that is no UTF-8 spells no job.
        Err(error) if error.kind() == ErrorKind::InvalidData => { noted(&mut note, b"words\n", 64) }
        Err(_) => noted(&mut note, b"memory\n", 7),
    };
    ExitCode::from(status)
}
