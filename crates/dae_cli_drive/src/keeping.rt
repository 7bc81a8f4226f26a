// The bytes that a job keeps under a name.
ghost use Rattle.std.specs.Prelude.{◌≡◌, ◌⊎◌, IfOk, string_bytes};
ghost use Rattle.dae_cli_drive.specs.Keeping.{KeptOrNot, TellsBut, kept_line};
ghost use Rattle.dae_cli_drive.specs.Shelves.{KeepsOnce, shelf_seen};

use crate::noted;
use dae_io::{Shelf, Sink};
use std::alloc::{AllocError, Global};

/// Keeps bytes under a name, puts the line on that, and answers with the status. It takes no memory.
pub fn keep_bytes<F: Shelf, N: Sink>(
    to: &str,
    bytes: &[u8],
    kept: &[u8],
    shelf: &mut F,
    note: &mut N,
) -> u8
    requires { kept.now ≡ kept_line to.now }
    ensures gives { KeptOrNot (shelf_seen F.told F.count F.last F.given shelf.old shelf.new)
        to.now bytes.now result (N.seen note.old) (N.seen note.new) }
    ensures held { TellsBut to.now (F.told shelf.old) (F.told shelf.new) }
    ensures once { KeepsOnce (shelf_seen F.told F.count F.last F.given shelf.old shelf.new)
        bytes.now }
    ensures ends { (result ≡ 0) ⊎ (result ≡ 6) }
{
    match shelf.keep(to, bytes) {
        Ok(()) => noted(note, kept, 0),
        Err(_) => 6,
    }
}

/// The line that tells under which name an image is kept.
pub fn kept_line(alloc: Global, to: &str) -> Result<String, AllocError>
    ensures { IfOk result (λ line. string_bytes line ≡ kept_line to.now) }
{
    format!(in alloc; "kept {to}\n")
}
