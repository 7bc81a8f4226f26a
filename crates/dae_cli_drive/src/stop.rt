// How a job ends before a machine is opened: with one line on note.
ghost use Rattle.std.specs.Prelude.{◌≡◌, IfOk, List, ℕ, string_bytes};
ghost use Rattle.dae_cli_drive.specs.Puts.{GivesNotes, TellsOrWants, stop_answer, told};

use dae_io::Sink;
use std::alloc::AllocError;

/// Why a job ends before a machine is opened: for a reason that a line tells, with a status; or memory was wanting.
#[derive(Drop)]
pub enum Stop {
    Told(u8, String),
    Memory,
}

impl Stop {
    /// The stop that a line tells, or want of memory where there was none for the line.
    pub fn told(status: u8, line: Result<String, AllocError>) -> Stop
        ensures { (wanted : List ℕ) → IfOk line (λ text. string_bytes text ≡ wanted)
            → TellsOrWants result status wanted }
    {
        match line {
            Ok(text) => Stop::Told(status, text),
            Err(_) => Stop::Memory,
        }
    }

    /// Puts the line on note, and answers with the status, or with 6 where the put failed.
    pub fn tell<N: Sink>(&self, note: &mut N) -> u8
        ensures { GivesNotes (stop_answer self.now) result (N.seen note.old) (N.seen note.new) }
    {
        match self {
            Stop::Told(status, line) => noted(note, line.as_bytes(), *status),
            Stop::Memory => noted(note, b"memory\n", 7),
        }
    }
}

/// Puts a line on note, and answers with the status, or with 6 where the put failed.
pub fn noted<N: Sink>(note: &mut N, line: &[u8], status: u8) -> u8
    ensures { GivesNotes (told status line.now) result (N.seen note.old) (N.seen note.new) }
{
    match note.put(line) {
        Ok(()) => status,
        Err(_) => 6,
    }
}
