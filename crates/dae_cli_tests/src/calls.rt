//! Calls of the program over texts in memory.

use crate::parts::told;
use dae_cli_command::dae_main;
use dae_io::{FailingCall, MemShelf, MemSink};
use std::alloc::{AllocError, Global};
use std::process::Abort;

static SCHEDULES: [&str; 7] = [
    "--schedule=round",
    "--schedule=a",
    "--schedule=e",
    "--schedule=fill",
    "--schedule=drain",
    "--schedule=seed:1",
    "--schedule=seed:4294967295",
];

/// Options for schedules of every kind.
pub fn schedules() -> &'static [&'static str] {
    SCHEDULES.as_slice()
}

/// The words of a line, which have blanks between them.
fn words_in(alloc: Global, line: &str) -> Result<Vec<String>, AllocError> {
    let mut words = Vec::new(alloc);
    for word in line.split(' ') {
        if !word.is_empty() {
            words.push(String::from_str(alloc, word)?)?;
        }
    }
    Ok(words)
}

/// The call with this number, from 1 on, which takes one byte and fails; 0 is none.
fn failing_at(number: u64) -> FailingCall {
    FailingCall {
        call: number,
        taken: 1,
    }
}

/// An empty shelf of which the call with this number fails.
pub fn empty_shelf(alloc: Global, fails: u64) -> Result<Box<MemShelf>, AllocError> {
    let shelf = MemShelf::new(alloc, &[failing_at(fails)])?;
    Ok(Box::new(alloc, shelf)?)
}

/// A shelf that holds one file.
pub fn shelf_of(alloc: Global, name: &str, text: &[u8]) -> Result<Box<MemShelf>, AllocError> {
    let mut shelf = empty_shelf(alloc, 0)?;
    shelf.hold(alloc, name, text)?;
    Ok(shelf)
}

/// Puts what a part tells on the shelf, if it has a name.
pub fn hold_text(
    alloc: Global,
    shelf: &mut MemShelf,
    name: &str,
    part: &str,
) -> Result<(), AllocError> {
    if name.is_empty() {
        return Ok(());
    }
    let text = told(alloc, part)?;
    shelf.hold(alloc, name, text.as_slice())
}

/// What a call answers.
#[derive(Drop)]
pub struct Answer {
    pub status: u8,
    pub out: MemSink,
    pub note: MemSink,
}

impl Answer {
    /// Answers the call of these words.
    fn make(&mut self, alloc: Global, words: &[String], shelf: &mut MemShelf) {
        self.status = dae_main(alloc, words, shelf, &mut self.out, &mut self.note);
    }

    /// The bytes on out.
    pub fn put(&self) -> &[u8] {
        self.out.taken.as_slice()
    }

    /// The bytes on note.
    pub fn noted(&self) -> &[u8] {
        self.note.taken.as_slice()
    }
}

/// The answer before a call, where the puts with these numbers fail.
fn unanswered(alloc: Global, on_out: u64, on_note: u64) -> Result<Box<Answer>, AllocError> {
    let out = MemSink::with_room(alloc, 65_536, &[failing_at(on_out)])?;
    let note = MemSink::with_room(alloc, 65_536, &[failing_at(on_note)])?;
    let status = 255;
    Ok(Box::new(alloc, Answer { status, out, note })?)
}

/// What is answered for the words of a line, where the puts with these numbers fail, on out and on note.
pub fn answer_over(
    alloc: Global,
    line: &str,
    shelf: &mut MemShelf,
    (on_out, on_note): (u64, u64),
) -> Result<Box<Answer>, AllocError> {
    let words = words_in(alloc, line)?;
    let mut answer = unanswered(alloc, on_out, on_note)?;
    answer.make(alloc, words.as_slice(), shelf);
    Ok(answer)
}

/// A line's words are answered so: the status, what is put out and what is noted.
pub fn check_answer(
    rt: &impl Abort,
    alloc: Global,
    line: &str,
    shelf: &mut MemShelf,
    due: (u8, &[u8], &[u8]),
) -> Result<(), AllocError> {
    let answer = answer_over(alloc, line, shelf, (0, 0))?;
    let is_due = (answer.status, answer.put(), answer.noted()) == due;
    assert!(rt; is_due, "{line}");
    Ok(())
}

/// A line's words are answered so, where the lines with a budget or a number of steps are left out of what is noted.
pub fn check_lines(
    rt: &impl Abort,
    alloc: Global,
    line: &str,
    shelf: &mut MemShelf,
    due: (u8, &[u8], &[u8]),
) -> Result<(), AllocError> {
    let answer = answer_over(alloc, line, shelf, (0, 0))?;
    let lines = lines_of(alloc, answer.noted())?;
    let is_due = (answer.status, answer.put(), lines.as_slice()) == due;
    assert!(rt; is_due, "{line}");
    Ok(())
}

/// The lines of a note but those with a budget or a number of steps.
fn lines_of(alloc: Global, note: &[u8]) -> Result<Vec<u8>, AllocError> {
    let mut lines = Vec::new(alloc);
    add_lines(&mut lines, note)?;
    Ok(lines)
}

fn add_lines(lines: &mut Vec<u8>, note: &[u8]) -> Result<(), AllocError> {
    for line in note.split_inclusive(|b| *b == b'\n') {
        if !line.starts_with(b"budget ") && !line.starts_with(b"steps ") {
            lines.extend_from_slice(line)?;
        }
    }
    Ok(())
}
