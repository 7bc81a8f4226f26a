//! Images and traces of which an end is cut off or a byte is changed.

use crate::calls::{check_answer, shelf_of};
use crate::changed::CHANGED;
use crate::held::image_named;
use crate::others::TRACE;
use crate::parts::{number_in, status_in, told};
use crate::runs::STORES_BESIDE;
use dae_io::MemShelf;
use dae_rows::{bytes_of, part};
use std::alloc::{AllocError, Global};
use std::process::Abort;

/// Words of each job over an image, which lies under the name `p`.
const JOBS: &str = "exec p;trace p;time p;dis p;check p t;debug p t;guard p t";

/// A shelf with an image and a text under the names `p` and `t`.
fn shelf_with(alloc: Global, image: &[u8], text: &[u8]) -> Result<Box<MemShelf>, AllocError> {
    let mut shelf = shelf_of(alloc, "p", image)?;
    shelf.hold(alloc, "t", text)?;
    Ok(shelf)
}

/// The words are answered with this status, output and note where `p` and `t` hold these texts.
fn check_files(
    rt: &impl Abort,
    alloc: Global,
    line: &str,
    (image, text): (&[u8], &[u8]),
    due: (u8, &[u8], &[u8]),
) -> Result<(), AllocError> {
    let mut shelf = shelf_with(alloc, image, text)?;
    check_answer(rt, alloc, line, &mut shelf, due)
}

/// The first bytes of an image, so many, are refused by the job.
fn refuse_start(
    rt: &impl Abort,
    alloc: Global,
    line: &str,
    image: &[u8],
    length: usize,
) -> Result<(), AllocError> {
    let note = format!(in alloc; "image short {length}\n")?;
    let start = image.get(..length).unwrap_or(image);
    let due: (u8, &[u8], &[u8]) = (8, b"", note.as_bytes());
    check_files(rt, alloc, line, (start, b""), due)
}

/// Each start of an image is refused by the job.
fn refuse_starts(
    rt: &impl Abort,
    alloc: Global,
    line: &str,
    image: &[u8],
) -> Result<(), AllocError> {
    for length in 0..image.len() {
        refuse_start(rt, alloc, line, image, length)?;
    }
    Ok(())
}

fn refuse_by_each(rt: &impl Abort, alloc: Global, image: &[u8]) -> Result<(), AllocError> {
    for line in JOBS.split(';') {
        refuse_starts(rt, alloc, line, image)?;
    }
    Ok(())
}

#[test]
fn each_job_refuses_each_start_of_an_image(rt: HostRuntime) -> Result<(), AllocError> {
    let image = bytes_of(rt.alloc(), STORES_BESIDE)?;
    refuse_by_each(&rt, rt.alloc(), image.as_slice())
}

/// The text with the lowest bit of one byte turned.
fn with_bit_turned(alloc: Global, text: &[u8], place: usize) -> Result<Vec<u8>, AllocError> {
    let mut other = Vec::from_slice(alloc, text)?;
    if let Some(byte) = other.as_mut_slice().get_mut(place) {
        *byte ^= 1;
    }
    Ok(other)
}

/// The image with the lowest bit of the byte at a place turned is answered so.
fn check_change(
    rt: &impl Abort,
    alloc: Global,
    image: &[u8],
    place: usize,
    due: (u8, &[u8], &[u8]),
) -> Result<(), AllocError> {
    let changed = with_bit_turned(alloc, image, place)?;
    let files: (&[u8], &[u8]) = (changed.as_slice(), b"");
    check_files(rt, alloc, "exec --steps=400 p", files, due)
}

/// The image is answered so with each of these places changed.
fn check_places(
    rt: &impl Abort,
    alloc: Global,
    image: &[u8],
    (first, last): (usize, usize),
    due: (u8, &[u8], &[u8]),
) -> Result<(), AllocError> {
    for place in first..=last {
        check_change(rt, alloc, image, place, due)?;
    }
    Ok(())
}

/// The answers of a line of the table.
fn check_changes(rt: &impl Abort, alloc: Global, line: &str) -> Result<(), AllocError> {
    let image = bytes_of(alloc, image_named(part(line, 0)))?;
    let out = told(alloc, part(line, 4))?;
    let note = told(alloc, part(line, 5))?;
    let places = (number_in(line, 1), number_in(line, 2));
    let due = (status_in(line, 3), out.as_slice(), note.as_slice());
    check_places(rt, alloc, image.as_slice(), places, due)
}

fn check_table(rt: &impl Abort, alloc: Global, lines: &str) -> Result<(), AllocError> {
    for line in lines.lines() {
        check_changes(rt, alloc, line)?;
    }
    Ok(())
}

#[test]
fn each_byte_of_an_image_counts(rt: HostRuntime) -> Result<(), AllocError> {
    check_table(&rt, rt.alloc(), CHANGED)
}

/// How many line feeds stand in the first bytes of a text, so many.
fn lines_before(text: &[u8], length: usize) -> usize {
    let mut lines: usize = 0;
    for byte in text.iter().take(length) {
        if *byte == b'\n' {
            lines = lines.saturating_add(1);
        }
    }
    lines
}

/// The note of a check of which this is the line behind the budget's.
fn note_of_check(alloc: Global, line: &str) -> Result<String, AllocError> {
    format!(in alloc; "budget ld 1 al 0 sa 1 sd 1 ab 0 eb 0 cq 0\n{line}\n")
}

/// The trace with one byte changed: its line isn't that of an enabled step.
fn check_turned(
    rt: &impl Abort,
    alloc: Global,
    image: &[u8],
    place: usize,
) -> Result<(), AllocError> {
    let text = TRACE.as_bytes();
    let number = lines_before(text, place).saturating_add(1);
    let line = format!(in alloc; "not-a-run {number}")?;
    let changed = with_bit_turned(alloc, text, place)?;
    check_part(rt, alloc, (image, changed.as_slice()), 10, line.as_str())
}

/// The first bytes of the trace are checked with this status and line.
fn check_part(
    rt: &impl Abort,
    alloc: Global,
    files: (&[u8], &[u8]),
    status: u8,
    line: &str,
) -> Result<(), AllocError> {
    let note = note_of_check(alloc, line)?;
    let due: (u8, &[u8], &[u8]) = (status, b"", note.as_bytes());
    check_files(rt, alloc, "check p t", files, due)
}

/// The first bytes of the trace: whole lines are a run, and a part of a line is none.
fn check_start(
    rt: &impl Abort,
    alloc: Global,
    image: &[u8],
    length: usize,
) -> Result<(), AllocError> {
    let text = TRACE.as_bytes();
    let start = text.get(..length).unwrap_or(text);
    if start.is_empty() || start.ends_with(b"\n") {
        return check_part(rt, alloc, (image, start), 3, "running");
    }
    let number = lines_before(text, length).saturating_add(1);
    let line = format!(in alloc; "not-a-run {number}")?;
    check_part(rt, alloc, (image, start), 10, line.as_str())
}

fn check_bytes_of_trace(rt: &impl Abort, alloc: Global, image: &[u8]) -> Result<(), AllocError> {
    for place in 0..TRACE.len() {
        check_turned(rt, alloc, image, place)?;
        check_start(rt, alloc, image, place)?;
    }
    Ok(())
}

#[test]
fn each_byte_of_a_trace_counts(rt: HostRuntime) -> Result<(), AllocError> {
    let image = bytes_of(rt.alloc(), STORES_BESIDE)?;
    check_bytes_of_trace(&rt, rt.alloc(), image.as_slice())
}

/// The words, how many bytes `x` are under the name `t`, the status, and what is put out and noted.
const LENGTHS: &str = "\
    debug p t|1048576|3|bad command`|budget ld 1 al 0 sa 1 sd 1 ab 0 eb 0 cq 0`running`steps 0`\n\
    debug p t|1048577|2||refused script-too-long`\n\
    guard p t|1048576|2||refused guard-line 1`\n\
    guard p t|1048577|2||refused certificate-too-long`";

/// The answer of a line on lengths.
fn check_length(rt: &impl Abort, alloc: Global, line: &str) -> Result<(), AllocError> {
    let out = told(alloc, part(line, 3))?;
    let note = told(alloc, part(line, 4))?;
    let long = vec![in alloc; b'x'; number_in(line, 1)]?;
    let image = bytes_of(alloc, STORES_BESIDE)?;
    let due = (status_in(line, 2), out.as_slice(), note.as_slice());
    let files = (image.as_slice(), long.as_slice());
    check_files(rt, alloc, part(line, 0), files, due)
}

fn check_lengths(rt: &impl Abort, alloc: Global, lines: &str) -> Result<(), AllocError> {
    for line in lines.lines() {
        check_length(rt, alloc, line)?;
    }
    Ok(())
}

#[test]
fn texts_have_a_most_length(rt: HostRuntime) -> Result<(), AllocError> {
    check_lengths(&rt, rt.alloc(), LENGTHS)
}
