//! Each call of the tables, where nothing fails, and where each put, each fetch and the keep fails in turn: it ends there.

use crate::calls::answer_over;
use crate::compilations::COMPILATIONS;
use crate::held::{add_pieces, held_by, pieces_in};
use crate::others::OTHERS;
use crate::parts::{add, number_in, status_in, told};
use crate::programs::PROGRAMS;
use crate::runs::RUNS;
use crate::traces::TRACES;
use dae_io::MemShelf;
use dae_rows::part;
use std::alloc::{AllocError, Global};
use std::process::Abort;

/// The first bytes of an image.
const IMAGE: &[u8] = b"DAE1\x02\0\0\0";

/// Whether a note is as due, where the number of steps may be left to the compiler.
fn is_noted(note: &[u8], due: &[u8]) -> bool {
    note == due || due.ends_with(b"steps ") && note.starts_with(due)
}

/// Whether a text begins so, or there is none.
fn is_begun(text: Option<&[u8]>, due: Option<&[u8]>) -> bool {
    match (text, due) {
        (Some(text), Some(first)) => text.starts_with(first),
        (None, None) => true,
        _ => false,
    }
}

/// The shelf holds this text of a row as before, if it has a name.
fn check_text(
    rt: &impl Abort,
    alloc: Global,
    shelf: &MemShelf,
    row: &str,
    at: usize,
) -> Result<(), AllocError> {
    let name = part(row, at);
    if name.is_empty() {
        return Ok(());
    }
    let text = told(alloc, part(row, at.saturating_add(1)))?;
    assert_eq!(rt; shelf.text_of(name), Some(text.as_slice()), "{row}");
    Ok(())
}

/// The shelf holds a row's texts as before, and this under the name of its image.
fn check_shelf(
    rt: &impl Abort,
    alloc: Global,
    shelf: &MemShelf,
    row: &str,
    kept: Option<&[u8]>,
) -> Result<(), AllocError> {
    check_text(rt, alloc, shelf, row, 7)?;
    check_text(rt, alloc, shelf, row, 9)?;
    check_text(rt, alloc, shelf, row, 11)?;
    assert!(rt; is_begun(shelf.text_of("q"), kept), "{row}");
    Ok(())
}

/// The row is answered as due over the shelf, where the puts with these numbers fail.
fn check_puts(
    rt: &impl Abort,
    alloc: Global,
    row: &str,
    shelf: &mut MemShelf,
    failing: (u64, u64),
    due: (u8, &[u8], &[u8]),
) -> Result<(), AllocError> {
    let answer = answer_over(alloc, part(row, 0), shelf, failing)?;
    assert!(rt; answer.status == due.0 && answer.put() == due.1, "{row}");
    assert!(rt; is_noted(answer.noted(), due.2), "{row}");
    Ok(())
}

/// The row is answered as due, where the calls of the shelf and the puts on out and on note with these numbers fail.
fn check_answer(
    rt: &impl Abort,
    alloc: Global,
    row: &str,
    failing: (u64, u64, u64),
    due: (u8, &[u8], &[u8]),
    kept: Option<&[u8]>,
) -> Result<(), AllocError> {
    let mut shelf = held_by(alloc, row, failing.0)?;
    check_puts(rt, alloc, row, &mut shelf, (failing.1, failing.2), due)?;
    check_shelf(rt, alloc, &shelf, row, kept)
}

/// So many pieces, one behind the other.
fn first_of(alloc: Global, pieces: &str, count: usize) -> Result<Vec<u8>, AllocError> {
    let mut bytes = Vec::new(alloc);
    add_pieces(&mut bytes, pieces, count)?;
    Ok(bytes)
}

/// So many pieces, and the first byte of the next.
fn cut_behind(alloc: Global, pieces: &str, count: usize) -> Result<Vec<u8>, AllocError> {
    let mut bytes = Vec::new(alloc);
    add_pieces(&mut bytes, pieces, count)?;
    let whole = bytes.len();
    add(&mut bytes, pieces.split('^').nth(count).unwrap_or(""))?;
    bytes.truncate(whole.saturating_add(1));
    Ok(bytes)
}

/// The number of the call behind so many others.
fn call_behind(count: usize) -> u64 {
    (count as u64).saturating_add(1)
}

/// The first bytes of what a row keeps.
fn kept_by(row: &str) -> Option<&'static [u8]> {
    if part(row, 4).is_empty() {
        None
    } else {
        Some(IMAGE)
    }
}

/// Nothing fails.
fn answer_whole(rt: &impl Abort, alloc: Global, row: &str) -> Result<(), AllocError> {
    let out = first_of(alloc, part(row, 5), pieces_in(row, 5))?;
    let note = first_of(alloc, part(row, 6), pieces_in(row, 6))?;
    let due = (status_in(row, 2), out.as_slice(), note.as_slice());
    check_answer(rt, alloc, row, (0, 0, 0), due, kept_by(row))
}

/// The put on out behind so many others fails.
fn fail_out(rt: &impl Abort, alloc: Global, row: &str, count: usize) -> Result<(), AllocError> {
    let out = cut_behind(alloc, part(row, 5), count)?;
    let note = first_of(alloc, part(row, 6), number_in(row, 3))?;
    let due = (6, out.as_slice(), note.as_slice());
    check_answer(rt, alloc, row, (0, call_behind(count), 0), due, None)
}

/// The put on note behind so many others fails. What is due on out and on the shelf is there exactly where it came before.
fn fail_note(rt: &impl Abort, alloc: Global, row: &str, count: usize) -> Result<(), AllocError> {
    let late = count >= number_in(row, 3);
    let out = first_of(
        alloc,
        part(row, 5),
        if late { pieces_in(row, 5) } else { 0 },
    )?;
    let note = cut_behind(alloc, part(row, 6), count)?;
    let due = (6, out.as_slice(), note.as_slice());
    let kept = if late { kept_by(row) } else { None };
    check_answer(rt, alloc, row, (0, 0, call_behind(count)), due, kept)
}

/// The fetch behind so many others fails; and then the put of its line too.
fn fail_fetch(
    rt: &impl Abort,
    alloc: Global,
    row: &str,
    name: &str,
    count: usize,
) -> Result<(), AllocError> {
    let line = format!(in alloc; "read {name}\n")?;
    let call = call_behind(count);
    let due: (u8, &[u8], &[u8]) = (5, b"", line.as_bytes());
    check_answer(rt, alloc, row, (call, 0, 0), due, None)?;
    let due: (u8, &[u8], &[u8]) = (6, b"", b"r");
    check_answer(rt, alloc, row, (call, 0, 1), due, None)
}

/// The fetch of a text fails, if it has a name, behind so many others.
fn fail_text(
    rt: &impl Abort,
    alloc: Global,
    row: &str,
    name: &str,
    count: usize,
) -> Result<(), AllocError> {
    if name.is_empty() {
        return Ok(());
    }
    fail_fetch(rt, alloc, row, name, count)
}

/// The fetch of the image fails, if there is one, and that of each text.
fn fail_fetches(rt: &impl Abort, alloc: Global, row: &str) -> Result<(), AllocError> {
    let mut before: usize = 0;
    if !part(row, 1).is_empty() {
        fail_fetch(rt, alloc, row, "p", 0)?;
        before = 1;
    }
    fail_text(rt, alloc, row, part(row, 7), before)?;
    fail_text(rt, alloc, row, part(row, 9), before.saturating_add(1))?;
    fail_text(rt, alloc, row, part(row, 11), before.saturating_add(2))
}

/// The keep fails, behind the fetch of a text, and leaves the first byte of an image.
fn fail_keep(rt: &impl Abort, alloc: Global, row: &str) -> Result<(), AllocError> {
    let note = first_of(alloc, part(row, 6), number_in(row, 3))?;
    let due: (u8, &[u8], &[u8]) = (6, b"", note.as_slice());
    check_answer(rt, alloc, row, (2, 0, 0), due, Some(b"D"))
}

fn fail_outs(rt: &impl Abort, alloc: Global, row: &str) -> Result<(), AllocError> {
    for count in 0..pieces_in(row, 5) {
        fail_out(rt, alloc, row, count)?;
    }
    Ok(())
}

fn fail_notes(rt: &impl Abort, alloc: Global, row: &str) -> Result<(), AllocError> {
    for count in 0..pieces_in(row, 6) {
        fail_note(rt, alloc, row, count)?;
    }
    Ok(())
}

/// Nothing fails, and then each put, each fetch and the keep in turn.
fn fail_in_turn(rt: &impl Abort, alloc: Global, row: &str) -> Result<(), AllocError> {
    answer_whole(rt, alloc, row)?;
    fail_outs(rt, alloc, row)?;
    fail_notes(rt, alloc, row)?;
    fail_fetches(rt, alloc, row)?;
    if part(row, 4).is_empty() {
        return Ok(());
    }
    fail_keep(rt, alloc, row)
}

fn fail_each(rt: &impl Abort, alloc: Global, rows: &str) -> Result<(), AllocError> {
    for row in rows.lines() {
        fail_in_turn(rt, alloc, row)?;
    }
    Ok(())
}

#[test]
fn each_call_ends_where_one_fails(rt: HostRuntime) -> Result<(), AllocError> {
    fail_each(&rt, rt.alloc(), PROGRAMS)?;
    fail_each(&rt, rt.alloc(), COMPILATIONS)?;
    fail_each(&rt, rt.alloc(), RUNS)?;
    fail_each(&rt, rt.alloc(), TRACES)?;
    fail_each(&rt, rt.alloc(), OTHERS)
}
