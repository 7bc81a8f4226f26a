//! Rows of words and texts, with the status, the output and the lines that are due.

use crate::calls::{
    answer_over, check_answer, check_lines, empty_shelf, hold_text, schedules, shelf_of,
};
use crate::parts::{add, status_in, told};
use crate::rows::{FILES, LONG, ROWS, TWICE};
use dae_io::MemShelf;
use dae_rows::part;
use std::alloc::{AllocError, Global};
use std::process::Abort;

/// A shelf with a row's files, two at most.
fn row_shelf(alloc: Global, row: &str) -> Result<Box<MemShelf>, AllocError> {
    let mut shelf = empty_shelf(alloc, 0)?;
    hold_text(alloc, &mut shelf, part(row, 4), part(row, 5))?;
    hold_text(alloc, &mut shelf, part(row, 6), part(row, 7))?;
    Ok(shelf)
}

/// The row's answer to these words, whatever is noted.
fn check_put(
    rt: &impl Abort,
    alloc: Global,
    row: &str,
    words: &str,
    shelf: &mut MemShelf,
) -> Result<(), AllocError> {
    let answer = answer_over(alloc, words, shelf, (0, 0))?;
    let out = told(alloc, part(row, 2))?;
    assert!(rt;
        answer.status == status_in(row, 1) && answer.put() == out.as_slice(),
        "{row}"
    );
    Ok(())
}

/// The row's answer to these words.
fn check_noted(
    rt: &impl Abort,
    alloc: Global,
    row: &str,
    words: &str,
    shelf: &mut MemShelf,
) -> Result<(), AllocError> {
    let out = told(alloc, part(row, 2))?;
    let lines = told(alloc, part(row, 3))?;
    let due = (status_in(row, 1), out.as_slice(), lines.as_slice());
    check_lines(rt, alloc, words, shelf, due)
}

fn check_row(rt: &impl Abort, alloc: Global, row: &str, words: &str) -> Result<(), AllocError> {
    let mut shelf = row_shelf(alloc, row)?;
    if part(row, 3) == "?" {
        check_put(rt, alloc, row, words, &mut shelf)
    } else {
        check_noted(rt, alloc, row, words, &mut shelf)
    }
}

fn check_rows(rt: &impl Abort, alloc: Global, rows: &str) -> Result<(), AllocError> {
    for row in rows.lines() {
        check_row(rt, alloc, row, part(row, 0))?;
    }
    Ok(())
}

#[test]
fn each_row_is_answered(rt: HostRuntime) -> Result<(), AllocError> {
    check_rows(&rt, rt.alloc(), ROWS)?;
    check_rows(&rt, rt.alloc(), FILES)
}

/// The row's answer under a schedule.
fn check_under(
    rt: &impl Abort,
    alloc: Global,
    row: &str,
    schedule: &str,
) -> Result<(), AllocError> {
    let words = part(row, 0);
    let options = words.strip_prefix("run").unwrap_or(words);
    let words = format!(in alloc; "run {schedule}{options}")?;
    check_row(rt, alloc, row, words.as_str())
}

/// The row's answer under each schedule.
fn check_alike(rt: &impl Abort, alloc: Global, row: &str) -> Result<(), AllocError> {
    for schedule in schedules() {
        check_under(rt, alloc, row, schedule)?;
    }
    Ok(())
}

/// Whether a row is of a run whose words name no schedule.
fn is_any_run(row: &str) -> bool {
    matches!(status_in(row, 1), 0 | 1 | 3) && !part(row, 0).contains("--schedule")
}

fn check_all_alike(rt: &impl Abort, alloc: Global, rows: &str) -> Result<(), AllocError> {
    for row in rows.lines() {
        if is_any_run(row) {
            check_alike(rt, alloc, row)?;
        }
    }
    Ok(())
}

#[test]
fn each_row_that_runs_is_answered_alike_under_every_schedule(
    rt: HostRuntime,
) -> Result<(), AllocError> {
    check_all_alike(&rt, rt.alloc(), ROWS)
}

/// Adds a part as often as is stated before it.
fn add_often(text: &mut Vec<u8>, part: &str) -> Result<(), AllocError> {
    let (times, part) = part.split_once('*').unwrap_or(("0", ""));
    for _ in 0..times.parse::<u32>().unwrap_or(0) {
        add(text, part)?;
    }
    Ok(())
}

/// Adds the text of a long row.
fn add_long(text: &mut Vec<u8>, row: &str) -> Result<(), AllocError> {
    for part in row.split('|').skip(2) {
        add_often(text, part)?;
    }
    Ok(())
}

fn long_shelf(alloc: Global, row: &str) -> Result<Box<MemShelf>, AllocError> {
    let mut text = Vec::new(alloc);
    add_long(&mut text, row)?;
    shelf_of(alloc, "a.c", text.as_slice())
}

/// The long row's answer to these words.
fn check_long(rt: &impl Abort, alloc: Global, words: &str, row: &str) -> Result<(), AllocError> {
    let mut shelf = long_shelf(alloc, row)?;
    let note = told(alloc, part(row, 1))?;
    let due: (u8, &[u8], &[u8]) = (status_in(row, 0), b"", note.as_slice());
    check_lines(rt, alloc, words, &mut shelf, due)
}

/// Each text is answered so for the words.
fn check_long_rows(
    rt: &impl Abort,
    alloc: Global,
    words: &str,
    rows: &str,
) -> Result<(), AllocError> {
    for row in rows.lines() {
        check_long(rt, alloc, words, row)?;
    }
    Ok(())
}

/// Each long text is answered, and files share one room.
#[test]
fn each_long_text_is_answered(rt: HostRuntime) -> Result<(), AllocError> {
    check_long_rows(&rt, rt.alloc(), "run a.c", LONG)?;
    check_long_rows(&rt, rt.alloc(), "run a.c a.c", TWICE)
}

/// Adds the word of a file with this number, which is put on the shelf.
fn add_file(
    alloc: Global,
    words: &mut String,
    shelf: &mut MemShelf,
    number: u32,
) -> Result<(), AllocError> {
    let word = format!(in alloc; " {number}.c")?;
    shelf.hold(alloc, word.as_str().trim_start(), b"static int n;")?;
    words.push_str(word.as_str())
}

/// Adds the words of so many files, which are put on the shelf.
fn add_files(
    alloc: Global,
    words: &mut String,
    shelf: &mut MemShelf,
    count: u32,
) -> Result<(), AllocError> {
    for number in 0..count {
        add_file(alloc, words, shelf, number)?;
    }
    Ok(())
}

#[test]
fn the_most_files_are_run(rt: HostRuntime) -> Result<(), AllocError> {
    let alloc = rt.alloc();
    let mut shelf = shelf_of(alloc, "m.c", b"int main(void){return 7;}")?;
    let mut words = String::from_str(alloc, "run")?;
    add_files(alloc, &mut words, &mut shelf, 1_023)?;
    words.push_str(" m.c")?;
    let due: (u8, &[u8], &[u8]) = (0, b"", b"ended 7\n");
    check_lines(&rt, alloc, words.as_str(), &mut shelf, due)?;
    words.push_str(" m.c")?;
    let due: (u8, &[u8], &[u8]) = (64, b"", b"words\n");
    check_answer(&rt, alloc, words.as_str(), &mut shelf, due)
}

const PRINTS: &[u8] =
    b"#include <stdio.h>\nint main(void){printf(\"%d\\n\",12);printf(\"%d\\n\",34);return 0;}";

/// A run of the file and one of its image are answered alike.
fn check_both(rt: &impl Abort, alloc: Global, shelf: &mut MemShelf) -> Result<(), AllocError> {
    let run = answer_over(alloc, "run a.c", shelf, (0, 0))?;
    let due = (run.status, run.put(), run.noted());
    check_answer(rt, alloc, "exec p", shelf, due)
}

#[test]
fn a_kept_image_is_run_as_its_files_are(rt: HostRuntime) -> Result<(), AllocError> {
    let alloc = rt.alloc();
    let mut shelf = shelf_of(alloc, "a.c", PRINTS)?;
    shelf.make_room(alloc, 16, 1_048_576)?;
    let due: (u8, &[u8], &[u8]) = (0, b"", b"kept p\n");
    check_lines(&rt, alloc, "compile --to=p a.c", &mut shelf, due)?;
    check_both(&rt, alloc, &mut shelf)?;
    assert_eq!(rt; shelf.text_of("a.c"), Some(PRINTS));
    Ok(())
}

#[test]
fn an_image_is_not_kept(rt: HostRuntime) -> Result<(), AllocError> {
    let mut shelf = shelf_of(rt.alloc(), "a.c", PRINTS)?;
    let budget = "budget ld 0 al 0 sa 0 sd 0 ab 0 eb 0 cq 0\n";
    let due: (u8, &[u8], &[u8]) = (6, b"", budget.as_bytes());
    check_answer(&rt, rt.alloc(), "compile --to=p a.c", &mut shelf, due)
}
