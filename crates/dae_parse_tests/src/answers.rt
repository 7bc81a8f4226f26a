//! The rows of the tables, each with its answer.

use crate::lex::{SMALL, bytes_told, lines_told, text_told, whole_room};
use crate::rows::{BAD_BYTES, LIMITS, REFUSED, TAKEN};
use dae_rows::{behind, number, part};
use std::alloc::{AllocError, Global};
use std::process::Abort;

/// The answer to a row, by its kind. A row's text may have bars.
fn answer_to(alloc: Global, row: &str) -> Result<String, AllocError> {
    let text = behind(behind(row));
    match part(row, 0) {
        "text" => text_told(alloc, text, whole_room()),
        "small" => text_told(alloc, text, SMALL),
        "bytes" => bytes_told(alloc, text),
        "lines" => lines_told(alloc, number(text)),
        _ => Ok(String::new(alloc)),
    }
}

/// The answer to a row is the one that is due.
fn check_row(rt: &impl Abort, alloc: Global, row: &str) -> Result<(), AllocError> {
    let text = answer_to(alloc, row)?;
    assert_eq!(rt; text.as_str(), part(row, 1), "{row}");
    Ok(())
}

fn check_rows(rt: &impl Abort, alloc: Global, rows: &str) -> Result<(), AllocError> {
    for row in rows.lines() {
        check_row(rt, alloc, row)?;
    }
    Ok(())
}

#[test]
fn each_row_is_answered(rt: HostRuntime) -> Result<(), AllocError> {
    check_rows(&rt, rt.alloc(), REFUSED)?;
    check_rows(&rt, rt.alloc(), BAD_BYTES)?;
    check_rows(&rt, rt.alloc(), TAKEN)?;
    check_rows(&rt, rt.alloc(), LIMITS)
}
