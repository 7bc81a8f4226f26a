//! The rows of the tables, each with its answer.

use crate::images::{fault_told, longer_told, parts_told, starts_told, writing_told};
use crate::pieces::{extension_told, first_below_told, piece_told};
use crate::queues::sharing_told;
use crate::rows::{IMAGES, PIECES, RUNS, SHARES, WORDS};
use crate::runs::{refusal_told, run_told, words_told};
use crate::words::{access_told, other_told, result_told, way_told};
use dae_rows::part;
use std::alloc::{AllocError, Global};
use std::process::Abort;
use std::test::Fail;

/// The answer to a row of an image, by its kind.
fn image_answer_to(rt: &impl Abort, alloc: Global, row: &str) -> Result<String, Fail> {
    match part(row, 0) {
        "parts" => parts_told(rt, alloc, row),
        "written" => writing_told(rt, alloc, row),
        "short" => Ok(starts_told(rt, alloc, row)?),
        "longer" => Ok(longer_told(rt, alloc, row)?),
        "field" => Ok(fault_told(rt, alloc, row)?),
        "run" => run_told(rt, alloc, row),
        "refused" => refusal_told(rt, alloc, row),
        _ => Ok(answer_to(alloc, row)?),
    }
}

/// The answer to a row of words, by its kind.
fn answer_to(alloc: Global, row: &str) -> Result<String, AllocError> {
    match part(row, 0) {
        "piece" => piece_told(alloc, row),
        "extend" => extension_told(alloc, row),
        "below" => first_below_told(alloc, row),
        "other" => other_told(alloc, row),
        "does" => result_told(alloc, row),
        "goes" => way_told(alloc, row),
        "access" => access_told(alloc, row),
        "words" => words_told(alloc, row),
        "shares" => sharing_told(alloc, row),
        _ => Ok(String::new(alloc)),
    }
}

/// The answer to a row is the one that is due.
fn check_row(rt: &impl Abort, alloc: Global, row: &str) -> Result<(), Fail> {
    let text = image_answer_to(rt, alloc, row)?;
    assert_eq!(rt; text.as_str(), part(row, 1), "{row}");
    Ok(())
}

fn check_rows(rt: &impl Abort, alloc: Global, rows: &str) -> Result<(), Fail> {
    for row in rows.lines() {
        check_row(rt, alloc, row)?;
    }
    Ok(())
}

#[test]
fn each_row_is_answered(rt: HostRuntime) -> Result<(), Fail> {
    check_rows(&rt, rt.alloc(), PIECES)?;
    check_rows(&rt, rt.alloc(), WORDS)?;
    check_rows(&rt, rt.alloc(), SHARES)?;
    check_rows(&rt, rt.alloc(), IMAGES)?;
    check_rows(&rt, rt.alloc(), RUNS)
}
