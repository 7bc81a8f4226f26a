//! The rows of the tables, each with its answer.

use crate::certificate::{many_read, read_of, told_of};
use crate::guards::guarded;
use crate::ranges::{compared, fits, meets, moved};
use crate::rows::{CERTIFICATES, GUARDS, RANGES};
use dae_rows::part;
use std::alloc::{AllocError, Global};
use std::process::Abort;

/// The answer to a row, by its kind.
fn answer_to(alloc: Global, row: &str) -> Result<String, AllocError> {
    match part(row, 0) {
        "guard" => guarded(alloc, row),
        "nodes" => read_of(alloc, row),
        "many" => many_read(alloc, row),
        "kept" => told_of(alloc, row),
        "pair" => compared(alloc, row),
        "move" => moved(alloc, row),
        "fits" => fits(alloc, row),
        "meet" => meets(alloc, row),
        _ => Ok(String::new(alloc)),
    }
}

/// The answer to a row is the one that is due.
fn check_row(rt: &impl Abort, alloc: Global, row: &str) -> Result<(), AllocError> {
    let text = answer_to(alloc, row)?;
    assert_eq!(rt; text.as_str(), part(row, 1), "{row}");
    Ok(())
}

fn check_rows(rt: &impl Abort, alloc: Global, rows: &str) -> Result<(), AllocError> {
    for row in rows.lines() {
        check_row(rt, alloc, row)?;
    }
    Ok(())
}

#[test]
fn each_answer_is_the_one_that_is_due(rt: HostRuntime) -> Result<(), AllocError> {
    check_rows(&rt, rt.alloc(), GUARDS)?;
    check_rows(&rt, rt.alloc(), CERTIFICATES)?;
    check_rows(&rt, rt.alloc(), RANGES)
}
