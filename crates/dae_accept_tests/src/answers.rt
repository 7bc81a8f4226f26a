//! The rows of the tables, each with its answer.

use crate::joining::joining_told;
use crate::rows::{BROKEN, PAIRS, UNBROKEN};
use crate::types::{layout_told, rule_told};
use dae_rows::{behind, part};
use std::alloc::{AllocError, Global};
use std::process::Abort;

/// The answer to a row, by its kind. A row's one text may have bars.
fn answer_to(alloc: Global, row: &str) -> Result<String, AllocError> {
    match part(row, 0) {
        "types" => rule_told(alloc, behind(behind(row))),
        "layout" => layout_told(alloc, behind(behind(row))),
        "join" => joining_told(alloc, row),
        _ => Ok(String::new(alloc)),
    }
}

/// The answer to a row is the one that is due.
fn check_row(rt: &impl Abort, alloc: Global, row: &str) -> Result<(), AllocError> {
    let text = answer_to(alloc, row)?;
    assert_eq!(rt; text.as_str(), part(row, 1), "{row}");
    Ok(())
}

fn check_rows(rt: &impl Abort, alloc: Global, rows: &str) -> Result<(), AllocError> {
    for row in rows.lines() {
        check_row(rt, alloc, row)?;
    }
    Ok(())
}

#[test]
fn each_row_is_answered(rt: HostRuntime) -> Result<(), AllocError> {
    check_rows(&rt, rt.alloc(), BROKEN)?;
    check_rows(&rt, rt.alloc(), UNBROKEN)?;
    check_rows(&rt, rt.alloc(), PAIRS)
}
