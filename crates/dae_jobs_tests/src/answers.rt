//! The rows of the tables, each with its answer.

use crate::lines::{lines_told, name_told, trace_told};
use crate::listings::{kind_told, listing_told};
use crate::rows::{LINES, LISTINGS, ORDERS, RUNS, SCRIPTS, TEXTS, TRACES};
use crate::runs::{picks_told, prints_told, refusal_told, run_told};
use crate::scripts::replies_told;
use crate::texts::{fault_told, order_told};
use dae_rows::{part, told};
use std::alloc::Global;
use std::process::Abort;
use std::test::Fail;

/// The answer to a row, by its kind.
fn answer_to(rt: &impl Abort, alloc: Global, row: &str) -> Result<String, Fail> {
    match part(row, 0) {
        "lines" => lines_told(rt, alloc, row),
        "name" => Ok(name_told(alloc, row)?),
        "trace" => trace_told(rt, alloc, row),
        "script" => replies_told(rt, alloc, row),
        "run" => run_told(rt, alloc, row),
        "picks" => picks_told(rt, alloc, row),
        "prints" => prints_told(rt, alloc, row),
        "refused" => refusal_told(rt, alloc, row),
        "listing" => listing_told(rt, alloc, row),
        "kind" => Ok(kind_told(alloc, row)?),
        "fault" => Ok(fault_told(alloc, row)?),
        "order" => Ok(order_told(alloc, row)?),
        _ => Ok(String::new(alloc)),
    }
}

/// The answer to a row is the one that is due.
fn check_row(rt: &impl Abort, alloc: Global, row: &str) -> Result<(), Fail> {
    let text = answer_to(rt, alloc, row)?;
    let due = told(alloc, part(row, 1))?;
    assert_eq!(rt; text.as_bytes(), due.as_slice(), "{row}");
    Ok(())
}

fn check_rows(rt: &impl Abort, alloc: Global, rows: &str) -> Result<(), Fail> {
    for row in rows.lines() {
        check_row(rt, alloc, row)?;
    }
    Ok(())
}

#[test]
fn images_are_run_and_told(rt: HostRuntime) -> Result<(), Fail> {
    check_rows(&rt, rt.alloc(), TRACES)?;
    check_rows(&rt, rt.alloc(), SCRIPTS)?;
    check_rows(&rt, rt.alloc(), RUNS)
}

#[test]
fn texts_are_read_and_listed(rt: HostRuntime) -> Result<(), Fail> {
    check_rows(&rt, rt.alloc(), LISTINGS)?;
    check_rows(&rt, rt.alloc(), LINES)?;
    check_rows(&rt, rt.alloc(), TEXTS)?;
    check_rows(&rt, rt.alloc(), ORDERS)
}
