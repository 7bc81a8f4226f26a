//! The rows of the tables, each with its answer.

use crate::images::{going_told, marks_told, registers_told, runs_told};
use crate::passes::{
    commons_told, hoist_told, line_told, lowering_told, relation_told, report_told, reuse_told,
    store_told, threads_told, webs_told,
};
use crate::rows::{IMAGES, PASSES, REPORTS, SPLITS};
use crate::splits::{budget_told, classes_told, scope_told, single_steps_told, steps_told};
use dae_rows::{part, told};
use std::alloc::{AllocError, Global};
use std::process::Abort;
use std::test::Fail;

/// The answer to a row, by its kind.
fn answer_to(alloc: Global, row: &str) -> Result<String, AllocError> {
    match part(row, 0) {
        "lower" => lowering_told(alloc),
        "reuse" => reuse_told(alloc, row),
        "relation" => relation_told(alloc, row),
        "report" => report_told(alloc, row),
        "line" => line_told(alloc, row),
        "webs" => webs_told(alloc, row),
        "commons" => commons_told(alloc, row),
        "hoisted" => hoist_told(alloc, row),
        "stored" => store_told(alloc, row),
        "threads" => threads_told(alloc, row),
        "budget" => budget_told(alloc, row),
        "classes" => classes_told(alloc, row),
        "scoped" => scope_told(alloc, row),
        "steps" => steps_told(alloc, row),
        "single" => single_steps_told(alloc, row),
        _ => Ok(String::new(alloc)),
    }
}

/// The answer to a row of an image, by its kind.
fn image_answer_to(alloc: Global, row: &str) -> Result<String, Fail> {
    match part(row, 0) {
        "image" => runs_told(alloc, row),
        "goes on" => going_told(alloc, row),
        "registers" => Ok(registers_told(alloc, row)?),
        "marks" => marks_told(alloc, row),
        _ => Ok(answer_to(alloc, row)?),
    }
}

/// The answer to a row is the one that is due.
fn check_row(rt: &impl Abort, alloc: Global, row: &str) -> Result<(), Fail> {
    let text = image_answer_to(alloc, row)?;
    let due = told(alloc, part(row, 1))?;
    assert_eq!(rt; text.as_bytes(), due.as_slice(), "{row}");
    Ok(())
}

fn check_rows(rt: &impl Abort, alloc: Global, rows: &str) -> Result<(), Fail> {
    for row in rows.lines() {
        check_row(rt, alloc, row)?;
    }
    Ok(())
}

#[test]
fn each_row_is_answered(rt: HostRuntime) -> Result<(), Fail> {
    check_rows(&rt, rt.alloc(), PASSES)?;
    check_rows(&rt, rt.alloc(), REPORTS)?;
    check_rows(&rt, rt.alloc(), SPLITS)?;
    check_rows(&rt, rt.alloc(), IMAGES)
}
