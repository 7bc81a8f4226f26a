//! Forms before and behind passes, and what is counted of them.

use crate::forms::{form_of, width_of};
use crate::writing::{form_text, statements_text, variables_text};
use dae_alias::{Base, Relation, ReuseError, SymAddr, relation, reuse};
use dae_base::{Depths, Items, Place, Width};
use dae_commons::eliminate_commons;
use dae_hoist::hoist_invariants;
use dae_ir::{Class, Ir};
use dae_lower_expressions::Lowerer;
use dae_program::{Expression, Links};
use dae_report::{FunctionReport, Report, can_count, count, report_line};
use dae_rows::{number, part, word_in};
use dae_threads::thread_conditions;
use dae_webs::rename_webs;
use std::alloc::{AllocError, Global};

/// A row's form with its loads reused.
pub fn reuse_told(alloc: Global, row: &str) -> Result<String, AllocError> {
    match reuse(alloc, form_of(alloc, part(row, 2))?) {
        Ok(new) => form_text(alloc, &new),
        Err(ReuseError::Memory) => Err(AllocError),
        Err(ReuseError::Variables) => String::from_str(alloc, "variables"),
    }
}

/// How many variables a row's form has where they are renamed by webs, and those that occur.
pub fn webs_told(alloc: Global, row: &str) -> Result<String, AllocError> {
    let new = rename_webs(alloc, form_of(alloc, part(row, 2))?)?;
    let text = form_text(alloc, &new)?;
    let variables = variables_text(alloc, text.as_str())?;
    let count = word_in(text.as_str(), 2);
    format!(in alloc; "{count}{variables}")
}

/// The class of a letter: of what A needs, E, both or nobody.
fn class_of(letter: u8) -> Class {
    Class {
        a: letter == b'a' || letter == b'b',
        e: letter == b'e' || letter == b'b',
    }
}

fn add_classes(row: &mut Items<Class>, letters: &str) -> Result<(), AllocError> {
    for letter in letters.as_bytes() {
        row.push(class_of(*letter))?;
    }
    Ok(())
}

/// The classes of one function's variables, by letters.
pub fn tables_of(alloc: Global, letters: &str) -> Result<Vec<Items<Class>>, AllocError> {
    let mut row = Items::new(alloc);
    add_classes(&mut row, letters)?;
    Ok(Vec::from_array(alloc, [row])?)
}

/// The variables that occur in a row's form behind the elimination of its common subexpressions.
pub fn commons_told(alloc: Global, row: &str) -> Result<String, AllocError> {
    let tables = tables_of(alloc, part(row, 3))?;
    let form = form_of(alloc, part(row, 2))?;
    let new = eliminate_commons(alloc, form, tables.as_slice())?;
    let text = form_text(alloc, &new)?;
    variables_text(alloc, text.as_str())
}

/// The statement of a form at a row's place.
fn statement_told(alloc: Global, ir: &Ir, row: &str) -> Result<String, AllocError> {
    let text = form_text(alloc, ir)?;
    let at = part(row, 4).parse::<usize>().unwrap_or(0);
    String::from_str(alloc, text.as_str().split(';').nth(at).unwrap_or(""))
}

/// The statement at a row's place where the invariants of loops are held before them.
pub fn hoist_told(alloc: Global, row: &str) -> Result<String, AllocError> {
    let tables = tables_of(alloc, part(row, 3))?;
    let form = form_of(alloc, part(row, 2))?;
    let new = hoist_invariants(alloc, form, tables.as_slice())?;
    statement_told(alloc, &new.ir, row)
}

/// The same behind the elimination of common subexpressions.
pub fn store_told(alloc: Global, row: &str) -> Result<String, AllocError> {
    let tables = tables_of(alloc, part(row, 3))?;
    let form = form_of(alloc, part(row, 2))?;
    let held = hoist_invariants(alloc, form, tables.as_slice())?;
    let new = eliminate_commons(alloc, held.ir, held.tables.as_slice())?;
    statement_told(alloc, &new, row)
}

/// A row's form with its conditions threaded.
pub fn threads_told(alloc: Global, row: &str) -> Result<String, AllocError> {
    let new = thread_conditions(alloc, form_of(alloc, part(row, 2))?)?;
    form_text(alloc, &new)
}

/// The report of a row's form; none where there is too much to count.
fn report_of(alloc: Global, row: &str) -> Result<Report, AllocError> {
    let form = form_of(alloc, part(row, 2))?;
    let tables = tables_of(alloc, part(row, 3))?;
    if !can_count(&form) {
        let functions = Items::new(alloc);
        return Ok(Report { functions });
    }
    count(alloc, &form, tables.as_slice())
}

fn counts_text(alloc: Global, x: &FunctionReport) -> Result<String, AllocError> {
    let name = x.name.as_str();
    let (loads_a, loads_e, stores) = (x.loads_a, x.loads_e, x.stores);
    let (conditions_a, conditions_e) = (x.conditions_a, x.conditions_e);
    format!(in alloc; "{name} {loads_a} {loads_e} {stores} {conditions_a} {conditions_e}")
}

/// A function's name, its loads for A and for E, its stores, and its conditions of A and of E.
pub fn report_told(alloc: Global, row: &str) -> Result<String, AllocError> {
    let report = report_of(alloc, row)?;
    match report.functions.as_slice() {
        [x] => counts_text(alloc, x),
        _ => Ok(String::new(alloc)),
    }
}

const BUDGET: Depths = Depths {
    ld: 1,
    al: 0,
    sa: 1,
    sd: 1,
    ab: 0,
    eb: 0,
    cq: 0,
};

/// The line of a row's report.
pub fn line_told(alloc: Global, row: &str) -> Result<String, AllocError> {
    let report = report_of(alloc, row)?;
    report_line(alloc, &BUDGET, &report)
}

fn base_in(text: &str) -> Base {
    match word_in(text, 0) {
        "number" => Base::Number,
        "frame" => Base::Frame,
        _ => Base::Variable(number(word_in(text, 1)), number(word_in(text, 2)) as usize),
    }
}

/// The address of a text: its base, and its offset.
fn address_in(text: &str) -> SymAddr {
    SymAddr {
        base: base_in(text),
        offset: number(word_in(text, 3)),
    }
}

fn width_in(text: &str) -> Width {
    width_of(word_in(text, 4))
}

fn relation_text(relation: Relation) -> &'static str {
    match relation {
        Relation::Same => "same",
        Relation::Apart => "apart",
        Relation::Unknown => "unknown",
    }
}

/// What the two accesses of a row have in common, asked both ways.
pub fn relation_told(alloc: Global, row: &str) -> Result<String, AllocError> {
    let (x, y) = (part(row, 2), part(row, 3));
    let (first, second) = (address_in(x), address_in(y));
    let one = relation_text(relation(&first, width_in(x), &second, width_in(y)));
    let other = relation_text(relation(&second, width_in(y), &first, width_in(x)));
    format!(in alloc; "{one} {other}")
}

/// Lowers `putchar(10)` and `exit(7)`.
fn lower_both(alloc: Global, lowerer: &mut Lowerer) -> Result<(), AllocError> {
    let links = Links {
        addresses: Items::new(alloc),
        functions: Items::new(alloc),
    };
    let place = Place {
        file: 0,
        line: 1,
        col: 1,
    };
    let byte = Box::new(alloc, Expression::Number(10))?;
    let status = Box::new(alloc, Expression::Number(7))?;
    lowerer.whole_effect(&links, 0, &Expression::Putchar(place, byte))?;
    lowerer.whole_effect(&links, 0, &Expression::Exit(place, status))
}

/// The number of the next variable behind small expressions, and their code.
pub fn lowering_told(alloc: Global) -> Result<String, AllocError> {
    let mut lowerer = Lowerer::new(alloc, 1);
    lower_both(alloc, &mut lowerer)?;
    let next = lowerer.maker.next();
    let Lowerer {
        alloc: _,
        maker,
        later: _,
    } = lowerer;
    let statements = maker.into_statements();
    let text = statements_text(alloc, statements.as_slice())?;
    format!(in alloc; "{next}{text}")
}
