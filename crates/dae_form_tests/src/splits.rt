//! Budgets, classes and streams of forms, as an independent implementation of the same rules gives them.

use crate::forms::form_of;
use crate::passes::tables_of;
use dae_base::Depths;
use dae_ir::{Action, Class, Ir, Operand, Step};
use dae_meaning::Spelling;
use dae_rows::part;
use dae_split::split;
use dae_split_pair::{decouple, is_scoped};
use std::alloc::{AllocError, Global};

/// The seven numbers of a budget: loads for E and A's own, addresses and data of stores, messages of A and of E, and copies.
pub fn budget_text(alloc: Global, budget: &Depths) -> Result<String, AllocError> {
    let (ld, al, sa, sd) = (budget.ld, budget.al, budget.sa, budget.sd);
    let (ab, eb, cq) = (budget.ab, budget.eb, budget.cq);
    format!(in alloc; "{ld} {al} {sa} {sd} {ab} {eb} {cq}")
}

/// The budget of a form that is well made.
fn budget_of(alloc: Global, ir: &Ir, cap: u8) -> Result<String, AllocError> {
    if !is_scoped(ir) || cap < 1 || cap > 64 {
        return Ok(String::new(alloc));
    }
    let made = decouple(alloc, ir, cap)?;
    budget_text(alloc, &made.budget)
}

/// The budget of a row's form, with its cap.
pub fn budget_told(alloc: Global, row: &str) -> Result<String, AllocError> {
    let form = form_of(alloc, part(row, 2))?;
    budget_of(alloc, &form, part(row, 3).parse::<u8>().unwrap_or(0))
}

/// The letter of a class: of what A needs, E, both or nobody.
fn letter_of(class: &Class) -> &'static str {
    if class.a && class.e {
        "b"
    } else if class.a {
        "a"
    } else if class.e {
        "e"
    } else {
        "n"
    }
}

fn add_letters(text: &mut String, row: &[Class]) -> Result<(), AllocError> {
    for class in row {
        text.push_str(letter_of(class))?;
    }
    Ok(())
}

fn letters_of(alloc: Global, row: &[Class]) -> Result<String, AllocError> {
    let mut text = String::new(alloc);
    add_letters(&mut text, row)?;
    Ok(text)
}

/// The classes of the variables of a form's function, by its place.
fn classes_of(alloc: Global, ir: &Ir, place: usize) -> Result<String, AllocError> {
    if !is_scoped(ir) {
        return Ok(String::new(alloc));
    }
    let made = decouple(alloc, ir, 16)?;
    match made.classes.as_slice().get(place) {
        Some(row) => letters_of(alloc, row.as_slice()),
        None => Ok(String::new(alloc)),
    }
}

/// The classes of the variables of a row's function.
pub fn classes_told(alloc: Global, row: &str) -> Result<String, AllocError> {
    let form = form_of(alloc, part(row, 2))?;
    classes_of(alloc, &form, part(row, 3).parse::<usize>().unwrap_or(0))
}

/// Whether a row's form is well made.
pub fn scope_told(alloc: Global, row: &str) -> Result<String, AllocError> {
    let form = form_of(alloc, part(row, 2))?;
    let is_scoped = is_scoped(&form);
    format!(in alloc; "{is_scoped}")
}

fn step_text(step: &Step) -> &'static str {
    match step {
        Step::Act(_, Action::Emit(Spelling::Byte, Operand::Number(10))) => "line feed",
        Step::Act(_, Action::Stop(None)) => "stop",
        Step::Act(_, Action::Stop(Some(Operand::Number(7)))) => "end 7",
        Step::Act(..) => "act",
        _ => "other",
    }
}

/// Adds what the steps of a list are.
fn add_steps(text: &mut String, steps: &[Step]) -> Result<(), AllocError> {
    for step in steps {
        text.push_str(" ")?;
        text.push_str(step_text(step))?;
    }
    Ok(())
}

/// The steps of the functions of both sides of a form that is well made, A's first.
fn steps_of(alloc: Global, ir: &Ir, letters: &str) -> Result<String, AllocError> {
    let mut text = String::new(alloc);
    if !is_scoped(ir) {
        return Ok(text);
    }
    let tables = tables_of(alloc, letters)?;
    let pair = split(alloc, ir, tables.as_slice(), 4)?;
    for function in pair.a.functions.as_slice() {
        add_steps(&mut text, function.body.as_slice())?;
    }
    text.push_str(" and")?;
    for function in pair.e.functions.as_slice() {
        add_steps(&mut text, function.body.as_slice())?;
    }
    Ok(text)
}

/// The steps of the streams of a row's form by its classes.
pub fn steps_told(alloc: Global, row: &str) -> Result<String, AllocError> {
    let form = form_of(alloc, part(row, 2))?;
    steps_of(alloc, &form, part(row, 3))
}

fn are_single(steps: &[Step]) -> bool {
    for step in steps {
        if !matches!(step, Step::Act(..)) {
            return false;
        }
    }
    true
}

/// Whether the functions of E's stream have no loop and no branch, and how many they are.
fn single_steps_of(alloc: Global, ir: &Ir) -> Result<String, AllocError> {
    if !is_scoped(ir) {
        return Ok(String::new(alloc));
    }
    let made = decouple(alloc, ir, 16)?;
    let functions = made.pair.e.functions.as_slice();
    let count = functions.len();
    let all = functions
        .iter()
        .all(|function| are_single(function.body.as_slice()));
    format!(in alloc; "{all} {count}")
}

/// The same of a row's form.
pub fn single_steps_told(alloc: Global, row: &str) -> Result<String, AllocError> {
    let form = form_of(alloc, part(row, 2))?;
    single_steps_of(alloc, &form)
}
