// The lists of a condition at the ends of the If before it.

ghost use Rattle.std.specs.Prelude.{◌≡◌, if◌then◌else◌, nat_eq, IfOk, OnOk};
ghost use Rattle.dae_ir.specs.Code.{Done, Do};
ghost use Rattle.dae_ir.specs.Form.{before, form_of};
ghost use Rattle.dae_threads.specs.Threaded.{firsts, gives_number, seconds};
ghost use Rattle.dae_threads.specs.Walked.{AreCopiedBehind, AreLed, IsJoined, IsJoinedWith};

use crate::copying::{copy_behind, copy_first};
use crate::deciding::{
    add_counts, expect_small, keep_small, number_given, spread_cost, tested_variable,
};
use dae_base::Place;
use dae_ir::{Item, NotChanged, Operand, Statement, Value};
use std::alloc::{AllocError, Global};

/// Statements at whose ends the lists of a condition stand, and how often the first of these does, and the second.
#[derive(Drop)]
pub struct LedList {
    pub statements: Vec<Statement>,
    pub firsts: u64,
    pub seconds: u64,
}

fn firsts_at(number: u32) -> u64
    ensures { result ≡ firsts number }
{
    if number == 0 { 0 } else { 1 }
}

fn seconds_at(number: u32) -> u64
    ensures { result ≡ seconds number }
{
    if number == 0 { 1 } else { 0 }
}

// The list of the condition that is for the number comes behind others.
fn copy_list_for(
    alloc: Global,
    out: &mut Vec<Statement>,
    number: u32,
    yes: &[Statement],
    no: &[Statement],
) -> Result<(), AllocError>
    ensures { OnOk result (AreCopiedBehind out.old.items
        (if nat_eq number 0 then no.now else yes.now) out.new.items) }
{
    if number == 0 {
        copy_behind(alloc, no, out)
    } else {
        copy_behind(alloc, yes, out)
    }
}

// An end that gives the variable a number.
fn lead_end(
    alloc: Global,
    variable: u32,
    yes: &[Statement],
    no: &[Statement],
    place: Place,
    number: u32,
) -> Result<LedList, NotChanged>
    ensures { IfOk result (AreLed variable (form_of yes.now) (form_of no.now)
        (Do place (gives_number variable number) Done)) }
{
    let item = Item::Assign(variable, Value::Same(Operand::Number(number)));
    let mut statements = Vec::new(alloc);
    statements.push(Statement::Simple(place, item))?;
    copy_list_for(alloc, &mut statements, number, yes, no)?;
    Ok(LedList {
        statements,
        firsts: firsts_at(number),
        seconds: seconds_at(number),
    })
}

#[cycle(lead)]
fn lead_statement(
    alloc: Global,
    statement: &Statement,
    variable: u32,
    yes: &[Statement],
    no: &[Statement],
) -> Result<LedList, NotChanged>
    ensures { IfOk result (AreLed variable (form_of yes.now) (form_of no.now)
        (before statement.now Done)) }
{
    match statement {
        Statement::Simple(place, item) => {
            let number = number_given(variable, item)?;
            let led = lead_end(alloc, variable, yes, no, *place, number)?;
            Ok(led)
        }
        Statement::If(place, test, p, q) => {
            let one = lead_list(alloc, p, variable, yes, no)?;
            let other = lead_list(alloc, q, variable, yes, no)?;
            let firsts = add_counts(one.firsts, other.firsts)?;
            let seconds = add_counts(one.seconds, other.seconds)?;
            let mut out = Vec::new(alloc);
            out.push(Statement::If(*place, *test, one.statements, other.statements))?;
            Ok(LedList {
                statements: out,
                firsts,
                seconds,
            })
        }
        Statement::Loop(_, _, _) => Err(NotChanged::Kept),
    }
}

/// A list at each of whose ends the variable gets a number, with a list of the condition behind that.
#[cycle(lead)]
fn lead_list(
    alloc: Global,
    statements: &[Statement],
    variable: u32,
    yes: &[Statement],
    no: &[Statement],
) -> Result<LedList, NotChanged>
    ensures { IfOk result (AreLed variable (form_of yes.now) (form_of no.now)
        (form_of statements.now)) }
{
    if statements.is_empty() {
        return Err(NotChanged::Kept);
    }
    let last = statements.len() - 1;
    let led = lead_statement(alloc, &statements[last], variable, yes, no)?;
    let mut all = copy_first(alloc, statements, last)?;
    let mut rest = led.statements;
    all.append(&mut rest)?;
    Ok(LedList {
        statements: all,
        firsts: led.firsts,
        seconds: led.seconds,
    })
}

// An If before a condition that tests the variable.
fn join_if(
    alloc: Global,
    variable: u32,
    yes: &[Statement],
    no: &[Statement],
    statement: &Statement,
) -> Result<Statement, NotChanged>
    ensures { IfOk result (IsJoinedWith statement.now variable (form_of yes.now) (form_of no.now)) }
{
    match statement {
        Statement::If(place, test, p, q) => {
            expect_small(variable, p, q, yes, no)?;
            let one = lead_list(alloc, p, variable, yes, no)?;
            let other = lead_list(alloc, q, variable, yes, no)?;
            let firsts = add_counts(one.firsts, other.firsts)?;
            let seconds = add_counts(one.seconds, other.seconds)?;
            let more = spread_cost(firsts, yes)?;
            let further = spread_cost(seconds, no)?;
            keep_small(more, further)?;
            Ok(Statement::If(*place, *test, one.statements, other.statements))
        }
        Statement::Simple(_, _) | Statement::Loop(_, _, _) => Err(NotChanged::Kept),
    }
}

/// One statement for two: where the second is a condition that tests what the first gives a variable at its ends.
pub fn join_condition(
    alloc: Global,
    statement: &Statement,
    next: &Statement,
) -> Result<Statement, NotChanged>
    ensures { IfOk result (IsJoined statement.now next.now) }
{
    match next {
        Statement::If(_, test, yes, no) => {
            let variable = tested_variable(*test)?;
            let joined = join_if(alloc, variable, yes, no, statement)?;
            Ok(joined)
        }
        Statement::Simple(_, _) | Statement::Loop(_, _, _) => Err(NotChanged::Kept),
    }
}
