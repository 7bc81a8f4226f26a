// Whether each variable is set before it is read in statements and functions.

ghost use Rattle.std.specs.Prelude.{◌≡◌, ◌&&◌, ℕ, IfOk, OnOk, Some, nat_le, nat_lt, true};
ghost use Rattle.std.specs.List.{list_all};
ghost use Rattle.dae_program.specs.Views.{view_statements, arms_of};
ghost use Rattle.dae_types_ready.specs.Reads.{LeadsOn, Sets, first_flags, is_reading_body, reading_arms, reading_statements};

use crate::doubts::Doubt;
use crate::flags::{copy_of, meet, set_all};
use crate::reads::{read, read_all, read_items, read_some};
use dae_program::{Arm, Statement};
use dae_types_typed::TypedFunction;
use std::alloc::Global;

/// What is set behind some statements, where they read set variables alone.
#[cycle(ready)]
fn read_statements(
    alloc: Global,
    set: Vec<bool>,
    statements: &[Statement],
) -> Result<Vec<bool>, Doubt>
    ensures { IfOk result (Sets (reading_statements (view_statements statements.now)) set.items) }
{
    let mut set = set;
    for s in statements {
        set = read_statement(alloc, set, s)?;
    }
    Ok(set)
}

/// The same of a statement, whatever stands behind it.
#[cycle(ready)]
fn read_statement(alloc: Global, set: Vec<bool>, s: &Statement) -> Result<Vec<bool>, Doubt>
    ensures { IfOk result (LeadsOn s.now set.items) }
{
    match s {
        Statement::Evaluate(_, a) => {
            let set = read(alloc, set, a)?;
            Ok(set)
        }
        Statement::Initialise(_, _, _, items) => {
            let set = read_items(alloc, set, items)?;
            Ok(set)
        }
        Statement::Print(_, xs, _) => {
            let set = read_all(alloc, set, xs)?;
            Ok(set)
        }
        Statement::If(_, a, yes, no) => {
            let set = read(alloc, set, a)?;
            let other = copy_of(&set)?;
            let yes = read_statements(alloc, set, yes)?;
            let no = read_statements(alloc, other, no)?;
            let set = meet(alloc, &yes, &no)?;
            Ok(set)
        }
        Statement::Loop(_, test, body, step) => {
            let turn = copy_of(&set)?;
            let turn = read_some(alloc, turn, test)?;
            read_statements(alloc, turn, body)?;
            let after = copy_of(&set)?;
            read_some(alloc, after, step)?;
            Ok(set)
        }
        Statement::Do(_, body, test) => {
            let turn = copy_of(&set)?;
            read_statements(alloc, turn, body)?;
            let after = copy_of(&set)?;
            read(alloc, after, test)?;
            Ok(set)
        }
        Statement::Switch(_, a, arms) => {
            let set = read(alloc, set, a)?;
            let set = read_arms(alloc, set, arms)?;
            Ok(set)
        }
        Statement::Break(_) => Ok(set_all(set)),
        Statement::Continue(_) => Ok(set_all(set)),
        Statement::Return(_, a) => {
            let set = read_some(alloc, set, a)?;
            Ok(set_all(set))
        }
    }
}

/// The same of the arms of a switch, each of which may be left out.
#[cycle(ready)]
fn read_arms(alloc: Global, set: Vec<bool>, arms: &[Arm]) -> Result<Vec<bool>, Doubt>
    ensures { IfOk result (Sets (reading_arms (arms_of arms.now)) set.items) }
{
    for arm in arms {
        let copy = copy_of(&set)?;
        read_statements(alloc, copy, &arm.statements)?;
    }
    Ok(set)
}

fn is_parameter(parameters: usize, variable: usize) -> bool
    ensures { result ≡ (nat_lt 0 variable && nat_le variable parameters) }
{
    0 < variable && variable <= parameters
}

/// The flags of a function's variables at its entry: its parameters are set.
fn first_flags(alloc: Global, parameters: usize, variables: u32) -> Result<Vec<bool>, Doubt>
    ensures { IfOk result (λ set. set.items ≡ first_flags parameters variables) }
{
    let mut set = Vec::new(alloc);
    for variable in 0..variables as usize {
        set.push(is_parameter(parameters, variable))?;
    }
    Ok(set)
}

/// Each variable of some functions is set before it is read.
pub fn see_ready(alloc: Global, functions: &[TypedFunction]) -> Result<(), Doubt>
    ensures { OnOk result (list_all is_reading_body functions.now ≡ true) }
{
    for f in functions {
        let set = first_flags(alloc, f.parameters.len(), f.variables)?;
        read_statements(alloc, set, f.body.as_slice())?;
    }
    Ok(())
}
