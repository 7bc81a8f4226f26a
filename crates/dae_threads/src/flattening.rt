// Lists that come behind their condition, where the other list leads elsewhere: so nothing has to lead past that one, and a loop may
// begin with the condition under which it goes on.

ghost use Rattle.std.specs.Prelude.{◌≡◌, ◌||◌, ◌++◌, ◌∷◌, true, IfOk, OnOk};
ghost use Rattle.dae_ir.specs.Form.{Form, before, form_of};
ghost use Rattle.dae_ir.specs.declared.form.Statement.TheVariants.{If};
ghost use Rattle.dae_threads.specs.Threaded as spec;
ghost use Rattle.dae_threads.specs.Threaded.{IsThreaded};
ghost use Rattle.dae_threads.specs.Walked.{AreWithNext};

use dae_base::Place;
use dae_ir::{Item, Statement, Test};
use std::alloc::{AllocError, Global};

fn leads_away(item: &Item) -> bool
    ensures { result ≡ spec.leads_away item.now }
{
    matches!(
        item,
        Item::Break | Item::Continue | Item::Return(_) | Item::Halt(_)
    )
}

fn statement_leads_away(statement: &Statement) -> bool
    ensures { (k : Form) →
        spec.ends_early (before statement.now k) ≡ (result || spec.ends_early k) }
{
    match statement {
        Statement::Simple(_, item) => leads_away(item),
        Statement::If(..) => false,
        Statement::Loop(..) => false,
    }
}

// Whether an item of the list itself leads elsewhere, so that its end isn't reached.
fn ends_early(statements: &[Statement]) -> bool
    ensures { result ≡ spec.ends_early (form_of statements.now) }
{
    for statement in statements {
        if statement_leads_away(statement) {
            return true;
        }
    }
    false
}

fn push_statement(out: &mut Vec<Statement>, statement: Statement) -> Result<(), AllocError>
    ensures { OnOk result (AreWithNext out.old.items statement out.new.items) }
{
    out.push(statement)?;
    Ok(())
}

fn push_before_list(
    out: &mut Vec<Statement>,
    statement: Statement,
    list: &mut Vec<Statement>,
) -> Result<(), AllocError>
    ensures { OnOk result (out.new.items ≡ out.old.items ++ statement ∷ list.old.items) }
{
    out.push(statement)?;
    out.append(list)?;
    Ok(())
}

// A condition comes behind others, and its first list behind it where the second one ends early.
fn push_condition(
    alloc: Global,
    out: &mut Vec<Statement>,
    place: Place,
    test: Test,
    mut yes: Vec<Statement>,
    no: Vec<Statement>,
) -> Result<(), AllocError>
    ensures { OnOk result (AreWithNext out.old.items (If place test yes no) out.new.items) }
{
    let nothing = Vec::new(alloc);
    if ends_early(&no) {
        push_before_list(out, Statement::If(place, test, nothing, no), &mut yes)
    } else {
        push_statement(out, Statement::If(place, test, yes, no))
    }
}

#[cycle(flatten)]
fn flatten_statement(
    alloc: Global,
    statement: &Statement,
    out: &mut Vec<Statement>,
) -> Result<(), AllocError>
    ensures { OnOk result (AreWithNext out.old.items statement.now out.new.items) }
{
    match statement {
        Statement::Simple(place, item) => {
            let copy = item.copy(alloc)?;
            push_statement(out, Statement::Simple(*place, copy))
        }
        Statement::If(place, test, yes, no) => {
            let first = flatten_list(alloc, yes)?;
            let second = flatten_list(alloc, no)?;
            push_condition(alloc, out, *place, *test, first, second)
        }
        Statement::Loop(place, body, step) => {
            let first = flatten_list(alloc, body)?;
            let second = flatten_list(alloc, step)?;
            push_statement(out, Statement::Loop(*place, first, second))
        }
    }
}

/// A list of statements in which the first list of a condition comes behind it, where the second one ends early.
#[cycle(flatten)]
pub fn flatten_list(alloc: Global, statements: &[Statement]) -> Result<Vec<Statement>, AllocError>
    ensures { IfOk result (λ new.
        IsThreaded (form_of statements.now) (form_of new.items)) }
{
    let mut out = Vec::with_capacity(alloc, statements.len())?;
    for statement in statements {
        flatten_statement(alloc, statement, &mut out)?;
    }
    Ok(out)
}
