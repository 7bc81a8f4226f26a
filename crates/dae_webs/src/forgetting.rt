// Webs that start inside lists of statements, which aren't known at their beginnings and behind them.

ghost use Rattle.std.specs.Prelude.{◌≡◌, IfOk, None, OnOk, slice_set};
ghost use Rattle.dae_ir.specs.Form.{form_of};
ghost use Rattle.dae_webs.specs.Current.{web_of};
ghost use Rattle.dae_webs.specs.Planned.{ListForgets, StatementForgets, starts_in};
ghost use Rattle.dae_webs.specs.Renamed.{counted_on, variable_set, without_both, without_next, without_web};

use crate::plan::{WebPlan, web_of};
use dae_ir::{Item, NotChanged, Statement};

/// The variable that an item defines.
pub fn variable_set(item: &Item) -> Option<u32>
    ensures { result ≡ variable_set item.now }
{
    match item {
        Item::Assign(variable, _) => Some(*variable),
        Item::Load(variable, _, _) => Some(*variable),
        Item::Call(variable, _, _) => Some(*variable),
        _ => None,
    }
}

/// The number of the next definition, behind one of this number, or behind an item that defines no variable.
pub fn count_on(number: usize, defined: Option<u32>) -> Result<usize, NotChanged>
    ensures { IfOk result (λ n. n ≡ counted_on number defined) }
{
    match defined {
        Some(_) => number.checked_add(1).ok_or(NotChanged::Memory),
        None => Ok(number),
    }
}

// The variable has no web any more.
fn clear_web(webs: &mut Vec<Option<u32>>, variable: u32)
    ensures { webs.new.items ≡ slice_set webs.old.items variable None }
{
    if (variable as usize) < webs.len() {
        webs[variable as usize] = None;
    }
}

// The variable has no web any more, if this definition of it starts one.
fn forget_started(started: Option<u32>, webs: &mut Vec<Option<u32>>, defined: Option<u32>)
    ensures { webs.new.items ≡ without_next started webs.old.items defined }
{
    match defined {
        None => {}
        Some(variable) => match started {
            None => {}
            Some(_) => clear_web(webs, variable),
        },
    }
}

#[cycle(forget)]
fn forget_in_list(
    plan: &WebPlan,
    webs: &mut Vec<Option<u32>>,
    first: usize,
    statements: &[Statement],
) -> Result<usize, NotChanged>
    ensures { IfOk result (λ n.
        ListForgets (starts_in plan.now) statements.now first n webs.old.items webs.new.items) }
{
    let mut number = first;
    for statement in statements {
        number = forget_in_statement(plan, webs, number, statement)?;
    }
    Ok(number)
}

#[cycle(forget)]
fn forget_in_statement(
    plan: &WebPlan,
    webs: &mut Vec<Option<u32>>,
    number: usize,
    statement: &Statement,
) -> Result<usize, NotChanged>
    ensures { IfOk result (λ n.
        StatementForgets (starts_in plan.now) statement.now number n webs.old.items
        webs.new.items) }
{
    match statement {
        Statement::Simple(_, item) => {
            let defined = variable_set(item);
            forget_started(web_of(&plan.starts, number), webs, defined);
            count_on(number, defined)
        }
        Statement::If(_, _, first, second) | Statement::Loop(_, first, second) => {
            let middle = forget_in_list(plan, webs, number, first)?;
            forget_in_list(plan, webs, middle, second)
        }
    }
}

/// No variable of which a web starts in one of two lists, one behind the other, has a web any more. So many definitions stand
/// before them.
pub fn forget_in_both(
    plan: &WebPlan,
    webs: &mut Vec<Option<u32>>,
    number: usize,
    first: &[Statement],
    second: &[Statement],
) -> Result<(), NotChanged>
    ensures { OnOk result (webs.new.items
        ≡ without_both (starts_in plan.now) number (form_of first.now) (form_of second.now)
        webs.old.items) }
{
    let middle = forget_in_list(plan, webs, number, first)?;
    forget_in_list(plan, webs, middle, second)?;
    Ok(())
}
