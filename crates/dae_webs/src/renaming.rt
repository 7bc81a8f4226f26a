// The walk that renames.

ghost use Rattle.std.specs.Prelude.{◌≡◌, ◌+◌, IfOk};
ghost use Rattle.dae_ir.specs.SetFirst.{ItemReads};
ghost use Rattle.dae_webs.specs.Current.{has_web};
ghost use Rattle.dae_webs.specs.Known.{IsDefined, IsDefinedNext};
ghost use Rattle.dae_webs.specs.Planned.{ListRenamed, StatementRenamed, current_in, owns_in, starts_in};
ghost use Rattle.dae_webs.specs.Renamed.{number_after, renamed_item, variable_set, web_set, webs_after, with_web};

use crate::forgetting::forget_in_both;
use crate::plan::{Renaming, WebPlan, start_web, web_of, written_as};
use crate::reads::{rename_check, rename_operand, rename_operands, rename_test, rename_value};
use dae_ir::{Item, NotChanged, Statement};
use std::alloc::Global;

// A definition of the variable: the web that it sets.
fn define_web(plan: &WebPlan, renaming: &mut Renaming, variable: u32) -> Result<u32, NotChanged>
    ensures web { IfOk result (λ u. u
        ≡ web_set (starts_in plan.now renaming.old.definitions) (current_in renaming.old)
        variable) }
    ensures webs { IfOk result (λ _. current_in renaming.new
        ≡ with_web (starts_in plan.now renaming.old.definitions) (current_in renaming.old)
        variable) }
    ensures number { IfOk result (λ _.
        renaming.new.definitions ≡ renaming.old.definitions + 1) }
    ensures defined { IfOk result (λ _.
        IsDefined (owns_in plan.now) (starts_in plan.now renaming.old.definitions)
        (current_in renaming.old) variable) }
{
    let started = web_of(&plan.starts, renaming.definitions);
    renaming.definitions = renaming
        .definitions
        .checked_add(1)
        .ok_or(NotChanged::Memory)?;
    match started {
        None => written_as(&renaming.webs, variable),
        Some(web) => {
            start_web(plan, &mut renaming.webs, variable, web)?;
            Ok(web)
        }
    }
}

// An item by the current webs.
fn rename_item(
    alloc: Global,
    plan: &WebPlan,
    renaming: &mut Renaming,
    item: &Item,
) -> Result<Item, NotChanged>
    ensures item { IfOk result (λ new. new
        ≡ renamed_item (starts_in plan.now renaming.old.definitions) (current_in renaming.old)
        item.now) }
    ensures webs { IfOk result (λ _. current_in renaming.new
        ≡ webs_after (starts_in plan.now renaming.old.definitions) (current_in renaming.old)
        item.now) }
    ensures number { IfOk result (λ _. renaming.new.definitions
        ≡ number_after renaming.old.definitions item.now) }
    ensures reads { IfOk result (λ _. ItemReads (has_web (current_in renaming.old)) item.now) }
    ensures defined { IfOk result (λ _.
        IsDefinedNext (owns_in plan.now) (starts_in plan.now renaming.old.definitions)
        (current_in renaming.old) (variable_set item.now)) }
{
    match item {
        Item::Assign(variable, value) => {
            let value = rename_value(&renaming.webs, *value)?;
            let web = define_web(plan, renaming, *variable)?;
            Ok(Item::Assign(web, value))
        }
        Item::Load(variable, kind, x) => {
            let x = rename_operand(&renaming.webs, *x)?;
            let web = define_web(plan, renaming, *variable)?;
            Ok(Item::Load(web, *kind, x))
        }
        Item::Call(variable, function, xs) => {
            let xs = rename_operands(alloc, &renaming.webs, xs.as_slice())?;
            let web = define_web(plan, renaming, *variable)?;
            Ok(Item::Call(web, *function, xs))
        }
        Item::Store(width, x, y) => {
            let x = rename_operand(&renaming.webs, *x)?;
            let y = rename_operand(&renaming.webs, *y)?;
            Ok(Item::Store(*width, x, y))
        }
        Item::Print(spelling, x) => {
            Ok(Item::Print(*spelling, rename_operand(&renaming.webs, *x)?))
        }
        Item::Expect(check) => Ok(Item::Expect(rename_check(&renaming.webs, *check)?)),
        Item::Return(x) => Ok(Item::Return(rename_operand(&renaming.webs, *x)?)),
        Item::Halt(x) => Ok(Item::Halt(rename_operand(&renaming.webs, *x)?)),
        Item::Break => Ok(Item::Break),
        Item::Continue => Ok(Item::Continue),
    }
}

/// A list of statements with its variables renamed, from where the renaming has come.
#[cycle(rename)]
pub fn rename_list(
    alloc: Global,
    plan: &WebPlan,
    renaming: &mut Renaming,
    statements: &[Statement],
) -> Result<Vec<Statement>, NotChanged>
    ensures { IfOk result (λ new.
        ListRenamed plan.now statements.now renaming.old renaming.new new.items) }
{
    let mut out = Vec::new(alloc);
    for statement in statements {
        let renamed = rename_statement(alloc, plan, renaming, statement)?;
        out.push(renamed)?;
    }
    Ok(out)
}

#[cycle(rename)]
fn rename_statement(
    alloc: Global,
    plan: &WebPlan,
    renaming: &mut Renaming,
    statement: &Statement,
) -> Result<Statement, NotChanged>
    ensures { IfOk result (λ new.
        StatementRenamed plan.now statement.now renaming.old renaming.new new) }
{
    match statement {
        Statement::Simple(place, item) => {
            let item = rename_item(alloc, plan, renaming, item)?;
            Ok(Statement::Simple(*place, item))
        }
        Statement::If(place, test, yes, no) => {
            let test = rename_test(&renaming.webs, *test)?;
            let number = renaming.definitions;
            forget_in_both(plan, &mut renaming.webs, number, yes, no)?;
            let first = rename_list(alloc, plan, renaming, yes)?;
            forget_in_both(plan, &mut renaming.webs, number, yes, no)?;
            let second = rename_list(alloc, plan, renaming, no)?;
            forget_in_both(plan, &mut renaming.webs, number, yes, no)?;
            Ok(Statement::If(*place, test, first, second))
        }
        Statement::Loop(place, body, step) => {
            let number = renaming.definitions;
            forget_in_both(plan, &mut renaming.webs, number, body, step)?;
            let first = rename_list(alloc, plan, renaming, body)?;
            forget_in_both(plan, &mut renaming.webs, number, body, step)?;
            let second = rename_list(alloc, plan, renaming, step)?;
            forget_in_both(plan, &mut renaming.webs, number, body, step)?;
            Ok(Statement::Loop(*place, first, second))
        }
    }
}
