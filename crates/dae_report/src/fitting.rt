// Whether 32 bits count what a report counts.

ghost use Rattle.std.specs.Prelude.{◌≡◌, ◌-◌, ◌^◌, min};
ghost use Rattle.std.specs.List.{list_all};
ghost use Rattle.dae_ir.specs.Code.{Done};
ghost use Rattle.dae_ir.specs.Form.{before, form_of};
ghost use Rattle.dae_report.specs.Counting.{is_countable, parts_of_form};

use dae_ir::{Function, Ir, Statement};

/// How many items and conditions a list of statements has: 2^64 - 1 where there are more.
#[cycle(parts)]
fn parts_in_list(statements: &[Statement]) -> u64
    ensures { result ≡ min (parts_of_form (form_of statements.now)) (2 ^ 64 - 1) }
{
    let mut parts: u64 = 0;
    for statement in statements {
        parts = parts.saturating_add(parts_in_statement(statement));
    }
    parts
}

#[cycle(parts)]
fn parts_in_statement(statement: &Statement) -> u64
    ensures { result ≡ min (parts_of_form (before statement.now Done)) (2 ^ 64 - 1) }
{
    match statement {
        Statement::Simple(_, _) => 1,
        Statement::If(_, _, yes, no) => {
            let branches = parts_in_list(yes).saturating_add(parts_in_list(no));
            branches.saturating_add(1)
        }
        Statement::Loop(_, body, step) => parts_in_list(body).saturating_add(parts_in_list(step)),
    }
}

fn is_countable(function: &Function) -> bool
    ensures { result ≡ is_countable function.now }
{
    parts_in_list(function.body.as_slice()) <= u64::from(u32::MAX)
}

/// Whether 32 bits count the items and conditions of each function of a form, so that its report can be made.
pub fn can_count(ir: &Ir) -> bool
    ensures { result ≡ list_all is_countable ir.now.functions }
{
    for function in ir.functions.as_slice() {
        if !is_countable(function) {
            return false;
        }
    }
    true
}
