// Whether statements set a variable to itself.

ghost use Rattle.std.specs.Prelude.{◌≡◌, ◌&&◌};
ghost use Rattle.std.specs.List.{list_all};
ghost use Rattle.dae_ir.specs.Form.{Form, before, form_of};
ghost use Rattle.dae_commons.specs.SelfSets.{
  function_has_no_self_set,
  has_no_self_set,
  is_self_set,
};

use crate::sums::is_itself;
use dae_ir::{Ir, Item, Statement};

fn is_self_set(item: &Item) -> bool
    ensures { result ≡ is_self_set item.now }
{
    match item {
        Item::Assign(variable, value) => is_itself(*variable, *value),
        _ => false,
    }
}

#[cycle(sets)]
fn statement_has_no_self_set(statement: &Statement) -> bool
    ensures { (k : Form)
        → has_no_self_set (before statement.now k) ≡ (result && has_no_self_set k) }
{
    match statement {
        Statement::Simple(_, item) => !is_self_set(item),
        Statement::If(_, _, yes, no) => has_no_self_set(yes) && has_no_self_set(no),
        Statement::Loop(_, body, step) => has_no_self_set(body) && has_no_self_set(step),
    }
}

/// Whether no variable is set to itself in the statements.
#[cycle(sets)]
fn has_no_self_set(statements: &[Statement]) -> bool
    ensures { result ≡ has_no_self_set (form_of statements.now) }
{
    for statement in statements {
        if !statement_has_no_self_set(statement) {
            return false;
        }
    }
    true
}

/// Whether no function of the form sets a variable to itself.
pub fn form_has_no_self_set(ir: &Ir) -> bool
    ensures { result ≡ list_all function_has_no_self_set ir.now.functions }
{
    let functions = ir.functions.as_slice();
    functions
        .iter()
        .all(|function| has_no_self_set(function.body.as_slice()))
}
