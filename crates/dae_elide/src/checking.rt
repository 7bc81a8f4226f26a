// Whether statements hold a check of a place.

ghost use Rattle.std.specs.Prelude.{◌≡◌, ◌&&◌};
ghost use Rattle.std.specs.List.{list_all};
ghost use Rattle.dae_ir.specs.Form.{Form, before, form_of};
ghost use Rattle.dae_elide.specs.Checking.{
  checks_no_place,
  checks_place,
  function_checks_no_place,
};

use dae_ir::{Check, Ir, Item, Statement};

fn checks_place(item: &Item) -> bool
    ensures { result ≡ checks_place item.now }
{
    match item {
        Item::Expect(Check::Place(_, _)) => true,
        _ => false,
    }
}

#[cycle(checks)]
fn statement_checks_no_place(statement: &Statement) -> bool
    ensures { (k : Form)
        → checks_no_place (before statement.now k) ≡ (result && checks_no_place k) }
{
    match statement {
        Statement::Simple(_, item) => !checks_place(item),
        Statement::If(_, _, yes, no) => checks_no_place(yes) && checks_no_place(no),
        Statement::Loop(_, body, step) => checks_no_place(body) && checks_no_place(step),
    }
}

/// Whether there is no check of a place in the statements.
#[cycle(checks)]
pub fn checks_no_place(statements: &[Statement]) -> bool
    ensures { result ≡ checks_no_place (form_of statements.now) }
{
    for statement in statements {
        if !statement_checks_no_place(statement) {
            return false;
        }
    }
    true
}

/// Whether no function of the form checks a place.
pub fn form_checks_no_place(ir: &Ir) -> bool
    ensures { result ≡ list_all function_checks_no_place ir.now.functions }
{
    let functions = ir.functions.as_slice();
    functions
        .iter()
        .all(|function| checks_no_place(function.body.as_slice()))
}
