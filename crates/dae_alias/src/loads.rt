// Whether statements hold a load.

ghost use Rattle.std.specs.Prelude.{◌≡◌, ◌&&◌};
ghost use Rattle.dae_ir.specs.Form.{Form, before, form_of};
ghost use Rattle.dae_alias.specs.Reuse.{has_no_load};

use dae_ir::{Item, Statement};

#[cycle(loads)]
fn statement_has_no_load(statement: &Statement) -> bool
    ensures { (k : Form) → has_no_load (before statement.now k) ≡ (result && has_no_load k) }
{
    match statement {
        Statement::Simple(_, item) => !matches!(item, Item::Load(..)),
        Statement::If(_, _, yes, no) => has_no_load(yes) && has_no_load(no),
        Statement::Loop(_, body, step) => has_no_load(body) && has_no_load(step),
    }
}

/// Whether there is no load in the statements.
#[cycle(loads)]
pub fn has_no_load(statements: &[Statement]) -> bool
    ensures { result ≡ has_no_load (form_of statements.now) }
{
    for statement in statements {
        if !statement_has_no_load(statement) {
            return false;
        }
    }
    true
}
