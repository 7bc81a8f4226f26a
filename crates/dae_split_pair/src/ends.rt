// Where code ends: a function by a return or a halt in its own list, and main by a halt alone.

ghost use Rattle.std.specs.Prelude.{◌≡◌, ◌&&◌, ◌||◌};
ghost use Rattle.dae_ir.specs.Form.{Form, before, form_of};
ghost use Rattle.dae_ir.specs.Scope.{closes, never_returns, is_end, is_return};

use dae_ir::{Item, Statement};

fn is_return(item: &Item) -> bool
    ensures { result ≡ is_return item.now }
{
    matches!(item, Item::Return(_))
}

fn is_end(item: &Item) -> bool
    ensures { result ≡ is_end item.now }
{
    matches!(item, Item::Return(_) | Item::Halt(_))
}

#[cycle(returns)]
fn statement_never_returns(statement: &Statement) -> bool
    ensures { (k : Form) → never_returns (before statement.now k) ≡ (result && never_returns k) }
{
    match statement {
        Statement::Simple(_, item) => !is_return(item),
        Statement::If(_, _, yes, no) => never_returns(yes) && never_returns(no),
        Statement::Loop(_, body, step) => never_returns(body) && never_returns(step),
    }
}

/// Whether there is no return in the statements.
#[cycle(returns)]
pub fn never_returns(statements: &[Statement]) -> bool
    ensures { result ≡ never_returns (form_of statements.now) }
{
    for statement in statements {
        if !statement_never_returns(statement) {
            return false;
        }
    }
    true
}

fn statement_ends(statement: &Statement) -> bool
    ensures { (k : Form) → closes (before statement.now k) ≡ (result || closes k) }
{
    match statement {
        Statement::Simple(_, item) => is_end(item),
        Statement::If(..) => false,
        Statement::Loop(..) => false,
    }
}

/// Whether there is a return or a halt in the list itself, so that its end isn't reached.
pub fn closes(statements: &[Statement]) -> bool
    ensures { result ≡ closes (form_of statements.now) }
{
    for statement in statements {
        if statement_ends(statement) {
            return true;
        }
    }
    false
}
