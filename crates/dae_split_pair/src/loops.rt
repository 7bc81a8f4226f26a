// Whether each Break and Continue is inside of a loop.

ghost use Rattle.std.specs.Prelude.{◌≡◌, ◌&&◌};
ghost use Rattle.dae_ir.specs.Form.{Form, before, form_of};
ghost use Rattle.dae_ir.specs.Rounds.{stays};

use dae_ir::Statement;
use dae_split::is_jump;

#[cycle(stays)]
fn statement_stays(inside: bool, statement: &Statement) -> bool
    ensures { (k : Form) → stays inside (before statement.now k) ≡ (result && stays inside k) }
{
    match statement {
        Statement::Simple(_, item) => inside || !is_jump(item),
        Statement::If(_, _, yes, no) => stays(inside, yes) && stays(inside, no),
        Statement::Loop(_, body, step) => stays(true, body) && stays(true, step),
    }
}

/// Whether the statements hold no Break or Continue of a loop outside of them, where a loop is around them or not.
#[cycle(stays)]
pub fn stays(inside: bool, statements: &[Statement]) -> bool
    ensures { result ≡ stays inside (form_of statements.now) }
{
    for statement in statements {
        if !statement_stays(inside, statement) {
            return false;
        }
    }
    true
}
