// Whether statements continue a loop round them (C90 6.6.6.2).

ghost use Rattle.std.specs.Prelude.{◌≡◌};
ghost use Rattle.dae_lower.specs.Lowering.{arms_continue, continues};
ghost use Rattle.dae_program.specs.Trees.{Done};
ghost use Rattle.dae_program.specs.Views.{statement_then, view_statements, arms_of};

use dae_program::{Arm, Statement};

/// Whether one of some statements continues a loop round them.
#[cycle(continues)]
fn continues(statements: &[Statement]) -> bool
    ensures { result ≡ continues (view_statements statements.now) }
{
    for s in statements {
        if statement_continues(s) {
            return true;
        }
    }
    false
}

#[cycle(continues)]
fn statement_continues(s: &Statement) -> bool
    ensures { result ≡ continues (statement_then s.now Done) }
{
    match s {
        Statement::Evaluate(_, _) => false,
        Statement::Initialise(_, _, _, _) => false,
        Statement::Print(_, _, _) => false,
        Statement::If(_, _, yes, no) => continues(yes) || continues(no),
        Statement::Loop(_, _, _, _) => false,
        Statement::Do(_, _, _) => false,
        Statement::Switch(_, _, arms) => arms_continue(arms),
        Statement::Break(_) => false,
        Statement::Continue(_) => true,
        Statement::Return(_, _) => false,
    }
}

/// Whether a statement of some arms continues a loop round the switch.
#[cycle(continues)]
pub fn arms_continue(arms: &[Arm]) -> bool
    ensures { result ≡ arms_continue (arms_of arms.now) }
{
    for arm in arms {
        if continues(&arm.statements) {
            return true;
        }
    }
    false
}
