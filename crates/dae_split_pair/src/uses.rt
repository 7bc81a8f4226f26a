// Whether an action or a branch of one kind stands.

ghost use Rattle.std.specs.Prelude.{◌≡◌, ◌||◌};
ghost use Rattle.dae_ir.specs.Code.{Done};
ghost use Rattle.dae_ir.specs.Streams.{actions_of, step_onto};
ghost use Rattle.dae_ir.specs.Budgets.{some, stands};
ghost use Rattle.dae_split_pair.specs.Kinds.{is_wanted, is_wanted_branch};

use crate::kinds::{Wanted, is_wanted, is_wanted_branch};
use dae_ir::{Step, StreamFunction};

fn either(first: bool, second: bool) -> bool
    ensures { result ≡ first || second }
{
    first || second
}

#[cycle(uses)]
fn step_uses(kind: Wanted, step: &Step) -> bool
    ensures { result ≡ some (is_wanted kind) (is_wanted_branch kind) (step_onto step.now Done) }
{
    match step {
        Step::Act(_, action) => is_wanted(kind, action),
        Step::If(_, branch, yes, no) => {
            let inside = either(uses(kind, yes), uses(kind, no));
            either(is_wanted_branch(kind, *branch), inside)
        }
        Step::Loop(_, body, step) => either(uses(kind, body), uses(kind, step)),
    }
}

#[cycle(uses)]
fn uses(kind: Wanted, steps: &[Step]) -> bool
    ensures { result ≡ some (is_wanted kind) (is_wanted_branch kind) (actions_of steps.now) }
{
    for step in steps {
        if step_uses(kind, step) {
            return true;
        }
    }
    false
}

/// 1 where the functions have an action or a branch of the kind, and else 0.
pub fn stands(kind: Wanted, functions: &[StreamFunction]) -> u16
    ensures { result ≡ stands (is_wanted kind) (is_wanted_branch kind) functions.now }
{
    for function in functions {
        if uses(kind, function.body.as_slice()) {
            return 1;
        }
    }
    0
}
