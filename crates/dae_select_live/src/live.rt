// What is live before actions.

ghost use Rattle.std.specs.Prelude.{◌≡◌, IfOk};
ghost use Rattle.dae_ir.specs.Classes.{VariableSet};
ghost use Rattle.dae_ir.specs.Streams.{actions_of};
ghost use Rattle.dae_select_walks.specs.Live.{ways, live, before, after, with_all, decided};
ghost use Rattle.dae_select_live.specs.Members.{member};
ghost use Rattle.dae_select_live.specs.Before.{IsLiveBefore};

use crate::LiveSet;
use crate::reads::{add_action, add_branch, set_anew};
use dae_ir::{Action, Branch, Step};
use std::alloc::{AllocError, Global};

/// What is live before an action, where `next` is live behind it in its list, `leaves` where a Break goes and `skips`
/// where a Continue goes.
pub fn live_before_action(
    alloc: Global,
    action: &Action,
    next: LiveSet,
    leaves: &LiveSet,
    skips: &LiveSet,
) -> Result<LiveSet, AllocError>
    ensures { IfOk result (λ set. (n : VariableSet) → member set
        ≡ before action.now (member next) (ways n (member leaves.now) (member skips.now))) }
{
    let mut set = live_after_action(alloc, action, next, leaves, skips)?;
    set.remove_known(set_anew(action));
    add_action(&mut set, action)?;
    Ok(set)
}

fn live_after_action(
    alloc: Global,
    action: &Action,
    next: LiveSet,
    leaves: &LiveSet,
    skips: &LiveSet,
) -> Result<LiveSet, AllocError>
    ensures { IfOk result (λ set. (n : VariableSet) → member set
        ≡ after action.now (member next) (ways n (member leaves.now) (member skips.now))) }
{
    match action {
        Action::Break => next.refill(leaves),
        Action::Continue => next.refill(skips),
        Action::Stop(_) | Action::Return(_) => Ok(LiveSet::new(alloc)),
        _ => Ok(next),
    }
}

pub fn live_with_branch(
    branch: Branch,
    first: LiveSet,
    second: &LiveSet,
) -> Result<LiveSet, AllocError>
    ensures { IfOk result (λ set. member set
        ≡ with_all (decided branch) (with_all (member first) (member second.now))) }
{
    let mut set = first;
    set.add_all(second)?;
    add_branch(&mut set, branch)?;
    Ok(set)
}

#[cycle(live)]
fn live_before_step(
    alloc: Global,
    step: &Step,
    next: LiveSet,
    leaves: &LiveSet,
    skips: &LiveSet,
) -> Result<LiveSet, AllocError>
    ensures { IfOk result (λ set. IsLiveBefore step.now next leaves.now skips.now set) }
{
    match step {
        Step::Act(_, action) => live_before_action(alloc, action, next, leaves, skips),
        Step::If(_, branch, p, q) => {
            let first = live_before(alloc, p, next.copy(alloc)?, leaves, skips)?;
            let second = live_before(alloc, q, next, leaves, skips)?;
            live_with_branch(*branch, first, &second)
        }
        Step::Loop(_, body, step) => {
            let nothing = LiveSet::new(alloc);
            let again = live_before(alloc, step, LiveSet::new(alloc), &next, &nothing)?;
            live_before(alloc, body, again.copy(alloc)?, &next, &again)
        }
    }
}

/// What is live before a list of actions, where `next` is live behind it, `leaves` where a Break goes and `skips` where a
/// Continue goes.
#[cycle(live)]
pub fn live_before(
    alloc: Global,
    steps: &[Step],
    next: LiveSet,
    leaves: &LiveSet,
    skips: &LiveSet,
) -> Result<LiveSet, AllocError>
    ensures { IfOk result (λ set. member set
        ≡ live (actions_of steps.now) (ways (member next) (member leaves.now) (member skips.now))) }
{
    let mut set = next;
    for index in (0..steps.len()).rev() {
        set = live_before_step(alloc, &steps[index], set, leaves, skips)?;
    }
    Ok(set)
}
