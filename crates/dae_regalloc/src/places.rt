// The places of a function are seen, from the last to the first.

ghost use Rattle.std.specs.Prelude.{◌≡◌, ◌+◌, ◌^◌, ◌<◌, true, false, IfOk, IfSome, IfNone};
ghost use Rattle.dae_ir.specs.Code.{Done};
ghost use Rattle.dae_ir.specs.Streams.{actions_of, step_onto};
ghost use Rattle.dae_select_live.specs.Members.{member};
ghost use Rattle.dae_select_live.specs.Turns.{turns_told, TellsTurns};
ghost use Rattle.dae_select_walks.specs.Live.{ways, with_all, only, sets, parameters_of, function_lives};
ghost use Rattle.dae_regalloc.specs.Seen.{AreSeen, ArePlacesOf, ArePlacesOfStep, SeesPlace, can_number, count_places};

use crate::spans::Spans;
use dae_ir::{Action, Step};
use dae_select_live::{
    LiveSet, Turns, live_at_turn, live_before_action, live_with_branch, set_by, tell_turns,
};
use std::alloc::{AllocError, Global};

/// The variable that an action sets, where it isn't among those that are live before it.
fn added_by(action: &Action, before: &LiveSet) -> Option<u32>
    ensures some { IfSome result (λ v. (member before.now v ≡ false)
        × (with_all (only v) (member before.now)
        ≡ with_all (member before.now) (sets action.now))) }
    ensures none { IfNone result
        (with_all (member before.now) (sets action.now) ≡ member before.now) }
{
    match set_by(action) {
        Some(variable) => {
            let there = before.contains(variable);
            if there { None } else { Some(variable) }
        }
        None => None,
    }
}

/// The next place is seen, where the variables of the set are live and this one, which isn't among them. The set comes back
/// as it was.
fn see_with(spans: &mut Spans, before: LiveSet, variable: u32) -> Result<LiveSet, AllocError>
    requires room { spans.old.places + 1 < 2 ^ 32 }
    requires absent { member before variable ≡ false }
    ensures same { IfOk result (λ set. member set ≡ member before) }
    ensures seen { IfOk result (λ set.
        SeesPlace (with_all (only variable) (member before)) spans.old spans.new) }
{
    let mut set = before;
    set.insert(variable)?;
    spans.see(&set)?;
    set.remove(variable);
    Ok(set)
}

/// The place of an action is seen: there what is live before it is live, and what it sets. What is live before it comes back.
fn see_action(spans: &mut Spans, action: &Action, before: LiveSet) -> Result<LiveSet, AllocError>
    requires { spans.old.places + 1 < 2 ^ 32 }
    ensures same { IfOk result (λ set. member set ≡ member before) }
    ensures seen { IfOk result (λ set.
        SeesPlace (with_all (member before) (sets action.now)) spans.old spans.new) }
{
    match added_by(action, &before) {
        Some(variable) => see_with(spans, before, variable),
        None => {
            spans.see(&before)?;
            Ok(before)
        }
    }
}

/// What is live at the entry of a function: what is live before its actions, and its parameters.
fn live_at_entry(before: LiveSet, parameters: u32) -> Result<LiveSet, AllocError>
    ensures { IfOk result (λ set. member set
        ≡ with_all (member before) (parameters_of parameters)) }
{
    let mut set = before;
    for parameter in 0..parameters {
        set.insert(parameter + 1)?;
    }
    Ok(set)
}

#[cycle(places)]
fn see_step(
    turns: &Turns,
    spans: &mut Spans,
    step: &Step,
    next: LiveSet,
    leaves: &LiveSet,
    skips: &LiveSet,
) -> Result<LiveSet, AllocError>
    requires room { spans.old.places + count_places (step_onto step.now Done) < 2 ^ 32 }
    requires told { TellsTurns (turns_told turns.now) (step_onto step.now Done) }
    ensures { IfOk result (λ set.
        ArePlacesOfStep step.now spans.old next leaves.now skips.now spans.new set) }
{
    let alloc = turns.alloc;
    match step {
        Step::Act(_, action) => {
            let before = live_before_action(alloc, action, next, leaves, skips)?;
            let set = see_action(spans, action, before)?;
            Ok(set)
        }
        Step::If(_, branch, p, q) => {
            let second = see_steps(turns, spans, q, next.copy(alloc)?, leaves, skips)?;
            let first = see_steps(turns, spans, p, next, leaves, skips)?;
            let set = live_with_branch(*branch, first, &second)?;
            spans.see(&set)?;
            Ok(set)
        }
        Step::Loop(mark, body, step) => {
            let turn = live_at_turn(turns, *mark, body, step, &next)?;
            let again = see_steps(turns, spans, step, turn.copy(alloc)?, &next, &turn)?;
            let set = see_steps(turns, spans, body, again.copy(alloc)?, &next, &again)?;
            spans.see(&set)?;
            Ok(set)
        }
    }
}

/// The places of a list of actions are seen, where `next` is live behind it, `leaves` where a Break goes and `skips`
/// where a Continue goes; and what is live before it.
#[cycle(places)]
fn see_steps(
    turns: &Turns,
    spans: &mut Spans,
    steps: &[Step],
    next: LiveSet,
    leaves: &LiveSet,
    skips: &LiveSet,
) -> Result<LiveSet, AllocError>
    requires room { spans.old.places + count_places (actions_of steps.now) < 2 ^ 32 }
    requires told { TellsTurns (turns_told turns.now) (actions_of steps.now) }
    ensures { IfOk result (λ set.
        ArePlacesOf (actions_of steps.now) (ways (member next) (member leaves.now)
        (member skips.now)) spans.old spans.new set) }
{
    let mut set = next;
    for index in (0..steps.len()).rev() {
        set = see_step(turns, spans, &steps[index], set, leaves, skips)?;
    }
    Ok(set)
}

/// The spans over the places of a function with so many parameters.
pub fn spans_of(alloc: Global, parameters: u32, body: &[Step]) -> Result<Spans, AllocError>
    requires { can_number (actions_of body.now) ≡ true }
    ensures { IfOk result (λ spans.
        AreSeen (function_lives parameters (actions_of body.now)) spans) }
{
    let turns = tell_turns(alloc, body)?;
    let mut spans = Spans::new(alloc);
    let leaves = LiveSet::new(alloc);
    let skips = LiveSet::new(alloc);
    let set = see_steps(
        &turns,
        &mut spans,
        body,
        LiveSet::new(alloc),
        &leaves,
        &skips,
    )?;
    let entry = live_at_entry(set, parameters)?;
    spans.see(&entry)?;
    Ok(spans)
}
