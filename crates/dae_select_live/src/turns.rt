// What is live where the loops of a function begin their turns, told by one walk, so that no loop is walked through once for each
// loop around it.

ghost use Rattle.std.specs.Prelude.{◌≡◌, ℕ, ◌+◌, ◌*◌, if◌then◌else◌, Some, None, is_some, cond, nat_eq, IfOk, OnOk};
ghost use Rattle.dae_ir.specs.Streams.{Actions, actions_of, step_onto};
ghost use Rattle.dae_select_walks.specs.Live.{ways, live, turn, none, with_all};
ghost use Rattle.dae_select_live.specs.Members.{member};
ghost use Rattle.dae_select_live.specs.Before.{IsLiveBefore};
ghost use Rattle.dae_select_live.specs.Turns.{key_of, IsTurn, IsTurnTold, turns_told, TellsTurns};
ghost use Rattle.dae_select_live.specs.Turns.{AreToldLater, leaves_at_once};

use crate::LiveSet;
use crate::leaving::only_leaves;
use crate::live::{live_before, live_before_action, live_with_branch};
use dae_ir::{Mark, Step};
use indexmap::IndexMap;
use std::alloc::{AllocError, Global};

/// By the numbers of the places of a function's loops, the variables that are live where a turn begins, whatever is live behind
/// the loop: what is live there, is so too. Nothing is told of a loop whose turns don't leave it at their begin, nor where several
/// loops have one place.
#[derive(Drop)]
pub struct Turns {
    pub alloc: Global,
    pub rows: IndexMap<u64, Option<LiveSet>>,
}

fn place_number(line: u32, col: u32) -> u64
    ensures { result ≡ line * 4294967296 + col }
{
    u64::from(line) * 4_294_967_296 + u64::from(col)
}

/// The number of the place of a loop.
fn key_of(mark: Mark) -> u64
    ensures { result ≡ key_of mark }
{
    place_number(mark.place.line, mark.place.col)
}

fn has_row(turns: &Turns, key: u64) -> bool
    ensures { result ≡ is_some (turns_told turns.now key) }
{
    match turns.rows.get(&key) {
        Some(_) => true,
        None => false,
    }
}

fn set_row(turns: &mut Turns, key: u64, row: Option<LiveSet>) -> Result<(), AllocError>
    ensures { OnOk result ((k : ℕ)
        → turns_told turns.new k ≡ cond (nat_eq key k) (Some row) (turns_told turns.old k)) }
{
    turns.rows.insert(key, row)?;
    Ok(())
}

/// A loop is told of; but where another one at its place was, nothing is told of them.
fn tell_turn(turns: &mut Turns, mark: Mark, row: Option<LiveSet>) -> Result<(), AllocError>
    ensures later { OnOk result (AreToldLater (turns_told turns.old) (turns_told turns.new)) }
    ensures told { OnOk result ((body step : Actions) → IsTurn body step row
        → IsTurnTold body step (turns_told turns.new (key_of mark))) }
{
    let key = key_of(mark);
    if has_row(turns, key) {
        set_row(turns, key, None)
    } else {
        set_row(turns, key, row)
    }
}

/// Whether a turn with this body may leave the loop at its begin.
fn leaves_at_once(body: &[Step]) -> bool
    ensures { result ≡ leaves_at_once (actions_of body.now) }
{
    if body.is_empty() {
        return false;
    }
    match &body[0] {
        Step::If(_, _, _, q) => only_leaves(q),
        Step::Act(_, _) => false,
        Step::Loop(_, _, _) => false,
    }
}

/// The variables of both sets.
fn unite(one: LiveSet, other: &LiveSet) -> Result<LiveSet, AllocError>
    ensures { IfOk result (λ set. member set ≡ with_all (member one) (member other.now)) }
{
    let mut set = one;
    set.add_all(other)?;
    Ok(set)
}

/// What is taken to be live behind a loop with this body while it is walked through: nothing, where turns leave it at once.
fn next_for(alloc: Global, body: &[Step], next: &LiveSet) -> Result<LiveSet, AllocError>
    ensures { IfOk result (λ set. member set
        ≡ (if leaves_at_once (actions_of body.now) then none else member next.now)) }
{
    if leaves_at_once(body) {
        Ok(LiveSet::new(alloc))
    } else {
        let set = next.copy(alloc)?;
        Ok(set)
    }
}

/// What is told of a loop with this body, by what is live where a turn begins if `next_for` is live behind it.
fn row_for(alloc: Global, body: &[Step], round: &LiveSet) -> Result<Option<LiveSet>, AllocError>
    ensures { IfOk result (λ row.
        row ≡ (if leaves_at_once (actions_of body.now) then Some round.now else None)) }
{
    if leaves_at_once(body) {
        let set = round.copy(alloc)?;
        Ok(Some(set))
    } else {
        Ok(None)
    }
}

/// What is live where a turn begins, by what is if `next_for` is live behind the loop.
fn turn_for(round: LiveSet, body: &[Step], next: &LiveSet) -> Result<LiveSet, AllocError>
    ensures { IfOk result (λ set. member set
        ≡ (if leaves_at_once (actions_of body.now) then with_all (member round) (member next.now)
        else member round)) }
{
    if leaves_at_once(body) {
        unite(round, next)
    } else {
        Ok(round)
    }
}

#[cycle(tell)]
fn tell_in_step(
    turns: &mut Turns,
    step: &Step,
    next: LiveSet,
    leaves: &LiveSet,
    skips: &LiveSet,
) -> Result<LiveSet, AllocError>
    ensures live { IfOk result (λ set. IsLiveBefore step.now next leaves.now skips.now set) }
    ensures told { OnOk result ((k : Actions) → TellsTurns (turns_told turns.new) k
        → TellsTurns (turns_told turns.new) (step_onto step.now k)) }
    ensures later { OnOk result (AreToldLater (turns_told turns.old) (turns_told turns.new)) }
{
    let alloc = turns.alloc;
    match step {
        Step::Act(_, action) => {
            let set = live_before_action(alloc, action, next, leaves, skips)?;
            Ok(set)
        }
        Step::If(_, branch, p, q) => {
            let first = tell_in_list(turns, p, next.copy(alloc)?, leaves, skips)?;
            let second = tell_in_list(turns, q, next, leaves, skips)?;
            let set = live_with_branch(*branch, first, &second)?;
            Ok(set)
        }
        Step::Loop(mark, body, step) => {
            let behind = next_for(alloc, body, &next)?;
            let nothing = LiveSet::new(alloc);
            let again = tell_in_list(turns, step, LiveSet::new(alloc), &behind, &nothing)?;
            let round = tell_in_list(turns, body, again.copy(alloc)?, &behind, &again)?;
            let row = row_for(alloc, body, &round)?;
            tell_turn(turns, *mark, row)?;
            let set = turn_for(round, body, &next)?;
            Ok(set)
        }
    }
}

/// The loops of a list are told of; and what is live before it, as `live_before` has it.
#[cycle(tell)]
fn tell_in_list(
    turns: &mut Turns,
    steps: &[Step],
    next: LiveSet,
    leaves: &LiveSet,
    skips: &LiveSet,
) -> Result<LiveSet, AllocError>
    ensures live { IfOk result (λ set. member set
        ≡ live (actions_of steps.now) (ways (member next) (member leaves.now) (member skips.now))) }
    ensures told { OnOk result (TellsTurns (turns_told turns.new) (actions_of steps.now)) }
    ensures later { OnOk result (AreToldLater (turns_told turns.old) (turns_told turns.new)) }
{
    let mut set = next;
    for index in (0..steps.len()).rev() {
        set = tell_in_step(turns, &steps[index], set, leaves, skips)?;
    }
    Ok(set)
}

/// The loops of a step are told of by a walk through it, with nothing live behind it: that changes nothing that is told.
fn tell_by_walk(turns: &mut Turns, step: &Step) -> Result<(), AllocError>
    ensures told { OnOk result ((k : Actions) → TellsTurns (turns_told turns.new) k
        → TellsTurns (turns_told turns.new) (step_onto step.now k)) }
    ensures later { OnOk result (AreToldLater (turns_told turns.old) (turns_told turns.new)) }
{
    let alloc = turns.alloc;
    let nowhere = LiveSet::new(alloc);
    tell_in_step(turns, step, LiveSet::new(alloc), &nowhere, &nowhere)?;
    Ok(())
}

#[cycle(loops)]
fn tell_loops_of_step(turns: &mut Turns, step: &Step) -> Result<(), AllocError>
    ensures told { OnOk result ((k : Actions) → TellsTurns (turns_told turns.new) k
        → TellsTurns (turns_told turns.new) (step_onto step.now k)) }
    ensures later { OnOk result (AreToldLater (turns_told turns.old) (turns_told turns.new)) }
{
    match step {
        Step::Act(_, _) => Ok(()),
        Step::If(_, _, p, q) => {
            tell_loops(turns, p)?;
            tell_loops(turns, q)
        }
        Step::Loop(mark, body, again) => {
            if leaves_at_once(body) {
                tell_by_walk(turns, step)
            } else {
                tell_loops(turns, again)?;
                tell_loops(turns, body)?;
                tell_turn(turns, *mark, None)
            }
        }
    }
}

/// The loops of a list are told of. What is live is looked for only in loops whose turns may leave them at their begin, since
/// nothing else is told.
#[cycle(loops)]
fn tell_loops(turns: &mut Turns, steps: &[Step]) -> Result<(), AllocError>
    ensures told { OnOk result (TellsTurns (turns_told turns.new) (actions_of steps.now)) }
    ensures later { OnOk result (AreToldLater (turns_told turns.old) (turns_told turns.new)) }
{
    for index in (0..steps.len()).rev() {
        tell_loops_of_step(turns, &steps[index])?;
    }
    Ok(())
}

/// What is told of the loops of a function with this body.
pub fn tell_turns(alloc: Global, body: &[Step]) -> Result<Turns, AllocError>
    ensures { IfOk result (λ turns. TellsTurns (turns_told turns) (actions_of body.now)) }
{
    let mut turns = Turns {
        alloc,
        rows: IndexMap::new(alloc),
    };
    tell_loops(&mut turns, body)?;
    Ok(turns)
}

/// What is live where a loop begins a turn, found by a walk through the loop.
fn walk_round(
    alloc: Global,
    body: &[Step],
    step: &[Step],
    next: &LiveSet,
) -> Result<LiveSet, AllocError>
    ensures { IfOk result (λ set. member set
        ≡ turn (actions_of body.now) (actions_of step.now) (member next.now)) }
{
    let nothing = LiveSet::new(alloc);
    let again = live_before(alloc, step, LiveSet::new(alloc), next, &nothing)?;
    live_before(alloc, body, again.copy(alloc)?, next, &again)
}

/// What is live where a loop begins a turn of which this is told.
fn turn_by_row(
    alloc: Global,
    row: &Option<LiveSet>,
    body: &[Step],
    step: &[Step],
    next: &LiveSet,
) -> Result<LiveSet, AllocError>
    requires { IsTurn (actions_of body.now) (actions_of step.now) row.now }
    ensures { IfOk result (λ set. member set
        ≡ turn (actions_of body.now) (actions_of step.now) (member next.now)) }
{
    match row {
        Some(set) => unite(set.copy(alloc)?, next),
        None => walk_round(alloc, body, step, next),
    }
}

/// What is live where a loop begins a turn, where `next` is live behind the loop. The loop is walked through only where it isn't told.
pub fn live_at_turn(
    turns: &Turns,
    mark: Mark,
    body: &[Step],
    step: &[Step],
    next: &LiveSet,
) -> Result<LiveSet, AllocError>
    requires { IsTurnTold (actions_of body.now) (actions_of step.now)
        (turns_told turns.now (key_of mark)) }
    ensures { IfOk result (λ set. member set
        ≡ turn (actions_of body.now) (actions_of step.now) (member next.now)) }
{
    let key = key_of(mark);
    match turns.rows.get(&key) {
        Some(row) => turn_by_row(turns.alloc, row, body, step, next),
        None => walk_round(turns.alloc, body, step, next),
    }
}
