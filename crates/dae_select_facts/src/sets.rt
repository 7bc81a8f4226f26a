// Which variables lists of steps set.

ghost use Rattle.std.specs.Prelude.{◌≡◌, ℕ, ◌||◌, ◌++◌, IfOk, OnOk};
ghost use Rattle.dae_ir.specs.Streams.{Actions, actions_of, step_onto};
ghost use Rattle.dae_select_walks.specs.Facts.{is_set, in_either, is_about, less};
ghost use Rattle.dae_select_walks.specs.Live.{sets};
ghost use Rattle.dae_select_live.specs.Members.{member};

use dae_ir::{Action, Step};
use dae_select_live::{LiveSet, set_by};
use dae_select_walks::Fact;
use std::alloc::{AllocError, Global};

fn action_sets(action: &Action, variable: u32) -> bool
    ensures { result ≡ sets action.now variable }
{
    match set_by(action) {
        None => false,
        Some(set) => variable == set,
    }
}

#[cycle(sets)]
fn step_sets(step: &Step, variable: u32) -> bool
    ensures { (k : Actions) → is_set (step_onto step.now k) variable
        ≡ (result || is_set k variable) }
{
    match step {
        Step::Act(_, action) => action_sets(action, variable),
        Step::If(_, _, p, q) => list_sets(p, variable) || list_sets(q, variable),
        Step::Loop(_, body, step) => list_sets(body, variable) || list_sets(step, variable),
    }
}

/// Whether a list sets the variable.
#[cycle(sets)]
pub fn list_sets(steps: &[Step], variable: u32) -> bool
    ensures { result ≡ is_set (actions_of steps.now) variable }
{
    for index in 0..steps.len() {
        if step_sets(&steps[index], variable) {
            return true;
        }
    }
    false
}

#[cycle(adds)]
fn add_sets_of_step(set: &mut LiveSet, step: &Step) -> Result<(), AllocError>
    ensures { OnOk result ((v : ℕ) (k : Actions)
        → (is_set (step_onto step.now k) v || member set.old v)
        ≡ (is_set k v || member set.new v)) }
{
    match step {
        Step::Act(_, action) => match set_by(action) {
            None => Ok(()),
            Some(variable) => set.insert(variable),
        },
        Step::If(_, _, p, q) => {
            add_sets(set, p)?;
            add_sets(set, q)
        }
        Step::Loop(_, body, step) => {
            add_sets(set, body)?;
            add_sets(set, step)
        }
    }
}

/// The variables that a list sets come into a set.
#[cycle(adds)]
fn add_sets(set: &mut LiveSet, steps: &[Step]) -> Result<(), AllocError>
    ensures { OnOk result ((v : ℕ)
        → member set.new v ≡ (is_set (actions_of steps.now) v || member set.old v)) }
{
    for index in 0..steps.len() {
        add_sets_of_step(set, &steps[index])?;
    }
    Ok(())
}

/// Whether a fact is of a variable in a set.
fn is_about(set: &LiveSet, fact: Fact) -> bool
    ensures { result ≡ is_about (member set.now) fact }
{
    match fact {
        Fact::Within(variable, _) => set.contains(variable),
        Fact::Equals(variable, affine) => set.contains(variable) || set.contains(affine.base),
    }
}

/// The facts of variables that aren't in a set come behind others.
fn push_others(kept: &mut Vec<Fact>, facts: &[Fact], set: &LiveSet) -> Result<(), AllocError>
    ensures { OnOk result (kept.new.items
        ≡ kept.old.items ++ less (member set.now) facts.now) }
{
    for fact in facts {
        if !is_about(set, *fact) {
            kept.push(*fact)?;
        }
    }
    Ok(())
}

/// The facts of variables that a list doesn't set come behind others. The list is walked once, however many facts there are.
pub fn push_unset(
    alloc: Global,
    kept: &mut Vec<Fact>,
    facts: &[Fact],
    steps: &[Step],
) -> Result<(), AllocError>
    ensures { OnOk result (kept.new.items
        ≡ kept.old.items ++ less (is_set (actions_of steps.now)) facts.now) }
{
    if facts.is_empty() {
        return Ok(());
    }
    let mut set = LiveSet::new(alloc);
    add_sets(&mut set, steps)?;
    push_others(kept, facts, &set)
}

/// The facts of variables that neither list sets come behind others.
pub fn push_unset_by_both(
    alloc: Global,
    kept: &mut Vec<Fact>,
    facts: &[Fact],
    one: &[Step],
    other: &[Step],
) -> Result<(), AllocError>
    ensures { OnOk result (kept.new.items ≡ kept.old.items
        ++ less (in_either (is_set (actions_of one.now)) (is_set (actions_of other.now)))
        facts.now) }
{
    if facts.is_empty() {
        return Ok(());
    }
    let mut set = LiveSet::new(alloc);
    add_sets(&mut set, one)?;
    add_sets(&mut set, other)?;
    push_others(kept, facts, &set)
}
