// The largest number of actions of one kind in one group.

ghost use Rattle.std.specs.Prelude.{◌≡◌, ℕ, ◌+◌, ◌<◌, ◌≤◌, ◌^◌, max};
ghost use Rattle.dae_ir.specs.Streams.{Actions, actions_of, step_onto};
ghost use Rattle.dae_ir.specs.Code.{Do};
ghost use Rattle.dae_ir.specs.declared.stream.StreamFunction.{StreamFunction};
ghost use Rattle.dae_split_pair.specs.Kinds.{is_counted};
ghost use Rattle.dae_split_pair.specs.Tallies.{most, most_of_all, total};

use crate::kinds::{Counted, is_counted};
use dae_ir::{Action, Mark, Step, StreamFunction};

/// The group that is being counted, how many there were in it, and the largest number in a group before or in a list
/// inside.
#[derive(Clone, Copy)]
pub struct Tally {
    pub group: u64,
    pub count: usize,
    pub largest: usize,
}

fn with_action(tally: Tally, kind: Counted, mark: Mark, action: &Action) -> Tally
    requires { tally.count + 1 < 2 ^ 64 }
    ensures rest { (k : Actions) → total kind result k ≡ total kind tally (Do mark action.now k) }
    ensures count { result.count ≤ tally.count + 1 }
{
    let one = if is_counted(kind, action) { 1 } else { 0 };
    if mark.group == tally.group {
        Tally {
            count: tally.count + one,
            ..tally
        }
    } else {
        Tally {
            group: mark.group,
            count: one,
            largest: tally.largest.max(tally.count),
        }
    }
}

fn with_lists(tally: Tally, first: usize, second: usize) -> Tally
    ensures { result ≡ record tally { largest = max tally.largest (max first second) } }
{
    Tally {
        largest: tally.largest.max(first.max(second)),
        ..tally
    }
}

#[cycle(tally)]
fn with_step(tally: Tally, kind: Counted, step: &Step) -> Tally
    requires { tally.count + 1 < 2 ^ 64 }
    ensures rest { (k : Actions) → total kind result k ≡ total kind tally (step_onto step.now k) }
    ensures count { result.count ≤ tally.count + 1 }
{
    match step {
        Step::Act(mark, action) => with_action(tally, kind, *mark, action),
        Step::If(_, _, yes, no) => with_lists(tally, most(kind, yes), most(kind, no)),
        Step::Loop(_, body, step) => with_lists(tally, most(kind, body), most(kind, step)),
    }
}

/// The largest number in one group of a list or of a list inside it.
#[cycle(tally)]
fn most(kind: Counted, steps: &[Step]) -> usize
    ensures { result ≡ most kind 0 0 (actions_of steps.now) }
{
    let mut tally = Tally {
        group: 0,
        count: 0,
        largest: 0,
    };
    for step in steps {
        tally = with_step(tally, kind, step);
    }
    tally.largest.max(tally.count)
}

/// The largest number in one group of a list of the functions.
pub fn most_of_all(kind: Counted, functions: &[StreamFunction]) -> usize
    ensures { result ≡ most_of_all kind functions.now }
{
    let mut largest = 0;
    for function in functions {
        largest = largest.max(most(kind, function.body.as_slice()));
    }
    largest
}
