// Whether the code of actions is short, told by what bounds its length.

ghost use Rattle.std.specs.Prelude.{◌≡◌, ◌+◌, ◌*◌, ◌≤◌, ◌^◌};
ghost use Rattle.dae_ir.specs.Code.{Done};
ghost use Rattle.dae_ir.specs.Sizes.{action_weight};
ghost use Rattle.dae_ir.specs.Streams.{actions_of, step_onto};
ghost use Rattle.dae_select_blocks.specs.Sizes.{calls_in, one_call, most_words_in, is_leaf, is_short};
ghost use Rattle.dae_select_blocks.specs.Code.{is_near};
ghost use Rattle.dae_select.specs.Counting.{capped};
ghost use Rattle.dae_select_values.specs.Jumps.{is_jal};

use dae_ir::{Action, Step};
use dae_select_values::JumpForm;

/// Code that may have so many words is no longer short.
const LONG: u64 = 131_072;

fn capped(words: u64) -> u64
    ensures words { result ≡ capped words }
    ensures few { result ≤ 2 ^ 17 }
{
    if words < LONG { words } else { LONG }
}

/// The most words that an action has, as far as they are counted.
fn action_words(action: &Action) -> u64
    ensures words { result ≡ capped (14 * action_weight action.now + 42 * one_call action.now) }
    ensures few { result ≤ 2 ^ 17 }
{
    match action {
        Action::Call(_, _, arguments) => capped(56 + 14 * capped(arguments.len() as u64)),
        _ => 14,
    }
}

#[cycle(words)]
fn step_words(step: &Step) -> u64
    ensures words { result ≡ capped (most_words_in (step_onto step.now Done)) }
    ensures few { result ≤ 2 ^ 17 }
{
    match step {
        Step::Act(_, action) => action_words(action),
        Step::If(_, _, p, q) => capped(14 + list_words(p) + list_words(q)),
        Step::Loop(_, body, step) => capped(14 + list_words(body) + list_words(step)),
    }
}

/// The most words that the code of a list of actions has, as far as they are counted.
#[cycle(words)]
fn list_words(steps: &[Step]) -> u64
    ensures words { result ≡ capped (most_words_in (actions_of steps.now)) }
    ensures few { result ≤ 2 ^ 17 }
{
    let mut words = 0;
    for index in (0..steps.len()).rev() {
        words = capped(step_words(&steps[index]) + words);
    }
    words
}

/// The calls that an action is, as far as they are counted.
fn action_calls(action: &Action) -> u64
    ensures calls { result ≡ capped (one_call action.now) }
    ensures few { result ≤ 2 ^ 17 }
{
    match action {
        Action::Call(_, _, _) => 1,
        _ => 0,
    }
}

#[cycle(calls)]
fn step_calls(step: &Step) -> u64
    ensures calls { result ≡ capped (calls_in (step_onto step.now Done)) }
    ensures few { result ≤ 2 ^ 17 }
{
    match step {
        Step::Act(_, action) => action_calls(action),
        Step::If(_, _, p, q) => capped(list_calls(p) + list_calls(q)),
        Step::Loop(_, body, step) => capped(list_calls(body) + list_calls(step)),
    }
}

/// The calls that a list of actions makes, as far as they are counted.
#[cycle(calls)]
fn list_calls(steps: &[Step]) -> u64
    ensures calls { result ≡ capped (calls_in (actions_of steps.now)) }
    ensures few { result ≤ 2 ^ 17 }
{
    let mut calls = 0;
    for index in (0..steps.len()).rev() {
        calls = capped(step_calls(&steps[index]) + calls);
    }
    calls
}

/// Whether a function is a leaf: its code makes no call.
pub fn is_leaf(body: &[Step]) -> bool
    ensures { result ≡ is_leaf (actions_of body.now) }
{
    list_calls(body) < 1
}

/// Whether JAL reaches over the code of a function in any case.
fn is_short(body: &[Step]) -> bool
    ensures { result ≡ is_short (actions_of body.now) }
{
    list_words(body) < LONG
}

/// The form of the jumps in the code of a function.
pub fn jumps_in(body: &[Step]) -> JumpForm
    ensures { is_jal result ≡ is_short (actions_of body.now) }
{
    if is_short(body) {
        JumpForm::Near
    } else {
        JumpForm::Far
    }
}

/// Whether a branch reaches back over a loop's body and its step in any case.
pub fn is_near(body: &[Step], step: &[Step]) -> bool
    ensures { result ≡ is_near (actions_of body.now) (actions_of step.now) }
{
    list_words(body) + list_words(step) < 900
}
