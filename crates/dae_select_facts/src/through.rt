// What is known in the lists of an If and a Loop, and behind them.

ghost use Rattle.std.specs.Prelude.{◌≡◌, true, ◌++◌, Some, IfOk, OnOk};
ghost use Rattle.dae_ir.specs.Streams.{Actions, actions_of, step_onto};
ghost use Rattle.dae_select_walks.specs.Edges.{is_then};
ghost use Rattle.dae_select_walks.specs.Facts.{at_begin, all_of, branch_facts};
ghost use Rattle.dae_select_walks.specs.Facts.{is_set, in_either, less, kept, facts_past_if};
ghost use Rattle.dae_select_walks.specs.Facts.{facts_past_loop, facts_behind_turn};
ghost use Rattle.dae_select_walks.specs.Facts.{grows, counter_of, counters, guessed};
ghost use Rattle.dae_select_walks.specs.Facts.{behind_straight, bounds_in, is_said, say};
ghost use Rattle.dae_select_walks.specs.Facts.{holds_on, facts_at_turn};
ghost use Rattle.dae_select_facts.specs.Knowns.{facts_by, listed};
ghost use Rattle.dae_select_facts.specs.Turns.{facts_if, straight_on, IsCounterIn};

use crate::bounds::is_inside;
use crate::known::{KnownFacts, bounds_in, facts_behind};
use crate::sets::{list_sets, push_unset, push_unset_by_both};
use crate::tested::{HALF, branch_fact};
use dae_base::Width;
use dae_ir::{Action, Branch, Operand, Step, Test};
use dae_select_live::only_leaves;
use dae_select_walks::{Bounds, Edge, Fact};
use std::alloc::{AllocError, Global};

/// What is known where a list begins.
fn at_begin(alloc: Global, outer: Vec<Fact>) -> KnownFacts
    ensures { facts_by result ≡ at_begin outer.items }
{
    KnownFacts {
        outer,
        inner: Vec::new(alloc),
    }
}

fn push_fact(facts: &mut Vec<Fact>, fact: Option<Fact>) -> Result<(), AllocError>
    ensures { OnOk result (facts.new.items ≡ facts.old.items ++ listed fact) }
{
    if let Some(fact) = fact {
        facts.push(fact)?;
    }
    Ok(())
}

/// Where the list of an If begins that an edge leads to.
pub fn facts_in_list(
    alloc: Global,
    branch: Branch,
    edge: Edge,
    known: &KnownFacts,
) -> Result<KnownFacts, AllocError>
    ensures { IfOk result (λ new. facts_by new ≡ at_begin (branch_facts branch (is_then edge)
        (facts_by known.now) ++ all_of (facts_by known.now))) }
{
    let mut outer = Vec::new(alloc);
    push_fact(&mut outer, branch_fact(branch, edge, known))?;
    outer.extend_from_slice(known.inner.as_slice())?;
    outer.extend_from_slice(known.outer.as_slice())?;
    Ok(at_begin(alloc, outer))
}

/// Behind a list that a test led into, where the other one only leaves: what the test tells, and what was known.
fn past_first(
    alloc: Global,
    branch: Branch,
    p: &[Step],
    known: &KnownFacts,
) -> Result<KnownFacts, AllocError>
    ensures { IfOk result (λ new. facts_by new ≡ kept (is_set (actions_of p.now))
        (record (facts_by known.now) {
          outer = branch_facts branch true (facts_by known.now)
              ++ (facts_by known.now).outer;
        })) }
{
    let mut told = Vec::new(alloc);
    push_fact(&mut told, branch_fact(branch, Edge::Then, known))?;
    told.extend_from_slice(known.outer.as_slice())?;
    let mut outer = Vec::new(alloc);
    push_unset(alloc, &mut outer, told.as_slice(), p)?;
    let mut inner = Vec::new(alloc);
    push_unset(alloc, &mut inner, known.inner.as_slice(), p)?;
    Ok(KnownFacts { outer, inner })
}

/// Behind two lists: what neither of them sets.
fn past_both(
    alloc: Global,
    one: &[Step],
    other: &[Step],
    known: &KnownFacts,
) -> Result<KnownFacts, AllocError>
    ensures { IfOk result (λ new. facts_by new ≡ kept
        (in_either (is_set (actions_of one.now)) (is_set (actions_of other.now)))
        (facts_by known.now)) }
{
    let mut outer = Vec::new(alloc);
    push_unset_by_both(alloc, &mut outer, known.outer.as_slice(), one, other)?;
    let mut inner = Vec::new(alloc);
    push_unset_by_both(alloc, &mut inner, known.inner.as_slice(), one, other)?;
    Ok(KnownFacts { outer, inner })
}

/// Behind an If.
pub fn facts_past_if(
    alloc: Global,
    branch: Branch,
    p: &[Step],
    q: &[Step],
    known: &KnownFacts,
) -> Result<KnownFacts, AllocError>
    ensures { IfOk result (λ new. facts_by new
        ≡ facts_past_if branch (actions_of p.now) (actions_of q.now) (facts_by known.now)) }
{
    if only_leaves(q) {
        past_first(alloc, branch, p, known)
    } else {
        past_both(alloc, p, q, known)
    }
}

/// Behind a loop.
pub fn facts_past_loop(
    alloc: Global,
    body: &[Step],
    step: &[Step],
    known: &KnownFacts,
) -> Result<KnownFacts, AllocError>
    ensures { IfOk result (λ new. facts_by new
        ≡ facts_past_loop (actions_of body.now) (actions_of step.now) (facts_by known.now)) }
{
    past_both(alloc, body, step, known)
}

/// Behind a list of facts alone, of what it doesn't set.
fn begin_unset(alloc: Global, facts: &[Fact], steps: &[Step]) -> Result<KnownFacts, AllocError>
    ensures { IfOk result (λ new. facts_by new
        ≡ at_begin (less (is_set (actions_of steps.now)) facts.now)) }
{
    let mut outer = Vec::new(alloc);
    push_unset(alloc, &mut outer, facts, steps)?;
    Ok(at_begin(alloc, outer))
}

/// Where a loop's step begins, where this is known where a turn begins.
pub fn facts_behind_turn(
    alloc: Global,
    body: &[Step],
    turn: &KnownFacts,
) -> Result<KnownFacts, AllocError>
    ensures { IfOk result (λ new. facts_by new
        ≡ facts_behind_turn (actions_of body.now) (facts_by turn.now)) }
{
    if body.is_empty() {
        return begin_unset(alloc, turn.outer.as_slice(), body);
    }
    match &body[0] {
        Step::Act(_, _) => begin_unset(alloc, turn.outer.as_slice(), body),
        Step::Loop(_, _, _) => begin_unset(alloc, turn.outer.as_slice(), body),
        Step::If(_, branch, p, q) => {
            if only_leaves(q) {
                let past = facts_past_if(alloc, *branch, p, q, turn)?;
                begin_unset(alloc, past.outer.as_slice(), &body[1..])
            } else {
                begin_unset(alloc, turn.outer.as_slice(), body)
            }
        }
    }
}

/// The variable that is compared, where the step sets it and the body doesn't.
fn counter_in(operand: Operand, body: &[Step], step: &[Step]) -> Option<u32>
    ensures { IsCounterIn operand (actions_of body.now) (actions_of step.now) result }
{
    match operand {
        Operand::Number(_) => None,
        Operand::Variable(variable) => {
            if list_sets(step, variable) && !list_sets(body, variable) {
                Some(variable)
            } else {
                None
            }
        }
    }
}

/// A variable that only grows.
fn growing_fact(variable: u32, known: &KnownFacts) -> Option<Fact>
    ensures { listed result ≡ grows variable (bounds_in (facts_by known.now) variable) }
{
    let bounds = bounds_in(known, variable);
    if bounds.high < HALF {
        Some(Fact::Within(
            variable,
            Bounds {
                low: bounds.low,
                high: HALF - 1,
                aligned: Width::B1,
            },
        ))
    } else {
        None
    }
}

/// What a loop's counter may be, by its test.
fn guess_of(test: Test, body: &[Step], step: &[Step], known: &KnownFacts) -> Option<Fact>
    ensures { listed result ≡ counters (counter_of test) (actions_of body.now)
        (actions_of step.now) (facts_by known.now) }
{
    match counter_in(test.left, body, step) {
        Some(variable) => growing_fact(variable, known),
        None => match counter_in(test.right, body, step) {
            Some(variable) => growing_fact(variable, known),
            None => None,
        },
    }
}

/// What a loop's counter may be.
fn counter_guess(body: &[Step], step: &[Step], known: &KnownFacts) -> Option<Fact>
    ensures { listed result
        ≡ guessed (actions_of body.now) (actions_of step.now) (facts_by known.now) }
{
    if body.is_empty() {
        return None;
    }
    match &body[0] {
        Step::Act(_, _) => None,
        Step::Loop(_, _, _) => None,
        Step::If(_, branch, _, _) => match branch {
            Branch::Tells(test) => guess_of(*test, body, step, known),
            Branch::Silent(test) => guess_of(*test, body, step, known),
            Branch::Hears => None,
        },
    }
}

/// What is known behind a step, where that is an action behind which the list goes on.
fn behind_step(
    memory: u32,
    known: KnownFacts,
    step: &Step,
) -> Result<Option<KnownFacts>, AllocError>
    ensures { IfOk result (λ new. (k : Actions)
        → behind_straight memory (step_onto step.now k) (facts_by known)
        ≡ straight_on memory k (facts_if new)) }
{
    match step {
        Step::Act(_, Action::Break) => Ok(None),
        Step::Act(_, Action::Continue) => Ok(None),
        Step::Act(_, Action::Return(_)) => Ok(None),
        Step::Act(_, action) => Ok(Some(facts_behind(memory, known, action)?)),
        Step::If(_, _, _, _) => Ok(None),
        Step::Loop(_, _, _) => Ok(None),
    }
}

/// What is known behind actions alone.
fn behind_straight(
    memory: u32,
    known: KnownFacts,
    steps: &[Step],
) -> Result<Option<KnownFacts>, AllocError>
    ensures { IfOk result (λ new. facts_if new
        ≡ behind_straight memory (actions_of steps.now) (facts_by known)) }
{
    let mut known = known;
    for index in 0..steps.len() {
        match behind_step(memory, known, &steps[index])? {
            None => return Ok(None),
            Some(next) => known = next,
        }
    }
    Ok(Some(known))
}

/// What no list of a loop sets, where a turn begins, with a guess before it.
fn turn_with(
    alloc: Global,
    guess: Option<Fact>,
    body: &[Step],
    step: &[Step],
    known: &KnownFacts,
) -> Result<KnownFacts, AllocError>
    ensures { IfOk result (λ new. facts_by new ≡ at_begin (listed guess ++ less
        (in_either (is_set (actions_of body.now)) (is_set (actions_of step.now)))
        (all_of (facts_by known.now)))) }
{
    let mut all = Vec::new(alloc);
    all.extend_from_slice(known.inner.as_slice())?;
    all.extend_from_slice(known.outer.as_slice())?;
    let mut outer = Vec::new(alloc);
    push_fact(&mut outer, guess)?;
    push_unset_by_both(alloc, &mut outer, all.as_slice(), body, step)?;
    Ok(at_begin(alloc, outer))
}

fn is_said(known: &KnownFacts, fact: Fact) -> bool
    ensures { result ≡ is_said (facts_by known.now) fact }
{
    match fact {
        Fact::Within(variable, bounds) => is_inside(bounds_in(known, variable), bounds),
        Fact::Equals(_, _) => false,
    }
}

/// Whether a guess that holds before a turn holds behind the step.
fn stays(
    alloc: Global,
    memory: u32,
    body: &[Step],
    step: &[Step],
    turn: &KnownFacts,
    guess: Fact,
) -> Result<bool, AllocError>
    ensures { IfOk result (λ holds. holds ≡ say (behind_straight memory (actions_of step.now)
        (facts_behind_turn (actions_of body.now) (facts_by turn.now))) (listed (Some guess))) }
{
    let begin = facts_behind_turn(alloc, body, turn)?;
    match behind_straight(memory, begin, step)? {
        None => Ok(false),
        Some(end) => Ok(is_said(&end, guess)),
    }
}

/// Where a loop begins a turn.
pub fn facts_at_turn(
    alloc: Global,
    memory: u32,
    body: &[Step],
    step: &[Step],
    known: &KnownFacts,
) -> Result<KnownFacts, AllocError>
    ensures { IfOk result (λ new. facts_by new ≡ facts_at_turn memory (actions_of body.now)
        (actions_of step.now) (facts_by known.now)) }
{
    match counter_guess(body, step, known) {
        None => turn_with(alloc, None, body, step, known),
        Some(guess) => {
            let turn = turn_with(alloc, Some(guess), body, step, known)?;
            if is_said(known, guess) && stays(alloc, memory, body, step, &turn, guess)? {
                Ok(turn)
            } else {
                turn_with(alloc, None, body, step, known)
            }
        }
    }
}
