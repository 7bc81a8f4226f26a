// What is known along a list of steps, and how much of their blocks is needed.

ghost use Rattle.std.specs.Prelude.{◌≡◌, ◌≤◌, ◌<◌, ℕ, false, if◌then◌else◌, length, nat_eq, nat_lt, slice_index_or, IfOk};
ghost use Rattle.dae_ir.specs.Streams.{actions_of};
ghost use Rattle.dae_select_walks.specs.Facts.{needed, tells_within};
ghost use Rattle.dae_select_walks.specs.declared.Need.TheVariants.{All, Nothing};
ghost use Rattle.dae_select_facts.specs.Knowns.{facts_by};
ghost use Rattle.dae_select_facts.specs.Along.{asks, asks_for, facts_after, need_of_step, IsBefore, AreBefore};
ghost use Rattle.dae_ir.specs.declared.stream.Step.{Step};

use crate::bounds::{is_aligned, is_good};
use crate::known::{KnownFacts, facts_behind, operand_bounds, unknown};
use crate::through::{facts_past_if, facts_past_loop};
use dae_base::Width;
use dae_ir::{Action, Check, Operand, Step, Value};
use dae_select_walks::{Bounds, Fact, Need};
use std::alloc::{AllocError, Global};

/// What is known behind a step.
fn facts_after(
    alloc: Global,
    memory: u32,
    known: KnownFacts,
    step: &Step,
) -> Result<KnownFacts, AllocError>
    ensures { IfOk result (λ new. facts_by new ≡ facts_after memory step.now (facts_by known)) }
{
    match step {
        Step::Act(_, action) => facts_behind(memory, known, action),
        Step::If(_, branch, p, q) => facts_past_if(alloc, *branch, p, q, &known),
        Step::Loop(_, body, step) => facts_past_loop(alloc, body, step, &known),
    }
}

fn copy_facts(alloc: Global, facts: &[Fact]) -> Result<Vec<Fact>, AllocError>
    ensures { IfOk result (λ new. new.items ≡ facts.now) }
{
    let mut new = Vec::new(alloc);
    new.extend_from_slice(facts)?;
    Ok(new)
}

fn copy_known(alloc: Global, known: &KnownFacts) -> Result<KnownFacts, AllocError>
    ensures { IfOk result (λ new. facts_by new ≡ facts_by known.now) }
{
    Ok(KnownFacts {
        outer: copy_facts(alloc, known.outer.as_slice())?,
        inner: copy_facts(alloc, known.inner.as_slice())?,
    })
}

/// Whether one of the next actions tells a message.
pub fn tells_within(count: u32, steps: &[Step]) -> bool
    ensures { result ≡ tells_within count (actions_of steps.now) }
{
    if count == 0 || steps.is_empty() {
        return false;
    }
    match &steps[0] {
        Step::Act(_, Action::Tell(_)) => true,
        Step::Act(_, _) => tells_within(count - 1, &steps[1..]),
        Step::If(_, _, _, _) | Step::Loop(_, _, _) => false,
    }
}

/// What is needed of the test of an address within bounds, behind which these come: less where they soon tell a message.
fn need_within(memory: u32, width: Width, bounds: Bounds, rest: &[Step]) -> Need
    ensures { result ≡ needed memory (tells_within 24 (actions_of rest.now)) width bounds }
{
    let told = tells_within(24, rest);
    if told && is_good(memory, width, bounds) {
        Need::Nothing
    } else if is_aligned(width, bounds) {
        Need::Ends
    } else {
        Need::All
    }
}

/// What is needed of the block of a copy: nothing where the variable is set to itself.
fn need_of_copy(variable: u32, from: u32) -> Need
    ensures { result ≡ (if nat_eq from variable then Nothing else All) }
{
    if from == variable {
        Need::Nothing
    } else {
        Need::All
    }
}

/// What is needed of the block of a step, behind which these come.
pub fn need_of(memory: u32, known: &KnownFacts, step: &Step, rest: &[Step]) -> Need
    ensures { result
        ≡ need_of_step memory (facts_by known.now) step.now (actions_of rest.now) }
{
    match step {
        Step::Act(_, Action::Probe(Check::Place(width, operand))) => {
            let bounds = operand_bounds(known, *operand);
            need_within(memory, *width, bounds, rest)
        }
        Step::Act(_, Action::Set(variable, Value::Same(Operand::Variable(from)))) => {
            need_of_copy(*variable, *from)
        }
        Step::Act(_, _) | Step::If(_, _, _, _) | Step::Loop(_, _, _) => Need::All,
    }
}

/// What is needed of a step's block, and what is known before it where it has lists.
#[derive(Drop)]
pub struct Before {
    pub need: Need,
    pub known: KnownFacts,
}

fn told_before(
    alloc: Global,
    memory: u32,
    known: &KnownFacts,
    step: &Step,
    rest: &[Step],
) -> Result<Before, AllocError>
    ensures { IfOk result (λ b. IsBefore memory (facts_by known.now) step.now
        (actions_of rest.now) b.need (facts_by b.known)) }
{
    let need = need_of(memory, known, step, rest);
    let known = match step {
        Step::Act(_, _) => unknown(alloc),
        Step::If(_, _, _, _) => copy_known(alloc, known)?,
        Step::Loop(_, _, _) => copy_known(alloc, known)?,
    };
    Ok(Before { need, known })
}

/// Whether what is known before an action is asked for: for the test of an address.
fn asks_for(action: &Action) -> bool
    ensures { result ≡ asks_for action.now }
{
    match action {
        Action::Probe(Check::Place(_, _)) => true,
        _ => false,
    }
}

/// Whether what is known before a step is asked for.
fn asks(step: &Step) -> bool
    ensures { result ≡ asks step.now }
{
    match step {
        Step::Act(_, action) => asks_for(action),
        Step::If(_, _, _, _) | Step::Loop(_, _, _) => true,
    }
}

/// How many steps there are up to the last that asks: so many with the next step, where that asks, or as many as without it.
fn asked_up_to(asked: usize, count: usize, step: &Step) -> usize
    ensures { result ≡ (if asks step.now then count else asked) }
{
    if asks(step) { count } else { asked }
}

/// How many steps of a list there are up to the last that asks for what is known before it.
fn count_asked(steps: &[Step]) -> usize
    ensures within { result ≤ length steps.now }
    ensures rest { (i : ℕ) (s : Step) → result ≤ i → i < length steps.now
        → s ≡ slice_index_or steps.now i s → asks s ≡ false }
{
    let mut asked = 0;
    for index in 0..steps.len() {
        asked = asked_up_to(asked, index + 1, &steps[index]);
    }
    asked
}

/// Whether there are further steps behind the next ones, up to the last that asks.
fn more_ask(next: usize, asked: usize) -> bool
    ensures { result ≡ nat_lt next asked }
{
    next < asked
}

/// What is known behind a step, where one of the further steps asks for it: up to it there are so many, and up to the last that asks.
fn facts_up_to(
    alloc: Global,
    memory: u32,
    known: KnownFacts,
    step: &Step,
    next: usize,
    asked: usize,
) -> Result<KnownFacts, AllocError>
    ensures { IfOk result (λ new. next < asked
        → facts_by new ≡ facts_after memory step.now (facts_by known)) }
{
    if more_ask(next, asked) {
        facts_after(alloc, memory, known, step)
    } else {
        Ok(known)
    }
}

/// The same of each step of a list. What is known is followed up to the last step that asks for it.
pub fn all_before(
    alloc: Global,
    memory: u32,
    known: KnownFacts,
    steps: &[Step],
) -> Result<Vec<Before>, AllocError>
    ensures { IfOk result (λ all. AreBefore memory (facts_by known) steps.now all.items) }
{
    let asked = count_asked(steps);
    let mut all = Vec::new(alloc);
    let mut known = known;
    for index in 0..asked {
        let step = &steps[index];
        all.push(told_before(alloc, memory, &known, step, &steps[index + 1..])?)?;
        known = facts_up_to(alloc, memory, known, step, index + 1, asked)?;
    }
    for place in asked..steps.len() {
        let step = &steps[place];
        all.push(told_before(alloc, memory, &known, step, &steps[place + 1..])?)?;
    }
    Ok(all)
}
