// The code of structured actions, from the last to the first: what a transfer leads over is there before it.

ghost use Rattle.std.specs.Prelude.{◌≡◌, ◌+◌, ◌-◌, ◌++◌, ◌<◌, ◌≤◌, ◌^◌, true, length, drop, ◌&&◌, ◌||◌, if◌then◌else◌, None, Some, is_some, IfOk, OnOk};
ghost use Rattle.dae_ir.specs.Code.{Done};
ghost use Rattle.dae_ir.specs.Streams.{actions_of, step_onto};
ghost use Rattle.dae_select_walks.specs.Facts.{facts_at_turn, facts_at_step};
ghost use Rattle.dae_select_facts.specs.Knowns.{facts_by};
ghost use Rattle.dae_select_live.specs.Members.{member};
ghost use Rattle.dae_select_live.specs.Turns.{turns_told, TellsTurns};
ghost use Rattle.dae_select_blocks.specs.Blocks.{take_code, own_code, jump_over};
ghost use Rattle.dae_select_blocks.specs.Code.{action_code, block_code, call_code, branch_code, is_dead};
ghost use Rattle.dae_select_blocks.specs.Code.{does_nothing, past_code, leaves_first};
ghost use Rattle.dae_select_walks.specs.Compiled.{is_told};
ghost use Rattle.dae_select.specs.Grown.{glue, acting, in_front};
ghost use Rattle.dae_select.specs.Growing.{IsTakenBy, IsTakenByStep};
ghost use Rattle.dae_select.specs.Growing.{first_test, bottom_of, words_behind, turned, IsNearTurn, facts_in_tail};
ghost use Rattle.dae_select.specs.declared.making.PlacedBranch.{PlacedBranch as ATest};
ghost use Rattle.dae_select_calls.specs.Makings.{by_jal, IsSound};
ghost use Rattle.dae_select.specs.Walking.{called_by, action_by, block_by, branch_to, IsStepBy, IsListBy};
ghost use Rattle.dae_select_walks.specs.Edges.{is_then};
ghost use Rattle.dae_select_values.specs.Tables.{AreNear, home_by};

use crate::counting::is_near;
use crate::growing::GrowingCode;
use crate::making::{Around, Exits, Onward, PlacedBranch};
use crate::pairing::{late_code, standing_between, taking_code};
use dae_base::{LoadKind, Place};
use dae_encode::Inst;
use dae_ir::{Action, Argument, Branch, Operand, Step};
use dae_select_calls::{Callee, Making, call_code, check_code, leave_code, placed_code};
use dae_select_facts::{
    KnownFacts, all_before, facts_at_turn, facts_behind_turn, facts_in_list, facts_past_if,
};
use dae_select_live::{LiveSet, live_at_turn, live_before_action, live_with_branch, only_leaves};
use dae_select_values::{
    HomeTable, address_code, back_branch, branch_code, call_number, hear_code, home_of, issue_code,
    jump_back, jump_over, jump_words, move_code, set_code, stop_code, system_code, take_code,
};
use dae_select_walks::{Edge, Need, VariableStanding};
use std::alloc::{AllocError, Global};

/// What is at the front of a queue goes to a variable.
fn receive_code(
    code: &mut Vec<Inst>,
    homes: HomeTable,
    queue: u8,
    variable: u32,
) -> Result<(), AllocError>
    requires { AreNear homes }
    ensures { OnOk result (code.new.items ≡ code.old.items
        ++ take_code queue (home_by homes.entry variable)) }
{
    take_code(code, queue, home_of(homes, variable))
}

fn own_code(
    code: &mut Vec<Inst>,
    homes: HomeTable,
    variable: u32,
    kind: LoadKind,
    operand: Operand,
) -> Result<(), AllocError>
    requires { AreNear homes }
    ensures { OnOk result (code.new.items ≡ code.old.items
        ++ own_code (home_by homes.entry) variable kind operand) }
{
    issue_code(code, homes, kind, 31, operand)?;
    take_code(code, 31, home_of(homes, variable))
}

fn called_code(
    code: &mut Vec<Inst>,
    making: &Making,
    callee: Callee,
    arguments: &[Argument],
    live: &LiveSet,
) -> Result<(), AllocError>
    requires { IsSound making.now }
    ensures { OnOk result (code.new.items ≡ code.old.items
        ++ called_by making.now callee arguments.now (member live.now)) }
{
    let mut kept = live.copy(making.alloc)?;
    kept.remove_known(callee.result);
    call_code(code, making, callee, arguments, &kept)
}

/// The block of an action, from whose end it is `ahead` words and as many as the exits say to where a Break goes, and a
/// Continue.
fn action_code(
    code: &mut Vec<Inst>,
    making: &Making,
    action: &Action,
    onward: &Onward,
    ahead: u64,
) -> Result<(), AllocError>
    requires { IsSound making.now }
    ensures { OnOk result (code.new.items ≡ code.old.items
        ++ action_by making.now action.now onward.now ahead) }
{
    let homes = making.homes;
    let side = making.layouts.side;
    match action {
        Action::Set(variable, value) => set_code(code, homes, *variable, *value),
        Action::Issue(kind, operand) => issue_code(code, homes, *kind, 30, *operand),
        Action::Own(variable, kind, operand) => own_code(code, homes, *variable, *kind, *operand),
        Action::Receive(variable) => receive_code(code, homes, 30, *variable),
        Action::Address(width, operand) => address_code(code, homes, *width, *operand),
        Action::Datum(operand) => move_code(code, homes, 30, *operand),
        Action::Offer(variable) => move_code(code, homes, 28, Operand::Variable(*variable)),
        Action::Accept(variable) => receive_code(code, homes, 28, *variable),
        Action::Emit(spelling, operand) => {
            system_code(code, homes, call_number(*spelling), *operand)
        }
        Action::Probe(check) => check_code(code, making, *check),
        Action::Tell(operand) => move_code(code, homes, 29, *operand),
        Action::Hear(only) => hear_code(code, side, *only),
        Action::Stop(status) => stop_code(code, side, homes, *status),
        Action::Break => jump_over(code, making.jumps, ahead, onward.exits.leaves),
        Action::Continue => jump_over(code, making.jumps, ahead, onward.exits.skips),
        Action::Call(result, callee, arguments) => {
            let callee = Callee {
                result: *result,
                function: *callee,
            };
            called_code(code, making, callee, arguments.as_slice(), onward.next)
        }
        Action::Return(answer) => leave_code(code, making, *answer),
    }
}

/// Whether an action only computes a variable that isn't live behind it.
fn is_dead(action: &Action, live: &LiveSet) -> bool
    ensures { result ≡ is_dead action.now (member live.now) }
{
    match action {
        Action::Set(variable, _) => !live.contains(*variable),
        _ => false,
    }
}

/// The block of an action, around which things stand so, as `action_code` has the rest; or what is needed of it.
fn block_code(
    code: &mut Vec<Inst>,
    making: &Making,
    action: &Action,
    around: &Around,
    onward: &Onward,
    ahead: u64,
) -> Result<(), AllocError>
    requires sound { IsSound making.now }
    requires taken { IsTakenBy around.now.after action.now }
    ensures { OnOk result (code.new.items ≡ code.old.items
        ++ block_by making.now around.now action.now onward.now ahead) }
{
    match (around.before, around.after) {
        (VariableStanding::Late(_, value), _) => late_code(code, making.homes, action, value),
        (VariableStanding::Early(_, _), _) => Ok(()),
        (VariableStanding::Settled, VariableStanding::Late(_, _)) => Ok(()),
        (VariableStanding::Settled, VariableStanding::Early(target, value)) => {
            taking_code(code, making.homes, action, target, value)
        }
        (VariableStanding::Settled, VariableStanding::Settled) => {
            if is_dead(action, onward.next) {
                return Ok(());
            }
            match around.need {
                Need::All => action_code(code, making, action, onward, ahead),
                Need::Ends => placed_code(code, making.homes, action),
                Need::Nothing => Ok(()),
            }
        }
    }
}

fn put_action(
    code: &mut GrowingCode,
    making: &Making,
    place: Place,
    action: &Action,
    around: &Around,
    onward: &Onward,
) -> Result<(), AllocError>
    requires sound { IsSound making.now }
    requires taken { IsTakenBy around.now.after action.now }
    ensures { OnOk result (code.new
        ≡ in_front (acting place (block_by making.now around.now action.now onward.now
        (length code.old.code))) code.old) }
{
    let mut block = Vec::new(making.alloc);
    let ahead = code.len() as u64;
    block_code(&mut block, making, action, around, onward, ahead)?;
    code.put_action(place, block.as_slice())
}

fn does_nothing(steps: &[Step]) -> bool
    ensures { result ≡ does_nothing (actions_of steps.now) }
{
    steps.is_empty()
}

/// What leads behind a second list that stands in front of the last `rest` words, where neither list is empty.
fn put_past(
    code: &mut GrowingCode,
    making: &Making,
    first: &[Step],
    second: &[Step],
    rest: usize,
) -> Result<(), AllocError>
    ensures { OnOk result (code.new
        ≡ in_front (glue (past_code (by_jal making.now)
        (does_nothing (actions_of first.now) || does_nothing (actions_of second.now))
        (length code.old.code - rest))) code.old) }
{
    if does_nothing(first) || does_nothing(second) {
        return Ok(());
    }
    let mut block = Vec::new(making.alloc);
    let words = code.len().saturating_sub(rest);
    jump_over(&mut block, making.jumps, words as u64, 0)?;
    code.put_before(block.as_slice())
}

/// The block of a branch that goes on to the last `end` words along an edge.
fn put_branch_along(
    code: &mut GrowingCode,
    making: &Making,
    test: PlacedBranch,
    edge: Edge,
    end: usize,
) -> Result<(), AllocError>
    requires { IsSound making.now }
    ensures { OnOk result (code.new
        ≡ in_front (branch_to making.now test (is_then edge) (length code.old.code - end))
        code.old) }
{
    let mut block = Vec::new(making.alloc);
    let words = code.len().saturating_sub(end);
    branch_code(
        &mut block,
        making.homes,
        making.jumps,
        test.branch,
        edge,
        words as u64,
    )?;
    code.put_action(test.place, block.as_slice())
}

/// The block of a branch: to the last `behind` words, over a first list. Where that is empty, to the last `rest` words, over
/// the second one.
fn put_branch(
    code: &mut GrowingCode,
    making: &Making,
    test: PlacedBranch,
    first: &[Step],
    rest: usize,
    behind: usize,
) -> Result<(), AllocError>
    requires { IsSound making.now }
    ensures { OnOk result (code.new
        ≡ in_front (branch_to making.now test (does_nothing (actions_of first.now))
        (length code.old.code - (if does_nothing (actions_of first.now) then rest else behind)))
        code.old) }
{
    if does_nothing(first) {
        put_branch_along(code, making, test, Edge::Then, rest)
    } else {
        put_branch_along(code, making, test, Edge::Else, behind)
    }
}

fn is_told(branch: Branch) -> bool
    ensures { result ≡ is_told branch }
{
    !matches!(branch, Branch::Silent(_))
}

/// The test that a loop's body begins with, where it is told, and does nothing or leaves the loop.
fn leaving_test(body: &[Step]) -> Option<PlacedBranch>
    ensures { result
        ≡ (if leaves_first (actions_of body.now) then first_test (actions_of body.now) else None) }
{
    if body.is_empty() {
        return None;
    }
    match &body[0] {
        Step::If(mark, branch, p, q) => {
            if is_told(*branch) && does_nothing(p) && only_leaves(q) {
                Some(PlacedBranch {
                    place: mark.place,
                    branch: *branch,
                })
            } else {
                None
            }
        }
        Step::Act(_, _) => None,
        Step::Loop(_, _, _) => None,
    }
}

/// The test of a loop, where it stands behind the step.
fn bottom_of(body: &[Step], step: &[Step]) -> Option<PlacedBranch>
    ensures { result ≡ bottom_of (actions_of body.now) (actions_of step.now) }
{
    match leaving_test(body) {
        None => None,
        Some(test) => {
            if is_near(body, step) {
                Some(test)
            } else {
                None
            }
        }
    }
}

/// What of a loop's body stands before its step: all, or what is behind the test.
fn behind_test(body: &[Step], test: Option<PlacedBranch>) -> &[Step]
    requires { is_some test ≡ true → 1 ≤ length body.now }
    ensures { result.now ≡ drop (if is_some test then 1 else 0) body.now }
{
    match test {
        None => body,
        Some(_) => &body[1..],
    }
}

/// How many words come behind a loop's step: a jump back, or its test.
fn words_behind(making: &Making, test: Option<PlacedBranch>) -> Result<u64, AllocError>
    requires { IsSound making.now }
    ensures words { IfOk result (λ words. words
        ≡ words_behind (home_by making.now.homes) (by_jal making.now) test) }
    ensures few { IfOk result (λ words. words ≤ 12) }
{
    match test {
        None => Ok(u64::from(jump_words(making.jumps))),
        Some(test) => {
            let block = back_branch(making.alloc, making.homes, test.branch, 0)?;
            Ok(block.len() as u64)
        }
    }
}

/// Where a loop's step leads: behind the loop, over so many words, and to their begin.
fn exits_of_step(
    making: &Making,
    next: &LiveSet,
    turn: &LiveSet,
    words: u64,
) -> Result<Exits, AllocError>
    ensures leaves_live { IfOk result (λ exits. exits.leaves_live ≡ next.now) }
    ensures skips_live { IfOk result (λ exits. exits.skips_live ≡ turn.now) }
    ensures leaves { IfOk result (λ exits. exits.leaves ≡ words) }
    ensures skips { IfOk result (λ exits. exits.skips ≡ 0) }
{
    Ok(Exits {
        leaves_live: next.copy(making.alloc)?,
        skips_live: turn.copy(making.alloc)?,
        leaves: words,
        skips: 0,
    })
}

/// Where a loop's body leads: over the step and so many words behind it, and to the step.
fn exits_of_body(
    making: &Making,
    next: LiveSet,
    again: &LiveSet,
    step: usize,
    words: u64,
) -> Result<Exits, AllocError>
    requires { step + words < 2 ^ 64 }
    ensures leaves_live { IfOk result (λ exits. exits.leaves_live ≡ next) }
    ensures skips_live { IfOk result (λ exits. exits.skips_live ≡ again.now) }
    ensures leaves { IfOk result (λ exits. exits.leaves ≡ step + words) }
    ensures skips { IfOk result (λ exits. exits.skips ≡ 0) }
{
    Ok(Exits {
        leaves_live: next,
        skips_live: again.copy(making.alloc)?,
        leaves: step as u64 + words,
        skips: 0,
    })
}

/// The body of a loop, its step and the jump back come before other code.
fn put_top_loop(
    code: &mut GrowingCode,
    making: &Making,
    body: GrowingCode,
    step: GrowingCode,
) -> Result<(), AllocError>
    ensures { OnOk result (code.new
        ≡ turned (home_by making.now.homes) (by_jal making.now) None body step code.old) }
{
    let mut block = Vec::new(making.alloc);
    jump_back(
        &mut block,
        making.jumps,
        body.len() as u64,
        step.len() as u64,
    )?;
    code.put_before(block.as_slice())?;
    code.put_code(step)?;
    code.put_code(body)
}

/// The way into a loop, what is behind the test that its body begins with, its step and that test come before other code.
fn put_bottom_loop(
    code: &mut GrowingCode,
    making: &Making,
    test: PlacedBranch,
    body: GrowingCode,
    step: GrowingCode,
) -> Result<(), AllocError>
    requires sound { IsSound making.now }
    requires near { length body.code + length step.code ≤ 900 }
    ensures { OnOk result (code.new
        ≡ turned (home_by making.now.homes) (by_jal making.now) (Some test) body step
        code.old) }
{
    let words = body.len() as u64 + step.len() as u64;
    let block = back_branch(making.alloc, making.homes, test.branch, words)?;
    code.put_action(test.place, block.as_slice())?;
    code.put_code(step)?;
    code.put_code(body)?;
    let mut over = Vec::new(making.alloc);
    jump_over(&mut over, making.jumps, words, 0)?;
    code.put_before(over.as_slice())
}

/// A turn of a loop, its step and what leads back come before other code.
fn put_loop(
    code: &mut GrowingCode,
    making: &Making,
    test: Option<PlacedBranch>,
    body: GrowingCode,
    step: GrowingCode,
) -> Result<(), AllocError>
    requires sound { IsSound making.now }
    requires near { IsNearTurn test body step }
    ensures { OnOk result (code.new
        ≡ turned (home_by making.now.homes) (by_jal making.now) test body step code.old) }
{
    match test {
        None => put_top_loop(code, making, body, step),
        Some(test) => put_bottom_loop(code, making, test, body, step),
    }
}

/// What is known behind the test that a loop's body begins with.
fn facts_past_test(alloc: Global, body: &[Step], turn: KnownFacts) -> Result<KnownFacts, AllocError>
    ensures { IfOk result (λ new. (test : ATest) → facts_by new
        ≡ facts_in_tail (Some test) (actions_of body.now) (facts_by turn)) }
{
    if body.is_empty() {
        return Ok(turn);
    }
    match &body[0] {
        Step::If(_, branch, p, q) => facts_past_if(alloc, *branch, p, q, &turn),
        Step::Act(_, _) => Ok(turn),
        Step::Loop(_, _, _) => Ok(turn),
    }
}

/// What is known where what stands before a loop's step begins: where a turn begins, or behind its test.
fn facts_of_turn(
    alloc: Global,
    body: &[Step],
    test: Option<PlacedBranch>,
    turn: KnownFacts,
) -> Result<KnownFacts, AllocError>
    ensures { IfOk result (λ new. facts_by new
        ≡ facts_in_tail test (actions_of body.now) (facts_by turn)) }
{
    match test {
        None => Ok(turn),
        Some(_) => facts_past_test(alloc, body, turn),
    }
}

/// What is known of a loop: where its step begins, and what of its body stands before the step.
#[derive(Drop)]
struct LoopFacts {
    at_step: KnownFacts,
    in_tail: KnownFacts,
}

fn loop_facts(
    making: &Making,
    body: &[Step],
    step: &[Step],
    test: Option<PlacedBranch>,
    known: &KnownFacts,
) -> Result<LoopFacts, AllocError>
    ensures at_step { IfOk result (λ facts. facts_by facts.at_step
        ≡ facts_at_step making.now.layouts.now.memory (actions_of body.now)
        (actions_of step.now) (facts_by known.now)) }
    ensures in_tail { IfOk result (λ facts. facts_by facts.in_tail
        ≡ facts_in_tail test (actions_of body.now) (facts_at_turn making.now.layouts.now.memory
        (actions_of body.now) (actions_of step.now) (facts_by known.now))) }
{
    let memory = making.layouts.memory;
    let at_turn = facts_at_turn(making.alloc, memory, body, step, known)?;
    let at_step = facts_behind_turn(making.alloc, body, &at_turn)?;
    let in_tail = facts_of_turn(making.alloc, body, test, at_turn)?;
    Ok(LoopFacts { at_step, in_tail })
}

#[cycle(code)]
fn step_code(
    code: &mut GrowingCode,
    making: &Making,
    step: &Step,
    around: &Around,
    next: LiveSet,
    exits: &Exits,
) -> Result<LiveSet, AllocError>
    requires sound { IsSound making.now }
    requires taken { IsTakenByStep around.now.after step.now }
    requires told { TellsTurns (turns_told making.now.turns.now) (step_onto step.now Done) }
    ensures { IfOk result (λ set. IsStepBy making.now around.now exits.now step.now code.old next
        code.new set) }
{
    match step {
        Step::Act(mark, action) => {
            let onward = Onward { next: &next, exits };
            put_action(code, making, mark.place, action, around, &onward)?;
            let (leaves, skips) = (&exits.leaves_live, &exits.skips_live);
            live_before_action(making.alloc, action, next, leaves, skips)
        }
        Step::If(mark, branch, p, q) => {
            let rest = code.len();
            let in_second = facts_in_list(making.alloc, *branch, Edge::Else, around.known)?;
            let second = list_code(code, making, in_second, q, next.copy(making.alloc)?, exits)?;
            let behind = code.len();
            put_past(code, making, p, q, rest)?;
            let in_first = facts_in_list(making.alloc, *branch, Edge::Then, around.known)?;
            let first = list_code(code, making, in_first, p, next, exits)?;
            let test = PlacedBranch {
                place: mark.place,
                branch: *branch,
            };
            put_branch(code, making, test, p, rest, behind)?;
            live_with_branch(*branch, first, &second)
        }
        Step::Loop(mark, body, step) => {
            let turn = live_at_turn(making.turns, *mark, body, step, &next)?;
            let test = bottom_of(body, step);
            let words = words_behind(making, test)?;
            let step_exits = exits_of_step(making, &next, &turn, words)?;
            let mut again = GrowingCode::new(making.alloc);
            let set = turn.copy(making.alloc)?;
            let facts = loop_facts(making, body, step, test, around.known)?;
            let LoopFacts { at_step, in_tail } = facts;
            let step_live = list_code(&mut again, making, at_step, step, set, &step_exits)?;
            let body_exits = exits_of_body(making, next, &step_live, again.len(), words)?;
            let mut turned = GrowingCode::new(making.alloc);
            let tail = behind_test(body, test);
            list_code(&mut turned, making, in_tail, tail, step_live, &body_exits)?;
            put_loop(code, making, test, turned, again)?;
            Ok(turn)
        }
    }
}

/// The code of a list of actions comes before other code, where `next` is live behind the list; and what is live before it.
#[cycle(code)]
pub fn list_code(
    code: &mut GrowingCode,
    making: &Making,
    known: KnownFacts,
    steps: &[Step],
    next: LiveSet,
    exits: &Exits,
) -> Result<LiveSet, AllocError>
    requires sound { IsSound making.now }
    requires told { TellsTurns (turns_told making.now.turns.now) (actions_of steps.now) }
    ensures { IfOk result (λ set. IsListBy making.now known exits.now steps.now code.old next
        code.new set) }
{
    let all = all_before(making.alloc, making.layouts.memory, known, steps)?;
    let mut set = next;
    let mut after = VariableStanding::Settled;
    for index in (0..steps.len()).rev() {
        let step = &steps[index];
        let before = standing_between(steps, index, step, &set, after);
        let told = &all[index];
        let around = Around {
            need: told.need,
            known: &told.known,
            before,
            after,
        };
        set = step_code(code, making, step, &around, set, exits)?;
        after = before;
    }
    Ok(set)
}
