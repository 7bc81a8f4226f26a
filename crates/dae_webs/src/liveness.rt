// Liveness of at most 64 variables, one bit each.

use crate::forgetting::variable_set;
use dae_ir::{Check, Item, Operand, Statement, Test, Value};
use std::alloc::AllocError;

/// What code reads before it sets it, and what passes through it backward: of what is live behind it, behind the loop that it
/// stands in, and at that loop's step. Behind a jump all passes as well, so that the code there has its liveness.
#[derive(Clone, Copy)]
pub struct Transfer {
    pub reads: u64,
    pub next: u64,
    pub leaves: u64,
    pub skips: u64,
}

/// What is live behind code, behind the loop that it stands in, and at that loop's step.
#[derive(Clone, Copy)]
pub struct LiveBehind {
    pub next: u64,
    pub leaves: u64,
    pub skips: u64,
}

/// What goes backward through the first and the second list of an If or a Loop.
#[derive(Clone, Copy)]
pub struct TwoLists {
    pub first: Transfer,
    pub second: Transfer,
}

const ALL: u64 = u64::MAX;

// What goes backward through an empty list: all passes.
fn empty_transfer() -> Transfer {
    Transfer {
        reads: 0,
        next: ALL,
        leaves: 0,
        skips: 0,
    }
}

/// What goes backward through two empty lists.
pub fn empty_lists() -> TwoLists {
    TwoLists {
        first: empty_transfer(),
        second: empty_transfer(),
    }
}

/// The bit of a variable: it has none where it isn't one of those in question.
pub fn bit_of(bits: &[u64], variable: u32) -> u64 {
    match bits.get(variable as usize) {
        Some(bit) => *bit,
        None => 0,
    }
}

fn bit_in(bits: &[u64], x: Operand) -> u64 {
    match x {
        Operand::Variable(variable) => bit_of(bits, variable),
        Operand::Number(_) => 0,
    }
}

/// The bits of a condition's variables.
pub fn bits_in_test(bits: &[u64], test: Test) -> u64 {
    bit_in(bits, test.left) | bit_in(bits, test.right)
}

fn bits_in_value(bits: &[u64], value: Value) -> u64 {
    match value {
        Value::Same(x) => bit_in(bits, x),
        Value::Extended(_, x) => bit_in(bits, x),
        Value::Binary(_, x, y) => bit_in(bits, x) | bit_in(bits, y),
        Value::Holds(test) => bits_in_test(bits, test),
        Value::FrameAddress(_) => 0,
    }
}

fn bits_in_check(bits: &[u64], check: Check) -> u64 {
    match check {
        Check::Place(_, x) => bit_in(bits, x),
        Check::InBounds(x, _) => bit_in(bits, x),
        Check::Zero(x) => bit_in(bits, x),
        _ => 0,
    }
}

fn bits_in_all(bits: &[u64], xs: &[Operand]) -> u64 {
    let mut all: u64 = 0;
    for x in xs {
        all = all | bit_in(bits, *x);
    }
    all
}

fn bits_read(bits: &[u64], item: &Item) -> u64 {
    match item {
        Item::Assign(_, value) => bits_in_value(bits, *value),
        Item::Load(_, _, x) => bit_in(bits, *x),
        Item::Store(_, x, y) => bit_in(bits, *x) | bit_in(bits, *y),
        Item::Print(_, x) => bit_in(bits, *x),
        Item::Expect(check) => bits_in_check(bits, *check),
        Item::Call(_, _, xs) => bits_in_all(bits, xs.as_slice()),
        Item::Return(x) => bit_in(bits, *x),
        Item::Halt(x) => bit_in(bits, *x),
        Item::Break => 0,
        Item::Continue => 0,
    }
}

fn bits_set(bits: &[u64], item: &Item) -> u64 {
    match variable_set(item) {
        Some(variable) => bit_of(bits, variable),
        None => 0,
    }
}

/// What goes backward through an item.
pub fn item_transfer(bits: &[u64], item: &Item) -> Transfer {
    let reads = bits_read(bits, item);
    match item {
        Item::Break => Transfer {
            reads,
            next: ALL,
            leaves: ALL,
            skips: 0,
        },
        Item::Continue => Transfer {
            reads,
            next: ALL,
            leaves: 0,
            skips: ALL,
        },
        _ => Transfer {
            reads,
            next: ALL ^ bits_set(bits, item),
            leaves: 0,
            skips: 0,
        },
    }
}

fn put_lists(lists: &mut Vec<TwoLists>, place: usize, both: TwoLists) {
    if place < lists.len() {
        lists[place] = both;
    }
}

// Code and then other code.
fn one_then(first: Transfer, second: Transfer) -> Transfer {
    Transfer {
        reads: first.reads | (first.next & second.reads),
        next: first.next & second.next,
        leaves: first.leaves | (first.next & second.leaves),
        skips: first.skips | (first.next & second.skips),
    }
}

// Code or other code, behind a condition.
fn one_or_other(test: u64, both: TwoLists) -> Transfer {
    Transfer {
        reads: test | both.first.reads | both.second.reads,
        next: both.first.next | both.second.next,
        leaves: both.first.leaves | both.second.leaves,
        skips: both.first.skips | both.second.skips,
    }
}

/// What goes backward through a loop's turns.
pub fn loop_transfer(both: TwoLists) -> Transfer {
    let body = both.first;
    let through = body.next | body.skips;
    Transfer {
        reads: body.reads | (through & both.second.reads),
        next: body.leaves | (through & both.second.leaves),
        leaves: 0,
        skips: 0,
    }
}

/// What is live before code.
pub fn live_at_start(transfer: Transfer, behind: LiveBehind) -> u64 {
    transfer.reads
        | (transfer.next & behind.next)
        | (transfer.leaves & behind.leaves)
        | (transfer.skips & behind.skips)
}

/// What is live at the step of a loop with this body and this step, where this is live at its head and behind it.
pub fn live_at_step(step: Transfer, head: u64, behind: u64) -> u64 {
    let behind = LiveBehind {
        next: head,
        leaves: behind,
        skips: head,
    };
    live_at_start(step, behind)
}

/// What goes backward through a list of statements. What goes through the lists of each If and Loop in it comes behind those of
/// others, in the order in which a walk from the end meets the statements.
#[cycle(transfer)]
pub fn list_transfer(
    bits: &[u64],
    lists: &mut Vec<TwoLists>,
    statements: &[Statement],
) -> Result<Transfer, AllocError> {
    let mut transfer = empty_transfer();
    for index in (0..statements.len()).rev() {
        let first = statement_transfer(bits, lists, &statements[index])?;
        transfer = one_then(first, transfer);
    }
    Ok(transfer)
}

#[cycle(transfer)]
fn statement_transfer(
    bits: &[u64],
    lists: &mut Vec<TwoLists>,
    statement: &Statement,
) -> Result<Transfer, AllocError> {
    match statement {
        Statement::Simple(_, item) => Ok(item_transfer(bits, item)),
        Statement::If(_, test, yes, no) => {
            let place = lists.len();
            lists.push(empty_lists())?;
            let second = list_transfer(bits, lists, no)?;
            let first = list_transfer(bits, lists, yes)?;
            let both = TwoLists { first, second };
            put_lists(lists, place, both);
            Ok(one_or_other(bits_in_test(bits, *test), both))
        }
        Statement::Loop(_, body, step) => {
            let place = lists.len();
            lists.push(empty_lists())?;
            let second = list_transfer(bits, lists, step)?;
            let first = list_transfer(bits, lists, body)?;
            let both = TwoLists { first, second };
            put_lists(lists, place, both);
            Ok(loop_transfer(both))
        }
    }
}
