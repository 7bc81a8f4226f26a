// What an action or a branch reads, and what an action sets.

ghost use Rattle.std.specs.Prelude.{◌≡◌, ◌&&◌, not, Some, None, if◌then◌else◌, OnOk};
ghost use Rattle.dae_ir.specs.Classes.{VariableSet};
ghost use Rattle.dae_select_walks.specs.Live.{with_all, in_operand, in_option, in_test, in_value, in_check, in_arguments, reads, sets, is, decided};
ghost use Rattle.dae_select_live.specs.Members.{member};

use crate::LiveSet;
use dae_ir::{Action, Argument, Branch, Check, Operand, Test, Value};
use std::alloc::AllocError;

fn add_operand(set: &mut LiveSet, operand: Operand) -> Result<(), AllocError>
    ensures { OnOk result (member set.new ≡ with_all (in_operand operand) (member set.old)) }
{
    match operand {
        Operand::Variable(variable) => set.insert(variable),
        Operand::Number(_) => Ok(()),
    }
}

#[tactic(auto, using(crate::proofs::Several::all_of_two))]
fn add_two(set: &mut LiveSet, left: Operand, right: Operand) -> Result<(), AllocError>
    ensures { OnOk result (member set.new
        ≡ with_all (with_all (in_operand left) (in_operand right)) (member set.old)) }
{
    add_operand(set, right)?;
    add_operand(set, left)
}

fn add_option(set: &mut LiveSet, operand: Option<Operand>) -> Result<(), AllocError>
    ensures { OnOk result (member set.new ≡ with_all (in_option operand) (member set.old)) }
{
    match operand {
        Some(operand) => add_operand(set, operand),
        None => Ok(()),
    }
}

fn add_test(set: &mut LiveSet, test: Test) -> Result<(), AllocError>
    ensures { OnOk result (member set.new ≡ with_all (in_test test) (member set.old)) }
{
    add_two(set, test.left, test.right)
}

fn add_value(set: &mut LiveSet, value: Value) -> Result<(), AllocError>
    ensures { OnOk result (member set.new ≡ with_all (in_value value) (member set.old)) }
{
    match value {
        Value::Same(operand) | Value::Extended(_, operand) => add_operand(set, operand),
        Value::Binary(_, left, right) => add_two(set, left, right),
        Value::Holds(test) => add_test(set, test),
        Value::FrameAddress(_) => Ok(()),
    }
}

fn add_check(set: &mut LiveSet, check: Check) -> Result<(), AllocError>
    ensures { OnOk result (member set.new ≡ with_all (in_check check) (member set.old)) }
{
    match check {
        Check::Place(_, operand) | Check::Zero(operand) => add_operand(set, operand),
        Check::InBounds(operand, _) => add_operand(set, operand),
        Check::Room(_) | Check::Frame | Check::Abort => Ok(()),
    }
}

fn add_argument(set: &mut LiveSet, argument: &Argument) -> Result<(), AllocError>
    ensures { OnOk result (member set.new
        ≡ with_all (in_operand argument.now.operand) (member set.old)) }
{
    add_operand(set, argument.operand)
}

fn add_arguments(set: &mut LiveSet, arguments: &[Argument]) -> Result<(), AllocError>
    ensures { OnOk result (member set.new
        ≡ with_all (in_arguments arguments.now) (member set.old)) }
{
    for index in (0..arguments.len()).rev() {
        add_argument(set, &arguments[index])?;
    }
    Ok(())
}

/// What an action reads comes into the set.
pub fn add_action(set: &mut LiveSet, action: &Action) -> Result<(), AllocError>
    ensures { OnOk result (member set.new ≡ with_all (reads action.now) (member set.old)) }
{
    match action {
        Action::Set(_, value) => add_value(set, *value),
        Action::Issue(_, operand)
        | Action::Own(_, _, operand)
        | Action::Address(_, operand)
        | Action::Datum(operand)
        | Action::Emit(_, operand)
        | Action::Tell(operand) => add_operand(set, *operand),
        Action::Offer(variable) => set.insert(*variable),
        Action::Probe(check) => add_check(set, *check),
        Action::Stop(operand) | Action::Return(operand) => add_option(set, *operand),
        Action::Call(_, _, arguments) => add_arguments(set, arguments.as_slice()),
        Action::Receive(_)
        | Action::Accept(_)
        | Action::Hear(_)
        | Action::Break
        | Action::Continue => { Ok(()) }
    }
}

/// What a branch reads comes into the set.
pub fn add_branch(set: &mut LiveSet, branch: Branch) -> Result<(), AllocError>
    ensures { OnOk result (member set.new ≡ with_all (decided branch) (member set.old)) }
{
    match branch {
        Branch::Silent(test) | Branch::Tells(test) => add_test(set, test),
        Branch::Hears => Ok(()),
    }
}

/// The variable that an action sets.
pub fn set_by(action: &Action) -> Option<u32>
    ensures { is result ≡ sets action.now }
{
    match action {
        Action::Set(variable, _)
        | Action::Own(variable, _, _)
        | Action::Receive(variable)
        | Action::Accept(variable) => Some(*variable),
        Action::Call(result, _, _) => *result,
        _ => None,
    }
}

/// Whether an operand is a variable.
fn is_operand(operand: Operand, variable: u32) -> bool
    ensures { result ≡ in_operand operand variable }
{
    match operand {
        Operand::Variable(other) => variable == other,
        Operand::Number(_) => false,
    }
}

/// Whether a value is computed from a variable.
fn value_reads(value: Value, variable: u32) -> bool
    ensures { result ≡ in_value value variable }
{
    match value {
        Value::Same(operand) => is_operand(operand, variable),
        Value::Extended(_, operand) => is_operand(operand, variable),
        Value::Binary(_, left, right) => is_operand(left, variable) || is_operand(right, variable),
        Value::Holds(test) => is_operand(test.left, variable) || is_operand(test.right, variable),
        Value::FrameAddress(_) => false,
    }
}

/// The variable, unless the value is computed from it.
fn unless_read(variable: u32, value: Value) -> Option<u32>
    ensures { result ≡ (if in_value value variable then None else Some variable) }
{
    if value_reads(value, variable) {
        None
    } else {
        Some(variable)
    }
}

/// The variable that an action sets, unless it is computed from itself: that needn't go out of the set before what the action
/// reads comes in.
pub fn set_anew(action: &Action) -> Option<u32>
    ensures { (s : VariableSet) → with_all (reads action.now) (λ u. s u && not (is result u))
        ≡ with_all (reads action.now) (λ u. s u && not (sets action.now u)) }
{
    match action {
        Action::Set(variable, value) => unless_read(*variable, *value),
        _ => set_by(action),
    }
}
