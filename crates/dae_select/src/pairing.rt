// Two adjacent actions by one block: a value that is computed where it is moved to, and a word that is taken by the
// instruction that computes with it.

ghost use Rattle.std.specs.Prelude.{◌≡◌, ◌≤◌, ◌++◌, length, true, OnOk, Some as IsThere};
ghost use Rattle.dae_select_walks.specs.Live.{in_operand};
ghost use Rattle.dae_select_live.specs.Members.{member};
ghost use Rattle.dae_select_blocks.specs.Blocks.{value_code};
ghost use Rattle.dae_select_blocks.specs.Code.{either_one, written_last, is_offset_sum, passes_on, reads_once, taken_standing, pair_standing, with_home, late_code, early_code, taking_code};
ghost use Rattle.dae_select_walks.specs.declared.VariableStanding.TheVariants.{Early as IsEarly};
ghost use Rattle.dae_select_walks.specs.declared.Home.TheVariants.{Register as IsRegister};
ghost use Rattle.dae_ir.specs.declared.form.Value.TheVariants.{Binary as IsBinary, Holds as IsHolds};
ghost use Rattle.dae_select.specs.Growing.{standing_between, step_before, IsTakenBy};
ghost use Rattle.dae_select_values.specs.Tables.{AreNear, home_by};
ghost use Rattle.dae_select.specs.Taken.{beside_left, beside_right, number_beside};

use dae_encode::Inst;
use dae_ir::{Action, Operand, Step, Test, Value};
use dae_meaning::{Comparison, Operator};
use dae_select_live::LiveSet;
use dae_select_values::{
    HomeTable, address_at_sum, as_immediate, compare, compare_number, exchanged, extend, fetch,
    home_of, immediate, is_immediate, issue_at_sum, keep, operation, own_at_sum, register_or,
    set_code, source, value_code,
};
use dae_select_walks::VariableStanding;
use std::alloc::AllocError;

// ---- which actions are pairs

fn is_variable(operand: Operand, variable: u32) -> bool
    ensures { result ≡ in_operand operand variable }
{
    match operand {
        Operand::Variable(read) => variable == read,
        Operand::Number(_) => false,
    }
}

/// Whether only the last instruction of a value's code writes the register that it goes into.
fn written_last(value: Value) -> bool
    ensures { result ≡ written_last value }
{
    match value {
        Value::Same(_) | Value::Binary(_, _, _) | Value::FrameAddress(_) => true,
        Value::Extended(_, _) | Value::Holds(_) => false,
    }
}

/// Whether a value is the sum of a variable and a number that an access can add to it.
fn is_offset_sum(value: Value) -> bool
    ensures { result ≡ is_offset_sum value }
{
    match value {
        Value::Binary(Operator::Add, Operand::Variable(_), Operand::Number(number)) => {
            is_immediate(number)
        }
        _ => false,
    }
}

/// Whether an action only moves this variable, which has this value, to where the value can be computed, or accesses memory there
/// and can add the value up itself.
fn passes_on(variable: u32, value: Value, action: &Action) -> bool
    ensures { result ≡ passes_on variable value action.now }
{
    match action {
        Action::Set(_, Value::Same(Operand::Variable(moved))) => *moved == variable,
        Action::Datum(Operand::Variable(moved)) => *moved == variable && written_last(value),
        Action::Issue(_, Operand::Variable(base)) => *base == variable && is_offset_sum(value),
        Action::Own(_, _, Operand::Variable(base)) => *base == variable && is_offset_sum(value),
        Action::Address(_, Operand::Variable(base)) => *base == variable && is_offset_sum(value),
        _ => false,
    }
}

/// Whether just one of two operands is this variable.
fn is_one(variable: u32, left: Operand, right: Operand) -> bool
    ensures { result ≡ either_one (in_operand left variable) (in_operand right variable) }
{
    if is_variable(left, variable) {
        !is_variable(right, variable)
    } else {
        is_variable(right, variable)
    }
}

/// Whether a value reads this variable just once.
fn reads_once(variable: u32, value: Value) -> bool
    ensures { result ≡ reads_once variable value }
{
    match value {
        Value::Same(operand) | Value::Extended(_, operand) => is_variable(operand, variable),
        Value::Binary(_, left, right) => is_one(variable, left, right),
        Value::Holds(test) => is_one(variable, test.left, test.right),
        Value::FrameAddress(_) => false,
    }
}

/// How things stand between an action that takes a word into a variable and the next one, behind which these are live.
fn taken_standing(variable: u32, next: &Action, live: &LiveSet) -> VariableStanding
    ensures { result ≡ taken_standing variable next.now (member live.now) }
{
    match next {
        Action::Set(target, value) => {
            let dies = variable == *target || !live.contains(variable);
            if reads_once(variable, *value) && dies {
                VariableStanding::Early(*target, *value)
            } else {
                VariableStanding::Settled
            }
        }
        _ => VariableStanding::Settled,
    }
}

/// How things stand between an action and the next one, behind which these variables are live.
fn pair_standing(action: &Action, next: &Action, live: &LiveSet) -> VariableStanding
    ensures { result ≡ pair_standing action.now next.now (member live.now) }
{
    match action {
        Action::Set(variable, value) => {
            if passes_on(*variable, *value, next) && !live.contains(*variable) {
                VariableStanding::Late(*variable, *value)
            } else {
                VariableStanding::Settled
            }
        }
        Action::Receive(variable) => taken_standing(*variable, next, live),
        Action::Accept(variable) => taken_standing(*variable, next, live),
        _ => VariableStanding::Settled,
    }
}

/// How things stand between two steps, where these variables are live behind the second one and things stand so behind it.
fn between_steps(
    before: &Step,
    step: &Step,
    live: &LiveSet,
    standing: VariableStanding,
) -> VariableStanding
    ensures { result ≡ standing_between (IsThere before.now) step.now (member live.now) standing }
{
    match before {
        Step::Act(_, action) => match step {
            Step::Act(_, next) => match standing {
                VariableStanding::Settled => pair_standing(action, next, live),
                VariableStanding::Early(_, _) | VariableStanding::Late(_, _) =>
                    VariableStanding::Settled,
            },
            Step::If(_, _, _, _) | Step::Loop(_, _, _) => VariableStanding::Settled,
        },
        Step::If(_, _, _, _) | Step::Loop(_, _, _) => VariableStanding::Settled,
    }
}

/// How things stand before a step of a list that stands at this index, where these variables are live behind it and things
/// stand so behind it.
pub fn standing_between(
    steps: &[Step],
    index: usize,
    step: &Step,
    live: &LiveSet,
    standing: VariableStanding,
) -> VariableStanding
    requires { index ≤ length steps.now }
    ensures { result
        ≡ standing_between (step_before steps.now index) step.now (member live.now) standing }
{
    if index == 0 {
        VariableStanding::Settled
    } else {
        between_steps(&steps[index - 1], step, live, standing)
    }
}

// ---- their blocks

/// The block of an action that moves a variable on, where this value is computed in its stead, or that accesses memory there.
pub fn late_code(
    code: &mut Vec<Inst>,
    homes: HomeTable,
    action: &Action,
    value: Value,
) -> Result<(), AllocError>
    requires { AreNear homes }
    ensures { OnOk result (code.new.items ≡ code.old.items
        ++ late_code (home_by homes.entry) action.now value) }
{
    match action {
        Action::Set(target, _) => set_code(code, homes, *target, value),
        Action::Datum(_) => value_code(code, homes, 30, value),
        Action::Issue(kind, _) => issue_at_sum(code, homes, *kind, 30, value),
        Action::Own(variable, kind, _) => own_at_sum(code, homes, *variable, *kind, value),
        Action::Address(width, _) => address_at_sum(code, homes, *width, value),
        _ => Ok(()),
    }
}

/// A word at the front of a queue, the variable that it stands for, and the register for what is computed with it.
#[derive(Clone, Copy)]
struct Taken {
    queue: u8,
    variable: u32,
    target: u8,
}

/// The operation on a register and an operand to its right in one instruction, where there is one.
fn beside_right(operator: Operator, target: u8, register: u8, operand: Operand) -> Option<Inst>
    ensures { result ≡ beside_right operator target register operand }
{
    match operand {
        Operand::Number(number) => immediate(operator, target, register, number),
        Operand::Variable(_) => None,
    }
}

/// The same with the operand to its left.
fn beside_left(operator: Operator, target: u8, register: u8, operand: Operand) -> Option<Inst>
    ensures { result ≡ beside_left operator target register operand }
{
    match operand {
        Operand::Number(number) => exchanged(operator, target, register, number),
        Operand::Variable(_) => None,
    }
}

/// The number that a comparison has for its right operand as an immediate.
fn number_beside(homes: HomeTable, comparison: Comparison, operand: Operand) -> Option<u32>
    ensures { result ≡ number_beside (home_by homes.entry) comparison operand }
{
    match operand {
        Operand::Number(number) => {
            if as_immediate(homes, comparison, number) {
                Some(number)
            } else {
                None
            }
        }
        Operand::Variable(_) => None,
    }
}

/// An operation on a word that is taken and something else.
fn taken_binary(
    code: &mut Vec<Inst>,
    homes: HomeTable,
    taken: Taken,
    operator: Operator,
    left: Operand,
    right: Operand,
) -> Result<(), AllocError>
    requires near { AreNear homes }
    requires once { reads_once taken.variable (IsBinary operator left right) ≡ true }
    ensures { OnOk result (code.new.items ≡ code.old.items
        ++ value_code (with_home taken.variable (IsRegister taken.queue) (home_by homes.entry))
        taken.target (IsBinary operator left right)) }
{
    let queue = taken.queue;
    let target = taken.target;
    if is_variable(left, taken.variable) {
        match beside_right(operator, target, queue, right) {
            Some(inst) => code.extend_from_slice(&[inst]),
            None => {
                fetch(code, homes, 6, right)?;
                let right = source(homes, 6, right);
                code.extend_from_slice(&[operation(operator, target, queue, right)])
            }
        }
    } else {
        match beside_left(operator, target, queue, left) {
            Some(inst) => code.extend_from_slice(&[inst]),
            None => {
                fetch(code, homes, 5, left)?;
                let left = source(homes, 5, left);
                code.extend_from_slice(&[operation(operator, target, left, queue)])
            }
        }
    }
}

/// A test of a word that is taken and something else.
fn taken_test(
    code: &mut Vec<Inst>,
    homes: HomeTable,
    taken: Taken,
    test: Test,
) -> Result<(), AllocError>
    requires near { AreNear homes }
    requires once { reads_once taken.variable (IsHolds test) ≡ true }
    ensures { OnOk result (code.new.items ≡ code.old.items
        ++ value_code (with_home taken.variable (IsRegister taken.queue) (home_by homes.entry))
        taken.target (IsHolds test)) }
{
    let queue = taken.queue;
    let target = taken.target;
    if is_variable(test.left, taken.variable) {
        match number_beside(homes, test.comparison, test.right) {
            Some(number) => compare_number(code, test.comparison, target, queue, number),
            None => {
                fetch(code, homes, 6, test.right)?;
                let right = source(homes, 6, test.right);
                compare(code, test.comparison, target, queue, right)
            }
        }
    } else {
        fetch(code, homes, 5, test.left)?;
        let left = source(homes, 5, test.left);
        compare(code, test.comparison, target, left, queue)
    }
}

/// The block of an action that takes a word from a queue into a variable, with which the next action is done: it computes
/// this value of that word into the target.
fn early_code(
    code: &mut Vec<Inst>,
    homes: HomeTable,
    queue: u8,
    variable: u32,
    target: u32,
    value: Value,
) -> Result<(), AllocError>
    requires near { AreNear homes }
    requires once { reads_once variable value ≡ true }
    ensures { OnOk result (code.new.items ≡ code.old.items
        ++ early_code (home_by homes.entry) queue variable target value) }
{
    let home = home_of(homes, target);
    let register = register_or(5, home);
    let taken = Taken {
        queue,
        variable,
        target: register,
    };
    match value {
        Value::Same(_) => code.extend_from_slice(&[Inst::Addi(register, queue, 0)])?,
        Value::Extended(kind, _) => extend(code, kind, register, queue)?,
        Value::Binary(operator, left, right) => {
            taken_binary(code, homes, taken, operator, left, right)?;
        }
        Value::Holds(test) => taken_test(code, homes, taken, test)?,
        Value::FrameAddress(_) => (),
    }
    keep(code, home)
}

/// The block of an action that takes a word, with which the next action is done: it computes this value into the target.
pub fn taking_code(
    code: &mut Vec<Inst>,
    homes: HomeTable,
    action: &Action,
    target: u32,
    value: Value,
) -> Result<(), AllocError>
    requires near { AreNear homes }
    requires once { IsTakenBy (IsEarly target value) action.now }
    ensures { OnOk result (code.new.items ≡ code.old.items
        ++ taking_code (home_by homes.entry) action.now target value) }
{
    match action {
        Action::Receive(variable) => early_code(code, homes, 30, *variable, target, value),
        Action::Accept(variable) => early_code(code, homes, 28, *variable, target, value),
        _ => Ok(()),
    }
}
