// Where a switch begins (C90 6.6.4.2).

ghost use Rattle.std.specs.Prelude.{◌≡◌, ◌<◌, ◌^◌, [], ◌∷◌, length, IfOk, None};
ghost use Rattle.dae_ir.specs.Code.{Do, Done, If};
ghost use Rattle.dae_ir.specs.Form.{before, form_of, Form};
ghost use Rattle.dae_lower.specs.Lowering.{arms_continue, emit, one, search, search_labels, test_of, where_so, ◌⨾◌};
ghost use Rattle.dae_program.specs.Views.{arms_of};
ghost use Rattle.dae_lower_programs.specs.Parts.{label_then};
ghost use Rattle.dae_ir.specs.declared.form.Item.TheVariants.{Assign, Break, Continue};
ghost use Rattle.dae_ir.specs.declared.form.Operand.TheVariants.{Number, Variable};
ghost use Rattle.dae_ir.specs.declared.form.Value.TheVariants.{Same};
ghost use Rattle.dae_lower_expressions.specs.Lowered.{MakesWhole};
ghost use Rattle.dae_lower_maker.specs.Numbers.{number_after};
ghost use Rattle.dae_lower_programs.specs.Switching.{arm_done, switch_begun, switch_ended};
ghost use Rattle.dae_meaning.specs.declared.Comparison.TheVariants.{NotEqual};
ghost use Rattle.dae_program.specs.Switches.{arm_with, count_arms, has_label};

use crate::blocks::single;
use crate::continuing::arms_continue;
use dae_base::Place;
use dae_ir::{Item, Operand, Statement, Test, Value};
use dae_lower_expressions::Lowerer;
use dae_lower_maker::Condition;
use dae_meaning::Comparison;
use dae_program::Arm;
use std::alloc::{AllocError, Global};

/// What the search for the arm where a switch begins goes by: the switch's place, its value, and the variable that gets the
/// arm's number.
#[derive(Clone, Copy)]
pub struct Dispatch {
    pub place: Place,
    pub value: Operand,
    pub arm: u32,
}

/// A switch between its beginning and its end: its place, the variable that has the number of the arm where it begins, whether its
/// arms continue a loop round it, and the variable that notes that.
#[derive(Clone, Copy)]
pub struct OpenSwitch {
    pub place: Place,
    pub arm: u32,
    pub continues: bool,
    pub flag: u32,
}

/// Whether a label is `default`.
fn is_default(label: &Option<u32>) -> bool
    ensures { result ≡ has_label None (label.now ∷ []) }
{
    label.is_none()
}

/// Whether `default` is among some labels.
fn has_default(labels: &[Option<u32>]) -> bool
    ensures { result ≡ has_label None labels.now }
{
    for label in labels {
        if is_default(label) {
            return true;
        }
    }
    false
}

/// The number of the arm with `default`, and where there is none of the end.
pub fn default_arm(arms: &[Arm]) -> u32
    requires { length arms.now < 2 ^ 32 }
    ensures { result ≡ arm_with None 0 (arms_of arms.now) (count_arms (arms_of arms.now)) }
{
    let mut number = 0;
    for arm in arms {
        if has_default(&arm.labels) {
            return number;
        }
        number += 1;
    }
    number
}

/// Where the value equals a label, the search ends, and the arm of this number is the first.
fn label_branch(
    alloc: Global,
    dispatch: Dispatch,
    number: u32,
    label: u32,
) -> Result<Statement, AllocError>
    ensures { IfOk result
        (λ s. (k : Form)
        → before s k
        ≡ label_then dispatch.place dispatch.value dispatch.arm number label k) }
{
    let place = dispatch.place;
    let test = Test {
        comparison: Comparison::Equal,
        left: dispatch.value,
        right: Operand::Number(label),
    };
    let value = Value::Same(Operand::Number(number));
    let mut found = Vec::new(alloc);
    found.push(Statement::Simple(place, Item::Assign(dispatch.arm, value)))?;
    found.push(Statement::Simple(place, Item::Break))?;
    Ok(Statement::If(place, test, found, Vec::new(alloc)))
}

/// Whether a label leads to the arm of a number is asked.
fn search_label(
    alloc: Global,
    block: &mut Vec<Statement>,
    dispatch: Dispatch,
    number: u32,
    label: &Option<u32>,
) -> Result<(), AllocError>
    ensures { IfOk result
        (λ u. (rest : Form)
        → (form_of block.new.items ⨾ rest)
        ≡ (form_of block.old.items
        ⨾ search_labels dispatch.place dispatch.value dispatch.arm number
        (label.now ∷ []) rest)) }
{
    match label {
        Some(label) => {
            let branch = label_branch(alloc, dispatch, number, *label)?;
            block.push(branch)?;
            Ok(())
        }
        None => Ok(()),
    }
}

/// Whether one of some labels leads to the arm of a number is asked.
fn search_labels(
    alloc: Global,
    block: &mut Vec<Statement>,
    dispatch: Dispatch,
    number: u32,
    labels: &[Option<u32>],
) -> Result<(), AllocError>
    ensures { IfOk result
        (λ u. (rest : Form)
        → (form_of block.new.items ⨾ rest)
        ≡ (form_of block.old.items
        ⨾ search_labels dispatch.place dispatch.value dispatch.arm number labels.now rest)) }
{
    for label in labels {
        search_label(alloc, block, dispatch, number, label)?;
    }
    Ok(())
}

/// The search for the first arm, whose number a variable gets.
pub fn search(alloc: Global, dispatch: Dispatch, arms: &[Arm]) -> Result<Vec<Statement>, AllocError>
    requires { length arms.now < 2 ^ 32 }
    ensures { IfOk result
        (λ block. form_of block.items
        ≡ search dispatch.place dispatch.value dispatch.arm 0 (arms_of arms.now)) }
{
    let mut block = Vec::new(alloc);
    let mut number = 0;
    for arm in arms {
        search_labels(alloc, &mut block, dispatch, number, &arm.labels)?;
        number += 1;
    }
    block.push(Statement::Simple(dispatch.place, Item::Break))?;
    Ok(block)
}

/// Nothing has continued the loop outside yet, which a variable notes where something may.
fn clear(lowerer: &mut Lowerer, switch: OpenSwitch) -> Result<(), AllocError>
    ensures { IfOk result
        (MakesWhole
        (emit (where_so switch.continues
        (one switch.place (Assign switch.flag (Same (Number 0)))))) lowerer.old lowerer.new) }
{
    if switch.continues {
        let zero = Value::Same(Operand::Number(0));
        lowerer
            .maker
            .item(switch.place, Item::Assign(switch.flag, zero))?;
    }
    Ok(())
}

/// A switch up to its arms, which words number, with two variables of its own.
pub fn begin_switch(
    lowerer: &mut Lowerer,
    place: Place,
    x: Operand,
    arms: &[Arm],
) -> Result<OpenSwitch, AllocError>
    requires { length arms.now < 2 ^ 32 }
    ensures made { IfOk result
        (λ switch. MakesWhole
        (switch_begun place x (arm_with None 0 (arms_of arms.now) (count_arms (arms_of arms.now)))
        (arms_of arms.now) switch.continues) lowerer.old lowerer.new switch.arm) }
    ensures place { IfOk result (λ switch. switch.place ≡ place) }
    ensures continues { IfOk result
        (λ switch. switch.continues ≡ arms_continue (arms_of arms.now)) }
    ensures flag { IfOk result (λ switch. switch.flag ≡ number_after switch.arm) }
{
    let v = lowerer.maker.reserve();
    let flag = lowerer.maker.reserve();
    let other = default_arm(arms);
    let dispatch = Dispatch {
        place,
        value: x,
        arm: v,
    };
    let searching = search(lowerer.alloc, dispatch, arms)?;
    let nothing = Vec::new(lowerer.alloc);
    lowerer.maker.item(place, Item::Assign(v, Value::Same(Operand::Number(other))))?;
    lowerer.maker.repeat(place, searching, nothing)?;
    let switch = OpenSwitch {
        place,
        arm: v,
        continues: arms_continue(arms),
        flag,
    };
    clear(lowerer, switch)?;
    Ok(switch)
}

/// An arm of a number, which is done where the switch begins at that or before.
pub fn do_arm(
    lowerer: &mut Lowerer,
    place: Place,
    v: u32,
    number: u32,
    body: Vec<Statement>,
) -> Result<(), AllocError>
    ensures { IfOk result
        (MakesWhole (arm_done place v number (form_of body.items)) lowerer.old lowerer.new) }
{
    let test = Test {
        comparison: Comparison::AtLeastUnsigned,
        left: Operand::Number(number),
        right: Operand::Variable(v),
    };
    let condition = Condition {
        test,
        turned: false,
    };
    let nothing = Vec::new(lowerer.alloc);
    lowerer.maker.branch(place, condition, body, nothing)?;
    Ok(())
}

/// What a continue in the arms goes to: it is noted, and the arms are left.
fn note(alloc: Global, switch: OpenSwitch) -> Result<Vec<Statement>, AllocError>
    ensures { IfOk result
        (λ block. form_of block.items
        ≡ where_so switch.continues
        (Do switch.place (Assign switch.flag (Same (Number 1))) (one switch.place Break))) }
{
    let mut block = Vec::new(alloc);
    if switch.continues {
        let one = Value::Same(Operand::Number(1));
        block.push(Statement::Simple(switch.place, Item::Assign(switch.flag, one)))?;
        block.push(Statement::Simple(switch.place, Item::Break))?;
    }
    Ok(block)
}

/// Where the arms continued the loop outside, so does what is behind them.
fn go_on(lowerer: &mut Lowerer, switch: OpenSwitch) -> Result<(), AllocError>
    ensures { IfOk result
        (MakesWhole
        (emit (where_so switch.continues
        (If switch.place (test_of NotEqual (Variable switch.flag) (Number 0))
        (one switch.place Continue) Done Done))) lowerer.old lowerer.new) }
{
    let place = switch.place;
    if switch.continues {
        let test = Test {
            comparison: Comparison::NotEqual,
            left: Operand::Variable(switch.flag),
            right: Operand::Number(0),
        };
        let condition = Condition {
            test,
            turned: false,
        };
        let again = single(lowerer.alloc, place, Item::Continue)?;
        let nothing = Vec::new(lowerer.alloc);
        lowerer.maker.branch(place, condition, again, nothing)?;
    }
    Ok(())
}

/// A switch from its arms on.
pub fn end_switch(
    lowerer: &mut Lowerer,
    switch: OpenSwitch,
    body: Vec<Statement>,
) -> Result<(), AllocError>
    ensures { IfOk result
        (MakesWhole
        (switch_ended switch.place switch.flag switch.continues
        (form_of body.items)) lowerer.old lowerer.new) }
{
    let step = note(lowerer.alloc, switch)?;
    lowerer.maker.repeat(switch.place, body, step)?;
    go_on(lowerer, switch)?;
    Ok(())
}
