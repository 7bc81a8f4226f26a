// The arguments of a call go to the homes of their parameters: first those for slots, and then those for registers.

ghost use Rattle.std.specs.Prelude.{◌≡◌, ◌++◌, ◌<◌, ◌^◌, OnOk};
ghost use Rattle.dae_select_blocks.specs.Blocks.{is_register, gives_register, is_overwritten, wait_code, slot_code, argument_to, argument_code, arguments_code, copy_code, give_code, parameter_to, parameter_code, parameters_code};
ghost use Rattle.dae_select_calls.specs.Layouts.{plan_of};
ghost use Rattle.dae_select_calls.specs.Makings.{plan_by, IsSound};
ghost use Rattle.dae_select_values.specs.Tables.{IsNear};
ghost use Rattle.dae_select_walks.specs.Homes.{kept_at};

use crate::layouts::{Layouts, is_register};
use crate::making::Making;
use dae_encode::Inst;
use dae_ir::{Argument, Operand};
use dae_select_values::{fetch, load_code, source, store_code};
use dae_select_walks::Home;
use std::alloc::AllocError;

/// The word of a frame in which a register is kept across a call.
pub fn kept_at(register: u8) -> u8
    ensures { result ≡ kept_at register }
{
    if register < 10 {
        register.saturating_sub(7)
    } else if register < 17 {
        register - 8
    } else {
        register - 9
    }
}

/// Whether an argument is for a variable in this register.
fn goes_into(layouts: &Layouts, callee: u32, argument: Argument, register: u8) -> bool
    ensures { result ≡ is_register register
        ((plan_of layouts.now).home callee argument.parameter) }
{
    is_register(register, layouts.home(callee, argument.parameter))
}

/// Whether one of these arguments is for a variable in this register.
fn gives_register(layouts: &Layouts, callee: u32, arguments: &[Argument], register: u8) -> bool
    ensures { result ≡ gives_register ((plan_of layouts.now).home callee) arguments.now register }
{
    for argument in arguments {
        if goes_into(layouts, callee, *argument, register) {
            return true;
        }
    }
    false
}

/// Whether an operand is in a register that one of these arguments, which are given before, has got.
fn is_overwritten(making: &Making, callee: u32, given: &[Argument], operand: Operand) -> bool
    requires { IsSound making.now }
    ensures { result ≡ is_overwritten (plan_by making.now) making.now.function callee given.now
        operand }
{
    gives_register(
        making.layouts,
        callee,
        given,
        source(making.homes, 5, operand),
    )
}

/// Such an operand waits in the word in which its register is kept across a call.
fn wait_code(
    code: &mut Vec<Inst>,
    making: &Making,
    callee: u32,
    given: &[Argument],
    operand: Operand,
) -> Result<(), AllocError>
    requires { IsSound making.now }
    ensures { OnOk result (code.new.items ≡ code.old.items
        ++ wait_code (plan_by making.now) making.now.function callee given.now operand) }
{
    if is_overwritten(making, callee, given, operand) {
        let register = source(making.homes, 5, operand);
        store_code(code, register, u32::from(kept_at(register)))
    } else {
        Ok(())
    }
}

/// An operand goes into a slot in the frame of the function that is called.
fn slot_code(
    code: &mut Vec<Inst>,
    making: &Making,
    slot: u32,
    operand: Operand,
) -> Result<(), AllocError>
    requires sound { IsSound making.now }
    requires near { slot < 2 ^ 27 }
    ensures { OnOk result (code.new.items ≡ code.old.items
        ++ slot_code (plan_by making.now) making.now.function slot operand) }
{
    fetch(code, making.homes, 5, operand)?;
    let words = 19 + making.layouts.variables(making.function);
    let place = 19 + slot;
    store_code(code, source(making.homes, 5, operand), words + place)
}

/// What is done of an argument for a variable with this home before any register gets another word.
fn argument_to(
    code: &mut Vec<Inst>,
    making: &Making,
    callee: u32,
    given: &[Argument],
    home: Home,
    operand: Operand,
) -> Result<(), AllocError>
    requires sound { IsSound making.now }
    requires near { IsNear home }
    ensures { OnOk result (code.new.items ≡ code.old.items
        ++ argument_to (plan_by making.now) making.now.function callee given.now home operand) }
{
    match home {
        Home::Register(_) => wait_code(code, making, callee, given, operand),
        Home::Slot(slot) => slot_code(code, making, slot, operand),
    }
}

fn argument_code(
    code: &mut Vec<Inst>,
    making: &Making,
    callee: u32,
    given: &[Argument],
    argument: Argument,
) -> Result<(), AllocError>
    requires { IsSound making.now }
    ensures { OnOk result (code.new.items ≡ code.old.items
        ++ argument_code (plan_by making.now) making.now.function callee given.now argument) }
{
    let home = making.layouts.home(callee, argument.parameter);
    argument_to(code, making, callee, given, home, argument.operand)
}

/// Arguments go into slots, or wait, the last one first.
pub fn arguments_code(
    code: &mut Vec<Inst>,
    making: &Making,
    callee: u32,
    arguments: &[Argument],
) -> Result<(), AllocError>
    requires { IsSound making.now }
    ensures { OnOk result (code.new.items ≡ code.old.items
        ++ arguments_code (plan_by making.now) making.now.function callee arguments.now) }
{
    for index in (0..arguments.len()).rev() {
        argument_code(
            code,
            making,
            callee,
            &arguments[index + 1..],
            arguments[index],
        )?;
    }
    Ok(())
}

/// A register gets the word of another.
fn copy_code(code: &mut Vec<Inst>, target: u8, register: u8) -> Result<(), AllocError>
    ensures { OnOk result (code.new.items ≡ code.old.items ++ copy_code target register) }
{
    if target == register {
        Ok(())
    } else {
        code.extend_from_slice(&[Inst::Addi(target, register, 0)])
    }
}

/// An operand goes into the register of its parameter.
fn give_code(
    code: &mut Vec<Inst>,
    making: &Making,
    callee: u32,
    given: &[Argument],
    target: u8,
    operand: Operand,
) -> Result<(), AllocError>
    requires { IsSound making.now }
    ensures { OnOk result (code.new.items ≡ code.old.items
        ++ give_code (plan_by making.now) making.now.function callee given.now target operand) }
{
    if is_overwritten(making, callee, given, operand) {
        let register = source(making.homes, 5, operand);
        load_code(code, target, u32::from(kept_at(register)))
    } else {
        fetch(code, making.homes, target, operand)?;
        copy_code(code, target, source(making.homes, target, operand))
    }
}

/// What is done then of an argument for a variable with this home.
fn parameter_to(
    code: &mut Vec<Inst>,
    making: &Making,
    callee: u32,
    given: &[Argument],
    home: Home,
    operand: Operand,
) -> Result<(), AllocError>
    requires { IsSound making.now }
    ensures { OnOk result (code.new.items ≡ code.old.items
        ++ parameter_to (plan_by making.now) making.now.function callee given.now home operand) }
{
    match home {
        Home::Register(target) => give_code(code, making, callee, given, target, operand),
        Home::Slot(_) => Ok(()),
    }
}

fn parameter_code(
    code: &mut Vec<Inst>,
    making: &Making,
    callee: u32,
    given: &[Argument],
    argument: Argument,
) -> Result<(), AllocError>
    requires { IsSound making.now }
    ensures { OnOk result (code.new.items ≡ code.old.items
        ++ parameter_code (plan_by making.now) making.now.function callee given.now argument) }
{
    let home = making.layouts.home(callee, argument.parameter);
    parameter_to(code, making, callee, given, home, argument.operand)
}

/// Arguments go into the registers of their parameters, the last one first.
pub fn parameters_code(
    code: &mut Vec<Inst>,
    making: &Making,
    callee: u32,
    arguments: &[Argument],
) -> Result<(), AllocError>
    requires { IsSound making.now }
    ensures { OnOk result (code.new.items ≡ code.old.items
        ++ parameters_code (plan_by making.now) making.now.function callee arguments.now) }
{
    for index in (0..arguments.len()).rev() {
        parameter_code(
            code,
            making,
            callee,
            &arguments[index + 1..],
            arguments[index],
        )?;
    }
    Ok(())
}
