// The blocks of calls and returns, and the code that a function begins with.

ghost use Rattle.std.specs.Prelude.{if◌then◌else◌, ◌≡◌, ◌+◌, ◌*◌, ◌++◌, ◌∷◌, [], pos, ◌^◌, ◌%◌, ◌&&◌, not, nat_lt, IfOk, OnOk};
ghost use Rattle.dae_encode.specs.declared.Inst.TheVariants.{Jalr};
ghost use Rattle.dae_select_blocks.specs.Blocks.{is_register, save_code, restore_code, more_code, less_code, deeper_code, back_code, result_code, count_code, prologue_code, epilogue_code, leave_code};
ghost use Rattle.dae_select_blocks.specs.Code.{some_below, filtered, registers_in, call_code};
ghost use Rattle.dae_select_calls.specs.Layouts.{plan_of};
ghost use Rattle.dae_select_calls.specs.Makings.{plan_by, variables_by, registers_kept, IsSound};
ghost use Rattle.dae_select_calls.specs.Passing.{pass_code, resume_code};
ghost use Rattle.dae_select_walks.specs.Live.{with_all};
ghost use Rattle.dae_select_values.specs.Sides.{is_a};
ghost use Rattle.dae_select_values.specs.Tables.{AreNear, home_by};
ghost use Rattle.dae_select_live.specs.Members.{member};

use crate::layouts::Layouts;
use crate::making::Making;
use crate::passing::{arguments_code, kept_at, parameters_code};
use dae_base::Side;
use dae_encode::Inst;
use dae_ir::{Argument, Operand};
use dae_select_live::LiveSet;
use dae_select_values::{
    HomeTable, enter_code, home_of, keep, less_code, load_code, more_code, move_code, register_or,
    store_code,
};
use dae_select_walks::Home;
use std::alloc::{AllocError, Global};

/// The registers that variables may have.
const HOME_REGISTERS: [u8; 18] = [
    8, 9, 11, 12, 13, 14, 15, 16, 18, 19, 20, 21, 22, 23, 24, 25, 26, 27,
];

/// The register of a home comes into a set of registers.
fn hold_home(held: &mut LiveSet, home: Home) -> Result<(), AllocError>
    ensures { OnOk result (member held.new
        ≡ with_all (λ r. is_register r home) (member held.old)) }
{
    match home {
        Home::Register(register) => held.insert(u32::from(register)),
        Home::Slot(_) => Ok(()),
    }
}

/// The register in which a variable is, of those below so many, comes into a set of registers.
fn hold(
    held: &mut LiveSet,
    homes: HomeTable,
    variables: u32,
    variable: u32,
) -> Result<(), AllocError>
    ensures { OnOk result (member held.new ≡ with_all (λ r.
        nat_lt variable variables && is_register r (home_by homes.entry variable))
        (member held.old)) }
{
    if variable < variables {
        hold_home(held, home_of(homes, variable))
    } else {
        Ok(())
    }
}

/// The registers in which a live variable is, by one pass over the live variables.
fn held_registers(
    alloc: Global,
    homes: HomeTable,
    variables: u32,
    live: &LiveSet,
) -> Result<LiveSet, AllocError>
    ensures { IfOk result (λ held. member held ≡ (λ r. some_below variables (λ v.
        member live.now v && is_register r (home_by homes.entry v)))) }
{
    let mut held = LiveSet::new(alloc);
    for variable in live.variables() {
        hold(&mut held, homes, variables, *variable)?;
    }
    Ok(held)
}

fn registers_among(alloc: Global, held: &LiveSet, registers: &[u8]) -> Result<Vec<u8>, AllocError>
    ensures { IfOk result (λ found. found.items ≡ filtered (member held.now) registers.now) }
{
    let mut found = Vec::new(alloc);
    for register in registers {
        if held.contains(u32::from(*register)) {
            found.push(*register)?;
        }
    }
    Ok(found)
}

/// Those of some registers in which a live variable is.
fn live_among(
    alloc: Global,
    homes: HomeTable,
    variables: u32,
    live: &LiveSet,
    registers: &[u8],
) -> Result<Vec<u8>, AllocError>
    ensures { IfOk result (λ found. found.items ≡ filtered (λ r. some_below variables (λ v.
        member live.now v && is_register r (home_by homes.entry v))) registers.now) }
{
    let held = held_registers(alloc, homes, variables, live)?;
    registers_among(alloc, &held, registers)
}

/// The registers in which a live variable is.
fn registers_in(
    alloc: Global,
    homes: HomeTable,
    variables: u32,
    live: &LiveSet,
) -> Result<Vec<u8>, AllocError>
    ensures { IfOk result (λ registers. registers.items
        ≡ registers_in (home_by homes.entry) variables (member live.now)) }
{
    live_among(alloc, homes, variables, live, &HOME_REGISTERS)
}

/// Those of some registers that a function may change.
fn changed_among(
    alloc: Global,
    layouts: &Layouts,
    callee: u32,
    registers: &[u8],
) -> Result<Vec<u8>, AllocError>
    ensures { IfOk result (λ found. found.items
        ≡ filtered (λ r. not ((plan_of layouts.now).spares callee r)) registers.now) }
{
    let mut found = Vec::new(alloc);
    for register in registers {
        if !layouts.spares(callee, *register) {
            found.push(*register)?;
        }
    }
    Ok(found)
}

/// The registers in which a live variable is that a call of a function might change.
fn call_registers(making: &Making, callee: u32, live: &LiveSet) -> Result<Vec<u8>, AllocError>
    requires { IsSound making.now }
    ensures { IfOk result (λ registers. registers.items
        ≡ registers_kept making.now callee (member live.now)) }
{
    let variables = making.layouts.variables(making.function);
    let registers = registers_in(making.alloc, making.homes, variables, live)?;
    changed_among(making.alloc, making.layouts, callee, registers.as_slice())
}

fn save_code(code: &mut Vec<Inst>, registers: &[u8]) -> Result<(), AllocError>
    ensures { OnOk result (code.new.items ≡ code.old.items ++ save_code registers.now) }
{
    for register in registers {
        store_code(code, *register, u32::from(kept_at(*register)))?;
    }
    Ok(())
}

fn restore_code(code: &mut Vec<Inst>, registers: &[u8]) -> Result<(), AllocError>
    ensures { OnOk result (code.new.items ≡ code.old.items ++ restore_code registers.now) }
{
    for register in registers {
        load_code(code, *register, u32::from(kept_at(*register)))?;
    }
    Ok(())
}

/// The low word of a frame's bytes.
fn low_word(frame: u64) -> u32
    ensures { result ≡ frame % 2 ^ 32 }
{
    (frame % 4_294_967_296) as u32
}

/// The private frame of the function that is called follows the caller's, unless it has none.
fn own_deeper_code(code: &mut Vec<Inst>, making: &Making, callee: u32) -> Result<(), AllocError>
    requires { IsSound making.now }
    ensures { OnOk result (code.new.items ≡ code.old.items
        ++ (if (plan_by making.now).frameless callee then []
        else more_code 2 (4 * (plan_by making.now).words making.now.function))) }
{
    if making.layouts.frameless(callee) {
        Ok(())
    } else {
        more_code(
            code,
            2,
            4 * (19 + making.layouts.variables(making.function)),
        )
    }
}

/// It is given up again.
fn own_back_code(code: &mut Vec<Inst>, making: &Making, callee: u32) -> Result<(), AllocError>
    requires { IsSound making.now }
    ensures { OnOk result (code.new.items ≡ code.old.items
        ++ (if (plan_by making.now).frameless callee then []
        else less_code 2 (4 * (plan_by making.now).words making.now.function))) }
{
    if making.layouts.frameless(callee) {
        Ok(())
    } else {
        less_code(
            code,
            2,
            4 * (19 + making.layouts.variables(making.function)),
        )
    }
}

/// The frames of the function that is called follow the caller's.
fn deeper_code(code: &mut Vec<Inst>, making: &Making, callee: u32) -> Result<(), AllocError>
    requires { IsSound making.now }
    ensures { OnOk result (code.new.items ≡ code.old.items
        ++ deeper_code (plan_by making.now) making.now.function callee) }
{
    more_code(code, 3, low_word(making.layouts.frame(making.function)))?;
    own_deeper_code(code, making, callee)
}

/// The frames are given up again.
fn back_code(code: &mut Vec<Inst>, making: &Making, callee: u32) -> Result<(), AllocError>
    requires { IsSound making.now }
    ensures { OnOk result (code.new.items ≡ code.old.items
        ++ back_code (plan_by making.now) making.now.function callee) }
{
    less_code(code, 3, low_word(making.layouts.frame(making.function)))?;
    own_back_code(code, making, callee)
}

fn result_code(
    code: &mut Vec<Inst>,
    homes: HomeTable,
    variable: Option<u32>,
) -> Result<(), AllocError>
    requires { AreNear homes }
    ensures { OnOk result (code.new.items ≡ code.old.items
        ++ result_code (home_by homes.entry) variable) }
{
    match variable {
        None => Ok(()),
        Some(variable) => {
            let home = home_of(homes, variable);
            code.push(Inst::Addi(register_or(5, home), 6, 0))?;
            keep(code, home)
        }
    }
}

/// What a call names: the variable that gets the result, the function, and the arguments.
#[derive(Clone, Copy)]
pub struct Callee {
    pub result: Option<u32>,
    pub function: u32,
}

/// What a call does behind its arguments: these registers are kept, the parameters' registers get their values, and the frames follow.
fn pass_code(
    code: &mut Vec<Inst>,
    making: &Making,
    callee: u32,
    arguments: &[Argument],
    registers: &[u8],
) -> Result<(), AllocError>
    requires { IsSound making.now }
    ensures { OnOk result (code.new.items ≡ code.old.items ++ pass_code (plan_by making.now)
        making.now.function callee arguments.now registers.now) }
{
    save_code(code, registers)?;
    parameters_code(code, making, callee, arguments)?;
    deeper_code(code, making, callee)
}

/// What a call does when it is answered: the frames are given up, these registers get back what was kept, and the result goes home.
fn resume_code(
    code: &mut Vec<Inst>,
    making: &Making,
    callee: Callee,
    registers: &[u8],
) -> Result<(), AllocError>
    requires { IsSound making.now }
    ensures { OnOk result (code.new.items ≡ code.old.items ++ resume_code (plan_by making.now)
        making.now.function callee.function callee.result registers.now) }
{
    back_code(code, making, callee.function)?;
    restore_code(code, registers)?;
    result_code(code, making.homes, callee.result)
}

/// The block of a call, where these variables are live behind it, the result aside.
pub fn call_code(
    code: &mut Vec<Inst>,
    making: &Making,
    callee: Callee,
    arguments: &[Argument],
    live: &LiveSet,
) -> Result<(), AllocError>
    requires { IsSound making.now }
    ensures { OnOk result (code.new.items ≡ code.old.items
        ++ call_code (plan_by making.now) (variables_by making.now) making.now.function
        callee.result callee.function arguments.now (member live.now)) }
{
    let layouts = making.layouts;
    arguments_code(code, making, callee.function, arguments)?;
    let registers = call_registers(making, callee.function, live)?;
    pass_code(
        code,
        making,
        callee.function,
        arguments,
        registers.as_slice(),
    )?;
    enter_code(code, layouts.calls, layouts.entry(callee.function))?;
    resume_code(code, making, callee, registers.as_slice())
}

/// A counts so much more.
fn count_code(code: &mut Vec<Inst>, side: Side, more: i32) -> Result<(), AllocError>
    ensures { OnOk result (code.new.items ≡ code.old.items ++ count_code (is_a side) more) }
{
    match side {
        Side::A => code.extend_from_slice(&[Inst::Addi(10, 10, more)]),
        Side::E => Ok(()),
    }
}

/// The code that a function begins with: the address to return to, which is in x1, goes into the frame of one that is no leaf, and A
/// counts the function.
pub fn prologue_code(code: &mut Vec<Inst>, making: &Making) -> Result<(), AllocError>
    ensures { OnOk result (code.new.items ≡ code.old.items
        ++ prologue_code (plan_by making.now).by_a
        ((plan_by making.now).leaf making.now.function)) }
{
    if making.layouts.leaf(making.function) {
        Ok(())
    } else {
        code.push(Inst::Sw(2, 1, 0))?;
        count_code(code, making.layouts.side, 1)
    }
}

/// The address comes from there into x1, where a leaf has it, and A counts the function no more.
fn epilogue_code(code: &mut Vec<Inst>, making: &Making) -> Result<(), AllocError>
    ensures { OnOk result (code.new.items ≡ code.old.items
        ++ epilogue_code (plan_by making.now).by_a
        ((plan_by making.now).leaf making.now.function)) }
{
    if making.layouts.leaf(making.function) {
        Ok(())
    } else {
        code.push(Inst::Lw(1, 2, 0))?;
        count_code(code, making.layouts.side, -1)
    }
}

/// The jump to the address to return to.
fn return_code(code: &mut Vec<Inst>, making: &Making) -> Result<(), AllocError>
    ensures { OnOk result (code.new.items ≡ code.old.items
        ++ (epilogue_code (plan_by making.now).by_a
        ((plan_by making.now).leaf making.now.function) ++ Jalr 0 1 (pos 0) ∷ [])) }
{
    epilogue_code(code, making)?;
    code.push(Inst::Jalr(0, 1, 0))?;
    Ok(())
}

/// The block of a return.
pub fn leave_code(
    code: &mut Vec<Inst>,
    making: &Making,
    answer: Option<Operand>,
) -> Result<(), AllocError>
    requires { IsSound making.now }
    ensures { OnOk result (code.new.items ≡ code.old.items
        ++ leave_code (plan_by making.now).by_a ((plan_by making.now).leaf making.now.function)
        ((plan_by making.now).home making.now.function) answer) }
{
    match answer {
        None => return_code(code, making),
        Some(operand) => {
            move_code(code, making.homes, 6, operand)?;
            return_code(code, making)
        }
    }
}
