// The blocks of accesses to queues and memory, of printing and of halting.

ghost use Rattle.std.specs.Prelude.{◌≡◌, ◌++◌, ◌∷◌, [], OnOk, pos};
ghost use Rattle.dae_ir.specs.Deeds.{failure_code};
ghost use Rattle.dae_select_blocks.specs.Blocks.{source, fetch, issue_code, address_code, take_code, call_number, system_code, hear_code, stop_code, reach_code};
ghost use Rattle.dae_select_values.specs.Sides.{is_a};
ghost use Rattle.dae_select_values.specs.Tables.{IsNear, AreNear, home_by};

use crate::fetching::{fetch, keep, lower, move_code, register_or, source};
use crate::tables::{HomeTable, home_of};
use dae_base::{LoadKind, Side, Width};
use dae_encode::Inst;
use dae_ir::{Failure, Operand, Value};
use dae_meaning::Spelling;
use dae_select_walks::Home;
use std::alloc::AllocError;

fn issue_inst(kind: LoadKind, queue: u8, base: u8, offset: i32) -> Inst
    ensures { result ≡ issue_code kind queue base offset }
{
    match kind {
        LoadKind::I8 => Inst::Lb(queue, base, offset),
        LoadKind::U8 => Inst::Lbu(queue, base, offset),
        LoadKind::I16 => Inst::Lh(queue, base, offset),
        LoadKind::U16 => Inst::Lhu(queue, base, offset),
        LoadKind::I32 => Inst::Lw(queue, base, offset),
    }
}

/// A slot of a load queue, x30 or x31, is reserved for a load from the address that an operand is.
pub fn issue_code(
    code: &mut Vec<Inst>,
    homes: HomeTable,
    kind: LoadKind,
    queue: u8,
    operand: Operand,
) -> Result<(), AllocError>
    requires { AreNear homes }
    ensures { OnOk result (code.new.items ≡ code.old.items ++ (fetch (home_by homes.entry) 5 operand
        ++ issue_code kind queue (source (home_by homes.entry) 5 operand) (pos 0) ∷ [])) }
{
    fetch(code, homes, 5, operand)?;
    code.push(issue_inst(kind, queue, source(homes, 5, operand), 0))?;
    Ok(())
}

/// The same from the sum of an operand and a number, where the value is one, which the load adds up itself.
pub fn issue_at_sum(
    code: &mut Vec<Inst>,
    homes: HomeTable,
    kind: LoadKind,
    queue: u8,
    value: Value,
) -> Result<(), AllocError>
    requires { AreNear homes }
    ensures { OnOk result (code.new.items ≡ code.old.items
        ++ reach_code (home_by homes.entry) value (issue_code kind queue) []) }
{
    match value {
        Value::Binary(_, operand, Operand::Number(number)) => {
            fetch(code, homes, 5, operand)?;
            let base = source(homes, 5, operand);
            code.push(issue_inst(kind, queue, base, lower(number)))?;
            Ok(())
        }
        Value::Binary(_, _, Operand::Variable(_)) => Ok(()),
        Value::Same(_) | Value::Extended(_, _) => Ok(()),
        Value::Holds(_) | Value::FrameAddress(_) => Ok(()),
    }
}

/// A slot of the access side's own loads is reserved for a load from such a sum, and the word is taken into a variable.
pub fn own_at_sum(
    code: &mut Vec<Inst>,
    homes: HomeTable,
    variable: u32,
    kind: LoadKind,
    value: Value,
) -> Result<(), AllocError>
    requires { AreNear homes }
    ensures { OnOk result (code.new.items ≡ code.old.items
        ++ reach_code (home_by homes.entry) value (issue_code kind 31)
        (take_code 31 (home_by homes.entry variable))) }
{
    match value {
        Value::Binary(_, operand, Operand::Number(number)) => {
            fetch(code, homes, 5, operand)?;
            let base = source(homes, 5, operand);
            code.push(issue_inst(kind, 31, base, lower(number)))?;
            take_code(code, 31, home_of(homes, variable))
        }
        Value::Binary(_, _, Operand::Variable(_)) => Ok(()),
        Value::Same(_) | Value::Extended(_, _) => Ok(()),
        Value::Holds(_) | Value::FrameAddress(_) => Ok(()),
    }
}

fn address_inst(width: Width, base: u8, offset: i32) -> Inst
    ensures { result ≡ address_code width base offset }
{
    match width {
        Width::B1 => Inst::Sb(base, 30, offset),
        Width::B2 => Inst::Sh(base, 30, offset),
        Width::B4 => Inst::Sw(base, 30, offset),
    }
}

/// The address of a store is pushed.
pub fn address_code(
    code: &mut Vec<Inst>,
    homes: HomeTable,
    width: Width,
    operand: Operand,
) -> Result<(), AllocError>
    requires { AreNear homes }
    ensures { OnOk result (code.new.items ≡ code.old.items ++ (fetch (home_by homes.entry) 5 operand
        ++ address_code width (source (home_by homes.entry) 5 operand) (pos 0) ∷ [])) }
{
    fetch(code, homes, 5, operand)?;
    code.push(address_inst(width, source(homes, 5, operand), 0))?;
    Ok(())
}

/// The same where it is the sum of an operand and a number, which the store adds up itself.
pub fn address_at_sum(
    code: &mut Vec<Inst>,
    homes: HomeTable,
    width: Width,
    value: Value,
) -> Result<(), AllocError>
    requires { AreNear homes }
    ensures { OnOk result (code.new.items ≡ code.old.items
        ++ reach_code (home_by homes.entry) value (address_code width) []) }
{
    match value {
        Value::Binary(_, operand, Operand::Number(number)) => {
            fetch(code, homes, 5, operand)?;
            let base = source(homes, 5, operand);
            code.push(address_inst(width, base, lower(number)))?;
            Ok(())
        }
        Value::Binary(_, _, Operand::Variable(_)) => Ok(()),
        Value::Same(_) | Value::Extended(_, _) => Ok(()),
        Value::Holds(_) | Value::FrameAddress(_) => Ok(()),
    }
}

/// What is at the front of a queue goes home.
pub fn take_code(code: &mut Vec<Inst>, queue: u8, home: Home) -> Result<(), AllocError>
    requires { IsNear home }
    ensures { OnOk result (code.new.items ≡ code.old.items ++ take_code queue home) }
{
    code.push(Inst::Addi(register_or(5, home), queue, 0))?;
    keep(code, home)
}

/// The number of the environment call that prints so.
pub fn call_number(spelling: Spelling) -> u8
    ensures { result ≡ call_number spelling }
{
    match spelling {
        Spelling::Byte => 1,
        Spelling::Signed => 2,
        Spelling::Unsigned => 3,
        Spelling::Hexadecimal => 4,
    }
}

/// An environment call of this number with an operand.
pub fn system_code(
    code: &mut Vec<Inst>,
    homes: HomeTable,
    number: u8,
    operand: Operand,
) -> Result<(), AllocError>
    requires { AreNear homes }
    ensures { OnOk result (code.new.items ≡ code.old.items
        ++ system_code (home_by homes.entry) number operand) }
{
    move_code(code, homes, 10, operand)?;
    code.extend_from_slice(&[Inst::Addi(17, 0, i32::from(number)), Inst::Ecall])
}

/// The code of the trap of a check that fails so.
fn failure_code(failure: Failure) -> u8
    ensures { result ≡ failure_code failure }
{
    match failure {
        Failure::OutOfBounds => 2,
        Failure::OutOfRoom => 4,
    }
}

/// A message is taken, and for a code other than 0 the processor halts: where that can be the code of one failure alone, a
/// branch takes it.
pub fn hear_code(code: &mut Vec<Inst>, side: Side, only: Option<Failure>) -> Result<(), AllocError>
    ensures { OnOk result (code.new.items ≡ code.old.items ++ hear_code (is_a side) only) }
{
    match (side, only) {
        (Side::A, _) => code.extend_from_slice(&[Inst::Beq(29, 0, 8), Inst::Ecall]),
        (Side::E, None) => code.extend_from_slice(&[
            Inst::Addi(10, 29, 0),
            Inst::Beq(10, 0, 12),
            Inst::Addi(17, 0, 5),
            Inst::Ecall,
        ]),
        (Side::E, Some(failure)) => {
            let trap = i32::from(failure_code(failure));
            code.extend_from_slice(&[
                Inst::Beq(29, 0, 16),
                Inst::Addi(10, 0, trap),
                Inst::Addi(17, 0, 5),
                Inst::Ecall,
            ])
        }
    }
}

/// The processor halts, E with a status.
pub fn stop_code(
    code: &mut Vec<Inst>,
    side: Side,
    homes: HomeTable,
    status: Option<Operand>,
) -> Result<(), AllocError>
    requires { AreNear homes }
    ensures { OnOk result (code.new.items ≡ code.old.items
        ++ stop_code (is_a side) (home_by homes.entry) status) }
{
    match (side, status) {
        (Side::A, _) => code.extend_from_slice(&[Inst::Ecall]),
        (Side::E, None) => system_code(code, homes, 0, Operand::Number(0)),
        (Side::E, Some(operand)) => system_code(code, homes, 0, operand),
    }
}
