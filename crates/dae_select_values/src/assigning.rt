// The code of values: of what an action sets a variable to.

ghost use Rattle.std.specs.Prelude.{◌≡◌, ◌++◌, not, is_some, OnOk};
ghost use Rattle.dae_select_blocks.specs.Blocks.{operation_code, combine_registers, binary_code, extend_code, compare_code, as_immediate, compare_registers, test_code, frame_code, value_code, register_or, keep};
ghost use Rattle.dae_select_values.specs.Tables.{AreNear, home_by};

use crate::fetching::{
    fetch, is_immediate, keep, lower, move_code, number_code, register_or, source,
};
use crate::numbers::{compare_number, exchanged, immediate, takes_number};
use crate::tables::{HomeTable, home_of, resident};
use dae_base::LoadKind;
use dae_encode::Inst;
use dae_ir::{Operand, Test, Value};
use dae_meaning::{Comparison, Operator};
use dae_select_walks::Home;
use std::alloc::AllocError;

/// An operation on two registers, into a third.
pub fn operation(operator: Operator, target: u8, left: u8, right: u8) -> Inst
    ensures { result ≡ operation_code operator target left right }
{
    match operator {
        Operator::Add => Inst::Add(target, left, right),
        Operator::Subtract => Inst::Sub(target, left, right),
        Operator::Multiply => Inst::Mul(target, left, right),
        Operator::DivideSigned => Inst::Div(target, left, right),
        Operator::DivideUnsigned => Inst::Divu(target, left, right),
        Operator::RemainderSigned => Inst::Rem(target, left, right),
        Operator::RemainderUnsigned => Inst::Remu(target, left, right),
        Operator::And => Inst::And(target, left, right),
        Operator::Or => Inst::Or(target, left, right),
        Operator::Xor => Inst::Xor(target, left, right),
        Operator::ShiftLeft => Inst::Sll(target, left, right),
        Operator::ShiftRightSigned => Inst::Sra(target, left, right),
        Operator::ShiftRightUnsigned => Inst::Srl(target, left, right),
    }
}

/// An operation on two registers.
fn combine_registers(
    code: &mut Vec<Inst>,
    homes: HomeTable,
    target: u8,
    operator: Operator,
    left: Operand,
    right: Operand,
) -> Result<(), AllocError>
    requires { AreNear homes }
    ensures { OnOk result (code.new.items ≡ code.old.items
        ++ combine_registers (home_by homes.entry) target operator left right) }
{
    fetch(code, homes, 5, left)?;
    fetch(code, homes, 6, right)?;
    code.extend_from_slice(&[operation(
        operator,
        target,
        source(homes, 5, left),
        source(homes, 6, right),
    )])
}

/// An operation, with a number as an immediate where it can be one.
fn binary_code(
    code: &mut Vec<Inst>,
    homes: HomeTable,
    target: u8,
    operator: Operator,
    left: Operand,
    right: Operand,
) -> Result<(), AllocError>
    requires { AreNear homes }
    ensures { OnOk result (code.new.items ≡ code.old.items
        ++ binary_code (home_by homes.entry) target operator left right) }
{
    match right {
        Operand::Number(number) => {
            match immediate(operator, target, source(homes, 5, left), number) {
                Some(inst) => {
                    fetch(code, homes, 5, left)?;
                    code.extend_from_slice(&[inst])
                }
                None => combine_registers(code, homes, target, operator, left, right),
            }
        }
        Operand::Variable(_) => match left {
            Operand::Number(number) => {
                match exchanged(operator, target, source(homes, 5, right), number) {
                    Some(inst) => {
                        fetch(code, homes, 5, right)?;
                        code.extend_from_slice(&[inst])
                    }
                    None => combine_registers(code, homes, target, operator, left, right),
                }
            }
            Operand::Variable(_) => {
                combine_registers(code, homes, target, operator, left, right)
            }
        },
    }
}

/// What a load gets from a word, by x7.
pub fn extend(code: &mut Vec<Inst>, kind: LoadKind, target: u8, from: u8) -> Result<(), AllocError>
    ensures { OnOk result (code.new.items ≡ code.old.items ++ extend_code kind target from) }
{
    match kind {
        LoadKind::I8 => {
            code.extend_from_slice(&[Inst::Slli(7, from, 24), Inst::Srai(target, 7, 24)])
        }
        LoadKind::U8 => code.extend_from_slice(&[Inst::Andi(target, from, 255)]),
        LoadKind::I16 => {
            code.extend_from_slice(&[Inst::Slli(7, from, 16), Inst::Srai(target, 7, 16)])
        }
        LoadKind::U16 => {
            code.extend_from_slice(&[Inst::Slli(7, from, 16), Inst::Srli(target, 7, 16)])
        }
        LoadKind::I32 => code.extend_from_slice(&[Inst::Addi(target, from, 0)]),
    }
}

/// A comparison of two registers, by x7: only its last instruction writes the target, which may stand for a queue.
pub fn compare(
    code: &mut Vec<Inst>,
    comparison: Comparison,
    target: u8,
    left: u8,
    right: u8,
) -> Result<(), AllocError>
    ensures { OnOk result (code.new.items ≡ code.old.items
        ++ compare_code comparison target left right) }
{
    match comparison {
        Comparison::Equal => {
            code.extend_from_slice(&[Inst::Sub(7, left, right), Inst::Sltiu(target, 7, 1)])
        }
        Comparison::NotEqual => {
            code.extend_from_slice(&[Inst::Sub(7, left, right), Inst::Sltu(target, 0, 7)])
        }
        Comparison::LessSigned => code.extend_from_slice(&[Inst::Slt(target, left, right)]),
        Comparison::AtLeastSigned => {
            code.extend_from_slice(&[Inst::Slt(7, left, right), Inst::Xori(target, 7, 1)])
        }
        Comparison::LessUnsigned => code.extend_from_slice(&[Inst::Sltu(target, left, right)]),
        Comparison::AtLeastUnsigned => {
            code.extend_from_slice(&[Inst::Sltu(7, left, right), Inst::Xori(target, 7, 1)])
        }
    }
}

/// A comparison of two operands in registers.
fn compare_registers(
    code: &mut Vec<Inst>,
    homes: HomeTable,
    target: u8,
    test: Test,
) -> Result<(), AllocError>
    requires { AreNear homes }
    ensures { OnOk result (code.new.items ≡ code.old.items
        ++ compare_registers (home_by homes.entry) target test.comparison test.left test.right) }
{
    fetch(code, homes, 5, test.left)?;
    fetch(code, homes, 6, test.right)?;
    compare(
        code,
        test.comparison,
        target,
        source(homes, 5, test.left),
        source(homes, 6, test.right),
    )
}

/// Whether a number stays in no register.
fn is_absent(resident: Option<u8>) -> bool
    ensures { result ≡ not (is_some resident) }
{
    match resident {
        Some(_) => false,
        None => true,
    }
}

/// Whether a comparison has the number as an immediate: one that stays in a register is read there.
pub fn as_immediate(homes: HomeTable, comparison: Comparison, number: u32) -> bool
    ensures { result ≡ as_immediate (home_by homes.entry) comparison number }
{
    takes_number(comparison, number) && is_absent(resident(homes, number))
}

/// A register, or the queue that it stands for, gets 1 where the test holds, and else 0.
pub fn test_code(
    code: &mut Vec<Inst>,
    homes: HomeTable,
    target: u8,
    test: Test,
) -> Result<(), AllocError>
    requires { AreNear homes }
    ensures { OnOk result (code.new.items ≡ code.old.items
        ++ test_code (home_by homes.entry) target test) }
{
    match test.right {
        Operand::Variable(_) => compare_registers(code, homes, target, test),
        Operand::Number(number) => {
            if as_immediate(homes, test.comparison, number) {
                fetch(code, homes, 5, test.left)?;
                let register = source(homes, 5, test.left);
                compare_number(code, test.comparison, target, register, number)
            } else {
                compare_registers(code, homes, target, test)
            }
        }
    }
}

/// The address of a byte of the frame in common memory.
fn frame_code(code: &mut Vec<Inst>, target: u8, offset: u32) -> Result<(), AllocError>
    ensures { OnOk result (code.new.items ≡ code.old.items ++ frame_code target offset) }
{
    if is_immediate(offset) {
        code.extend_from_slice(&[Inst::Addi(target, 3, lower(offset))])
    } else {
        number_code(code, 5, offset)?;
        code.extend_from_slice(&[Inst::Add(target, 3, 5)])
    }
}

/// A value goes into a register.
pub fn value_code(
    code: &mut Vec<Inst>,
    homes: HomeTable,
    target: u8,
    value: Value,
) -> Result<(), AllocError>
    requires { AreNear homes }
    ensures { OnOk result (code.new.items ≡ code.old.items
        ++ value_code (home_by homes.entry) target value) }
{
    match value {
        Value::Same(operand) => move_code(code, homes, target, operand),
        Value::Extended(kind, operand) => {
            fetch(code, homes, 5, operand)?;
            extend(code, kind, target, source(homes, 5, operand))
        }
        Value::Binary(operator, left, right) => {
            binary_code(code, homes, target, operator, left, right)
        }
        Value::Holds(test) => test_code(code, homes, target, test),
        Value::FrameAddress(offset) => frame_code(code, target, offset),
    }
}

/// The block that sets a variable.
pub fn set_code(
    code: &mut Vec<Inst>,
    homes: HomeTable,
    variable: u32,
    value: Value,
) -> Result<(), AllocError>
    requires { AreNear homes }
    ensures { OnOk result (code.new.items ≡ code.old.items
        ++ (value_code (home_by homes.entry) (register_or 5 (home_by homes.entry variable)) value
        ++ keep (home_by homes.entry variable))) }
{
    let home = home_of(homes, variable);
    value_code(code, homes, register_or(5, home), value)?;
    keep(code, home)
}
