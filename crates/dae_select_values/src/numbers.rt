// Instructions on a register and a number.

ghost use Rattle.std.specs.Prelude.{◌≡◌, ◌++◌, Some, None, if◌then◌else◌, OnOk};
ghost use Rattle.dae_base.specs.Words.{minus};
ghost use Rattle.dae_select_blocks.specs.Blocks.{is_immediate, exponent, power_code, immediate_code, commutes, exchanged_code, takes_number, compare_number_code, tell_number_code, more_code, less_code};
ghost use Rattle.dae_meaning.specs.declared.Comparison.TheVariants.{Equal, NotEqual};

use crate::fetching::{is_immediate, lower, number_code};
use dae_encode::Inst;
use dae_meaning::{Comparison, Operator};
use std::alloc::AllocError;

/// The word that adding subtracts the number.
fn negated(number: u32) -> u32
    ensures { result ≡ minus 0 number }
{
    0u32.wrapping_sub(number)
}

/// Which power of 2 a number is.
#[tactic(auto, unfolding(dae_select_blocks::specs::Blocks::exponent))]
fn exponent(number: u32) -> Option<u8>
    ensures { result ≡ exponent number }
{
    for power in (0..32u8).rev() {
        if number == 1u32.wrapping_shl(u32::from(power)) {
            return Some(power);
        }
    }
    None
}

/// The product with this power of 2.
fn power_inst(power: Option<u8>, target: u8, register: u8) -> Option<Inst>
    ensures { result ≡ power_code power target register }
{
    match power {
        None => None,
        Some(amount) => Some(Inst::Slli(target, register, i32::from(amount))),
    }
}

fn where_immediate(number: u32, inst: Inst) -> Option<Inst>
    ensures { result ≡ (if is_immediate number then Some inst else None) }
{
    if is_immediate(number) {
        Some(inst)
    } else {
        None
    }
}

/// An operation on a register and a number in one instruction, where there is one.
pub fn immediate(operator: Operator, target: u8, register: u8, number: u32) -> Option<Inst>
    ensures { result ≡ immediate_code operator target register number }
{
    let amount = (number % 32) as i32;
    match operator {
        Operator::Add => where_immediate(number, Inst::Addi(target, register, lower(number))),
        Operator::Subtract => {
            let added = negated(number);
            where_immediate(added, Inst::Addi(target, register, lower(added)))
        }
        Operator::Multiply => power_inst(exponent(number), target, register),
        Operator::DivideSigned => None,
        Operator::DivideUnsigned => None,
        Operator::RemainderSigned => None,
        Operator::RemainderUnsigned => None,
        Operator::And => where_immediate(number, Inst::Andi(target, register, lower(number))),
        Operator::Or => where_immediate(number, Inst::Ori(target, register, lower(number))),
        Operator::Xor => where_immediate(number, Inst::Xori(target, register, lower(number))),
        Operator::ShiftLeft => Some(Inst::Slli(target, register, amount)),
        Operator::ShiftRightSigned => Some(Inst::Srai(target, register, amount)),
        Operator::ShiftRightUnsigned => Some(Inst::Srli(target, register, amount)),
    }
}

/// Whether the operands may be exchanged.
fn commutes(operator: Operator) -> bool
    ensures { result ≡ commutes operator }
{
    match operator {
        Operator::Add => true,
        Operator::Multiply => true,
        Operator::And => true,
        Operator::Or => true,
        Operator::Xor => true,
        _ => false,
    }
}

/// An operation on a number and a register in one instruction, where there is one.
pub fn exchanged(operator: Operator, target: u8, register: u8, number: u32) -> Option<Inst>
    ensures { result ≡ exchanged_code operator target register number }
{
    if commutes(operator) {
        immediate(operator, target, register, number)
    } else {
        None
    }
}

/// Whether a comparison can have the number as an immediate.
pub fn takes_number(comparison: Comparison, number: u32) -> bool
    ensures { result ≡ takes_number comparison number }
{
    match comparison {
        Comparison::Equal => is_immediate(negated(number)),
        Comparison::NotEqual => is_immediate(negated(number)),
        Comparison::LessSigned => is_immediate(number),
        Comparison::AtLeastSigned => is_immediate(number),
        Comparison::LessUnsigned => is_immediate(number),
        Comparison::AtLeastUnsigned => is_immediate(number),
    }
}

fn equal_number(
    code: &mut Vec<Inst>,
    target: u8,
    register: u8,
    number: u32,
) -> Result<(), AllocError>
    ensures { OnOk result (code.new.items ≡ code.old.items
        ++ compare_number_code Equal target register number) }
{
    if number == 0 {
        code.extend_from_slice(&[Inst::Sltiu(target, register, 1)])
    } else {
        code.extend_from_slice(&[
            Inst::Addi(7, register, lower(negated(number))),
            Inst::Sltiu(target, 7, 1),
        ])
    }
}

fn different_number(
    code: &mut Vec<Inst>,
    target: u8,
    register: u8,
    number: u32,
) -> Result<(), AllocError>
    ensures { OnOk result (code.new.items ≡ code.old.items
        ++ compare_number_code NotEqual target register number) }
{
    if number == 0 {
        code.extend_from_slice(&[Inst::Sltu(target, 0, register)])
    } else {
        code.extend_from_slice(&[
            Inst::Addi(7, register, lower(negated(number))),
            Inst::Sltu(target, 0, 7),
        ])
    }
}

/// The comparison of a register with such a number, by x7.
pub fn compare_number(
    code: &mut Vec<Inst>,
    comparison: Comparison,
    target: u8,
    register: u8,
    number: u32,
) -> Result<(), AllocError>
    ensures { OnOk result (code.new.items ≡ code.old.items
        ++ compare_number_code comparison target register number) }
{
    let imm = lower(number);
    match comparison {
        Comparison::Equal => equal_number(code, target, register, number),
        Comparison::NotEqual => different_number(code, target, register, number),
        Comparison::LessSigned => code.extend_from_slice(&[Inst::Slti(target, register, imm)]),
        Comparison::AtLeastSigned => {
            code.extend_from_slice(&[Inst::Slti(7, register, imm), Inst::Xori(target, 7, 1)])
        }
        Comparison::LessUnsigned => code.extend_from_slice(&[Inst::Sltiu(target, register, imm)]),
        Comparison::AtLeastUnsigned => {
            code.extend_from_slice(&[Inst::Sltiu(7, register, imm), Inst::Xori(target, 7, 1)])
        }
    }
}

/// The same where the number is not 0 and the flag is told, which goes by x7 in any case.
pub fn tell_number(
    code: &mut Vec<Inst>,
    comparison: Comparison,
    register: u8,
    number: u32,
) -> Result<(), AllocError>
    ensures { OnOk result (code.new.items ≡ code.old.items
        ++ tell_number_code comparison register number) }
{
    let imm = lower(number);
    match comparison {
        Comparison::LessSigned => {
            code.extend_from_slice(&[Inst::Slti(7, register, imm), Inst::Addi(29, 7, 0)])
        }
        Comparison::LessUnsigned => {
            code.extend_from_slice(&[Inst::Sltiu(7, register, imm), Inst::Addi(29, 7, 0)])
        }
        _ => compare_number(code, comparison, 29, register, number),
    }
}

/// A register has so much more, by x5 where the number is no immediate.
pub fn more_code(code: &mut Vec<Inst>, register: u8, number: u32) -> Result<(), AllocError>
    ensures { OnOk result (code.new.items ≡ code.old.items ++ more_code register number) }
{
    if number == 0 {
        Ok(())
    } else if is_immediate(number) {
        code.extend_from_slice(&[Inst::Addi(register, register, lower(number))])
    } else {
        number_code(code, 5, number)?;
        code.extend_from_slice(&[Inst::Add(register, register, 5)])
    }
}

/// A register has so much less.
pub fn less_code(code: &mut Vec<Inst>, register: u8, number: u32) -> Result<(), AllocError>
    ensures { OnOk result (code.new.items ≡ code.old.items ++ less_code register number) }
{
    if number == 0 {
        Ok(())
    } else if is_immediate(negated(number)) {
        code.extend_from_slice(&[Inst::Addi(register, register, lower(negated(number)))])
    } else {
        number_code(code, 5, number)?;
        code.extend_from_slice(&[Inst::Sub(register, register, 5)])
    }
}
