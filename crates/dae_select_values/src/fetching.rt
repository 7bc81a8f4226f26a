// How numbers, words of the private frame and operands come into registers, and how results go home.

ghost use Rattle.std.specs.Prelude.{◌≡◌, ◌<◌, ◌^◌, ◌*◌, ◌+◌, ◌++◌, OnOk};
ghost use Rattle.dae_select_blocks.specs.Blocks.{upper, lower, is_immediate, number_code, load_code, store_code, source, register_or, number_or, fetch, fetch_home, fetch_number, move_code, keep};
ghost use Rattle.dae_select_values.specs.Tables.{IsNear, AreNear, home_by};

use crate::tables::{HomeTable, home_of, resident};
use dae_encode::Inst;
use dae_ir::Operand;
use dae_select_walks::Home;
use std::alloc::AllocError;

/// The part of a word for LUI: with the signed low part it makes the word.
#[tactic(auto, unfolding(dae_select_blocks::specs::Blocks::upper))]
pub fn upper(word: u32) -> i32
    ensures { result ≡ upper word }
{
    let high = (u64::from(word) + 2048) / 4096 * 4096 % 4_294_967_296;
    (high as u32).cast_signed()
}

/// The low twelve bits of a word as a signed number.
#[tactic(auto, unfolding(dae_select_blocks::specs::Blocks::lower))]
pub fn lower(word: u32) -> i32
    ensures { result ≡ lower word }
{
    let low = (word % 4096) as i32;
    if low < 2048 { low } else { low - 4096 }
}

/// Whether the immediate of an instruction can be this number: as a signed one it has twelve bits.
#[tactic(auto, unfolding(dae_select_blocks::specs::Blocks::is_immediate))]
pub fn is_immediate(number: u32) -> bool
    ensures { result ≡ is_immediate number }
{
    number.wrapping_add(2048) < 4096
}

/// A number goes into a register.
pub fn number_code(code: &mut Vec<Inst>, register: u8, number: u32) -> Result<(), AllocError>
    ensures { OnOk result (code.new.items ≡ code.old.items ++ number_code register number) }
{
    if is_immediate(number) {
        code.extend_from_slice(&[Inst::Addi(register, 0, lower(number))])
    } else if number % 4096 == 0 {
        code.extend_from_slice(&[Inst::Lui(register, upper(number))])
    } else {
        code.extend_from_slice(&[
            Inst::Lui(register, upper(number)),
            Inst::Addi(register, register, lower(number)),
        ])
    }
}

/// A word of the frame goes into a register.
pub fn load_code(code: &mut Vec<Inst>, register: u8, index: u32) -> Result<(), AllocError>
    requires { index < 2 ^ 28 }
    ensures { OnOk result (code.new.items ≡ code.old.items ++ load_code register index) }
{
    if index < 512 {
        code.extend_from_slice(&[Inst::Lw(register, 2, (4 * index) as i32)])
    } else {
        code.extend_from_slice(&[
            Inst::Lui(register, upper(4 * index)),
            Inst::Add(register, register, 2),
            Inst::Lw(register, register, lower(4 * index)),
        ])
    }
}

/// A register goes into a word of the frame.
pub fn store_code(code: &mut Vec<Inst>, register: u8, index: u32) -> Result<(), AllocError>
    requires { index < 2 ^ 28 }
    ensures { OnOk result (code.new.items ≡ code.old.items ++ store_code register index) }
{
    if index < 512 {
        code.extend_from_slice(&[Inst::Sw(2, register, (4 * index) as i32)])
    } else {
        code.extend_from_slice(&[
            Inst::Lui(7, upper(4 * index)),
            Inst::Add(7, 7, 2),
            Inst::Sw(7, register, lower(4 * index)),
        ])
    }
}

/// A register, or else the one for work.
fn number_or(register: u8, resident: Option<u8>) -> u8
    ensures { result ≡ number_or register resident }
{
    match resident {
        Some(other) => other,
        None => register,
    }
}

/// The register that an operand is in behind its fetching. The number 0 is in x0, and another may stay in a register.
pub fn source(homes: HomeTable, register: u8, operand: Operand) -> u8
    ensures { result ≡ source (home_by homes.entry) register operand }
{
    match operand {
        Operand::Variable(variable) => register_or(register, home_of(homes, variable)),
        Operand::Number(0) => 0,
        Operand::Number(number) => number_or(register, resident(homes, number)),
    }
}

/// The register of a home, or the one for work.
pub fn register_or(register: u8, home: Home) -> u8
    ensures { result ≡ register_or register home }
{
    match home {
        Home::Register(other) => other,
        Home::Slot(_) => register,
    }
}

/// An operand goes into a register.
pub fn fetch(
    code: &mut Vec<Inst>,
    homes: HomeTable,
    register: u8,
    operand: Operand,
) -> Result<(), AllocError>
    requires { AreNear homes }
    ensures { OnOk result (code.new.items ≡ code.old.items
        ++ fetch (home_by homes.entry) register operand) }
{
    match operand {
        Operand::Variable(variable) => fetch_home(code, register, home_of(homes, variable)),
        Operand::Number(0) => Ok(()),
        Operand::Number(number) => fetch_number(code, register, number, resident(homes, number)),
    }
}

/// A number goes into a register, unless it stays in one.
fn fetch_number(
    code: &mut Vec<Inst>,
    register: u8,
    number: u32,
    resident: Option<u8>,
) -> Result<(), AllocError>
    ensures { OnOk result (code.new.items ≡ code.old.items
        ++ fetch_number register number resident) }
{
    match resident {
        Some(_) => Ok(()),
        None => number_code(code, register, number),
    }
}

fn fetch_home(code: &mut Vec<Inst>, register: u8, home: Home) -> Result<(), AllocError>
    requires { IsNear home }
    ensures { OnOk result (code.new.items ≡ code.old.items ++ fetch_home register home) }
{
    match home {
        Home::Register(_) => Ok(()),
        Home::Slot(slot) => load_code(code, register, 19 + slot),
    }
}

/// An operand goes into a register, which may stand for a queue: only the last instruction writes it.
pub fn move_code(
    code: &mut Vec<Inst>,
    homes: HomeTable,
    target: u8,
    operand: Operand,
) -> Result<(), AllocError>
    requires { AreNear homes }
    ensures { OnOk result (code.new.items ≡ code.old.items
        ++ move_code (home_by homes.entry) target operand) }
{
    match operand {
        Operand::Variable(variable) => {
            let home = home_of(homes, variable);
            fetch_home(code, 5, home)?;
            code.extend_from_slice(&[Inst::Addi(target, register_or(5, home), 0)])
        }
        Operand::Number(number) => {
            if is_immediate(number) {
                code.extend_from_slice(&[Inst::Addi(target, 0, lower(number))])
            } else {
                code.extend_from_slice(&[
                    Inst::Lui(5, upper(number)),
                    Inst::Addi(target, 5, lower(number)),
                ])
            }
        }
    }
}

/// A result in its register, or in x5, goes home.
pub fn keep(code: &mut Vec<Inst>, home: Home) -> Result<(), AllocError>
    requires { IsNear home }
    ensures { OnOk result (code.new.items ≡ code.old.items ++ keep home) }
{
    match home {
        Home::Register(_) => Ok(()),
        Home::Slot(slot) => store_code(code, 5, 19 + slot),
    }
}
