// What is known in a stretch.

ghost use Rattle.std.specs.Prelude.{◌≡◌, ◌+◌, ◌-◌, ◌^◌, ◌<◌, OnOk};
ghost use Rattle.dae_alias.specs.Listed.{known_of};
ghost use Rattle.dae_alias.specs.Stretches as spec;

use crate::addresses::{Base, SymAddr};
use dae_ir::{Operand, Value};
use dae_meaning::Operator;
use indexmap::IndexMap;
use std::alloc::AllocError;

/// What a variable was set to last in a stretch, and how often it was set.
#[derive(Clone, Copy)]
pub struct Latest {
    pub value: SymAddr,
    pub times: usize,
}

/// The symbolic address of a variable, behind these sets.
fn value_of(sets: &IndexMap<u32, Latest>, variable: u32) -> SymAddr
    ensures { result ≡ (known_of sets.now).value variable }
{
    match sets.get(&variable) {
        Some(latest) => latest.value,
        None => SymAddr {
            base: Base::Variable(variable, 0),
            offset: 0,
        },
    }
}

/// How often it was set by them.
fn times_of(sets: &IndexMap<u32, Latest>, variable: u32) -> usize
    ensures { result ≡ (known_of sets.now).times variable }
{
    match sets.get(&variable) {
        Some(latest) => latest.times,
        None => 0,
    }
}

/// The symbolic address of an operand.
pub fn symbol(sets: &IndexMap<u32, Latest>, x: Operand) -> SymAddr
    ensures { result ≡ spec.symbol (known_of sets.now) x }
{
    match x {
        Operand::Variable(v) => value_of(sets, v),
        Operand::Number(k) => SymAddr {
            base: Base::Number,
            offset: k,
        },
    }
}

fn shift(x: SymAddr, k: u32) -> SymAddr
    ensures { result ≡ spec.shifted x k }
{
    SymAddr {
        base: x.base,
        offset: x.offset.wrapping_add(k),
    }
}

fn shift_back(x: SymAddr, k: u32) -> SymAddr
    ensures { result ≡ spec.shifted x (2 ^ 32 - k) }
{
    SymAddr {
        base: x.base,
        offset: x.offset.wrapping_sub(k),
    }
}

/// The symbolic address of what is assigned, where it can be followed.
fn follow(sets: &IndexMap<u32, Latest>, x: Value) -> Option<SymAddr>
    ensures { result ≡ spec.followed (known_of sets.now) x }
{
    match x {
        Value::Same(x) => Some(symbol(sets, x)),
        Value::Binary(Operator::Add, x, Operand::Number(k)) => Some(shift(symbol(sets, x), k)),
        Value::Binary(Operator::Add, Operand::Number(k), x) => Some(shift(symbol(sets, x), k)),
        Value::Binary(Operator::Subtract, x, Operand::Number(k)) => {
            Some(shift_back(symbol(sets, x), k))
        }
        Value::FrameAddress(offset) => Some(SymAddr {
            base: Base::Frame,
            offset,
        }),
        _ => None,
    }
}

/// What a variable gets that can't be followed.
pub fn new_base(sets: &IndexMap<u32, Latest>, variable: u32) -> SymAddr
    requires { (known_of sets.now).times variable + 1 < 2 ^ 64 }
    ensures { result ≡ spec.renewed (known_of sets.now) variable }
{
    SymAddr {
        base: Base::Variable(variable, times_of(sets, variable) + 1),
        offset: 0,
    }
}

/// The variable is set, to what may be followed.
pub fn set(
    sets: &mut IndexMap<u32, Latest>,
    variable: u32,
    x: Option<SymAddr>,
) -> Result<(), AllocError>
    requires { (known_of sets.old).times variable + 1 < 2 ^ 64 }
    ensures { OnOk result (known_of sets.new ≡ spec.set (known_of sets.old) variable x) }
{
    let value = match x {
        Some(value) => value,
        None => new_base(sets, variable),
    };
    let times = times_of(sets, variable) + 1;
    sets.insert(variable, Latest { value, times })?;
    Ok(())
}

/// It is set by an assignment.
pub fn assign(sets: &mut IndexMap<u32, Latest>, variable: u32, x: Value) -> Result<(), AllocError>
    requires { (known_of sets.old).times variable + 1 < 2 ^ 64 }
    ensures { OnOk result
        (known_of sets.new
        ≡ spec.set (known_of sets.old) variable (spec.followed (known_of sets.old) x)) }
{
    let value = follow(sets, x);
    set(sets, variable, value)
}
