// Parts of expressions that hold no others.

ghost use Rattle.std.specs.Prelude.{◌≡◌, IfOk, Some};
ghost use Rattle.dae_base.specs.Words.{plus};
ghost use Rattle.dae_ir.specs.Form.{form_of};
ghost use Rattle.dae_ir.specs.declared.form.Item.TheVariants.{Assign};
ghost use Rattle.dae_ir.specs.declared.form.Operand.TheVariants.{Number};
ghost use Rattle.dae_ir.specs.declared.form.Value.TheVariants.{Same};
ghost use Rattle.dae_lower.specs.Lowering.{isnt_zero, one, turn};
ghost use Rattle.dae_lower_expressions.specs.Lowered.{links_in};
ghost use Rattle.dae_lower_maker.specs.Making.{condition_of};
ghost use Rattle.dae_program.specs.Resolved.{address_in, callee_in};

use dae_base::Place;
use dae_ir::{Item, Operand, Statement, Test, Value};
use dae_lower_maker::Condition;
use dae_meaning::Comparison;
use dae_program::Links;
use std::alloc::{AllocError, Global};

/// What an expression in a branch is for: a variable gets its value, or 1 or 0 as it isn't or is 0, or its effects are
/// wanted.
#[derive(Clone, Copy)]
pub enum BranchPurpose {
    Value(Place, u32),
    Truth(Place, u32),
    Effect,
}

fn object_address(links: &Links, object: u32) -> u32
    ensures { result ≡ address_in (Some links.now) object }
{
    match links.addresses.as_slice().get(object as usize) {
        Some(address) => *address,
        None => 0,
    }
}

/// The address of a place in an object of a file.
pub fn address(links: &Links, object: u32, offset: u32) -> u32
    ensures { result ≡ plus (address_in (Some links.now) object) offset }
{
    object_address(links, object).wrapping_add(offset)
}

/// The program's number of a function of a file, or that of none.
pub fn callee(none: u32, links: &Links, function: u32) -> u32
    ensures { result ≡ callee_in none (Some links.now) function }
{
    match links.functions.as_slice().get(function as usize) {
        Some(callee) => *callee,
        None => none,
    }
}

/// A variable gets a number.
pub fn constant(
    alloc: Global,
    place: Place,
    v: u32,
    number: u32,
) -> Result<Vec<Statement>, AllocError>
    ensures { IfOk result
        (λ block. form_of block.items ≡ one place (Assign v (Same (Number number)))) }
{
    let mut block = Vec::new(alloc);
    let value = Value::Same(Operand::Number(number));
    block.push(Statement::Simple(place, Item::Assign(v, value)))?;
    Ok(block)
}

/// A number is a condition where it isn't 0.
pub fn nonzero(x: Operand) -> Condition
    ensures { condition_of result ≡ isnt_zero x }
{
    Condition {
        test: Test {
            comparison: Comparison::NotEqual,
            left: x,
            right: Operand::Number(0),
        },
        turned: false,
    }
}

/// The other way round.
pub fn turn(condition: Condition) -> Condition
    ensures { condition_of result ≡ turn (condition_of condition) }
{
    Condition {
        test: condition.test,
        turned: !condition.turned,
    }
}
