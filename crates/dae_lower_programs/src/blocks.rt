// Short blocks: a break, a branch that leaves a loop, and a variable that goes up by one.

ghost use Rattle.std.specs.Prelude.{◌≡◌, IfOk};
ghost use Rattle.dae_ir.specs.Code.{Done};
ghost use Rattle.dae_ir.specs.Form.{before, form_of, Form};
ghost use Rattle.dae_ir.specs.declared.form.Item.TheVariants.{Assign, Break};
ghost use Rattle.dae_ir.specs.declared.form.Operand.TheVariants.{Number, Variable};
ghost use Rattle.dae_ir.specs.declared.form.Value.TheVariants.{Binary};
ghost use Rattle.dae_lower.specs.Lowering.{leaves_if_not, one};
ghost use Rattle.dae_meaning.specs.declared.Operator.TheVariants.{Add};

use dae_base::Place;
use dae_ir::{Item, Operand, Statement, Test, Value};
use dae_meaning::Operator;
use std::alloc::{AllocError, Global};

/// A block of one item.
pub fn single(alloc: Global, place: Place, item: Item) -> Result<Vec<Statement>, AllocError>
    ensures { IfOk result (λ block. form_of block.items ≡ one place item) }
{
    let mut block = Vec::new(alloc);
    block.push(Statement::Simple(place, item))?;
    Ok(block)
}

/// A branch with nothing in it and a break, which is taken where the test doesn't hold.
pub fn leave_if_not(alloc: Global, place: Place, test: Test) -> Result<Statement, AllocError>
    ensures { IfOk result (λ s. (k : Form) → before s k ≡ leaves_if_not place test k) }
{
    let stay = Vec::new(alloc);
    let leave = single(alloc, place, Item::Break)?;
    Ok(Statement::If(place, test, stay, leave))
}

/// A variable goes up by one.
pub fn go_up(alloc: Global, place: Place, v: u32) -> Result<Vec<Statement>, AllocError>
    ensures { IfOk result
        (λ block. form_of block.items ≡ one place (Assign v (Binary Add (Variable v) (Number 1)))) }
{
    let more = Value::Binary(Operator::Add, Operand::Variable(v), Operand::Number(1));
    let block = single(alloc, place, Item::Assign(v, more))?;
    Ok(block)
}
