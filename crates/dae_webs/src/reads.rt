// What is read, renamed.

ghost use Rattle.std.specs.Prelude.{◌≡◌, true, IfOk};
ghost use Rattle.dae_ir.specs.Classes.{has, has_check, has_test, has_value};
ghost use Rattle.dae_ir.specs.SetFirst.{AllRead};
ghost use Rattle.dae_webs.specs.Current.{has_web};
ghost use Rattle.dae_webs.specs.Renamed.{renamed_check, renamed_operand, renamed_operands, renamed_test, renamed_value};

use crate::plan::written_as;
use dae_base::Items;
use dae_ir::{Check, NotChanged, Operand, Test, Value};
use std::alloc::Global;

/// An operand by the current webs.
pub fn rename_operand(webs: &[Option<u32>], x: Operand) -> Result<Operand, NotChanged>
    ensures renamed { IfOk result (λ y. y ≡ renamed_operand webs.now x) }
    ensures known { IfOk result (λ _. has (has_web webs.now) x ≡ true) }
{
    match x {
        Operand::Variable(variable) => {
            let web = written_as(webs, variable)?;
            Ok(Operand::Variable(web))
        }
        Operand::Number(number) => Ok(Operand::Number(number)),
    }
}

/// A condition by the current webs.
pub fn rename_test(webs: &[Option<u32>], test: Test) -> Result<Test, NotChanged>
    ensures renamed { IfOk result (λ t. t ≡ renamed_test webs.now test) }
    ensures known { IfOk result (λ _. has_test (has_web webs.now) test ≡ true) }
{
    let left = rename_operand(webs, test.left)?;
    let right = rename_operand(webs, test.right)?;
    Ok(Test {
        comparison: test.comparison,
        left,
        right,
    })
}

/// What is assigned, by the current webs.
pub fn rename_value(webs: &[Option<u32>], value: Value) -> Result<Value, NotChanged>
    ensures renamed { IfOk result (λ y. y ≡ renamed_value webs.now value) }
    ensures known { IfOk result (λ _. has_value (has_web webs.now) value ≡ true) }
{
    match value {
        Value::Same(x) => {
            let x = rename_operand(webs, x)?;
            Ok(Value::Same(x))
        }
        Value::Extended(kind, x) => {
            let x = rename_operand(webs, x)?;
            Ok(Value::Extended(kind, x))
        }
        Value::Binary(operator, x, y) => {
            let x = rename_operand(webs, x)?;
            let y = rename_operand(webs, y)?;
            Ok(Value::Binary(operator, x, y))
        }
        Value::Holds(test) => {
            let test = rename_test(webs, test)?;
            Ok(Value::Holds(test))
        }
        Value::FrameAddress(offset) => Ok(Value::FrameAddress(offset)),
    }
}

/// A check by the current webs.
pub fn rename_check(webs: &[Option<u32>], check: Check) -> Result<Check, NotChanged>
    ensures renamed { IfOk result (λ y. y ≡ renamed_check webs.now check) }
    ensures known { IfOk result (λ _. has_check (has_web webs.now) check ≡ true) }
{
    match check {
        Check::Place(width, x) => {
            let x = rename_operand(webs, x)?;
            Ok(Check::Place(width, x))
        }
        Check::InBounds(x, offset) => {
            let x = rename_operand(webs, x)?;
            Ok(Check::InBounds(x, offset))
        }
        Check::Zero(x) => {
            let x = rename_operand(webs, x)?;
            Ok(Check::Zero(x))
        }
        Check::Room(function) => Ok(Check::Room(function)),
        Check::Frame => Ok(Check::Frame),
        Check::Abort => Ok(Check::Abort),
    }
}

/// Arguments by the current webs.
pub fn rename_operands(
    alloc: Global,
    webs: &[Option<u32>],
    xs: &[Operand],
) -> Result<Items<Operand>, NotChanged>
    ensures renamed { IfOk result (λ ys. ys ≡ renamed_operands webs.now xs.now) }
    ensures known { IfOk result (λ _. AllRead (has_web webs.now) xs.now) }
{
    let mut ys = Vec::new(alloc);
    for x in xs {
        let y = rename_operand(webs, *x)?;
        ys.push(y)?;
    }
    Ok(Items::from_vec(ys))
}
