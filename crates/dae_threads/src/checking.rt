// Checks that come before sums: where a variable gets the sum of another one and a number, and the byte there is checked next, the
// byte so many bytes behind the other variable may be checked before it. The number may stand first in the sum, as the address of an
// array does; it stands last in what is written.

ghost use Rattle.std.specs.Prelude.{◌≡◌, ◌<◌, IfOk, OnOk};
ghost use Rattle.dae_base.specs.declared.Width.TheVariants.{B1};
ghost use Rattle.dae_ir.specs.declared.form.Check.TheVariants.{Place as Good};
ghost use Rattle.dae_ir.specs.declared.form.Item.TheVariants.{Assign, Expect};
ghost use Rattle.dae_ir.specs.declared.form.Operand.TheVariants.{Variable};
ghost use Rattle.dae_ir.specs.declared.form.Statement.TheVariants.{Simple};
ghost use Rattle.dae_threads.specs.Threaded.{gives_sum};
ghost use Rattle.dae_threads.specs.Walked.{AreExchanged, item_in_order, statement_in_order, sum_in_order, value_in_order};

use dae_base::{Place, Width};
use dae_ir::{Check, Item, NotChanged, Operand, Statement, Value};
use dae_meaning::Operator;

/// A statement that gives a variable the sum of another one and a number.
#[derive(Clone, Copy)]
pub struct SumGiven {
    pub place: Place,
    pub target: u32,
    pub variable: u32,
    pub offset: u32,
}

/// A statement that checks whether the byte is in memory whose address a variable is.
#[derive(Clone, Copy)]
pub struct ByteChecked {
    pub place: Place,
    pub variable: u32,
}

/// A check, and the sum that comes behind it.
#[derive(Drop)]
pub struct CheckedSum {
    pub check: Statement,
    pub sum: Statement,
}

fn sum_of_operands(
    place: Place,
    target: u32,
    x: Operand,
    y: Operand,
) -> Result<SumGiven, NotChanged>
    ensures { IfOk result (λ sum. Simple place (Assign target (sum_in_order x y))
        ≡ Simple sum.place (gives_sum sum.target (Variable sum.variable) sum.offset)) }
{
    match x {
        Operand::Variable(variable) => match y {
            Operand::Number(offset) => Ok(SumGiven {
                place,
                target,
                variable,
                offset,
            }),
            Operand::Variable(_) => Err(NotChanged::Kept),
        },
        Operand::Number(offset) => match y {
            Operand::Variable(variable) => Ok(SumGiven {
                place,
                target,
                variable,
                offset,
            }),
            Operand::Number(_) => Err(NotChanged::Kept),
        },
    }
}

fn sum_of_value(place: Place, target: u32, value: Value) -> Result<SumGiven, NotChanged>
    ensures { IfOk result (λ sum. Simple place (Assign target (value_in_order value))
        ≡ Simple sum.place (gives_sum sum.target (Variable sum.variable) sum.offset)) }
{
    match value {
        Value::Binary(Operator::Add, x, y) => sum_of_operands(place, target, x, y),
        _ => Err(NotChanged::Kept),
    }
}

fn sum_of_item(place: Place, item: &Item) -> Result<SumGiven, NotChanged>
    ensures { IfOk result (λ sum. Simple place (item_in_order item.now)
        ≡ Simple sum.place (gives_sum sum.target (Variable sum.variable) sum.offset)) }
{
    match item {
        Item::Assign(target, value) => sum_of_value(place, *target, *value),
        _ => Err(NotChanged::Kept),
    }
}

fn sum_of_statement(statement: &Statement) -> Result<SumGiven, NotChanged>
    ensures { IfOk result (λ sum. statement_in_order statement.now
        ≡ Simple sum.place (gives_sum sum.target (Variable sum.variable) sum.offset)) }
{
    match statement {
        Statement::Simple(place, item) => sum_of_item(*place, item),
        Statement::If(_, _, _, _) | Statement::Loop(_, _, _) => Err(NotChanged::Kept),
    }
}

fn byte_of_check(place: Place, check: Check) -> Result<ByteChecked, NotChanged>
    ensures { IfOk result (λ byte. Simple place (Expect check)
        ≡ Simple byte.place (Expect (Good B1 (Variable byte.variable)))) }
{
    match check {
        Check::Place(Width::B1, Operand::Variable(variable)) => Ok(ByteChecked { place, variable }),
        _ => Err(NotChanged::Kept),
    }
}

fn byte_of_item(place: Place, item: &Item) -> Result<ByteChecked, NotChanged>
    ensures { IfOk result (λ byte. Simple place item.now
        ≡ Simple byte.place (Expect (Good B1 (Variable byte.variable)))) }
{
    match item {
        Item::Expect(check) => byte_of_check(place, *check),
        _ => Err(NotChanged::Kept),
    }
}

fn byte_of_statement(statement: &Statement) -> Result<ByteChecked, NotChanged>
    ensures { IfOk result (λ byte. statement.now
        ≡ Simple byte.place (Expect (Good B1 (Variable byte.variable)))) }
{
    match statement {
        Statement::Simple(place, item) => byte_of_item(*place, item),
        Statement::If(_, _, _, _) | Statement::Loop(_, _, _) => Err(NotChanged::Kept),
    }
}

// The sum is what is checked, its number is an immediate of an instruction, and what is added to stays as it is.
fn expect_sum(sum: SumGiven, byte: ByteChecked) -> Result<(), NotChanged>
    ensures { OnOk result ((sum.target ≡ byte.variable) × (sum.offset < 2048)) }
{
    if sum.target == byte.variable && sum.variable != sum.target && sum.offset < 2048 {
        Ok(())
    } else {
        Err(NotChanged::Kept)
    }
}

/// The check and the sum that may come in place of a sum and a check behind it.
pub fn check_of_sum(statement: &Statement, next: &Statement) -> Result<CheckedSum, NotChanged>
    ensures { IfOk result (λ both. AreExchanged statement.now next.now both.check both.sum) }
{
    let sum = sum_of_statement(statement)?;
    let byte = byte_of_statement(next)?;
    expect_sum(sum, byte)?;
    let base = Operand::Variable(sum.variable);
    let check = Check::InBounds(base, sum.offset);
    let value = Value::Binary(Operator::Add, base, Operand::Number(sum.offset));
    Ok(CheckedSum {
        check: Statement::Simple(byte.place, Item::Expect(check)),
        sum: Statement::Simple(sum.place, Item::Assign(sum.target, value)),
    })
}
