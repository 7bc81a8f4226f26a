// Which conditions may be threaded: what they test, what the ends of the list before them give the variable, and how often their
// lists would stand.

ghost use Rattle.std.specs.Prelude.{◌≡◌, ◌+◌, ◌≤◌, Some, IfOk, OnOk};
ghost use Rattle.dae_ir.specs.Code.{Done};
ghost use Rattle.dae_ir.specs.Form.{before, form_of};
ghost use Rattle.dae_threads.specs.Threaded.{IsSpread, is_light};
ghost use Rattle.dae_threads.specs.Walked as spec;

use dae_ir::{Item, NotChanged, Operand, Statement, Test, Value};
use dae_meaning::Comparison;

fn beside_zero(x: Operand, y: Operand) -> Result<u32, NotChanged>
    ensures { IfOk result (λ v. spec.beside_zero x y ≡ Some v) }
{
    match x {
        Operand::Variable(variable) => match y {
            Operand::Number(number) => {
                if number == 0 {
                    Ok(variable)
                } else {
                    Err(NotChanged::Kept)
                }
            }
            Operand::Variable(_) => Err(NotChanged::Kept),
        },
        Operand::Number(_) => Err(NotChanged::Kept),
    }
}

/// The variable of which a condition asks whether it isn't 0.
pub fn tested_variable(test: Test) -> Result<u32, NotChanged>
    ensures { IfOk result (λ v. spec.nonzero_tested test.comparison test.left test.right ≡ Some v) }
{
    match test.comparison {
        Comparison::NotEqual => beside_zero(test.left, test.right),
        Comparison::Equal => Err(NotChanged::Kept),
        Comparison::LessSigned | Comparison::AtLeastSigned => Err(NotChanged::Kept),
        Comparison::LessUnsigned | Comparison::AtLeastUnsigned => Err(NotChanged::Kept),
    }
}

fn number_assigned(variable: u32, set: u32, value: Value) -> Result<u32, NotChanged>
    ensures { IfOk result (λ n. spec.number_assigned variable set value ≡ Some n) }
{
    match value {
        Value::Same(Operand::Number(number)) => {
            if set == variable {
                Ok(number)
            } else {
                Err(NotChanged::Kept)
            }
        }
        Value::Same(Operand::Variable(_)) => Err(NotChanged::Kept),
        Value::Extended(_, _) | Value::Binary(_, _, _) => Err(NotChanged::Kept),
        Value::Holds(_) | Value::FrameAddress(_) => Err(NotChanged::Kept),
    }
}

/// The number that an item gives the variable.
pub fn number_given(variable: u32, item: &Item) -> Result<u32, NotChanged>
    ensures { IfOk result (λ n. spec.number_given variable item.now ≡ Some n) }
{
    match item {
        Item::Assign(set, value) => number_assigned(variable, *set, *value),
        Item::Load(_, _, _) | Item::Store(_, _, _) => Err(NotChanged::Kept),
        Item::Print(_, _) | Item::Expect(_) => Err(NotChanged::Kept),
        Item::Break | Item::Continue => Err(NotChanged::Kept),
        Item::Call(_, _, _) | Item::Return(_) | Item::Halt(_) => Err(NotChanged::Kept),
    }
}

/// How many ends of a list give a variable another number than 0, and how many give it 0.
#[derive(Clone, Copy)]
struct EndCounts {
    firsts: u64,
    seconds: u64,
}

fn end_with(number: u32) -> EndCounts {
    if number == 0 {
        EndCounts {
            firsts: 0,
            seconds: 1,
        }
    } else {
        EndCounts {
            firsts: 1,
            seconds: 0,
        }
    }
}

/// The ends of a list, each of which gives the variable a number.
fn count_ends(variable: u32, statements: &[Statement]) -> Result<EndCounts, NotChanged> {
    if statements.is_empty() {
        return Err(NotChanged::Kept);
    }
    let last = statements.len() - 1;
    match &statements[last] {
        Statement::Simple(_, item) => {
            let number = number_given(variable, item)?;
            Ok(end_with(number))
        }
        Statement::If(_, _, first, second) => {
            let one = count_ends(variable, first)?;
            let other = count_ends(variable, second)?;
            Ok(EndCounts {
                firsts: one.firsts.saturating_add(other.firsts),
                seconds: one.seconds.saturating_add(other.seconds),
            })
        }
        Statement::Loop(_, _, _) => Err(NotChanged::Kept),
    }
}

fn is_light(item: &Item) -> bool
    ensures { result ≡ is_light item.now }
{
    match item {
        Item::Load(_, _, _) | Item::Call(_, _, _) => false,
        Item::Assign(_, _) | Item::Store(_, _, _) | Item::Print(_, _) => true,
        Item::Expect(_) | Item::Break | Item::Continue => true,
        Item::Return(_) | Item::Halt(_) => true,
    }
}

// A statement that stands twice.
fn simple_cost(statement: &Statement) -> Result<u64, NotChanged>
    ensures { IfOk result (λ more. IsSpread 2 (before statement.now Done) more) }
{
    match statement {
        Statement::Simple(_, item) => {
            if is_light(item) {
                Ok(1)
            } else {
                Err(NotChanged::Kept)
            }
        }
        Statement::If(_, _, _, _) | Statement::Loop(_, _, _) => Err(NotChanged::Kept),
    }
}

// A list that stands any number of times.
fn empty_cost(count: u64, statements: &[Statement]) -> Result<u64, NotChanged>
    ensures { IfOk result (λ more. IsSpread count (form_of statements.now) more) }
{
    if statements.is_empty() {
        Ok(0)
    } else {
        Err(NotChanged::Kept)
    }
}

// A list that stands twice.
fn double_cost(statements: &[Statement]) -> Result<u64, NotChanged>
    ensures { IfOk result (λ more. IsSpread 2 (form_of statements.now) more) }
{
    if statements.len() == 1 {
        return simple_cost(&statements[0]);
    }
    empty_cost(2, statements)
}

/// How many items more there are in a list that stands so many times than in one: one at most.
pub fn spread_cost(count: u64, statements: &[Statement]) -> Result<u64, NotChanged>
    ensures { IfOk result (λ more. IsSpread count (form_of statements.now) more) }
{
    if count <= 1 {
        return Ok(0);
    }
    if count == 2 {
        return double_cost(statements);
    }
    empty_cost(count, statements)
}

/// The sum of two counts.
pub fn add_counts(one: u64, other: u64) -> Result<u64, NotChanged>
    ensures { IfOk result (λ sum. sum ≡ one + other) }
{
    one.checked_add(other).ok_or(NotChanged::Kept)
}

/// Both lists of a condition together have at most one item more.
pub fn keep_small(more: u64, further: u64) -> Result<(), NotChanged>
    ensures { OnOk result (more + further ≤ 1) }
{
    let sum = add_counts(more, further)?;
    if sum <= 1 {
        Ok(())
    } else {
        Err(NotChanged::Kept)
    }
}

/// Whether the lists of a condition will have at most one item more where they stand at the ends of two lists.
pub fn expect_small(
    variable: u32,
    p: &[Statement],
    q: &[Statement],
    yes: &[Statement],
    no: &[Statement],
) -> Result<(), NotChanged> {
    let one = count_ends(variable, p)?;
    let other = count_ends(variable, q)?;
    let more = spread_cost(one.firsts.saturating_add(other.firsts), yes)?;
    let further = spread_cost(one.seconds.saturating_add(other.seconds), no)?;
    keep_small(more, further)
}
