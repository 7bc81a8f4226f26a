// Whether the variables and functions that statements name are there.

ghost use Rattle.std.specs.Prelude.{◌↔◌, length, slice_get, IsTrue};
ghost use Rattle.std.specs.List.{AllByRecursion};
ghost use Rattle.dae_ir.specs.Code.{Each, Done};
ghost use Rattle.dae_ir.specs.Form.{before, form_of};
ghost use Rattle.dae_ir.specs.Scope.{IsIn, IsTarget, TestIn, ValueIn, CheckIn, TakesArguments, ItemIn};

use dae_ir::{Check, Function, Item, Operand, Statement, Value};

fn is_in(variables: u32, operand: Operand) -> bool
    ensures { IsTrue result ↔ IsIn variables operand }
{
    match operand {
        Operand::Variable(variable) => variable < variables,
        Operand::Number(_) => true,
    }
}

// The variable is there, and isn't that of the result.
fn is_target(variables: u32, variable: u32) -> bool
    ensures { IsTrue result ↔ IsTarget variables variable }
{
    0 < variable && variable < variables
}

fn are_in(variables: u32, first: Operand, second: Operand) -> bool
    ensures { IsTrue result ↔ (IsIn variables first × IsIn variables second) }
{
    is_in(variables, first) && is_in(variables, second)
}

fn all_in(variables: u32, operands: &[Operand]) -> bool
    ensures { IsTrue result ↔ AllByRecursion (IsIn variables) operands.now }
{
    for operand in operands {
        if !is_in(variables, *operand) {
            return false;
        }
    }
    true
}

fn value_in(variables: u32, value: Value) -> bool
    ensures { IsTrue result ↔ ValueIn variables value }
{
    match value {
        Value::Same(x) => is_in(variables, x),
        Value::Extended(_, x) => is_in(variables, x),
        Value::Binary(_, x, y) => are_in(variables, x, y),
        Value::Holds(test) => are_in(variables, test.left, test.right),
        Value::FrameAddress(_) => true,
    }
}

fn check_in(functions: &[Function], variables: u32, check: Check) -> bool
    ensures { IsTrue result ↔ CheckIn (length functions.now) variables check }
{
    match check {
        Check::Place(_, x) => is_in(variables, x),
        Check::InBounds(x, offset) => is_in(variables, x) && offset < 2048,
        Check::Zero(x) => is_in(variables, x),
        Check::Room(function) => (function as usize) < functions.len(),
        Check::Frame => true,
        Check::Abort => true,
    }
}

// A call gives as many arguments as the function has parameters.
fn takes(functions: &[Function], callee: u32, count: usize) -> bool
    ensures { IsTrue result ↔ TakesArguments (slice_get functions.now callee) count }
{
    match functions.get(callee as usize) {
        Some(function) => count == function.parameters as usize,
        None => false,
    }
}

fn call_in(functions: &[Function], variables: u32, callee: u32, arguments: &[Operand]) -> bool
    ensures { IsTrue result
        ↔ (TakesArguments (slice_get functions.now callee) (length arguments.now)
        × AllByRecursion (IsIn variables) arguments.now) }
{
    takes(functions, callee, arguments.len()) && all_in(variables, arguments)
}

fn item_in(functions: &[Function], variables: u32, item: &Item) -> bool
    ensures { IsTrue result ↔ ItemIn functions.now variables item.now }
{
    match item {
        Item::Assign(v, x) => is_target(variables, *v) && value_in(variables, *x),
        Item::Load(v, _, x) => is_target(variables, *v) && is_in(variables, *x),
        Item::Store(_, x, y) => are_in(variables, *x, *y),
        Item::Print(_, x) => is_in(variables, *x),
        Item::Expect(check) => check_in(functions, variables, *check),
        Item::Break => true,
        Item::Continue => true,
        Item::Call(v, callee, arguments) => {
            is_target(variables, *v) && call_in(functions, variables, *callee, arguments.as_slice())
        }
        Item::Return(x) => is_in(variables, *x),
        Item::Halt(x) => is_in(variables, *x),
    }
}

#[cycle(names)]
fn statement_in(functions: &[Function], variables: u32, statement: &Statement) -> bool
    ensures { IsTrue result
        ↔ Each (ItemIn functions.now variables) (TestIn variables) (before statement.now Done) }
{
    match statement {
        Statement::Simple(_, item) => item_in(functions, variables, item),
        Statement::If(_, test, yes, no) => {
            are_in(variables, test.left, test.right)
                && (names_in(functions, variables, yes) && names_in(functions, variables, no))
        }
        Statement::Loop(_, body, step) => {
            names_in(functions, variables, body) && names_in(functions, variables, step)
        }
    }
}

/// Whether each variable that statements name is below the number of variables, none but a return sets variable 0, each
/// function is there, and each call gives as many arguments as its function has parameters.
#[cycle(names)]
pub fn names_in(functions: &[Function], variables: u32, statements: &[Statement]) -> bool
    ensures { IsTrue result
        ↔ Each (ItemIn functions.now variables) (TestIn variables) (form_of statements.now) }
{
    for statement in statements {
        if !statement_in(functions, variables, statement) {
            return false;
        }
    }
    true
}
