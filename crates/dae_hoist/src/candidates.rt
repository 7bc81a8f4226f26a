// Which variables may hold values for loops, and which values don't change in a loop. What is found here is nowhere relied on.

use dae_ir::{Check, Function, Item, Operand, Statement, Test, Value};
use std::alloc::{AllocError, Global};

/// A flag for each variable.
pub fn no_flags(alloc: Global, variables: u32) -> Result<Vec<bool>, AllocError> {
    let mut flags = Vec::with_capacity(alloc, variables as usize)?;
    for _ in 0..variables {
        flags.push(false)?;
    }
    Ok(flags)
}

/// The flag of a variable.
pub fn has_flag(flags: &[bool], variable: u32) -> bool {
    match flags.get(variable as usize) {
        Some(flag) => *flag,
        None => false,
    }
}

/// A variable gets a flag.
pub fn set_flag(flags: &mut Vec<bool>, variable: u32) {
    if (variable as usize) < flags.len() {
        flags[variable as usize] = true;
    }
}

fn clear_flag(flags: &mut Vec<bool>, variable: u32) {
    if (variable as usize) < flags.len() {
        flags[variable as usize] = false;
    }
}

/// Variables have no flag any more.
pub fn clear_flags(flags: &mut Vec<bool>, variables: &[u32]) {
    for variable in variables {
        clear_flag(flags, *variable);
    }
}

/// By its number, whether a variable is taken: it is the result or a parameter, or is read, loaded into or called for, or assigned
/// more than once.
#[derive(Drop)]
struct TakenVariables {
    assigned: Vec<bool>,
    taken: Vec<bool>,
}

fn take_operand(taken: &mut TakenVariables, x: Operand) {
    if let Operand::Variable(variable) = x {
        set_flag(&mut taken.taken, variable);
    }
}

fn take_test(taken: &mut TakenVariables, test: Test) {
    take_operand(taken, test.left);
    take_operand(taken, test.right);
}

fn take_value(taken: &mut TakenVariables, value: Value) {
    match value {
        Value::Same(x) => take_operand(taken, x),
        Value::Extended(_, x) => take_operand(taken, x),
        Value::Binary(_, x, y) => {
            take_operand(taken, x);
            take_operand(taken, y);
        }
        Value::Holds(test) => take_test(taken, test),
        Value::FrameAddress(_) => {}
    }
}

fn take_check(taken: &mut TakenVariables, check: Check) {
    match check {
        Check::Place(_, x) => take_operand(taken, x),
        Check::InBounds(x, _) => take_operand(taken, x),
        Check::Zero(x) => take_operand(taken, x),
        Check::Room(_) | Check::Frame | Check::Abort => {}
    }
}

fn take_item(taken: &mut TakenVariables, item: &Item) {
    match item {
        Item::Assign(variable, value) => {
            if has_flag(&taken.assigned, *variable) {
                set_flag(&mut taken.taken, *variable);
            }
            set_flag(&mut taken.assigned, *variable);
            take_value(taken, *value);
        }
        Item::Load(variable, _, x) => {
            set_flag(&mut taken.taken, *variable);
            take_operand(taken, *x);
        }
        Item::Store(_, x, y) => {
            take_operand(taken, *x);
            take_operand(taken, *y);
        }
        Item::Print(_, x) => take_operand(taken, *x),
        Item::Expect(check) => take_check(taken, *check),
        Item::Call(variable, _, xs) => {
            set_flag(&mut taken.taken, *variable);
            for x in xs.as_slice() {
                take_operand(taken, *x);
            }
        }
        Item::Return(x) => take_operand(taken, *x),
        Item::Halt(x) => take_operand(taken, *x),
        Item::Break | Item::Continue => {}
    }
}

#[cycle(take)]
fn take_list(taken: &mut TakenVariables, statements: &[Statement]) {
    for statement in statements {
        take_statement(taken, statement);
    }
}

#[cycle(take)]
fn take_statement(taken: &mut TakenVariables, statement: &Statement) {
    match statement {
        Statement::Simple(_, item) => take_item(taken, item),
        Statement::If(_, test, first, second) => {
            take_test(taken, *test);
            take_list(taken, first);
            take_list(taken, second);
        }
        Statement::Loop(_, first, second) => {
            take_list(taken, first);
            take_list(taken, second);
        }
    }
}

/// The variables that may not hold values for loops.
pub fn taken_variables(alloc: Global, function: &Function) -> Result<Vec<bool>, AllocError> {
    let mut taken = TakenVariables {
        assigned: no_flags(alloc, function.variables)?,
        taken: no_flags(alloc, function.variables)?,
    };
    set_flag(&mut taken.taken, 0);
    for parameter in 0..function.parameters {
        set_flag(&mut taken.taken, parameter.wrapping_add(1));
    }
    take_list(&mut taken, function.body.as_slice());
    Ok(taken.taken)
}

/// The variable that an item sets.
pub fn variable_set(item: &Item) -> Option<u32> {
    match item {
        Item::Assign(variable, _) => Some(*variable),
        Item::Load(variable, _, _) => Some(*variable),
        Item::Call(variable, _, _) => Some(*variable),
        _ => None,
    }
}

/// A variable gets a number.
pub fn stamp(stamps: &mut Vec<u32>, number: u32, variable: u32) {
    if (variable as usize) < stamps.len() {
        stamps[variable as usize] = number;
    }
}

/// Whether statements hold a loop.
#[cycle(holds)]
pub fn holds_loop(statements: &[Statement]) -> bool {
    for statement in statements {
        if is_or_holds_loop(statement) {
            return true;
        }
    }
    false
}

#[cycle(holds)]
fn is_or_holds_loop(statement: &Statement) -> bool {
    match statement {
        Statement::Simple(_, _) => false,
        Statement::If(_, _, yes, no) => holds_loop(yes) || holds_loop(no),
        Statement::Loop(_, _, _) => true,
    }
}
