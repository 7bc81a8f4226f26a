// Which part of a function each variable occurs in, told by the statements of the function's own list.

use dae_ir::{Check, Item, Operand, Statement, Test, Value};

/// Statements of a list, from the first one up to the end.
#[derive(Clone, Copy)]
pub struct Extent {
    pub first: usize,
    pub end: usize,
}

/// By their numbers, the extents of variables that occur up to a place, which is the number of the statement in question.
#[derive(Drop)]
pub struct Extents {
    pub extents: Vec<Option<Extent>>,
    pub place: usize,
}

/// An extent that reaches over two. The first may be none.
pub fn over_both(one: Option<Extent>, other: Extent) -> Extent {
    match one {
        None => other,
        Some(extent) => Extent {
            first: extent.first.min(other.first),
            end: extent.end.max(other.end),
        },
    }
}

fn note_variable(extents: &mut Extents, variable: u32) {
    let here = Extent {
        first: extents.place,
        end: extents.place.wrapping_add(1),
    };
    let number = variable as usize;
    if number < extents.extents.len() {
        extents.extents[number] = Some(over_both(extents.extents[number], here));
    }
}

fn note_operand(extents: &mut Extents, x: Operand) {
    if let Operand::Variable(variable) = x {
        note_variable(extents, variable);
    }
}

fn note_test(extents: &mut Extents, test: Test) {
    note_operand(extents, test.left);
    note_operand(extents, test.right);
}

fn note_value(extents: &mut Extents, value: Value) {
    match value {
        Value::Same(x) => note_operand(extents, x),
        Value::Extended(_, x) => note_operand(extents, x),
        Value::Binary(_, x, y) => {
            note_operand(extents, x);
            note_operand(extents, y);
        }
        Value::Holds(test) => note_test(extents, test),
        Value::FrameAddress(_) => {}
    }
}

fn note_check(extents: &mut Extents, check: Check) {
    match check {
        Check::Place(_, x) => note_operand(extents, x),
        Check::InBounds(x, _) => note_operand(extents, x),
        Check::Zero(x) => note_operand(extents, x),
        Check::Room(_) | Check::Frame | Check::Abort => {}
    }
}

fn note_item(extents: &mut Extents, item: &Item) {
    match item {
        Item::Assign(variable, value) => {
            note_variable(extents, *variable);
            note_value(extents, *value);
        }
        Item::Load(variable, _, x) => {
            note_variable(extents, *variable);
            note_operand(extents, *x);
        }
        Item::Store(_, x, y) => {
            note_operand(extents, *x);
            note_operand(extents, *y);
        }
        Item::Print(_, x) => note_operand(extents, *x),
        Item::Expect(check) => note_check(extents, *check),
        Item::Call(variable, _, xs) => {
            note_variable(extents, *variable);
            for x in xs.as_slice() {
                note_operand(extents, *x);
            }
        }
        Item::Return(x) => note_operand(extents, *x),
        Item::Halt(x) => note_operand(extents, *x),
        Item::Break | Item::Continue => {}
    }
}

#[cycle(note)]
fn note_list(extents: &mut Extents, statements: &[Statement]) {
    for statement in statements {
        note_statement(extents, statement);
    }
}

/// The variables that occur in a statement do so at the place.
#[cycle(note)]
pub fn note_statement(extents: &mut Extents, statement: &Statement) {
    match statement {
        Statement::Simple(_, item) => note_item(extents, item),
        Statement::If(_, test, yes, no) => {
            note_test(extents, *test);
            note_list(extents, yes);
            note_list(extents, no);
        }
        Statement::Loop(_, body, step) => {
            note_list(extents, body);
            note_list(extents, step);
        }
    }
}
