//! Forms of one function, written as texts again, and the variables that occur in them.

use dae_base::LoadKind;
use dae_ir::{Check, Ir, Item, Operand, Statement, Test, Value};
use dae_meaning::{Comparison, Operator, Spelling};
use std::alloc::{AllocError, Global};

fn operand_text(alloc: Global, x: Operand) -> Result<String, AllocError> {
    match x {
        Operand::Variable(number) => format!(in alloc; "v{number}"),
        Operand::Number(number) => format!(in alloc; "{number}"),
    }
}

fn sign_of(operator: Operator) -> &'static str {
    match operator {
        Operator::Add => "+",
        Operator::Subtract => "-",
        Operator::Multiply => "*",
        Operator::DivideSigned => "/",
        Operator::RemainderSigned => "%",
        _ => "?",
    }
}

fn value_text(alloc: Global, value: &Value) -> Result<String, AllocError> {
    match value {
        Value::Same(x) => operand_text(alloc, *x),
        Value::Binary(operator, x, y) => {
            let sign = sign_of(*operator);
            let x = operand_text(alloc, *x)?;
            let y = operand_text(alloc, *y)?;
            format!(in alloc; "{x} {sign} {y}")
        }
        _ => String::from_str(alloc, "?"),
    }
}

fn kind_text(kind: LoadKind) -> &'static str {
    match kind {
        LoadKind::I8 => "s1",
        LoadKind::U8 => "u1",
        LoadKind::I16 => "s2",
        LoadKind::U16 => "u2",
        LoadKind::I32 => "4",
    }
}

fn check_text(alloc: Global, check: &Check) -> Result<String, AllocError> {
    match check {
        Check::Place(width, x) => {
            let bytes = width.bytes();
            let x = operand_text(alloc, *x)?;
            format!(in alloc; "good {bytes} {x}")
        }
        Check::InBounds(x, offset) => {
            let x = operand_text(alloc, *x)?;
            format!(in alloc; "bounds {x} {offset}")
        }
        Check::Room(function) => format!(in alloc; "room {function}"),
        _ => String::from_str(alloc, "?"),
    }
}

fn spelling_text(spelling: Spelling) -> &'static str {
    match spelling {
        Spelling::Signed => "d",
        Spelling::Byte => "c",
        _ => "x",
    }
}

/// What sets a variable, or stores.
fn setting_text(alloc: Global, item: &Item) -> Result<String, AllocError> {
    match item {
        Item::Assign(to, value) => {
            let value = value_text(alloc, value)?;
            format!(in alloc; "v{to} = {value}")
        }
        Item::Load(to, kind, x) => {
            let kind = kind_text(*kind);
            let x = operand_text(alloc, *x)?;
            format!(in alloc; "v{to} = load {kind} {x}")
        }
        Item::Store(width, x, y) => {
            let bytes = width.bytes();
            let x = operand_text(alloc, *x)?;
            let y = operand_text(alloc, *y)?;
            format!(in alloc; "store {bytes} {x} {y}")
        }
        _ => String::from_str(alloc, "?"),
    }
}

fn item_text(alloc: Global, item: &Item) -> Result<String, AllocError> {
    match item {
        Item::Expect(check) => check_text(alloc, check),
        Item::Print(spelling, x) => {
            let letter = spelling_text(*spelling);
            let x = operand_text(alloc, *x)?;
            format!(in alloc; "print {letter} {x}")
        }
        Item::Call(to, function, _) => format!(in alloc; "call v{to} {function}"),
        Item::Return(x) => {
            let x = operand_text(alloc, *x)?;
            format!(in alloc; "return {x}")
        }
        Item::Halt(x) => {
            let x = operand_text(alloc, *x)?;
            format!(in alloc; "halt {x}")
        }
        Item::Break => String::from_str(alloc, "break"),
        _ => setting_text(alloc, item),
    }
}

fn test_text(alloc: Global, test: &Test) -> Result<String, AllocError> {
    let sign = match test.comparison {
        Comparison::LessSigned => "<",
        Comparison::NotEqual => "!=",
        _ => "?",
    };
    let x = operand_text(alloc, test.left)?;
    let y = operand_text(alloc, test.right)?;
    format!(in alloc; "if {x} {sign} {y}")
}

fn add_part(text: &mut String, part: &str) -> Result<(), AllocError> {
    text.push_str(";")?;
    text.push_str(part)
}

// Adds statements, each behind a `;`.
#[cycle(add)]
fn add_list(alloc: Global, text: &mut String, list: &[Statement]) -> Result<(), AllocError> {
    for statement in list {
        add_statement(alloc, text, statement)?;
    }
    Ok(())
}

#[cycle(add)]
fn add_statement(
    alloc: Global,
    text: &mut String,
    statement: &Statement,
) -> Result<(), AllocError> {
    match statement {
        Statement::Simple(_, item) => {
            let item = item_text(alloc, item)?;
            add_part(text, item.as_str())
        }
        Statement::If(_, test, yes, no) => {
            let test = test_text(alloc, test)?;
            add_part(text, test.as_str())?;
            add_list(alloc, text, yes)?;
            add_part(text, "else")?;
            add_list(alloc, text, no)?;
            add_part(text, "end")
        }
        Statement::Loop(_, body, step) => {
            add_part(text, "loop")?;
            add_list(alloc, text, body)?;
            add_part(text, "step")?;
            add_list(alloc, text, step)?;
            add_part(text, "end")
        }
    }
}

/// Statements, each behind a `;`.
pub fn statements_text(alloc: Global, list: &[Statement]) -> Result<String, AllocError> {
    let mut text = String::new(alloc);
    add_list(alloc, &mut text, list)?;
    Ok(text)
}

/// The text of a form of one function without parameters and frame.
pub fn form_text(alloc: Global, ir: &Ir) -> Result<String, AllocError> {
    match ir.functions.as_slice() {
        [main] => {
            let variables = main.variables;
            let body = statements_text(alloc, main.body.as_slice())?;
            format!(in alloc; "main 0 {variables} 0{body}")
        }
        _ => Ok(String::new(alloc)),
    }
}

fn add_variables(out: &mut String, statement: &str) -> Result<(), AllocError> {
    for word in statement.split(' ') {
        if word.strip_prefix("v").is_some() {
            out.push_str(" ")?;
            out.push_str(word)?;
        }
    }
    Ok(())
}

fn add_all_variables(out: &mut String, text: &str) -> Result<(), AllocError> {
    for statement in text.split(';') {
        add_variables(out, statement)?;
    }
    Ok(())
}

/// The variables that occur in a text, in its order, each behind a blank.
pub fn variables_text(alloc: Global, text: &str) -> Result<String, AllocError> {
    let mut out = String::new(alloc);
    add_all_variables(&mut out, text)?;
    Ok(out)
}
