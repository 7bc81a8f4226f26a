//! Forms of small programs, read from texts. Variable 0 is for a result, parameters and the program's own variables follow, and each
//! value that an expression takes has a variable behind them.
//!
//! Functions stand with # between them, main last. A function is its name, how many parameters and variables it has, and the bytes of its
//! frame, and then its statements, with `;` between all of these: `v3 = v1 + 4`, `v3 = load 4 v1`, `v3 = cut s2 v1`, `v3 = frame 8`,
//! `store 4 v1 7`, `good 4 v1`, `bounds v1 16`, `zero v1`, `room 0`, `deep`, `print d v1`, `call v2 0 v1 16`, `return v1`, `halt 0` and
//! `break`; `loop`, its body, `step`, its step and `end`; and `if v1 < 4`, what is done then, `else`, what is done else, and `end`.
//! Behind `line 3` statements stand on that line.

use dae_base::{Items, LoadKind, Place, Text, Width};
use dae_ir::{Check, Function, Ir, Item, Operand, Statement, Test, Value};
use dae_meaning::{Comparison, Operator, Spelling};
use dae_rows::{number, word_in};
use std::alloc::{AllocError, Global};

fn number_in(text: &str, at: usize) -> u32 {
    number(word_in(text, at))
}

/// The number of the variable that a word names.
fn variable_in(text: &str, at: usize) -> u32 {
    number(word_in(text, at).strip_prefix("v").unwrap_or(""))
}

fn operand_of(word: &str) -> Operand {
    match word.strip_prefix("v") {
        Some(digits) => Operand::Variable(number(digits)),
        None => Operand::Number(number(word)),
    }
}

fn operand_in(text: &str, at: usize) -> Operand {
    operand_of(word_in(text, at))
}

pub fn width_of(word: &str) -> Width {
    match word {
        "1" => Width::B1,
        "2" => Width::B2,
        _ => Width::B4,
    }
}

fn kind_of(word: &str) -> LoadKind {
    match word {
        "s1" => LoadKind::I8,
        "u1" => LoadKind::U8,
        "s2" => LoadKind::I16,
        "u2" => LoadKind::U16,
        _ => LoadKind::I32,
    }
}

fn spelling_of(word: &str) -> Spelling {
    match word {
        "c" => Spelling::Byte,
        "x" => Spelling::Hexadecimal,
        _ => Spelling::Signed,
    }
}

/// The value that a variable is set to.
fn value_of(text: &str) -> Value {
    let (x, y) = (operand_in(text, 2), operand_in(text, 4));
    match word_in(text, 3) {
        "+" => Value::Binary(Operator::Add, x, y),
        "-" => Value::Binary(Operator::Subtract, x, y),
        "*" => Value::Binary(Operator::Multiply, x, y),
        "/" => Value::Binary(Operator::DivideSigned, x, y),
        "%" => Value::Binary(Operator::RemainderSigned, x, y),
        _ => Value::Same(x),
    }
}

/// What sets a variable.
fn setting_of(text: &str) -> Item {
    let to = variable_in(text, 0);
    match word_in(text, 2) {
        "load" => Item::Load(to, kind_of(word_in(text, 3)), operand_in(text, 4)),
        "cut" => {
            let value = Value::Extended(kind_of(word_in(text, 3)), operand_in(text, 4));
            Item::Assign(to, value)
        }
        "frame" => Item::Assign(to, Value::FrameAddress(number_in(text, 3))),
        _ => Item::Assign(to, value_of(text)),
    }
}

fn add_arguments(arguments: &mut Items<Operand>, text: &str) -> Result<(), AllocError> {
    for word in text.split(' ').skip(3) {
        arguments.push(operand_of(word))?;
    }
    Ok(())
}

fn call_of(alloc: Global, text: &str) -> Result<Item, AllocError> {
    let mut arguments = Items::new(alloc);
    add_arguments(&mut arguments, text)?;
    Ok(Item::Call(variable_in(text, 1), number_in(text, 2), arguments))
}

fn item_of(alloc: Global, text: &str) -> Result<Item, AllocError> {
    let (x, y) = (operand_in(text, 2), operand_in(text, 3));
    match word_in(text, 0) {
        "store" => Ok(Item::Store(width_of(word_in(text, 1)), x, y)),
        "good" => Ok(Item::Expect(Check::Place(width_of(word_in(text, 1)), x))),
        "bounds" => Ok(Item::Expect(Check::InBounds(operand_in(text, 1), number_in(text, 2)))),
        "zero" => Ok(Item::Expect(Check::Zero(operand_in(text, 1)))),
        "room" => Ok(Item::Expect(Check::Room(number_in(text, 1)))),
        "deep" => Ok(Item::Expect(Check::Frame)),
        "print" => Ok(Item::Print(spelling_of(word_in(text, 1)), x)),
        "return" => Ok(Item::Return(operand_in(text, 1))),
        "halt" => Ok(Item::Halt(operand_in(text, 1))),
        "break" => Ok(Item::Break),
        "call" => call_of(alloc, text),
        _ => Ok(setting_of(text)),
    }
}

fn comparison_of(word: &str) -> Comparison {
    match word {
        "<" => Comparison::LessSigned,
        _ => Comparison::NotEqual,
    }
}

fn test_of(text: &str) -> Test {
    Test {
        comparison: comparison_of(word_in(text, 2)),
        left: operand_in(text, 1),
        right: operand_in(text, 3),
    }
}

/// Lists of statements that are begun, the tests of branches that are, or none of loops, and the line.
#[derive(Drop)]
struct Begun {
    lists: Vec<Vec<Statement>>,
    tests: Vec<Option<Test>>,
    line: u32,
}

impl Begun {
    fn place(&self) -> Place {
        Place {
            file: 0,
            line: self.line,
            col: 1,
        }
    }

    /// Begins a list.
    fn open(&mut self, alloc: Global) -> Result<(), AllocError> {
        self.lists.push(Vec::new(alloc))?;
        Ok(())
    }

    /// Begins a branch, or a loop.
    fn begin(&mut self, alloc: Global, test: Option<Test>) -> Result<(), AllocError> {
        self.tests.push(test)?;
        self.open(alloc)
    }

    /// Takes the last list.
    fn take(&mut self, alloc: Global) -> Vec<Statement> {
        match self.lists.pop() {
            Some(list) => list,
            None => Vec::new(alloc),
        }
    }

    /// Adds a statement to the last list.
    fn add(&mut self, alloc: Global, statement: Statement) -> Result<(), AllocError> {
        let mut list = self.take(alloc);
        list.push(statement)?;
        self.lists.push(list)?;
        Ok(())
    }

    /// Adds an item to the last list.
    fn add_item(&mut self, alloc: Global, text: &str) -> Result<(), AllocError> {
        let place = self.place();
        let item = item_of(alloc, text)?;
        self.add(alloc, Statement::Simple(place, item))
    }

    /// Ends a branch or a loop.
    fn end(&mut self, alloc: Global) -> Result<(), AllocError> {
        let last = self.take(alloc);
        let first = self.take(alloc);
        let place = self.place();
        let statement = match self.tests.pop() {
            Some(Some(test)) => Statement::If(place, test, first, last),
            _ => Statement::Loop(place, first, last),
        };
        self.add(alloc, statement)
    }

    fn read(&mut self, alloc: Global, text: &str) -> Result<(), AllocError> {
        match word_in(text, 0) {
            "loop" => self.begin(alloc, None),
            "if" => self.begin(alloc, Some(test_of(text))),
            "else" => self.open(alloc),
            "step" => self.open(alloc),
            "end" => self.end(alloc),
            "line" => {
                self.line = number_in(text, 1);
                Ok(())
            }
            _ => self.add_item(alloc, text),
        }
    }

    fn read_all(&mut self, alloc: Global, text: &str) -> Result<(), AllocError> {
        self.open(alloc)?;
        for statement in text.split(';') {
            self.read(alloc, statement)?;
        }
        Ok(())
    }
}

fn statements_of(alloc: Global, text: &str) -> Result<Vec<Statement>, AllocError> {
    let mut begun = Begun {
        lists: Vec::new(alloc),
        tests: Vec::new(alloc),
        line: 1,
    };
    begun.read_all(alloc, text)?;
    Ok(begun.take(alloc))
}

fn function_of(alloc: Global, text: &str) -> Result<Function, AllocError> {
    let (head, body) = text.split_once(';').unwrap_or((text, ""));
    let name = Text::from_str(alloc, word_in(head, 0))?;
    let body = statements_of(alloc, body)?;
    Ok(Function {
        name,
        parameters: number_in(head, 1),
        variables: number_in(head, 2),
        frame: u64::from(number_in(head, 3)),
        body: Items::from_vec(body),
    })
}

fn add_functions(
    alloc: Global,
    functions: &mut Items<Function>,
    text: &str,
) -> Result<(), AllocError> {
    for function in text.split('#') {
        functions.push(function_of(alloc, function)?)?;
    }
    Ok(())
}

/// The form of a text, of one function or two.
pub fn form_of(alloc: Global, text: &str) -> Result<Ir, AllocError> {
    let mut functions = Items::new(alloc);
    add_functions(alloc, &mut functions, text)?;
    Ok(Ir {
        memory: 4096,
        frames: 64,
        calls: 100,
        main: if functions.len() > 1 { 1 } else { 0 },
        functions,
    })
}
