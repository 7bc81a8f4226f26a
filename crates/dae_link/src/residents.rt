// Which numbers stay in registers. Of how they are chosen nothing is promised: any are right.

ghost use Rattle.std.specs.Prelude.{◌≡◌, length, IfOk};
ghost use Rattle.std.specs.List.{AllByRecursion};
ghost use Rattle.dae_select_blocks.specs.Blocks.{residents_code};
ghost use Rattle.dae_link.specs.Residents.{IsWord, AreResidents, all_low, each_low, is_low};

use dae_ir::{Action, Argument, Branch, Operand, Step, StreamFunction, Test, Value};
use dae_meaning::{Comparison, Operator};
use dae_select_calls::{FunctionLayout, residents_code};
use dae_select_values::{exchanged, immediate, takes_number};
use dae_select_walks::Home;
use std::alloc::{AllocError, Global};

/// At most so many different numbers are counted.
const MOST_COUNTED: usize = 64;

/// The words that the numbers may take where a side begins.
const MOST_WORDS: usize = 3;

/// The turns that a loop is taken to make.
const TURNS: u32 = 8;

/// A number, and how many instructions it saves where it stays in a register.
#[derive(Clone, Copy)]
struct NumberSaving {
    number: u32,
    saves: u32,
}

// ---- what numbers save

/// Where a number stands among those that are counted, or how many these are.
fn place_of(counts: &[NumberSaving], number: u32) -> usize {
    for index in 0..counts.len() {
        if counts[index].number == number {
            return index;
        }
    }
    counts.len()
}

/// A number saves so many instructions more.
fn count(counts: &mut Vec<NumberSaving>, number: u32, saves: u32) -> Result<(), AllocError> {
    let place = place_of(counts.as_slice(), number);
    if place < counts.len() {
        let before = counts[place].saves;
        counts[place] = NumberSaving {
            number,
            saves: before.saturating_add(saves),
        };
        Ok(())
    } else if counts.len() < MOST_COUNTED {
        counts.push(NumberSaving { number, saves })?;
        Ok(())
    } else {
        Ok(())
    }
}

/// Whether one instruction makes the number.
fn is_short(number: u32) -> bool {
    number.wrapping_add(2048) < 4096 || number % 4096 == 0
}

/// An operand that a block wants in a register.
fn count_fetched(
    counts: &mut Vec<NumberSaving>,
    operand: Operand,
    weight: u32,
) -> Result<(), AllocError> {
    match operand {
        Operand::Variable(_) => Ok(()),
        Operand::Number(number) => {
            if number != 0 && is_short(number) {
                count(counts, number, weight)
            } else {
                Ok(())
            }
        }
    }
}

/// An operation whose number may be an immediate.
fn count_binary(
    counts: &mut Vec<NumberSaving>,
    operator: Operator,
    left: Operand,
    right: Operand,
    weight: u32,
) -> Result<(), AllocError> {
    match right {
        Operand::Number(number) => match immediate(operator, 5, 5, number) {
            Some(_) => count_fetched(counts, left, weight),
            None => {
                count_fetched(counts, left, weight)?;
                count_fetched(counts, right, weight)
            }
        },
        Operand::Variable(_) => match left {
            Operand::Number(number) => match exchanged(operator, 5, 5, number) {
                Some(_) => Ok(()),
                None => count_fetched(counts, left, weight),
            },
            Operand::Variable(_) => Ok(()),
        },
    }
}

/// A comparison whose right operand may be an immediate.
fn count_compared(
    counts: &mut Vec<NumberSaving>,
    test: Test,
    weight: u32,
) -> Result<(), AllocError> {
    count_fetched(counts, test.left, weight)?;
    match test.right {
        Operand::Variable(_) => Ok(()),
        Operand::Number(number) => {
            if takes_number(test.comparison, number) {
                Ok(())
            } else {
                count_fetched(counts, test.right, weight)
            }
        }
    }
}

/// A test that is told: with an immediate behind `less` it takes an instruction more than with a register.
fn count_told(counts: &mut Vec<NumberSaving>, test: Test, weight: u32) -> Result<(), AllocError> {
    match test.comparison {
        Comparison::LessSigned | Comparison::LessUnsigned => {
            count_fetched(counts, test.left, weight)?;
            count_fetched(counts, test.right, weight)
        }
        _ => count_compared(counts, test, weight),
    }
}

fn count_branch(
    counts: &mut Vec<NumberSaving>,
    branch: Branch,
    weight: u32,
) -> Result<(), AllocError> {
    match branch {
        Branch::Silent(test) => {
            count_fetched(counts, test.left, weight)?;
            count_fetched(counts, test.right, weight)
        }
        Branch::Tells(test) => count_told(counts, test, weight),
        Branch::Hears => Ok(()),
    }
}

fn count_value(
    counts: &mut Vec<NumberSaving>,
    value: Value,
    weight: u32,
) -> Result<(), AllocError> {
    match value {
        Value::Same(_) => Ok(()),
        Value::Extended(_, operand) => count_fetched(counts, operand, weight),
        Value::Binary(operator, left, right) => {
            count_binary(counts, operator, left, right, weight)
        }
        Value::Holds(test) => count_compared(counts, test, weight),
        Value::FrameAddress(_) => Ok(()),
    }
}

fn count_arguments(
    counts: &mut Vec<NumberSaving>,
    arguments: &[Argument],
    weight: u32,
) -> Result<(), AllocError> {
    for argument in arguments {
        count_fetched(counts, argument.operand, weight)?;
    }
    Ok(())
}

fn count_action(
    counts: &mut Vec<NumberSaving>,
    action: &Action,
    weight: u32,
) -> Result<(), AllocError> {
    match action {
        Action::Set(_, value) => count_value(counts, *value, weight),
        Action::Issue(_, operand) => count_fetched(counts, *operand, weight),
        Action::Own(_, _, operand) => count_fetched(counts, *operand, weight),
        Action::Address(_, operand) => count_fetched(counts, *operand, weight),
        Action::Call(_, _, arguments) => count_arguments(counts, arguments.as_slice(), weight),
        _ => Ok(()),
    }
}

#[cycle(counting)]
fn count_step(counts: &mut Vec<NumberSaving>, step: &Step, weight: u32) -> Result<(), AllocError> {
    match step {
        Step::Act(_, action) => count_action(counts, action, weight),
        Step::If(_, branch, first, second) => {
            count_branch(counts, *branch, weight)?;
            count_steps(counts, first, weight)?;
            count_steps(counts, second, weight)
        }
        Step::Loop(_, body, step) => {
            let turns = weight.saturating_mul(TURNS);
            count_steps(counts, body, turns)?;
            count_steps(counts, step, turns)
        }
    }
}

#[cycle(counting)]
fn count_steps(
    counts: &mut Vec<NumberSaving>,
    steps: &[Step],
    weight: u32,
) -> Result<(), AllocError> {
    for step in steps {
        count_step(counts, step, weight)?;
    }
    Ok(())
}

// ---- which ones are chosen

fn is_among(numbers: &[u32], number: u32) -> bool {
    for other in numbers {
        if *other == number {
            return true;
        }
    }
    false
}

/// The number that saves most, but for these.
fn best(counts: &[NumberSaving], chosen: &[u32]) -> Option<u32> {
    let mut found = None;
    let mut most: u32 = 1;
    for counted in counts {
        if most < counted.saves && !is_among(chosen, counted.number) {
            found = Some(counted.number);
            most = counted.saves;
        }
    }
    found
}

/// The three numbers that save most.
fn chosen(alloc: Global, functions: &[StreamFunction]) -> Result<Vec<u32>, AllocError> {
    let mut counts = Vec::new(alloc);
    for function in functions {
        count_steps(&mut counts, function.body.as_slice(), 1)?;
    }
    let mut numbers = Vec::new(alloc);
    for _ in 0..3 {
        if let Some(number) = best(counts.as_slice(), numbers.as_slice()) {
            numbers.push(number)?;
        }
    }
    Ok(numbers)
}

/// The words that get the numbers into their registers.
fn words_of(alloc: Global, numbers: &[u32]) -> Result<usize, AllocError>
    ensures words { IfOk result (λ words. words ≡ length (residents_code 27 numbers.now)) }
    ensures small { IfOk result (λ words. AllByRecursion IsWord numbers.now) }
{
    let mut code = Vec::new(alloc);
    residents_code(&mut code, numbers)?;
    Ok(code.len())
}

// ---- where they may stay

fn is_low(home: Home) -> bool
    ensures { result ≡ is_low home }
{
    match home {
        Home::Register(register) => register < 25,
        Home::Slot(_) => true,
    }
}

fn all_low(homes: &[Home]) -> bool
    ensures { result ≡ all_low homes.now }
{
    for home in homes {
        if !is_low(*home) {
            return false;
        }
    }
    true
}

/// Whether no variable is in a register in which a number may stay.
fn each_low(layouts: &[FunctionLayout]) -> bool
    ensures { result ≡ each_low layouts.now }
{
    for layout in layouts {
        if !all_low(layout.homes.as_slice()) {
            return false;
        }
    }
    true
}

/// The numbers that stay in registers over the code of these functions, of which these are the homes.
pub fn residents_of(
    alloc: Global,
    functions: &[StreamFunction],
    layouts: &[FunctionLayout],
) -> Result<Vec<u32>, AllocError>
    ensures { IfOk result (λ numbers. AreResidents layouts.now numbers.items) }
{
    if layouts.is_empty() || !each_low(layouts) {
        return Ok(Vec::new(alloc));
    }
    let numbers = chosen(alloc, functions)?;
    if words_of(alloc, numbers.as_slice())? <= MOST_WORDS {
        Ok(numbers)
    } else {
        Ok(Vec::new(alloc))
    }
}
