// Homes for the variables of a function.

ghost use Rattle.std.specs.Prelude.{◌≡◌, ℕ, ◌≤◌, length, true, IfOk};
ghost use Rattle.std.specs.List.{AllByRecursion};
ghost use Rattle.dae_ir.specs.Streams.{actions_of};
ghost use Rattle.dae_select_walks.specs.Homes.{AreHomes, home_in};
ghost use Rattle.dae_select_walks.specs.Live.{function_lives};
ghost use Rattle.dae_regalloc.specs.Seen.{number_in, AreBelow, can_number};
ghost use Rattle.dae_regalloc.specs.Given.{numbered_home, IsRegister, AreFew};

use crate::numbers::SpanNumbers;
use crate::places::spans_of;
use crate::scanning::homes_of;
use dae_ir::Step;
use dae_select_walks::Home;
use std::alloc::{AllocError, Global};

/// The home of the span that has a number.
fn numbered_home(homes: &[Home], number: Option<usize>) -> Home
    ensures { result ≡ numbered_home homes.now number }
{
    match number {
        Some(number) => match homes.get(number) {
            Some(home) => *home,
            None => Home::Register(8),
        },
        None => Home::Register(8),
    }
}

/// The homes of variables, from those of their spans.
fn homes_by_variable(
    alloc: Global,
    numbers: &SpanNumbers,
    homes: &[Home],
) -> Result<Vec<Home>, AllocError>
    ensures homes { IfOk result (λ table. (v : ℕ) → home_in table.items v
        ≡ numbered_home homes.now (number_in numbers.now v)) }
    ensures length { IfOk result (λ table. length table.items ≡ length numbers.now) }
{
    let mut table = Vec::new(alloc);
    for variable in 0..numbers.bound() {
        table.push(numbered_home(homes, numbers.number(variable)))?;
    }
    Ok(table)
}

/// A home for each variable of a function with so many parameters: a register, or the slot of the variable's own number,
/// so that two variables that are live at one place have different ones; and a register for each where around no place more
/// than 18 are live. A variable that is live anywhere is among them. 32 bits must number the places.
pub fn allocate(alloc: Global, parameters: u32, body: &[Step]) -> Result<Vec<Home>, AllocError>
    requires { can_number (actions_of body.now) ≡ true }
    ensures homes { IfOk result (λ homes. (variables : ℕ)
        → AreHomes variables (function_lives parameters (actions_of body.now))
        (home_in homes.items)) }
    ensures inside { IfOk result (λ homes.
        AllByRecursion (AreBelow (length homes.items)) (function_lives parameters
        (actions_of body.now))) }
    ensures few { IfOk result (λ homes. (n : ℕ)
        → AllByRecursion (AreBelow n) (function_lives parameters (actions_of body.now))
        → length homes.items ≤ n) }
    ensures registers { IfOk result (λ homes.
        AreFew 18 (function_lives parameters (actions_of body.now)) → (v : ℕ)
        → IsRegister (home_in homes.items v)) }
{
    let seen = spans_of(alloc, parameters, body)?;
    let homes = homes_of(alloc, seen.spans.as_slice())?;
    homes_by_variable(alloc, &seen.numbers, homes.as_slice())
}
