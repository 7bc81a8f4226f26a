// Which form the ways into functions have: JALR alone, where it reaches all of the code.

ghost use Rattle.std.specs.Prelude.{◌≡◌, true, ◌≢◌, ◌≤◌, ◌^◌, length, IfOk, IfErr};
ghost use Rattle.std.specs.List.{list_all};
ghost use Rattle.dae_link.specs.Settled.{AreUnplaced, IsTooDeep, is_numberable};
ghost use Rattle.dae_link.specs.Sides.{IsReached, end_of};
ghost use Rattle.dae_link.specs.declared.error.CodeError.TheVariants as errors;

use crate::error::CodeError;
use crate::homes::unplaced_layouts;
use crate::leaf_codes::leaf_codes_of;
use crate::words::whole_code;
use dae_ir::{Step, Stream, StreamFunction};
use dae_select_calls::Layouts;
use dae_select_values::CallForm;
use std::alloc::{AllocError, Global};

/// JALR alone reaches the words below this one.
const REACHED: usize = 512;

/// Of a side with as many steps it isn't tried.
const MOST_STEPS: u64 = 512;

// How many steps there are. Of the number nothing is promised.
#[cycle(steps)]
fn steps_within(step: &Step) -> u64 {
    match step {
        Step::Act(_, _) => 1,
        Step::If(_, _, first, second) => steps_in(first).saturating_add(steps_in(second)),
        Step::Loop(_, body, step) => steps_in(body).saturating_add(steps_in(step)),
    }
}

#[cycle(steps)]
fn steps_in(steps: &[Step]) -> u64 {
    let mut count: u64 = 0;
    for step in steps {
        count = count.saturating_add(steps_within(step));
    }
    count
}

fn steps_of(functions: &[StreamFunction]) -> u64 {
    let mut count: u64 = 0;
    for function in functions {
        count = count.saturating_add(steps_in(function.body.as_slice()));
    }
    count
}

/// The words of the whole code of a side, wherever its functions stand.
fn words_of(alloc: Global, layouts: &Layouts, stream: &Stream) -> Result<usize, AllocError>
    requires unplaced { AreUnplaced stream.now layouts.now }
    requires few { length stream.now.functions ≤ 2 ^ 25 }
    ensures { IfOk result (λ words. words ≡ end_of stream.now layouts.now) }
{
    let functions = stream.functions.as_slice();
    let made = leaf_codes_of(alloc, layouts, functions)?;
    let codes = made.as_slice();
    let mut places = Vec::new(alloc);
    let code = whole_code(alloc, layouts, codes, stream, &mut places)?;
    Ok(code.len())
}

/// What is settled of a side before its functions have places; and their ways in have a form that reaches them.
#[tactic(auto, using(crate::proofs::Ways::from_anywhere, crate::proofs::Ways::within_reach))]
pub fn settled_layouts(alloc: Global, stream: &Stream) -> Result<Layouts, CodeError>
    requires numberable { list_all is_numberable stream.now.functions ≡ true }
    requires few { length stream.now.functions ≤ 2 ^ 25 }
    ensures layouts { IfOk result (λ layouts. AreUnplaced stream.now layouts) }
    ensures reached { IfOk result (λ layouts. IsReached stream.now layouts) }
    ensures code { IfErr result (λ e. e ≢ errors.Code) }
    ensures private { IfErr result (λ e. e ≡ errors.Private → IsTooDeep stream.now) }
{
    if steps_of(stream.functions.as_slice()) < MOST_STEPS {
        let low = unplaced_layouts(alloc, stream, CallForm::Low)?;
        let words = words_of(alloc, &low, stream)?;
        if words < REACHED {
            return Ok(low);
        }
    }
    let anywhere = unplaced_layouts(alloc, stream, CallForm::Anywhere)?;
    Ok(anywhere)
}
