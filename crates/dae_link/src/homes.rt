// What is settled of a side before its functions have places: homes, frames, private memory, and numbers that stay in registers.

ghost use Rattle.std.specs.Prelude.{◌≡◌, true, ◌≢◌, ℕ, ◌-◌, ◌*◌, ◌≤◌, ◌<◌, ◌^◌, ◌∷◌, [], length, map, IfOk, IfErr};
ghost use Rattle.std.specs.List.{AllByRecursion, AllZip, list_all};
ghost use Rattle.dae_ir.specs.Streams.{actions_of};
ghost use Rattle.dae_select_blocks.specs.Sizes.{is_leaf};
ghost use Rattle.dae_select_calls.specs.Layouts.{AreSmall};
ghost use Rattle.dae_link.specs.Settled.{IsLayoutOf, IsFrameWithin, AreTooMany, IsTooDeep, AreUnplaced, is_numberable, has_register, have_registers, is_frameless, mirrored_register, mirrored_home, own_homes, AreHomesOf};
ghost use Rattle.dae_link.specs.declared.error.CodeError.TheVariants as errors;

use crate::error::CodeError;
use crate::residents::residents_of;
use crate::{MOST_FRAME, MOST_PRIVATE};
use dae_base::Items;
use dae_ir::{Stream, StreamFunction};
use dae_regalloc::{allocate, can_number};
use dae_select::is_leaf;
use dae_select_calls::{FunctionLayout, Layouts};
use dae_select_values::CallForm;
use dae_select_walks::Home;
use std::alloc::{AllocError, Global};

/// The words that a private frame has besides the slots.
const KEPT_WORDS: u32 = 19;

/// The number of variables, where their frame isn't too large.
fn count_of(homes: usize) -> Result<u32, CodeError>
    ensures ok { IfOk result (λ count. (count ≡ homes) × (count < 2 ^ 26 - 19)) }
    ensures err { IfErr result (λ e. (e ≡ errors.Private) × (2 ^ 26 - 19 ≤ homes)) }
{
    if homes > (MOST_FRAME - KEPT_WORDS) as usize {
        return Err(CodeError::Private);
    }
    Ok(homes as u32)
}

fn is_numberable(function: &StreamFunction) -> bool
    ensures { result ≡ is_numberable function.now }
{
    can_number(function.body.as_slice())
}

/// Whether 32 bits number the places of each function of a stream.
pub fn are_numberable(stream: &Stream) -> bool
    ensures { result ≡ list_all is_numberable stream.now.functions }
{
    for function in stream.functions.as_slice() {
        if !is_numberable(function) {
            return false;
        }
    }
    true
}

/// Whether a function is a leaf.
fn is_leaf_function(function: &StreamFunction) -> bool
    ensures { result ≡ is_leaf (actions_of function.now.body) }
{
    is_leaf(function.body.as_slice())
}

fn has_register(home: Home) -> bool
    ensures { result ≡ has_register home }
{
    match home {
        Home::Register(_) => true,
        Home::Slot(_) => false,
    }
}

fn have_registers(homes: &[Home]) -> bool
    ensures { result ≡ have_registers homes.now }
{
    for home in homes {
        if !has_register(*home) {
            return false;
        }
    }
    true
}

/// Whether a function with these homes needs no private frame: it is a leaf, and all its variables have registers.
fn is_frameless(function: &StreamFunction, homes: &[Home]) -> bool
    ensures { result ≡ is_frameless function.now homes.now }
{
    is_leaf_function(function) && have_registers(homes)
}

/// The register that is as far from x24 as this one is from x8. What would be x10 or x17, where no variable is, stays itself, and
/// so do x25 to x27, where numbers may stay.
fn mirrored_register(register: u8) -> u8
    ensures { result ≡ mirrored_register register }
{
    if register == 15 || register == 22 || register > 24 {
        register
    } else {
        32 - register
    }
}

fn mirrored_home(home: Home) -> Home
    ensures { result ≡ mirrored_home home }
{
    match home {
        Home::Register(register) => Home::Register(mirrored_register(register)),
        Home::Slot(slot) => Home::Slot(slot),
    }
}

fn mirrored_homes(alloc: Global, homes: &[Home]) -> Result<Vec<Home>, AllocError>
    ensures { IfOk result (λ all. all.items ≡ map mirrored_home homes.now) }
{
    let mut all = Vec::new(alloc);
    for home in homes {
        all.push(mirrored_home(*home))?;
    }
    Ok(all)
}

/// The homes of a function's variables, from those that they are given by their places. A leaf takes registers from the other
/// end, so that its callers seldom have to keep theirs.
fn own_homes(
    alloc: Global,
    function: &StreamFunction,
    homes: Vec<Home>,
) -> Result<Vec<Home>, AllocError>
    ensures { IfOk result (λ own. own.items ≡ own_homes function.now homes.items) }
{
    if is_leaf_function(function) {
        return mirrored_homes(alloc, homes.as_slice());
    }
    Ok(homes)
}

/// A home for each variable of a function.
fn function_homes(alloc: Global, function: &StreamFunction) -> Result<Vec<Home>, AllocError>
    requires { is_numberable function.now ≡ true }
    ensures { IfOk result (λ homes. AreHomesOf function.now homes.items) }
{
    let homes = allocate(alloc, function.parameters, function.body.as_slice())?;
    own_homes(alloc, function, homes)
}

/// The homes of a function's variables, at first at word 0.
fn layout_of(alloc: Global, function: &StreamFunction) -> Result<FunctionLayout, CodeError>
    requires { is_numberable function.now ≡ true }
    ensures layout { IfOk result (λ layout. IsLayoutOf function.now layout) }
    ensures code { IfErr result (λ e. e ≢ errors.Code) }
    ensures private { IfErr result (λ e. e ≡ errors.Private → AreTooMany (function.now ∷ [])) }
{
    let homes = function_homes(alloc, function)?;
    let frameless = is_frameless(function, homes.as_slice());
    Ok(FunctionLayout {
        variables: count_of(homes.len())?,
        homes: Items::from_vec(homes),
        frame: function.frame,
        leaf: is_leaf_function(function),
        frameless,
        entry: 0,
        start: 0,
    })
}

fn layouts_of(alloc: Global, functions: &[StreamFunction]) -> Result<Vec<FunctionLayout>, CodeError>
    requires { list_all is_numberable functions.now ≡ true }
    ensures layouts { IfOk result (λ layouts. AllZip IsLayoutOf functions.now layouts.items) }
    ensures code { IfErr result (λ e. e ≢ errors.Code) }
    ensures private { IfErr result (λ e. e ≡ errors.Private → AreTooMany functions.now) }
{
    let mut layouts = Vec::new(alloc);
    for index in 0..functions.len() {
        layouts.push(layout_of(alloc, &functions[index])?)?;
    }
    Ok(layouts)
}

/// The words of the largest private frame.
fn largest_frame(layouts: &[FunctionLayout]) -> u32
    requires { AllByRecursion (λ l. l.variables < 2 ^ 26 - 19) layouts.now }
    ensures all { AllByRecursion (IsFrameWithin result) layouts.now }
    ensures few { (n : ℕ) → 19 ≤ n → AllByRecursion (IsFrameWithin n) layouts.now → result ≤ n }
    ensures least { 19 ≤ result }
    ensures most { result < 2 ^ 26 }
{
    let mut largest = KEPT_WORDS;
    for layout in layouts {
        largest = largest.max(KEPT_WORDS + layout.variables);
    }
    largest
}

/// The words of private memory for calls so deep.
fn private_words(calls: u16, largest: u32) -> Result<u32, CodeError>
    ensures ok { IfOk result (λ words. (words ≡ calls * largest) × (words ≤ 2 ^ 28)) }
    ensures err { IfErr result (λ e. (e ≡ errors.Private) × (2 ^ 28 < calls * largest)) }
{
    let words = u64::from(calls) * u64::from(largest);
    if words > u64::from(MOST_PRIVATE) {
        return Err(CodeError::Private);
    }
    Ok(words as u32)
}

/// The homes and frames of a stream's functions, all at word 0, the form of the ways into them, and the numbers that stay in
/// registers.
pub fn unplaced_layouts(
    alloc: Global,
    stream: &Stream,
    calls: CallForm,
) -> Result<Layouts, CodeError>
    requires { list_all is_numberable stream.now.functions ≡ true }
    ensures layouts { IfOk result (λ layouts. AreUnplaced stream.now layouts) }
    ensures calls { IfOk result (λ layouts. layouts.calls ≡ calls) }
    ensures code { IfErr result (λ e. e ≢ errors.Code) }
    ensures private { IfErr result (λ e. e ≡ errors.Private → IsTooDeep stream.now) }
{
    let functions = layouts_of(alloc, stream.functions.as_slice())?;
    let largest = largest_frame(functions.as_slice());
    let private = private_words(stream.calls, largest)?;
    let residents = residents_of(alloc, stream.functions.as_slice(), functions.as_slice())?;
    Ok(Layouts {
        side: stream.side,
        functions: Items::from_vec(functions),
        calls,
        finish: 0,
        largest,
        private,
        limit: stream.calls,
        memory: stream.memory,
        residents: Items::from_vec(residents),
    })
}
