// The form of a function: what its frame needs, its parameters, its statements, and an end.

ghost use Rattle.std.specs.Prelude.{◌≡◌, ◌<◌, ◌+◌, ◌^◌, ◌&&◌, [], ◌∷◌, length, nat_eq, not, if◌then◌else◌, IfOk};
ghost use Rattle.std.specs.List.{AllByRecursion};
ghost use Rattle.dae_lower_formed.specs.Formed.{AreFormsOf, IsFunctionFormOf};
ghost use Rattle.dae_ir.specs.Code.{Done};
ghost use Rattle.dae_ir.specs.Form.{before, form_of};
ghost use Rattle.dae_ir.specs.declared.form.Check.TheVariants.{Frame};
ghost use Rattle.dae_ir.specs.declared.form.Item.TheVariants.{Expect, Halt, Return};
ghost use Rattle.dae_ir.specs.declared.form.Operand.TheVariants.{Number};
ghost use Rattle.dae_lower.specs.Lowering.{checks, closed, emit, is_closed, parameters_stored};
ghost use Rattle.dae_lower_expressions.specs.Lowered.{MakesWhole};
ghost use Rattle.dae_lower_programs.specs.Functions.{HasNumbers, HasNumbersWith, HaveNumbers, IsFormWith, slot_stored};
ghost use Rattle.dae_lower_programs.specs.Sound.{IsNumbered};
ghost use Rattle.dae_lower_programs.specs.Invocations.{at_startup};

use crate::make_statements;
use dae_base::{Items, Place, Text};
use dae_ir::{Check, Function as FormFunction, Item, Operand, Statement, Value};
use dae_lower_expressions::Lowerer;
use dae_program::{FrameSlot, Function, Links, Program};
use std::alloc::{AllocError, Global};

/// How a function is invoked: at the program's startup, as main is, or by calls.
#[derive(Clone, Copy)]
pub enum Invocation {
    Startup,
    Call,
}

/// A variable is stored in the frame.
fn store_in(
    lowerer: &mut Lowerer,
    place: Place,
    variable: u32,
    slot: FrameSlot,
) -> Result<(), AllocError>
    ensures { IfOk result (MakesWhole (slot_stored place variable slot) lowerer.old lowerer.new) }
{
    let address = lowerer.maker.reserve();
    let value = Value::FrameAddress(slot.offset);
    let store = Item::Store(
        slot.width,
        Operand::Variable(address),
        Operand::Variable(variable),
    );
    lowerer.maker.item(place, Item::Assign(address, value))?;
    lowerer.maker.item(place, store)?;
    Ok(())
}

/// A parameter of a number is stored in the frame, if it has a place there.
fn store_parameter(
    lowerer: &mut Lowerer,
    place: Place,
    number: u32,
    slot: &Option<FrameSlot>,
) -> Result<(), AllocError>
    ensures { IfOk result
        (MakesWhole (parameters_stored place (slot.now ∷ []) number) lowerer.old lowerer.new) }
{
    match slot {
        Some(slot) => {
            store_in(lowerer, place, number, *slot)?;
            Ok(())
        }
        None => Ok(()),
    }
}

/// The parameters that have places in the frame are stored there.
fn store_parameters(
    lowerer: &mut Lowerer,
    place: Place,
    slots: &[Option<FrameSlot>],
) -> Result<(), AllocError>
    requires { 1 + length slots.now < 2 ^ 32 }
    ensures { IfOk result
        (MakesWhole (parameters_stored place slots.now 1) lowerer.old lowerer.new) }
{
    let mut number = 1;
    for slot in slots {
        store_parameter(lowerer, place, number, slot)?;
        number += 1;
    }
    Ok(())
}

/// Whether a statement is a return or a halt.
fn is_end(s: &Statement) -> bool
    ensures { result ≡ is_closed (before s.now Done) }
{
    match s {
        Statement::Simple(_, item) => matches!(item, Item::Return(_) | Item::Halt(_)),
        Statement::If(_, _, _, _) => false,
        Statement::Loop(_, _, _) => false,
    }
}

/// Whether the last statement of all is a return or a halt.
fn is_closed(block: &[Statement]) -> bool
    ensures { result ≡ is_closed (form_of block.now) }
{
    let mut closed = false;
    for s in block {
        closed = is_end(s);
    }
    closed
}

/// Ends the code, where it has no end.
fn close(block: Vec<Statement>, place: Place, last: Item) -> Result<Vec<Statement>, AllocError>
    ensures { IfOk result (λ all. form_of all.items ≡ closed place last (form_of block.items)) }
{
    if is_closed(&block) {
        return Ok(block);
    }
    let mut all = block;
    all.push(Statement::Simple(place, last))?;
    Ok(all)
}

/// The function begins only where its frame has room, where the flag says that this is checked.
fn check_frame(lowerer: &mut Lowerer, place: Place, flag: bool) -> Result<(), AllocError>
    ensures { IfOk result
        (MakesWhole (emit (checks flag place (Expect Frame) Done)) lowerer.old lowerer.new) }
{
    if flag {
        lowerer.maker.item(place, Item::Expect(Check::Frame))?;
    }
    Ok(())
}

/// How the function of a number is invoked.
fn invocation_of(number: u32, main: u32) -> Invocation
    ensures { at_startup result ≡ nat_eq number main }
{
    if number == main {
        Invocation::Startup
    } else {
        Invocation::Call
    }
}

/// Whether the room for a frame is to be checked, which no caller does for main before it begins.
fn needs_check(invocation: Invocation, frame: u64) -> bool
    ensures { result ≡ (at_startup invocation && not (nat_eq frame 0)) }
{
    match invocation {
        Invocation::Startup => frame != 0,
        Invocation::Call => false,
    }
}

/// The end of main, with status 0, or of another function, which returns 0.
fn end_of(invocation: Invocation) -> Item
    ensures { result ≡ (if at_startup invocation then Halt (Number 0) else Return (Number 0)) }
{
    let zero = Operand::Number(0);
    match invocation {
        Invocation::Startup => Item::Halt(zero),
        Invocation::Call => Item::Return(zero),
    }
}

/// A number of things, which is a word.
fn count_of(number: usize) -> u32
    requires { number < 2 ^ 32 }
    ensures { result ≡ number }
{
    number as u32
}

// Words are below 2^32.
fn see_word(word: u32)
    ensures { word < 2 ^ 32 }
{}

/// The form of a function, with the links of its file. `none` is the number of no function.
fn lower_with(
    alloc: Global,
    links: &Links,
    none: u32,
    invocation: Invocation,
    f: &Function,
) -> Result<FormFunction, AllocError>
    requires numbered { IsNumbered f.now }
    requires numbers { HasNumbersWith none links.now (at_startup invocation) f.now }
    ensures { IfOk result (IsFormWith none links.now (at_startup invocation) f.now) }
{
    see_word(f.variables);
    let mut lowerer = Lowerer::new(alloc, f.variables);
    check_frame(&mut lowerer, f.place, needs_check(invocation, f.frame))?;
    store_parameters(&mut lowerer, f.place, f.parameters.as_slice())?;
    make_statements(&mut lowerer, links, none, f.body.as_slice())?;
    let Lowerer {
        alloc: _,
        maker,
        later: _,
    } = lowerer;
    let variables = maker.next();
    let body = close(maker.into_statements(), f.place, end_of(invocation))?;
    let name = Text::from_str(alloc, f.name.as_str())?;
    let parameters = count_of(f.parameters.len());
    Ok(FormFunction {
        name,
        parameters,
        variables,
        frame: f.frame,
        body: Items::from_vec(body),
    })
}

/// The form of the function of a number in a program. A file that isn't there has no links.
fn lower_function(
    alloc: Global,
    program: &Program,
    none: u32,
    number: u32,
    f: &Function,
) -> Result<FormFunction, AllocError>
    requires none { none ≡ length program.now.functions }
    requires numbered { IsNumbered f.now }
    requires numbers { HasNumbers program.now number f.now }
    ensures { IfOk result (IsFunctionFormOf program.now number f.now) }
{
    let invocation = invocation_of(number, program.main);
    match program.links.as_slice().get(f.file as usize) {
        Some(links) => {
            let g = lower_with(alloc, links, none, invocation, f)?;
            Ok(g)
        }
        None => {
            let nothing = Links {
                addresses: Items::new(alloc),
                functions: Items::new(alloc),
            };
            let g = lower_with(alloc, &nothing, none, invocation, f)?;
            Ok(g)
        }
    }
}

/// The forms of all these functions of a program, in order.
fn lower_each(
    alloc: Global,
    program: &Program,
    none: u32,
    functions: &[Function],
) -> Result<Vec<FormFunction>, AllocError>
    requires none { none ≡ length program.now.functions }
    requires few { length functions.now < 2 ^ 32 }
    requires numbered { AllByRecursion IsNumbered functions.now }
    requires numbers { HaveNumbers program.now functions.now }
    ensures { IfOk result (λ gs. AreFormsOf program.now 0 functions.now gs.items) }
{
    let mut forms = Vec::new(alloc);
    let mut number = 0;
    for f in functions {
        let form = lower_function(alloc, program, none, number, f)?;
        forms.push(form)?;
        number += 1;
    }
    Ok(forms)
}

/// The forms of all functions of a program, in order.
pub fn lower_functions(alloc: Global, program: &Program) -> Result<Vec<FormFunction>, AllocError>
    requires few { length program.now.functions < 2 ^ 32 }
    requires numbers { HaveNumbers program.now program.now.functions }
    ensures { IfOk result (λ gs. AreFormsOf program.now 0 program.now.functions gs.items) }
{
    let none = count_of(program.functions.len());
    let forms = lower_each(alloc, program, none, program.functions.as_slice())?;
    Ok(forms)
}
