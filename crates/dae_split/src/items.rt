// A list's steps as they grow by an item.

ghost use Rattle.std.specs.Prelude.{◌≡◌, ℕ, ◌+◌, ◌<◌, ◌≤◌, ◌^◌, Bool, true, false, List, [], ◌∷◌, ◌++◌, if◌then◌else◌, length, slice_get, not, OnOk, IfOk};
ghost use Rattle.dae_base.specs.declared.Place.{Place};
ghost use Rattle.dae_ir.specs.Classes.{classes_of, classes_in};
ghost use Rattle.dae_ir.specs.Rounds.{Rounds, closed, Joins, Closes};
ghost use Rattle.dae_ir.specs.Streams.{set_of, arguments_in, kept, group_of};
ghost use Rattle.dae_ir.specs.Scope.{TakesArguments};
ghost use Rattle.dae_ir.specs.declared.form.Item.TheVariants.{Expect};
ghost use Rattle.dae_ir.specs.declared.stream.Part.{Part};
ghost use Rattle.dae_split.specs.Making.{is_a, ArgumentsFit, Adds};
ghost use Rattle.dae_split.specs.Stretches.{Extends, StandsAlone, placed_behind, placed_item};

use crate::classes::{has_check, needs};
use crate::groups::{put, put_group};
use crate::parts::is_full;
use crate::work::{Stretch, Task};
use dae_base::{Items, Place, Side};
use dae_ir::{Action, Argument, Check, Class, Function, Item, Last, Mark, Operand, Part};
use std::alloc::{AllocError, Global};

fn end_group(
    x: &mut Stretch,
    tables: &[Items<Class>],
    task: Task,
    last: Last,
) -> Result<(), AllocError>
    requires { x.old.number < 2 ^ 63 }
    ensures steps { OnOk result
        (Adds (group_of (is_a task.side)
        (classes_of tables.now task.function) x.old.number x.old.group.items last) x.old.steps.items
        x.new.steps.items) }
    ensures group { OnOk result (x.new.group.items ≡ []) }
    ensures number { OnOk result (x.new.number ≡ x.old.number + 1) }
{
    put_group(&mut x.steps, tables, task, x.number, &x.group, last)?;
    x.group.clear();
    x.number += 1;
    Ok(())
}

/// Ends the group so far, if it isn't empty.
pub fn close(x: &mut Stretch, tables: &[Items<Class>], task: Task) -> Result<(), AllocError>
    requires { x.old.number < 2 ^ 63 }
    ensures made { OnOk result
        ((outside : Bool) (k : Rounds)
        → Extends outside task tables.now x.old x.new k (closed x.old.group.items k)) }
    ensures group { OnOk result (x.new.group.items ≡ []) }
    ensures number { OnOk result (x.new.number ≤ x.old.number + 1) }
{
    if !x.group.is_empty() {
        end_group(x, tables, task, Last::Nothing)?;
    }
    Ok(())
}

fn add_part(
    x: &mut Stretch,
    tables: &[Items<Class>],
    task: Task,
    part: Part,
) -> Result<(), AllocError>
    requires { x.old.number < 2 ^ 63 }
    ensures made { OnOk result
        ((outside : Bool) (place : Place) (r : List Part → Rounds)
        → Extends outside task tables.now x.old x.new (r x.new.group.items)
        (placed_behind task tables.now x.old place (Joins part) r)) }
    ensures number { OnOk result (x.new.number ≤ x.old.number + 1) }
{
    if is_full(tables, task.function, task.cap, &x.group, &part) {
        close(x, tables, task)?;
        x.group.push(part)?;
        Ok(())
    } else {
        x.group.push(part)?;
        Ok(())
    }
}

fn add_last(
    x: &mut Stretch,
    tables: &[Items<Class>],
    task: Task,
    last: Last,
) -> Result<(), AllocError>
    requires { x.old.number < 2 ^ 63 }
    ensures made { OnOk result
        ((outside : Bool) (place : Place) (r : List Part → Rounds)
        → Extends outside task tables.now x.old x.new (r x.new.group.items)
        (placed_behind task tables.now x.old place (Closes last) r)) }
    ensures number { OnOk result (x.new.number ≤ x.old.number + 1) }
{
    end_group(x, tables, task, last)?;
    Ok(())
}

// What stands between groups is one action.
fn add_jump(
    x: &mut Stretch,
    tables: &[Items<Class>],
    task: Task,
    place: Place,
    action: Action,
) -> Result<(), AllocError>
    requires { x.old.number < 2 ^ 63 }
    ensures made { OnOk result (StandsAlone task tables.now x.old x.new place action) }
    ensures number { OnOk result (x.new.number ≤ x.old.number + 1) }
{
    close(x, tables, task)?;
    let group = x.number;
    put(&mut x.steps, true, Mark { place, group }, action)
}

fn put_argument(
    arguments: &mut Items<Argument>,
    flag: bool,
    parameter: u32,
    operand: Operand,
) -> Result<(), AllocError>
    ensures { OnOk result
        (arguments.new
        ≡ (if flag then arguments.old ++ record { parameter = parameter; operand = operand }
        ∷ [] else arguments.old)) }
{
    if flag {
        arguments.push(Argument { parameter, operand })?;
    }
    Ok(())
}

// The arguments that the side needs, for the parameters from 1 on.
fn arguments(
    alloc: Global,
    tables: &[Items<Class>],
    callee: usize,
    side: Side,
    parameters: u32,
    operands: &[Operand],
) -> Result<Items<Argument>, AllocError>
    requires { length operands.now ≡ parameters }
    ensures { IfOk result
        (λ list. list
        ≡ arguments_in (set_of (is_a side) (classes_of tables.now callee)) 1 operands.now) }
{
    let mut arguments = Items::new(alloc);
    let mut parameter = 0;
    for operand in operands {
        parameter += 1;
        let flag = needs(tables, callee, side, parameter);
        put_argument(&mut arguments, flag, parameter, *operand)?;
    }
    Ok(arguments)
}

fn parameters(functions: &[Function], callee: u32) -> u32
    ensures { (count : ℕ) → TakesArguments (slice_get functions.now callee) count → count ≡ result }
{
    match functions.get(callee as usize) {
        Some(function) => function.parameters,
        None => 0,
    }
}

// The variable, where the side needs it.
fn kept_variable(tables: &[Items<Class>], task: Task, v: u32) -> Option<u32>
    ensures { result ≡ kept (set_of (is_a task.side) (classes_of tables.now task.function) v) v }
{
    needs(tables, task.function, task.side, v).then_some(v)
}

// The operand of a return, where the side needs the result.
fn kept_result(tables: &[Items<Class>], task: Task, operand: Operand) -> Option<Operand>
    ensures { result
        ≡ kept (set_of (is_a task.side) (classes_of tables.now task.function) 0) operand }
{
    needs(tables, task.function, task.side, 0).then_some(operand)
}

// The status of a halt, which is E's.
fn kept_status(side: Side, operand: Operand) -> Option<Operand>
    ensures { result ≡ kept (not (is_a side)) operand }
{
    match side {
        Side::A => None,
        Side::E => Some(operand),
    }
}

// The arguments of a call that the side needs.
fn call_arguments(
    alloc: Global,
    functions: &[Function],
    tables: &[Items<Class>],
    side: Side,
    callee: u32,
    operands: &[Operand],
) -> Result<Items<Argument>, AllocError>
    requires { TakesArguments (slice_get functions.now callee) (length operands.now) }
    ensures { IfOk result
        (λ list. list
        ≡ arguments_in (set_of (is_a side) (classes_of tables.now callee)) 1 operands.now) }
{
    let count = parameters(functions, callee);
    let list = arguments(alloc, tables, callee as usize, side, count, operands)?;
    Ok(list)
}

// A check that A decides is a part of the group, and one that E decides ends it.
fn add_check(
    x: &mut Stretch,
    tables: &[Items<Class>],
    task: Task,
    place: Place,
    check: Check,
) -> Result<(), AllocError>
    requires { x.old.number < 2 ^ 63 }
    ensures made { OnOk result
        ((outside : Bool) (r : List Part → Rounds)
        → Extends outside task tables.now x.old x.new (r x.new.group.items)
        (placed_item task tables.now x.old place (Expect check) r)) }
    ensures number { OnOk result (x.new.number ≤ x.old.number + 1) }
{
    if has_check(tables, task.function, check) {
        add_part(x, tables, task, Part::Tests(place, check))
    } else {
        add_last(x, tables, task, Last::Decides(place, check))
    }
}

/// What the side does of an item. Of a call it needs to know how many parameters the function has.
pub fn add_item(
    x: &mut Stretch,
    functions: &[Function],
    tables: &[Items<Class>],
    task: Task,
    place: Place,
    item: &Item,
) -> Result<(), AllocError>
    requires below { x.old.number < 2 ^ 63 }
    requires fit { ArgumentsFit functions.now item.now }
    ensures made { OnOk result
        ((outside : Bool) (r : List Part → Rounds)
        → Extends outside task tables.now x.old x.new (r x.new.group.items)
        (placed_item task tables.now x.old place item.now r)) }
    ensures number { OnOk result (x.new.number ≤ x.old.number + 1) }
{
    match item {
        Item::Assign(v, value) => add_part(x, tables, task, Part::Sets(place, *v, *value)),
        Item::Load(v, kind, address) => {
            let part = Part::Loads(place, *v, *kind, *address);
            add_part(x, tables, task, part)
        }
        Item::Store(width, address, datum) => {
            let last = Last::Stores(place, *width, *address, *datum);
            add_last(x, tables, task, last)
        }
        Item::Print(spelling, operand) => {
            let last = Last::Prints(place, *spelling, *operand);
            add_last(x, tables, task, last)
        }
        Item::Expect(check) => add_check(x, tables, task, place, *check),
        Item::Break => add_jump(x, tables, task, place, Action::Break),
        Item::Continue => add_jump(x, tables, task, place, Action::Continue),
        Item::Call(v, callee, operands) => {
            let operands = operands.as_slice();
            let list = call_arguments(x.alloc, functions, tables, task.side, *callee, operands)?;
            let variable = kept_variable(tables, task, *v);
            add_jump(
                x,
                tables,
                task,
                place,
                Action::Call(variable, *callee, list),
            )
        }
        Item::Return(operand) => {
            let result = kept_result(tables, task, *operand);
            add_jump(x, tables, task, place, Action::Return(result))
        }
        Item::Halt(operand) => {
            let status = kept_status(task.side, *operand);
            add_jump(x, tables, task, place, Action::Stop(status))
        }
    }
}
