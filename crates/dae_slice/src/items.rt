// The links of each statement.

ghost use Rattle.std.specs.Prelude.{◌≡◌, ◌+◌, ◌<◌, ◌≤◌, ℕ, true, false, OnOk, length, slice_get};
ghost use Rattle.std.specs.List.{AllByRecursion};
ghost use Rattle.dae_ir.specs.Classes.{VariableSet, has, has_test, has_value, ArgumentsKept, CallKept, AddressesKept, NeedsKept, TestKept};
ghost use Rattle.dae_ir.specs.declared.form.Function.{Function};
ghost use Rattle.dae_ir.specs.declared.form.Item.TheVariants.{Expect};
ghost use Rattle.dae_slice.specs.Graphs.{Family, exists, marked, Adds};
ghost use Rattle.dae_slice.specs.Links.{HasTargets, CallHasTargets, ItemKept, ConditionKept};

use crate::graph::{Graph, SliceNode};
use dae_ir::{Check, Item, Operand, Test, Value};
use std::alloc::AllocError;

/// Whose sets are sought: A's, or E's where A's are marked in the graph.
#[derive(Clone, Copy)]
pub enum Sought<'a> {
    Addresses,
    Needs(&'a Graph),
}

fn seed_operand(graph: &mut Graph, function: usize, operand: Operand) -> Result<(), AllocError>
    ensures { OnOk result (Adds (λ c. has (c function) operand ≡ true) graph.old graph.new) }
{
    if let Operand::Variable(variable) = operand {
        let variable = variable as usize;
        graph.seed(SliceNode { function, variable })?;
    }
    Ok(())
}

fn seed_test(graph: &mut Graph, function: usize, test: Test) -> Result<(), AllocError>
    ensures { OnOk result (Adds (λ c. has_test (c function) test ≡ true) graph.old graph.new) }
{
    seed_operand(graph, function, test.left)?;
    seed_operand(graph, function, test.right)?;
    Ok(())
}

fn link_operand(
    graph: &mut Graph,
    function: usize,
    operand: Operand,
    to: SliceNode,
) -> Result<(), AllocError>
    requires { exists graph.old to.function to.variable ≡ true }
    ensures { OnOk result
        (Adds (λ c. c to.function to.variable ≡ true
        → has (c function) operand ≡ true) graph.old graph.new) }
{
    if let Operand::Variable(variable) = operand {
        let variable = variable as usize;
        graph.link(SliceNode { function, variable }, to)?;
    }
    Ok(())
}

fn link_two(
    graph: &mut Graph,
    function: usize,
    operands: (Operand, Operand),
    to: SliceNode,
) -> Result<(), AllocError>
    requires { exists graph.old to.function to.variable ≡ true }
    ensures { OnOk result
        (Adds (λ c. (c to.function to.variable ≡ true → has (c function) operands.0 ≡ true)
        × (c to.function to.variable ≡ true
        → has (c function) operands.1 ≡ true)) graph.old graph.new) }
{
    link_operand(graph, function, operands.0, to)?;
    link_operand(graph, function, operands.1, to)?;
    Ok(())
}

// What stands in the value leads to the variable.
fn link_value(graph: &mut Graph, value: Value, to: SliceNode) -> Result<(), AllocError>
    requires { exists graph.old to.function to.variable ≡ true }
    ensures { OnOk result
        (Adds (λ c. c to.function to.variable ≡ true
        → has_value (c to.function) value ≡ true) graph.old graph.new) }
{
    match value {
        Value::Same(x) => link_operand(graph, to.function, x, to),
        Value::Extended(_, x) => link_operand(graph, to.function, x, to),
        Value::Binary(_, x, y) => link_two(graph, to.function, (x, y), to),
        Value::Holds(test) => link_two(graph, to.function, (test.left, test.right), to),
        Value::FrameAddress(_) => Ok(()),
    }
}

// The arguments lead to the parameters.
fn link_arguments(
    graph: &mut Graph,
    function: usize,
    callee: usize,
    arguments: &[Operand],
) -> Result<(), AllocError>
    requires { (k : ℕ) → 0 < k → k ≤ length arguments.now → exists graph.old callee k ≡ true }
    ensures { OnOk result
        (Adds (λ c. ArgumentsKept (c callee) (c function) 1 arguments.now) graph.old graph.new) }
{
    for (index, argument) in arguments.iter().enumerate() {
        let to = SliceNode {
            function: callee,
            variable: index + 1,
        };
        link_operand(graph, function, *argument, to)?;
    }
    Ok(())
}

fn link_call(
    graph: &mut Graph,
    to: SliceNode,
    callee: usize,
    arguments: &[Operand],
) -> Result<(), AllocError>
    requires { CallHasTargets (exists graph.old) to.function to.variable callee arguments.now }
    ensures { OnOk result
        (Adds (λ c.
        CallKept (c callee) (c to.function) to.variable arguments.now) graph.old graph.new) }
{
    link_arguments(graph, to.function, callee, arguments)?;
    let result = SliceNode {
        function: callee,
        variable: 0,
    };
    graph.link(result, to)?;
    Ok(())
}

fn link_addresses(graph: &mut Graph, function: usize, item: &Item) -> Result<(), AllocError>
    requires { HasTargets (exists graph.old) function item.now }
    ensures { OnOk result (Adds (λ c. AddressesKept c (c function) item.now) graph.old graph.new) }
{
    match item {
        Item::Assign(variable, value) => {
            let variable = *variable as usize;
            link_value(graph, *value, SliceNode { function, variable })
        }
        Item::Load(_, _, address) => seed_operand(graph, function, *address),
        Item::Store(_, address, _) => seed_operand(graph, function, *address),
        Item::Expect(check) => seed_address(graph, function, *check),
        Item::Call(variable, callee, arguments) => {
            let variable = *variable as usize;
            let to = SliceNode { function, variable };
            link_call(graph, to, *callee as usize, arguments.as_slice())
        }
        Item::Return(operand) => {
            let variable = 0;
            link_operand(graph, function, *operand, SliceNode { function, variable })
        }
        _ => Ok(()),
    }
}

fn link_needs(graph: &mut Graph, a: &Graph, function: usize, item: &Item) -> Result<(), AllocError>
    requires { HasTargets (exists graph.old) function item.now }
    ensures { OnOk result
        (Adds (λ c.
        NeedsKept c (marked a.now function) (c function) item.now) graph.old graph.new) }
{
    match item {
        Item::Assign(variable, value) => link_sent(graph, a, function, *variable, *value),
        Item::Store(_, _, datum) => seed_operand(graph, function, *datum),
        Item::Print(_, operand) => seed_operand(graph, function, *operand),
        Item::Halt(operand) => seed_operand(graph, function, *operand),
        Item::Expect(check) => seed_checked(graph, a, function, *check),
        Item::Call(variable, callee, arguments) => {
            let variable = *variable as usize;
            let to = SliceNode { function, variable };
            link_call(graph, to, *callee as usize, arguments.as_slice())
        }
        Item::Return(operand) => {
            let variable = 0;
            link_operand(graph, function, *operand, SliceNode { function, variable })
        }
        _ => Ok(()),
    }
}

// An assignment to a variable that A needs leads nowhere, since A sends the value.
fn link_sent(
    graph: &mut Graph,
    a: &Graph,
    function: usize,
    variable: u32,
    value: Value,
) -> Result<(), AllocError>
    requires { exists graph.old function variable ≡ true }
    ensures { OnOk result
        (Adds (λ c. marked a.now function variable ≡ false → c function variable ≡ true
        → has_value (c function) value ≡ true) graph.old graph.new) }
{
    let variable = variable as usize;
    let to = SliceNode { function, variable };
    if a.needs(to) {
        Ok(())
    } else {
        link_value(graph, value, to)
    }
}

// The address that is checked is A's.
fn seed_address(graph: &mut Graph, function: usize, check: Check) -> Result<(), AllocError>
    ensures { OnOk result
        (Adds (λ c. AddressesKept c (c function) (Expect check)) graph.old graph.new) }
{
    match check {
        Check::Place(_, address) => seed_operand(graph, function, address),
        Check::InBounds(address, _) => seed_operand(graph, function, address),
        _ => Ok(()),
    }
}

// A check that a number isn't 0 is E's where A doesn't have the number.
fn seed_checked(
    graph: &mut Graph,
    a: &Graph,
    function: usize,
    check: Check,
) -> Result<(), AllocError>
    ensures { OnOk result
        (Adds (λ c.
        NeedsKept c (marked a.now function) (c function) (Expect check)) graph.old graph.new) }
{
    match check {
        Check::Zero(operand) => {
            if a.has(function, operand) {
                Ok(())
            } else {
                seed_operand(graph, function, operand)
            }
        }
        _ => Ok(()),
    }
}

/// Adds the links of a statement that holds no others.
pub fn link_item(
    graph: &mut Graph,
    sought: Sought,
    function: usize,
    item: &Item,
) -> Result<(), AllocError>
    requires { HasTargets (exists graph.old) function item.now }
    ensures { OnOk result
        (Adds (λ c. ItemKept sought.entry c function item.now) graph.old graph.new) }
{
    match sought {
        Sought::Addresses => link_addresses(graph, function, item),
        Sought::Needs(a) => link_needs(graph, a, function, item),
    }
}

/// Adds what a condition demands: E needs it where A doesn't decide it.
pub fn link_test(
    graph: &mut Graph,
    sought: Sought,
    function: usize,
    test: Test,
) -> Result<(), AllocError>
    ensures { OnOk result
        (Adds (λ c. ConditionKept sought.entry c function test) graph.old graph.new) }
{
    match sought {
        Sought::Addresses => Ok(()),
        Sought::Needs(a) => seed_decided(graph, a, function, test),
    }
}

fn seed_decided(graph: &mut Graph, a: &Graph, function: usize, test: Test) -> Result<(), AllocError>
    ensures { OnOk result
        (Adds (λ c. TestKept (marked a.now function) (c function) test) graph.old graph.new) }
{
    if a.has_test(function, test) {
        Ok(())
    } else {
        seed_test(graph, function, test)
    }
}
