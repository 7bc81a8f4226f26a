// The two families of sets, as a table.

ghost use Rattle.std.specs.Prelude.{◌≡◌, ℕ, IfOk, length, slice_get};
ghost use Rattle.dae_ir.specs.Classes.{has, is_by_a, classes_in};
ghost use Rattle.dae_ir.specs.Programs.{body_in, AreClassesOf, side};
ghost use Rattle.dae_ir.specs.Scope.{IsScoped, IsIn, TestIn};
ghost use Rattle.dae_slice.specs.Graphs.{marked, in_range};
ghost use Rattle.dae_slice.specs.Links.{CodeKept, CodeHasTargets, IsLeastFor, IsRow, IsTable, HasRows};

use crate::graph::{Graph, SliceNode};
use crate::items::Sought;
use crate::walk::link_statements;
use dae_base::{Items, Side};
use dae_ir::{Class, Function, Ir, Operand, Test};
use std::alloc::{AllocError, Global};

/// The class of each variable of each function: A needs what leads to an address, and E what leads to what is stored,
/// printed, given as a status or decided there, but for what A sends. Memory may be wanting.
pub fn classes(alloc: Global, ir: &Ir) -> Result<Items<Items<Class>>, AllocError>
    requires { IsScoped ir.now }
    ensures least { IfOk result (λ tables. AreClassesOf ir.now tables) }
    ensures rows { IfOk result (λ tables. HasRows ir.now.functions tables) }
{
    let functions = ir.functions.as_slice();
    let a = marks(alloc, functions, Sought::Addresses)?;
    let e = marks(alloc, functions, Sought::Needs(&a))?;
    make_tables(alloc, functions, &a, &e)
}

// The variables that the sought sets have are marked.
fn marks(alloc: Global, functions: &[Function], sought: Sought) -> Result<Graph, AllocError>
    requires targets { (f : ℕ)
        → CodeHasTargets (in_range functions.now) f (body_in (slice_get functions.now f)) }
    requires range { (f : ℕ)
        → CodeKept sought (in_range functions.now) f (body_in (slice_get functions.now f)) }
    ensures { IfOk result (λ g. IsLeastFor sought.entry functions.now (marked g)) }
{
    let mut graph = Graph::new(alloc, functions)?;
    for (number, function) in functions.iter().enumerate() {
        link_statements(&mut graph, sought, number, function.body.as_slice())?;
    }
    graph.spread()?;
    Ok(graph)
}

fn make_tables(
    alloc: Global,
    functions: &[Function],
    a: &Graph,
    e: &Graph,
) -> Result<Items<Items<Class>>, AllocError>
    ensures { IfOk result
        (λ tables.
        IsTable (length functions.now) functions.now (marked a.now) (marked e.now) tables) }
{
    let mut tables = Items::new(alloc);
    for (number, function) in functions.iter().enumerate() {
        tables.push(make_table(alloc, number, function.variables, a, e)?)?;
    }
    Ok(tables)
}

fn make_table(
    alloc: Global,
    function: usize,
    variables: u32,
    a: &Graph,
    e: &Graph,
) -> Result<Items<Class>, AllocError>
    ensures { IfOk result
        (λ row. IsRow variables (marked a.now function) (marked e.now function) row) }
{
    let mut table = Items::new(alloc);
    for variable in 0..variables {
        let variable = variable as usize;
        let node = SliceNode { function, variable };
        table.push(Class {
            a: a.needs(node),
            e: e.needs(node),
        })?;
    }
    Ok(table)
}

/// The processor that decides a condition, by the classes of its function's variables: A where it has all variables of
/// the condition, and else E.
pub fn decider(test: &Test, classes: &[Class]) -> Side
    requires { TestIn (length classes.now) test.now }
    ensures { result ≡ side (is_by_a (classes_in classes.now).s test.now) }
{
    if has(test.left, classes) && has(test.right, classes) {
        Side::A
    } else {
        Side::E
    }
}

fn has(operand: Operand, classes: &[Class]) -> bool
    requires { IsIn (length classes.now) operand }
    ensures { result ≡ has (classes_in classes.now).s operand }
{
    match operand {
        Operand::Variable(variable) => classes[variable as usize].a,
        Operand::Number(_) => true,
    }
}
