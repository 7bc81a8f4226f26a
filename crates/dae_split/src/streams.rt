// The streams of whole functions and programs.

ghost use Rattle.std.specs.Prelude.{◌≡◌, ◌≤◌, IfOk};
ghost use Rattle.dae_ir.specs.Form.{form_of};
ghost use Rattle.dae_ir.specs.Classes.{classes_of};
ghost use Rattle.dae_ir.specs.Programs.{IsFunctionOf, AreFunctionsOf, IsStreamOf, IsPairOf};
ghost use Rattle.dae_ir.specs.Scope.{IsScoped};
ghost use Rattle.dae_split.specs.Making.{is_a, CallsFit, AllCallsFit};

use crate::walk::list;
use crate::work::{Task, Zone};
use dae_base::{Items, Side, Text};
use dae_ir::{Class, Function, Ir, Pair, Stream, StreamFunction};
use std::alloc::{AllocError, Global};

fn split_function(
    alloc: Global,
    functions: &[Function],
    tables: &[Items<Class>],
    task: Task,
    function: &Function,
) -> Result<StreamFunction, AllocError>
    requires { CallsFit functions.now (form_of function.now.body) }
    ensures { IfOk result
        (λ made.
        IsFunctionOf (is_a task.side) (classes_of tables.now)
        (classes_of tables.now task.function) task.cap function.now made) }
{
    let name = Text::from_str(alloc, function.name.as_str())?;
    let body = list(
        alloc,
        functions,
        tables,
        task,
        Zone::Outside,
        function.body.as_slice(),
    )?;
    Ok(StreamFunction {
        name,
        parameters: function.parameters,
        variables: function.variables,
        frame: function.frame,
        body: Items::from_vec(body),
    })
}

fn split_functions(
    alloc: Global,
    functions: &[Function],
    tables: &[Items<Class>],
    side: Side,
    cap: u8,
) -> Result<Items<StreamFunction>, AllocError>
    requires { AllCallsFit functions.now functions.now }
    ensures { IfOk result
        (λ list. AreFunctionsOf (is_a side) (classes_of tables.now) cap 0 functions.now list) }
{
    let mut streams = Items::new(alloc);
    for i in 0..functions.len() {
        let task = Task {
            side,
            function: i,
            cap,
        };
        streams.push(split_function(alloc, functions, tables, task, &functions[i])?)?;
    }
    Ok(streams)
}

fn stream(
    alloc: Global,
    ir: &Ir,
    tables: &[Items<Class>],
    side: Side,
    cap: u8,
) -> Result<Stream, AllocError>
    requires { IsScoped ir.now }
    ensures { IfOk result
        (λ stream. IsStreamOf (is_a side) (classes_of tables.now) cap ir.now stream) }
{
    let functions = split_functions(alloc, ir.functions.as_slice(), tables, side, cap)?;
    Ok(Stream {
        side,
        memory: ir.memory,
        frames: ir.frames,
        calls: ir.calls,
        main: ir.main,
        functions,
    })
}

/// The pair of a form with these classes of its variables, a table per function, where a group holds at most so many
/// loads for E and as many copies.
pub fn split(alloc: Global, ir: &Ir, classes: &[Items<Class>], cap: u8) -> Result<Pair, AllocError>
    requires scoped { IsScoped ir.now }
    requires some { 1 ≤ cap }
    requires few { cap ≤ 64 }
    ensures { IfOk result (λ pair. IsPairOf ir.now classes.now cap pair) }
{
    let a = stream(alloc, ir, classes, Side::A, cap)?;
    let e = stream(alloc, ir, classes, Side::E, cap)?;
    Ok(Pair { a, e })
}
