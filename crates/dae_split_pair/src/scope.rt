// Whether a form is well made.

ghost use Rattle.std.specs.Prelude.{◌↔◌, slice_get, IsTrue};
ghost use Rattle.std.specs.List.{AllByRecursion};
ghost use Rattle.dae_ir.specs.Scope.{FunctionIn, IsMain, IsScoped};

use crate::ends::{closes, never_returns};
use crate::loops::stays;
use crate::names::names_in;
use dae_ir::{Function, Ir};

fn function_in(functions: &[Function], function: &Function) -> bool
    ensures { IsTrue result ↔ FunctionIn functions.now function.now }
{
    let body = function.body.as_slice();
    function.parameters < function.variables
        && (names_in(functions, function.variables, body) && (stays(false, body) && closes(body)))
}

fn functions_in(functions: &[Function]) -> bool
    ensures { IsTrue result ↔ AllByRecursion (FunctionIn functions.now) functions.now }
{
    for function in functions {
        if !function_in(functions, function) {
            return false;
        }
    }
    true
}

fn is_main(functions: &[Function], main: u32) -> bool
    ensures { IsTrue result ↔ IsMain (slice_get functions.now main) }
{
    match functions.get(main as usize) {
        Some(function) => { function.parameters == 0 && never_returns(function.body.as_slice()) }
        None => false,
    }
}

/// Whether a form is well made: it names only what is there (main and each function that is called or checked for, each
/// variable of its function, and a loop around each Break and Continue); a function has a variable for its result, which a
/// return alone sets, and for each parameter, and a call gives an argument for each; no code runs off its end; and main
/// has no parameters and ends by a halt alone.
pub fn is_scoped(ir: &Ir) -> bool
    ensures { IsTrue result ↔ IsScoped ir.now }
{
    let functions = ir.functions.as_slice();
    is_main(functions, ir.main) && functions_in(functions)
}
