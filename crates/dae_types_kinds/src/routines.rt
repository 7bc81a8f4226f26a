// What a function's row and its type say.

ghost use Rattle.std.specs.Prelude.{◌≡◌};
ghost use Rattle.dae_types_kinds.specs.Values.{is_printf, library_of, parameters_of, result_of, routine_type};

use crate::numbers::{INT_ID, NO_PARAMETERS_ID};
use crate::tables::{LibraryFunction, Routine};
use crate::types::Shape;

/// The type of a function, by its row. A number that is no function's has none; int stands for it.
pub fn routine_type(routine: Option<Routine>) -> usize
    ensures { result ≡ routine_type routine }
{
    match routine {
        Some(routine) => routine.type_id,
        None => INT_ID,
    }
}

/// Which function of the standard library a function is, if it is one.
pub fn library_of(routine: Option<Routine>) -> Option<LibraryFunction>
    ensures { result ≡ library_of routine }
{
    match routine {
        Some(routine) => routine.library,
        None => None,
    }
}

/// Whether a function is the library's `printf`.
pub fn is_printf(library: Option<LibraryFunction>) -> bool
    ensures { result ≡ is_printf library }
{
    match library {
        Some(LibraryFunction::Printf) => true,
        _ => false,
    }
}

/// The type that a function gives. What is no function gives none; int stands for it.
pub fn result_of(shape: Shape) -> usize
    ensures { result ≡ result_of shape }
{
    match shape {
        Shape::Function(gives, _) => gives,
        _ => INT_ID,
    }
}

/// The list of a function's parameters. What is no function has none.
pub fn parameters_of(shape: Shape) -> usize
    ensures { result ≡ parameters_of shape }
{
    match shape {
        Shape::Function(_, parameters) => parameters,
        _ => NO_PARAMETERS_ID,
    }
}
