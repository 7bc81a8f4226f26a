// Why files don't join.

ghost use Rattle.std.specs.Prelude.{◌≡◌};
ghost use Rattle.dae_unit.specs.declared.errors.JoinError.TheVariants.{Memory};

use dae_base::Place;
use std::alloc::{AllocError, AllocFailed};

/// How two declarations of one name can clash: both are definitions, or their types differ.
#[derive(Clone, Copy)]
pub enum Clash {
    Definitions,
    Types,
}

/// Why files don't join, in the order in which causes are told: two definitions of one name; two declarations of one name
/// with different types; a use of an object or function that no file defines; no function `main`; data that end, at a
/// multiple of 4, behind the memory; no memory for joining.
#[derive(Clone, Copy, PartialEq, Eq, Debug)]
pub enum JoinError {
    DefinedTwice(Place, Place),
    TypesDiffer(Place, Place),
    NotDefined(Place),
    NoMain,
    DataTooLarge(u64),
    Memory,
}

impl From<AllocError> for JoinError {
    ghost from_gives = { λ _ e. e ≡ Memory };

    fn from(_e: AllocError) -> JoinError {
        JoinError::Memory
    }
}

impl<T: Drop> From<AllocFailed<T>> for JoinError {
    ghost from_gives = { λ _ e. e ≡ Memory };

    fn from(_e: AllocFailed<T>) -> JoinError {
        JoinError::Memory
    }
}
