// Why the loads of a form aren't reused.

ghost use Rattle.std.specs.Prelude.{◌≡◌};
ghost use Rattle.dae_alias.specs.declared.errors.ReuseError.TheVariants as errors;

use std::alloc::{AllocError, AllocFailed};

/// Memory is wanting, or words don't number the variables of a function and one more for each of its loads.
#[derive(Clone, Copy, PartialEq, Eq, Debug)]
pub enum ReuseError {
    Memory,
    Variables,
}

impl From<AllocError> for ReuseError {
    ghost from_gives = { λ _ e. e ≡ errors.Memory };

    fn from(_e: AllocError) -> ReuseError {
        ReuseError::Memory
    }
}

impl<T: Drop> From<AllocFailed<T>> for ReuseError {
    ghost from_gives = { λ _ e. e ≡ errors.Memory };

    fn from(_e: AllocFailed<T>) -> ReuseError {
        ReuseError::Memory
    }
}
