// Why a form, or a part of one, isn't changed.

ghost use Rattle.std.specs.Prelude.{◌≡◌};
ghost use Rattle.dae_ir.specs.declared.unchanged.NotChanged.TheVariants as errors;

use std::alloc::{AllocError, AllocFailed};

/// Memory is wanting, or what would be changed is kept as it is: there is nothing to change in it, or it may not be.
#[derive(Clone, Copy, PartialEq, Eq, Debug)]
pub enum NotChanged {
    Memory,
    Kept,
}

impl From<AllocError> for NotChanged {
    ghost from_gives = { λ _ e. e ≡ errors.Memory };

    fn from(_e: AllocError) -> NotChanged {
        NotChanged::Memory
    }
}

impl<T: Drop> From<AllocFailed<T>> for NotChanged {
    ghost from_gives = { λ _ e. e ≡ errors.Memory };

    fn from(_e: AllocFailed<T>) -> NotChanged {
        NotChanged::Memory
    }
}
