// Why a stream has no code.

ghost use Rattle.std.specs.Prelude.{◌≡◌};
ghost use Rattle.dae_link.specs.declared.error.CodeError.TheVariants as errors;

use std::alloc::{AllocError, AllocFailed};
use thiserror::Error;

/// Memory is wanting, the code has too many words, or the private memory has.
#[derive(Clone, Copy, Debug, PartialEq, Eq, Error)]
pub enum CodeError {
    #[error("out of memory")]
    Memory,
    #[error("the code is too long")]
    Code,
    #[error("the private memory is too large")]
    Private,
}

impl From<AllocError> for CodeError {
    ghost from_gives = { λ _ e. e ≡ errors.Memory };

    fn from(_e: AllocError) -> CodeError {
        CodeError::Memory
    }
}

impl<T: Drop> From<AllocFailed<T>> for CodeError {
    ghost from_gives = { λ _ e. e ≡ errors.Memory };

    fn from(_e: AllocFailed<T>) -> CodeError {
        CodeError::Memory
    }
}
