//! Why texts say no image.

ghost use Rattle.std.specs.Prelude.{◌≡◌};
ghost use Rattle.dae_asm.specs.declared.errors.AsmError.TheVariants as errors;

use std::alloc::AllocError;
use thiserror::Error;

/// Why a text says no image. Lines count from 1, with those that are empty.
#[derive(Clone, Copy, Debug, PartialEq, Eq, Error)]
pub enum AsmError {
    /// The first line that spells no item or stands out of its order, or one past the last where an
    /// item is missing.
    #[error("line {0} has no such form or stands out of its order")]
    BadLine(u32),
    /// The first line that defines a label a second time or uses one that its side does not define.
    #[error("line {0} has a label that is defined twice or not at all")]
    Label(u32),
    /// The first line with a number that its field does not hold.
    #[error("line {0} has a number out of its range")]
    BadValue(u32),
    /// Memory ran out.
    #[error("out of memory")]
    Memory,
}

impl From<AllocError> for AsmError {
    ghost from_gives = { λ _ e. e ≡ errors.Memory };

    fn from(_e: AllocError) -> AsmError {
        AsmError::Memory
    }
}
