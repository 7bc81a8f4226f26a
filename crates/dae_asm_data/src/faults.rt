//! What code finds of a line, and why lines say no values.

ghost use Rattle.std.specs.Prelude.{◌≡◌};
ghost use Rattle.dae_asm_data.specs.declared.faults.ValueFault.TheVariants as faults;

use std::alloc::{AllocError, AllocFailed};

/// What a line says.
#[derive(Drop)]
pub enum Found<T> {
    /// Nothing of this kind.
    Nothing,
    /// This value.
    Value(T),
    /// A number that its field does not hold.
    Broken,
}

/// Why lines of a text say no values.
#[derive(Drop)]
pub enum ValueFault {
    /// The first line with a number that its field does not hold.
    Line(u32),
    /// Memory ran out.
    Memory,
}

impl From<AllocError> for ValueFault {
    ghost from_gives = { λ _ e. e ≡ faults.Memory };

    fn from(_e: AllocError) -> ValueFault {
        ValueFault::Memory
    }
}

impl<T: Drop> From<AllocFailed<T>> for ValueFault {
    ghost from_gives = { λ _ e. e ≡ faults.Memory };

    fn from(_e: AllocFailed<T>) -> ValueFault {
        ValueFault::Memory
    }
}
