// Why a file isn't known to be sound.

use std::alloc::{AllocError, AllocFailed};

/// Something of a file isn't sound, or memory was wanting.
#[derive(Clone, Copy)]
pub enum Doubt {
    Unsound,
    Memory,
}

impl From<AllocError> for Doubt {
    fn from(_e: AllocError) -> Doubt {
        Doubt::Memory
    }
}

impl<T: Drop> From<AllocFailed<T>> for Doubt {
    fn from(_e: AllocFailed<T>) -> Doubt {
        Doubt::Memory
    }
}
