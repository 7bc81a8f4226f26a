// Named texts: the trait of shelves, what each tells of its names and counts, and why its calls fail.
ghost use Rattle.std.specs.Prelude.{◌≡◌, ◌≢◌, ℕ, ◌≤◌, ◌⊎◌, List, [], ◌∷◌, ◌++◌, length, Option, Some, IfOk, OnOk, OnErr, IsErrOf};
ghost use Rattle.dae_io.specs.Faults.{Rose, ShelfFault, fetch_of, keep_of};
ghost use Rattle.dae_io.specs.Told.{IsFirst, IsSilent, TellsSame, TellsSameOfOthers};

use std::alloc::{AllocError, Global};
use thiserror::Error;

/// Why a text was not fetched.
#[derive(Clone, Copy, PartialEq, Eq, Debug, Error)]
pub enum FetchError {
    /// The shelf failed, and counted that.
    #[error("the shelf failed")]
    Failed,
    /// Memory was wanting.
    #[error("out of memory")]
    Memory,
}

/// A text was not kept: the shelf failed, and counted that.
#[derive(Clone, Copy, PartialEq, Eq, Debug)]
pub struct KeepFailed;

/// Named texts. A shelf may tell what some names hold; it counts its faults, up to 2^64 - 1, and knows the last one. Its
/// `given` has the bytes of each keep so far, and stands for contracts alone.
pub trait Shelf {
    ghost told: { Self → List ℕ → Option (List ℕ) };

    ghost count: { Self → ℕ };

    ghost last: { Self → Option ShelfFault };

    ghost given: { Self → List (List ℕ) };

    /// The first `most` bytes of the text that a name holds, or all where it is shorter. What is held doesn't change.
    fn fetch(&mut self, alloc: Global, name: &str, most: u32) -> Result<Vec<u8>, FetchError>
        ensures bytes { IfOk result (λ text. IsFirst most (told self.old name.now) text.items) }
        ensures short { IfOk result (λ text. length text.items ≤ most) }
        ensures held { TellsSame (told self.old) (told self.new) }
        ensures counted { count self.old ≤ count self.new }
        ensures no_fault { result ≢ Err FetchError.Failed → last self.new ≡ last self.old }
        ensures rose { IsErrOf result FetchError.Failed → Rose (count self.old) (count self.new) }
        ensures fault { IsErrOf result FetchError.Failed → last self.new ≡ fetch_of name.now }
        ensures given { given self.new ≡ given self.old };

    /// Lets a name hold these bytes. Where that fails, the name may hold any bytes or none. What other names hold
    /// doesn't change. A shelf that doesn't tell what it keeps tells nothing from then on.
    fn keep(&mut self, name: &str, bytes: &[u8]) -> Result<(), KeepFailed>
        ensures kept { OnOk result
            (IsSilent (told self.new) ⊎ (told self.new name.now ≡ Some bytes.now)) }
        ensures held { IsSilent (told self.new)
            ⊎ TellsSameOfOthers name.now (told self.old) (told self.new) }
        ensures counted { count self.old ≤ count self.new }
        ensures no_fault { OnOk result (last self.new ≡ last self.old) }
        ensures rose { OnErr result (Rose (count self.old) (count self.new)) }
        ensures fault { OnErr result (last self.new ≡ keep_of name.now) }
        ensures given { given self.new ≡ given self.old ++ bytes.now ∷ [] };
}

impl From<AllocError> for FetchError {
    ghost use Rattle.std.specs.Prelude.{◌≡◌};
    ghost use Rattle.dae_io.specs.declared.shelf.FetchError.TheVariants.{Memory};

    ghost from_gives = { λ _ error. error ≡ Memory };

    fn from(_error: AllocError) -> FetchError {
        FetchError::Memory
    }
}
