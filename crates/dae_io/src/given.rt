// The pieces that a sink or a shelf was given, for contracts alone.
ghost use Rattle.std.specs.Prelude.{◌≡◌, ℕ, List, [], ◌∷◌, ◌++◌};
ghost use base.Fml.{ftrue};
ghost use Rattle.dae_io.specs.Pieces.{pieces_code};

use std::marker::Model;

/// One put or keep, with its piece.
#[derive(Clone, Copy, Drop)]
pub struct PutCall<'p> {
    pub piece: &'p [u8],
}

/// The pieces that a sink or a shelf was given, in their order. They stand for contracts alone: they take no memory, and the
/// functions do nothing when they run.
#[derive(Drop)]
pub struct Given {
    pub ghost pieces: { List (List ℕ) } by { pieces_code },
}

impl Model for Given {
    ghost also_owns = { λ _. ftrue };
}

impl Given {
    pub(crate) fn nothing() -> Given
        ensures { result.pieces ≡ [] }
    {
        Given {}
    }

    pub(crate) fn then(&self, _call: &PutCall<'_>) -> Given
        ensures { result.pieces ≡ self.now.pieces ++ _call.now.piece.now ∷ [] }
    {
        Given {}
    }
}
