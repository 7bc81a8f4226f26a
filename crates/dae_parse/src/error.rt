// Why tokens have no file.

ghost use Rattle.std.specs.Prelude.{◌≡◌};
ghost use Rattle.dae_parse.specs.declared.error.ParseError.TheVariants.{Memory};

use dae_base::Place;
use std::alloc::AllocError;

/// Why tokens have no tree within the limits.
#[derive(Clone, Copy, PartialEq, Eq, Debug)]
pub enum ParseError {
    /// No file has these tokens: the first token at which none goes on, or the end of the text.
    Syntax(Place),
    /// The first node that is deeper than the greatest depth.
    TooDeep(Place),
    /// The first definition with more than the greatest number of tokens.
    FunctionTooLong(Place),
    /// Memory ran out.
    Memory,
}

impl From<AllocError> for ParseError {
    ghost from_gives = { λ _ e. e ≡ Memory };

    fn from(_e: AllocError) -> ParseError {
        ParseError::Memory
    }
}
