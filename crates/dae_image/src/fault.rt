//! Why bytes are no image.

ghost use Rattle.std.specs.Prelude.{◌≡◌};
ghost use Rattle.dae_image.specs.declared.fault.ImageError.TheVariants as errors;
ghost use Rattle.dae_image.specs.FieldNames.{field_name};

use std::alloc::{AllocError, AllocFailed};
use thiserror::Error;

/// A field of an image, in the order of the bytes.
#[derive(Clone, Copy, Debug, PartialEq, Eq)]
pub enum Field {
    Magic,
    Version,
    Ld,
    Al,
    Sa,
    Sd,
    Ab,
    Eb,
    Cq,
    Memory,
    Calls,
    PrivateA,
    PrivateE,
    EntryA,
    EntryE,
    WordsA,
    WordsE,
    DataLength,
    LineCount,
    NameCount,
    CodeA,
    CodeE,
    Data,
    Line,
    Name,
}

impl Field {
    /// The name of the field, as notes print it.
    pub fn name(self) -> &'static str
        ensures { result.now ≡ field_name self }
    {
        match self {
            Field::Magic => "magic",
            Field::Version => "version",
            Field::Ld => "ld",
            Field::Al => "al",
            Field::Sa => "sa",
            Field::Sd => "sd",
            Field::Ab => "ab",
            Field::Eb => "eb",
            Field::Cq => "cq",
            Field::Memory => "memory",
            Field::Calls => "calls",
            Field::PrivateA => "private-a",
            Field::PrivateE => "private-e",
            Field::EntryA => "entry-a",
            Field::EntryE => "entry-e",
            Field::WordsA => "words-a",
            Field::WordsE => "words-e",
            Field::DataLength => "data-length",
            Field::LineCount => "line-count",
            Field::NameCount => "name-count",
            Field::CodeA => "code-a",
            Field::CodeE => "code-e",
            Field::Data => "data",
            Field::Line => "line",
            Field::Name => "name",
        }
    }
}

/// What is wrong with the bytes: the first fault from the left. Or memory is wanting.
#[derive(Clone, Copy, Debug, PartialEq, Eq, Error)]
pub enum ImageError {
    /// The bytes end inside a field. Tells their number.
    #[error("the image is cut short")]
    Short(u32),
    /// A field is out of its range. Tells where it begins.
    #[error("a field of the image is out of its range")]
    BadField(Field, u32),
    /// Bytes stand behind the image. Tells where they begin.
    #[error("bytes stand behind the image")]
    Trailing(u32),
    #[error("out of memory")]
    Memory,
}

impl From<AllocError> for ImageError {
    ghost from_gives = { λ _ e. e ≡ errors.Memory };

    fn from(_e: AllocError) -> ImageError {
        ImageError::Memory
    }
}

impl<T: Drop> From<AllocFailed<T>> for ImageError {
    ghost from_gives = { λ _ e. e ≡ errors.Memory };

    fn from(_e: AllocFailed<T>) -> ImageError {
        ImageError::Memory
    }
}
