// The trees of several texts.

ghost use Rattle.std.specs.Prelude.{◌≡◌, ◌≤◌, length};
ghost use Rattle.std.specs.List.{All};
ghost use Rattle.dae_accept.specs.declared.reading.FileError.TheVariants.{Memory};
ghost use Rattle.dae_accept.specs.Read.{Cuts, IsShort, Parses, Reads, lexed, readings_of, texts_in};

use dae_lex::tokens;
use dae_parse::{ParseError, parse};
use dae_tree::{File, LexError, Room, Tokens};
use std::alloc::{AllocError, AllocFailed, Global};

/// The limits on what is read of all texts of a job.
const ROOM: Room = Room {
    tokens: 65_536,
    replacements: 65_536,
    literal_bytes: 65_536,
};

/// Why texts have no trees: the first cause why one has no tokens; else why the tokens of one have no tree within
/// the limits; or memory is wanting. Places name their files by number.
#[derive(Clone, Copy)]
pub enum FileError {
    Lex(LexError),
    Tree(ParseError),
    Memory,
}

impl From<AllocError> for FileError {
    ghost from_gives = { λ _ e. e ≡ Memory };

    fn from(_e: AllocError) -> FileError {
        FileError::Memory
    }
}

impl<T: Drop> From<AllocFailed<T>> for FileError {
    ghost from_gives = { λ _ e. e ≡ Memory };

    fn from(_e: AllocFailed<T>) -> FileError {
        FileError::Memory
    }
}

/// What a refusal of one text is for all.
fn lex_error(e: LexError) -> FileError
    ensures { result ≡ lexed e }
{
    match e {
        LexError::Memory => FileError::Memory,
        e => FileError::Lex(e),
    }
}

/// The tokens of texts, one after the other: at most 1,024 texts.
fn cut_texts<'t>(alloc: Global, texts: &'t [Vec<u8>]) -> Result<Vec<Tokens<'t>>, FileError>
    requires few { length texts.now ≤ 1024 }
    requires short { All IsShort texts.now }
    ensures { Cuts result (readings_of (texts_in texts.entry.now)) }
{
    let mut room = ROOM;
    let mut all = Vec::new(alloc);
    let mut file = 0;
    for text in texts {
        match tokens(alloc, file, text.as_slice(), &mut room) {
            Ok(tokens) => all.push(tokens)?,
            Err(e) => return Err(lex_error(e)),
        }
        file += 1;
    }
    Ok(all)
}

/// The trees of what is read of several texts.
fn parse_all(alloc: Global, readings: &[Tokens<'_>]) -> Result<Vec<File>, FileError>
    ensures { Parses result readings.now }
{
    let mut files = Vec::new(alloc);
    for tokens in readings {
        match parse(alloc, tokens) {
            Ok(file) => files.push(file)?,
            Err(ParseError::Memory) => return Err(FileError::Memory),
            Err(e) => return Err(FileError::Tree(e)),
        }
    }
    Ok(files)
}

/// The trees of texts, one after the other: at most 1,024 texts, each of at most 1,048,576 bytes.
///
/// # Errors
///
/// `Lex` for the first text that has no tokens in the room that is left; else `Tree` for the first whose tokens
/// have no tree within the limits; and `Memory`.
pub fn read_files(alloc: Global, texts: &[Vec<u8>]) -> Result<Vec<File>, FileError>
    requires few { length texts.now ≤ 1024 }
    requires short { All IsShort texts.now }
    ensures { Reads result (texts_in texts.now) }
{
    let readings = cut_texts(alloc, texts)?;
    parse_all(alloc, readings.as_slice())
}
