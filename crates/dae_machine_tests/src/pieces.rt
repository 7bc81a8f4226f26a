//! Pieces of words, extension at the edges, and the first queue that is below a budget.

use dae_base::{Depths, LoadKind, Piece, Signedness, byte_piece, decimal_piece, extend, hex_piece};
use dae_rows::{number, part, text_of, word_in};
use std::alloc::{AllocError, Global};

/// The piece of a word, by how it is spelled.
fn piece_of(spelling: &str, word: u32) -> Piece {
    match spelling {
        "signed" => decimal_piece(word, Signedness::Signed),
        "unsigned" => decimal_piece(word, Signedness::Unsigned),
        "hex" => hex_piece(word),
        "byte" => byte_piece(word),
        _ => Piece::empty(),
    }
}

/// The piece of a row, and whether it is empty.
pub fn piece_told(alloc: Global, row: &str) -> Result<String, AllocError> {
    let question = part(row, 2);
    let piece = piece_of(word_in(question, 0), number(word_in(question, 1)));
    let text = text_of(alloc, piece.text().as_bytes())?;
    let is_empty = piece.is_empty();
    format!(in alloc; "{text} {is_empty}")
}

fn kind_of(name: &str) -> LoadKind {
    match name {
        "I8" => LoadKind::I8,
        "U8" => LoadKind::U8,
        "I16" => LoadKind::I16,
        "U16" => LoadKind::U16,
        _ => LoadKind::I32,
    }
}

/// The word that a load of a row's kind makes of its word.
pub fn extension_told(alloc: Global, row: &str) -> Result<String, AllocError> {
    let question = part(row, 2);
    let word = extend(kind_of(word_in(question, 0)), number(word_in(question, 1)));
    format!(in alloc; "{word}")
}

fn depth_in(text: &str, at: usize) -> u16 {
    word_in(text, at).parse::<u16>().unwrap_or(0)
}

/// The depths that a text spells.
fn depths_in(text: &str) -> Depths {
    Depths {
        ld: depth_in(text, 0),
        al: depth_in(text, 1),
        sa: depth_in(text, 2),
        sd: depth_in(text, 3),
        ab: depth_in(text, 4),
        eb: depth_in(text, 5),
        cq: depth_in(text, 6),
    }
}

/// The first of a row's depths that is below the budget.
pub fn first_below_told(alloc: Global, row: &str) -> Result<String, AllocError> {
    let budget = depths_in("4 1 1 1 1 1 1");
    let found = depths_in(part(row, 2)).first_below(&budget);
    format!(in alloc; "{found:?}")
}
