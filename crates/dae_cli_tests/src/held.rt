//! The files of a call, as its row has them: the words, the image under the name `p`, if there is one, the status, how many of the
//! lines on note come before the pieces on out and before an image is kept, `q` where an image is kept under that name, the pieces
//! that are put on out, the lines that are put on note, and the texts that are fetched behind the image, each a name and what it
//! tells. Between pieces and between lines stands ^. Where the last line is `steps ` without a number, how many steps there are is the
//! compiler's.

use crate::calls::{empty_shelf, hold_text};
use crate::others::LOOPS;
use crate::parts::add;
use crate::runs::{
    MESSAGES_TO_A, MESSAGES_TO_E, PRINTS, PRODUCTS, STORES_BESIDE, STORES_THERE, TRAPS,
};
use dae_io::MemShelf;
use dae_rows::{bytes_of, part};
use std::alloc::{AllocError, Global};

/// How many pieces a part has.
pub fn pieces_in(row: &str, at: usize) -> usize {
    let mut count: usize = 0;
    for piece in part(row, at).split('^') {
        if !piece.is_empty() {
            count = count.saturating_add(1);
        }
    }
    count
}

/// Adds so many pieces, one behind the other.
pub fn add_pieces(bytes: &mut Vec<u8>, pieces: &str, count: usize) -> Result<(), AllocError> {
    for piece in pieces.split('^').take(count) {
        add(bytes, piece)?;
    }
    Ok(())
}

/// An image by its name, in hexadecimal, or what the name spells itself.
pub fn image_named(name: &str) -> &str {
    match name {
        "beside" => STORES_BESIDE,
        "there" => STORES_THERE,
        "prints" => PRINTS,
        "products" => PRODUCTS,
        "to-e" => MESSAGES_TO_E,
        "to-a" => MESSAGES_TO_A,
        "traps" => TRAPS,
        "loops" => LOOPS,
        _ => name,
    }
}

/// Puts the image of a row on the shelf, if it has one.
fn hold_image(alloc: Global, shelf: &mut MemShelf, row: &str) -> Result<(), AllocError> {
    let name = part(row, 1);
    if name.is_empty() {
        return Ok(());
    }
    let bytes = bytes_of(alloc, image_named(name))?;
    shelf.hold(alloc, "p", bytes.as_slice())
}

/// A shelf with a row's files, at most three texts, and room for one keep, of which the call with this number fails.
pub fn held_by(alloc: Global, row: &str, fails: u64) -> Result<Box<MemShelf>, AllocError> {
    let mut shelf = empty_shelf(alloc, fails)?;
    hold_image(alloc, &mut shelf, row)?;
    hold_text(alloc, &mut shelf, part(row, 7), part(row, 8))?;
    hold_text(alloc, &mut shelf, part(row, 9), part(row, 10))?;
    hold_text(alloc, &mut shelf, part(row, 11), part(row, 12))?;
    shelf.make_room(alloc, 1, 4096)?;
    Ok(shelf)
}
