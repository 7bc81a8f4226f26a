//! Parts of rows, which may be the names of texts.

use crate::others::{LISTING, TRACE};
use crate::programs::SUMS;
use dae_rows::part;
use std::alloc::{AllocError, Global};

/// The number that a part spells.
pub fn number_in(row: &str, at: usize) -> usize {
    part(row, at).parse::<usize>().unwrap_or(0)
}

/// The status that a part spells.
pub fn status_in(row: &str, at: usize) -> u8 {
    part(row, at).parse::<u8>().unwrap_or(255)
}

/// The text that a part names, or the part itself.
fn text_named(part: &str) -> &str {
    match part {
        "@sums" => SUMS,
        "@trace" => TRACE,
        "@listing" => LISTING,
        _ => part,
    }
}

/// Adds what a part tells.
pub fn add(text: &mut Vec<u8>, part: &str) -> Result<(), AllocError> {
    dae_rows::add(text, text_named(part))
}

/// What a part tells.
pub fn told(alloc: Global, part: &str) -> Result<Vec<u8>, AllocError> {
    dae_rows::told(alloc, text_named(part))
}
