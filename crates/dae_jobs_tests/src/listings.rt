//! Listings of images, and lines of assembly text.

use crate::images::image_of;
use dae_asm_lines::{Line, line_of};
use dae_listing::disassemble;
use dae_rows::{part, text_of, told};
use std::alloc::{AllocError, Global};
use std::process::Abort;
use std::test::Fail;

/// The listing of a row's image.
pub fn listing_told(rt: &impl Abort, alloc: Global, row: &str) -> Result<String, Fail> {
    let image = image_of(rt, alloc, part(row, 2))?;
    let text = disassemble(alloc, &image)?;
    Ok(text_of(alloc, text.as_slice())?)
}

/// What a line is.
fn kind_of(line: &[u8]) -> &'static str {
    match line_of(line) {
        Line::Empty => "empty",
        Line::Says(_) => "spelled",
        Line::Bad => "bad",
    }
}

/// What a row's line is.
pub fn kind_told(alloc: Global, row: &str) -> Result<String, AllocError> {
    let line = told(alloc, part(row, 2))?;
    String::from_str(alloc, kind_of(line.as_slice()))
}
