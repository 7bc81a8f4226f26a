// Rows of texts, from which the crates of tests read what is to be tried and what is due: a row a line, with `|` between its parts and
// single blanks between the words of a part. In the parts ` is a line feed, ~ a carriage return, $ a tab and ^ a byte 255.
#![tactic(auto)]

use std::alloc::{AllocError, Global};

/// The part of a row at this place, or nothing.
pub fn part(row: &str, at: usize) -> &str {
    row.split('|').nth(at).unwrap_or("")
}

/// What stands behind a row's first bar.
pub fn behind(row: &str) -> &str {
    match row.split_once('|') {
        Some((_, rest)) => rest,
        None => "",
    }
}

/// The word of a text at this place, or nothing.
pub fn word_in(text: &str, at: usize) -> &str {
    text.split(' ').nth(at).unwrap_or("")
}

/// The number that a text spells, or 0.
pub fn number(text: &str) -> u32 {
    text.parse::<u32>().unwrap_or(0)
}

/// The byte that one of a part stands for.
fn spelled(byte: u8) -> u8 {
    match byte {
        b'`' => b'\n',
        b'~' => b'\r',
        b'$' => b'\t',
        b'^' => 255,
        _ => byte,
    }
}

/// Adds what a part tells.
pub fn add(text: &mut Vec<u8>, part: &str) -> Result<(), AllocError> {
    for byte in part.as_bytes() {
        text.push(spelled(*byte))?;
    }
    Ok(())
}

/// What a part tells.
pub fn told(alloc: Global, part: &str) -> Result<Vec<u8>, AllocError> {
    let mut text = Vec::new(alloc);
    add(&mut text, part)?;
    Ok(text)
}

fn add_source(text: &mut Vec<u8>, part: &str) -> Result<(), AllocError> {
    for byte in part.as_bytes() {
        text.push(if *byte == b'`' { b'\n' } else { *byte })?;
    }
    Ok(())
}

/// A source text, in which ` alone stands for another byte, a line feed.
pub fn source_of(alloc: Global, part: &str) -> Result<Vec<u8>, AllocError> {
    let mut text = Vec::new(alloc);
    add_source(&mut text, part)?;
    Ok(text)
}

/// The bytes that a text spells in hexadecimal, or none where it spells none.
pub fn bytes_of(alloc: Global, hexadecimal: &str) -> Result<Vec<u8>, AllocError> {
    match hex::decode(alloc, hexadecimal) {
        Ok(bytes) => Ok(bytes),
        Err(_) => Ok(Vec::new(alloc)),
    }
}

/// Bytes as a text, or a question mark where they aren't.
pub fn text_of(alloc: Global, bytes: &[u8]) -> Result<String, AllocError> {
    String::from_str(alloc, std::str::from_utf8(bytes).unwrap_or("?"))
}
