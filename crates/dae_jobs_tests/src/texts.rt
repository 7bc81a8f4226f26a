//! Texts of the assembler that are changed in one place: what they come to, and the first line that is then out of order.

use dae_asm::{AsmError, assemble};
use dae_asm_order::order_of;
use dae_rows::{add, part};
use std::alloc::{AllocError, Global};

/// The lines of a pair that adds 1 to a word.
const PAIR: &str = "\
.budget 1 0 1 1 0 0 0\n\
.memory 64\n\
.calls 1\n\
.private 0 0\n\
.entry 0 0\n\
.a\n\
sw x30,16(x0)\n\
lw x30,20(x0)\n\
ecall\n\
.e\n\
addi x10,x30,0\n\
addi x30,x10,1\n\
ecall\n\
.data\n\
.byte 0 0 0 0 7 0 0 0\n\
.line a 0 0 3\n\
.line e 0 0 4\n\
.name 97 46 99";

/// How many lines these are.
const LINES: usize = 18;

/// The line at a place, or nothing.
fn line_at(place: usize) -> &'static str {
    PAIR.lines().nth(place).unwrap_or("")
}

fn place_in(part: &str) -> usize {
    part.parse::<usize>().unwrap_or(0)
}

fn put_line(text: &mut Vec<u8>, line: &str) -> Result<(), AllocError> {
    add(text, line)?;
    text.push(b'\n')?;
    Ok(())
}

/// Adds the lines, with this one in place of another.
fn add_changed(text: &mut Vec<u8>, at: usize, line: &str) -> Result<(), AllocError> {
    for place in 0..LINES {
        put_line(text, if place == at { line } else { line_at(place) })?;
    }
    Ok(())
}

/// Why a short text says no image, if it says none.
fn fault_of(alloc: Global, text: &[u8]) -> Option<AsmError> {
    if text.len() > 4_096 {
        return None;
    }
    assemble(alloc, text).err()
}

/// Why a row's text, with its line at its place, says no image, if it says none.
pub fn fault_told(alloc: Global, row: &str) -> Result<String, AllocError> {
    let mut text = Vec::new(alloc);
    add_changed(&mut text, place_in(part(row, 2)), part(row, 3))?;
    let found = fault_of(alloc, text.as_slice());
    format!(in alloc; "{found:?}")
}

/// The places of the lines that stand for the one at a place, up to two, where the one at another place is dropped, stands twice, or
/// changes places with the next. Behind the last line there is none.
fn places(change: &str, at: usize, place: usize) -> (usize, usize) {
    match change {
        "drop" if place == at => (LINES, LINES),
        "double" if place == at => (place, place),
        "swap" if place == at => (place.saturating_add(1), place),
        "swap" if place == at.saturating_add(1) => (LINES, LINES),
        _ => (place, LINES),
    }
}

fn put_line_at(text: &mut Vec<u8>, place: usize) -> Result<(), AllocError> {
    if place < LINES {
        put_line(text, line_at(place))?;
    }
    Ok(())
}

/// Adds the lines with a change at a place.
fn add_rearranged(text: &mut Vec<u8>, change: &str, at: usize) -> Result<(), AllocError> {
    for place in 0..LINES {
        let (first, second) = places(change, at, place);
        put_line_at(text, first)?;
        put_line_at(text, second)?;
    }
    Ok(())
}

/// The first line of a short text that is out of order, if there is one.
fn first_bad(text: &[u8]) -> Option<u32> {
    if text.len() > 4_096 {
        return None;
    }
    order_of(text).err()
}

/// The first line that is out of order where the lines have a row's change at its place, if there is one.
pub fn order_told(alloc: Global, row: &str) -> Result<String, AllocError> {
    let mut text = Vec::new(alloc);
    add_rearranged(&mut text, part(row, 2), place_in(part(row, 3)))?;
    let found = first_bad(text.as_slice());
    format!(in alloc; "{found:?}")
}
