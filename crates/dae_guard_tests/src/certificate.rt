//! Certificates: how many nodes a text has, and what it tells of a register.

use dae_certificate::{CertificateError, CertificateNode, read};
use dae_ranges::Range;
use dae_rows::{number, part, told};
use std::alloc::{AllocError, Global};

/// How many nodes the text has, or its bad line, from 1 on.
fn nodes(alloc: Global, text: &[u8]) -> Result<usize, u32> {
    if text.len() > 1_048_576 {
        return Err(0);
    }
    match read(alloc, text) {
        Ok(nodes) => Ok(nodes.len()),
        Err(CertificateError::BadLine(line)) => Err(line),
        Err(CertificateError::Memory) => Err(0),
    }
}

/// What a row's text is read as.
pub fn read_of(alloc: Global, row: &str) -> Result<String, AllocError> {
    let text = told(alloc, part(row, 2))?;
    let found = nodes(alloc, text.as_slice());
    format!(in alloc; "{found:?}")
}

fn add_nodes(text: &mut Vec<u8>, count: u32) -> Result<(), AllocError> {
    for _ in 0..count {
        text.extend_from_slice(b"node 0 0\n")?;
    }
    Ok(())
}

/// What a text of as many nodes is read as.
pub fn many_read(alloc: Global, row: &str) -> Result<String, AllocError> {
    let mut text = Vec::new(alloc);
    add_nodes(&mut text, number(part(row, 2)))?;
    let found = nodes(alloc, text.as_slice());
    format!(in alloc; "{found:?}")
}

/// The range of register 17 of E in the first node.
fn first_of_17(nodes: &[CertificateNode]) -> Option<Range> {
    nodes.first()?.e.registers.as_slice().get(17).copied()
}

/// The same of a text.
fn range_of_17(alloc: Global, text: &[u8]) -> Option<Range> {
    if text.len() > 1_048_576 {
        return None;
    }
    let nodes = read(alloc, text).ok()?;
    first_of_17(nodes.as_slice())
}

/// What a row's text tells of that register.
pub fn told_of(alloc: Global, row: &str) -> Result<String, AllocError> {
    let text = told(alloc, part(row, 2))?;
    let found = range_of_17(alloc, text.as_slice());
    format!(in alloc; "{found:?}")
}
