//! Files that join, with the data that they join to, and files that don't, with the cause and its places.

use dae_accept::{CompileError, accept};
use dae_program::Program;
use dae_rows::{part, source_of};
use std::alloc::{AllocError, Global};

/// The longest text.
const LONGEST: usize = 1_048_576;

/// What two files come to in a memory of 1,048,576 bytes.
fn both(alloc: Global, first: &[u8], second: &[u8]) -> Result<Box<Program>, CompileError> {
    if first.len() > LONGEST || second.len() > LONGEST {
        return Err(CompileError::Memory);
    }
    let mut texts = Vec::new(alloc);
    texts.push(Vec::from_slice(alloc, first)?)?;
    texts.push(Vec::from_slice(alloc, second)?)?;
    let program = accept(alloc, texts.as_slice(), 1_048_576)?;
    Ok(boxed(alloc, program)?)
}

fn boxed(alloc: Global, program: Program) -> Result<Box<Program>, AllocError> {
    Ok(Box::new(alloc, program)?)
}

/// The bytes of a program from address 16 on, and where its frames begin.
fn content_text(alloc: Global, program: &Program) -> Result<String, AllocError> {
    let content = hex::encode(alloc, program.content.as_slice())?;
    let frames = program.frames;
    format!(in alloc; "{content} {frames}")
}

/// What the two files of a row join to, or why they don't.
pub fn joining_told(alloc: Global, row: &str) -> Result<String, AllocError> {
    let first = source_of(alloc, part(row, 2))?;
    let second = source_of(alloc, part(row, 3))?;
    match both(alloc, first.as_slice(), second.as_slice()) {
        Ok(program) => content_text(alloc, &program),
        Err(CompileError::Join(cause)) => format!(in alloc; "{cause:?}"),
        Err(_) => Ok(String::new(alloc)),
    }
}
