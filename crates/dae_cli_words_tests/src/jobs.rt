//! Words and the job that they spell.

use crate::rows::ROWS;
use crate::texts::text_of;
use dae_cli_words::spelled_job;
use std::alloc::{AllocError, Global};
use std::process::Abort;

// Adds a word.
fn add_word(alloc: Global, words: &mut Vec<String>, word: &str) -> Result<(), AllocError> {
    let word = String::from_str(alloc, word)?;
    words.push(word)?;
    Ok(())
}

// Adds the words of a line, between single blanks.
fn add_words(alloc: Global, words: &mut Vec<String>, line: &str) -> Result<(), AllocError> {
    for word in line.split(' ') {
        add_word(alloc, words, word)?;
    }
    Ok(())
}

// The text of the job that words spell, or nothing where they spell none.
fn job_text(alloc: Global, words: &[String]) -> Result<String, AllocError> {
    match spelled_job(alloc, words)? {
        Some(job) => text_of(alloc, &job),
        None => Ok(String::new(alloc)),
    }
}

// Whether words spell a job.
fn is_spelled(alloc: Global, words: &[String]) -> Result<bool, AllocError> {
    let job = spelled_job(alloc, words)?;
    Ok(job.is_some())
}

// The row's words spell the job that it tells.
fn check_row(rt: &impl Abort, alloc: Global, row: &str) -> Result<(), AllocError> {
    let (line, due) = row.split_once('|').unwrap_or((row, ""));
    let mut words = Vec::new(alloc);
    add_words(alloc, &mut words, line)?;
    let text = job_text(alloc, words.as_slice())?;
    assert_eq!(rt; text.as_str(), due, "{line}");
    Ok(())
}

fn check_rows(rt: &impl Abort, alloc: Global, rows: &str) -> Result<(), AllocError> {
    for row in rows.lines() {
        check_row(rt, alloc, row)?;
    }
    Ok(())
}

#[test]
fn rows_are_spelled(rt: HostRuntime) -> Result<(), AllocError> {
    check_rows(&rt, rt.alloc(), ROWS)
}

#[test]
fn no_words_spell_none(rt: HostRuntime) -> Result<(), AllocError> {
    let words = Vec::new(rt.alloc());
    assert!(rt; !is_spelled(rt.alloc(), words.as_slice())?);
    Ok(())
}

// A text of so many letters.
fn letters(alloc: Global, count: usize) -> Result<String, AllocError> {
    let mut text = String::new(alloc);
    add_letters(&mut text, count)?;
    Ok(text)
}

fn add_letters(text: &mut String, count: usize) -> Result<(), AllocError> {
    for _ in 0..count {
        text.push_str("n")?;
    }
    Ok(())
}

fn add_often(
    alloc: Global,
    words: &mut Vec<String>,
    word: &str,
    times: usize,
) -> Result<(), AllocError> {
    for _ in 0..times {
        add_word(alloc, words, word)?;
    }
    Ok(())
}

// The words of a run of so many files, each with a name of so many bytes.
fn many_files(alloc: Global, files: usize, bytes: usize) -> Result<Vec<String>, AllocError> {
    let name = letters(alloc, bytes)?;
    let mut words = Vec::new(alloc);
    add_word(alloc, &mut words, "run")?;
    add_often(alloc, &mut words, name.as_str(), files)?;
    Ok(words)
}

fn spells_files(alloc: Global, files: usize, bytes: usize) -> Result<bool, AllocError> {
    let words = many_files(alloc, files, bytes)?;
    is_spelled(alloc, words.as_slice())
}

#[test]
fn files_and_names_have_limits(rt: HostRuntime) -> Result<(), AllocError> {
    assert!(rt; spells_files(rt.alloc(), 1, 4096)?);
    assert!(rt; !spells_files(rt.alloc(), 1, 4097)?);
    assert!(rt; spells_files(rt.alloc(), 1024, 1)?);
    assert!(rt; !spells_files(rt.alloc(), 1025, 1)?);
    Ok(())
}
