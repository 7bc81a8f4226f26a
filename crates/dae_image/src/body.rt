//! What stands behind the header of an image: codes, data, line marks and names.

ghost use Rattle.std.specs.Prelude.{◌≡◌, IfOk, MatchOption, true, false};
ghost use Rattle.std.specs.Str.{is_utf8};
ghost use Rattle.dae_image.specs.Contents.{follows, is_line, code_length};
ghost use Rattle.dae_image.specs.Reading.{Gives, words_of, words_at, bytes_at, mark_of, line_at, lines_at, name_at, names_at};

use crate::LineMark;
use crate::fault::{Field, ImageError};
use crate::fields::{FieldRange, field, number, offset_of};
use crate::header::ImageHeader;
use dae_base::{Items, Side, Text};
use std::alloc::{AllocError, Global};

#[tactic(auto, unfolding(crate::specs::Reading::bytes_at))]
fn split(whole: u32, count: usize, bytes: &[u8]) -> Result<(&[u8], &[u8]), ImageError>
    ensures { Gives (λ x. (x.0.now, x.1.now)) result (bytes_at whole count bytes.now) }
{
    if bytes.len() < count {
        return Err(ImageError::Short(whole));
    }
    Ok(bytes.split_at(count))
}

fn words_of(alloc: Global, bytes: &[u8]) -> Result<Items<u32>, AllocError>
    ensures { IfOk result (λ words. words ≡ words_of bytes.now) }
{
    let mut words = Vec::with_capacity(alloc, bytes.len() / 4)?;
    let mut rest = bytes;
    while let [a, b, c, d, after @ ..] = rest {
        words.push(u32::from_le_bytes([*a, *b, *c, *d]))?;
        rest = after;
    }
    Ok(Items::from_vec(words))
}

/// A code of so many words.
#[tactic(auto, unfolding(crate::specs::Reading::words_at))]
pub fn code(
    alloc: Global,
    whole: u32,
    count: u32,
    bytes: &[u8],
) -> Result<(Items<u32>, &[u8]), ImageError>
    ensures { Gives (λ x. (x.0, x.1.now)) result (words_at whole count bytes.now) }
{
    let (front, rest) = split(whole, 4 * count as usize, bytes)?;
    Ok((words_of(alloc, front)?, rest))
}

/// So many bytes of data.
pub fn content(
    alloc: Global,
    whole: u32,
    count: u32,
    bytes: &[u8],
) -> Result<(Items<u8>, &[u8]), ImageError>
    ensures { Gives (λ x. (x.0, x.1.now)) result (bytes_at whole count bytes.now) }
{
    let (front, rest) = split(whole, count as usize, bytes)?;
    Ok((Items::from_vec(Vec::from_slice(alloc, front)?), rest))
}

impl ImageHeader {
    fn code_length(&self, side: Side) -> u32
        ensures { result ≡ code_length self.now side }
    {
        match side {
            Side::A => self.words_a,
            Side::E => self.words_e,
        }
    }

    /// Whether a mark is in range behind the last one.
    fn has_line(&self, last: Option<LineMark>, mark: LineMark) -> bool
        ensures { result ≡ is_line self.now last mark }
    {
        follows(last, mark)
            && mark.word < self.code_length(mark.side)
            && mark.file < self.names
            && 0 < mark.line
    }
}

/// Whether a mark may stand behind the last one: those of A come first, and the words of a side rise.
pub fn follows(last: Option<LineMark>, mark: LineMark) -> bool
    ensures { result ≡ follows last mark }
{
    let Some(last) = last else {
        return true;
    };
    match (last.side, mark.side) {
        (Side::A, Side::E) => true,
        (Side::E, Side::A) => false,
        (Side::A, Side::A) | (Side::E, Side::E) => last.word < mark.word,
    }
}

#[tactic(auto, unfolding(crate::specs::Reading::mark_of))]
fn mark_of(
    header: &ImageHeader,
    last: Option<LineMark>,
    side: u32,
    word: u32,
    file: u32,
    line: u32,
) -> Option<LineMark>
    ensures { result ≡ mark_of header.now last side word file line }
{
    let side = match side {
        0 => Side::A,
        1 => Side::E,
        _ => return None,
    };
    let mark = LineMark {
        side,
        word,
        file,
        line,
    };
    if header.has_line(last, mark) {
        Some(mark)
    } else {
        None
    }
}

#[tactic(auto, unfolding(crate::specs::Reading::line_at))]
fn line<'a>(
    whole: u32,
    header: &ImageHeader,
    last: Option<LineMark>,
    bytes: &'a [u8],
) -> Result<(LineMark, &'a [u8]), ImageError>
    ensures { Gives (λ x. (x.0, x.1.now)) result (line_at whole header.now last bytes.now) }
{
    let (side, rest) = number(whole, bytes)?;
    let (word, rest) = number(whole, rest)?;
    let (file, rest) = number(whole, rest)?;
    let (line, rest) = number(whole, rest)?;
    let mark = mark_of(header, last, side, word, file, line);
    match mark {
        Some(mark) => Ok((mark, rest)),
        None => Err(ImageError::BadField(Field::Line, offset_of(whole, bytes))),
    }
}

/// The line marks.
pub fn lines<'a>(
    alloc: Global,
    whole: u32,
    header: &ImageHeader,
    bytes: &'a [u8],
) -> Result<(Items<LineMark>, &'a [u8]), ImageError>
    ensures { Gives (λ x. (x.0, x.1.now)) result
        (lines_at whole header.now None header.now.lines bytes.now) }
{
    let mut lines = Vec::new(alloc);
    let mut last = None;
    let mut rest = bytes;
    for _ in 0..header.lines {
        let (mark, after) = line(whole, header, last, rest)?;
        lines.push(mark)?;
        last = Some(mark);
        rest = after;
    }
    Ok((Items::from_vec(lines), rest))
}

#[tactic(auto, unfolding(crate::specs::Reading::name_at))]
fn name(alloc: Global, whole: u32, bytes: &[u8]) -> Result<(Text, &[u8]), ImageError>
    ensures { Gives (λ x. (x.0, x.1.now)) result (name_at whole bytes.now) }
{
    let sizes = FieldRange {
        least: 1,
        most: 4_096,
        step: 1,
    };
    let (size, after) = field(whole, Field::Name, sizes, bytes)?;
    let (front, rest) = split(whole, size as usize, after)?;
    let Some(text) = text_of(front) else {
        return Err(ImageError::BadField(Field::Name, offset_of(whole, bytes)));
    };
    Ok((Text::from_str(alloc, text)?, rest))
}

/// The bytes as a text, where they are UTF-8.
fn text_of(bytes: &[u8]) -> Option<&str>
    ensures { MatchOption result (is_utf8 bytes.now ≡ false)
        (λ t. (is_utf8 bytes.now ≡ true) × (t.now ≡ bytes.now)) }
{
    match str::from_utf8(bytes) {
        Ok(text) => Some(text),
        Err(_) => None,
    }
}

/// The names of files.
pub fn names(
    alloc: Global,
    whole: u32,
    count: u32,
    bytes: &[u8],
) -> Result<(Items<Text>, &[u8]), ImageError>
    ensures { Gives (λ x. (x.0, x.1.now)) result (names_at whole count bytes.now) }
{
    let mut names = Vec::new(alloc);
    let mut rest = bytes;
    for _ in 0..count {
        let (name, after) = name(alloc, whole, rest)?;
        names.push(name)?;
        rest = after;
    }
    Ok((Items::from_vec(names), rest))
}
