// The marks of lines: the words of both codes at which another line begins.

ghost use Rattle.std.specs.Prelude.{◌≡◌, ◌≤◌, ◌<◌, ◌^◌, length, OnOk, IfOk};
ghost use Rattle.dae_link.specs.Marked.{words_in, is_mark, mark_at, is_other_side, is_another_line, HasMarkMore, HasMarksOf, IsMarked, IsRoomy, AreMarks};

use dae_base::Side;
use dae_image::{LineMark, follows};
use dae_select::PlacedWord;
use std::alloc::{AllocError, Global};

/// How many words the two codes have, and how many files there are.
#[derive(Clone, Copy)]
pub struct MarkRoom {
    pub words_a: usize,
    pub words_e: usize,
    pub files: usize,
}

/// Marks of lines, and the last of them.
#[derive(Drop)]
pub struct LineMarks {
    pub lines: Vec<LineMark>,
    pub last: Option<LineMark>,
}

/// The most marks of A, and of both sides.
const MOST_OF_A: usize = 131_072;

const MOST: usize = 262_144;

fn words_in(room: MarkRoom, side: Side) -> usize
    ensures { result ≡ words_in room side }
{
    match side {
        Side::A => room.words_a,
        Side::E => room.words_e,
    }
}

/// Whether a mark comes behind the last one and is of a word and of a file that are there.
fn is_mark(room: MarkRoom, last: Option<LineMark>, mark: LineMark) -> bool
    ensures { result ≡ is_mark room last mark }
{
    follows(last, mark)
        && (mark.word as usize) < words_in(room, mark.side)
        && (mark.file as usize) < room.files
        && 0 < mark.line
}

fn is_other_side(one: Side, other: Side) -> bool
    ensures { result ≡ is_other_side one other }
{
    match (one, other) {
        (Side::A, Side::E) | (Side::E, Side::A) => true,
        (Side::A, Side::A) | (Side::E, Side::E) => false,
    }
}

/// Whether the last mark is of another line or of the other side.
fn is_another_line(last: Option<LineMark>, mark: LineMark) -> bool
    ensures { result ≡ is_another_line last mark }
{
    let Some(last) = last else {
        return true;
    };
    is_other_side(last.side, mark.side) || last.file != mark.file || last.line != mark.line
}

/// The mark of a word at which an action begins.
fn mark_at(side: Side, placed: PlacedWord) -> LineMark
    requires { placed.word < 2 ^ 32 }
    ensures { result ≡ mark_at side placed }
{
    LineMark {
        side,
        word: placed.word as u32,
        file: u32::from(placed.place.file),
        line: placed.place.line,
    }
}

/// One mark more, where it is of another line than the last and fits there.
fn add_mark(
    marks: &mut LineMarks,
    room: MarkRoom,
    most: usize,
    mark: LineMark,
) -> Result<(), AllocError>
    requires marked { IsMarked room marks.old }
    requires few { length marks.old.lines.items ≤ most }
    ensures marked { OnOk result (IsMarked room marks.new) }
    ensures few { OnOk result (length marks.new.lines.items ≤ most) }
    ensures more { OnOk result (HasMarkMore room most mark marks.old marks.new) }
{
    let last = marks.last;
    if marks.lines.len() < most && is_another_line(last, mark) && is_mark(room, last, mark) {
        marks.lines.push(mark)?;
        marks.last = Some(mark);
    }
    Ok(())
}

/// The marks of a side: of the words at which actions begin.
fn add_marks(
    marks: &mut LineMarks,
    room: MarkRoom,
    most: usize,
    side: Side,
    places: &[PlacedWord],
) -> Result<(), AllocError>
    requires roomy { IsRoomy room }
    requires marked { IsMarked room marks.old }
    requires few { length marks.old.lines.items ≤ most }
    ensures marked { OnOk result (IsMarked room marks.new) }
    ensures few { OnOk result (length marks.new.lines.items ≤ most) }
    ensures made { OnOk result (HasMarksOf room most side places.now marks.old marks.new) }
{
    let words = words_in(room, side);
    for placed in places {
        if placed.word < words {
            add_mark(marks, room, most, mark_at(side, *placed))?;
        }
    }
    Ok(())
}

/// The marks of both sides: a word at which an action begins is marked where the file or the line is another one than that
/// of the mark before it, until there are as many marks as an image can have.
pub fn marks_of(
    alloc: Global,
    room: MarkRoom,
    a: &[PlacedWord],
    e: &[PlacedWord],
) -> Result<Vec<LineMark>, AllocError>
    requires { IsRoomy room }
    ensures { IfOk result (λ lines. AreMarks room a.now e.now lines.items) }
{
    let mut marks = LineMarks {
        lines: Vec::new(alloc),
        last: None,
    };
    add_marks(&mut marks, room, MOST_OF_A, Side::A, a)?;
    add_marks(&mut marks, room, MOST, Side::E, e)?;
    Ok(marks.lines)
}
