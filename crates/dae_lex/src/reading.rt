//! The tokens of a text, from its bytes on.

ghost use Rattle.std.specs.Prelude.{◌≡◌, ◌≤◌, ◌<◌, ◌^◌, length, map, IfOk, IfErr, All};
ghost use Rattle.dae_tree.specs.Tokens.{reads_of, tested_in, tokens_of, Answers};
ghost use Rattle.dae_tree.specs.declared.faults.LexError.TheVariants.{Memory};
ghost use Rattle.dae_tree.specs.Order.{HasLeastPlace};
ghost use Rattle.dae_lex_scan.specs.Cuts.{cut_of};
ghost use Rattle.dae_lex.specs.Settling.{Fails, AreRead, IsMeant, read_of};
ghost use Rattle.dae_lex.specs.Whole.{items_of_pieces, HasRead, Meets, SpansFrom, reading_with, span};

use crate::directives::take_lines;
use crate::finish::{Builder, build, own_names};
use crate::numbers::WordNumbers;
use crate::output::{Output, ReadToken};
use dae_base::{Items, Place};
use dae_lex_scan::{SourcePiece, cut_pieces, join_lines};
use dae_tree::{Includes, LexError, Room, Tokens};
use std::alloc::Global;

/// The tokens of the pieces of a text before literals join, with the headers that they include and the numbers of
/// their names and literals.
fn read_pieces<'j>(
    alloc: Global,
    pieces: &[SourcePiece<'j>],
    room: Room,
) -> Result<(Includes, Output<'j>, WordNumbers<'j>), LexError>
    ensures ok { IfOk result (λ r. HasRead room (map cut_of pieces.now) r.0 r.1) }
    ensures read { IfOk result (λ r. AreRead r.2 r.1) }
    ensures err { IfErr result
        (λ e. Fails e (reads_of room (items_of_pieces room (map cut_of pieces.now)))) }
{
    let mut numbers = WordNumbers::new(alloc);
    let mut out = Output::new(alloc, room);
    match take_lines(alloc, &mut numbers, pieces, &mut out) {
        Ok(seen) => Ok((seen, out, numbers)),
        Err(e) => Err(e),
    }
}

/// The tokens from what was read of the pieces. Only memory can be wanting.
fn finish_text<'t>(
    alloc: Global,
    text: &'t [u8],
    seen: Includes,
    numbers: &WordNumbers<'_>,
    reads: &[ReadToken<'_>],
    end: Place,
) -> Result<Tokens<'t>, LexError>
    requires few { length reads.now < 2 ^ 32 }
    requires meant { All (λ t. IsMeant numbers.now t.meaning) reads.now }
    requires spans { SpansFrom 0 0 (map span (map read_of reads.now)) (length text.now) }
    ensures ok { IfOk result (λ tokens. tokens
        ≡ reading_with text.entry.now (map read_of reads.now) seen.stdio seen.stdlib end) }
    ensures err { IfErr result (λ e. e ≡ Memory) }
{
    let Builder {
        tokens,
        names,
        literals,
    } = build(alloc, numbers, reads)?;
    let owned = own_names(alloc, names.values().as_slice())?;
    Ok(Tokens::new(
        text,
        Items::from_vec(tokens),
        owned,
        Items::from_vec(literals),
        seen,
        end,
    ))
}

/// The tokens of a text within a room, and the room that is left.
fn read_text<'t>(
    alloc: Global,
    file: u16,
    text: &'t [u8],
    room: Room,
) -> Result<(Tokens<'t>, Room), LexError>
    requires { length text.now ≤ 1048576 }
    ensures answer { Meets result (tokens_of file text.entry.now room) }
    ensures least { HasLeastPlace result (tested_in file text.entry.now room) }
{
    let joined = join_lines(alloc, file, text)?;
    let pieces = cut_pieces(alloc, &joined)?;
    let (seen, out, numbers) = match read_pieces(alloc, &pieces, room) {
        Ok(read) => read,
        Err(e) => return Err(e),
    };
    let tokens = finish_text(alloc, text, seen, &numbers, &out.tokens, joined.end)?;
    Ok((tokens, out.room))
}

/// The tokens of a text of at most 1,048,576 bytes, or the first cause in reading order why it is refused. The text is
/// the file with this number among the texts of a job, which the places name. Ok lowers the room by what was used, and
/// after an error the room is as it was.
///
/// # Errors
///
/// `BadByte` for a byte that may not stand there or that begins no token, `TooManyTokens` for the first token past the
/// room, `Refused` for a construct that is refused by name, and `Memory`.
pub fn tokens<'t>(
    alloc: Global,
    file: u16,
    text: &'t [u8],
    room: &mut Room,
) -> Result<Tokens<'t>, LexError>
    requires { length text.now ≤ 1048576 }
    ensures answer { Answers result room.old room.new (tokens_of file text.entry.now room.old) }

    // The first refusal of the list is the one of least place.
    ensures least { HasLeastPlace result (tested_in file text.entry.now room.old) }
{
    match read_text(alloc, file, text, *room) {
        Ok((tokens, left)) => {
            *room = left;
            Ok(tokens)
        }
        Err(e) => Err(e),
    }
}
