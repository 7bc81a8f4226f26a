//! Lines of pieces, and what each of them is: text, a directive, or a refusal.

ghost use Rattle.std.specs.Prelude.{◌≡◌, ◌≤◌, List, length, map, option_map};
ghost use Rattle.std.specs.List.{prefix_len};
ghost use Rattle.dae_tree.specs.Pieces.{Cut};
ghost use Rattle.dae_tree.specs.Replacing.{error_at, is_word_kind};
ghost use Rattle.dae_tree.specs.Directives.{is_blank_kind, is_end_kind, is_hash_kind, is_paren_kind, goes_on, from_mark, begins_call, first_fault, stray, definition_in, header_in, inclusion_in, directive_in, line_of};
ghost use Rattle.dae_lex_scan.specs.Cuts.{cut_of};
ghost use Rattle.dae_lex_scan.specs.ReadLines.{line_from};

use crate::pieces::{SourcePiece, next_of};
use crate::tables::find_header;
use dae_base::Place;
use dae_tree::{Construct, Header, LexError, PieceKind, Sign, TextFault};

/// What a line is. A directive has the place of its number sign.
#[derive(Clone, Copy)]
pub enum ReadLine<'p, 'j> {
    Text,
    Nothing,
    Include(Place, Header),
    Define(Place, SourcePiece<'j>, &'p [SourcePiece<'j>]),
    Refuse(LexError),
}

/// Whether a piece is a blank.
pub fn blank_kind(kind: PieceKind) -> bool
    ensures { result ≡ is_blank_kind kind }
{
    matches!(kind, PieceKind::Blank)
}

fn end_kind(kind: PieceKind) -> bool
    ensures { result ≡ is_end_kind kind }
{
    matches!(kind, PieceKind::LineEnd)
}

fn hash_kind(kind: PieceKind) -> bool
    ensures { result ≡ is_hash_kind kind }
{
    matches!(kind, PieceKind::Hash)
}

fn word_kind(kind: PieceKind) -> bool
    ensures { result ≡ is_word_kind kind }
{
    matches!(kind, PieceKind::Word)
}

fn paren_kind(kind: PieceKind) -> bool
    ensures { result ≡ is_paren_kind kind }
{
    matches!(kind, PieceKind::Mark(Sign::LeftParen))
}

/// The pieces from the first that is no blank.
fn skip_blanks<'p, 'j>(pieces: &'p [SourcePiece<'j>]) -> &'p [SourcePiece<'j>]
    ensures { map cut_of result.now ≡ from_mark (map cut_of pieces.now) }
{
    for i in 0..pieces.len() {
        if !blank_kind(pieces[i].kind) {
            return &pieces[i..];
        }
    }
    &[]
}

/// A fault at a place, as the reason why a text has no tokens.
pub fn fault_at(fault: TextFault, place: Place) -> LexError
    ensures { result ≡ error_at fault place }
{
    match fault {
        TextFault::BadByte => LexError::BadByte(place),
        TextFault::Named(construct) => LexError::Refused(construct, place),
    }
}

/// What a directive is refused for at a piece that may not stand there.
fn stray_piece<'p, 'j>(hash: Place, piece: SourcePiece<'j>) -> ReadLine<'p, 'j>
    ensures { (all : List Cut) → line_from all result ≡ stray hash (cut_of piece.entry) }
{
    match piece.kind {
        PieceKind::FaultyComment(fault) => ReadLine::Refuse(fault_at(fault, piece.place)),
        _ => ReadLine::Refuse(LexError::Refused(Construct::Directive, hash)),
    }
}

/// The first of the pieces that may not stand in a replacement, as the reason for a refusal.
fn fault_in_body(pieces: &[SourcePiece<'_>]) -> Option<LexError>
    ensures { result ≡ first_fault (map cut_of pieces.now) }
{
    for piece in pieces {
        match piece.kind {
            PieceKind::Faulty(fault) | PieceKind::FaultyComment(fault) => {
                return Some(fault_at(fault, piece.place));
            }
            PieceKind::Hash => {
                return Some(LexError::Refused(Construct::HashInMacro, piece.place));
            }
            _ => {}
        }
    }
    None
}

/// What stands behind the word define.
fn read_definition<'p, 'j>(hash: Place, pieces: &'p [SourcePiece<'j>]) -> ReadLine<'p, 'j>
    ensures { (all : List Cut) → line_from all result ≡ definition_in hash (map cut_of pieces.now) }
{
    let Some((name, rest)) = next_of(pieces) else {
        return ReadLine::Refuse(LexError::Refused(Construct::Directive, hash));
    };
    if !word_kind(name.kind) {
        return stray_piece(hash, name);
    }
    if call_begins(rest) {
        return ReadLine::Refuse(LexError::Refused(Construct::FunctionMacro, hash));
    }
    match fault_in_body(rest) {
        Some(error) => ReadLine::Refuse(error),
        None => ReadLine::Define(hash, name, rest),
    }
}

/// Whether a parenthesis stands at the front.
fn call_begins(pieces: &[SourcePiece<'_>]) -> bool
    ensures { result ≡ begins_call (map cut_of pieces.now) }
{
    match next_of(pieces) {
        Some((first, _)) => paren_kind(first.kind),
        None => false,
    }
}

/// The header that these pieces name, and what stands behind it.
fn read_header<'p, 'j>(pieces: &'p [SourcePiece<'j>]) -> Option<(Header, &'p [SourcePiece<'j>])>
    ensures { option_map (λ f. (f.0, map cut_of f.1.now)) result
        ≡ header_in (map cut_of pieces.now) }
{
    let [open, name, dot, letter, close, rest @ ..] = pieces else {
        return None;
    };
    if open.spelling == b"<".as_slice()
        && dot.spelling == b".".as_slice()
        && letter.spelling == b"h".as_slice()
        && close.spelling == b">".as_slice()
    {
        match find_header(name.spelling) {
            Some(header) => Some((header, rest)),
            None => None,
        }
    } else {
        None
    }
}

/// What stands behind the word include.
fn read_inclusion<'p, 'j>(hash: Place, pieces: &'p [SourcePiece<'j>]) -> ReadLine<'p, 'j>
    ensures { (all : List Cut) → line_from all result ≡ inclusion_in hash (map cut_of pieces.now) }
{
    let Some((first, _)) = next_of(pieces) else {
        return ReadLine::Refuse(LexError::Refused(Construct::Directive, hash));
    };
    let Some((header, rest)) = read_header(pieces) else {
        return stray_piece(hash, first);
    };
    match next_of(skip_blanks(rest)) {
        Some((behind, _)) => stray_piece(hash, behind),
        None => ReadLine::Include(hash, header),
    }
}

/// What stands behind a number sign.
fn read_directive<'p, 'j>(hash: Place, pieces: &'p [SourcePiece<'j>]) -> ReadLine<'p, 'j>
    ensures { (all : List Cut) → line_from all result ≡ directive_in hash (map cut_of pieces.now) }
{
    let Some((word, rest)) = next_of(pieces) else {
        return ReadLine::Nothing;
    };
    if word.spelling == b"define".as_slice() {
        read_definition(hash, skip_blanks(rest))
    } else if word.spelling == b"include".as_slice() {
        read_inclusion(hash, skip_blanks(rest))
    } else {
        stray_piece(hash, word)
    }
}

/// What a line is.
pub fn read_line<'p, 'j>(pieces: &'p [SourcePiece<'j>]) -> ReadLine<'p, 'j>
    ensures { line_from (map cut_of pieces.now) result ≡ line_of (map cut_of pieces.now) }
{
    match next_of(skip_blanks(pieces)) {
        Some((first, rest)) if hash_kind(first.kind) => read_directive(
            first.place,
            skip_blanks(rest),
        ),
        Some(_) => ReadLine::Text,
        None => ReadLine::Nothing,
    }
}

/// How many pieces stand before the end of the line.
pub fn line_length(pieces: &[SourcePiece<'_>]) -> usize
    ensures value { result ≡ prefix_len goes_on (map cut_of pieces.now) }
    ensures within { result ≤ length pieces.now }
{
    for i in 0..pieces.len() {
        if end_kind(pieces[i].kind) {
            return i;
        }
    }
    pieces.len()
}
