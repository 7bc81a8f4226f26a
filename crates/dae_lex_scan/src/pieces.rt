//! A joined text cut into its longest pieces.

ghost use Rattle.std.specs.Prelude.{◌≡◌, ℕ, ◌≤◌, ◌<◌, ◌+◌, ◌^◌, ◌++◌, [], ◌∷◌, length, drop, IfOk, OnOk, IfErr, MatchOption, map, All};
ghost use Rattle.std.specs.List.{flat_map};
ghost use Rattle.dae_tree.specs.Forms.{IsWithin};
ghost use Rattle.dae_tree.specs.Pieces.{cut, piece};
ghost use Rattle.dae_lex_scan.specs.Cuts.{cut_of, chars, Rise, FollowEachOther, SpotsFrom, PlacesFrom};
ghost use Rattle.dae_base.specs.declared.Place.{Place as Place_};
ghost use Rattle.dae_tree.specs.declared.faults.LexError.TheVariants.{Memory};

use crate::forms::form_at;
use crate::lines::Joined;
use dae_base::Place;
use dae_tree::{LexError, Lexeme, PieceKind};
use std::alloc::Global;

/// What a piece is, its bytes with lines joined, and where it stands in the text.
#[derive(Clone, Copy)]
pub struct SourcePiece<'j> {
    pub kind: PieceKind,
    pub spelling: &'j [u8],
    pub start: u32,
    pub end: u32,
    pub place: Place,
}

/// The piece of this form that stands at a place of the joined text.
fn piece_at<'j>(joined: &'j Joined, at: usize, form: Lexeme) -> SourcePiece<'j>
    requires same { length joined.now.bytes.items ≡ length joined.now.spots.items }
    requires within { IsWithin form (drop at joined.now.bytes.items) }
    requires small { All (λ s. s.offset < 2 ^ 31) joined.now.spots.items }
    ensures { cut_of result
        ≡ piece form (drop at (chars joined.now.bytes.items joined.now.spots.items)) }
{
    let first = joined.spots[at];
    let last = joined.spots[at + (form.length - 1)];
    let faulty = joined.spots[at + form.at];
    SourcePiece {
        kind: form.kind,
        spelling: &joined.bytes[at..at + form.length],
        start: first.offset,
        end: last.offset + 1,
        place: faulty.place,
    }
}

/// The text cut into pieces. Only memory can be wanting.
pub fn cut_pieces<'j>(alloc: Global, joined: &'j Joined) -> Result<Vec<SourcePiece<'j>>, LexError>
    requires same { length joined.now.bytes.items ≡ length joined.now.spots.items }
    requires small { All (λ s. s.offset < 2 ^ 31) joined.now.spots.items }
    ensures ok { IfOk result
        (λ pieces. map cut_of pieces.items
        ≡ cut 0 (chars joined.now.bytes.items joined.now.spots.items)) }
    ensures spelled { IfOk result
        (λ pieces. flat_map (λ p. p.spelling) (map cut_of pieces.items) ≡ joined.now.bytes.items) }
    ensures order { IfOk result
        (λ pieces. (n : ℕ) → Rise 0 joined.now.spots.items n
        → FollowEachOther 0 (map cut_of pieces.items) n) }
    ensures places { IfOk result
        (λ pieces. (p : Place_) → SpotsFrom p joined.now.spots.items
        → PlacesFrom p (map (λ q. q.place) (map cut_of pieces.items))) }
    ensures err { IfErr result (λ e. e ≡ Memory) }
{
    let mut pieces = Vec::new(alloc);
    let mut at = 0;
    while at < joined.bytes.len() {
        let form = form_at(&joined.bytes[at..]);
        push_piece(&mut pieces, piece_at(joined, at, form))?;
        at += form.length;
    }
    Ok(pieces)
}

/// Appends a piece.
pub fn push_piece<'j>(
    pieces: &mut Vec<SourcePiece<'j>>,
    piece: SourcePiece<'j>,
) -> Result<(), LexError>
    ensures ok { OnOk result (pieces.new.items ≡ pieces.old.items ++ piece.entry ∷ []) }
    ensures err { IfErr result (λ e. e ≡ Memory) }
{
    match pieces.push(piece) {
        Ok(()) => Ok(()),
        Err(_) => Err(LexError::Memory),
    }
}

/// The first of these pieces, and the others.
pub fn next_of<'m, 'j>(
    pieces: &'m [SourcePiece<'j>],
) -> Option<(SourcePiece<'j>, &'m [SourcePiece<'j>])>
    ensures { MatchOption result (pieces.now ≡ []) (λ next. pieces.now ≡ next.0 ∷ next.1.now) }
{
    match pieces {
        [] => None,
        [first, rest @ ..] => Some((*first, rest)),
    }
}
