//! Tokens as they are put out, with what is left of the room.

ghost use Rattle.std.specs.Prelude.{◌≡◌, ◌<◌, ◌+◌, [], ◌∷◌, option_map, IfSome, IfOk, OnOk, Result, Ok, Err};
ghost use Rattle.dae_tree.specs.Tokens.{literal_of};
ghost use Rattle.dae_tree.specs.Replacing.{items_of, taken, replaced, word_meaning, literal_length};
ghost use Rattle.dae_lex_scan.specs.Cuts.{cut_of};
ghost use Rattle.dae_lex.specs.Numbers.{IsName, IsNumbered};
ghost use Rattle.dae_lex.specs.Settling.{Settles, AreRead, IsMeant, IsFixed, state_of, settle, meaning_of, meant};
ghost use Rattle.dae_lex.specs.declared.numbers.WordNumbers.{WordNumbers as Numbers_};
ghost use Rattle.dae_tree.specs.declared.faults.LexError.TheVariants.{Memory};

use crate::numbers::{NumberedPiece, WordNumbers, between_quotes};
use dae_base::Place;
use dae_lex_scan::{SourcePiece, fault_at, find_keyword, find_refused_word};
use dae_tree::{Constant, Construct, Keyword, LexError, PieceKind, Room, Sign};
use std::alloc::Global;

/// What a token is, with the number and the bytes of a name, or the number and the spelling of a literal.
#[derive(Clone, Copy)]
pub enum Meaning<'j> {
    Keyword(Keyword),
    Sign(Sign),
    Name(usize, &'j [u8]),
    Constant(Constant),
    Literal(usize, &'j [u8]),
}

/// A token, with the span and place of the piece of the text that it comes from.
#[derive(Clone, Copy)]
pub struct ReadToken<'j> {
    pub meaning: Meaning<'j>,
    pub start: u32,
    pub end: u32,
    pub place: Place,
}

/// The tokens so far, and what is left of the room.
#[derive(Drop)]
pub struct Output<'j> {
    pub tokens: Vec<ReadToken<'j>>,
    pub room: Room,
}

/// What a word is as a token, or by what name it is refused.
#[tactic(auto, unfolding(dae_tree::specs::Replacing::word_meaning))]
fn read_word<'j>(number: usize, word: &'j [u8]) -> Result<Meaning<'j>, Construct>
    ensures meaning { meant result ≡ word_meaning word.now }
    ensures number { (w : Numbers_) → IsName w number word.now → IfOk result (IsMeant w) }
{
    if let Some(keyword) = find_keyword(word) {
        return Ok(Meaning::Keyword(keyword));
    }
    match find_refused_word(word) {
        Some(construct) => Err(construct),
        None => Ok(Meaning::Name(number, word)),
    }
}

/// What a piece of this kind is as a token, where that doesn't depend on how it is spelled.
pub fn fixed_meaning<'j>(kind: PieceKind) -> Option<Meaning<'j>>
    ensures meaning { IfSome result (IsFixed kind) }
    ensures meant { (w : Numbers_) → IfSome result (IsMeant w) }
{
    match kind {
        PieceKind::Constant(value) => Some(Meaning::Constant(value)),
        PieceKind::Mark(sign) => Some(Meaning::Sign(sign)),
        _ => None,
    }
}

/// The bytes of a token that is a literal.
pub fn literal_bytes<'n>(numbers: &'n WordNumbers<'_>, meaning: Meaning<'_>) -> Option<&'n [u8]>
    requires { IsMeant numbers.now meaning }
    ensures { option_map (λ bytes. bytes.now) result ≡ literal_of (meaning_of meaning.entry) }
{
    match meaning {
        Meaning::Literal(number, _) => Some(numbers.literals[number].as_slice()),
        _ => None,
    }
}

/// How many bytes a token has of the room of literals.
fn bytes_in_literals(numbers: &WordNumbers<'_>, meaning: Meaning<'_>) -> usize
    requires { IsMeant numbers.now meaning }
    ensures { result ≡ literal_length (meaning_of meaning.entry) }
{
    match meaning {
        Meaning::Literal(number, _) => numbers.literals[number].len(),
        _ => 0,
    }
}

impl<'j> Output<'j> {
    /// Nothing, with this room.
    pub fn new(alloc: Global, room: Room) -> Output<'j>
        ensures { state_of result ≡ record { tokens = []; room = room } }
    {
        Output {
            tokens: Vec::new(alloc),
            room,
        }
    }

    /// Takes a piece that isn't replaced, which comes from a piece of the text.
    pub fn take(
        &mut self,
        numbers: &WordNumbers<'j>,
        next: NumberedPiece<'j>,
        origin: SourcePiece<'j>,
    ) -> Result<(), LexError>
        requires numbered { IsNumbered numbers.now next }
        requires read { AreRead numbers.now self.old }
        ensures settles { Settles (state_of self.new) result
            (settle (state_of self.old)
            (items_of (cut_of next.entry.piece) (cut_of origin.entry))) }
        ensures left { OnOk result (self.new.room.replacements ≡ self.old.room.replacements) }
        ensures read { OnOk result (AreRead numbers.now self.new) }
    {
        let NumberedPiece { piece, number } = next;
        match piece.kind {
            PieceKind::Blank | PieceKind::LineEnd => Ok(()),
            PieceKind::Word => self.put(numbers, read_word(number, piece.spelling), origin),
            PieceKind::Constant(value) => self.put(numbers, Ok(Meaning::Constant(value)), origin),
            PieceKind::Text => self.put(
                numbers,
                Ok(Meaning::Literal(number, between_quotes(piece.spelling))),
                origin,
            ),
            PieceKind::Mark(sign) => self.put(numbers, Ok(Meaning::Sign(sign)), origin),
            PieceKind::Hash => Err(LexError::BadByte(origin.place)),
            PieceKind::Late(construct) => self.put(numbers, Err(construct), origin),
            PieceKind::Faulty(fault) | PieceKind::FaultyComment(fault) => Err(fault_at(
                fault,
                origin.place,
            )),
        }
    }

    /// Puts out a token that comes from a piece of the text, or refuses it.
    pub fn put(
        &mut self,
        numbers: &WordNumbers<'j>,
        meaning: Result<Meaning<'j>, Construct>,
        origin: SourcePiece<'j>,
    ) -> Result<(), LexError>
        requires numbered { IfOk meaning (IsMeant numbers.now) }
        requires read { AreRead numbers.now self.old }
        ensures settles { Settles (state_of self.new) result
            (settle (state_of self.old) (taken (meant meaning.entry) (cut_of origin.entry) ∷ [])) }
        ensures left { OnOk result (self.new.room.replacements ≡ self.old.room.replacements) }
        ensures read { OnOk result (AreRead numbers.now self.new) }
    {
        if self.room.tokens == 0 {
            return Err(LexError::TooManyTokens(origin.place));
        }
        let meaning = match meaning {
            Ok(meaning) => meaning,
            Err(construct) => return Err(LexError::Refused(construct, origin.place)),
        };
        let bytes = bytes_in_literals(numbers, meaning);
        if bytes > self.room.literal_bytes as usize {
            return Err(LexError::Refused(Construct::LiteralsTooLong, origin.place));
        }
        let token = ReadToken {
            meaning,
            start: origin.start,
            end: origin.end,
            place: origin.place,
        };
        match self.tokens.push(token) {
            Ok(()) => {
                self.room.tokens -= 1;
                self.room.literal_bytes -= bytes as u32;
                Ok(())
            }
            Err(_) => Err(LexError::Memory),
        }
    }

    /// Counts one more replacement, of a name of the text.
    pub fn count_replacement(&mut self, origin: SourcePiece<'j>) -> Result<(), LexError>
        ensures settles { Settles (state_of self.new) result
            (settle (state_of self.old) (replaced (cut_of origin.entry) ∷ [])) }
        ensures left { OnOk result (self.new.room.replacements + 1 ≡ self.old.room.replacements) }
        ensures tokens { self.new.tokens ≡ self.old.tokens }
    {
        if self.room.replacements == 0 {
            return Err(LexError::Refused(Construct::TooManyReplacements, origin.place));
        }
        self.room.replacements -= 1;
        Ok(())
    }
}
