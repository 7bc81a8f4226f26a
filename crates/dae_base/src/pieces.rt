// What is printed at a time: a byte, or a word in decimal or hexadecimal digits.

ghost use Rattle.std.specs.Prelude.{◌≡◌, ℕ, ◌<◌, ◌≤◌, List, [], length, take, nat_eq, false};
ghost use Rattle.std.specs.Fmt.{digit_glyph};
ghost use Rattle.dae_base.specs.Texts.{byte_text, decimal_text, hex_text, is_nothing, spelled};

use crate::Signedness;
use itoa::Buffer;
use std::marker::Model;

/// How a word is printed: not at all, as its low byte, in decimal as a signed or an unsigned number, or in lower-case
/// hexadecimal.
#[derive(Clone, Copy, PartialEq, Eq)]
pub enum PieceSpelling {
    Nothing,
    Byte,
    Decimal(Signedness),
    Hexadecimal,
}

/// What one step prints, as a word and how it is spelled, so that a step moves no text. Clauses see the text.
#[derive(Drop)]
pub struct Piece {
    spelling: PieceSpelling,
    word: u32,
}

impl Model for Piece {
    ghost Value = { List ℕ };

    ghost view = { λ p. spelled p.spelling p.word };
}

impl Piece {
    /// The piece without bytes.
    pub fn empty() -> Piece
        ensures { result ≡ [] }
    {
        Piece {
            spelling: PieceSpelling::Nothing,
            word: 0,
        }
    }

    /// The text.
    pub fn text(&self) -> ShortText
        ensures { result ≡ self.now }
    {
        spelled(self.spelling, self.word)
    }

    /// Whether the text has no bytes.
    pub fn is_empty(&self) -> bool
        ensures { result ≡ nat_eq (length self.now) 0 }
    {
        is_nothing(self.spelling)
    }
}

/// The low byte of a word.
pub fn byte_piece(word: u32) -> Piece
    ensures { result ≡ byte_text word }
{
    Piece {
        spelling: PieceSpelling::Byte,
        word,
    }
}

/// A word in decimal: as a signed number, or as an unsigned one. There are no leading zeros.
pub fn decimal_piece(word: u32, signedness: Signedness) -> Piece
    ensures { result ≡ decimal_text word signedness }
{
    Piece {
        spelling: PieceSpelling::Decimal(signedness),
        word,
    }
}

/// A word in lower-case hexadecimal, without leading zeros.
pub fn hex_piece(word: u32) -> Piece
    ensures { result ≡ hex_text word }
{
    Piece {
        spelling: PieceSpelling::Hexadecimal,
        word,
    }
}

fn is_nothing(spelling: PieceSpelling) -> bool
    ensures { result ≡ is_nothing spelling }
{
    matches!(spelling, PieceSpelling::Nothing)
}

/// At most twelve bytes, beside how many there are. Clauses see them as a list.
#[derive(Drop)]
pub struct ShortText {
    bytes: [u8; 12],
    len: u8,
}

impl Model for ShortText {
    ghost Value = { List ℕ };

    ghost view = { λ t. take t.len t.bytes };

    ghost invariant = { λ t. t.len ≤ 12 };
}

impl ShortText {
    fn of_bytes(text: &[u8]) -> ShortText
        requires { length text.now ≤ 12 }
        ensures { result ≡ text.now }
    {
        let mut bytes = [0; 12];
        bytes[..text.len()].copy_from_slice(text);
        ShortText {
            bytes,
            len: text.len() as u8,
        }
    }

    /// The bytes.
    pub fn as_bytes(&self) -> &[u8]
        ensures same { result.now ≡ self.now }
        ensures short { length result.now ≤ 12 }
    {
        &self.bytes[..self.len as usize]
    }
}

fn spelled(spelling: PieceSpelling, word: u32) -> ShortText
    ensures { result ≡ spelled spelling word }
{
    match spelling {
        PieceSpelling::Nothing => ShortText::of_bytes(&[]),
        PieceSpelling::Byte => ShortText::of_bytes(&[(word % 256) as u8]),
        PieceSpelling::Decimal(Signedness::Signed) => signed_text(word),
        PieceSpelling::Decimal(Signedness::Unsigned) => unsigned_text(word),
        PieceSpelling::Hexadecimal => hex_text(word),
    }
}

fn signed_text(word: u32) -> ShortText
    ensures { result ≡ decimal_text word Signedness.Signed }
{
    let mut buffer = Buffer::new();
    ShortText::of_bytes(buffer.format(word.cast_signed()).as_bytes())
}

fn unsigned_text(word: u32) -> ShortText
    ensures { result ≡ decimal_text word Signedness.Unsigned }
{
    let mut buffer = Buffer::new();
    ShortText::of_bytes(buffer.format(word).as_bytes())
}

fn hex_text(word: u32) -> ShortText
    ensures { result ≡ hex_text word }
{
    let mut digits = [0; 8];
    let mut start = 7;
    let mut rest = word;
    while rest >= 16 {
        digits[start] = hex_digit(rest % 16);
        rest /= 16;
        start -= 1;
    }
    digits[start] = hex_digit(rest);
    ShortText::of_bytes(&digits[start..])
}

fn hex_digit(digit: u32) -> u8
    requires { digit < 16 }
    ensures { result ≡ digit_glyph false digit }
{
    if digit < 10 {
        b'0' + digit as u8
    } else {
        b'a' + (digit as u8 - 10)
    }
}
