// The formats of printf (C90 7.9.6.1): `%d`, `%i`, `%u`, `%x`, each also with `l`, `%c`, `%s` and `%%`.

ghost use Rattle.std.specs.Prelude.{◌≡◌, ℕ, suc, List, ◌∷◌, Ok};
ghost use Rattle.dae_types_file_plans.specs.Formats.{InText, converted_with, letter_piece, letters, number_piece, pieces_from};
ghost use Rattle.dae_types_kinds.specs.Types.{word_for};
ghost use Rattle.dae_types_rules.specs.Plan.{Gives};
ghost use Rattle.dae_types_fills.specs.Filled.{pieces_at, read_on, seen};

use dae_meaning::Spelling;
use dae_program::FormatPiece;
use dae_types_kinds::{CheckError, word_behind};
use std::alloc::Global;

/// Where in a conversion a byte stands.
#[derive(Clone, Copy)]
enum ConversionPart {
    InText,
    BehindPercent,
    BehindLong,
}

/// Where in a format a byte stands: in which part of a conversion, and behind how many arguments.
#[derive(Clone, Copy)]
struct FormatSpot {
    part: ConversionPart,
    argument: u32,
}

/// The pieces of a format; none where it has another conversion, a zero byte or an end within a conversion.
pub fn format_pieces(alloc: Global, format: &[u8]) -> Result<Option<Vec<FormatPiece>>, CheckError>
    ensures { Gives (seen (λ v. v.items)) result (Ok (pieces_from InText 0 format.now)) }
{
    let mut pieces = Vec::new(alloc);
    let mut spot = FormatSpot {
        part: ConversionPart::InText,
        argument: 0,
    };
    for byte in format {
        let Some((next, piece)) = read_byte(spot, *byte) else {
            return Ok(None);
        };
        if let Some(piece) = piece {
            pieces.push(piece)?;
        }
        spot = next;
    }
    match spot.part {
        ConversionPart::InText => Ok(Some(pieces)),
        _ => Ok(None),
    }
}

/// The spot behind a byte, and the piece that ends with it, if one does; or none where the format is refused.
fn read_byte(spot: FormatSpot, byte: u8) -> Option<(FormatSpot, Option<FormatPiece>)>
    ensures { (bs : List ℕ) → read_on result bs ≡ pieces_at spot (byte ∷ bs) }
{
    match (spot.part, byte) {
        (ConversionPart::InText, 0) => None,
        (ConversionPart::InText, b'%') => Some((within(spot, ConversionPart::BehindPercent), None)),
        (ConversionPart::InText, _) => Some((spot, Some(FormatPiece::Byte(byte)))),
        (ConversionPart::BehindPercent, b'%') => {
            Some((
                within(spot, ConversionPart::InText),
                Some(FormatPiece::Byte(byte)),
            ))
        }
        (ConversionPart::BehindPercent, b'l') => Some((
            within(spot, ConversionPart::BehindLong),
            None,
        )),
        (ConversionPart::BehindPercent, _) => convert(spot, letter_piece(spot.argument, byte)),
        (ConversionPart::BehindLong, _) => convert(spot, number_piece(spot.argument, byte)),
    }
}

/// Another part of a conversion, behind the same arguments.
fn within(spot: FormatSpot, part: ConversionPart) -> FormatSpot
    ensures { result ≡ record { part = part; argument = spot.argument } }
{
    FormatSpot {
        part,
        argument: spot.argument,
    }
}

/// The spot behind a conversion, with its piece; none where it has none.
fn convert(
    spot: FormatSpot,
    piece: Option<FormatPiece>,
) -> Option<(FormatSpot, Option<FormatPiece>)>
    ensures { (bs : List ℕ)
        → read_on result bs
        ≡ converted_with piece (pieces_from InText (word_for (suc spot.argument)) bs) }
{
    let piece = piece?;
    let behind = FormatSpot {
        part: ConversionPart::InText,
        argument: word_behind(spot.argument),
    };
    Some((behind, Some(piece)))
}

/// The conversion that a letter behind `%` says.
fn letter_piece(argument: u32, letter: u8) -> Option<FormatPiece>
    ensures { result ≡ letter_piece argument letter }
{
    match letter {
        b'c' => Some(FormatPiece::Word(Spelling::Byte, argument)),
        b's' => Some(FormatPiece::String(argument)),
        _ => number_piece(argument, letter),
    }
}

/// The conversion of a number that a letter says.
fn number_piece(argument: u32, letter: u8) -> Option<FormatPiece>
    ensures { result ≡ number_piece argument letter }
{
    match letter {
        b'd' | b'i' => Some(FormatPiece::Word(Spelling::Signed, argument)),
        b'u' => Some(FormatPiece::Word(Spelling::Unsigned, argument)),
        b'x' => Some(FormatPiece::Word(Spelling::Hexadecimal, argument)),
        _ => None,
    }
}

/// What each argument must be, in their order: whether it is text.
pub fn kinds_of_arguments(alloc: Global, pieces: &[FormatPiece]) -> Result<Vec<bool>, CheckError>
    ensures { Gives (λ v. v.items) result (Ok (letters pieces.now)) }
{
    let mut kinds = Vec::new(alloc);
    for piece in pieces {
        match piece {
            FormatPiece::Byte(_) => {}
            FormatPiece::Word(_, _) => kinds.push(false)?,
            FormatPiece::String(_) => kinds.push(true)?,
        }
    }
    Ok(kinds)
}
