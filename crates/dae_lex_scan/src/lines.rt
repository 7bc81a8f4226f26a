//! Lines joined: the bytes of a text that are left, and where each of them stands.

ghost use Rattle.std.specs.Prelude.{◌≡◌, ◌+◌, ◌≤◌, ◌<◌, ◌^◌, ◌++◌, [], ◌∷◌, length, IfOk, OnOk, IfErr};
ghost use Rattle.dae_tree.specs.Lines.{bytes_of, spots_of, start_of, spot_after, spot_behind, join_length, join_left, joined_lines};
ghost use Rattle.dae_tree.specs.declared.faults.LexError.TheVariants.{Memory};

use dae_base::Place;
use dae_tree::{LexError, TextSpot};
use std::alloc::Global;

/// The characters of a text with its lines joined: their bytes, and where each stands. The text ends at a place.
#[derive(Drop)]
pub struct Joined {
    pub bytes: Vec<u8>,
    pub spots: Vec<TextSpot>,
    pub end: Place,
}

/// How many bytes a joined line's end takes at the front, and 0 where there is none.
fn join_at(rest: &[u8]) -> usize
    ensures { result ≡ join_length rest.now }
{
    if rest.len() >= 2 && rest[0] == b'\\' && rest[1] == b'\n' {
        return 2;
    }
    if rest.len() >= 3 && rest[0] == b'\\' && rest[1] == b'\r' && rest[2] == b'\n' {
        return 3;
    }
    0
}

/// How many bytes of a joined line's end come now, where `left` are left of one that began before.
fn left_of_join(left: usize, rest: &[u8]) -> usize
    ensures { result ≡ join_left left rest.now }
{
    if left > 0 { left } else { join_at(rest) }
}

/// The spot after the byte that stands at a spot.
fn spot_behind_byte(spot: TextSpot, byte: u8) -> TextSpot
    requires { (spot.offset < 2 ^ 31) × (spot.place.line < 2 ^ 31) × (spot.place.col < 2 ^ 31) }
    ensures { result ≡ spot_after byte spot }
{
    let Place { file, line, col } = spot.place;
    let place = if byte == b'\n' {
        Place {
            file,
            line: line + 1,
            col: 1,
        }
    } else {
        Place {
            file,
            line,
            col: col + 1,
        }
    };
    TextSpot {
        offset: spot.offset + 1,
        place,
    }
}

/// The characters of the text, lines joined. Only memory can be wanting.
pub fn join_lines(alloc: Global, file: u16, text: &[u8]) -> Result<Joined, LexError>
    requires { length text.now ≤ 1048576 }
    ensures bytes { IfOk result
        (λ joined. joined.bytes.items ≡ bytes_of (joined_lines file text.now)) }
    ensures spots { IfOk result
        (λ joined. joined.spots.items ≡ spots_of (joined_lines file text.now)) }
    ensures end { IfOk result
        (λ joined. joined.end ≡ (spot_behind (start_of file) text.now).place) }
    ensures err { IfErr result (λ e. e ≡ Memory) }
{
    let mut bytes = Vec::new(alloc);
    let mut spots = Vec::new(alloc);
    let mut spot = TextSpot {
        offset: 0,
        place: Place {
            file,
            line: 1,
            col: 1,
        },
    };
    let mut skip = 0;
    for (i, byte) in text.iter().enumerate() {
        let joining = left_of_join(skip, &text[i..]);
        if joining == 0 {
            push_byte(&mut bytes, *byte)?;
            push_spot(&mut spots, spot)?;
            skip = 0;
        } else {
            skip = joining - 1;
        }
        spot = spot_behind_byte(spot, *byte);
    }
    Ok(Joined {
        bytes,
        spots,
        end: spot.place,
    })
}

fn push_byte(bytes: &mut Vec<u8>, byte: u8) -> Result<(), LexError>
    ensures ok { OnOk result (bytes.new.items ≡ bytes.old.items ++ byte ∷ []) }
    ensures err { IfErr result (λ e. e ≡ Memory) }
{
    match bytes.push(byte) {
        Ok(()) => Ok(()),
        Err(_) => Err(LexError::Memory),
    }
}

fn push_spot(spots: &mut Vec<TextSpot>, spot: TextSpot) -> Result<(), LexError>
    ensures ok { OnOk result (spots.new.items ≡ spots.old.items ++ spot ∷ []) }
    ensures err { IfErr result (λ e. e ≡ Memory) }
{
    match spots.push(spot) {
        Ok(()) => Ok(()),
        Err(_) => Err(LexError::Memory),
    }
}
