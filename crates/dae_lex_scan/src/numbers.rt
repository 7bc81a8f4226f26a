//! What a number spells: its base, digits and suffix.

ghost use Rattle.std.specs.Prelude.{◌≡◌, ◌≤◌, ◌<◌, length, slice_index, ◌==◌};
ghost use Rattle.std.specs.List.{prefix_len, list_any};
ghost use Rattle.std.specs.Char.{is_ascii_digit};
ghost use Rattle.dae_tree.specs.Constants.{digit, is_digit_in, value_from, limited, is_hex, is_plus_or_minus, begins_exponent, is_float, base_of, constant_of};
ghost use Rattle.dae_tree.specs.Forms.{number_kind};

use crate::bytes::byte_at;
use crate::tables::find_suffix;
use dae_tree::{Constant, Construct, PieceKind};

/// What a byte counts as a digit, and 99 for one that is none.
fn digit_of(b: u8) -> u8
    ensures value { result ≡ digit b }
    ensures small { result < 100 }
{
    match b {
        b'0'..=b'9' => b - b'0',
        b'a'..=b'f' => b - b'a' + 10,
        b'A'..=b'F' => b - b'A' + 10,
        _ => 99,
    }
}

/// How many digits of a base stand at the front.
pub fn digits_length(base: u8, bytes: &[u8]) -> usize
    ensures value { result ≡ prefix_len (is_digit_in base) bytes.now }
    ensures within { result ≤ length bytes.now }
{
    for (i, b) in bytes.iter().enumerate() {
        if digit_of(*b) >= base {
            return i;
        }
    }
    bytes.len()
}

/// How many decimal digits stand at the front.
fn decimals_length(bytes: &[u8]) -> usize
    ensures value { result ≡ prefix_len is_ascii_digit bytes.now }
    ensures within { result ≤ length bytes.now }
{
    for (i, b) in bytes.iter().enumerate() {
        if !b.is_ascii_digit() {
            return i;
        }
    }
    bytes.len()
}

/// The value of digits, up to a limit.
pub fn value_of(base: u8, digits: &[u8], limit: u32) -> Option<u32>
    requires { 0 < base }
    ensures { result ≡ limited limit (value_from base 0 digits.now) }
{
    let mut value: u64 = 0;
    for d in digits {
        value = value * u64::from(base) + u64::from(digit_of(*d));
        if value > u64::from(limit) {
            return None;
        }
    }
    Some(value as u32)
}

fn hex(bytes: &[u8]) -> bool
    ensures { result ≡ is_hex bytes.now }
{
    byte_at(bytes, 0) == b'0' && (byte_at(bytes, 1) == b'x' || byte_at(bytes, 1) == b'X')
}

fn has_point(bytes: &[u8]) -> bool
    ensures { result ≡ list_any (λ b. b == 46) bytes.now }
{
    bytes.iter().any(|b| *b == b'.')
}

fn plus_or_minus(b: u8) -> bool
    ensures { result ≡ is_plus_or_minus b }
{
    b == b'+' || b == b'-'
}

fn exponent_at(bytes: &[u8]) -> bool
    ensures { result ≡ begins_exponent bytes.now }
{
    (byte_at(bytes, 0) == b'e' || byte_at(bytes, 0) == b'E')
        && (byte_at(bytes, 1).is_ascii_digit()
            || (plus_or_minus(byte_at(bytes, 1)) && byte_at(bytes, 2).is_ascii_digit()))
}

fn float(bytes: &[u8]) -> bool
    ensures { result ≡ is_float bytes.now }
{
    let digits = decimals_length(bytes);
    has_point(bytes) || (!hex(bytes) && exponent_at(&bytes[digits..]))
}

fn base_at(bytes: &[u8]) -> (u8, usize)
    ensures value { result ≡ base_of bytes.now }
    ensures within { result.1 ≤ length bytes.now }
    ensures some { 0 < result.0 }
{
    if hex(bytes) {
        (16, 2)
    } else if byte_at(bytes, 0) == b'0' {
        (8, 0)
    } else {
        (10, 0)
    }
}

/// The constant that is spelled so, or by what name the number is refused.
#[tactic(auto, unfolding(dae_tree::specs::Constants::constant_of))]
pub fn read_constant(bytes: &[u8]) -> Result<Constant, Construct>
    ensures { result ≡ constant_of bytes.now }
{
    if float(bytes) {
        return Err(Construct::FloatConstant);
    }
    let (base, begin) = base_at(bytes);
    let rest = &bytes[begin..];
    let n = digits_length(base, rest);
    if n == 0 {
        return Err(Construct::BadConstant);
    }
    let Some(unsigned) = find_suffix(&rest[n..]) else {
        return Err(Construct::BadConstant);
    };
    match value_of(base, &rest[..n], u32::MAX) {
        Some(value) => Ok(Constant {
            value,
            unsigned: unsigned || value >= 1 << 31,
        }),
        None => Err(Construct::NumberTooLarge),
    }
}

/// What the piece is that a number's spelling makes: a constant, or one that is refused if it is left as a token.
#[tactic(auto, unfolding(dae_tree::specs::Forms::number_kind))]
pub fn number_kind(bytes: &[u8]) -> PieceKind
    ensures { result ≡ number_kind bytes.now }
{
    match read_constant(bytes) {
        Ok(constant) => PieceKind::Constant(constant),
        Err(construct) => PieceKind::Late(construct),
    }
}
