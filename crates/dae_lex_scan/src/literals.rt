//! The bytes that the inside of a literal spells, and the first fault in it.

ghost use Rattle.std.specs.Prelude.{◌≡◌, ◌≤◌, ◌<◌, ◌++◌, length, IfSome, OnOk, slice_index};
ghost use Rattle.dae_tree.specs.Constants.{value_from, limited};
ghost use Rattle.dae_tree.specs.Literals.{letter_in, letter_of, escape_of, unit_of, values_of, checked, fault_from};

use crate::bytes::{begins_trigraph, byte_at, bytes_from, is_nowhere_byte};
use crate::numbers::{digits_length, value_of};
use dae_tree::{Construct, ESCAPES, TextFault};
use std::alloc::AllocError;

fn find_letter(rows: &[(u8, u8)], b: u8) -> Option<u8>
    ensures { result ≡ letter_in rows.now b }
{
    for (letter, byte) in rows {
        if b == *letter {
            return Some(*byte);
        }
    }
    None
}

#[tactic(auto, unfolding(dae_tree::specs::Literals::letter_of))]
fn letter_at(b: u8) -> Option<u8>
    ensures { result ≡ letter_of b }
{
    find_letter(&ESCAPES, b)
}

/// A value up to 255.
fn small_value(base: u8, digits: &[u8]) -> Option<u8>
    requires { 0 < base }
    ensures { result ≡ limited 255 (value_from base 0 digits.now) }
{
    match value_of(base, digits, 255) {
        Some(value) => Some(value as u8),
        None => None,
    }
}

/// An escape, with its backslash at the front: the byte that it stands for, none where it is bad, and its length.
#[tactic(auto, unfolding(dae_tree::specs::Literals::escape_of))]
fn escape_at(bytes: &[u8]) -> (Option<u8>, usize)
    ensures value { result ≡ escape_of bytes.now }
    ensures some { 0 < result.1 }
{
    let behind = bytes_from(bytes, 1);
    if byte_at(bytes, 1) == b'x' {
        let digits = bytes_from(bytes, 2);
        let n = digits_length(16, digits);
        if n == 0 {
            return (None, 2);
        }
        return (small_value(16, &digits[..n]), 2 + n);
    }
    let n = digits_length(8, behind).min(3);
    if n == 0 {
        return (letter_at(byte_at(bytes, 1)), 2);
    }
    (small_value(8, &behind[..n]), 1 + n)
}

/// The byte or escape at the front of a literal's inside: its value, none where it is bad, and its length.
fn unit_at(bytes: &[u8]) -> (Option<u8>, usize)
    ensures value { result ≡ unit_of bytes.now }
    ensures some { 0 < result.1 }
{
    if byte_at(bytes, 0) == b'\\' {
        escape_at(bytes)
    } else {
        (Some(byte_at(bytes, 0)), 1)
    }
}

/// How many values the inside of a literal has.
pub fn values_length(inside: &[u8]) -> usize
    ensures value { result ≡ length (values_of inside.now) }
    ensures within { result ≤ length inside.now }
{
    let mut count = 0;
    let mut left = 0;
    for i in 0..inside.len() {
        if left == 0 {
            count += 1;
            left = unit_at(&inside[i..]).1 - 1;
        } else {
            left -= 1;
        }
    }
    count
}

/// Appends the values of the inside of a literal.
pub fn append_values(inside: &[u8], values: &mut Vec<u8>) -> Result<(), AllocError>
    ensures { OnOk result (values.new.items ≡ values.old.items ++ values_of inside.now) }
{
    let mut left = 0;
    for i in 0..inside.len() {
        if left == 0 {
            let (value, n) = unit_at(&inside[i..]);
            values.push(value.unwrap_or(0))?;
            left = n - 1;
        } else {
            left -= 1;
        }
    }
    Ok(())
}

/// The first value, and 0 where there is none.
pub fn first_value(inside: &[u8]) -> u8
    ensures { result ≡ slice_index (values_of inside.now) 0 }
{
    if inside.is_empty() {
        0
    } else {
        unit_at(inside).0.unwrap_or(0)
    }
}

/// What is wrong at the front, where `left` bytes are left of a unit before, or how many are left then.
fn check(left: usize, bytes: &[u8]) -> Result<usize, TextFault>
    ensures { result ≡ checked left bytes.now }
{
    if begins_trigraph(bytes) {
        return Err(TextFault::Named(Construct::Trigraph));
    }
    if is_nowhere_byte(byte_at(bytes, 0)) {
        return Err(TextFault::BadByte);
    }
    if left > 0 {
        return Ok(left - 1);
    }
    match unit_at(bytes) {
        (Some(_), n) => Ok(n - 1),
        (None, _) => Err(TextFault::Named(Construct::BadEscape)),
    }
}

/// The first fault in the inside of a literal, and how far on it stands.
pub fn first_fault(inside: &[u8]) -> Option<(TextFault, usize)>
    ensures value { result ≡ fault_from 0 inside.now }
    ensures within { IfSome result (λ f. f.1 < length inside.now) }
{
    let mut left = 0;
    for i in 0..inside.len() {
        match check(left, &inside[i..]) {
            Ok(now) => left = now,
            Err(fault) => return Some((fault, i)),
        }
    }
    None
}
