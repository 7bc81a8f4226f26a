//! What stands at the front of some bytes: a word, a number, a literal, a comment, a sign, or a fault.

ghost use Rattle.std.specs.Prelude.{◌≡◌, ◌≤◌, ◌<◌, ◌+◌, length, false, slice_index, IfSome, IsTrue};
ghost use Rattle.std.specs.List.{prefix_len};
ghost use Rattle.dae_tree.specs.Forms.{is_letter, is_word, begins_number, number_rest, literal_stop, front_nowhere, closes_comment, ends_line, place_of, plain, wrong, wrong_comment, word_form, number_form, literal_fault, literal_kind, literal_form, comment_form, line_comment_form, sign_form, form, IsWithin};

use crate::bytes::{
    begins_trigraph, byte_at, is_blank_byte, is_letter_byte, is_nowhere_byte, is_word_byte,
};
use crate::literals::{first_fault, first_value, values_length};
use crate::numbers::number_kind;
use crate::tables::sign_at;
use dae_tree::{Constant, Construct, Lexeme, PieceKind, TextFault};

fn plain_form(kind: PieceKind, length: usize) -> Lexeme
    ensures { result ≡ plain kind length }
{
    Lexeme {
        kind,
        length,
        at: 0,
    }
}

fn wrong_form(fault: TextFault, at: usize, bytes: &[u8]) -> Lexeme
    ensures { result ≡ wrong fault at bytes.now }
{
    Lexeme {
        kind: PieceKind::Faulty(fault),
        length: bytes.len(),
        at,
    }
}

fn wrong_comment_form(fault: TextFault, at: usize, bytes: &[u8]) -> Lexeme
    ensures { result ≡ wrong_comment fault at bytes.now }
{
    Lexeme {
        kind: PieceKind::FaultyComment(fault),
        length: bytes.len(),
        at,
    }
}

fn closes(bytes: &[u8]) -> bool
    ensures { result ≡ closes_comment bytes.now }
{
    bytes.len() >= 2 && bytes[0] == b'*' && bytes[1] == b'/'
}

fn word_length(bytes: &[u8]) -> usize
    ensures value { result ≡ prefix_len is_word bytes.now }
    ensures within { result ≤ length bytes.now }
{
    for (i, b) in bytes.iter().enumerate() {
        if !is_word_byte(*b) {
            return i;
        }
    }
    bytes.len()
}

fn number_length(bytes: &[u8]) -> usize
    ensures value { result ≡ number_rest false bytes.now }
    ensures within { result ≤ length bytes.now }
{
    let mut after_exponent = false;
    for (i, b) in bytes.iter().enumerate() {
        if !(is_word_byte(*b) || *b == b'.' || (after_exponent && (*b == b'+' || *b == b'-'))) {
            return i;
        }
        after_exponent = *b == b'e' || *b == b'E';
    }
    bytes.len()
}

fn stop_of_literal(quote: u8, bytes: &[u8]) -> usize
    ensures value { result ≡ literal_stop false quote bytes.now }
    ensures within { result ≤ length bytes.now }
{
    let mut escaped = false;
    for (i, b) in bytes.iter().enumerate() {
        if *b == b'\n' || (*b == quote && !escaped) {
            return i;
        }
        escaped = *b == b'\\' && !escaped;
    }
    bytes.len()
}

fn nowhere_place(bytes: &[u8]) -> usize
    ensures value { result ≡ place_of front_nowhere bytes.now }
    ensures within { result ≤ length bytes.now }
{
    for (i, b) in bytes.iter().enumerate() {
        if is_nowhere_byte(*b) {
            return i;
        }
    }
    bytes.len()
}

fn line_end_place(bytes: &[u8]) -> usize
    ensures value { result ≡ place_of ends_line bytes.now }
    ensures within { result ≤ length bytes.now }
{
    for (i, b) in bytes.iter().enumerate() {
        if *b == b'\n' {
            return i;
        }
    }
    bytes.len()
}

fn comment_close(bytes: &[u8]) -> usize
    ensures value { result ≡ place_of closes_comment bytes.now }
    ensures whole { result < length bytes.now → result + 2 ≤ length bytes.now }
    ensures within { result ≤ length bytes.now }
{
    for i in 0..bytes.len() {
        if closes(&bytes[i..]) {
            return i;
        }
    }
    bytes.len()
}

#[tactic(auto, unfolding(dae_tree::specs::Forms::word_form))]
fn word_at(bytes: &[u8]) -> Lexeme
    requires { IsTrue (is_letter (slice_index bytes.now 0)) }
    ensures value { result ≡ word_form bytes.now }
    ensures within { IsWithin result bytes.now }
{
    let length = word_length(bytes);
    if length == 1
        && byte_at(bytes, 0) == b'L'
        && (byte_at(bytes, 1) == b'"' || byte_at(bytes, 1) == b'\'')
    {
        return wrong_form(TextFault::Named(Construct::WideLiteral), 0, bytes);
    }
    plain_form(PieceKind::Word, length)
}

#[tactic(auto, unfolding(dae_tree::specs::Forms::number_form))]
fn number_at(bytes: &[u8]) -> Lexeme
    requires { IsTrue (begins_number bytes.now) }
    ensures value { result ≡ number_form bytes.now }
    ensures within { IsWithin result bytes.now }
{
    let length = number_length(bytes);
    plain_form(number_kind(&bytes[..length]), length)
}

/// What is wrong between the quotes of a literal, and how far behind its first quote.
fn fault_inside(quote: u8, inside: &[u8]) -> Option<(TextFault, usize)>
    ensures value { result ≡ literal_fault quote inside.now }
    ensures within { IfSome result (λ f. f.1 < length inside.now + 1) }
{
    if quote == b'\'' && values_length(inside) != 1 {
        return Some((TextFault::Named(Construct::LongCharacter), 0));
    }
    match first_fault(inside) {
        Some((fault, at)) => Some((fault, 1 + at)),
        None => None,
    }
}

fn kind_inside(quote: u8, inside: &[u8]) -> PieceKind
    ensures { result ≡ literal_kind quote inside.now }
{
    if quote == b'\'' {
        PieceKind::Constant(Constant {
            value: u32::from(first_value(inside)),
            unsigned: false,
        })
    } else {
        PieceKind::Text
    }
}

#[tactic(auto, unfolding(dae_tree::specs::Forms::literal_form))]
fn literal_at(bytes: &[u8]) -> Lexeme
    requires some { 0 < length bytes.now }
    requires quote { 0 < slice_index bytes.now 0 }
    ensures value { result ≡ literal_form bytes.now }
    ensures within { IsWithin result bytes.now }
{
    let quote = bytes[0];
    let stop = stop_of_literal(quote, &bytes[1..]);
    if byte_at(bytes, 1 + stop) != quote {
        return wrong_form(TextFault::Named(Construct::Unterminated), 0, bytes);
    }
    let inside = &bytes[1..1 + stop];
    match fault_inside(quote, inside) {
        Some((fault, at)) => wrong_form(fault, at, bytes),
        None => plain_form(kind_inside(quote, inside), stop + 2),
    }
}

#[tactic(auto, unfolding(dae_tree::specs::Forms::comment_form))]
fn comment_at(bytes: &[u8]) -> Lexeme
    requires { 2 ≤ length bytes.now }
    ensures value { result ≡ comment_form bytes.now }
    ensures within { IsWithin result bytes.now }
{
    let close = comment_close(&bytes[2..]);
    if bytes.len() <= 2 + close {
        return wrong_comment_form(TextFault::Named(Construct::Unterminated), 0, bytes);
    }
    let at = nowhere_place(&bytes[..close + 4]);
    if at < close + 4 {
        return wrong_comment_form(TextFault::BadByte, at, bytes);
    }
    plain_form(PieceKind::Blank, close + 4)
}

#[tactic(auto, unfolding(dae_tree::specs::Forms::line_comment_form))]
fn line_comment_at(bytes: &[u8]) -> Lexeme
    requires { 0 < place_of ends_line bytes.now }
    ensures value { result ≡ line_comment_form bytes.now }
    ensures within { IsWithin result bytes.now }
{
    let end = line_end_place(bytes);
    let at = nowhere_place(&bytes[..end]);
    if at < end {
        return wrong_comment_form(TextFault::BadByte, at, bytes);
    }
    plain_form(PieceKind::Blank, end)
}

#[tactic(auto, unfolding(dae_tree::specs::Forms::sign_form))]
fn sign_or_fault(bytes: &[u8]) -> Lexeme
    requires { 0 < length bytes.now }
    ensures value { result ≡ sign_form bytes.now }
    ensures within { IsWithin result bytes.now }
{
    match sign_at(bytes) {
        Some((length, kind)) => plain_form(kind, length),
        None => wrong_form(TextFault::BadByte, 0, bytes),
    }
}

/// What stands at the front of the bytes: its kind and length, at least one byte. A fault takes all the bytes, and says
/// how far on it stands.
#[tactic(auto, unfolding(dae_tree::specs::Forms::form))]
pub fn form_at(bytes: &[u8]) -> Lexeme
    requires { 0 < length bytes.now }
    ensures value { result ≡ form bytes.now }
    ensures within { IsWithin result bytes.now }
{
    let a = byte_at(bytes, 0);
    let b = byte_at(bytes, 1);
    if a == b'\n' {
        plain_form(PieceKind::LineEnd, 1)
    } else if is_blank_byte(a) {
        plain_form(PieceKind::Blank, 1)
    } else if is_letter_byte(a) {
        word_at(bytes)
    } else if a.is_ascii_digit() || (a == b'.' && b.is_ascii_digit()) {
        number_at(bytes)
    } else if a == b'"' || a == b'\'' {
        literal_at(bytes)
    } else if a == b'/' && b == b'*' {
        comment_at(bytes)
    } else if a == b'/' && b == b'/' {
        line_comment_at(bytes)
    } else if begins_trigraph(bytes) {
        wrong_form(TextFault::Named(Construct::Trigraph), 0, bytes)
    } else {
        sign_or_fault(bytes)
    }
}
