//! Look-ups in the tables of signs, keywords, headers and suffixes.

ghost use Rattle.std.specs.Prelude.{◌≡◌, ◌≤◌, ◌<◌, Some, length, map, IfSome};
ghost use Rattle.dae_tree.specs.declared.signs.TheConstants.{SIGNS};
ghost use Rattle.dae_tree.specs.Tables.{first_row, row_of, rows_of, IsLongestRow, sign_of, keyword_of, refused_word, header_of, suffix_of};
ghost use Rattle.dae_lex_scan.specs.Lone.{lone_sign, spaced_sign};

use crate::bytes::byte_at;
use dae_tree::{
    Construct, HEADERS, Header, KEYWORDS, Keyword, PieceKind, REFUSED_WORDS, SIGNS, SUFFIXES, Sign,
};

/// The first row whose spelling begins the bytes: the spelling's length, and what it spells.
fn find_row<T: Copy>(rows: &[(&[u8], T)], bytes: &[u8]) -> Option<(usize, T)>
    ensures value { result ≡ first_row (rows_of rows.now) bytes.now }
    ensures within { IfSome result (λ found. found.0 ≤ length bytes.now) }
{
    for (spelling, what) in rows {
        if bytes.starts_with(spelling) {
            return Some((spelling.len(), *what));
        }
    }
    None
}

/// What the row with this spelling says.
fn exact_row<T: Copy>(rows: &[(&[u8], T)], name: &[u8]) -> Option<T>
    ensures { result ≡ row_of (rows_of rows.now) name.now }
{
    for (spelling, what) in rows {
        if name == *spelling {
            return Some(*what);
        }
    }
    None
}

/// The sign that a byte is, where no longer sign begins with it.
fn lone_sign(byte: u8) -> Option<Sign>
    ensures { result ≡ lone_sign byte }
{
    match byte {
        b',' => Some(Sign::Comma),
        b';' => Some(Sign::Semicolon),
        b'(' => Some(Sign::LeftParen),
        b')' => Some(Sign::RightParen),
        b'[' => Some(Sign::LeftBracket),
        b']' => Some(Sign::RightBracket),
        b'{' => Some(Sign::LeftBrace),
        b'}' => Some(Sign::RightBrace),
        b'~' => Some(Sign::Tilde),
        b'?' => Some(Sign::Question),
        b':' => Some(Sign::Colon),
        _ => None,
    }
}

/// The sign at the front where its first byte alone tells it, and its length.
fn lone_sign_at(bytes: &[u8]) -> Option<(usize, PieceKind)>
    ensures value { IfSome result (λ found. Some found ≡ sign_of bytes.now) }
    ensures within { IfSome result (λ found. (0 < found.0) × (found.0 ≤ length bytes.now)) }
    ensures longest { IfSome result
        (λ found. IsLongestRow (map (λ r. (r.0.now, r.1)) SIGNS) bytes.now found.0) }
{
    match lone_sign(byte_at(bytes, 0)) {
        Some(sign) => Some((1, PieceKind::Mark(sign))),
        None => None,
    }
}

/// The sign that a byte is, where a blank stands behind it.
fn spaced_sign(byte: u8) -> Option<Sign>
    ensures { result ≡ spaced_sign byte }
{
    match byte {
        b'=' => Some(Sign::Assign),
        b'+' => Some(Sign::Plus),
        b'-' => Some(Sign::Minus),
        b'*' => Some(Sign::Times),
        b'/' => Some(Sign::Divide),
        b'%' => Some(Sign::Remainder),
        b'<' => Some(Sign::Less),
        b'>' => Some(Sign::Greater),
        b'&' => Some(Sign::And),
        b'|' => Some(Sign::Or),
        b'^' => Some(Sign::Xor),
        _ => None,
    }
}

/// The sign at the front where a blank behind its first byte ends it, and its length.
fn spaced_sign_at(bytes: &[u8]) -> Option<(usize, PieceKind)>
    ensures value { IfSome result (λ found. Some found ≡ sign_of bytes.now) }
    ensures within { IfSome result (λ found. (0 < found.0) × (found.0 ≤ length bytes.now)) }
    ensures longest { IfSome result
        (λ found. IsLongestRow (map (λ r. (r.0.now, r.1)) SIGNS) bytes.now found.0) }
{
    let behind = byte_at(bytes, 1);
    if behind != b' ' {
        return None;
    }
    match spaced_sign(byte_at(bytes, 0)) {
        Some(sign) => Some((1, PieceKind::Mark(sign))),
        None => None,
    }
}

/// The longest sign at the front, and its length, by a walk through the table.
#[tactic(auto, unfolding(dae_tree::specs::Tables::sign_of))]
fn sign_in_table(bytes: &[u8]) -> Option<(usize, PieceKind)>
    ensures value { result ≡ sign_of bytes.now }
    ensures within { IfSome result (λ found. (0 < found.0) × (found.0 ≤ length bytes.now)) }
    ensures longest { IfSome result
        (λ found. IsLongestRow (map (λ r. (r.0.now, r.1)) SIGNS) bytes.now found.0) }
{
    find_row(&SIGNS, bytes)
}

/// The longest sign at the front of bytes that no lone sign begins, and its length.
fn longer_sign_at(bytes: &[u8]) -> Option<(usize, PieceKind)>
    ensures value { result ≡ sign_of bytes.now }
    ensures within { IfSome result (λ found. (0 < found.0) × (found.0 ≤ length bytes.now)) }
    ensures longest { IfSome result
        (λ found. IsLongestRow (map (λ r. (r.0.now, r.1)) SIGNS) bytes.now found.0) }
{
    match spaced_sign_at(bytes) {
        Some(found) => Some(found),
        None => sign_in_table(bytes),
    }
}

/// The longest sign at the front, and its length.
pub fn sign_at(bytes: &[u8]) -> Option<(usize, PieceKind)>
    ensures value { result ≡ sign_of bytes.now }
    ensures within { IfSome result (λ found. (0 < found.0) × (found.0 ≤ length bytes.now)) }
    ensures longest { IfSome result
        (λ found. IsLongestRow (map (λ r. (r.0.now, r.1)) SIGNS) bytes.now found.0) }
{
    match lone_sign_at(bytes) {
        Some(found) => Some(found),
        None => longer_sign_at(bytes),
    }
}

/// The keyword that is spelled so.
#[tactic(auto, unfolding(dae_tree::specs::Tables::keyword_of))]
pub fn find_keyword(word: &[u8]) -> Option<Keyword>
    ensures { result ≡ keyword_of word.now }
{
    exact_row(&KEYWORDS, word)
}

/// By what name a word is refused.
#[tactic(auto, unfolding(dae_tree::specs::Tables::refused_word))]
pub fn find_refused_word(word: &[u8]) -> Option<Construct>
    ensures { result ≡ refused_word word.now }
{
    exact_row(&REFUSED_WORDS, word)
}

/// The header with this name.
#[tactic(auto, unfolding(dae_tree::specs::Tables::header_of))]
pub fn find_header(name: &[u8]) -> Option<Header>
    ensures { result ≡ header_of name.now }
{
    exact_row(&HEADERS, name)
}

/// Whether a suffix makes a constant unsigned, and None for what is no suffix.
#[tactic(auto, unfolding(dae_tree::specs::Tables::suffix_of))]
pub fn find_suffix(suffix: &[u8]) -> Option<bool>
    ensures { result ≡ suffix_of suffix.now }
{
    exact_row(&SUFFIXES, suffix)
}
