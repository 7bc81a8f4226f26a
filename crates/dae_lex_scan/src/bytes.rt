//! Tests on bytes, and bytes past the end.

ghost use Rattle.std.specs.Prelude.{◌≡◌, drop, slice_index};
ghost use Rattle.dae_tree.specs.Literals.{is_nowhere, is_trigraph};
ghost use Rattle.dae_tree.specs.Forms.{is_letter, is_word, is_blank};

pub fn is_letter_byte(b: u8) -> bool
    ensures { result ≡ is_letter b }
{
    b.is_ascii_alphabetic() || b == b'_'
}

pub fn is_word_byte(b: u8) -> bool
    ensures { result ≡ is_word b }
{
    is_letter_byte(b) || b.is_ascii_digit()
}

pub fn is_blank_byte(b: u8) -> bool
    ensures { result ≡ is_blank b }
{
    b == b' ' || b == b'\t' || b == 11 || b == 12 || b == b'\r'
}

/// Whether a byte may not stand anywhere in a text.
pub fn is_nowhere_byte(b: u8) -> bool
    ensures { result ≡ is_nowhere b }
{
    (b < 32 && !(b == b'\t' || b == b'\n' || b == 11 || b == 12 || b == b'\r')) || b == 127
}

/// The byte at a place, and 0 past the end.
pub fn byte_at(bytes: &[u8], i: usize) -> u8
    ensures { result ≡ slice_index bytes.now i }
{
    if i < bytes.len() { bytes[i] } else { 0 }
}

/// The bytes from a place on, and none past the end.
pub fn bytes_from(bytes: &[u8], i: usize) -> &[u8]
    ensures { result.now ≡ drop i bytes.now }
{
    if i < bytes.len() { &bytes[i..] } else { &[] }
}

/// Whether a trigraph stands at the front.
pub fn begins_trigraph(bytes: &[u8]) -> bool
    ensures { result ≡ is_trigraph bytes.now }
{
    if bytes.len() < 3 {
        return false;
    }
    let c = bytes[2];
    bytes[0] == b'?'
        && bytes[1] == b'?'
        && (c == b'='
            || c == b'/'
            || c == b'\''
            || c == b'('
            || c == b')'
            || c == b'!'
            || c == b'<'
            || c == b'>'
            || c == b'-')
}
