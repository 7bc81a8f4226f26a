//! The tokens of a line: signs, and the words between signs and blanks.

ghost use Rattle.std.specs.Prelude.{◌≡◌, ◌<◌, ◌≤◌, ◌^◌, ◌-◌, min, true, length};
ghost use Rattle.std.specs.List.{list_all, prefix_len};
ghost use Rattle.std.specs.Char.{is_ascii_digit};
ghost use Rattle.std.specs.Str.Parse.{digits_value};
ghost use Rattle.dae_asm_lines.specs.Tokens.{tokens_of, is_blank, is_sign, is_letter, is_letter_or_digit, is_label, is_name, are_digits, size_of, number_of, token_of};
ghost use Rattle.dae_asm_lines.specs.Scanning.{Gives, scanned, first_token, is_word_byte, BeginsNoBlank};

/// What stands first in a line.
#[derive(Clone, Copy)]
pub enum Scanned<'t> {
    /// A word of letters, digits and `_` that begins with no digit, maybe behind a point.
    Word(&'t [u8]),
    /// A decimal number.
    Number(i64),
    /// A comma, a parenthesis or a colon.
    Sign(u8),
    /// A word that is neither a name nor a number.
    Other,
}

/// From here on a number counts as this one, which is past each range.
const LARGE: u64 = 1_000_000_000_000;

#[tactic(auto, unfolding(crate::specs::Tokens::is_blank))]
fn is_blank(byte: u8) -> bool
    ensures { result ≡ is_blank byte }
{
    byte == b' ' || byte == b'\t'
}

#[tactic(auto, unfolding(crate::specs::Tokens::is_sign))]
fn is_sign(byte: u8) -> bool
    ensures { result ≡ is_sign byte }
{
    byte == b',' || byte == b'(' || byte == b')' || byte == b':'
}

fn is_letter(byte: u8) -> bool
    ensures { result ≡ is_letter byte }
{
    byte.is_ascii_alphabetic() || byte == b'_'
}

fn is_letter_or_digit(byte: u8) -> bool
    ensures { result ≡ is_letter_or_digit byte }
{
    is_letter(byte) || byte.is_ascii_digit()
}

fn are_letters_or_digits(word: &[u8]) -> bool
    ensures { result ≡ list_all is_letter_or_digit word.now }
{
    let mut rest = word;
    while let [first, after @ ..] = rest {
        if !is_letter_or_digit(*first) {
            return false;
        }
        rest = after;
    }
    true
}

/// Whether a word is a label: a letter or `_`, and then letters, digits and `_`.
pub fn is_label(word: &[u8]) -> bool
    ensures { result ≡ is_label word.now }
{
    match word {
        [] => false,
        [first, rest @ ..] => is_letter(*first) && are_letters_or_digits(rest),
    }
}

fn is_name(word: &[u8]) -> bool
    ensures { result ≡ is_name word.now }
{
    match word {
        [b'.', rest @ ..] => is_label(rest),
        _ => is_label(word),
    }
}

fn are_all_digits(word: &[u8]) -> bool
    ensures { result ≡ list_all is_ascii_digit word.now }
{
    let mut rest = word;
    while let [first, after @ ..] = rest {
        if !first.is_ascii_digit() {
            return false;
        }
        rest = after;
    }
    true
}

fn are_digits(word: &[u8]) -> bool
    ensures { result ≡ are_digits word.now }
{
    match word {
        [] => false,
        [first, rest @ ..] => (*first != b'0' || rest.is_empty()) && are_all_digits(word),
    }
}

fn value(digits: &[u8]) -> u64
    requires { list_all is_ascii_digit digits.now ≡ true }
    ensures { result ≡ min (digits_value 10 digits.now) (10 ^ 12) }
{
    let mut value = 0;
    for digit in digits {
        value = (value * 10 + u64::from(*digit - b'0')).min(LARGE);
    }
    value
}

/// The number that decimal digits without a leading zero spell, or None where they are no such
/// digits.
pub fn size_of(digits: &[u8]) -> Option<u64>
    ensures { result ≡ size_of digits.now }
{
    if are_digits(digits) {
        Some(value(digits))
    } else {
        None
    }
}

fn number_of(word: &[u8]) -> Option<i64>
    ensures { result ≡ number_of word.now }
{
    match word {
        [b'-', digits @ ..] => {
            let size = size_of(digits)?;
            Some(-(size as i64))
        }
        _ => {
            let size = size_of(word)?;
            Some(size as i64)
        }
    }
}

fn token_of(word: &[u8]) -> Scanned<'_>
    ensures { scanned result ≡ token_of word.now }
{
    if is_name(word) {
        return Scanned::Word(word);
    }
    match number_of(word) {
        Some(number) => Scanned::Number(number),
        None => Scanned::Other,
    }
}

#[tactic(auto, unfolding(crate::specs::Tokens::tokens_of))]
fn after_blanks(line: &[u8]) -> &[u8]
    ensures same { tokens_of result.now ≡ tokens_of line.now }
    ensures begins { BeginsNoBlank result.now }
{
    let mut rest = line;
    while let [first, after @ ..] = rest {
        if !is_blank(*first) {
            return rest;
        }
        rest = after;
    }
    rest
}

/// How many bytes of a line stand before its first blank or sign.
fn word_length(line: &[u8]) -> usize
    ensures counted { result ≡ prefix_len is_word_byte line.now }
    ensures within { result ≤ length line.now }
{
    let mut rest = line;
    while let [first, after @ ..] = rest {
        if is_blank(*first) || is_sign(*first) {
            return line.len() - rest.len();
        }
        rest = after;
    }
    line.len()
}

/// The first token of a line and what follows it, or None where there is none.
#[tactic(auto, using(crate::proofs::Words::no_token, crate::proofs::Words::sign_first, crate::proofs::Words::word_first))]
pub fn next_token(line: &[u8]) -> Option<(Scanned<'_>, &[u8])>
    ensures { Gives (λ x. (scanned x.0, tokens_of x.1.now)) result
        (first_token (tokens_of line.now)) }
{
    let rest = after_blanks(line);
    let [first, after @ ..] = rest else {
        return None;
    };
    if is_sign(*first) {
        return Some((Scanned::Sign(*first), after));
    }
    let (word, behind) = rest.split_at(1 + word_length(after));
    Some((token_of(word), behind))
}
