// The pick that a line names.
ghost use Rattle.std.specs.Prelude.{◌≡◌, ◌≢◌, ◌<◌, ◌^◌, ◌++◌, ℕ, codes, decimal, MatchBool, MatchOption};
ghost use Rattle.dae_machine.specs.declared.Pick.{Pick};
ghost use Rattle.dae_trace.specs.Lines.{Names, word_text};
ghost use Rattle.dae_trace.specs.Parts.{IsDrained, IsFilling, IsHex, IsWidth};

use dae_base::Side;
use dae_machine::Pick;
use itoa::Buffer;

/// The pick that a trace line names, or None where the bytes spell no trace line.
pub fn read_line(bytes: &[u8]) -> Option<Pick>
    ensures { MatchOption result ((pick : Pick) → ¬ (Names bytes.now pick)) (Names bytes.now) }
{
    if let Some(word) = bytes.strip_prefix(b"A ") {
        return is_word_line(word).then_some(Pick::A);
    }
    if let Some(word) = bytes.strip_prefix(b"E ") {
        return is_word_line(word).then_some(Pick::E);
    }
    if let Some(filling) = bytes.strip_prefix(b"F A ") {
        return read_fill(Side::A, filling);
    }
    if let Some(filling) = bytes.strip_prefix(b"F E ") {
        return read_fill(Side::E, filling);
    }
    if let Some(drained) = bytes.strip_prefix(b"D ") {
        return is_drained(drained).then_some(Pick::Drain);
    }
    None
}

// A fill for a side, by what stands behind the side.
fn read_fill(side: Side, filling: &[u8]) -> Option<Pick>
    ensures { MatchOption result ((n : ℕ) → ¬ (IsFilling filling.now n))
        (λ pick. (n : ℕ) × (pick ≡ Pick.Fill side n) × IsFilling filling.now n) }
{
    if filling.len() < 10 {
        return None;
    }
    let (digits, behind) = filling.split_at(filling.len() - 10);
    if !is_blank_word_line(behind) {
        return None;
    }
    match slot_number(digits) {
        Some(number) => Some(Pick::Fill(side, number)),
        None => None,
    }
}

// The number that decimal digits spell, below 2^40, or None where they spell none as numbers are written.
fn slot_number(digits: &[u8]) -> Option<u64>
    ensures { MatchOption result ((n : ℕ) → n < 2 ^ 40 → digits.now ≢ decimal n)
        (λ n. (n < 2 ^ 40) × (digits.now ≡ decimal n)) }
{
    let Ok(text) = std::str::from_utf8(digits) else {
        return None;
    };
    let Ok(number) = text.parse::<u64>() else {
        return None;
    };
    if number >= 1_099_511_627_776 || Buffer::new().format(number) != text {
        return None;
    }
    Some(number)
}

// An address, a width and a datum with its line feed.
fn is_drained(bytes: &[u8]) -> bool
    ensures { MatchBool result (IsDrained bytes.now) (¬ (IsDrained bytes.now)) }
{
    if bytes.len() != 20 {
        return false;
    }
    let (address, behind) = bytes.split_at(8);
    let (width, datum) = behind.split_at(3);
    if !is_word(address) {
        return false;
    }
    if !is_width(width) {
        return false;
    }
    is_word_line(datum)
}

// A width between its blanks.
fn is_width(bytes: &[u8]) -> bool
    ensures { MatchBool result (IsWidth bytes.now) (¬ (IsWidth bytes.now)) }
{
    bytes == b" 1 ".as_slice() || bytes == b" 2 ".as_slice() || bytes == b" 4 ".as_slice()
}

// A blank and a word with its line feed.
fn is_blank_word_line(bytes: &[u8]) -> bool
    ensures { MatchBool result ((w : ℕ) × (bytes.now ≡ codes " " ++ (word_text w ++ codes "\n")))
        ((w : ℕ) → bytes.now ≢ codes " " ++ (word_text w ++ codes "\n")) }
{
    match bytes.strip_prefix(b" ") {
        Some(word) => is_word_line(word),
        None => false,
    }
}

// A word with its line feed.
fn is_word_line(bytes: &[u8]) -> bool
    ensures { MatchBool result ((w : ℕ) × (bytes.now ≡ word_text w ++ codes "\n"))
        ((w : ℕ) → bytes.now ≢ word_text w ++ codes "\n") }
{
    match bytes.strip_suffix(b"\n") {
        Some(word) => is_word(word),
        None => false,
    }
}

// Eight hexadecimal digits.
fn is_word(bytes: &[u8]) -> bool
    ensures { MatchBool result ((w : ℕ) × (bytes.now ≡ word_text w))
        ((w : ℕ) → bytes.now ≢ word_text w) }
{
    if bytes.len() != 8 {
        return false;
    }
    for byte in bytes {
        if !is_hex_digit(*byte) {
            return false;
        }
    }
    true
}

// A lower-case hexadecimal digit.
fn is_hex_digit(byte: u8) -> bool
    ensures { MatchBool result (IsHex byte) (¬ (IsHex byte)) }
{
    matches!(byte, b'0'..=b'9' | b'a'..=b'f')
}
