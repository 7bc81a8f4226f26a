// A line of at most 40 bytes, and the texts of its parts.
ghost use Rattle.std.specs.Prelude.{◌≡◌, ◌+◌, ◌%◌, ◌<◌, ◌≤◌, ◌++◌, false, [], length};
ghost use Rattle.std.specs.Fmt.{digit_glyph};
ghost use Rattle.dae_trace.specs.Lines.{side_text, word_text};

use dae_base::Side;
use std::marker::Model;

/// At most 40 bytes, beside how many there are. Clauses see them as a list.
#[derive(Drop)]
pub struct TraceLine {
    bytes: [u8; 40],
    len: u8,
}

impl Model for TraceLine {
    ghost use Rattle.std.specs.Prelude.{ℕ, ◌≤◌, List, take};

    ghost Value = { List ℕ };

    ghost view = { λ t. take t.len t.bytes };

    ghost invariant = { λ t. t.len ≤ 40 };
}

impl TraceLine {
    /// The empty line.
    pub fn empty() -> TraceLine
        ensures { result ≡ [] }
    {
        TraceLine {
            bytes: [0; 40],
            len: 0,
        }
    }

    /// The bytes.
    pub fn as_bytes(&self) -> &[u8]
        ensures same { result.now ≡ self.now }
        ensures short { length result.now ≤ 40 }
    {
        &self.bytes[..self.len as usize]
    }

    /// Appends a text.
    pub fn push(&mut self, text: &[u8])
        requires { length self.old + length text.now ≤ 40 }
        ensures { self.new ≡ self.old ++ text.now }
    {
        let start = self.len as usize;
        let end = start + text.len();
        self.bytes[start..end].copy_from_slice(text);
        self.len = end as u8;
    }

    /// Appends a word as eight hexadecimal digits.
    #[tactic(auto, unfolding(crate::specs::Lines::word_text))]
    pub fn push_word(&mut self, word: u32)
        requires { length self.old + 8 ≤ 40 }
        ensures text { self.new ≡ self.old ++ word_text word }
        ensures longer { length self.new ≡ length self.old + 8 }
    {
        let one = word / 16;
        let two = one / 16;
        let three = two / 16;
        let four = three / 16;
        let five = four / 16;
        let six = five / 16;
        let seven = six / 16;
        let high = [digit(seven), digit(six), digit(five), digit(four)];
        let low = [digit(three), digit(two), digit(one), digit(word)];
        self.push(&high);
        self.push(&low);
    }
}

// The last hexadecimal digit of a number.
fn digit(number: u32) -> u8
    ensures { result ≡ digit_glyph false (number % 16) }
{
    hex_digit(number % 16)
}

fn hex_digit(digit: u32) -> u8
    requires { digit < 16 }
    ensures { result ≡ digit_glyph false digit }
{
    if digit < 10 {
        b'0' + digit as u8
    } else {
        b'a' + (digit as u8 - 10)
    }
}

/// The letter of a side.
pub fn side_text(side: Side) -> &'static str
    ensures text { result.now ≡ side_text side }
    ensures short { length result.now ≤ 1 }
{
    match side {
        Side::A => "A",
        Side::E => "E",
    }
}
