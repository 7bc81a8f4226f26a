//! A text item by item.

ghost use Rattle.std.specs.Prelude.{◌≡◌, ◌+◌, ◌<◌, ◌≤◌, ◌∷◌, length};
ghost use Rattle.std.specs.List.{prefix_len};
ghost use Rattle.dae_asm_order.specs.Sheets.{lines_of};
ghost use Rattle.dae_asm_order.specs.Walking.{IsNext, is_inner};

use dae_asm_lines::{Line, LineItem, line_of};

/// The part of a text from a line on, and how many lines stand before it.
#[derive(Clone, Copy)]
pub struct Lines<'t> {
    pub text: &'t [u8],
    pub before: u32,
}

/// What comes next in a text behind lines without tokens.
#[derive(Clone, Copy)]
pub enum Next<'t> {
    /// An item, the number of its line, and the lines that follow.
    Item(LineItem<'t>, u32, Lines<'t>),
    /// A line that spells no item.
    Bad(u32),
    /// Nothing: the text has so many lines.
    End(u32),
}

/// How many bytes of a text stand before its first line feed.
fn line_length(text: &[u8]) -> usize
    ensures counted { result ≡ prefix_len is_inner text.now }
    ensures within { result ≤ length text.now }
{
    let mut rest = text;
    while let [first, after @ ..] = rest {
        if *first == b'\n' {
            return text.len() - rest.len();
        }
        rest = after;
    }
    text.len()
}

/// The first line without its line feed, and what follows it.
fn split_line(text: &[u8]) -> (&[u8], &[u8])
    requires { 0 < length text.now }
    ensures parts { lines_of text.now ≡ result.0.now ∷ lines_of result.1.now }
    ensures shorter { length result.1.now < length text.now }
{
    let (line, rest) = text.split_at(line_length(text));
    match rest {
        [] => (line, rest),
        [_, after @ ..] => (line, after),
    }
}

impl<'t> Lines<'t> {
    /// All lines of a text.
    pub fn of(text: &'t [u8]) -> Lines<'t>
        ensures text { result.text.now ≡ text.entry.now }
        ensures before { result.before ≡ 0 }
    {
        Lines { text, before: 0 }
    }

    /// What comes next.
    pub fn next(self) -> Next<'t>
        requires { self.before + length self.text.now ≤ 134217728 }
        ensures { IsNext self.entry result }
    {
        let mut text = self.text;
        let mut line = self.before;
        while !text.is_empty() {
            let (first, rest) = split_line(text);
            line += 1;
            match line_of(first) {
                Line::Empty => text = rest,
                Line::Says(item) => {
                    let after = Lines {
                        text: rest,
                        before: line,
                    };
                    return Next::Item(item, line, after);
                }
                Line::Bad => return Next::Bad(line),
            }
        }
        Next::End(line)
    }
}
