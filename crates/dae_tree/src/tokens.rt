// The tokens of a text, with their places, names and literals.

ghost use Rattle.std.specs.Prelude.{◌≡◌, ◌<◌, length, IfSome, slice_get, slice_range};

use crate::constants::Constant;
use crate::signs::Sign;
use crate::words::Keyword;
use dae_base::{Items, Place};
use std::marker::Model;

/// What a token is. A name and a literal are numbers into the lists of the text's names and literals.
#[derive(Clone, Copy, PartialEq, Eq)]
pub enum TokenKind {
    Keyword(Keyword),
    Sign(Sign),
    Name(u32),
    Constant(Constant),
    Literal(u32),
}

/// A token: what it is, the offsets in the text where it starts and ends, and its place. A token that a macro made has
/// those of the name in the text that was replaced.
#[derive(Clone, Copy, PartialEq, Eq)]
pub struct Token {
    pub kind: TokenKind,
    pub start: u32,
    pub end: u32,
    pub place: Place,
}

/// What is left of the limits on all texts of a job: tokens before literals join, replacements of macros, and bytes of
/// string literals.
#[derive(Clone, Copy, PartialEq, Eq)]
pub struct Room {
    pub tokens: u32,
    pub replacements: u32,
    pub literal_bytes: u32,
}

/// The tokens of a text, with the bytes of the names and literals that they number, and the headers that the text
/// includes. Clauses see a `Reading`. Each token's span lies within the text, and its number within its list, in which no
/// name stands twice.
#[derive(Drop)]
pub struct Tokens<'t> {
    text: &'t [u8],
    tokens: Items<Token>,
    names: Items<Items<u8>>,
    literals: Items<Items<u8>>,
    includes: Includes,
    end: Place,
}

impl<'t> Model for Tokens<'t> {
    ghost use Rattle.dae_tree.specs.Reading.{Reading, IsReading};

    ghost Value = { Reading };

    ghost view = { λ t. record {
      text = t.text.now;
      tokens = t.tokens;
      names = t.names;
      literals = t.literals;
      stdio = t.includes.stdio;
      stdlib = t.includes.stdlib;
      end = t.end;
    } };

    ghost invariant = { λ t. IsReading (record {
      text = t.text.now;
      tokens = t.tokens;
      names = t.names;
      literals = t.literals;
      stdio = t.includes.stdio;
      stdlib = t.includes.stdlib;
      end = t.end;
    }) };
}

impl<'t> Tokens<'t> {
    ghost use Rattle.dae_tree.specs.Reading.{Reading, IsReading};

    /// The tokens of a text, from their parts.
    pub fn new(
        text: &'t [u8],
        tokens: Items<Token>,
        names: Items<Items<u8>>,
        literals: Items<Items<u8>>,
        includes: Includes,
        end: Place,
    ) -> Tokens<'t>
        requires { IsReading
            (record {
              text = text.now;
              tokens = tokens;
              names = names;
              literals = literals;
              stdio = includes.stdio;
              stdlib = includes.stdlib;
              end = end;
            }) }
        ensures { result
            ≡ record {
              text = text.entry.now;
              tokens = tokens;
              names = names;
              literals = literals;
              stdio = includes.stdio;
              stdlib = includes.stdlib;
              end = end;
            } }
    {
        Tokens {
            text,
            tokens,
            names,
            literals,
            includes,
            end,
        }
    }

    /// The text.
    pub fn text(&self) -> &'t [u8]
        ensures { result.now ≡ self.now.text }
    {
        self.text
    }

    /// The tokens, in order.
    pub fn tokens(&self) -> &[Token]
        ensures value { result.now ≡ self.now.tokens }
        ensures reading { IsReading self.now }
    {
        self.tokens.as_slice()
    }

    /// The bytes of each name, in the order of their numbers. No name stands twice.
    pub fn names(&self) -> &[Items<u8>]
        ensures { result.now ≡ self.now.names }
    {
        self.names.as_slice()
    }

    /// The bytes of each literal, in the order of their numbers, without the zero byte at its end.
    pub fn literals(&self) -> &[Items<u8>]
        ensures { result.now ≡ self.now.literals }
    {
        self.literals.as_slice()
    }

    /// The headers that the text includes.
    pub fn headers(&self) -> Includes
        ensures stdio { result.stdio ≡ self.now.stdio }
        ensures stdlib { result.stdlib ≡ self.now.stdlib }
    {
        self.includes
    }

    /// The place where the text ends.
    pub fn end(&self) -> Place
        ensures { result ≡ self.now.end }
    {
        self.end
    }

    /// The bytes of the text from a token's start to its end, with the joins of lines in them.
    pub fn spelling(&self, at: usize) -> &'t [u8]
        requires { at < length self.now.tokens }
        ensures { IfSome (slice_get self.now.tokens at)
            (λ t. result.now ≡ slice_range self.now.text t.start t.end) }
    {
        let token = self.tokens.as_slice()[at];
        &self.text[token.start as usize..token.end as usize]
    }
}

/// Which headers a text includes.
#[derive(Clone, Copy, PartialEq, Eq)]
pub struct Includes {
    pub stdio: bool,
    pub stdlib: bool,
}
