//! Tokens at the end: adjacent literals joined, names and literals numbered.

ghost use Rattle.std.specs.Prelude.{◌≡◌, ◌≤◌, ◌<◌, ◌+◌, ◌-◌, ◌^◌, ◌++◌, ℕ, [], ◌∷◌, List, None, length, map, IfOk, OnOk, IfErr, All};
ghost use Rattle.std.specs.List.{position_or_len};
ghost use Rattle.std.specs.Str.{bytes_eq};
ghost use Rattle.dae_tree.specs.Replacing.{TokenRead, name as Name};
ghost use Rattle.dae_tree.specs.Tokens.{literal_of, names_with, kind_of, before, joined_literals};
ghost use Rattle.dae_tree.specs.declared.faults.LexError.TheVariants.{Memory};
ghost use Rattle.dae_lex.specs.Numbers.{IsName};
ghost use Rattle.dae_lex.specs.Settling.{IsMeant, meaning_of, read_of};
ghost use Rattle.dae_lex.specs.Finishing.{AreNamed, names_in, built_of, read_literal, longer_of, waiting, finished, added, closed};
ghost use Rattle.dae_lex.specs.declared.numbers.WordNumbers.{WordNumbers as Numbers_};

use crate::numbers::{WordNumbers, push_bytes};
use crate::output::{Meaning, ReadToken, literal_bytes};
use dae_base::{Items, Place};
use dae_tree::{LexError, Token, TokenKind};
use indexmap::IndexMap;
use std::alloc::Global;

/// The tokens so far, with the names and literals that they number. A name is kept by its number among the words.
#[derive(Drop)]
pub struct Builder<'j> {
    pub tokens: Vec<Token>,
    pub names: IndexMap<usize, &'j [u8]>,
    pub literals: Vec<Items<u8>>,
}

/// A string literal that the next token may go on.
#[derive(Drop)]
pub struct OpenLiteral {
    pub bytes: Vec<u8>,
    pub start: u32,
    pub end: u32,
    pub place: Place,
}

/// The number of a name: its place in the list of names, to whose end a new one goes.
fn name_number<'j>(
    names: &mut IndexMap<usize, &'j [u8]>,
    number: usize,
    name: &'j [u8],
) -> Result<u32, LexError>
    requires { length names.old.entries < 2 ^ 32 - 1 }
    ensures number { (w : Numbers_) → AreNamed w names.old.entries → IsName w number name.now →
        IfOk result (λ n. n ≡ position_or_len (bytes_eq name.now) (names_in names.old.entries)) }
    ensures names { (w : Numbers_) → AreNamed w names.old.entries → IsName w number name.now →
        OnOk result (names_in names.new.entries
        ≡ names_with (names_in names.old.entries) (Name name.now)) }
    ensures named { (w : Numbers_) → AreNamed w names.old.entries → IsName w number name.now →
        OnOk result (AreNamed w names.new.entries) }
    ensures fits { OnOk result (length names.new.entries ≤ length names.old.entries + 1) }
    ensures err { IfErr result (λ e. e ≡ Memory) }
{
    match names.insert_full(number, name) {
        Ok((index, _)) => Ok(index as u32),
        Err(_) => Err(LexError::Memory),
    }
}

/// What a token is that is no literal.
fn plain_kind<'j>(
    names: &mut IndexMap<usize, &'j [u8]>,
    meaning: Meaning<'j>,
) -> Result<TokenKind, LexError>
    requires plain { literal_of (meaning_of meaning) ≡ None }
    requires room { length names.old.entries < 2 ^ 32 - 1 }
    ensures kind { (w : Numbers_) → AreNamed w names.old.entries → IsMeant w meaning.entry →
        IfOk result (λ k. (literals : List (List ℕ))
        → k ≡ kind_of (names_in names.old.entries) literals (meaning_of meaning.entry)) }
    ensures names { (w : Numbers_) → AreNamed w names.old.entries → IsMeant w meaning.entry →
        OnOk result (names_in names.new.entries
        ≡ names_with (names_in names.old.entries) (meaning_of meaning.entry)) }
    ensures named { (w : Numbers_) → AreNamed w names.old.entries → IsMeant w meaning.entry →
        OnOk result (AreNamed w names.new.entries) }
    ensures fits { OnOk result (length names.new.entries ≤ length names.old.entries + 1) }
    ensures err { IfErr result (λ e. e ≡ Memory) }
{
    match meaning {
        Meaning::Keyword(keyword) => Ok(TokenKind::Keyword(keyword)),
        Meaning::Sign(sign) => Ok(TokenKind::Sign(sign)),
        Meaning::Name(number, name) => {
            let number = name_number(names, number, name)?;
            Ok(TokenKind::Name(number))
        }
        Meaning::Constant(constant) => Ok(TokenKind::Constant(constant)),
        Meaning::Literal(_, _) => unreachable!(),
    }
}

fn push_token(tokens: &mut Vec<Token>, token: Token) -> Result<(), LexError>
    ensures ok { OnOk result (tokens.new.items ≡ tokens.old.items ++ token ∷ []) }
    ensures err { IfErr result (λ e. e ≡ Memory) }
{
    match tokens.push(token) {
        Ok(()) => Ok(()),
        Err(_) => Err(LexError::Memory),
    }
}

impl<'j> Builder<'j> {
    /// Nothing.
    fn new(alloc: Global) -> Builder<'j>
        ensures { built_of result ≡ record { tokens = []; names = []; literals = [] } }
    {
        Builder {
            tokens: Vec::new(alloc),
            names: IndexMap::new(alloc),
            literals: Vec::new(alloc),
        }
    }

    /// Adds a token that is no literal.
    fn add(&mut self, read: ReadToken<'j>) -> Result<(), LexError>
        requires plain { literal_of (meaning_of read.meaning) ≡ None }
        requires room { length self.old.names.entries < 2 ^ 32 - 1 }
        ensures built { (w : Numbers_) → AreNamed w self.old.names.entries →
            IsMeant w read.entry.meaning →
            OnOk result (built_of self.new ≡ added (built_of self.old) (read_of read.entry)) }
        ensures named { (w : Numbers_) → AreNamed w self.old.names.entries →
            IsMeant w read.entry.meaning → OnOk result (AreNamed w self.new.names.entries) }
        ensures names { OnOk result
            (length self.new.names.entries ≤ length self.old.names.entries + 1) }
        ensures literals { OnOk result
            (length self.new.literals.items ≡ length self.old.literals.items) }
        ensures err { IfErr result (λ e. e ≡ Memory) }
    {
        let kind = plain_kind(&mut self.names, read.meaning)?;
        push_token(
            &mut self.tokens,
            Token {
                kind,
                start: read.start,
                end: read.end,
                place: read.place,
            },
        )
    }

    /// Adds a literal that is over, where there is one.
    fn close(&mut self, held: Option<OpenLiteral>) -> Result<(), LexError>
        requires { length self.old.literals.items < 2 ^ 32 }
        ensures built { OnOk result (built_of self.new ≡ closed (built_of self.old) held) }
        ensures names { self.new.names ≡ self.old.names }
        ensures literals { OnOk result
            (length self.new.literals.items ≤ length self.old.literals.items + 1) }
        ensures err { IfErr result (λ e. e ≡ Memory) }
    {
        match held {
            None => Ok(()),
            Some(literal) => {
                let OpenLiteral {
                    bytes,
                    start,
                    end,
                    place,
                } = literal;
                let token = Token {
                    kind: TokenKind::Literal(self.literals.len() as u32),
                    start,
                    end,
                    place,
                };
                push_token(&mut self.tokens, token)?;
                push_bytes(&mut self.literals, bytes)
            }
        }
    }
}

fn append(bytes: &mut Vec<u8>, more: &[u8]) -> Result<(), LexError>
    ensures ok { OnOk result (bytes.new.items ≡ bytes.old.items ++ more.now) }
    ensures err { IfErr result (λ e. e ≡ Memory) }
{
    match bytes.extend_from_slice(more) {
        Ok(()) => Ok(()),
        Err(_) => Err(LexError::Memory),
    }
}

/// The literal that a token with these bytes begins or goes on.
fn longer<'j>(
    alloc: Global,
    held: Option<OpenLiteral>,
    read: ReadToken<'j>,
    more: &[u8],
) -> Result<OpenLiteral, LexError>
    ensures ok { IfOk result
        (λ l. read_literal l ≡ longer_of held (read_of read.entry) more.now) }
    ensures err { IfErr result (λ e. e ≡ Memory) }
{
    match held {
        None => {
            let mut bytes = Vec::new(alloc);
            append(&mut bytes, more)?;
            Ok(OpenLiteral {
                bytes,
                start: read.start,
                end: read.end,
                place: read.place,
            })
        }
        Some(mut literal) => {
            append(&mut literal.bytes, more)?;
            literal.end = read.end;
            Ok(literal)
        }
    }
}

/// Adds a token, or makes a literal longer.
fn step<'j>(
    alloc: Global,
    numbers: &WordNumbers<'j>,
    builder: &mut Builder<'j>,
    held: Option<OpenLiteral>,
    read: ReadToken<'j>,
) -> Result<Option<OpenLiteral>, LexError>
    requires meant { IsMeant numbers.now read.meaning }
    requires named { AreNamed numbers.now builder.old.names.entries }
    requires names { length builder.old.names.entries < 2 ^ 32 - 1 }
    requires literals { length builder.old.literals.items < 2 ^ 32 }
    ensures ok { IfOk result (λ after. (rest : List TokenRead) →
        finished (built_of builder.new) (waiting after rest)
        ≡ finished (built_of builder.old) (waiting held (before (read_of read.entry) rest))) }
    ensures named { OnOk result (AreNamed numbers.now builder.new.names.entries) }
    ensures names { OnOk result
        (length builder.new.names.entries ≤ length builder.old.names.entries + 1) }
    ensures literals { OnOk result
        (length builder.new.literals.items ≤ length builder.old.literals.items + 1) }
    ensures err { IfErr result (λ e. e ≡ Memory) }
{
    match literal_bytes(numbers, read.meaning) {
        Some(bytes) => {
            let literal = longer(alloc, held, read, bytes)?;
            Ok(Some(literal))
        }
        None => {
            builder.close(held)?;
            builder.add(read)?;
            Ok(None)
        }
    }
}

/// The tokens with adjacent literals joined, and the names and literals that they number. Only memory can be wanting.
pub fn build<'j>(
    alloc: Global,
    numbers: &WordNumbers<'j>,
    reads: &[ReadToken<'j>],
) -> Result<Builder<'j>, LexError>
    requires few { length reads.now < 2 ^ 32 }
    requires meant { All (λ t. IsMeant numbers.now t.meaning) reads.now }
    ensures ok { IfOk result
        (λ builder. built_of builder
        ≡ finished (record { tokens = []; names = []; literals = [] })
        (joined_literals (map read_of reads.now))) }
    ensures err { IfErr result (λ e. e ≡ Memory) }
{
    let mut builder = Builder::new(alloc);
    let mut held = None;
    for read in reads {
        held = step(alloc, numbers, &mut builder, held, *read)?;
    }
    builder.close(held)?;
    Ok(builder)
}

/// The bytes of each name. Only memory can be wanting.
pub fn own_names(alloc: Global, names: &[&[u8]]) -> Result<Items<Items<u8>>, LexError>
    ensures ok { IfOk result (λ owned. owned ≡ map (λ k. k.now) names.now) }
    ensures err { IfErr result (λ e. e ≡ Memory) }
{
    let mut owned = Vec::new(alloc);
    for name in names {
        match Vec::from_slice(alloc, name) {
            Ok(bytes) => push_bytes(&mut owned, bytes)?,
            Err(_) => return Err(LexError::Memory),
        }
    }
    Ok(Items::from_vec(owned))
}
