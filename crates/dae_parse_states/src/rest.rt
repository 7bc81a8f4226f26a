// The tokens that are left, and what is in front of them.

ghost use Rattle.std.specs.Prelude.{◌≡◌, ◌∷◌, List, length, IfSome};
ghost use Rattle.dae_tree.specs.Marks.{TokenMark, marks, mark, mark_of};
ghost use Rattle.dae_base.specs.declared.Place.{Place};
ghost use Rattle.dae_parse_states.specs.Fronts.{Fronts, TookSign, TookWord, TookName, sign_at, word_at, name_at};
ghost use Rattle.dae_parse_grammar.specs.Stuck.{behind};

use dae_base::Place;
use dae_tree::{Keyword, Name, Sign, Token, TokenKind};
use std::marker::Model;

/// The tokens that are left, from the next on. Clauses see their marks.
#[derive(Drop)]
pub struct TokensLeft<'t> {
    tokens: &'t [Token],
    at: usize,
}

impl<'t> Model for TokensLeft<'t> {
    ghost use Rattle.std.specs.Prelude.{◌≤◌, List, drop, length};
    ghost use Rattle.dae_tree.specs.Marks.{TokenMark, marks};

    ghost Value = { List TokenMark };

    ghost view = { λ r. marks (drop r.at r.tokens.now) };

    ghost invariant = { λ r. r.at ≤ length r.tokens.now };
}

impl<'t> TokensLeft<'t> {
    /// All of these tokens.
    pub fn new(tokens: &'t [Token]) -> TokensLeft<'t>
        ensures { result ≡ marks tokens.entry.now }
    {
        TokensLeft { tokens, at: 0 }
    }

    /// How many tokens are left.
    pub fn len(&self) -> usize
        ensures { result ≡ length self.now }
    {
        self.tokens.len() - self.at
    }

    /// The next token.
    pub fn front(&self) -> Option<Token>
        ensures { Fronts result self.now }
    {
        if self.at < self.tokens.len() {
            Some(self.tokens[self.at])
        } else {
            None
        }
    }

    /// Takes the next token.
    pub fn advance(&mut self) -> Option<Token>
        ensures front { Fronts result self.old }
        ensures behind { IfSome result (λ t. self.old ≡ mark t ∷ self.new) }
    {
        if self.at < self.tokens.len() {
            let token = self.tokens[self.at];
            self.at += 1;
            Some(token)
        } else {
            None
        }
    }

    /// Passes over the next token, if one is left.
    pub fn skip(&mut self)
        ensures { self.new ≡ behind self.old }
    {
        *self = self.behind();
    }

    /// The tokens behind the next.
    pub fn behind(&self) -> TokensLeft<'t>
        ensures { result ≡ behind self.now }
    {
        if self.at < self.tokens.len() {
            TokensLeft {
                tokens: self.tokens,
                at: self.at + 1,
            }
        } else {
            TokensLeft {
                tokens: self.tokens,
                at: self.at,
            }
        }
    }

    /// The sign that stands next.
    pub fn sign(&self) -> Option<Sign>
        ensures { result ≡ sign_at self.now }
    {
        match self.front() {
            Some(token) => sign_in(token.kind),
            None => None,
        }
    }

    /// The keyword that stands next.
    pub fn word(&self) -> Option<Keyword>
        ensures { result ≡ word_at self.now }
    {
        match self.front() {
            Some(token) => word_in(token.kind),
            None => None,
        }
    }

    /// The name that stands next.
    pub fn name(&self) -> Option<Name>
        ensures { result ≡ name_at self.now }
    {
        match self.front() {
            Some(token) => name_in(token.kind, token.place),
            None => None,
        }
    }

    /// Takes this sign, if it stands next.
    #[tactic(auto, using(crate::proofs::ByKind::sign_is))]
    pub fn take_sign(&mut self, sign: Sign) -> Option<Place>
        ensures { TookSign sign result self.old self.new }
    {
        if self.sign() != Some(sign) {
            return None;
        }
        match self.advance() {
            Some(token) => Some(token.place),
            None => None,
        }
    }

    /// Takes this keyword, if it stands next.
    #[tactic(auto, using(crate::proofs::ByKind::word_is))]
    pub fn take_word(&mut self, word: Keyword) -> Option<Place>
        ensures { TookWord word result self.old self.new }
    {
        if self.word() != Some(word) {
            return None;
        }
        match self.advance() {
            Some(token) => Some(token.place),
            None => None,
        }
    }

    /// Takes a name, if one stands next.
    #[tactic(auto, using(crate::proofs::ByKind::name_is))]
    pub fn take_name(&mut self) -> Option<Name>
        ensures { TookName result self.old self.new }
    {
        let name = self.name()?;
        self.advance()?;
        Some(name)
    }
}

#[tactic(auto, using(crate::proofs::ByKind::sign_kept, crate::proofs::ByKind::no_sign))]
fn sign_in(kind: TokenKind) -> Option<Sign>
    ensures { (p : Place) (ts : List TokenMark) → sign_at (mark_of kind p ∷ ts) ≡ result }
{
    match kind {
        TokenKind::Sign(sign) => Some(sign),
        TokenKind::Keyword(_) => None,
        TokenKind::Name(_) => None,
        TokenKind::Constant(_) => None,
        TokenKind::Literal(_) => None,
    }
}

#[tactic(auto, using(crate::proofs::ByKind::word_kept, crate::proofs::ByKind::no_word))]
fn word_in(kind: TokenKind) -> Option<Keyword>
    ensures { (p : Place) (ts : List TokenMark) → word_at (mark_of kind p ∷ ts) ≡ result }
{
    match kind {
        TokenKind::Sign(_) => None,
        TokenKind::Keyword(word) => Some(word),
        TokenKind::Name(_) => None,
        TokenKind::Constant(_) => None,
        TokenKind::Literal(_) => None,
    }
}

#[tactic(auto, using(crate::proofs::ByKind::no_name_sign, crate::proofs::ByKind::no_name_word))]
fn name_in(kind: TokenKind, place: Place) -> Option<Name>
    ensures { (ts : List TokenMark) → name_at (mark_of kind place ∷ ts) ≡ result }
{
    match kind {
        TokenKind::Sign(_) => None,
        TokenKind::Keyword(_) => None,
        TokenKind::Name(number) => Some(Name { place, number }),
        TokenKind::Constant(_) => None,
        TokenKind::Literal(_) => None,
    }
}
