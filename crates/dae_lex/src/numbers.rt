//! Words and literals by number, so that those of a macro's body are read once, however often the macro is used.

ghost use Rattle.std.specs.Prelude.{◌≡◌, ◌++◌, [], ◌∷◌, IfOk, OnOk, IfErr};
ghost use Rattle.dae_tree.specs.Literals.{values_of, inside};
ghost use Rattle.dae_lex.specs.Numbers.{IsName, IsLiteral, IsNumbered, Keeps};
ghost use Rattle.dae_tree.specs.declared.faults.LexError.TheVariants.{Memory};

use dae_base::Items;
use dae_lex_scan::{SourcePiece, append_values};
use dae_tree::{LexError, PieceKind};
use indexmap::IndexSet;
use std::alloc::Global;

/// The words and literals that have numbers: a word has its place among the different words, and a literal the place
/// of the bytes that it spells.
#[derive(Drop)]
pub struct WordNumbers<'j> {
    pub words: IndexSet<&'j [u8]>,
    pub literals: Vec<Items<u8>>,
}

/// A piece, with the number of a word or a literal, and 0 for another.
#[derive(Clone, Copy)]
pub struct NumberedPiece<'j> {
    pub piece: SourcePiece<'j>,
    pub number: usize,
}

/// What stands between the quotes of a literal's spelling.
pub fn between_quotes(spelling: &[u8]) -> &[u8]
    ensures { result.now ≡ inside spelling.now }
{
    if spelling.len() < 2 {
        &[]
    } else {
        &spelling[1..spelling.len() - 1]
    }
}

/// The bytes that the inside of a literal spells.
fn spelled_bytes(alloc: Global, inside: &[u8]) -> Result<Vec<u8>, LexError>
    ensures ok { IfOk result (λ bytes. bytes.items ≡ values_of inside.now) }
    ensures err { IfErr result (λ e. e ≡ Memory) }
{
    let mut bytes = Vec::new(alloc);
    match append_values(inside, &mut bytes) {
        Ok(()) => Ok(bytes),
        Err(_) => Err(LexError::Memory),
    }
}

/// Appends a list of bytes.
pub fn push_bytes(lists: &mut Vec<Items<u8>>, bytes: Vec<u8>) -> Result<(), LexError>
    ensures ok { OnOk result (lists.new.items ≡ lists.old.items ++ bytes.items ∷ []) }
    ensures err { IfErr result (λ e. e ≡ Memory) }
{
    match lists.push(Items::from_vec(bytes)) {
        Ok(()) => Ok(()),
        Err(_) => Err(LexError::Memory),
    }
}

impl<'j> WordNumbers<'j> {
    /// No words and no literals.
    pub fn new(alloc: Global) -> WordNumbers<'j>
        ensures { (result.words.keys ≡ []) × (result.literals.items ≡ []) }
    {
        WordNumbers {
            words: IndexSet::new(alloc),
            literals: Vec::new(alloc),
        }
    }

    /// The number of a word.
    pub fn word(&mut self, spelling: &'j [u8]) -> Result<usize, LexError>
        ensures number { IfOk result (λ n. IsName self.new n spelling.now) }
        ensures keeps { OnOk result (Keeps self.old self.new) }
        ensures err { IfErr result (λ e. e ≡ Memory) }
    {
        match self.words.insert_full(spelling) {
            Ok((index, _)) => Ok(index),
            Err(_) => Err(LexError::Memory),
        }
    }

    /// The number of a literal, from what stands between its quotes.
    fn literal(&mut self, alloc: Global, inside: &[u8]) -> Result<usize, LexError>
        ensures number { IfOk result (λ n. IsLiteral self.new n (values_of inside.now)) }
        ensures keeps { OnOk result (Keeps self.old self.new) }
        ensures err { IfErr result (λ e. e ≡ Memory) }
    {
        let bytes = spelled_bytes(alloc, inside)?;
        let number = self.literals.len();
        push_bytes(&mut self.literals, bytes)?;
        Ok(number)
    }

    /// A piece with its number. Only memory can be wanting.
    pub fn piece(
        &mut self,
        alloc: Global,
        piece: SourcePiece<'j>,
    ) -> Result<NumberedPiece<'j>, LexError>
        ensures same { IfOk result (λ p. p.piece ≡ piece.entry) }
        ensures number { IfOk result (IsNumbered self.new) }
        ensures keeps { OnOk result (Keeps self.old self.new) }
        ensures err { IfErr result (λ e. e ≡ Memory) }
    {
        match piece.kind {
            PieceKind::Word => {
                let number = self.word(piece.spelling)?;
                Ok(NumberedPiece { piece, number })
            }
            PieceKind::Text => {
                let number = self.literal(alloc, between_quotes(piece.spelling))?;
                Ok(NumberedPiece { piece, number })
            }
            _ => Ok(NumberedPiece { piece, number: 0 }),
        }
    }
}
