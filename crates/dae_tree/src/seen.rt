// What the specifiers of a declaration say so far, and which word may follow.

ghost use Rattle.std.specs.Prelude.{◌≡◌};
ghost use Rattle.dae_tree.specs.Views.{view_specifier, views_specifiers};
ghost use Rattle.dae_tree.specs.Words as words;

use crate::expressions::Specifier;
use crate::words::Keyword;
use dae_base::Signedness;

/// An arithmetic type that words of specifiers name (C90 6.5.2).
#[derive(Clone, Copy, PartialEq, Eq)]
pub enum Arithmetic {
    Char,
    SignedChar,
    UnsignedChar,
    Short,
    UnsignedShort,
    Int,
    Unsigned,
    Long,
    UnsignedLong,
}

/// What was read of specifiers (C90 6.5.1 and 6.5.2).
#[derive(Clone, Copy, PartialEq, Eq)]
pub struct Seen {
    /// A storage class.
    pub storage: Option<Keyword>,
    /// `signed` or `unsigned`.
    pub signedness: Option<Signedness>,
    pub char: bool,
    /// `short` or `long`.
    pub size: Option<Keyword>,
    pub int: bool,
    /// A type that stands alone: `void`, a structure, an enumeration or the name of a type.
    pub whole: bool,
}

impl Seen {
    /// Nothing yet.
    pub fn nothing() -> Seen
        ensures { result ≡ words.nothing_seen }
    {
        Seen {
            storage: None,
            signedness: None,
            char: false,
            size: None,
            int: false,
            whole: false,
        }
    }

    /// All of these specifiers.
    pub fn of_specifiers(specifiers: &[Specifier]) -> Seen
        ensures { result ≡ words.seen_behind words.nothing_seen (views_specifiers specifiers.now) }
    {
        let mut seen = Seen::nothing();
        for specifier in specifiers {
            seen = seen.with_specifier(specifier);
        }
        seen
    }

    /// Whether a type was read.
    pub fn has_type(self) -> bool
        ensures { result ≡ words.has_type self }
    {
        self.signedness.is_some() || self.char || self.size.is_some() || self.int || self.whole
    }

    /// Whether a word may stand behind those that were read.
    pub fn admits(self, word: Keyword) -> bool
        ensures { result ≡ words.admits self word }
    {
        match word {
            Keyword::Extern
            | Keyword::Static
            | Keyword::Auto
            | Keyword::Register
            | Keyword::Typedef => self.storage.is_none(),
            Keyword::Const => true,
            Keyword::Signed | Keyword::Unsigned => !(self.signedness.is_some() || self.whole),
            Keyword::Char => !(self.char || self.size.is_some() || self.int || self.whole),
            Keyword::Short | Keyword::Long => !(self.size.is_some() || self.char || self.whole),
            Keyword::Int => !(self.int || self.char || self.whole),
            Keyword::Void | Keyword::Struct | Keyword::Enum => !self.has_type(),
            _ => false,
        }
    }

    /// With a word more.
    pub fn with_word(self, word: Keyword) -> Seen
        ensures { result ≡ words.with_word self word }
    {
        let mut seen = self;
        match word {
            Keyword::Extern
            | Keyword::Static
            | Keyword::Auto
            | Keyword::Register
            | Keyword::Typedef => seen.storage = Some(word),
            Keyword::Signed => seen.signedness = Some(Signedness::Signed),
            Keyword::Unsigned => seen.signedness = Some(Signedness::Unsigned),
            Keyword::Char => seen.char = true,
            Keyword::Short | Keyword::Long => seen.size = Some(word),
            Keyword::Int => seen.int = true,
            Keyword::Void => seen.whole = true,
            _ => {}
        }
        seen
    }

    /// With a type that stands alone.
    pub fn with_whole(self) -> Seen
        ensures { result ≡ words.with_whole self }
    {
        let mut seen = self;
        seen.whole = true;
        seen
    }

    /// With a specifier more.
    #[tactic(auto, using(crate::proofs::Laws::view_structure_body, crate::proofs::Laws::view_enumeration_body))]
    pub fn with_specifier(self, specifier: &Specifier) -> Seen
        ensures { result ≡ words.seen_after self (view_specifier specifier.now) }
    {
        match specifier {
            Specifier::Word(_, word) => self.with_word(*word),
            Specifier::TypeName(_) => self.with_whole(),
            Specifier::Structure(_, _) => self.with_whole(),
            Specifier::StructureBody(_, _, _, _) => self.with_whole(),
            Specifier::Enumeration(_, _) => self.with_whole(),
            Specifier::EnumerationBody(_, _, _, _, _) => self.with_whole(),
        }
    }

    /// The arithmetic type that the words name, where no type stands alone.
    pub fn arithmetic(self) -> Arithmetic
        ensures { result ≡ words.arithmetic_type self }
    {
        if self.char {
            match self.signedness {
                None => Arithmetic::Char,
                Some(Signedness::Signed) => Arithmetic::SignedChar,
                Some(Signedness::Unsigned) => Arithmetic::UnsignedChar,
            }
        } else {
            integer_of(self.size, self.signedness.unwrap_or(Signedness::Signed))
        }
    }
}

/// The integer type of a size.
fn integer_of(size: Option<Keyword>, signedness: Signedness) -> Arithmetic
    ensures { result ≡ words.sized_type size signedness }
{
    match (size, signedness) {
        (Some(Keyword::Short), Signedness::Signed) => Arithmetic::Short,
        (Some(Keyword::Short), Signedness::Unsigned) => Arithmetic::UnsignedShort,
        (Some(Keyword::Long), Signedness::Signed) => Arithmetic::Long,
        (Some(Keyword::Long), Signedness::Unsigned) => Arithmetic::UnsignedLong,
        (_, Signedness::Signed) => Arithmetic::Int,
        (_, Signedness::Unsigned) => Arithmetic::Unsigned,
    }
}
