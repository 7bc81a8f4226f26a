// The keywords of the language, and those that are refused.

use crate::faults::Construct;

/// A keyword that is taken (C90 6.1.1).
#[derive(Clone, Copy, PartialEq, Eq)]
pub enum Keyword {
    Auto,
    Break,
    Case,
    Char,
    Const,
    Continue,
    Default,
    Do,
    Else,
    Enum,
    Extern,
    For,
    If,
    Int,
    Long,
    Register,
    Return,
    Short,
    Signed,
    Sizeof,
    Static,
    Struct,
    Switch,
    Typedef,
    Unsigned,
    Void,
    While,
}

/// The keywords that are taken.
pub const KEYWORDS: [(&[u8], Keyword); 27] = [
    (b"auto", Keyword::Auto),
    (b"break", Keyword::Break),
    (b"case", Keyword::Case),
    (b"char", Keyword::Char),
    (b"const", Keyword::Const),
    (b"continue", Keyword::Continue),
    (b"default", Keyword::Default),
    (b"do", Keyword::Do),
    (b"else", Keyword::Else),
    (b"enum", Keyword::Enum),
    (b"extern", Keyword::Extern),
    (b"for", Keyword::For),
    (b"if", Keyword::If),
    (b"int", Keyword::Int),
    (b"long", Keyword::Long),
    (b"register", Keyword::Register),
    (b"return", Keyword::Return),
    (b"short", Keyword::Short),
    (b"signed", Keyword::Signed),
    (b"sizeof", Keyword::Sizeof),
    (b"static", Keyword::Static),
    (b"struct", Keyword::Struct),
    (b"switch", Keyword::Switch),
    (b"typedef", Keyword::Typedef),
    (b"unsigned", Keyword::Unsigned),
    (b"void", Keyword::Void),
    (b"while", Keyword::While),
];

/// The keywords that are refused, and by what name.
pub const REFUSED_WORDS: [(&[u8], Construct); 5] = [
    (b"goto", Construct::Goto),
    (b"union", Construct::Union),
    (b"volatile", Construct::Volatile),
    (b"float", Construct::FloatType),
    (b"double", Construct::FloatType),
];
