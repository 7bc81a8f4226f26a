// Why a text has no tokens, and which constructs aren't taken.

use dae_base::Place;

/// What a text is refused for by name.
#[derive(Clone, Copy, PartialEq, Eq, Debug)]
pub enum Construct {
    /// The keyword `goto`.
    Goto,
    /// The keyword `union`.
    Union,
    /// The keyword `volatile`.
    Volatile,
    /// The keyword `float` or `double`.
    FloatType,
    /// A number with a point or an exponent.
    FloatConstant,
    /// The token `...`.
    Ellipsis,
    /// A `#` line that is neither empty, nor a define with a name, nor an include of one of the two headers alone.
    Directive,
    /// A define whose name is followed at once by a parenthesis.
    FunctionMacro,
    /// A `#` in the replacement of a macro.
    HashInMacro,
    /// A second, different define of a name.
    MacroRedefined,
    /// Two question marks before one of `= / ' ( ) ! < > -` outside comments.
    Trigraph,
    /// An `L` at once before a quote.
    WideLiteral,
    /// A character constant with none or several characters.
    LongCharacter,
    /// A backslash in a literal that begins no escape, or an escape with a value above 255.
    BadEscape,
    /// A number that is no constant.
    BadConstant,
    /// An integer constant above 4294967295.
    NumberTooLarge,
    /// A comment or literal without its end.
    Unterminated,
    /// A replacement of a macro past the room.
    TooManyReplacements,
    /// A literal with bytes past the room.
    LiteralsTooLong,
}

/// What is wrong with a part of a text: a byte that may not stand there, or a construct that is refused.
#[derive(Clone, Copy, PartialEq, Eq, Debug)]
pub enum TextFault {
    BadByte,
    Named(Construct),
}

/// Why a text has no tokens: the first cause in reading order, with its place, or want of memory.
#[derive(Clone, Copy, PartialEq, Eq, Debug)]
pub enum LexError {
    /// A byte that may not stand there, or that begins no token.
    BadByte(Place),
    /// The first token past the room.
    TooManyTokens(Place),
    /// A construct that is refused by name.
    Refused(Construct, Place),
    /// Memory ran out.
    Memory,
}
