// Tokens and trees of C. What a text is cut into: signs, keywords, names, constants and literals, each with its place, and
// the definition of the tokens of a text with all that it is refused for. And what tokens spell: expressions,
// declarators, declarations, statements and files, with the grammar that says which tokens a tree spells. The tables
// here serve the definitions and the code alike. A tree keeps the place of each token but of those that only close or
// part.
#![tactic(auto)]

pub use constants::{Constant, SUFFIXES};
pub use expressions::{
    Declarator, Enumerator, Expression, Member, Name, Parameter, Specifier, TrailingComma, TypeName,
};
pub use faults::{Construct, LexError, TextFault};
pub use files::File;
pub use headers::{HEADERS, Header, STDIO_MACROS, STDLIB_MACROS};
pub use levels::{
    ADDITIVE, ASSIGNMENT, BITWISE_AND, BITWISE_OR, BITWISE_XOR, CAST, COMMA, CONDITIONAL, EQUALITY,
    LOGICAL_AND, LOGICAL_OR, MULTIPLICATIVE, NONE, POSTFIX, PRIMARY, RELATIONAL, SHIFT, UNARY,
};
pub use literals::ESCAPES;
pub use operators::{
    AssignmentOperator, BinaryOperator, MemberOperator, OPERATIONS, Operation, PREFIXES,
    PostfixOperator, PrefixOperator,
};
pub use pieces::{Lexeme, PieceKind, TextSpot};
pub use seen::{Arithmetic, Seen};
pub use signs::{SIGNS, Sign};
pub use statements::{
    Block, Declaration, External, Heading, InitDeclarator, Initialiser, Statement, StatementTest,
};
pub use tokens::{Includes, Room, Token, TokenKind, Tokens};
pub use words::{KEYWORDS, Keyword, REFUSED_WORDS};

mod constants;
mod expressions;
mod faults;
mod files;
mod headers;
mod levels;
mod literals;
mod operators;
mod pieces;
mod places;
mod seen;
mod signs;
mod statements;
mod tokens;
mod words;
