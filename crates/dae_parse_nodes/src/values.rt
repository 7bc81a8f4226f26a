// What is kept beside the tree of a part: of operands, specifiers, declarators, parameters, bodies and loops.

use dae_base::Place;
use dae_parse_parts::{Binding, Read};
use dae_tree::{Declarator, Expression, Name, Parameter, Seen, Specifier, Statement};

/// An expression that was read, its level, and the place of its first token.
#[derive(Drop)]
pub struct ReadOperand {
    pub read: Read<Box<Expression>>,
    pub level: u8,
    pub place: Place,
}

/// Specifiers that were read.
#[derive(Drop)]
pub struct Specified {
    pub read: Read<Vec<Specifier>>,
    pub typedef: bool,
    /// The place of the first.
    pub place: Option<Place>,
    /// The place of `void`, where it stands alone.
    pub void: Option<Place>,
}

/// A declarator that was read.
#[derive(Drop)]
pub struct Declared {
    pub read: Read<Box<Declarator>>,
    pub name: Option<u32>,
    pub present: bool,
    /// A name with nothing but parentheses round it.
    pub bare: bool,
    /// The parameters of the part that makes the name a function, in their order.
    pub parameters: Vec<Binding<bool>>,
}

/// The parameters of a function while they are read.
#[derive(Drop)]
pub struct ParameterList {
    pub read: Read<Vec<Parameter>>,
    pub any: bool,
    /// The place of `void`, where it stands alone.
    pub void: Option<Place>,
}

/// The body of a structure or enumeration, with the specifiers before it.
#[derive(Drop)]
pub struct TypeBody {
    pub place: Place,
    pub tag: Option<Name>,
    pub brace: Place,
    pub seen: Seen,
    pub before: Specified,
}

/// The parts of a `do` before its semicolon: its body, its test, and the places of its two words and its parenthesis.
#[derive(Drop)]
pub struct DoParts {
    pub place: Place,
    pub body: Read<Box<Statement>>,
    pub word: Place,
    pub paren: Place,
    pub test: ReadOperand,
}

/// The parts of a `for` before its step: its word, its parenthesis, and the expressions with the semicolons behind them.
#[derive(Drop)]
pub struct Loop {
    pub word: Place,
    pub paren: Place,
    pub start: Option<ReadOperand>,
    pub first: Place,
    pub test: Option<ReadOperand>,
    pub second: Place,
}
