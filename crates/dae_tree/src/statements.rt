// Nodes of initialisers, declarations, statements and externals.

use crate::expressions::{Declarator, Expression, Specifier, TrailingComma};
use dae_base::Place;

/// An initialiser (C90 6.5.7).
#[derive(Drop)]
pub enum Initialiser {
    Value(Box<Expression>),
    /// `{`, the initialisers, and whether a comma stands behind the last.
    List(Place, Vec<Initialiser>, TrailingComma),
}

/// An init-declarator of a declaration: a declarator, with the place of `=` and its initialiser or without (C90 6.5).
#[derive(Drop)]
pub struct InitDeclarator {
    pub declarator: Box<Declarator>,
    pub initialiser: Option<(Place, Initialiser)>,
}

/// A declaration, with the place of its semicolon (C90 6.5).
#[derive(Drop)]
pub struct Declaration {
    pub specifiers: Vec<Specifier>,
    pub items: Vec<InitDeclarator>,
    pub end: Place,
}

/// `{`, declarations, and statements up to `}` (C90 6.6.2).
#[cycle(statement)]
#[derive(Drop)]
pub struct Block {
    pub place: Place,
    pub declarations: Vec<Declaration>,
    pub statements: Vec<Statement>,
}

/// The test of a statement: an expression in parentheses, with the place of `(`.
#[derive(Drop)]
pub struct StatementTest {
    pub place: Place,
    pub expression: Box<Expression>,
}

/// A statement (C90 6.6). The first place is that of the first word, the last that of the semicolon.
#[cycle(statement)]
#[derive(Drop)]
pub enum Statement {
    Block(Block),
    /// A semicolon alone.
    Empty(Place),
    Evaluate(Box<Expression>, Place),
    If(Place, StatementTest, Box<Statement>),
    IfElse(Place, StatementTest, Box<Statement>, Box<Statement>),
    While(Place, StatementTest, Box<Statement>),
    /// The second place is that of `while`.
    Do(Place, Box<Statement>, Place, StatementTest, Place),
    /// The other places are those of `(` and of the two semicolons.
    For(Place, Place, Heading, Box<Statement>),
    Break(Place, Place),
    Continue(Place, Place),
    Return(Place, Option<Box<Expression>>, Place),
    Switch(Place, StatementTest, Box<Statement>),
    Case(Place, Box<Expression>, Box<Statement>),
    Default(Place, Box<Statement>),
}

/// What stands in the parentheses of a `for`, with the places of the two semicolons.
#[derive(Drop)]
pub struct Heading {
    pub start: Option<Box<Expression>>,
    pub after_start: Place,
    pub test: Option<Box<Expression>>,
    pub after_test: Place,
    pub step: Option<Box<Expression>>,
}

/// A declaration at file scope, or the definition of a function (C90 6.7).
#[derive(Drop)]
pub enum External {
    Declaration(Declaration),
    Definition(Vec<Specifier>, Box<Declarator>, Block),
}
