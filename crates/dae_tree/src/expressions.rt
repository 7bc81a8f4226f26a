// Nodes of expressions, specifiers and declarators.

use crate::constants::Constant;
use crate::operators::{
    AssignmentOperator, BinaryOperator, MemberOperator, PostfixOperator, PrefixOperator,
};
use crate::words::Keyword;
use dae_base::Place;

/// A name: its place, and its number in the list of names.
#[derive(Clone, Copy, PartialEq, Eq)]
pub struct Name {
    pub place: Place,
    pub number: u32,
}

/// Whether a comma stands behind the last part of a list in braces.
#[derive(Clone, Copy, PartialEq, Eq)]
pub enum TrailingComma {
    Present,
    Absent,
}

/// An expression (C90 6.3). A place before or between the parts is that of the sign or word that stands there.
#[cycle(tree)]
#[derive(Drop)]
pub enum Expression {
    Identifier(Name),
    Constant(Place, Constant),
    /// A string literal, by its number.
    Literal(Place, u32),
    Parenthesised(Place, Box<Expression>),
    Index(Box<Expression>, Place, Box<Expression>),
    Call(Box<Expression>, Place, Vec<Expression>),
    Member(Box<Expression>, Place, MemberOperator, Name),
    Postfix(Box<Expression>, Place, PostfixOperator),
    Prefix(Place, PrefixOperator, Box<Expression>),
    /// `sizeof` before an expression.
    SizeofExpression(Place, Box<Expression>),
    /// `sizeof` before a type name in parentheses.
    SizeofType(Place, Place, Box<TypeName>),
    Cast(Place, Box<TypeName>, Box<Expression>),
    Binary(Box<Expression>, Place, BinaryOperator, Box<Expression>),
    Conditional(Box<Expression>, Place, Box<Expression>, Box<Expression>),
    Assignment(Box<Expression>, Place, AssignmentOperator, Box<Expression>),
    Comma(Box<Expression>, Box<Expression>),
}

/// A type name (C90 6.5.5).
#[cycle(tree)]
#[derive(Drop)]
pub struct TypeName {
    pub specifiers: Vec<Specifier>,
    pub declarator: Declarator,
}

/// A word of a storage class, a qualifier or a type, or a whole type (C90 6.5).
#[cycle(tree)]
#[derive(Drop)]
pub enum Specifier {
    Word(Place, Keyword),
    /// A name that a typedef declared.
    TypeName(Name),
    /// `struct` and a tag.
    Structure(Place, Name),
    /// `struct`, a tag or none, and the members in braces.
    StructureBody(Place, Option<Name>, Place, Vec<Member>),
    /// `enum` and a tag.
    Enumeration(Place, Name),
    /// `enum`, a tag or none, the enumerators in braces, and whether a comma stands behind the last.
    EnumerationBody(Place, Option<Name>, Place, Vec<Enumerator>, TrailingComma),
}

/// A declaration of members, with the place of its semicolon (C90 6.5.2.1).
#[cycle(tree)]
#[derive(Drop)]
pub struct Member {
    pub specifiers: Vec<Specifier>,
    pub declarators: Vec<Declarator>,
    pub end: Place,
}

/// An enumerator, with or without a value (C90 6.5.2.2).
#[cycle(tree)]
#[derive(Drop)]
pub enum Enumerator {
    Plain(Name),
    /// The place is that of the `=`.
    Valued(Name, Place, Expression),
}

/// A declarator or abstract declarator, from its outermost part (C90 6.5.4 and 6.5.5).
#[cycle(tree)]
#[derive(Drop)]
pub enum Declarator {
    /// No part, where an abstract declarator has no name.
    Absent,
    Named(Name),
    /// `*`, the places of `const` behind it, and the rest.
    Pointer(Place, Vec<Place>, Box<Declarator>),
    Grouped(Place, Box<Declarator>),
    /// `[ ]` behind a declarator, with the place of `[`.
    Unsized(Box<Declarator>, Place),
    /// `[ size ]` behind a declarator.
    Sized(Box<Declarator>, Place, Box<Expression>),
    /// `( )` behind a declarator, with the place of `(`.
    Empty(Box<Declarator>, Place),
    /// `( void )` behind a declarator, with the places of `(` and `void`.
    Void(Box<Declarator>, Place, Place),
    /// Parameters in parentheses behind a declarator.
    Function(Box<Declarator>, Place, Vec<Parameter>),
}

/// A parameter (C90 6.5.4.3).
#[cycle(tree)]
#[derive(Drop)]
pub struct Parameter {
    pub specifiers: Vec<Specifier>,
    pub declarator: Declarator,
}
