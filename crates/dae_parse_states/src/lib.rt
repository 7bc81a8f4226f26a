// What the parser's machine keeps: the tokens that are left, the names in scope, what it does, and what comes behind the part
// that is read. It promises by one word, `Steps`, what a step is: where the machine's state shows one of the grammar's machine,
// the state behind the step shows the next. The steps stand in the crates above, those of declarations and those of statements.
#![tactic(auto)]

pub use frames::{
    DeclarationFrame, DeclaratorFrame, Doing, ExpressionFrame, FileSoFar, Frame, FunctionBody,
    InitialiserFrame, Inside, Manner, OpenParameters, Presence, SpecifiersFrame, StatementFrame,
    StatementHead, StatementKind, TagKind,
};
pub use machine::Parser;
pub use names::{begins_specifiers, is_type};
pub use rest::TokensLeft;

mod frames;
mod machine;
mod names;
mod popping;
mod pushing;
mod rest;
