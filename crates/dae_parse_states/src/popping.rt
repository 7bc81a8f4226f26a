// The top frame taken off the machine's stack by what it awaits.
ghost use Rattle.std.specs.Prelude.{◌≡◌};
ghost use Rattle.dae_parse_states.specs.Kept as frame;
ghost use Rattle.dae_parse_states.specs.States.{frames_of, PoppedOf};

use crate::frames::{
    DeclarationFrame, DeclaratorFrame, ExpressionFrame, Frame, InitialiserFrame, SpecifiersFrame,
    StatementFrame,
};
use crate::machine::Parser;

impl<'t> Parser<'t> {
    /// Takes the top frame off the stack, where it awaits an expression. One that awaits something else is dropped.
    #[tactic(auto, using(crate::proofs::Stacks::not_expression))]
    pub fn pop_expression(&mut self) -> Option<ExpressionFrame>
        ensures stack { PoppedOf frame.Expression result (frames_of self.old) (frames_of self.new) }
        ensures scope { self.new.scope ≡ self.old.scope }
        ensures rest { self.new.rest ≡ self.old.rest }
    {
        match self.pop() {
            Some(Frame::Expression(frame)) => Some(Box::into_inner(frame)),
            other => {
                drop(other);
                None
            }
        }
    }

    /// Takes the top frame off the stack, where it awaits specifiers. One that awaits something else is dropped.
    #[tactic(auto, using(crate::proofs::Stacks::not_specifiers))]
    pub fn pop_specifiers(&mut self) -> Option<SpecifiersFrame>
        ensures stack { PoppedOf frame.Specifiers result (frames_of self.old) (frames_of self.new) }
        ensures scope { self.new.scope ≡ self.old.scope }
        ensures rest { self.new.rest ≡ self.old.rest }
    {
        match self.pop() {
            Some(Frame::Specifiers(frame)) => Some(Box::into_inner(frame)),
            other => {
                drop(other);
                None
            }
        }
    }

    /// Takes the top frame off the stack, where it awaits a declarator. One that awaits something else is dropped.
    #[tactic(auto, using(crate::proofs::Stacks::not_declarator))]
    pub fn pop_declarator(&mut self) -> Option<DeclaratorFrame>
        ensures stack { PoppedOf frame.Declarator result (frames_of self.old) (frames_of self.new) }
        ensures scope { self.new.scope ≡ self.old.scope }
        ensures rest { self.new.rest ≡ self.old.rest }
    {
        match self.pop() {
            Some(Frame::Declarator(frame)) => Some(Box::into_inner(frame)),
            other => {
                drop(other);
                None
            }
        }
    }

    /// Takes the top frame off the stack, where it awaits an initialiser. One that awaits something else is dropped.
    #[tactic(auto, using(crate::proofs::Stacks::not_initialiser))]
    pub fn pop_initialiser(&mut self) -> Option<InitialiserFrame>
        ensures stack { PoppedOf frame.Initialiser result
            (frames_of self.old) (frames_of self.new) }
        ensures scope { self.new.scope ≡ self.old.scope }
        ensures rest { self.new.rest ≡ self.old.rest }
    {
        match self.pop() {
            Some(Frame::Initialiser(frame)) => Some(Box::into_inner(frame)),
            other => {
                drop(other);
                None
            }
        }
    }

    /// Takes the top frame off the stack, where it awaits a declaration. One that awaits something else is dropped.
    #[tactic(auto, using(crate::proofs::Stacks::not_declaration))]
    pub fn pop_declaration(&mut self) -> Option<DeclarationFrame>
        ensures stack { PoppedOf frame.Declaration result
            (frames_of self.old) (frames_of self.new) }
        ensures scope { self.new.scope ≡ self.old.scope }
        ensures rest { self.new.rest ≡ self.old.rest }
    {
        match self.pop() {
            Some(Frame::Declaration(frame)) => Some(Box::into_inner(frame)),
            other => {
                drop(other);
                None
            }
        }
    }

    /// Takes the top frame off the stack, where it awaits a statement. One that awaits something else is dropped.
    #[tactic(auto, using(crate::proofs::Stacks::not_statement))]
    pub fn pop_statement(&mut self) -> Option<StatementFrame>
        ensures stack { PoppedOf frame.Statement result (frames_of self.old) (frames_of self.new) }
        ensures scope { self.new.scope ≡ self.old.scope }
        ensures rest { self.new.rest ≡ self.old.rest }
    {
        match self.pop() {
            Some(Frame::Statement(frame)) => Some(Box::into_inner(frame)),
            other => {
                drop(other);
                None
            }
        }
    }
}
