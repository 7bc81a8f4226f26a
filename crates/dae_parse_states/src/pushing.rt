// Frames put on the machine's stack, each in a box, by what they await.

ghost use Rattle.std.specs.Prelude.{◌≡◌, ◌∷◌, IfOk};
ghost use Rattle.dae_parse_states.specs.Kept as kept;
ghost use Rattle.dae_parse_states.specs.States.{frames_of};

use crate::frames::{
    DeclarationFrame, DeclaratorFrame, ExpressionFrame, Frame, InitialiserFrame, SpecifiersFrame,
    StatementFrame,
};
use crate::machine::Parser;
use std::alloc::AllocError;

impl<'t> Parser<'t> {
    /// Puts what awaits an expression on the stack.
    pub fn push_expression(&mut self, frame: ExpressionFrame) -> Result<(), AllocError>
        ensures stack { IfOk result
            (λ _. frames_of self.new ≡ kept.Expression frame ∷ frames_of self.old) }
        ensures scope { self.new.scope ≡ self.old.scope }
        ensures rest { self.new.rest ≡ self.old.rest }
    {
        let frame = Box::new(self.alloc, frame)?;
        self.push(Frame::Expression(frame))
    }

    /// Puts what awaits specifiers on the stack.
    pub fn push_specifiers(&mut self, frame: SpecifiersFrame) -> Result<(), AllocError>
        ensures stack { IfOk result
            (λ _. frames_of self.new ≡ kept.Specifiers frame ∷ frames_of self.old) }
        ensures scope { self.new.scope ≡ self.old.scope }
        ensures rest { self.new.rest ≡ self.old.rest }
    {
        let frame = Box::new(self.alloc, frame)?;
        self.push(Frame::Specifiers(frame))
    }

    /// Puts what awaits a declarator on the stack.
    pub fn push_declarator(&mut self, frame: DeclaratorFrame) -> Result<(), AllocError>
        ensures stack { IfOk result
            (λ _. frames_of self.new ≡ kept.Declarator frame ∷ frames_of self.old) }
        ensures scope { self.new.scope ≡ self.old.scope }
        ensures rest { self.new.rest ≡ self.old.rest }
    {
        let frame = Box::new(self.alloc, frame)?;
        self.push(Frame::Declarator(frame))
    }

    /// Puts what awaits an initialiser on the stack.
    pub fn push_initialiser(&mut self, frame: InitialiserFrame) -> Result<(), AllocError>
        ensures stack { IfOk result
            (λ _. frames_of self.new ≡ kept.Initialiser frame ∷ frames_of self.old) }
        ensures scope { self.new.scope ≡ self.old.scope }
        ensures rest { self.new.rest ≡ self.old.rest }
    {
        let frame = Box::new(self.alloc, frame)?;
        self.push(Frame::Initialiser(frame))
    }

    /// Puts what awaits a declaration on the stack.
    pub fn push_declaration(&mut self, frame: DeclarationFrame) -> Result<(), AllocError>
        ensures stack { IfOk result
            (λ _. frames_of self.new ≡ kept.Declaration frame ∷ frames_of self.old) }
        ensures scope { self.new.scope ≡ self.old.scope }
        ensures rest { self.new.rest ≡ self.old.rest }
    {
        let frame = Box::new(self.alloc, frame)?;
        self.push(Frame::Declaration(frame))
    }

    /// Puts what awaits a statement on the stack.
    pub fn push_statement(&mut self, frame: StatementFrame) -> Result<(), AllocError>
        ensures stack { IfOk result
            (λ _. frames_of self.new ≡ kept.Statement frame ∷ frames_of self.old) }
        ensures scope { self.new.scope ≡ self.old.scope }
        ensures rest { self.new.rest ≡ self.old.rest }
    {
        let frame = Box::new(self.alloc, frame)?;
        self.push(Frame::Statement(frame))
    }
}
