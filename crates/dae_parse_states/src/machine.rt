// A parser's state: its frames, the names in scope and the tokens that are left.

ghost use Rattle.std.specs.Prelude.{◌≡◌, ◌∷◌, List, IfOk};
ghost use Rattle.dae_tree.specs.Names.{with_declarator};
ghost use Rattle.dae_tree.specs.Trees.{Declarator};
ghost use Rattle.dae_parse_nodes.specs.Parts.{number_of};
ghost use Rattle.dae_tree.specs.Names.{declared_name};
ghost use Rattle.dae_parse_states.specs.Kept.{out_of_box};
ghost use Rattle.dae_parse_states.specs.States.{frames_of, Popped};

use crate::frames::Frame;
use crate::rest::TokensLeft;
use dae_parse_nodes::{Declared, Specified};
use dae_parse_parts::Scope;
use std::alloc::{AllocError, Global};

/// The machine that reads trees: the tokens that are left, the names in scope, and what comes behind the part that is read.
#[derive(Drop)]
pub struct Parser<'t> {
    pub alloc: Global,
    pub rest: TokensLeft<'t>,
    pub scope: Scope<bool>,
    pub stack: Vec<Frame>,
}

impl<'t> Parser<'t> {
    /// Puts a frame on the stack.
    #[tactic(auto, using(crate::proofs::Stacks::stack_more))]
    pub(crate) fn push(&mut self, frame: Frame) -> Result<(), AllocError>
        ensures stack { IfOk result
            (λ _. frames_of self.new ≡ out_of_box frame ∷ frames_of self.old) }
        ensures scope { self.new.scope ≡ self.old.scope }
        ensures rest { self.new.rest ≡ self.old.rest }
    {
        self.stack.push(frame)?;
        Ok(())
    }

    /// Takes the top frame off the stack.
    #[tactic(auto, using(crate::proofs::Stacks::stack_more))]
    pub(crate) fn pop(&mut self) -> Option<Frame>
        ensures stack { Popped result (frames_of self.old) (frames_of self.new) }
        ensures scope { self.new.scope ≡ self.old.scope }
        ensures rest { self.new.rest ≡ self.old.rest }
    {
        self.stack.pop()
    }

    /// Adds the name that a declarator declares, if it does, behind specifiers that say whether it is one of a type.
    pub fn bind(&mut self, declared: &Declared, specified: &Specified) -> Result<(), AllocError>
        ensures names { (d : Declarator) → declared.now.name ≡ number_of (declared_name d)
            → IfOk result (λ _. self.new.scope.names
            ≡ with_declarator specified.now.typedef d self.old.scope.names) }
        ensures outside { IfOk result (λ _. self.new.scope.outside ≡ self.old.scope.outside) }
        ensures stack { frames_of self.new ≡ frames_of self.old }
        ensures rest { self.new.rest ≡ self.old.rest }
    {
        if let Some(number) = declared.name {
            self.scope.bind(number, specified.typedef)?;
        }
        Ok(())
    }
}
