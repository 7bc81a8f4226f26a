//! The macros that are defined so far.

ghost use Rattle.std.specs.Prelude.{◌≡◌, ◌<◌, ◌^◌, ◌++◌, [], ◌∷◌, None, nat_eq, length, option_map, IfSome, OnOk, IfErr};
ghost use Rattle.std.specs.Map.{lookup};
ghost use Rattle.dae_tree.specs.declared.faults.LexError.TheVariants.{Memory};

use crate::numbers::NumberedPiece;
use dae_tree::LexError;
use indexmap::IndexMap;
use std::alloc::Global;

/// A macro: its name, and what it is replaced by.
#[derive(Drop)]
pub struct Macro<'j> {
    pub name: &'j [u8],
    pub body: Vec<NumberedPiece<'j>>,
}

/// The macros of a text, by the numbers of their names, in the order of their definitions.
#[derive(Drop)]
pub struct Macros<'j> {
    pub bodies: IndexMap<usize, Macro<'j>>,
}

impl<'j> Macros<'j> {
    /// No macros.
    pub fn new(alloc: Global) -> Macros<'j>
        ensures { result.bodies.entries ≡ [] }
    {
        Macros {
            bodies: IndexMap::new(alloc),
        }
    }

    /// What the macro is replaced by whose name has this number.
    pub fn find<'m>(&'m self, number: usize) -> Option<&'m [NumberedPiece<'j>]>
        ensures body { option_map (λ body. body.now) result
            ≡ option_map (λ m. m.body.items) (lookup (nat_eq number) self.now.bodies.entries) }
        ensures small { IfSome result (λ body. length body.now < 2 ^ 64) }
    {
        match self.bodies.get(&number) {
            Some(found) => Some(found.body.as_slice()),
            None => None,
        }
    }

    /// Adds a macro whose name has no definition yet.
    pub fn define(&mut self, number: usize, new: Macro<'j>) -> Result<(), LexError>
        requires { lookup (nat_eq number) self.old.bodies.entries ≡ None }
        ensures ok { OnOk result
            (self.new.bodies.entries ≡ self.old.bodies.entries ++ (number, new.entry) ∷ []) }
        ensures err { IfErr result (λ e. e ≡ Memory) }
    {
        match self.bodies.insert(number, new) {
            Ok(_) => Ok(()),
            Err(_) => Err(LexError::Memory),
        }
    }
}
