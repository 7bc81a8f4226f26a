// What names stand for in scopes that open and close, the innermost first. An index of the names tells where the latest
// binding of each is, so that a look-up takes the same time however many there are.

ghost use Rattle.std.specs.Prelude.{◌≡◌, ◌∷◌, [], IfOk};
ghost use Rattle.dae_parse_parts.specs.Scopes.{bound_to, bound, opened, closed, innermost};
ghost use Rattle.dae_parse_parts.specs.ShownNames.{bound_all};

use dae_names::NameIndex;
use std::alloc::{AllocError, Global};
use std::marker::Model;

/// A name in scope, by its number, and what it is bound to.
#[derive(Clone, Copy)]
pub struct Binding<B> {
    pub name: u32,
    pub bound: B,
}

/// The names in scope. Clauses see them with what each is bound to, the latest first, and the lists that the open scopes
/// go back to when they close, the innermost first.
#[derive(Drop)]
pub struct Scope<B> {
    bindings: Vec<Binding<B>>,
    index: NameIndex,
    starts: Vec<usize>,
}

impl<B> Model for Scope<B> {
    ghost use Rattle.dae_parse_parts.specs.Scopes.{Scopes};
    ghost use Rattle.dae_parse_parts.specs.ShownNames.{shown, shown_outside, IsScope};

    ghost Value = { Scopes B };

    ghost view = { λ s.
        record {
          names = shown s.bindings.items;
          outside = shown_outside s.bindings.items s.starts.items;
        } };

    ghost invariant = { λ s. IsScope s.bindings.items s.index s.starts.items };
}

impl<B: Copy> Scope<B> {
    /// No names.
    pub fn new(alloc: Global) -> Scope<B>
        ensures { result ≡ record { names = []; outside = [] } }
    {
        let bindings = Vec::new(alloc);
        let index = NameIndex::new(alloc);
        let starts = Vec::new(alloc);
        Scope {
            bindings,
            index,
            starts,
        }
    }

    /// Adds a name.
    pub fn bind(&mut self, name: u32, to: B) -> Result<(), AllocError>
        ensures { IfOk result (λ _. self.new ≡ bound name to self.old) }
    {
        self.bindings.push(Binding { name, bound: to })?;
        match self.index.push(name) {
            Ok(()) => Ok(()),
            Err(e) => {
                self.bindings.pop();
                Err(e)
            }
        }
    }

    /// Adds names, each behind the one before.
    pub fn bind_all(&mut self, bindings: &[Binding<B>]) -> Result<(), AllocError>
        ensures { IfOk result
            (λ _. self.new
            ≡ record {
              names = bound_all bindings.now self.old.names;
              outside = self.old.outside;
            }) }
    {
        for binding in bindings {
            self.bind(binding.name, binding.bound)?;
        }
        Ok(())
    }

    /// The names of the innermost scope that is open, or of the whole, in their order.
    pub fn inner(&self, alloc: Global) -> Result<Vec<Binding<B>>, AllocError>
        ensures { IfOk result
            (λ inner. self.now.names ≡ bound_all inner.items (innermost self.now.outside)) }
    {
        let start = self.starts.last().copied().unwrap_or(0);
        let mut inner = Vec::new(alloc);
        inner.extend_from_slice(&self.bindings[start..])?;
        Ok(inner)
    }

    /// Opens a scope.
    pub fn open(&mut self) -> Result<(), AllocError>
        ensures { IfOk result (λ _. self.new ≡ opened self.old) }
    {
        self.starts.push(self.bindings.len())?;
        Ok(())
    }

    /// Closes the innermost scope, if one is open: its names are forgotten.
    pub fn close(&mut self)
        ensures { self.new ≡ closed self.old }
    {
        if let Some(start) = self.starts.pop() {
            self.bindings.truncate(start);
            self.index.truncate(start);
        }
    }

    /// What a name is bound to, by its latest binding.
    pub fn find(&self, name: u32) -> Option<B>
        ensures { result ≡ bound_to self.now.names name }
    {
        match self.index.latest(name) {
            Some(at) => {
                let binding = self.bindings[at];
                Some(binding.bound)
            }
            None => None,
        }
    }
}
