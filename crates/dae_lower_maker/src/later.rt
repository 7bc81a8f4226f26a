// The variables that what is still to come of an expression assigns.

ghost use Rattle.std.specs.Prelude.{◌≡◌, ◌+◌, ◌<◌, IfOk, IfSome, None, length, slice_index};
ghost use Rattle.dae_lower_maker.specs.Counting.{Changes, counts_of, is_counted, never, once};
ghost use Rattle.dae_lower_maker.specs.declared.later.Change.TheVariants.{Add, Remove};

use std::alloc::{AllocError, Global};

/// The variables that what is still to come of an expression assigns, each as often as it is assigned.
#[derive(Drop)]
pub struct Later {
    assigned: Vec<u32>,
}

/// Whether assignments are added or removed.
#[derive(Clone, Copy)]
pub enum Change {
    Add,
    Remove,
}

impl Later {
    /// Nothing is to come.
    pub fn new(alloc: Global) -> Later
        ensures { counts_of result ≡ never }
    {
        Later {
            assigned: Vec::new(alloc),
        }
    }

    /// Where a variable stands among those that are assigned.
    fn position(&self, v: u32) -> Option<usize>
        ensures found { IfSome result (λ index. (index < length self.now.assigned.items)
            × (slice_index self.now.assigned.items index ≡ v)) }
        ensures none { result ≡ None → counts_of self.now v ≡ 0 }
    {
        for (index, assigned) in self.assigned.iter().enumerate() {
            if *assigned == v {
                return Some(index);
            }
        }
        None
    }

    /// Whether a variable is assigned.
    pub fn has(&self, v: u32) -> bool
        ensures { result ≡ is_counted (counts_of self.now) v }
    {
        match self.position(v) {
            Some(_) => true,
            None => false,
        }
    }

    fn add(&mut self, v: u32) -> Result<(), AllocError>
        ensures { IfOk result
            (λ x. Changes Add (once v) (counts_of self.old) (counts_of self.new)) }
    {
        self.assigned.push(v)?;
        Ok(())
    }

    fn remove(&mut self, v: u32)
        ensures { Changes Remove (once v) (counts_of self.old) (counts_of self.new) }
    {
        if let Some(index) = self.position(v) {
            self.assigned.remove(index);
        }
    }

    /// Adds an assignment to a variable, or removes one.
    pub fn change(&mut self, v: u32, change: Change) -> Result<(), AllocError>
        ensures { IfOk result
            (λ x. Changes change (once v) (counts_of self.old) (counts_of self.new)) }
    {
        match change {
            Change::Add => {
                self.add(v)?;
                Ok(())
            }
            Change::Remove => {
                self.remove(v);
                Ok(())
            }
        }
    }
}
