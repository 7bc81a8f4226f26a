// Names in the order in which they came into scope, with the place of the latest of each.

ghost use Rattle.std.specs.Prelude.{◌≡◌, ◌-◌, ◌++◌, [], ◌∷◌, length, nat_eq, reverse, take, IsSome, OnErr, OnOk};
ghost use Rattle.indexmap.specs.IndexMap.{get, Updates};
ghost use Rattle.dae_names.specs.Latest.{latest_of};

use indexmap::IndexMap;
use std::alloc::{AllocError, Global};
use std::marker::Model;

/// A name by its number, and the place of the one that it hides: the latest of this number before it.
#[derive(Clone, Copy)]
struct IndexedName {
    name: u32,
    hidden: Option<usize>,
}

/// Names in the order in which they came into scope. Clauses see their numbers.
#[derive(Drop)]
pub struct NameIndex {
    entries: Vec<IndexedName>,
    latest: IndexMap<u32, usize>,
}

impl Model for NameIndex {
    ghost use Rattle.std.specs.Prelude.{ℕ, List};
    ghost use Rattle.dae_names.specs.Entries.{names_of, IsIndexed};

    ghost Value = { List ℕ };

    ghost view = { λ index. names_of index.entries.items };

    ghost invariant = { λ index. IsIndexed index.entries.items index.latest };
}

/// An entry is gone: the name that it hid is the latest again.
fn show_hidden(latest: &mut IndexMap<u32, usize>, entry: IndexedName)
    requires { IsSome (get nat_eq latest.old entry.name) }
    ensures { Updates nat_eq latest.old latest.new entry.name entry.hidden }
{
    match entry.hidden {
        Some(at) => match latest.insert(entry.name, at) {
            Ok(_) => {}
            Err(_) => {}
        },
        None => {
            latest.swap_remove(&entry.name);
        }
    }
}

impl NameIndex {
    /// No names. It takes no memory.
    pub fn new(alloc: Global) -> NameIndex
        ensures { result ≡ [] }
    {
        let entries = Vec::new(alloc);
        let latest = IndexMap::new(alloc);
        NameIndex { entries, latest }
    }

    /// How many names there are.
    pub fn len(&self) -> usize
        ensures { result ≡ length self.now }
    {
        self.entries.len()
    }

    /// Where the latest of these names stands that is this one, if one is.
    pub fn latest(&self, name: u32) -> Option<usize>
        ensures { result ≡ latest_of (reverse self.now) name }
    {
        self.latest.get(&name).copied()
    }

    /// A name comes into scope, and hides the one of its number that is.
    pub fn push(&mut self, name: u32) -> Result<(), AllocError>
        ensures pushed { OnOk result (self.new ≡ self.old ++ name ∷ []) }
        ensures kept { OnErr result (self.new ≡ self.old) }
    {
        let at = self.entries.len();
        let hidden = self.latest.get(&name).copied();
        self.entries.push(IndexedName { name, hidden })?;
        match self.latest.insert(name, at) {
            Ok(_) => Ok(()),
            Err(_) => {
                self.entries.pop();
                Err(AllocError)
            }
        }
    }

    /// The last name goes out of scope, where there is one.
    fn pop(&mut self)
        ensures { self.new ≡ take (length self.old - 1) self.old }
    {
        if let Some(entry) = self.entries.pop() {
            show_hidden(&mut self.latest, entry);
        }
    }

    /// The names behind the first so many go out of scope.
    pub fn truncate(&mut self, count: usize)
        ensures { self.new ≡ take count self.old }
    {
        let mut left = self.len();
        while left > count {
            left -= 1;
            self.pop();
        }
    }
}
