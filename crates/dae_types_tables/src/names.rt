// The names in scope, with what each stands for, and an index of them, so that a look-up takes the same time however many
// there are.

ghost use Rattle.std.specs.Prelude.{◌≡◌, ◌≤◌, ◌++◌, [], ◌∷◌, drop, find, length, reverse, take, IfOk, OnOk};
ghost use Rattle.dae_types_kinds.specs.Tables.{entity_of, is_named};

use dae_names::NameIndex;
use dae_types_kinds::{Designation, Entity};
use std::alloc::{AllocError, Global};
use std::marker::Model;

/// The names in scope and what each stands for, in the order of the text. Clauses see that list.
#[derive(Drop)]
pub struct NameTable {
    rows: Vec<Designation>,
    index: NameIndex,
}

impl Model for NameTable {
    ghost use Rattle.std.specs.Prelude.{◌≡◌, List};
    ghost use Rattle.dae_types_kinds.specs.declared.tables.Designation.{Designation};
    ghost use Rattle.dae_types_tables.specs.Named.{numbers_of};

    ghost Value = { List Designation };

    ghost view = { λ names. names.rows.items };

    ghost invariant = { λ names. names.index ≡ numbers_of names.rows.items };
}

/// What a name stands for by the first of these rows from a place on that has it. It costs a step for each row before.
fn first_entity(rows: &[Designation], start: usize, name: u32) -> Option<Entity>
    ensures { result ≡ entity_of (find (is_named name) (drop start rows.now)) }
{
    match rows.iter().skip(start).find(|row| row.name == name) {
        Some(row) => Some(row.entity),
        None => None,
    }
}

impl NameTable {
    /// No names. It takes no memory.
    pub fn new(alloc: Global) -> NameTable
        ensures { result ≡ [] }
    {
        let rows = Vec::new(alloc);
        let index = NameIndex::new(alloc);
        NameTable { rows, index }
    }

    /// How many names there are.
    pub fn len(&self) -> usize
        ensures { result ≡ length self.now }
    {
        self.rows.len()
    }

    /// What a name stands for by its latest row.
    pub fn latest(&self, name: u32) -> Option<Entity>
        ensures { result ≡ entity_of (find (is_named name) (reverse self.now)) }
    {
        match self.index.latest(name) {
            Some(at) => Some(self.rows[at].entity),
            None => None,
        }
    }

    /// What a name stands for by its first row from a place on.
    pub fn first_from(&self, start: usize, name: u32) -> Option<Entity>
        ensures { result ≡ entity_of (find (is_named name) (drop start self.now)) }
    {
        match self.index.latest(name) {
            Some(at) => {
                if at < start {
                    return None;
                }
                first_entity(self.rows.as_slice(), start, name)
            }
            None => None,
        }
    }

    /// A name comes into scope.
    pub fn push(&mut self, row: Designation) -> Result<(), AllocError>
        ensures { OnOk result (self.new ≡ self.old ++ row ∷ []) }
    {
        self.rows.push(row)?;
        match self.index.push(row.name) {
            Ok(()) => Ok(()),
            Err(e) => {
                self.rows.pop();
                Err(e)
            }
        }
    }

    /// Names come into scope, each behind the one before.
    pub fn push_all(&mut self, rows: &[Designation]) -> Result<(), AllocError>
        ensures { OnOk result (self.new ≡ self.old ++ rows.now) }
    {
        for row in rows {
            self.push(*row)?;
        }
        Ok(())
    }

    /// The names behind the first so many go out of scope, and are given.
    pub fn split_off(&mut self, count: usize) -> Result<Vec<Designation>, AllocError>
        requires { count ≤ length self.old }
        ensures front { OnOk result (self.new ≡ take count self.old) }
        ensures rest { IfOk result (λ rest. rest.items ≡ drop count self.old) }
    {
        let rest = self.rows.split_off(count)?;
        self.index.truncate(count);
        Ok(rest)
    }
}
