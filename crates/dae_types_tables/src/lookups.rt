// What the tables say of a number, a name, a tag or a member.

ghost use Rattle.std.specs.Prelude.{◌≡◌, slice_get, length};
ghost use Rattle.dae_types_kinds.specs.Tables.{found_name, found_tag, own_entity, own_name, own_tag, found_component};
ghost use Rattle.dae_types_kinds.specs.Types.{shape_of, layout_of, is_complete};
ghost use Rattle.dae_types_kinds.specs.Values.{literal_size};
ghost use Rattle.dae_types_tables.specs.Seen.{tables, literal_or_none};

use crate::Checker;
use dae_types_kinds::{
    Component, Entity, Layout, Local, Routine, Shape, StaticObject, Storage, Structure, Tagged,
    word_behind, word_for,
};

impl Checker {
    /// The shape of a type; past the end of the list, void.
    #[tactic(auto, unfolding(dae_types_kinds::specs::Types::shape_of))]
    pub fn shape_of(&self, id: usize) -> Shape
        ensures { result ≡ shape_of (tables self.now) id }
    {
        match self.shapes.get(id) {
            Some(shape) => *shape,
            None => Shape::Void,
        }
    }

    /// A structure, by its number.
    pub fn structure(&self, number: usize) -> Option<Structure>
        ensures { result ≡ slice_get (tables self.now).structures number }
    {
        self.structures.get(number).copied()
    }

    /// The layout of a structure, where it is complete.
    #[tactic(auto, unfolding(dae_types_kinds::specs::Types::layout_of))]
    pub fn layout_of(&self, structure: usize) -> Option<Layout>
        ensures { result ≡ layout_of (tables self.now) structure }
    {
        match self.structures.get(structure) {
            Some(found) => found.layout,
            None => None,
        }
    }

    /// Whether the size of a type is known (C90 6.1.2.5).
    pub fn is_complete(&self, id: usize) -> bool
        ensures { result ≡ is_complete (tables self.now) id }
    {
        match self.shape_of(id) {
            Shape::Void | Shape::Function(_, _) => false,
            Shape::Array(_, count) => count.is_some(),
            Shape::Struct(structure) => self.layout_of(structure).is_some(),
            _ => true,
        }
    }

    /// What a name stands for, by its latest declaration in scope (C90 6.1.2.1).
    #[tactic(auto, unfolding(dae_types_kinds::specs::Tables::found_name))]
    pub fn found_name(&self, name: u32) -> Option<Entity>
        ensures { result ≡ found_name (tables self.now) name }
    {
        self.names.latest(name)
    }

    /// What a tag stands for, by its latest declaration in scope.
    #[tactic(auto, unfolding(dae_types_kinds::specs::Tables::found_tag))]
    pub fn found_tag(&self, name: u32) -> Option<Tagged>
        ensures { result ≡ found_tag (tables self.now) name }
    {
        match self.tags.iter().rev().find(|row| row.name == name) {
            Some(row) => Some(row.tagged),
            None => None,
        }
    }

    /// What a name stands for in the innermost scope.
    #[tactic(auto, unfolding(dae_types_kinds::specs::Tables::own_entity))]
    pub fn own_entity(&self, name: u32) -> Option<Entity>
        ensures { result ≡ own_entity (tables self.now) name }
    {
        self.names.first_from(self.innermost.names, name)
    }

    /// Whether the innermost scope declares a name.
    pub fn own_name(&self, name: u32) -> bool
        ensures { result ≡ own_name (tables self.now) name }
    {
        self.own_entity(name).is_some()
    }

    /// What a tag stands for in the innermost scope.
    #[tactic(auto, unfolding(dae_types_kinds::specs::Tables::own_tag))]
    pub fn own_tag(&self, name: u32) -> Option<Tagged>
        ensures { result ≡ own_tag (tables self.now) name }
    {
        let start = self.innermost.tags;
        match self.tags.iter().skip(start).find(|row| row.name == name) {
            Some(row) => Some(row.tagged),
            None => None,
        }
    }

    /// The member of this name in a structure.
    #[tactic(auto, unfolding(dae_types_kinds::specs::Tables::found_component))]
    pub fn found_component(&self, structure: usize, name: u32) -> Option<Component>
        ensures { result ≡ found_component (tables self.now) structure name }
    {
        for component in &self.components {
            if component.name == name && component.structure == structure {
                return Some(*component);
            }
        }
        None
    }

    /// An object of the file, by its number.
    pub fn object(&self, number: usize) -> Option<StaticObject>
        ensures { result ≡ slice_get (tables self.now).objects number }
    {
        self.objects.get(number).copied()
    }

    /// A function, by its number.
    pub fn routine(&self, number: usize) -> Option<Routine>
        ensures { result ≡ slice_get (tables self.now).routines number }
    {
        self.routines.get(number).copied()
    }

    /// A parameter or local object, by its number.
    pub fn local(&self, number: usize) -> Option<Local>
        ensures { result ≡ slice_get (tables self.now).locals number }
    {
        self.locals.get(number).copied()
    }

    /// Where a parameter or local object is kept, as far as that is settled.
    pub fn storage(&self, number: usize) -> Option<Storage>
        ensures { result ≡ slice_get (tables self.now).storages number }
    {
        self.storages.get(number).copied()
    }

    /// The number of shapes so far.
    pub fn count_shapes(&self) -> usize
        ensures { result ≡ length (tables self.now).shapes }
    {
        self.shapes.len()
    }

    /// The members of all structures so far.
    pub fn components(&self) -> &[Component]
        ensures { result.now ≡ (tables self.now).components }
    {
        self.components.as_slice()
    }

    /// The parameters and local objects so far.
    pub fn locals(&self) -> &[Local]
        ensures { result.now ≡ (tables self.now).locals }
    {
        self.locals.as_slice()
    }

    /// The number of parameters and local objects so far.
    pub fn count_locals(&self) -> usize
        ensures { result ≡ length (tables self.now).locals }
    {
        self.locals.len()
    }

    /// The number of literals.
    pub fn count_literals(&self) -> usize
        ensures { result ≡ length (tables self.now).literals }
    {
        self.literals.len()
    }

    /// The bytes of a literal without the zero byte at its end; past the end of the list, none.
    pub fn literal(&self, number: usize) -> &[u8]
        ensures { result.now ≡ literal_or_none (slice_get (tables self.now).literals number) }
    {
        match self.literals.as_slice().get(number) {
            Some(bytes) => bytes.as_slice(),
            None => &[],
        }
    }

    /// The number of bytes of a literal with the zero byte at its end.
    pub fn literal_size(&self, number: usize) -> u32
        ensures { result ≡ literal_size (slice_get (tables self.now).literals number) }
    {
        match self.literals.as_slice().get(number) {
            Some(bytes) => word_behind(word_for(bytes.len())),
            None => 1,
        }
    }

    /// The number of the name main, where a name is main.
    pub fn main(&self) -> Option<u32>
        ensures { result ≡ (tables self.now).main }
    {
        self.main
    }
}
