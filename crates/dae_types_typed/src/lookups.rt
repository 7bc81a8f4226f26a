// What a file says of its types, objects and functions, by their numbers.

ghost use Rattle.std.specs.Prelude.{◌≡◌, option_copied, slice_get};
ghost use Rattle.dae_types_kinds.specs.Types.{is_complete, layout, layout_at, layout_of, layout_within, repeated, shape_of};
ghost use Rattle.dae_types_typed.specs.Linkage.{is_function, is_object, type_in};
ghost use Rattle.dae_types_typed.specs.Sound.{same_entity, tables_of};

use crate::files::FileParts;
use dae_types_kinds::{Entity, INT_ID, Layout, Shape, VOID_ID, layout_with};

fn repeated(count: Option<u32>, element: Layout) -> Layout
    ensures { result ≡ repeated count element }
{
    match count {
        Some(count) => layout_with(element.size.saturating_mul(count), element.align),
        None => layout_with(0, element.align),
    }
}

/// Whether two are the same object or the same function.
pub fn same_entity(left: Entity, right: Entity) -> bool
    ensures { result ≡ same_entity left right }
{
    match (left, right) {
        (Entity::Object(left), Entity::Object(right)) => left == right,
        (Entity::Function(left), Entity::Function(right)) => left == right,
        _ => false,
    }
}

/// Whether it is an object.
pub fn is_object(entity: Entity) -> bool
    ensures { result ≡ is_object entity }
{
    match entity {
        Entity::Object(_) => true,
        _ => false,
    }
}

/// Whether it is a function.
pub fn is_function(entity: Entity) -> bool
    ensures { result ≡ is_function entity }
{
    match entity {
        Entity::Function(_) => true,
        _ => false,
    }
}

impl FileParts {
    /// The shape of a type; of a number that is no type's, void.
    #[tactic(auto, unfolding(dae_types_kinds::specs::Types::shape_of))]
    pub fn shape_of(&self, type_id: usize) -> Shape
        ensures { result ≡ shape_of (tables_of self.now) type_id }
    {
        match self.shapes.as_slice().get(type_id) {
            Some(shape) => *shape,
            None => Shape::Void,
        }
    }

    /// The layout of a structure, where it is complete.
    #[tactic(auto, unfolding(dae_types_kinds::specs::Types::layout_of))]
    pub fn layout_of(&self, structure: usize) -> Option<Layout>
        ensures { result ≡ layout_of (tables_of self.now) structure }
    {
        match self.structures.as_slice().get(structure) {
            Some(structure) => structure.layout,
            None => None,
        }
    }

    fn layout_within(&self, depth: usize, type_id: usize) -> Layout
        ensures { result ≡ layout_within depth (tables_of self.now) type_id }
    {
        if depth == 0 {
            return layout_with(0, 1);
        }
        match self.shape_of(type_id) {
            Shape::Void => layout_with(0, 1),
            Shape::Char | Shape::SignedChar | Shape::UnsignedChar => layout_with(1, 1),
            Shape::Short | Shape::UnsignedShort => layout_with(2, 2),
            Shape::Array(element, count) => repeated(count, self.layout_within(depth - 1, element)),
            Shape::Struct(structure) => match self.layout_of(structure) {
                Some(layout) => layout,
                None => layout_with(0, 1),
            },
            _ => layout_with(4, 4),
        }
    }

    /// The bytes and the alignment of a type (C90 6.5.2.1); of what has none, 0 and 1.
    #[tactic(auto, unfolding(dae_types_kinds::specs::Types::layout_at))]
    pub fn layout_at(&self, type_id: usize) -> Layout
        ensures { result ≡ layout_at (tables_of self.now) type_id }
    {
        self.layout_within(self.shapes.len(), type_id)
    }

    /// Whether a type is complete (C90 6.1.2.5).
    pub fn is_complete(&self, type_id: usize) -> bool
        ensures { result ≡ is_complete (tables_of self.now) type_id }
    {
        match self.shape_of(type_id) {
            Shape::Void => false,
            Shape::Array(_, count) => count.is_some(),
            Shape::Struct(structure) => self.layout_of(structure).is_some(),
            Shape::Function(_, _) => false,
            _ => true,
        }
    }

    /// The type that the file gives an object or a function, at its end.
    pub fn type_in(&self, entity: Entity) -> usize
        ensures { result ≡ type_in self.now entity }
    {
        match entity {
            Entity::Object(number) => match self.objects.as_slice().get(number) {
                Some(object) => object.type_id,
                None => INT_ID,
            },
            Entity::Function(number) => match self.routines.as_slice().get(number) {
                Some(routine) => routine.type_id,
                None => VOID_ID,
            },
            Entity::Local(_) => VOID_ID,
            Entity::Type(_) => VOID_ID,
            Entity::Enumerator(_) => VOID_ID,
        }
    }

    /// The bytes of a name, by its number.
    pub fn name_at(&self, number: u32) -> Option<&[u8]>
        ensures { option_copied result ≡ slice_get self.now.names number }
    {
        match self.names.as_slice().get(number as usize) {
            Some(bytes) => Some(bytes.as_slice()),
            None => None,
        }
    }
}
