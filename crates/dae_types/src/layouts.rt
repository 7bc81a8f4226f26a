// The sizes and alignments of a typed file's types, and the members of its structures.

ghost use Rattle.std.specs.Prelude.{◌≡◌};
ghost use Rattle.dae_types_kinds.specs.Types.{layout};
ghost use Rattle.dae_types_typed.specs.Sound.{members_of, tables_of};
ghost use Rattle.dae_types.specs.Layouts.{align_of_type, is_sized, member_behind, member_of_type, size_of_type};

use dae_types_kinds::{Layout, Shape};
use dae_types_tables::{place_member, round_up};
use dae_types_typed::{FileParts, TypedFile};

/// Whether a type is a complete object type (C90 6.1.2.5).
fn is_sized(parts: &FileParts, type_id: usize) -> bool
    ensures { result ≡ is_sized (tables_of parts.now) type_id }
{
    match parts.shape_of(type_id) {
        Shape::NoParameters | Shape::Parameter(_, _) => false,
        _ => parts.is_complete(type_id),
    }
}

/// The size of a type in bytes (C90 6.3.3.4), by the type's number. `None` where it is no complete object type of the file.
pub fn size_of(file: &TypedFile, type_id: usize) -> Option<u32>
    ensures { result ≡ size_of_type (tables_of file.now) type_id }
{
    let parts = file.parts();
    if is_sized(parts, type_id) {
        Some(parts.layout_at(type_id).size)
    } else {
        None
    }
}

/// The alignment of a type in bytes (C90 3.1), by the type's number. `None` where it is no complete object type of the file.
pub fn align_of(file: &TypedFile, type_id: usize) -> Option<u32>
    ensures { result ≡ align_of_type (tables_of file.now) type_id }
{
    let parts = file.parts();
    if is_sized(parts, type_id) {
        Some(parts.layout_at(type_id).align)
    } else {
        None
    }
}

/// The offset and the type of the member of this name in a structure. It looks at all members of the file.
fn member_in_structure(parts: &FileParts, structure: usize, name: u32) -> Option<(u32, usize)>
    ensures { let s = tables_of parts.now in
        result ≡ member_behind s (layout 0 1) (members_of s structure) name }
{
    let mut before = Layout { size: 0, align: 1 };
    for component in parts.components.as_slice() {
        if component.structure == structure {
            let own = parts.layout_at(component.type_id);
            if component.name == name {
                return Some((round_up(before.size, own.align), component.type_id));
            }
            before = place_member(before, own);
        }
    }
    None
}

/// The offset in bytes and the type of a member of a structure (C90 6.5.2.1), by the numbers of the structure's type and of
/// the member's name. `None` where the type is no structure of the file, or has no such member.
pub fn member(file: &TypedFile, type_id: usize, name: u32) -> Option<(u32, usize)>
    ensures { result ≡ member_of_type (tables_of file.now) type_id name }
{
    let parts = file.parts();
    match parts.shape_of(type_id) {
        Shape::Struct(structure) => member_in_structure(parts, structure, name),
        _ => None,
    }
}
