// Whether the types and structures of a file are laid out soundly.

ghost use Rattle.std.specs.Prelude.{◌≡◌, length};
ghost use Rattle.std.specs.List.{list_all};
ghost use Rattle.dae_types_kinds.specs.Types.{finished, layout, placed, rounded};
ghost use Rattle.dae_types_typed.specs.Sound.{has_complete_type, laid_out, members_of, tables_of};
ghost use Rattle.dae_types_sound.specs.Shapes.{are_laid_out, are_sound_shapes, is_laid_out, is_sound_shape, same_layout, by_members};

use dae_types_kinds::{Layout, Shape, layout_with};
use dae_types_typed::FileParts;

fn is_sound_shape(parts: &FileParts, number: usize, shape: Shape) -> bool
    ensures { result ≡ is_sound_shape (tables_of parts.now) number shape }
{
    match shape {
        Shape::Array(element, _) => element < number && parts.is_complete(element),
        Shape::Parameter(before, _) => before < number,
        _ => true,
    }
}

/// Whether each array and each list of parameters stands behind what it is made of.
pub fn are_sound_shapes(parts: &FileParts) -> bool
    ensures { result ≡ are_sound_shapes (tables_of parts.now) 0 parts.now.shapes }
{
    for (number, shape) in parts.shapes.as_slice().iter().enumerate() {
        if !is_sound_shape(parts, number, *shape) {
            return false;
        }
    }
    true
}

/// Whether all members of structures have complete types.
pub fn are_complete_members(parts: &FileParts) -> bool
    ensures { result ≡ list_all (has_complete_type (tables_of parts.now)) parts.now.components }
{
    for component in parts.components.as_slice() {
        if !parts.is_complete(component.type_id) {
            return false;
        }
    }
    true
}

fn rounded(size: u32, to: u32) -> u32
    ensures { result ≡ rounded size to }
{
    if to == 0 {
        return size;
    }
    size.saturating_add(to - 1) / to * to
}

fn placed(l: Layout, member: Layout) -> Layout
    ensures { result ≡ placed l member }
{
    let size = rounded(l.size, member.align).saturating_add(member.size);
    layout_with(size, l.align.max(member.align))
}

fn finished(l: Layout) -> Layout
    ensures { result ≡ finished l }
{
    layout_with(rounded(l.size, l.align), l.align)
}

/// The layout that the members of a structure say. It looks at all members of the file.
fn laid_out(parts: &FileParts, structure: usize) -> Layout
    ensures { result ≡ by_members (tables_of parts.now) structure }
{
    let mut l = layout_with(0, 1);
    for component in parts.components.as_slice() {
        if component.structure == structure {
            l = placed(l, parts.layout_at(component.type_id));
        }
    }
    finished(l)
}

fn same_layout(l: Layout, m: Layout) -> bool
    ensures { result ≡ same_layout l m }
{
    l.size == m.size && l.align == m.align
}

fn is_laid_out(parts: &FileParts, structure: usize, l: Option<Layout>) -> bool
    ensures { result ≡ is_laid_out (tables_of parts.now) structure l }
{
    match l {
        Some(l) => same_layout(l, laid_out(parts, structure)),
        None => true,
    }
}

/// Whether each complete structure is laid out as its members say.
pub fn are_laid_out(parts: &FileParts) -> bool
    ensures { result ≡ are_laid_out (tables_of parts.now) 0 parts.now.structures }
{
    for (number, structure) in parts.structures.as_slice().iter().enumerate() {
        if !is_laid_out(parts, number, structure.layout) {
            return false;
        }
    }
    true
}
