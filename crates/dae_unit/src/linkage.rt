// Names that several files share.

ghost use Rattle.std.specs.Prelude.{◌≡◌, slice_get, option_copied};
ghost use Rattle.dae_types_typed.specs.Linkage.{name_in, object_name, routine_name, same_name};
ghost use Rattle.dae_unit.specs.Linkage.{external_name, declares_same, defines, refers};

use crate::rows::FileRow;
use dae_types_file_plans::Role;
use dae_types_kinds::Entity;
use dae_types_typed::{FileParts, TypedFile, same_entity};

/// Whether a declaration is a definition.
pub fn defines(row: FileRow) -> bool
    ensures { result ≡ defines row }
{
    match row.declaration.role {
        Role::Definition => true,
        Role::Reference | Role::Tentative => false,
    }
}

/// Whether a declaration is a mere reference.
pub fn refers(row: FileRow) -> bool
    ensures { result ≡ refers row }
{
    match row.declaration.role {
        Role::Reference => true,
        Role::Tentative | Role::Definition => false,
    }
}

fn object_name(parts: &FileParts, number: usize) -> Option<&[u8]>
    ensures { option_copied result ≡ object_name parts.now (slice_get parts.now.objects number) }
{
    match parts.objects.as_slice().get(number) {
        Some(object) => {
            if object.own {
                None
            } else {
                parts.name_at(object.name)
            }
        }
        None => None,
    }
}

fn routine_name(parts: &FileParts, number: usize) -> Option<&[u8]>
    ensures { option_copied result ≡ routine_name parts.now (slice_get parts.now.routines number) }
{
    match parts.routines.as_slice().get(number) {
        Some(routine) => {
            if routine.own || routine.library.is_some() {
                None
            } else {
                parts.name_at(routine.name)
            }
        }
        None => None,
    }
}

fn name_in(parts: &FileParts, entity: Entity) -> Option<&[u8]>
    ensures { option_copied result ≡ name_in parts.now entity }
{
    match entity {
        Entity::Object(number) => object_name(parts, number),
        Entity::Function(number) => routine_name(parts, number),
        Entity::Local(_) => None,
        Entity::Type(_) => None,
        Entity::Enumerator(_) => None,
    }
}

/// The name by which other files know an object or a function of a file, where they do.
#[tactic(auto, unfolding(crate::specs::Linkage::external_name))]
pub fn external_name(files: &[TypedFile], file: usize, entity: Entity) -> Option<&[u8]>
    ensures { option_copied result ≡ external_name files.now file entity }
{
    match files.get(file) {
        Some(file) => name_in(file.parts(), entity),
        None => None,
    }
}

/// Whether two external names are there and the same.
pub fn same_name(left: Option<&[u8]>, right: Option<&[u8]>) -> bool
    ensures { result ≡ same_name (option_copied left.entry) (option_copied right.entry) }
{
    match (left, right) {
        (Some(left), Some(right)) => left == right,
        _ => false,
    }
}

/// Whether two rows declare one object or function of one file.
pub fn declares_same(x: FileRow, y: FileRow) -> bool
    ensures { result ≡ declares_same x y }
{
    x.file == y.file && same_entity(x.declaration.entity, y.declaration.entity)
}
