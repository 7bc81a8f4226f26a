// What tells objects and functions of several files apart.

ghost use Rattle.dae_unit.specs.Identities.{IsIdentity};

use crate::linkage::external_name;
use dae_types_kinds::Entity;
use dae_types_typed::TypedFile;

/// What stands for an object or a function of a file: the name by which other files know it; where they know it by none, its
/// file and its number there.
#[derive(Clone, Copy, PartialEq, Eq, Hash)]
pub enum Identity<'f> {
    Named(&'f [u8]),
    Object(usize, usize),
    Function(usize, usize),
}

/// What stands for an object or a function of a file, and nothing for what is neither.
pub fn identity_of(files: &[TypedFile], file: usize, entity: Entity) -> Option<Identity<'_>>
    ensures { IsIdentity files.now file entity result }
{
    match external_name(files, file, entity) {
        Some(name) => Some(Identity::Named(name)),
        None => match entity {
            Entity::Object(number) => Some(Identity::Object(file, number)),
            Entity::Function(number) => Some(Identity::Function(file, number)),
            Entity::Local(_) | Entity::Type(_) | Entity::Enumerator(_) => None,
        },
    }
}
