// What a file declares at file scope, declaration by declaration.

use dae_base::Place;
use dae_types_kinds::Entity;

/// What a declaration at file scope is for an object or a function (C90 6.7.2): it only refers to it, it defines it where
/// nothing else does, or it defines it, by an initialiser or a body.
#[derive(Clone, Copy)]
pub enum Role {
    Reference,
    Tentative,
    Definition,
}

/// A declaration of an object or a function at file scope, with the place of its name.
#[derive(Clone, Copy)]
pub struct FileDeclaration {
    pub entity: Entity,
    pub place: Place,
    pub role: Role,
}
