// Whether the declarations and the uses of a file are sound.

ghost use Rattle.std.specs.Prelude.{◌≡◌, slice_get};
ghost use Rattle.std.specs.List.{list_all};
ghost use Rattle.dae_types_kinds.specs.Types as types;
ghost use Rattle.dae_types_typed.specs.Linkage.{is_library, is_reference};
ghost use Rattle.dae_types_typed.specs.Sound.{defined_routines, is_declared, is_there, routines_in};
ghost use Rattle.dae_types_sound.specs.Declarations.{defined_routine, is_callable, is_sound_declaration, is_sound_use, same_numbers};

use crate::functions::is_called_main;
use dae_types_file_plans::{FileDeclaration, Role};
use dae_types_kinds::{Entity, EntityUse, Shape};
use dae_types_typed::{FileParts, TypedFunction, is_function, is_object, same_entity};

fn is_there(parts: &FileParts, entity: Entity) -> bool
    ensures { result ≡ is_there parts.now entity }
{
    match entity {
        Entity::Object(number) => number < parts.objects.len(),
        Entity::Function(number) => number < parts.routines.len(),
        _ => false,
    }
}

fn is_function_shape(shape: Shape) -> bool
    ensures { result ≡ types.is_function shape }
{
    match shape {
        Shape::Function(_, _) => true,
        _ => false,
    }
}

fn is_reference(role: Role) -> bool
    ensures { result ≡ is_reference role }
{
    match role {
        Role::Reference => true,
        Role::Tentative | Role::Definition => false,
    }
}

fn is_sound_declaration(parts: &FileParts, d: FileDeclaration) -> bool
    ensures { result ≡ is_sound_declaration parts.now d }
{
    let type_id = parts.type_in(d.entity);
    let kind = is_function_shape(parts.shape_of(type_id)) == is_function(d.entity);
    is_there(parts, d.entity)
        && kind
        && (!is_object(d.entity) || is_reference(d.role) || parts.is_complete(type_id))
}

/// Whether what a file declares is there, with a type that it may have.
pub fn are_sound_declarations(parts: &FileParts) -> bool
    ensures { result ≡ list_all (is_sound_declaration parts.now) parts.now.declarations }
{
    for d in parts.declarations.as_slice() {
        if !is_sound_declaration(parts, *d) {
            return false;
        }
    }
    true
}

/// The number of a function that a declaration defines.
fn defined_routine(d: FileDeclaration) -> Option<usize>
    ensures { result ≡ defined_routine d }
{
    match d.entity {
        Entity::Function(number) => {
            if is_reference(d.role) {
                None
            } else {
                Some(number)
            }
        }
        _ => None,
    }
}

/// Whether functions have bodies in the order of the declarations that aren't mere references.
pub fn are_bodies_of(declarations: &[FileDeclaration], functions: &[TypedFunction]) -> bool
    ensures { result
        ≡ same_numbers (routines_in functions.now) (defined_routines declarations.now) }
{
    let mut rest = functions;
    for d in declarations {
        if let Some(number) = defined_routine(*d) {
            match rest {
                [f, behind @ ..] => {
                    if f.routine != number {
                        return false;
                    }
                    rest = behind;
                }
                [] => return false,
            }
        }
    }
    rest.is_empty()
}

fn is_library(parts: &FileParts, number: usize) -> bool
    ensures { result ≡ is_library (slice_get parts.now.routines number) }
{
    match parts.routines.as_slice().get(number) {
        Some(routine) => routine.library.is_some(),
        None => false,
    }
}

fn is_declared(parts: &FileParts, entity: Entity) -> bool
    ensures { result ≡ is_declared parts.now entity }
{
    for d in parts.declarations.as_slice() {
        if same_entity(entity, d.entity) {
            return true;
        }
    }
    false
}

fn is_callable(parts: &FileParts, entity: Entity) -> bool
    ensures { result ≡ is_callable parts.now entity }
{
    match entity {
        Entity::Function(number) => !is_library(parts, number) && !is_called_main(parts, number),
        _ => true,
    }
}

fn is_sound_use(parts: &FileParts, used: EntityUse) -> bool
    ensures { result ≡ is_sound_use parts.now used }
{
    is_declared(parts, used.entity) && is_callable(parts, used.entity)
}

/// Whether what a file uses is declared, and each function that it uses may be called.
pub fn are_sound_uses(parts: &FileParts) -> bool
    ensures { result ≡ list_all (is_sound_use parts.now) parts.now.uses }
{
    for used in parts.uses.as_slice() {
        if !is_sound_use(parts, *used) {
            return false;
        }
    }
    true
}
