// The objects and the functions of a file that are used, by their numbers.

ghost use Rattle.std.specs.Prelude.{◌≡◌, ℕ, ◌||◌, nat_eq, IfOk, OnOk};
ghost use Rattle.indexmap.specs.IndexSet.{contains};
ghost use Rattle.dae_types_kinds.specs.declared.tables.Entity.TheVariants as entities;
ghost use Rattle.dae_types_sound.specs.Used.{AreUsed, has_number, used_function, used_object};

use dae_types_kinds::{Entity, EntityUse};
use dae_types_ready::Doubt;
use indexmap::IndexSet;
use std::alloc::Global;

/// The number of the object that is used, if one is.
fn used_object(used: EntityUse) -> Option<usize>
    ensures { result ≡ used_object used.entity }
{
    match used.entity {
        Entity::Object(number) => Some(number),
        Entity::Local(_) => None,
        Entity::Type(_) => None,
        Entity::Enumerator(_) => None,
        Entity::Function(_) => None,
    }
}

/// The number of the function that is used, if one is.
fn used_function(used: EntityUse) -> Option<usize>
    ensures { result ≡ used_function used.entity }
{
    match used.entity {
        Entity::Object(_) => None,
        Entity::Local(_) => None,
        Entity::Type(_) => None,
        Entity::Enumerator(_) => None,
        Entity::Function(number) => Some(number),
    }
}

/// A number, if there is one, comes among others.
fn add_number(numbers: &mut IndexSet<usize>, number: Option<usize>) -> Result<(), Doubt>
    ensures { OnOk result ((n : ℕ) → contains nat_eq numbers.new n
        ≡ (contains nat_eq numbers.old n || has_number number n)) }
{
    match number {
        Some(number) => match numbers.insert(number) {
            Ok(_) => Ok(()),
            Err(_) => Err(Doubt::Memory),
        },
        None => Ok(()),
    }
}

/// The numbers of the objects that are used.
pub fn used_objects(alloc: Global, uses: &[EntityUse]) -> Result<IndexSet<usize>, Doubt>
    ensures { IfOk result (λ numbers. AreUsed uses.now entities.Object numbers) }
{
    let mut numbers = IndexSet::new(alloc);
    for used in uses {
        add_number(&mut numbers, used_object(*used))?;
    }
    Ok(numbers)
}

/// The numbers of the functions that are used.
pub fn used_functions(alloc: Global, uses: &[EntityUse]) -> Result<IndexSet<usize>, Doubt>
    ensures { IfOk result (λ numbers. AreUsed uses.now entities.Function numbers) }
{
    let mut numbers = IndexSet::new(alloc);
    for used in uses {
        add_number(&mut numbers, used_function(*used))?;
    }
    Ok(numbers)
}
