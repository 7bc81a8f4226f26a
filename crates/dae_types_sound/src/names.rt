// Whether a name for other files stands for one object or one function.

ghost use Rattle.std.specs.Prelude.{◌≡◌, [], OnOk, map, option_copied, slice_get, true, Some};
ghost use Rattle.dae_types_typed.specs.Linkage.{object_name, routine_name};
ghost use Rattle.dae_types_sound.specs.Distinct.{AreNew, AreNoted, IsNewName, IsNoted, have_own_names, object_names, routine_names};

use dae_types_kinds::{Routine, StaticObject};
use dae_types_ready::Doubt;
use dae_types_typed::FileParts;
use indexmap::IndexSet;
use std::alloc::Global;

fn object_name(parts: &FileParts, object: StaticObject) -> Option<&[u8]>
    ensures { option_copied result ≡ object_name parts.now (Some object) }
{
    if object.own {
        None
    } else {
        parts.name_at(object.name)
    }
}

fn routine_name(parts: &FileParts, routine: Routine) -> Option<&[u8]>
    ensures { option_copied result ≡ routine_name parts.now (Some routine) }
{
    if routine.own || routine.library.is_some() {
        None
    } else {
        parts.name_at(routine.name)
    }
}

/// Notes a name that is none of those before.
#[tactic(auto, using(crate::proofs::Noted::insert_mapped, dae_base::proofs::Laws::any_mapped))]
fn note<'f>(seen: &mut IndexSet<&'f [u8]>, name: Option<&'f [u8]>) -> Result<(), Doubt>
    ensures fresh { OnOk result (IsNewName seen.old.keys (option_copied name.entry)) }
    ensures noted { OnOk result (IsNoted seen.old.keys seen.new.keys (option_copied name.entry)) }
{
    match name {
        Some(name) => match seen.insert_full(name) {
            Ok((_, true)) => Ok(()),
            Ok((_, false)) => Err(Doubt::Unsound),
            Err(_) => Err(Doubt::Memory),
        },
        None => Ok(()),
    }
}

fn note_objects<'f>(parts: &'f FileParts, seen: &mut IndexSet<&'f [u8]>) -> Result<(), Doubt>
    ensures fresh { OnOk result (AreNew seen.old.keys (object_names parts.now parts.now.objects)) }
    ensures noted { OnOk result
        (AreNoted seen.old.keys seen.new.keys (object_names parts.now parts.now.objects)) }
{
    for object in parts.objects.as_slice() {
        note(seen, object_name(parts, *object))?;
    }
    Ok(())
}

fn note_routines<'f>(parts: &'f FileParts, seen: &mut IndexSet<&'f [u8]>) -> Result<(), Doubt>
    ensures fresh { OnOk result
        (AreNew seen.old.keys (routine_names parts.now parts.now.routines)) }
{
    for routine in parts.routines.as_slice() {
        note(seen, routine_name(parts, *routine))?;
    }
    Ok(())
}

/// A name for other files stands for one object or one function.
pub fn see_names(alloc: Global, parts: &FileParts) -> Result<(), Doubt>
    ensures { OnOk result (have_own_names parts.now ≡ true) }
{
    let mut seen = IndexSet::new(alloc);
    note_objects(parts, &mut seen)?;
    note_routines(parts, &mut seen)?;
    Ok(())
}
