// Whether a typed file is sound.

ghost use Rattle.std.specs.Prelude.{◌≡◌, IfOk, OnOk, true};
ghost use Rattle.dae_types_typed.specs.Sound.{IsSound};

use crate::declarations::{are_bodies_of, are_sound_declarations, are_sound_uses};
use crate::functions::are_fit_functions;
use crate::names::see_names;
use crate::shapes::{are_complete_members, are_laid_out, are_sound_shapes};
use crate::tables::names_in;
use dae_types_ready::{Doubt, see_ready};
use dae_types_typed::FileParts;
use std::alloc::{AllocError, Global};

fn see(holds: bool) -> Result<(), Doubt>
    ensures { OnOk result (holds ≡ true) }
{
    if holds { Ok(()) } else { Err(Doubt::Unsound) }
}

fn see_parts(alloc: Global, parts: &FileParts) -> Result<(), Doubt>
    ensures { OnOk result (IsSound parts.now) }
{
    let names = names_in(alloc, parts)?;
    see(are_fit_functions(parts, &names))?;
    see_ready(alloc, parts.functions.as_slice())?;
    see(are_laid_out(parts))?;
    see(are_sound_shapes(parts))?;
    see(are_complete_members(parts))?;
    see(are_sound_declarations(parts))?;
    see(are_bodies_of(parts.declarations.as_slice(), parts.functions.as_slice()))?;
    see(are_sound_uses(parts))?;
    see_names(alloc, parts)?;
    Ok(())
}

/// Whether the parts of a typed file are known to be sound: then a joiner may put the file's objects where it likes
/// (`IsSound`). `false` says nothing of the parts.
pub fn is_sound(alloc: Global, parts: &FileParts) -> Result<bool, AllocError>
    ensures { IfOk result (λ sound. sound ≡ true → IsSound parts.now) }
{
    match see_parts(alloc, parts) {
        Ok(()) => Ok(true),
        Err(Doubt::Unsound) => Ok(false),
        Err(Doubt::Memory) => Err(AllocError),
    }
}
