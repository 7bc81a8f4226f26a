// Whether the functions of a file fit it, and whether they set each variable before they read it.

ghost use Rattle.std.specs.Prelude.{◌≡◌, ◌<◌, ◌≤◌, ◌^◌, IfOk, OnOk, Some, length};
ghost use Rattle.std.specs.List.{list_all};
ghost use Rattle.dae_program.specs.Lawful.{is_sound_slot};
ghost use Rattle.dae_types_typed.specs.Sound.{is_called_main};
ghost use Rattle.dae_types_sound.specs.Fit.{body_jumps, function_extent, has_parameters, is_fit_function};

use crate::expressions::{fits_frame, is_word};
use crate::extents::{FileNames, FunctionExtent, Jumps};
use crate::statements::are_fit_statements;
use crate::tables::count_parameters;
use dae_program::FrameSlot;
use dae_types_typed::{FileParts, TypedFunction};

/// Whether a function has the name main.
pub fn is_called_main(parts: &FileParts, routine: usize) -> bool
    ensures { result ≡ is_called_main parts.now routine }
{
    match parts.routines.as_slice().get(routine) {
        Some(routine) => match parts.names.as_slice().get(routine.name as usize) {
            Some(name) => name.as_slice() == b"main".as_slice(),
            None => false,
        },
        None => false,
    }
}

fn is_sound_slot(frame: u64, slot: Option<FrameSlot>) -> bool
    ensures { result ≡ is_sound_slot frame slot }
{
    match slot {
        Some(slot) => is_word(slot.offset) && fits_frame(slot.width, slot.offset, frame),
        None => true,
    }
}

fn are_sound_slots(frame: u64, slots: &[Option<FrameSlot>]) -> bool
    ensures { result ≡ list_all (is_sound_slot frame) slots.now }
{
    for slot in slots {
        if !is_sound_slot(frame, *slot) {
            return false;
        }
    }
    true
}

/// Whether a function has the parameters of its type, and its variables and its frame have room for them.
fn has_parameters(parts: &FileParts, f: &TypedFunction) -> bool
    ensures { result ≡ has_parameters parts.now f.now }
{
    let count = f.parameters.len();
    count == count_parameters(parts, f.routine)
        && f.frame % 4 == 0
        && count < f.variables as usize
        && are_sound_slots(f.frame, f.parameters.as_slice())
}

/// Whether a function fits its file.
pub fn is_fit_function(parts: &FileParts, names: &FileNames, f: &TypedFunction) -> bool
    ensures { result ≡ is_fit_function parts.now names.now f.now }
{
    let main = is_called_main(parts, f.routine);
    let extent = FunctionExtent {
        variables: f.variables,
        frame: f.frame,
    };
    let jumps = Jumps {
        breaks: false,
        continues: false,
        returns: !main,
    };
    has_parameters(parts, f)
        && (!main || f.parameters.is_empty())
        && are_fit_statements(names, extent, jumps, f.body.as_slice())
}

/// Whether all functions of a file fit it.
pub fn are_fit_functions(parts: &FileParts, names: &FileNames) -> bool
    ensures { result ≡ list_all (is_fit_function parts.now names.now) parts.now.functions }
{
    for f in parts.functions.as_slice() {
        if !is_fit_function(parts, names, f) {
            return false;
        }
    }
    true
}
