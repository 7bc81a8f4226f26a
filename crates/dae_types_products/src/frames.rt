// How many variables a function has, where its parameters stand, and how large its frame is.

ghost use Rattle.std.specs.Prelude.{◌≡◌, ◌+◌, ◌^◌, ◌<◌, Ok, [], ◌∷◌, drop, MatchOption};
ghost use Rattle.std.specs.List.{count_by};
ghost use Rattle.dae_types_kinds.specs.Types.{word_for};
ghost use Rattle.dae_types_rules.specs.Plan.{Gives};
ghost use Rattle.dae_types_tables.specs.Seen.{tables};
ghost use Rattle.dae_types_typed.specs.Frames.{end_of, frame_of, is_variable, last_end, slot_of, slots_of, variables_of};

use dae_program::FrameSlot;
use dae_types_folding::load_kind;
use dae_types_kinds::{CheckError, Local, Storage, word_behind, word_for};
use dae_types_tables::Checker;

/// Whether a parameter or local object is kept in a variable.
fn is_variable(storage: Storage) -> bool
    ensures { result ≡ is_variable storage }
{
    match storage {
        Storage::Variable(_) => true,
        Storage::Frame(_) => false,
    }
}

/// The first of these, and the others.
pub fn next_storage(storages: &[Storage]) -> Option<(Storage, &[Storage])>
    ensures { MatchOption result (storages.now ≡ []) (λ next. storages.now ≡ next.0 ∷ next.1.now) }
{
    match storages {
        [] => None,
        [first, rest @ ..] => Some((*first, rest)),
    }
}

/// What is left of a list behind so many items.
fn behind(storages: &[Storage], count: usize) -> &[Storage]
    ensures { result.now ≡ drop count storages.now }
{
    if count <= storages.len() {
        &storages[count..]
    } else {
        &[]
    }
}

/// How many of these are kept in variables, and so many more, as far as words go.
fn count_kept(storages: &[Storage], mut count: u32) -> u32
    ensures { result ≡ word_for (count + count_by is_variable storages.now) }
{
    for storage in storages {
        if is_variable(*storage) {
            count = word_behind(count);
        }
    }
    count
}

/// The number of a function's variables: one holds what it returns, each parameter has one, and each other local object that
/// isn't in the frame.
pub fn count_variables(parameters: usize, storages: &[Storage]) -> u32
    ensures { result ≡ variables_of parameters storages.now }
{
    let first = word_behind(word_for(parameters));
    count_kept(behind(storages, parameters), first)
}

/// Where a parameter is stored at the entry, if it is.
fn slot_of(checker: &Checker, local: Local, storage: Storage) -> Option<FrameSlot>
    ensures { result ≡ slot_of (tables checker.now) local storage }
{
    match storage {
        Storage::Variable(_) => None,
        Storage::Frame(offset) => Some(FrameSlot {
            offset,
            width: load_kind(checker.shape_of(local.type_id)).width(),
        }),
    }
}

/// Where each of so many parameters is stored at the entry.
pub fn slots_of(
    checker: &Checker,
    parameters: usize,
    locals: &[Local],
    storages: &[Storage],
) -> Result<Vec<Option<FrameSlot>>, CheckError>
    ensures { Gives (λ slots. slots.items) result
        (Ok (slots_of (tables checker.now) parameters locals.now storages.now)) }
{
    let mut slots = Vec::new(checker.alloc);
    let mut rest = storages;
    let mut left = parameters;
    for local in locals {
        let Some((storage, others)) = next_storage(rest) else {
            return Ok(slots);
        };
        if left == 0 {
            return Ok(slots);
        }
        slots.push(slot_of(checker, *local, storage))?;
        rest = others;
        left -= 1;
    }
    Ok(slots)
}

/// Where a local object ends in the frame, in bytes.
fn end_of(checker: &Checker, local: Local, storage: Storage) -> u64
    ensures is { result ≡ end_of (tables checker.now) local storage }
    ensures near { result < 2 ^ 33 }
{
    match storage {
        Storage::Variable(_) => 0,
        Storage::Frame(offset) => {
            u64::from(offset) + u64::from(checker.layout_at(local.type_id).size)
        }
    }
}

/// Where the last of the local objects ends in the frame, in bytes.
fn last_end(checker: &Checker, locals: &[Local], storages: &[Storage]) -> u64
    ensures is { result ≡ last_end (tables checker.now) locals.now storages.now }
    ensures near { result < 2 ^ 33 }
{
    let mut last = 0;
    let mut rest = storages;
    for local in locals {
        let Some((storage, others)) = next_storage(rest) else {
            return last;
        };
        last = last.max(end_of(checker, *local, storage));
        rest = others;
    }
    last
}

/// The size of a function's frame in bytes, a multiple of 4.
pub fn frame_size(checker: &Checker, locals: &[Local], storages: &[Storage]) -> u64
    ensures { result ≡ frame_of (tables checker.now) locals.now storages.now }
{
    (last_end(checker, locals, storages) + 3) / 4 * 4
}
