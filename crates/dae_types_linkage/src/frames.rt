// Where the parameters and local objects of a function are kept.

ghost use Rattle.std.specs.Prelude.{◌≡◌, ◌+◌, ℕ, suc, min, List, ◌∷◌, Ok, nat_eq, if◌then◌else◌};
ghost use Rattle.dae_types_file_plans.specs.Files.{in_variable, kept_from, most_frame, settled_locals};
ghost use Rattle.dae_types_kinds.specs.Types.{word_for};
ghost use Rattle.dae_types_kinds.specs.declared.tables.Local.{Local as PlainLocal};
ghost use Rattle.dae_types_rules.specs.Plan.{Gives};
ghost use Rattle.dae_types_tables.specs.Seen.{tables, Leaves};
ghost use Rattle.dae_types_linkage.specs.Rooms.{kept_in};

use dae_types_kinds::{CheckError, Local, Storage, word_behind};
use dae_types_tables::{Checker, is_scalar, round_up};

/// Offsets in a frame stop here, far above what a memory has.
const MOST_FRAME: u32 = 1 << 31;

/// The next variable, the next offset in the frame in bytes, and how many parameters are still to come.
#[derive(Clone, Copy)]
pub struct FrameRoom {
    pub variable: u32,
    pub offset: u32,
    pub parameters: usize,
}

/// Settles where parameters and local objects are kept, of which the first so many are parameters, and leaves the parameters
/// alone in their table.
pub fn settle_locals(checker: &mut Checker, parameters: usize) -> Result<(), CheckError>
    ensures { Leaves checker.new result (settled_locals parameters (tables checker.old)) }
{
    let storages = storages_of(checker, parameters)?;
    checker.cut_locals(parameters);
    checker.set_storages(storages);
    Ok(())
}

/// Where each parameter and local object is kept. Variable 0 holds what the function returns, the next ones its parameters.
fn storages_of(checker: &Checker, parameters: usize) -> Result<Vec<Storage>, CheckError>
    ensures { Gives (λ v. v.items) result
        (Ok (kept_from (tables checker.now) 1 0 parameters (tables checker.now).locals)) }
{
    let mut storages = Vec::new(checker.alloc);
    let mut room = FrameRoom {
        variable: 1,
        offset: 0,
        parameters,
    };
    for local in checker.locals() {
        let (storage, next) = keep(checker, room, *local);
        storages.push(storage)?;
        room = next;
    }
    Ok(storages)
}

/// Where a parameter or local object is kept, and the room behind it.
fn keep(checker: &Checker, room: FrameRoom, local: Local) -> (Storage, FrameRoom)
    ensures { (xs : List PlainLocal)
        → result.0 ∷ kept_in (tables checker.now) result.1 xs
        ≡ kept_in (tables checker.now) room (local ∷ xs) }
{
    let parameters = room.parameters.saturating_sub(1);
    if is_in_variable(checker, local) {
        let variable = word_behind(room.variable);
        let offset = room.offset;
        let next = FrameRoom {
            variable,
            offset,
            parameters,
        };
        return (Storage::Variable(room.variable), next);
    }
    let layout = checker.layout_at(local.type_id);
    let start = round_up(room.offset, layout.align);
    let offset = end_of(start, layout.size);
    let variable = variable_behind(room);
    let next = FrameRoom {
        variable,
        offset,
        parameters,
    };
    (Storage::Frame(start), next)
}

/// Where so many bytes from an offset on end, as far as offsets go.
fn end_of(start: u32, size: u32) -> u32
    ensures { result ≡ min (start + size) most_frame }
{
    start.saturating_add(size).min(MOST_FRAME)
}

/// Whether a parameter or local object is kept in a variable: a scalar whose address isn't taken.
fn is_in_variable(checker: &Checker, local: Local) -> bool
    ensures { result ≡ in_variable (tables checker.now) local }
{
    is_scalar(checker.shape_of(local.type_id)) && !local.taken
}

/// The next variable behind what is in the frame: a parameter takes one all the same.
fn variable_behind(room: FrameRoom) -> u32
    ensures { result
        ≡ (if nat_eq room.parameters 0 then room.variable else word_for (suc room.variable)) }
{
    if room.parameters == 0 {
        room.variable
    } else {
        word_behind(room.variable)
    }
}
