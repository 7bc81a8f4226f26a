// Why files don't join.

ghost use Rattle.std.specs.Prelude.{◌≡◌, ◌≤◌, IfNone, IfOk};
ghost use Rattle.dae_unit.specs.Joining.{cause_by};

use crate::clashes::{first_clash, first_missing, has_main};
use crate::errors::{Clash, JoinError};
use crate::rows::FileRow;
use dae_types_typed::TypedFile;
use std::alloc::{AllocError, Global};

/// The first cause why files with these declarations don't join, where frames would begin at an address in a memory of so
/// many bytes.
pub fn cause_by(
    alloc: Global,
    files: &[TypedFile],
    rows: &[FileRow],
    frames: u64,
    memory: u32,
) -> Result<Option<JoinError>, AllocError>
    ensures first { IfOk result (λ cause. cause ≡ cause_by files.now rows.now frames memory) }
    ensures fits { IfOk result (λ cause. IfNone cause (frames ≤ memory)) }
{
    if let Some((x, y)) = first_clash(alloc, files, Clash::Definitions, rows)? {
        return Ok(Some(JoinError::DefinedTwice(x.declaration.place, y.declaration.place)));
    }
    if let Some((x, y)) = first_clash(alloc, files, Clash::Types, rows)? {
        return Ok(Some(JoinError::TypesDiffer(x.declaration.place, y.declaration.place)));
    }
    if let Some(used) = first_missing(alloc, files, rows)? {
        return Ok(Some(JoinError::NotDefined(used.place)));
    }
    if !has_main(files, rows) {
        return Ok(Some(JoinError::NoMain));
    }
    if frames > u64::from(memory) {
        return Ok(Some(JoinError::DataTooLarge(frames)));
    }
    Ok(None)
}
