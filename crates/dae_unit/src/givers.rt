// The objects and functions that some file gives.

ghost use Rattle.std.specs.Prelude.{◌≡◌, ◌∷◌, List, Option, IfOk, OnOk};
ghost use Rattle.std.specs.List.{list_any};
ghost use Rattle.dae_unit.specs.Clashes.{gives};
ghost use Rattle.dae_unit.specs.Identities.{AreGivers, IsIdentity, AddsIdentity};
ghost use Rattle.dae_unit.specs.Linkage.{entity_of};
ghost use Rattle.dae_unit.specs.declared.identities.Identity.{Identity};
ghost use Rattle.dae_unit.specs.declared.rows.FileRow.{FileRow};

use crate::identities::{Identity, identity_of};
use crate::linkage::refers;
use crate::rows::FileRow;
use dae_types_kinds::Entity;
use dae_types_typed::TypedFile;
use indexmap::IndexSet;
use std::alloc::{AllocError, Global};

/// Notes what a row declares, and says whether that is new.
pub fn add_identity<'f>(
    files: &'f [TypedFile],
    seen: &mut IndexSet<Identity<'f>>,
    row: FileRow,
) -> Result<bool, AllocError>
    ensures { IfOk result
        (λ fresh. (i : Option Identity) × IsIdentity files.now row.file (entity_of row) i
        × AddsIdentity i seen.old.keys seen.new.keys fresh) }
{
    match identity_of(files, row.file, row.declaration.entity) {
        Some(identity) => {
            let (_, fresh) = seen.insert_full(identity)?;
            Ok(fresh)
        }
        None => Ok(true),
    }
}

/// Notes what a row gives.
fn add_giver<'f>(
    files: &'f [TypedFile],
    givers: &mut IndexSet<Identity<'f>>,
    row: FileRow,
) -> Result<(), AllocError>
    ensures { OnOk result
        ((ds : List FileRow) → AreGivers files.now ds givers.old.keys
        → AreGivers files.now (row ∷ ds) givers.new.keys) }
{
    if refers(row) {
        return Ok(());
    }
    add_identity(files, givers, row)?;
    Ok(())
}

/// The objects and functions that the rows give.
pub fn givers_of<'f>(
    alloc: Global,
    files: &'f [TypedFile],
    rows: &[FileRow],
) -> Result<IndexSet<Identity<'f>>, AllocError>
    ensures { IfOk result (λ givers. AreGivers files.now rows.now givers.keys) }
{
    let mut givers = IndexSet::new(alloc);
    for number in (0..rows.len()).rev() {
        let row = &rows[number];
        add_giver(files, &mut givers, *row)?;
    }
    Ok(givers)
}

/// Whether a row gives an object or a function of a file.
pub fn is_given(
    files: &[TypedFile],
    rows: &[FileRow],
    givers: &IndexSet<Identity<'_>>,
    file: usize,
    entity: Entity,
) -> bool
    requires { AreGivers files.now rows.now givers.now.keys }
    ensures { result ≡ list_any (gives files.now file entity) rows.now }
{
    match identity_of(files, file, entity) {
        Some(identity) => givers.contains(&identity),
        None => false,
    }
}
