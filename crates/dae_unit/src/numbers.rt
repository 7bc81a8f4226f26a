// The number of the first of several rows for an object or a function.

ghost use Rattle.std.specs.Prelude.{◌≡◌, ◌≤◌, Option, IfOk, OnOk, length};
ghost use Rattle.dae_unit.specs.Identities.{AreFirstNumbers, IsIdentity, IsIndexed, PutsNumber};
ghost use Rattle.dae_unit.specs.Linkage.{entity_of};
ghost use Rattle.dae_unit.specs.Meanings.{number_from};
ghost use Rattle.dae_unit.specs.declared.identities.Identity.{Identity};

use crate::identities::{Identity, identity_of};
use crate::rows::FileRow;
use dae_types_kinds::Entity;
use dae_types_typed::TypedFile;
use indexmap::IndexMap;
use std::alloc::{AllocError, Global};

/// Rows, and the number of the first row for each object and function.
#[derive(Clone, Copy)]
pub struct NumberedRows<'r, 'f> {
    pub rows: &'r [FileRow],
    pub numbers: &'r IndexMap<Identity<'f>, usize>,
}

/// Notes the number of a row as that of what it declares.
fn put_number<'f>(
    files: &'f [TypedFile],
    numbers: &mut IndexMap<Identity<'f>, usize>,
    number: usize,
    row: FileRow,
) -> Result<(), AllocError>
    ensures { OnOk result
        ((i : Option Identity) × IsIdentity files.now row.file (entity_of row) i
        × PutsNumber i number numbers.old.entries numbers.new.entries) }
{
    if let Some(identity) = identity_of(files, row.file, row.declaration.entity) {
        numbers.insert(identity, number)?;
    }
    Ok(())
}

/// The number of the first row for each object and function.
pub fn numbers_of<'f>(
    alloc: Global,
    files: &'f [TypedFile],
    rows: &[FileRow],
) -> Result<IndexMap<Identity<'f>, usize>, AllocError>
    ensures { IfOk result (λ numbers. AreFirstNumbers files.now rows.now 0 numbers.entries) }
{
    let mut numbers = IndexMap::new(alloc);
    for number in (0..rows.len()).rev() {
        let row = &rows[number];
        put_number(files, &mut numbers, number, *row)?;
    }
    Ok(numbers)
}

/// The number of the first row for an object or a function, or that behind all.
pub fn number_of(files: &[TypedFile], file: usize, entity: Entity, index: NumberedRows) -> usize
    requires { IsIndexed files.now index }
    ensures number { result ≡ number_from files.now 0 file entity index.entry.rows.now }
    ensures within { result ≤ length index.entry.rows.now }
{
    match identity_of(files, file, entity) {
        Some(identity) => match index.numbers.get(&identity) {
            Some(number) => *number,
            None => index.rows.len(),
        },
        None => index.rows.len(),
    }
}
