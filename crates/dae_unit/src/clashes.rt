// What keeps files from joining: definitions, types, uses and main.

ghost use Rattle.std.specs.Prelude.{◌≡◌, ◌∷◌, ℕ, List, IfOk, None, OnOk, cond, find, reverse, slice_get};
ghost use Rattle.std.specs.Borrow.{Bor};
ghost use Rattle.std.specs.List.{list_any};
ghost use Rattle.std.specs.Map.{lookup};
ghost use Rattle.std.specs.Str.{bytes_eq};
ghost use Rattle.dae_unit.specs.Clashes.{clashes, same_types, types_differ, first_clash, is_library_in, is_missing, first_missing, is_main};
ghost use Rattle.dae_unit.specs.Couples.{AreKnownOf, entries_or_none, same_two};
ghost use Rattle.dae_unit.specs.Identities.{AreGivers};
ghost use Rattle.dae_unit.specs.Linkage.{entity_of};
ghost use Rattle.dae_unit.specs.Later.{AreLater, AreNextDefinitions, entry_of_name, items_or_none, nearest, put_first};
ghost use Rattle.dae_unit.specs.declared.rows.FileRow.{FileRow};
ghost use Rattle.dae_unit.specs.declared.errors.Clash.TheVariants.{Definitions, Types};

use crate::across::same_across;
use crate::couples::{KnownTypes, Verdicts};
use crate::errors::Clash;
use crate::givers::{givers_of, is_given};
use crate::identities::Identity;
use crate::linkage::{declares_same, defines, external_name, same_name};
use crate::rows::FileRow;
use dae_types_kinds::{Entity, EntityUse};
use dae_types_typed::{TypedFile, is_function};
use indexmap::{IndexMap, IndexSet};
use std::alloc::{AllocError, Global};

/// Takes what is known of the types of two files.
fn take_known(alloc: Global, known: &mut KnownTypes, two: (usize, usize)) -> Verdicts
    ensures taken { result.entries ≡ entries_or_none (lookup (same_two two) known.old.entries) }
    ensures kept { (q : ℕ × ℕ)
        → lookup (same_two q) known.new.entries
        ≡ cond (same_two two q) None (lookup (same_two q) known.old.entries) }
{
    match known.swap_remove(&two) {
        Some(couples) => couples,
        None => IndexMap::new(alloc),
    }
}

/// Whether the types of an object or a function of two files are the same.
fn same_types(
    alloc: Global,
    files: &[TypedFile],
    known: &mut KnownTypes,
    x: FileRow,
    y: FileRow,
) -> Result<bool, AllocError>
    requires { AreKnownOf files.now known.old.entries }
    ensures same { IfOk result
        (λ same. same
        ≡ same_types (slice_get files.now x.file) (slice_get files.now y.file) (entity_of x)
        (entity_of y)) }
    ensures known { OnOk result (AreKnownOf files.now known.new.entries) }
{
    let f = match files.get(x.file) {
        Some(file) => file.parts(),
        None => return Ok(true),
    };
    let g = match files.get(y.file) {
        Some(file) => file.parts(),
        None => return Ok(true),
    };
    let left = f.type_in(x.declaration.entity);
    let right = g.type_in(y.declaration.entity);
    let two = (x.file, y.file);
    let mut couples = take_known(alloc, known, two);
    let same = same_across(alloc, f, g, &mut couples, (left, right))?;
    known.insert(two, couples)?;
    Ok(same)
}

fn types_differ(
    alloc: Global,
    files: &[TypedFile],
    known: &mut KnownTypes,
    x: FileRow,
    y: FileRow,
) -> Result<bool, AllocError>
    requires { AreKnownOf files.now known.old.entries }
    ensures differ { IfOk result (λ differ. differ ≡ types_differ files.now x y) }
    ensures known { OnOk result (AreKnownOf files.now known.new.entries) }
{
    if x.file == y.file {
        return Ok(false);
    }
    Ok(!same_types(alloc, files, known, x, y)?)
}

/// A declaration with the later one that it clashes with, or else what was found among the later ones.
fn nearest(
    row: FileRow,
    other: Option<FileRow>,
    found: Option<(FileRow, FileRow)>,
) -> Option<(FileRow, FileRow)>
    ensures { result ≡ nearest row other found }
{
    match other {
        Some(other) => Some((row, other)),
        None => found,
    }
}

/// The next definition of a row's name, where the row is a definition; from then on it is the next one of its name.
fn next_definition<'f>(
    files: &'f [TypedFile],
    next: &mut IndexMap<&'f [u8], FileRow>,
    row: FileRow,
) -> Result<Option<FileRow>, AllocError>
    ensures clash { IfOk result
        (λ other. (ds : List FileRow) → AreNextDefinitions files.now ds next.old.entries
        → other ≡ find (clashes files.now Definitions row) ds) }
    ensures noted { OnOk result
        ((ds : List FileRow) → AreNextDefinitions files.now ds next.old.entries
        → AreNextDefinitions files.now (row ∷ ds) next.new.entries) }
{
    if !defines(row) {
        return Ok(None);
    }
    match external_name(files, row.file, row.declaration.entity) {
        Some(name) => Ok(next.insert(name, row)?),
        None => Ok(None),
    }
}

/// The first definition of a name that is defined again later, and the next.
fn first_redefinition(
    alloc: Global,
    files: &[TypedFile],
    rows: &[FileRow],
) -> Result<Option<(FileRow, FileRow)>, AllocError>
    ensures { IfOk result (λ found. found ≡ first_clash files.now Definitions rows.now) }
{
    let mut next = IndexMap::new(alloc);
    let mut found = None;
    for number in (0..rows.len()).rev() {
        let row = &rows[number];
        let other = next_definition(files, &mut next, *row)?;
        found = nearest(*row, other, found);
    }
    Ok(found)
}

/// The last of these declarations whose type isn't that of another.
fn last_differing(
    alloc: Global,
    files: &[TypedFile],
    known: &mut KnownTypes,
    row: FileRow,
    others: &[FileRow],
) -> Result<Option<FileRow>, AllocError>
    requires { AreKnownOf files.now known.old.entries }
    ensures last { IfOk result
        (λ last. last ≡ find (types_differ files.now row) (reverse others.now)) }
    ensures known { OnOk result (AreKnownOf files.now known.new.entries) }
{
    for number in (0..others.len()).rev() {
        if types_differ(alloc, files, known, row, others[number])? {
            return Ok(Some(others[number]));
        }
    }
    Ok(None)
}

/// Puts a declaration behind others, in place of the last where both declare one object or function of one file.
fn put_last(others: &mut Vec<FileRow>, row: FileRow) -> Result<(), AllocError>
    ensures { OnOk result (reverse others.new.items ≡ put_first row (reverse others.old.items)) }
{
    match others.pop() {
        Some(last) => {
            if !declares_same(last, row) {
                others.push(last)?;
            }
        }
        None => {}
    }
    others.push(row)?;
    Ok(())
}

/// Takes the declarations that are kept of a name.
fn take_others<'f>(
    alloc: Global,
    later: &mut IndexMap<&'f [u8], Vec<FileRow>>,
    name: &'f [u8],
) -> Vec<FileRow>
    ensures others { result.items ≡ items_or_none (entry_of_name later.old.entries name.entry) }
    ensures kept { (q : Bor (List ℕ))
        → entry_of_name later.new.entries q
        ≡ cond (bytes_eq name.now q.now) None (entry_of_name later.old.entries q) }
{
    match later.swap_remove(&name) {
        Some(others) => others,
        None => Vec::new(alloc),
    }
}

/// The first of the later declarations of a row's name whose type is another; from then on the row is one of these.
fn next_difference<'f>(
    alloc: Global,
    files: &'f [TypedFile],
    known: &mut KnownTypes,
    later: &mut IndexMap<&'f [u8], Vec<FileRow>>,
    row: FileRow,
) -> Result<Option<FileRow>, AllocError>
    requires { AreKnownOf files.now known.old.entries }
    ensures known { OnOk result (AreKnownOf files.now known.new.entries) }
    ensures clash { IfOk result
        (λ other. (ds : List FileRow) → AreLater files.now ds later.old.entries
        → other ≡ find (clashes files.now Types row) ds) }
    ensures noted { OnOk result
        ((ds : List FileRow) → AreLater files.now ds later.old.entries
        → AreLater files.now (row ∷ ds) later.new.entries) }
{
    match external_name(files, row.file, row.declaration.entity) {
        Some(name) => {
            let mut others = take_others(alloc, later, name);
            let other = last_differing(alloc, files, known, row, others.as_slice())?;
            put_last(&mut others, row)?;
            later.insert(name, others)?;
            Ok(other)
        }
        None => Ok(None),
    }
}

/// The first declaration whose type is another than that of a later one of its name, and the first such.
fn first_difference(
    alloc: Global,
    files: &[TypedFile],
    rows: &[FileRow],
) -> Result<Option<(FileRow, FileRow)>, AllocError>
    ensures { IfOk result (λ found. found ≡ first_clash files.now Types rows.now) }
{
    let mut known = IndexMap::new(alloc);
    let mut later = IndexMap::new(alloc);
    let mut found = None;
    for number in (0..rows.len()).rev() {
        let row = &rows[number];
        let other = next_difference(alloc, files, &mut known, &mut later, *row)?;
        found = nearest(*row, other, found);
    }
    Ok(found)
}

/// The first declaration that clashes with a later one, and the first of those.
pub fn first_clash(
    alloc: Global,
    files: &[TypedFile],
    clash: Clash,
    rows: &[FileRow],
) -> Result<Option<(FileRow, FileRow)>, AllocError>
    ensures { IfOk result (λ found. found ≡ first_clash files.now clash rows.now) }
{
    match clash {
        Clash::Definitions => first_redefinition(alloc, files, rows),
        Clash::Types => first_difference(alloc, files, rows),
    }
}

fn is_library_in(files: &[TypedFile], file: usize, entity: Entity) -> bool
    ensures { result ≡ is_library_in (slice_get files.now file) entity }
{
    match (files.get(file), entity) {
        (Some(file), Entity::Function(number)) => {
            match file.parts().routines.as_slice().get(number) {
                Some(routine) => routine.library.is_some(),
                None => false,
            }
        }
        _ => false,
    }
}

#[tactic(auto, unfolding(crate::specs::Clashes::is_missing))]
fn is_missing(
    files: &[TypedFile],
    rows: &[FileRow],
    givers: &IndexSet<Identity<'_>>,
    file: usize,
    used: EntityUse,
) -> bool
    requires { AreGivers files.now rows.now givers.now.keys }
    ensures { result ≡ is_missing files.now rows.now file used }
{
    !is_library_in(files, file, used.entity) && !is_given(files, rows, givers, file, used.entity)
}

fn find_missing(
    files: &[TypedFile],
    rows: &[FileRow],
    givers: &IndexSet<Identity<'_>>,
    file: usize,
    uses: &[EntityUse],
) -> Option<EntityUse>
    requires { AreGivers files.now rows.now givers.now.keys }
    ensures { result ≡ find (is_missing files.now rows.now file) uses.now }
{
    for used in uses {
        if is_missing(files, rows, givers, file, *used) {
            return Some(*used);
        }
    }
    None
}

/// The first use, in the order of the files and of the text, of an object or a function that nothing defines.
pub fn first_missing(
    alloc: Global,
    files: &[TypedFile],
    rows: &[FileRow],
) -> Result<Option<EntityUse>, AllocError>
    ensures { IfOk result (λ used. used ≡ first_missing files.now rows.now 0 files.now) }
{
    let givers = givers_of(alloc, files, rows)?;
    for (number, file) in files.iter().enumerate() {
        let uses = file.parts().uses.as_slice();
        if let Some(used) = find_missing(files, rows, &givers, number, uses) {
            return Ok(Some(used));
        }
    }
    Ok(None)
}

/// Whether a declaration defines the function main that other files know.
#[tactic(auto, unfolding(crate::specs::Clashes::is_main))]
pub fn is_main(files: &[TypedFile], row: FileRow) -> bool
    ensures { result ≡ is_main files.now row }
{
    let name = external_name(files, row.file, row.declaration.entity);
    defines(row) && is_function(row.declaration.entity) && same_name(name, Some(b"main"))
}

/// Whether a function main is defined that other files know.
pub fn has_main(files: &[TypedFile], rows: &[FileRow]) -> bool
    ensures { result ≡ list_any (is_main files.now) rows.now }
{
    for row in rows {
        if is_main(files, *row) {
            return true;
        }
    }
    false
}
