// Where objects and literals stand.

ghost use Rattle.std.specs.Prelude.{◌≡◌, ℕ, ◌<◌, ◌^◌, ◌++◌, ◌∷◌, [], List, IfOk, OnOk, if◌then◌else◌, slice_get};
ghost use Rattle.std.specs.List.{All};
ghost use Rattle.dae_unit.specs.Identities.{AreDeclaredIn};
ghost use Rattle.dae_unit.specs.declared.rows.FileRow.{FileRow};
ghost use Rattle.dae_unit.specs.Placing.{gives_room, is_first, placed_rows, layout_of_row, object_layouts, literal_layout, literal_layouts, all_literals, rooms_of, rounded_up, place_behind, places_from, end_from, first_place};

use dae_base::Items;
use dae_types_kinds::{Layout, layout_with};
use dae_types_typed::{TypedFile, is_object};
use dae_unit::{FileRow, Identity, add_identity, refers};
use indexmap::IndexSet;
use std::alloc::{AllocError, Global};

/// Where the first object stands.
const FIRST_PLACE: u64 = 16;

fn gives_room(row: FileRow) -> bool
    ensures { result ≡ gives_room row }
{
    is_object(row.declaration.entity) && !refers(row)
}

/// Whether a row is the first that gives an object room; from then on the object is among those that have it.
fn is_first<'f>(
    files: &'f [TypedFile],
    seen: &mut IndexSet<Identity<'f>>,
    row: FileRow,
) -> Result<bool, AllocError>
    ensures first { IfOk result
        (λ first. (done : List FileRow) → AreDeclaredIn files.now done seen.old.keys
        → first ≡ is_first files.now done row) }
    ensures seen { OnOk result
        ((done : List FileRow) → AreDeclaredIn files.now done seen.old.keys
        → AreDeclaredIn files.now
        (if is_first files.now done row then done ++ row ∷ [] else done) seen.new.keys) }
{
    if !gives_room(row) {
        return Ok(false);
    }
    let first = add_identity(files, seen, row)?;
    Ok(first)
}

/// Puts a row behind those that are first, where it is the first that gives its object room.
fn place_row<'f>(
    files: &'f [TypedFile],
    seen: &mut IndexSet<Identity<'f>>,
    placed: &mut Vec<FileRow>,
    row: FileRow,
) -> Result<(), AllocError>
    requires { AreDeclaredIn files.now placed.old.items seen.old.keys }
    ensures seen { OnOk result (AreDeclaredIn files.now placed.new.items seen.new.keys) }
    ensures placed { OnOk result
        (placed.new.items
        ≡ (if is_first files.now placed.old.items row then placed.old.items ++ row
        ∷ [] else placed.old.items)) }
{
    let first = is_first(files, seen, row)?;
    if first {
        placed.push(row)?;
    }
    Ok(())
}

/// The first declaration of each object that gives it room.
pub fn placed_rows(
    alloc: Global,
    files: &[TypedFile],
    rows: &[FileRow],
) -> Result<Vec<FileRow>, AllocError>
    ensures { IfOk result (λ placed. placed.items ≡ placed_rows files.now [] rows.now) }
{
    let mut placed = Vec::new(alloc);
    let mut seen = IndexSet::new(alloc);
    for row in rows {
        place_row(files, &mut seen, &mut placed, *row)?;
    }
    Ok(placed)
}

#[tactic(auto, unfolding(dae_unit::specs::Placing::layout_of_row))]
fn layout_of_row(files: &[TypedFile], row: FileRow) -> Layout
    ensures { result ≡ layout_of_row files.now row }
{
    match files.get(row.file) {
        Some(file) => {
            let parts = file.parts();
            parts.layout_at(parts.type_in(row.declaration.entity))
        }
        None => layout_with(0, 1),
    }
}

/// The room of each object.
pub fn object_layouts(
    alloc: Global,
    files: &[TypedFile],
    placed: &[FileRow],
) -> Result<Vec<Layout>, AllocError>
    ensures { IfOk result (λ rooms. rooms.items ≡ object_layouts files.now [] placed.now) }
{
    let mut rooms = Vec::new(alloc);
    for row in placed {
        rooms.push(layout_of_row(files, *row))?;
    }
    Ok(rooms)
}

fn literal_layout(bytes: &[u8]) -> Layout
    ensures { result ≡ literal_layout bytes.now }
{
    let size = bytes.len().saturating_add(1);
    match u32::try_from(size) {
        Ok(size) => layout_with(size, 1),
        Err(_) => layout_with(u32::MAX, 1),
    }
}

fn push_literals(rooms: &mut Vec<Layout>, literals: &[Items<u8>]) -> Result<(), AllocError>
    ensures { OnOk result (rooms.new.items ≡ literal_layouts rooms.old.items literals.now) }
{
    for literal in literals {
        rooms.push(literal_layout(literal.as_slice()))?;
    }
    Ok(())
}

/// The room of all objects and literals, in the order of their places.
pub fn rooms_of(
    alloc: Global,
    files: &[TypedFile],
    placed: &[FileRow],
) -> Result<Vec<Layout>, AllocError>
    ensures { IfOk result (λ rooms. rooms.items ≡ rooms_of files.now placed.now) }
{
    let mut rooms = object_layouts(alloc, files, placed)?;
    for file in files {
        push_literals(&mut rooms, file.parts().literals.as_slice())?;
    }
    Ok(rooms)
}

/// The least multiple of a number that isn't 0 from another on, or 2^64 - 1 where it is greater.
pub fn rounded_up(place: u64, align: u32) -> u64
    ensures { result ≡ rounded_up place align }
{
    if align == 0 {
        return place;
    }
    let align = u64::from(align);
    match place.checked_add(align - 1) {
        Some(sum) => sum / align * align,
        None => u64::MAX,
    }
}

fn place_behind(place: u64, room: Layout) -> u64
    ensures { result ≡ place_behind place room }
{
    rounded_up(place, room.align).saturating_add(u64::from(room.size))
}

/// Where each object and literal stands.
pub fn places_of(alloc: Global, rooms: &[Layout]) -> Result<Vec<u64>, AllocError>
    ensures { IfOk result (λ places. places.items ≡ places_from first_place [] rooms.now) }
{
    let mut places = Vec::new(alloc);
    let mut place = FIRST_PLACE;
    for room in rooms {
        places.push(rounded_up(place, room.align))?;
        place = place_behind(place, *room);
    }
    Ok(places)
}

/// Where the data end.
pub fn end_of(rooms: &[Layout]) -> u64
    ensures { result ≡ end_from first_place rooms.now }
{
    let mut place = FIRST_PLACE;
    for room in rooms {
        place = place_behind(place, *room);
    }
    place
}

/// The same numbers as words.
pub fn words_of(alloc: Global, places: &[u64]) -> Result<Vec<u32>, AllocError>
    requires { All (λ (p : ℕ). p < 2 ^ 32) places.now }
    ensures { IfOk result (λ words. words.items ≡ places.now) }
{
    let mut words = Vec::new(alloc);
    for place in places {
        words.push(*place as u32)?;
    }
    Ok(words)
}
