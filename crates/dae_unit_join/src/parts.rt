// What files join to: what the memory holds, what numbers mean, and the functions.

ghost use Rattle.std.specs.Prelude.{◌≡◌, ◌<◌, ◌^◌, [], IfOk, IfErr, length};
ghost use Rattle.dae_unit.specs.Meanings.{bodies_of, links_of};
ghost use Rattle.dae_unit_join.specs.Joined.{IsMadeOf, Joins, IsRefused};
ghost use Rattle.dae_unit.specs.Placing.{object_layouts, end_from, first_place};

use crate::contents::content_of;
use crate::meanings::{Rooms, bodies_of, functions_of, links_of, main_of};
use crate::placing::{
    end_of, object_layouts, placed_rows, places_of, rooms_of, rounded_up, words_of,
};
use dae_base::Items;
use dae_program::{Function, Links};
use dae_types_typed::TypedFile;
use dae_unit::{FileRow, JoinError, NumberedRows, cause_by, numbers_of, rows_of};
use std::alloc::{AllocError, Global};

/// What files join to: what the memory holds from address 16 on, where frames begin, what the numbers of each file mean, the
/// functions, and the number of main among them.
#[derive(Drop)]
pub struct ProgramParts {
    pub content: Items<u8>,
    pub frames: u32,
    pub links: Items<Links>,
    pub functions: Items<Function>,
    pub main: u32,
}

// Where the objects end.
fn objects_end(alloc: Global, files: &[TypedFile], placed: &[FileRow]) -> Result<u64, AllocError>
    ensures { IfOk result
        (λ end. end ≡ end_from first_place (object_layouts files.now [] placed.now)) }
{
    let rooms = object_layouts(alloc, files, placed)?;
    Ok(end_of(rooms.as_slice()))
}

// What the numbers of each file mean, by the declarations that give room, the places and the functions with bodies.
fn make_links<'r>(
    alloc: Global,
    files: &[TypedFile],
    placed: &'r [FileRow],
    places: &'r [u32],
    bodies: &'r [FileRow],
) -> Result<Vec<Links>, AllocError>
    requires { length bodies.now < 2 ^ 32 }
    ensures { IfOk result
        (λ links. links.items ≡ links_of files.now placed.now bodies.now places.now) }
{
    let numbers = numbers_of(alloc, files, placed)?;
    let rooms = Rooms {
        placed: NumberedRows {
            rows: placed,
            numbers: &numbers,
        },
        places,
    };
    let numbers = numbers_of(alloc, files, bodies)?;
    let bodies = NumberedRows {
        rows: bodies,
        numbers: &numbers,
    };
    links_of(alloc, files, rooms, bodies)
}

// The program, by the declarations that give room and the places.
fn make(
    alloc: Global,
    files: Vec<TypedFile>,
    placed: &[FileRow],
    places: &[u32],
    frames: u32,
) -> Result<ProgramParts, AllocError>
    requires files { length files.items < 2 ^ 32 }
    requires functions { length (bodies_of files.items) < 2 ^ 32 }
    ensures { IfOk result
        (λ p. IsMadeOf files.items placed.now places.now
        (end_from first_place (object_layouts files.items [] placed.now)) frames p) }
{
    let end = objects_end(alloc, files.as_slice(), placed)?;
    let bodies = bodies_of(alloc, files.as_slice())?;
    let main = main_of(files.as_slice(), bodies.as_slice());
    let links = make_links(alloc, files.as_slice(), placed, places, bodies.as_slice())?;
    let content = content_of(alloc, files.as_slice(), links.as_slice(), end)?;
    let functions = functions_of(alloc, files)?;
    Ok(ProgramParts {
        content: Items::from_vec(content),
        frames,
        links: Items::from_vec(links),
        functions: Items::from_vec(functions),
        main: main as u32,
    })
}

/// The program that files come to in a memory of so many bytes, or the first cause why they don't join. The files are given
/// up.
pub fn join_parts(
    alloc: Global,
    files: Vec<TypedFile>,
    memory: u32,
) -> Result<ProgramParts, JoinError>
    requires files { length files.items < 2 ^ 32 }
    requires functions { length (bodies_of files.items) < 2 ^ 32 }
    ensures ok { IfOk result (λ p. Joins files.items memory p) }
    ensures err { IfErr result (IsRefused files.items memory) }
{
    let rows = rows_of(alloc, files.as_slice())?;
    let placed = placed_rows(alloc, files.as_slice(), rows.as_slice())?;
    let rooms = rooms_of(alloc, files.as_slice(), placed.as_slice())?;
    let frames = rounded_up(end_of(rooms.as_slice()), 4);
    match cause_by(alloc, files.as_slice(), rows.as_slice(), frames, memory)? {
        Some(cause) => return Err(cause),
        None => {}
    }
    let places = places_of(alloc, rooms.as_slice())?;
    let places = words_of(alloc, places.as_slice())?;
    let frames = frames as u32;
    let parts = make(alloc, files, placed.as_slice(), places.as_slice(), frames)?;
    Ok(parts)
}
