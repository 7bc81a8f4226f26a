// What the numbers of each file mean.

ghost use Rattle.std.specs.Prelude.{◌≡◌, ◌<◌, ◌≤◌, ◌^◌, ◌++◌, ◌∷◌, [], IfOk, OnOk, length, take, drop, slice_index};
ghost use Rattle.dae_unit.specs.Identities.{IsIndexed};
ghost use Rattle.dae_unit.specs.Meanings.{object_place, object_places, body_rows, bodies_of, function_number, function_numbers, main_from, links_in, links_of, functions_in, functions_from};

use dae_base::Items;
use dae_program::{Function, Links};
use dae_types_file_plans::{FileDeclaration, Role};
use dae_types_kinds::{Entity, Routine, StaticObject};
use dae_types_typed::{FileParts, TypedFile, TypedFunction};
use dae_unit::{FileRow, NumberedRows, external_name, is_main, number_of, same_name};
use std::alloc::{AllocError, Global};

/// Declarations that give room, and the places of objects and literals.
#[derive(Clone, Copy)]
pub struct Rooms<'r, 'f> {
    pub placed: NumberedRows<'r, 'f>,
    pub places: &'r [u32],
}

/// A file of a program: its number, its parts, and the addresses of its literals.
#[derive(Clone, Copy)]
struct JoinedFile<'f> {
    number: usize,
    parts: &'f FileParts,
    literals: &'f [u32],
}

fn object_place(files: &[TypedFile], rooms: Rooms, file: usize, entity: Entity) -> u32
    requires { IsIndexed files.now rooms.placed }
    ensures { result
        ≡ object_place files.now rooms.entry.placed.rows.now rooms.entry.places.now file entity }
{
    let number = number_of(files, file, entity, rooms.placed);
    if number < rooms.placed.rows.len() {
        match rooms.places.get(number) {
            Some(place) => *place,
            None => 0,
        }
    } else {
        0
    }
}

fn push_places(
    addresses: &mut Vec<u32>,
    files: &[TypedFile],
    rooms: Rooms,
    file: usize,
    objects: &[StaticObject],
) -> Result<(), AllocError>
    requires { IsIndexed files.now rooms.placed }
    ensures { OnOk result
        (addresses.new.items
        ≡ object_places files.now rooms.entry.placed.rows.now rooms.entry.places.now file
        addresses.old.items 0 objects.now) }
{
    for (number, _) in objects.iter().enumerate() {
        addresses.push(object_place(files, rooms, file, Entity::Object(number)))?;
    }
    Ok(())
}

fn push_bodies(
    bodies: &mut Vec<FileRow>,
    file: usize,
    functions: &[TypedFunction],
) -> Result<(), AllocError>
    ensures { OnOk result (bodies.new.items ≡ body_rows bodies.old.items file functions.now) }
{
    for function in functions {
        bodies.push(FileRow {
            file,
            declaration: FileDeclaration {
                entity: Entity::Function(function.routine),
                place: function.place,
                role: Role::Definition,
            },
        })?;
    }
    Ok(())
}

/// The functions with bodies of all files.
pub fn bodies_of(alloc: Global, files: &[TypedFile]) -> Result<Vec<FileRow>, AllocError>
    ensures { IfOk result (λ bodies. bodies.items ≡ bodies_of files.now) }
{
    let mut bodies = Vec::new(alloc);
    for (number, file) in files.iter().enumerate() {
        push_bodies(&mut bodies, number, file.parts().functions.as_slice())?;
    }
    Ok(bodies)
}

#[tactic(auto, unfolding(dae_unit::specs::Meanings::function_number))]
fn function_number(files: &[TypedFile], bodies: NumberedRows, file: usize, entity: Entity) -> u32
    requires few { length bodies.rows.now < 2 ^ 32 }
    requires indexed { IsIndexed files.now bodies }
    ensures { result ≡ function_number files.now bodies.entry.rows.now file entity }
{
    if same_name(external_name(files, file, entity), Some(b"main")) {
        bodies.rows.len() as u32
    } else {
        number_of(files, file, entity, bodies) as u32
    }
}

fn function_numbers(
    alloc: Global,
    files: &[TypedFile],
    bodies: NumberedRows,
    file: usize,
    routines: &[Routine],
) -> Result<Vec<u32>, AllocError>
    requires few { length bodies.rows.now < 2 ^ 32 }
    requires indexed { IsIndexed files.now bodies }
    ensures { IfOk result
        (λ numbers. numbers.items
        ≡ function_numbers files.now bodies.entry.rows.now file [] 0 routines.now) }
{
    let mut numbers = Vec::new(alloc);
    for (number, _) in routines.iter().enumerate() {
        numbers.push(function_number(files, bodies, file, Entity::Function(number)))?;
    }
    Ok(numbers)
}

/// The number of main among the functions with bodies, or that behind all.
pub fn main_of(files: &[TypedFile], bodies: &[FileRow]) -> usize
    ensures number { result ≡ main_from files.now 0 bodies.now }
    ensures within { result ≤ length bodies.now }
{
    for (number, row) in bodies.iter().enumerate() {
        if is_main(files, *row) {
            return number;
        }
    }
    bodies.len()
}

fn front(places: &[u32], count: usize) -> &[u32]
    ensures { result.now ≡ take count places.now }
{
    if count < places.len() {
        &places[..count]
    } else {
        places
    }
}

/// The items behind the first ones.
pub fn behind(places: &[u32], count: usize) -> &[u32]
    ensures { result.now ≡ drop count places.now }
{
    if count < places.len() {
        &places[count..]
    } else {
        &[]
    }
}

/// What the numbers of a file mean.
fn links_in(
    alloc: Global,
    files: &[TypedFile],
    rooms: Rooms,
    bodies: NumberedRows,
    file: JoinedFile,
) -> Result<Links, AllocError>
    requires few { length bodies.rows.now < 2 ^ 32 }
    requires rooms { IsIndexed files.now rooms.placed }
    requires bodies { IsIndexed files.now bodies }
    ensures { IfOk result
        (λ links. links
        ≡ links_in files.now rooms.entry.placed.rows.now bodies.entry.rows.now
        rooms.entry.places.now file.entry.literals.now file.entry.number file.entry.parts.now) }
{
    let number = file.number;
    let objects = file.parts.objects.as_slice();
    let routines = file.parts.routines.as_slice();
    let mut addresses = Vec::from_slice(alloc, file.literals)?;
    push_places(&mut addresses, files, rooms, number, objects)?;
    let functions = function_numbers(alloc, files, bodies, number, routines)?;
    Ok(Links {
        addresses: Items::from_vec(addresses),
        functions: Items::from_vec(functions),
    })
}

/// What the numbers of each file mean.
pub fn links_of(
    alloc: Global,
    files: &[TypedFile],
    rooms: Rooms,
    bodies: NumberedRows,
) -> Result<Vec<Links>, AllocError>
    requires few { length bodies.rows.now < 2 ^ 32 }
    requires rooms { IsIndexed files.now rooms.placed }
    requires bodies { IsIndexed files.now bodies }
    ensures { IfOk result
        (λ links. links.items
        ≡ links_of files.now rooms.entry.placed.rows.now bodies.entry.rows.now
        rooms.entry.places.now) }
{
    let mut links = Vec::new(alloc);
    let mut rest = behind(rooms.places, rooms.placed.rows.len());
    for (number, file) in files.iter().enumerate() {
        let parts = file.parts();
        let count = parts.literals.len();
        let joined = JoinedFile {
            number,
            parts,
            literals: front(rest, count),
        };
        links.push(links_in(alloc, files, rooms, bodies, joined)?)?;
        rest = behind(rest, count);
    }
    Ok(links)
}

#[tactic(auto, using(crate::proofs::Behind::functions_behind))]
fn push_functions(
    functions: &mut Vec<Function>,
    file: u32,
    bodies: Items<TypedFunction>,
) -> Result<(), AllocError>
    ensures { OnOk result (functions.new.items ≡ functions_in functions.old.items file bodies) }
{
    for body in bodies.into_vec() {
        functions.push(Function {
            name: body.name,
            place: body.place,
            file,
            parameters: body.parameters,
            variables: body.variables,
            frame: body.frame,
            body: body.body,
        })?;
    }
    Ok(())
}

/// The functions of a file, whose other parts go.
fn functions_of_file(file: TypedFile) -> Items<TypedFunction>
    ensures { result ≡ file.functions }
{
    file.into_parts().functions
}

/// The functions of the program, in the order of the files and of the text.
pub fn functions_of(alloc: Global, files: Vec<TypedFile>) -> Result<Vec<Function>, AllocError>
    requires { length files.items < 2 ^ 32 }
    ensures { IfOk result (λ functions. functions.items ≡ functions_from [] 0 files.items) }
{
    let mut functions = Vec::new(alloc);
    let mut number: u32 = 0;
    for file in files {
        push_functions(&mut functions, number, functions_of_file(file))?;
        number = number.saturating_add(1);
    }
    Ok(functions)
}
