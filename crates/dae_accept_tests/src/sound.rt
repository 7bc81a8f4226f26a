// `int n; int main(void) { return n; }`, and near misses.

use dae_base::{Items, LoadKind, Place, Text};
use dae_program::{Expression, Statement};
use dae_types_file_plans::{FileDeclaration, Role};
use dae_types_kinds::{Entity, EntityUse, Routine, Shape, StaticObject};
use dae_types_sound::is_sound;
use dae_types_typed::{FileParts, TypedFunction};
use std::alloc::{AllocError, Global};

const HERE: Place = Place {
    file: 0,
    line: 1,
    col: 1,
};

const N: Entity = Entity::Object(0);

const MAIN: Entity = Entity::Function(0);

fn add_shapes(shapes: &mut Items<Shape>) -> Result<(), AllocError> {
    shapes.push(Shape::Void)?;
    shapes.push(Shape::Char)?;
    shapes.push(Shape::SignedChar)?;
    shapes.push(Shape::UnsignedChar)?;
    shapes.push(Shape::Short)?;
    shapes.push(Shape::UnsignedShort)?;
    shapes.push(Shape::Int)?;
    shapes.push(Shape::Unsigned)?;
    shapes.push(Shape::NoParameters)?;
    shapes.push(Shape::Function(6, 8))
}

fn add_bytes(bytes: &mut Items<u8>, text: &[u8]) -> Result<(), AllocError> {
    for byte in text {
        bytes.push(*byte)?;
    }
    Ok(())
}

fn add_name(alloc: Global, names: &mut Items<Items<u8>>, text: &[u8]) -> Result<(), AllocError> {
    let mut bytes = Items::new(alloc);
    add_bytes(&mut bytes, text)?;
    names.push(bytes)
}

/// `main` ends with the object `n`, read so many bytes behind its start.
fn exit_with(alloc: Global, offset: u32) -> Result<Statement, AllocError> {
    let address = Box::new(alloc, Expression::Address(0, offset))?;
    let value = Box::new(alloc, Expression::Read(HERE, LoadKind::I32, false, address))?;
    let exit = Box::new(alloc, Expression::Exit(HERE, value))?;
    Ok(Statement::Evaluate(HERE, exit))
}

fn main_body(alloc: Global, offset: u32) -> Result<TypedFunction, AllocError> {
    let name = Text::from_str(alloc, "main")?;
    let mut body = Items::new(alloc);
    body.push(exit_with(alloc, offset)?)?;
    Ok(TypedFunction {
        routine: 0,
        name,
        place: HERE,
        parameters: Items::new(alloc),
        variables: 1,
        frame: 0,
        body,
    })
}

/// A file without parts.
fn empty_file(alloc: Global) -> FileParts {
    FileParts {
        shapes: Items::new(alloc),
        structures: Items::new(alloc),
        components: Items::new(alloc),
        objects: Items::new(alloc),
        routines: Items::new(alloc),
        declarations: Items::new(alloc),
        contents: Items::new(alloc),
        functions: Items::new(alloc),
        uses: Items::new(alloc),
        names: Items::new(alloc),
        literals: Items::new(alloc),
    }
}

fn declare(parts: &mut FileParts, entity: Entity, role: Role) -> Result<(), AllocError> {
    parts.declarations.push(FileDeclaration {
        entity,
        place: HERE,
        role,
    })
}

/// Adds the object `n` and its declaration.
fn add_object(parts: &mut FileParts) -> Result<(), AllocError> {
    parts.objects.push(StaticObject {
        name: 0,
        type_id: 6,
        own: false,
        initialised: false,
        placed: Some(HERE),
    })?;
    declare(parts, N, Role::Tentative)
}

/// Adds the function `main`, its definition and the use of `n` in it.
fn add_main(alloc: Global, parts: &mut FileParts, offset: u32) -> Result<(), AllocError> {
    parts.routines.push(Routine {
        name: 1,
        type_id: 9,
        own: false,
        defined: true,
        library: None,
    })?;
    declare(parts, MAIN, Role::Definition)?;
    parts.functions.push(main_body(alloc, offset)?)?;
    parts.uses.push(EntityUse {
        entity: N,
        place: HERE,
    })
}

fn fill(alloc: Global, parts: &mut FileParts, offset: u32, other: &[u8]) -> Result<(), AllocError> {
    add_shapes(&mut parts.shapes)?;
    add_object(parts)?;
    add_main(alloc, parts, offset)?;
    add_name(alloc, &mut parts.names, other)?;
    add_name(alloc, &mut parts.names, b"main")
}

/// Whether the file is sound whose object is read so many bytes behind its start, and has this name.
fn is_file_sound(alloc: Global, offset: u32, other: &[u8]) -> Result<bool, AllocError> {
    let mut parts = Box::new(alloc, empty_file(alloc))?;
    fill(alloc, &mut parts, offset, other)?;
    Ok(matches!(is_sound(alloc, &parts), Ok(true)))
}

fn holds(alloc: Global, offset: u32, other: &[u8]) -> bool {
    matches!(is_file_sound(alloc, offset, other), Ok(true))
}

#[test]
fn an_object_is_read_within_its_bytes(rt: HostRuntime) {
    let alloc = rt.alloc();
    assert!(rt; holds(alloc, 0, b"n"));
    assert!(rt; !holds(alloc, 2, b"n"));
    assert!(rt; !holds(alloc, 4, b"n"));
    assert!(rt; !holds(alloc, 4_294_967_292, b"n"));
}

#[test]
fn a_name_stands_for_one(rt: HostRuntime) {
    assert!(rt; !holds(rt.alloc(), 0, b"main"));
}
