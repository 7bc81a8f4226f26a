// The rows of the tables of what is declared.

use dae_base::Place;
use dae_tree::Name;

/// A member of a structure, by the structure's number, with its offset in bytes.
#[derive(Clone, Copy)]
pub struct Component {
    pub structure: usize,
    pub name: u32,
    pub offset: u32,
    pub type_id: usize,
}

/// What a name stands for: an object of the file, a parameter or local object, a type, an enumerator or a function.
#[derive(Clone, Copy)]
pub enum Entity {
    Object(usize),
    Local(usize),
    Type(usize),
    Enumerator(u32),
    Function(usize),
}

/// A name and what it stands for.
#[derive(Clone, Copy)]
pub struct Designation {
    pub name: u32,
    pub entity: Entity,
}

/// What a tag stands for.
#[derive(Clone, Copy)]
pub enum Tagged {
    Structure(usize),
    Enumeration,
}

/// A tag and what it stands for.
#[derive(Clone, Copy)]
pub struct Tag {
    pub name: u32,
    pub tagged: Tagged,
}

/// An object with static storage: whether it is of this file alone, whether it is initialised, and the first declaration
/// that gives it room.
#[derive(Clone, Copy)]
pub struct StaticObject {
    pub name: u32,
    pub type_id: usize,
    pub own: bool,
    pub initialised: bool,
    pub placed: Option<Place>,
}

/// A parameter or a local object, and whether its address is taken.
#[derive(Clone, Copy)]
pub struct Local {
    pub type_id: usize,
    pub taken: bool,
}

/// The functions of the standard library that a header declares.
#[derive(Clone, Copy)]
pub enum LibraryFunction {
    Printf,
    Putchar,
    Exit,
    Abort,
}

/// A function: whether it is of this file alone, whether it has a body, and which of the standard library it is.
#[derive(Clone, Copy)]
pub struct Routine {
    pub name: u32,
    pub type_id: usize,
    pub own: bool,
    pub defined: bool,
    pub library: Option<LibraryFunction>,
}

/// Where a parameter or local object is kept: in a variable, or in the frame at an offset in bytes.
#[derive(Clone, Copy)]
pub enum Storage {
    Variable(u32),
    Frame(u32),
}

/// A use of a file's object or function.
#[derive(Clone, Copy)]
pub struct EntityUse {
    pub entity: Entity,
    pub place: Place,
}

/// Where the innermost scope of names and of tags starts.
#[derive(Clone, Copy)]
pub struct Innermost {
    pub names: usize,
    pub tags: usize,
}

/// What a declarator declares: a name or none, and a type.
#[derive(Clone, Copy)]
pub struct NamedType {
    pub name: Option<Name>,
    pub type_id: usize,
}

/// Where specifiers stand.
#[derive(Clone, Copy)]
pub enum Context {
    File,
    Block,
    Member,
    Parameter,
    TypeName,
}
