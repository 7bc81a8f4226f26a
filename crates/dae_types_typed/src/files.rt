// Typed files.

ghost use Rattle.std.specs.Prelude.{◌≡◌};
ghost use Rattle.dae_types_typed.specs.Sound.{IsSound};

use dae_base::{Items, Place, Text};
use dae_program::{FrameSlot, Setting, Statement};
use dae_types_file_plans::FileDeclaration;
use dae_types_kinds::{Component, EntityUse, Routine, Shape, StaticObject, Structure};
use std::marker::Model;

/// The content of an initialised object with static storage, by the object's number: what is set, in the order of the text.
/// All else of it is 0 (C90 6.5.7).
#[derive(Drop)]
pub struct Datum {
    pub object: usize,
    pub settings: Items<Setting>,
}

/// A function with a body, by its number and its name. Its variables are numbered from 0: variable 0 holds what it returns, the
/// parameters follow from 1 on, and then the other scalars whose address isn't taken. A parameter with a slot is stored there
/// at the entry. The frame is in bytes.
#[derive(Drop)]
pub struct TypedFunction {
    pub routine: usize,
    pub name: Text,
    pub place: Place,
    pub parameters: Items<Option<FrameSlot>>,
    pub variables: u32,
    pub frame: u64,
    pub body: Items<Statement>,
}

/// What a file has: its types, structures and their members; its objects with static storage and its functions, each with the
/// type that it has at the end of the file; its declarations of these at file scope, what its objects hold, its functions'
/// bodies, and the uses of objects and functions, each in the order of the text; and the bytes of its names and literals.
#[derive(Drop)]
pub struct FileParts {
    pub shapes: Items<Shape>,
    pub structures: Items<Structure>,
    pub components: Items<Component>,
    pub objects: Items<StaticObject>,
    pub routines: Items<Routine>,
    pub declarations: Items<FileDeclaration>,
    pub contents: Items<Datum>,
    pub functions: Items<TypedFunction>,
    pub uses: Items<EntityUse>,
    pub names: Items<Items<u8>>,
    pub literals: Items<Items<u8>>,
}

/// A file without a broken rule. What a joiner may rely on, wherever it puts the objects, is its invariant (`IsSound`).
#[derive(Drop)]
pub struct TypedFile {
    parts: FileParts,
}

impl Model for TypedFile {
    ghost use Rattle.std.specs.Coded.{codes};
    ghost use Rattle.dae_program.specs.contracts.expressions.Expression as expression;
    ghost use Rattle.dae_program.specs.contracts.statements.Statement as statement;
    ghost use Rattle.dae_types_typed.specs.Sound.{IsSound};
    ghost use Rattle.dae_types_typed.specs.declared.files.FileParts.{FileParts};

    ghost Value = { FileParts };

    ghost coded = { Prim.hlevel (codes, expression.the_row.coded, statement.the_row.coded) };

    ghost view = { λ f. f.parts };

    ghost invariant = { λ f. IsSound f.parts };
}

impl TypedFile {
    /// A typed file, of its parts.
    pub fn new(parts: FileParts) -> TypedFile
        requires { IsSound parts }
        ensures { result ≡ parts }
    {
        TypedFile { parts }
    }

    /// The parts.
    pub fn parts(&self) -> &FileParts
        ensures value { result.now ≡ self.now }
        ensures sound { IsSound self.now }
    {
        &self.parts
    }

    /// The parts, given up.
    pub fn into_parts(self) -> FileParts
        ensures value { result ≡ self }
        ensures sound { IsSound self }
    {
        let TypedFile { parts } = self;
        parts
    }
}
