// What the latest scope that ended declared, which may be kept and put back; and what is left of the tables of a file.

ghost use Rattle.std.specs.Prelude.{◌≡◌, Ok};
ghost use Rattle.dae_types_rules.specs.Plan.{Gives};
ghost use Rattle.dae_types_tables.specs.Kept.{Remains, kept_scope, view_kept, with_kept};
ghost use Rattle.dae_types_tables.specs.Seen.{tables};

use crate::Checker;
use dae_base::Items;
use dae_types_kinds::{
    CheckError, Component, Designation, EntityUse, Routine, Shape, StaticObject, Storage,
    Structure, Tag,
};

/// The names and tags that a scope declared.
#[derive(Drop)]
pub struct Kept {
    pub names: Vec<Designation>,
    pub tags: Vec<Tag>,
}

/// The types of a file, its objects and functions, with their uses, and its literals, at its end.
#[derive(Drop)]
pub struct FileTables {
    pub shapes: Vec<Shape>,
    pub structures: Vec<Structure>,
    pub components: Vec<Component>,
    pub objects: Vec<StaticObject>,
    pub routines: Vec<Routine>,
    pub uses: Vec<EntityUse>,
    pub literals: Items<Items<u8>>,
}

/// A copy of what the latest scope that ended declared.
pub fn copy_kept(checker: &Checker) -> Result<Kept, CheckError>
    ensures { Gives view_kept result (Ok (kept_scope (tables checker.now))) }
{
    let names = checker.kept_names.clone()?;
    let tags = checker.kept_tags.clone()?;
    Ok(Kept { names, tags })
}

/// Puts other names and tags in the place of what the latest scope that ended declared.
pub fn set_kept(checker: &mut Checker, kept: Kept)
    ensures { tables checker.new ≡ with_kept kept.names.items kept.tags.items (tables checker.old) }
{
    let Kept { names, tags } = kept;
    checker.kept_names = names;
    checker.kept_tags = tags;
}

/// Where the parameters and local objects are kept, as far as that is settled.
pub fn storages(checker: &Checker) -> &[Storage]
    ensures { result.now ≡ (tables checker.now).storages }
{
    checker.storages.as_slice()
}

/// The objects of the file so far.
pub fn objects(checker: &Checker) -> &[StaticObject]
    ensures { result.now ≡ (tables checker.now).objects }
{
    checker.objects.as_slice()
}

/// What is left of the tables of a file.
pub fn file_tables(checker: Checker) -> FileTables
    ensures { Remains result (tables checker) }
{
    FileTables {
        shapes: checker.shapes,
        structures: checker.structures,
        components: checker.components,
        objects: checker.objects,
        routines: checker.routines,
        uses: checker.uses,
        literals: checker.literals,
    }
}
