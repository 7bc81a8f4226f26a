// The tables of what is declared, as vectors.

ghost use Rattle.std.specs.Prelude.{◌≡◌, IfOk};
ghost use Rattle.dae_types_tables.specs.Seen.{tables, bare};

use crate::basic::FIRST_SHAPES;
use crate::names::NameTable;
use dae_base::Items;
use dae_types_kinds::{
    CheckError, Component, Designation, EntityUse, Innermost, Local, Routine, Shape, StaticObject,
    Storage, Structure, Tag,
};
use std::alloc::Global;

/// What has been declared so far. Rows stand in the order of the text; a row's number is its place.
#[derive(Drop)]
pub struct Checker {
    /// Where the memory of the tables, and of what is made of them, comes from.
    pub alloc: Global,
    pub(crate) shapes: Vec<Shape>,
    pub(crate) structures: Vec<Structure>,
    pub(crate) components: Vec<Component>,
    pub(crate) names: NameTable,
    pub(crate) tags: Vec<Tag>,
    pub(crate) innermost: Innermost,
    pub(crate) kept_names: Vec<Designation>,
    pub(crate) kept_tags: Vec<Tag>,
    pub(crate) objects: Vec<StaticObject>,
    pub(crate) routines: Vec<Routine>,
    pub(crate) locals: Vec<Local>,
    pub(crate) storages: Vec<Storage>,
    pub(crate) uses: Vec<EntityUse>,
    pub(crate) literals: Items<Items<u8>>,
    pub(crate) main: Option<u32>,
}

impl Checker {
    /// The tables of a file with these literals, in which the name main has this number, before
    /// anything is declared.
    pub fn new(
        alloc: Global,
        literals: Items<Items<u8>>,
        main: Option<u32>,
    ) -> Result<Checker, CheckError>
        ensures { IfOk result (λ c. tables c ≡ bare literals main) }
    {
        Ok(Checker {
            alloc,
            shapes: Vec::from_array(alloc, FIRST_SHAPES)?,
            structures: Vec::new(alloc),
            components: Vec::new(alloc),
            names: NameTable::new(alloc),
            tags: Vec::new(alloc),
            innermost: Innermost { names: 0, tags: 0 },
            kept_names: Vec::new(alloc),
            kept_tags: Vec::new(alloc),
            objects: Vec::new(alloc),
            routines: Vec::new(alloc),
            locals: Vec::new(alloc),
            storages: Vec::new(alloc),
            uses: Vec::new(alloc),
            literals,
            main,
        })
    }
}
