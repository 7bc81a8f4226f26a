// How the tables grow, and how rows are written anew.

ghost use Rattle.std.specs.Prelude.{◌≡◌, ℕ, Ok, length, take};
ghost use Rattle.dae_types_kinds.specs.Tables.{Tables, with_structure, with_component, with_name, with_tag, with_local, with_use, with_uses, with_object, with_routine, with_locals, with_storages, set_structure, set_local, set_object, set_routine};
ghost use Rattle.dae_types_kinds.specs.Types.{made};
ghost use Rattle.dae_types_rules.specs.Plan.{Gives};
ghost use Rattle.dae_types_tables.specs.Seen.{tables, Leaves, LeavesAnd, numbered_structure, numbered_object, numbered_routine};

use crate::Checker;
use dae_base::Place;
use dae_types_kinds::{
    CheckError, Component, Designation, Entity, EntityUse, Local, Routine, Shape, StaticObject,
    Storage, Structure, Tag, Tagged,
};

impl Checker {
    /// Makes a type of a shape, and gives its number.
    pub fn make(&mut self, shape: Shape) -> Result<usize, CheckError>
        ensures { LeavesAnd self.new result (made shape (tables self.old)) }
    {
        let id = self.shapes.len();
        self.shapes.push(shape)?;
        Ok(id)
    }

    /// Adds a structure, and gives its number.
    pub fn add_structure(&mut self, structure: Structure) -> Result<usize, CheckError>
        ensures { LeavesAnd self.new result (numbered_structure structure (tables self.old)) }
    {
        let number = self.structures.len();
        self.structures.push(structure)?;
        Ok(number)
    }

    /// Adds a member of a structure.
    pub fn add_component(&mut self, component: Component) -> Result<(), CheckError>
        ensures { Leaves self.new result (with_component component (tables self.old)) }
    {
        self.components.push(component)?;
        Ok(())
    }

    /// Declares a name in the innermost scope.
    pub fn add_name(&mut self, name: u32, entity: Entity) -> Result<(), CheckError>
        ensures { Leaves self.new result (with_name name entity (tables self.old)) }
    {
        self.names.push(Designation { name, entity })?;
        Ok(())
    }

    /// Declares a tag in the innermost scope.
    pub fn add_tag(&mut self, name: u32, tagged: Tagged) -> Result<(), CheckError>
        ensures { Leaves self.new result (with_tag name tagged (tables self.old)) }
    {
        self.tags.push(Tag { name, tagged })?;
        Ok(())
    }

    /// Adds a parameter or local object.
    pub fn add_local(&mut self, local: Local) -> Result<(), CheckError>
        ensures { Leaves self.new result (with_local local (tables self.old)) }
    {
        self.locals.push(local)?;
        Ok(())
    }

    /// Adds a use of a file's object or function.
    pub fn add_use(&mut self, entity: Entity, place: Place) -> Result<(), CheckError>
        ensures { Leaves self.new result (with_use entity place (tables self.old)) }
    {
        self.uses.push(EntityUse { entity, place })?;
        Ok(())
    }

    /// Adds an object of the file, and gives its number.
    pub fn add_object(&mut self, object: StaticObject) -> Result<usize, CheckError>
        ensures { LeavesAnd self.new result (numbered_object object (tables self.old)) }
    {
        let number = self.objects.len();
        self.objects.push(object)?;
        Ok(number)
    }

    /// Adds a function, and gives its number.
    pub fn add_routine(&mut self, routine: Routine) -> Result<usize, CheckError>
        ensures { LeavesAnd self.new result (numbered_routine routine (tables self.old)) }
    {
        let number = self.routines.len();
        self.routines.push(routine)?;
        Ok(number)
    }

    /// Writes a structure anew, where there is one of this number.
    pub fn set_structure(&mut self, number: usize, structure: Structure)
        ensures { tables self.new ≡ set_structure number structure (tables self.old) }
    {
        if let Some(found) = self.structures.get_mut(number) {
            *found = structure;
        }
    }

    /// Writes a parameter or local object anew, where there is one of this number.
    pub fn set_local(&mut self, number: usize, local: Local)
        ensures { tables self.new ≡ set_local number local (tables self.old) }
    {
        if let Some(found) = self.locals.get_mut(number) {
            *found = local;
        }
    }

    /// Writes an object of the file anew, where there is one of this number.
    pub fn set_object(&mut self, number: usize, object: StaticObject)
        ensures { tables self.new ≡ set_object number object (tables self.old) }
    {
        if let Some(found) = self.objects.get_mut(number) {
            *found = object;
        }
    }

    /// Writes a function anew, where there is one of this number.
    pub fn set_routine(&mut self, number: usize, routine: Routine)
        ensures { tables self.new ≡ set_routine number routine (tables self.old) }
    {
        if let Some(found) = self.routines.get_mut(number) {
            *found = routine;
        }
    }

    /// A copy of the uses so far. It costs a step for each, at each `sizeof` of an expression.
    pub fn copy_uses(&self) -> Result<Vec<EntityUse>, CheckError>
        ensures { Gives (λ uses. uses.items) result (Ok (tables self.now).uses) }
    {
        Ok(self.uses.clone()?)
    }

    /// Puts other uses in the place of those so far.
    pub fn set_uses(&mut self, uses: Vec<EntityUse>)
        ensures { tables self.new ≡ with_uses uses.items (tables self.old) }
    {
        self.uses = uses;
    }

    /// Puts other places in the place of where parameters and local objects are kept.
    pub fn set_storages(&mut self, storages: Vec<Storage>)
        ensures { tables self.new ≡ with_storages storages.items (tables self.old) }
    {
        self.storages = storages;
    }

    /// Leaves the first so many parameters and local objects.
    pub fn cut_locals(&mut self, count: usize)
        ensures { tables self.new
            ≡ with_locals (take count (tables self.old).locals) (tables self.old) }
    {
        self.locals.truncate(count);
    }
}
