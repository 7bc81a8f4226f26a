// Look-ups in the tables of a file.

ghost use Rattle.std.specs.Prelude.{◌≡◌, IfOk, [], length, slice_get};
ghost use Rattle.dae_types_plans.specs.Steps.{parameter_types, parameters_from};
ghost use Rattle.dae_types_kinds.specs.declared.tables.Entity.TheVariants as entities;
ghost use Rattle.dae_types_typed.specs.Sound.{tables_of};
ghost use Rattle.dae_types_sound.specs.Used.{AreUsed};
ghost use Rattle.dae_types_sound.specs.Names.{names_in, parameter_list, shorter, used_count, used_counts, used_layout, used_layouts};

use crate::extents::FileNames;
use crate::used::{used_functions, used_objects};
use dae_base::Items;
use dae_types_kinds::{INT_ID, Layout, NO_PARAMETERS_ID, Routine, Shape, StaticObject};
use dae_types_ready::Doubt;
use dae_types_typed::FileParts;
use indexmap::IndexSet;
use std::alloc::Global;

/// The list of the types of a function's parameters.
fn parameter_list(parts: &FileParts, routine: usize) -> Shape
    ensures { result ≡ parameter_list (tables_of parts.now) routine }
{
    let type_id = match parts.routines.as_slice().get(routine) {
        Some(routine) => routine.type_id,
        None => INT_ID,
    };
    match parts.shape_of(type_id) {
        Shape::Function(_, parameters) => parts.shape_of(parameters),
        _ => parts.shape_of(NO_PARAMETERS_ID),
    }
}

/// The number of a function's parameters.
#[tactic(auto, unfolding(dae_types_plans::specs::Steps::parameter_types))]
pub fn count_parameters(parts: &FileParts, routine: usize) -> usize
    ensures { result ≡ length (parameter_types (tables_of parts.now) routine) }
{
    count_from(parts, parameter_list(parts, routine))
}

/// The list before the last type of a list of the types of parameters, if it has one.
fn shorter(parts: &FileParts, list: Shape) -> Option<Shape>
    ensures { result ≡ shorter (tables_of parts.now) list }
{
    match list {
        Shape::Parameter(before, _) => Some(parts.shape_of(before)),
        _ => None,
    }
}

/// The length of a list of the types of parameters.
fn count_from(parts: &FileParts, list: Shape) -> usize
    ensures { result
        ≡ length (parameters_from (length parts.now.shapes) (tables_of parts.now) list) }
{
    let mut rest = list;
    for count in 0..parts.shapes.len() {
        match shorter(parts, rest) {
            Some(before) => rest = before,
            None => return count,
        }
    }
    parts.shapes.len()
}

/// The layout of an object, where that is among those that are used.
fn used_layout(
    parts: &FileParts,
    used: &IndexSet<usize>,
    number: usize,
    object: StaticObject,
) -> Option<Layout>
    requires { AreUsed parts.now.uses entities.Object used.now }
    ensures { result ≡ used_layout parts.now number object }
{
    if used.contains(&number) {
        return Some(parts.layout_at(object.type_id));
    }
    None
}

fn used_layouts(alloc: Global, parts: &FileParts) -> Result<Items<Option<Layout>>, Doubt>
    ensures { IfOk result (λ layouts. layouts ≡ used_layouts parts.now [] 0 parts.now.objects) }
{
    let used = used_objects(alloc, parts.uses.as_slice())?;
    let mut layouts = Vec::new(alloc);
    for (number, object) in parts.objects.as_slice().iter().enumerate() {
        layouts.push(used_layout(parts, &used, number, *object))?;
    }
    Ok(Items::from_vec(layouts))
}

/// The number of a function's parameters, where that is among those that are used.
fn used_count(parts: &FileParts, used: &IndexSet<usize>, number: usize) -> Option<usize>
    requires { AreUsed parts.now.uses entities.Function used.now }
    ensures { result ≡ used_count parts.now number }
{
    if used.contains(&number) {
        return Some(count_parameters(parts, number));
    }
    None
}

fn used_counts(
    alloc: Global,
    parts: &FileParts,
    routines: &[Routine],
) -> Result<Items<Option<usize>>, Doubt>
    ensures { IfOk result (λ counts. counts ≡ used_counts parts.now [] 0 routines.now) }
{
    let used = used_functions(alloc, parts.uses.as_slice())?;
    let mut counts = Vec::new(alloc);
    for (number, _) in routines.iter().enumerate() {
        counts.push(used_count(parts, &used, number))?;
    }
    Ok(Items::from_vec(counts))
}

/// What the bodies of a file may name.
pub fn names_in(alloc: Global, parts: &FileParts) -> Result<FileNames, Doubt>
    ensures { IfOk result (λ names. names ≡ names_in parts.now) }
{
    Ok(FileNames {
        literals: parts.literals.len(),
        objects: used_layouts(alloc, parts)?,
        functions: used_counts(alloc, parts, parts.routines.as_slice())?,
    })
}
