// Local objects at their declarations: the statements that set them (C90 6.5.7). A scalar without an initialiser is 0, and one
// whose own initialiser names it is 0 before.

ghost use Rattle.std.specs.Prelude.{◌≡◌, Ok, slice_get};
ghost use Rattle.dae_program.specs.Trees.{Number};
ghost use Rattle.dae_program.specs.Views.{view, view_target};
ghost use Rattle.dae_types_rules.specs.Plan.{Gives, pure};
ghost use Rattle.dae_types_file_plans.specs.Statements.{assigned_to, begin_local, frame_offset, initialised_at, offset_of_local, names_stored, own_set, scalar_value_at, set_to, storage_target, taken_or_not, type_of_local};
ghost use Rattle.dae_types_tables.specs.Seen.{tables};
ghost use Rattle.dae_types_folding.specs.Views.{MakesTree, view_value};
ghost use Rattle.dae_types_values.specs.Results.{one};
ghost use Rattle.dae_types_fills.specs.Fillings.{view_content};
ghost use Rattle.dae_types_bodies.specs.Written.{GivesStatements, MakesStatements, as_statements};

use crate::naming::names_variable;
use crate::sequences::{alone, append};
use dae_base::Place;
use dae_program::{Expression, Statement, Target};
use dae_types_fills::Content;
use dae_types_folding::{TypedValue, boxed, load_kind};
use dae_types_kinds::{CheckError, INT_ID, Local, Rule, Storage};
use dae_types_tables::{Checker, broken, is_scalar, is_structure};
use dae_types_values::{convert, fits};
use std::alloc::Global;

/// The type of a local object, by its number.
pub fn type_of_local(checker: &Checker, number: usize) -> usize
    ensures { result ≡ type_of_local (tables checker.now) number }
{
    match checker.local(number) {
        Some(local) => local.type_id,
        None => INT_ID,
    }
}

/// What an assignment to a local object writes.
fn storage_target(
    alloc: Global,
    storage: Option<Storage>,
    place: Place,
) -> Result<Target, CheckError>
    ensures { Gives view_target result (Ok (storage_target storage place)) }
{
    match storage {
        Some(Storage::Variable(variable)) => Ok(Target::Variable(variable)),
        Some(Storage::Frame(offset)) => {
            let address = boxed(alloc, Expression::Frame(place, offset))?;
            Ok(Target::Object(false, address))
        }
        None => {
            let address = boxed(alloc, Expression::Frame(place, 0))?;
            Ok(Target::Object(false, address))
        }
    }
}

/// The assignment of a value to a local scalar.
fn assigned_to(
    checker: &Checker,
    place: Place,
    number: usize,
    value: Box<Expression>,
) -> Result<Box<Expression>, CheckError>
    ensures { MakesTree result (assigned_to place (tables checker.now) number (view value.value)) }
{
    let kind = load_kind(checker.shape_of(type_of_local(checker, number)));
    let target = storage_target(checker.alloc, checker.storage(number), place)?;
    boxed(
        checker.alloc,
        Expression::Assign(place, kind, target, value),
    )
}

/// Sets a local scalar.
fn set_to(
    checker: &Checker,
    place: Place,
    number: usize,
    value: Box<Expression>,
) -> Result<Vec<Statement>, CheckError>
    ensures { MakesStatements result (set_to place (tables checker.now) number (view value.value)) }
{
    let tree = assigned_to(checker, place, number, value)?;
    alone(checker.alloc, Statement::Evaluate(place, tree))
}

/// Sets a local scalar to 0.
fn set_to_zero(checker: &Checker, place: Place, number: usize) -> Result<Vec<Statement>, CheckError>
    ensures { MakesStatements result (set_to place (tables checker.now) number (Number 0)) }
{
    let zero = boxed(checker.alloc, Expression::Number(0))?;
    set_to(checker, place, number, zero)
}

/// Whether an expression names what is kept so, in a variable.
fn names_stored(storage: Option<Storage>, e: &Expression) -> bool
    ensures { result ≡ names_stored storage (view e.now) }
{
    match storage {
        Some(Storage::Variable(variable)) => names_variable(variable, e),
        _ => false,
    }
}

/// Gives a local scalar the value of its own initialiser; where that reads it, it is 0 before.
fn set_by_own(
    checker: &Checker,
    place: Place,
    number: usize,
    value: Box<Expression>,
) -> Result<Vec<Statement>, CheckError>
    ensures { MakesStatements result
        (own_set (names_stored (slice_get (tables checker.now).storages number) (view value.value))
        place (tables checker.now) number (view value.value)) }
{
    if !names_stored(checker.storage(number), &value) {
        return set_to(checker, place, number, value);
    }
    let zero = set_to_zero(checker, place, number)?;
    let rest = set_to(checker, place, number, value)?;
    append(zero, rest)
}

/// Gives a local scalar a value; the first place is that of its name, the second that of the value.
#[tactic(auto, unfolding(dae_types_rules::specs::Plan::ask_all))]
pub fn initialise_scalar(
    checker: &Checker,
    place: Place,
    of_value: Place,
    number: usize,
    x: TypedValue,
) -> Result<Vec<Statement>, CheckError>
    ensures { GivesStatements checker.now result
        (scalar_value_at place of_value number (one x)) checker.now }
{
    let type_id = type_of_local(checker, number);
    if !fits(checker, &x, type_id) {
        return Err(broken(Rule::BadAssign, of_value));
    }
    if is_structure(checker.shape_of(x.type_id)) {
        return Err(broken(Rule::StructureValue, of_value));
    }
    let x = convert(checker, of_value, x, type_id)?;
    set_by_own(checker, place, number, x.tree)
}

/// Begins a local object without an initialiser: a scalar is 0, an aggregate holds anything.
pub fn begin_local(
    checker: &Checker,
    place: Place,
    number: usize,
) -> Result<Vec<Statement>, CheckError>
    ensures { GivesStatements checker.now result (begin_local place number) checker.now }
{
    if is_scalar(checker.shape_of(type_of_local(checker, number))) {
        set_to_zero(checker, place, number)
    } else {
        Ok(Vec::new(checker.alloc))
    }
}

/// The offset of what is kept in the frame.
fn frame_offset(storage: Option<Storage>) -> u32
    ensures { result ≡ frame_offset storage }
{
    match storage {
        Some(Storage::Frame(offset)) => offset,
        _ => 0,
    }
}

/// The offset in the frame of a local object, by its number, or 0 where it isn't there.
pub fn offset_of_local(checker: &Checker, number: usize) -> u32
    ensures { result ≡ offset_of_local (tables checker.now) number }
{
    frame_offset(checker.storage(number))
}

/// Whether the address of a local object is taken.
fn is_taken(local: Option<Local>) -> bool
    ensures { result ≡ taken_or_not local }
{
    match local {
        Some(local) => local.taken,
        None => false,
    }
}

/// Sets a local aggregate, which gets its type from what it holds: zeros, and then the items.
pub fn initialise_aggregate(
    checker: &mut Checker,
    place: Place,
    number: usize,
    content: Content,
) -> Result<Vec<Statement>, CheckError>
    ensures { GivesStatements checker.new result
        (initialised_at place number (pure (view_content content))) checker.old }
{
    let offset = offset_of_local(checker, number);
    let size = checker.layout_at(content.type_id).size;
    let taken = is_taken(checker.local(number));
    let whole = Statement::Initialise(place, offset, size, content.items);
    let statements = alone(checker.alloc, whole)?;
    let type_id = content.type_id;
    checker.set_local(number, Local { type_id, taken });
    Ok(statements)
}
