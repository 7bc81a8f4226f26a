// Conversions, and what may be converted to what (C90 6.2, 6.3.4 and 6.3.16.1).

ghost use Rattle.std.specs.Prelude.{◌≡◌};
ghost use Rattle.dae_types_kinds.specs.Values.{cast_to, converted, fits, is_constant_zero, is_null, is_null_pointer, null_pointer};
ghost use Rattle.dae_types_rules.specs.Sites.{AtCast};
ghost use Rattle.dae_types_rules.specs.Table.{bad_cast};
ghost use Rattle.dae_types_plans.specs.Steps.{cast_at};
ghost use Rattle.dae_types_tables.specs.Seen.{Follows, tables};
ghost use Rattle.dae_types_folding.specs.Views.{MakesValue, view_value};
ghost use Rattle.dae_types_values.specs.Results.{GivesValue, cast_of};

use dae_base::Place;
use dae_types_folding::{TypedValue, changed, is_zero, known_as, load_kind};
use dae_types_kinds::{CheckError, Known, Rule, Shape};
use dae_types_tables::{Checker, broken, is_integer, is_scalar, is_structure, is_void};

/// Whether this is a number that is 0, cast to `void *`.
fn is_null_pointer(known: Known) -> bool
    ensures { result ≡ is_null_pointer known }
{
    match known {
        Known::NullPointer => true,
        _ => false,
    }
}

/// Whether a value is an integer constant expression that is 0.
fn is_constant_zero(checker: &Checker, x: &TypedValue) -> bool
    ensures { result ≡ is_constant_zero (tables checker.now) (view_value x.now) }
{
    is_integer(checker.shape_of(x.type_id)) && is_zero(x.known)
}

/// Whether a value is a null pointer constant (C90 6.2.2.3).
pub fn is_null(checker: &Checker, x: &TypedValue) -> bool
    ensures { result ≡ is_null (tables checker.now) (view_value x.now) }
{
    is_constant_zero(checker, x) || is_null_pointer(x.known)
}

/// A value as one of another type.
#[tactic(auto, unfolding(dae_types_kinds::specs::Values::converted))]
pub fn convert(
    checker: &Checker,
    place: Place,
    x: TypedValue,
    type_id: usize,
) -> Result<TypedValue, CheckError>
    ensures { MakesValue result (converted place (tables checker.now) (view_value x) type_id) }
{
    let from = checker.shape_of(x.type_id);
    let to = checker.shape_of(type_id);
    if is_void(to) {
        return Ok(TypedValue::plain(x.tree, type_id));
    }
    let known = known_as(from, to, x.known);
    let tree = changed(checker.alloc, place, load_kind(from), load_kind(to), x.tree)?;
    Ok(TypedValue::of_known(tree, type_id, known))
}

/// Whether a value may be assigned to an object of a type.
#[tactic(auto, unfolding(dae_types_kinds::specs::Values::fits))]
pub fn fits(checker: &Checker, x: &TypedValue, type_id: usize) -> bool
    ensures { result ≡ fits (tables checker.now) (view_value x.now) type_id }
{
    match (checker.shape_of(x.type_id), checker.shape_of(type_id)) {
        (Shape::Pointer(one), Shape::Pointer(other)) => {
            checker.same(x.type_id, type_id)
                || (is_void(checker.shape_of(one)) || is_void(checker.shape_of(other)))
        }
        (_, Shape::Pointer(_)) => is_null(checker, x),
        (Shape::Struct(one), Shape::Struct(other)) => one == other,
        (from, to) => is_integer(from) && is_integer(to),
    }
}

/// Whether a cast isn't one of the permitted ones.
fn is_bad_cast(place: Place, from: Shape, to: Shape) -> bool
    ensures { result ≡ bad_cast (AtCast place from to) }
{
    if is_void(to) {
        is_structure(from)
    } else {
        !(is_scalar(from) && is_scalar(to))
    }
}

/// Whether a cast to a type makes a null pointer constant of a value (C90 6.2.2.3).
fn is_made_null(checker: &Checker, x: &TypedValue, type_id: usize) -> bool
    ensures { result ≡ null_pointer (tables checker.now) (view_value x.now) type_id }
{
    let Shape::Pointer(to) = checker.shape_of(type_id) else {
        return false;
    };
    is_void(checker.shape_of(to)) && is_constant_zero(checker, x)
}

/// A value as one of another type by a cast.
fn cast_to(
    checker: &Checker,
    place: Place,
    x: TypedValue,
    type_id: usize,
) -> Result<TypedValue, CheckError>
    ensures { MakesValue result (cast_to place (tables checker.now) (view_value x) type_id) }
{
    let is_null = is_made_null(checker, &x, type_id);
    let y = convert(checker, place, x, type_id)?;
    let known = if is_null { Known::NullPointer } else { y.known };
    Ok(TypedValue {
        tree: y.tree,
        type_id: y.type_id,
        category: y.category,
        known,
    })
}

/// A cast.
#[tactic(auto, unfolding(dae_types_rules::specs::Plan::ask_all))]
pub fn cast(
    checker: &Checker,
    place: Place,
    type_id: usize,
    x: TypedValue,
) -> Result<TypedValue, CheckError>
    ensures { GivesValue checker.now result (cast_at place (cast_of type_id x)) checker.now }
{
    if is_bad_cast(
        place,
        checker.shape_of(x.type_id),
        checker.shape_of(type_id),
    ) {
        return Err(broken(Rule::BadCast, place));
    }
    cast_to(checker, place, x, type_id)
}
