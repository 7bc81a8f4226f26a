// `&&`, `||`, `?:` and the comma (C90 6.3.13 to 6.3.15 and 6.3.17).

ghost use Rattle.std.specs.Prelude.{◌≡◌, Ok};
ghost use Rattle.dae_program.specs.Views.{view};
ghost use Rattle.dae_types_kinds.specs.Values.{comma, conditional_by, either_addressing, either_category, joined, joined_pointers, kept_category, known_if};
ghost use Rattle.dae_types_rules.specs.Plan.{Gives, pure};
ghost use Rattle.dae_types_plans.specs.Steps.{and_at, comma_at, conditional_at, or_at};
ghost use Rattle.dae_types_tables.specs.Seen.{tables};
ghost use Rattle.dae_types_folding.specs.Views.{view_value};
ghost use Rattle.dae_types_values.specs.Results.{Joins, three, GivesValue, two};

use dae_base::Place;
use dae_program::Expression;
use dae_types_folding::{TypedValue, boxed, common, known_and, known_branch, known_or};
use dae_types_kinds::{Addressing, Category, CheckError, INT_ID, Known, Rule, Shape, VOID_ID};
use dae_types_tables::{Checker, broken, is_integer, is_scalar, is_void};
use dae_types_values::is_null;

/// `&&` between two values, at their places.
#[inline(never)]
#[tactic(auto, unfolding(dae_types_rules::specs::Plan::ask_all))]
pub fn and(
    checker: &Checker,
    place: Place,
    second: Place,
    x: TypedValue,
    y: TypedValue,
) -> Result<TypedValue, CheckError>
    ensures { GivesValue checker.now result (and_at place second (two x y)) checker.now }
{
    if !is_scalar(checker.shape_of(x.type_id)) {
        return Err(broken(Rule::NotScalar, place));
    }
    if !is_scalar(checker.shape_of(y.type_id)) {
        return Err(broken(Rule::NotScalar, second));
    }
    let known = known_and(x.known, y.known);
    let tree = boxed(checker.alloc, Expression::And(place, x.tree, y.tree))?;
    Ok(TypedValue::of_known(tree, INT_ID, known))
}

/// `||` between two values, at their places.
#[inline(never)]
#[tactic(auto, unfolding(dae_types_rules::specs::Plan::ask_all))]
pub fn or(
    checker: &Checker,
    place: Place,
    second: Place,
    x: TypedValue,
    y: TypedValue,
) -> Result<TypedValue, CheckError>
    ensures { GivesValue checker.now result (or_at place second (two x y)) checker.now }
{
    if !is_scalar(checker.shape_of(x.type_id)) {
        return Err(broken(Rule::NotScalar, place));
    }
    if !is_scalar(checker.shape_of(y.type_id)) {
        return Err(broken(Rule::NotScalar, second));
    }
    let known = known_or(x.known, y.known);
    let tree = boxed(checker.alloc, Expression::Or(place, x.tree, y.tree))?;
    Ok(TypedValue::of_known(tree, INT_ID, known))
}

/// The type of two pointers that are the branches of a conditional, where they go together.
fn join_pointers(
    checker: &mut Checker,
    left: usize,
    right: usize,
    m: usize,
    n: usize,
) -> Result<Option<usize>, CheckError>
    ensures { Joins checker.new result (joined_pointers (tables checker.old) left right m n) }
{
    if checker.same(left, right) {
        Ok(Some(checker.composite(left, right)?))
    } else if is_void(checker.shape_of(m)) {
        Ok(Some(left))
    } else if is_void(checker.shape_of(n)) {
        Ok(Some(right))
    } else {
        Ok(None)
    }
}

/// The type of a conditional by its branches, where they go together.
#[tactic(auto, unfolding(dae_types_kinds::specs::Values::joined))]
fn join(checker: &mut Checker, y: &TypedValue, z: &TypedValue) -> Result<Option<usize>, CheckError>
    ensures { Joins checker.new result
        (joined (tables checker.old) (view_value y.now) (view_value z.now)) }
{
    match (checker.shape_of(y.type_id), checker.shape_of(z.type_id)) {
        (Shape::Void, Shape::Void) => Ok(Some(VOID_ID)),
        (Shape::Struct(one), Shape::Struct(other)) if one == other => Ok(Some(y.type_id)),
        (Shape::Pointer(_), _) if is_null(checker, z) => Ok(Some(y.type_id)),
        (_, Shape::Pointer(_)) if is_null(checker, y) => Ok(Some(z.type_id)),
        (Shape::Pointer(one), Shape::Pointer(other)) => {
            join_pointers(checker, y.type_id, z.type_id, one, other)
        }
        (left, right) if is_integer(left) && is_integer(right) => Ok(Some(common(left, right))),
        _ => Ok(None),
    }
}

/// What kind of value a conditional gives.
fn either_category(first: Category, second: Category) -> Category
    ensures { result ≡ either_category first second }
{
    match (first, second) {
        (Category::Aggregate(one), Category::Aggregate(other)) => {
            Category::Aggregate(either_addressing(one, other))
        }
        _ => Category::Plain,
    }
}

/// How one of two addresses is come by: indirectly, if either is.
fn either_addressing(one: Addressing, other: Addressing) -> Addressing
    ensures { result ≡ either_addressing one other }
{
    match one {
        Addressing::Direct => other,
        Addressing::Indirect => Addressing::Indirect,
    }
}

/// What is known, of an integer type alone.
fn known_if(is_integer: bool, known: Known) -> Known
    ensures { result ≡ known_if is_integer known }
{
    if is_integer { known } else { Known::Nothing }
}

/// A conditional's value.
fn conditional_by(
    tree: Box<Expression>,
    type_id: usize,
    category: Category,
    known: Known,
) -> TypedValue
    ensures { view_value result ≡ conditional_by (view tree.value) type_id category known }
{
    match category {
        Category::Aggregate(_) => TypedValue {
            tree,
            type_id,
            category,
            known: Known::Nothing,
        },
        _ => TypedValue::of_known(tree, type_id, known),
    }
}

/// `?:` of a scalar and two values.
#[tactic(auto, unfolding(dae_types_rules::specs::Plan::ask_all))]
pub fn conditional(
    checker: &mut Checker,
    place: Place,
    x: TypedValue,
    y: TypedValue,
    z: TypedValue,
) -> Result<TypedValue, CheckError>
    ensures { GivesValue checker.new result (conditional_at place (three x y z)) checker.old }
{
    let Some(type_id) = join(checker, &y, &z)? else {
        return Err(broken(Rule::BadOperands, place));
    };
    let known = known_branch(x.known, y.known, z.known);
    let known = known_if(is_integer(checker.shape_of(type_id)), known);
    let category = either_category(y.category, z.category);
    let tree = Expression::Conditional(place, x.tree, y.tree, z.tree);
    let tree = boxed(checker.alloc, tree)?;
    Ok(conditional_by(tree, type_id, category, known))
}

/// What kind of value a comma gives.
fn kept_category(category: Category) -> Category
    ensures { result ≡ kept_category category }
{
    match category {
        Category::Aggregate(_) => category,
        _ => Category::Plain,
    }
}

/// The comma between two values.
pub fn comma(checker: &Checker, x: TypedValue, y: TypedValue) -> Result<TypedValue, CheckError>
    ensures { GivesValue checker.now result (comma_at (two x y)) checker.now }
{
    Ok(TypedValue {
        tree: boxed(checker.alloc, Expression::Comma(x.tree, y.tree))?,
        type_id: y.type_id,
        category: kept_category(y.category),
        known: Known::Nothing,
    })
}
