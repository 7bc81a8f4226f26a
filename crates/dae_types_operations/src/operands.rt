// Binary operators and subscripts (C90 6.3.2.1 and 6.3.5 to 6.3.12).

ghost use Rattle.std.specs.Prelude.{◌≡◌};
ghost use Rattle.dae_tree.specs.declared.operators.BinaryOperator.TheVariants as binary;
ghost use Rattle.dae_types_kinds.specs.Types.{points_to_void};
ghost use Rattle.dae_types_kinds.specs.Values.{are_comparable, combination, combined_as, compared_as, distance, indexed, indexed_back, scaled_by, subscripted};
ghost use Rattle.dae_types_rules.specs.Plan.{pure};
ghost use Rattle.dae_types_rules.specs.Table.{lacks_size};
ghost use Rattle.dae_types_plans.specs.Steps.{index_at, index_place, operands_at};
ghost use Rattle.dae_types_tables.specs.Seen.{tables};
ghost use Rattle.dae_types_folding.specs.Views.{MakesValue, view_combination, view_combined, view_value};
ghost use Rattle.dae_types_values.specs.Results.{GivesValue, two};

use crate::choices::{and, or};
use dae_base::{Place, Signedness};
use dae_meaning::Operator;
use dae_program::Expression;
use dae_tree::BinaryOperator;
use dae_types_folding::{
    Combination, TypedValue, based, boxed, deed_of, difference_of, is_comparison, is_difference,
    is_equality, is_sum, moved_back, moved_on, operated, scaled, scaled_known, signedness_for,
    sum_of, tree_by, type_for,
};
use dae_types_kinds::{Addressing, Category, CheckError, INT_ID, Rule, Shape};
use dae_types_tables::{Checker, broken, is_integer, is_pointer, is_void};
use dae_types_values::is_null;
use std::alloc::Global;

/// Whether a type is a pointer to void.
fn points_to_void(checker: &Checker, shape: Shape) -> bool
    ensures { result ≡ points_to_void (tables checker.now) shape }
{
    match shape {
        Shape::Pointer(to) => is_void(checker.shape_of(to)),
        _ => false,
    }
}

/// Whether an operator may compare two values of which one is a pointer.
fn are_comparable(
    checker: &Checker,
    operator: BinaryOperator,
    x: &TypedValue,
    y: &TypedValue,
) -> bool
    ensures { result
        ≡ are_comparable (tables checker.now) operator (view_value x.now) (view_value y.now) }
{
    let left = checker.shape_of(x.type_id);
    let right = checker.shape_of(y.type_id);
    if is_pointer(left) && is_pointer(right) {
        checker.same(x.type_id, y.type_id)
            || (is_equality(operator)
                && (points_to_void(checker, left) || points_to_void(checker, right)))
    } else {
        is_equality(operator)
            && ((is_pointer(left) && is_null(checker, y))
                || (is_pointer(right) && is_null(checker, x)))
    }
}

/// How two pointers, or a pointer and a null pointer constant, are compared.
fn compared_as(
    checker: &Checker,
    operator: BinaryOperator,
    x: &TypedValue,
    y: &TypedValue,
) -> Option<Combination>
    ensures { view_combined result
        ≡ compared_as (tables checker.now) operator (view_value x.now) (view_value y.now) }
{
    if is_comparison(operator) && are_comparable(checker, operator, x, y) {
        Some(Combination::Pointers)
    } else {
        None
    }
}

/// How the operands of an operator go together, where they do.
#[tactic(auto, unfolding(dae_types_kinds::specs::Values::combination))]
pub fn combination_of(
    checker: &Checker,
    operator: BinaryOperator,
    x: &TypedValue,
    y: &TypedValue,
) -> Option<Combination>
    ensures { view_combined result
        ≡ combination (tables checker.now) operator (view_value x.now) (view_value y.now) }
{
    let is_shifting = is_sum(operator) || is_difference(operator);
    match (checker.shape_of(x.type_id), checker.shape_of(y.type_id)) {
        (Shape::Pointer(to), Shape::Pointer(_))
            if is_difference(operator) && checker.same(x.type_id, y.type_id) => {
            Some(Combination::Distance(to))
        }
        (Shape::Pointer(_), Shape::Pointer(_)) => compared_as(checker, operator, x, y),
        (Shape::Pointer(to), right) if is_shifting && is_integer(right) => {
            Some(Combination::PointerFirst(to))
        }
        (left, Shape::Pointer(to)) if is_sum(operator) && is_integer(left) => {
            Some(Combination::PointerSecond(to))
        }
        (Shape::Pointer(_), _) | (_, Shape::Pointer(_)) => compared_as(checker, operator, x, y),
        (left, right) if is_integer(left) && is_integer(right) => Some(Combination::Words),
        _ => None,
    }
}

/// The type whose size is needed.
pub fn scaled_by(combination: Option<Combination>) -> Option<usize>
    ensures { result ≡ scaled_by (view_combined combination) }
{
    match combination {
        Some(Combination::PointerFirst(to)) => Some(to),
        Some(Combination::PointerSecond(to)) => Some(to),
        Some(Combination::Distance(to)) => Some(to),
        _ => None,
    }
}

ghost use Rattle.std.specs.Prelude.{Some};

/// Whether a type whose size is needed has none.
pub fn lacks_size(checker: &Checker, type_id: Option<usize>) -> bool
    ensures { result ≡ lacks_size (tables checker.now) type_id }
{
    match type_id {
        Some(type_id) => !checker.is_complete(type_id),
        None => false,
    }
}

/// A pointer and an index of elements of a type.
#[inline(never)]
fn indexed(
    checker: &Checker,
    place: Place,
    element: usize,
    x: TypedValue,
    y: TypedValue,
) -> Result<TypedValue, CheckError>
    ensures { MakesValue result
        (indexed place (tables checker.now) element (view_value x) (view_value y)) }
{
    let size = checker.layout_at(element).size;
    let known = moved_on(x.known, scaled_known(y.known, size));
    let bytes = scaled(checker.alloc, place, y.tree, size)?;
    let tree = sum_of(checker.alloc, place, x.tree, bytes)?;
    Ok(TypedValue {
        tree,
        type_id: x.type_id,
        category: Category::Plain,
        known,
    })
}

ghost use Rattle.dae_types_kinds.specs.Values.{indexed_behind};

/// An index of elements of a type, and a pointer.
#[inline(never)]
fn indexed_behind(
    checker: &Checker,
    place: Place,
    element: usize,
    x: TypedValue,
    y: TypedValue,
) -> Result<TypedValue, CheckError>
    ensures { MakesValue result
        (indexed_behind place (tables checker.now) element (view_value x) (view_value y)) }
{
    let size = checker.layout_at(element).size;
    let known = moved_on(y.known, scaled_known(x.known, size));
    let bytes = scaled(checker.alloc, place, x.tree, size)?;
    let tree = sum_of(checker.alloc, place, bytes, y.tree)?;
    Ok(TypedValue {
        tree,
        type_id: y.type_id,
        category: Category::Plain,
        known,
    })
}

/// A pointer less an index of elements of a type.
#[inline(never)]
fn indexed_back(
    checker: &Checker,
    place: Place,
    element: usize,
    x: TypedValue,
    y: TypedValue,
) -> Result<TypedValue, CheckError>
    ensures { MakesValue result
        (indexed_back place (tables checker.now) element (view_value x) (view_value y)) }
{
    let size = checker.layout_at(element).size;
    let known = moved_back(x.known, scaled_known(y.known, size));
    let bytes = scaled(checker.alloc, place, y.tree, size)?;
    let tree = difference_of(checker.alloc, place, x.tree, bytes)?;
    Ok(TypedValue {
        tree,
        type_id: x.type_id,
        category: Category::Plain,
        known,
    })
}

/// The distance of two pointers in elements of so many bytes.
#[inline(never)]
fn distance(
    alloc: Global,
    place: Place,
    size: u32,
    x: TypedValue,
    y: TypedValue,
) -> Result<TypedValue, CheckError>
    ensures { MakesValue result (distance place size (view_value x) (view_value y)) }
{
    let bytes = Expression::Binary(place, Operator::Subtract, x.tree, y.tree);
    let bytes = boxed(alloc, bytes)?;
    if size == 1 {
        return Ok(TypedValue::plain(bytes, INT_ID));
    }
    let size = boxed(alloc, Expression::Number(size))?;
    let tree = Expression::Binary(place, Operator::DivideSigned, bytes, size);
    let tree = boxed(alloc, tree)?;
    Ok(TypedValue::plain(tree, INT_ID))
}

/// What an operator gives of two operands that go together.
fn combine(
    checker: &Checker,
    place: Place,
    operator: BinaryOperator,
    combination: Combination,
    x: TypedValue,
    y: TypedValue,
) -> Result<TypedValue, CheckError>
    ensures { MakesValue result
        (combined_as place (tables checker.now) operator (view_value x) (view_value y)
        (Some (view_combination combination))) }
{
    match combination {
        Combination::Words => {
            let left = checker.shape_of(x.type_id);
            let right = checker.shape_of(y.type_id);
            let signedness = signedness_for(operator, left, right);
            let deed = deed_of(signedness, operator);
            operated(
                checker.alloc,
                place,
                deed,
                type_for(operator, signedness),
                x,
                y,
            )
        }
        Combination::PointerFirst(to) if is_difference(operator) => {
            indexed_back(checker, place, to, x, y)
        }
        Combination::PointerFirst(to) => indexed(checker, place, to, x, y),
        Combination::PointerSecond(to) => indexed_behind(checker, place, to, x, y),
        Combination::Distance(to) => {
            let size = checker.layout_at(to).size;
            distance(checker.alloc, place, size, x, y)
        }
        Combination::Pointers => {
            let tree = tree_by(
                checker.alloc,
                place,
                deed_of(Signedness::Unsigned, operator),
                x.tree,
                y.tree,
            )?;
            Ok(TypedValue::plain(tree, INT_ID))
        }
    }
}

/// An operator between two values, other than `&&` and `||`.
#[tactic(auto, unfolding(dae_types_rules::specs::Plan::ask_all))]
pub fn operate(
    checker: &Checker,
    place: Place,
    operator: BinaryOperator,
    x: TypedValue,
    y: TypedValue,
) -> Result<TypedValue, CheckError>
    ensures { GivesValue checker.now result (operands_at place operator (two x y)) checker.now }
{
    let Some(combination) = combination_of(checker, operator, &x, &y) else {
        return Err(broken(Rule::BadOperands, place));
    };
    if lacks_size(checker, scaled_by(Some(combination))) {
        return Err(broken(Rule::Incomplete, place));
    }
    combine(checker, place, operator, combination, x, y)
}

/// The object at the sum of a pointer and an index.
fn subscript(
    checker: &Checker,
    place: Place,
    x: TypedValue,
    y: TypedValue,
    combination: Option<Combination>,
) -> Result<TypedValue, CheckError>
    ensures { MakesValue result
        (subscripted place (tables checker.now) (view_value x) (view_value y)
        (view_combined combination)) }
{
    match combination {
        Some(Combination::PointerFirst(to)) => {
            let z = indexed(checker, place, to, x, y)?;
            Ok(TypedValue {
                tree: z.tree,
                type_id: to,
                category: Category::At(Addressing::Indirect),
                known: based(z.known),
            })
        }
        Some(Combination::PointerSecond(to)) => {
            let z = indexed_behind(checker, place, to, x, y)?;
            Ok(TypedValue {
                tree: z.tree,
                type_id: to,
                category: Category::At(Addressing::Indirect),
                known: based(z.known),
            })
        }
        _ => Ok(x),
    }
}

/// The place of a subscript's index, of operands at two places.
fn index_place(place: Place, second: Place, left: Shape) -> Place
    ensures { result ≡ index_place place second left }
{
    if is_pointer(left) { second } else { place }
}

ghost use Rattle.dae_types_plans.specs.Steps.{index_shape};

/// The type of a subscript's index.
fn index_shape(checker: &Checker, x: &TypedValue, y: &TypedValue) -> Shape
    ensures { result ≡ index_shape (tables checker.now) (view_value x.now, view_value y.now) }
{
    let left = checker.shape_of(x.type_id);
    if is_pointer(left) {
        checker.shape_of(y.type_id)
    } else {
        left
    }
}

/// A subscript of two values, at their places: one is a pointer, the other an integer.
#[tactic(auto, unfolding(dae_types_rules::specs::Plan::ask_all))]
pub fn index(
    checker: &Checker,
    place: Place,
    second: Place,
    x: TypedValue,
    y: TypedValue,
) -> Result<TypedValue, CheckError>
    ensures { GivesValue checker.now result (index_at place second (two x y)) checker.now }
{
    let left = checker.shape_of(x.type_id);
    if is_pointer(left) == is_pointer(checker.shape_of(y.type_id)) {
        return Err(broken(Rule::BadIndex, place));
    }
    if !is_integer(index_shape(checker, &x, &y)) {
        return Err(broken(Rule::NotInteger, index_place(place, second, left)));
    }
    let combination = combination_of(checker, BinaryOperator::Add, &x, &y);
    if lacks_size(checker, scaled_by(combination)) {
        return Err(broken(Rule::Incomplete, place));
    }
    subscript(checker, place, x, y, combination)
}

ghost use Rattle.dae_types_plans.specs.Steps.{binary_at};

/// An operator between two values, at their places.
pub fn binary(
    checker: &Checker,
    place: Place,
    second: Place,
    operator: BinaryOperator,
    x: TypedValue,
    y: TypedValue,
) -> Result<TypedValue, CheckError>
    ensures { GivesValue checker.now result
        (binary_at place second operator (two x y)) checker.now }
{
    match operator {
        BinaryOperator::AndAnd => and(checker, place, second, x, y),
        BinaryOperator::OrOr => or(checker, place, second, x, y),
        BinaryOperator::Multiply
        | BinaryOperator::Divide
        | BinaryOperator::Remainder
        | BinaryOperator::Add
        | BinaryOperator::Subtract
        | BinaryOperator::ShiftLeft
        | BinaryOperator::ShiftRight
        | BinaryOperator::Less
        | BinaryOperator::Greater
        | BinaryOperator::AtMost
        | BinaryOperator::AtLeast
        | BinaryOperator::Equal
        | BinaryOperator::NotEqual
        | BinaryOperator::And
        | BinaryOperator::Xor
        | BinaryOperator::Or => operate(checker, place, operator, x, y),
    }
}
