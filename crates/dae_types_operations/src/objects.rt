// Objects that are written, and members of structures (C90 6.3.2.3 and 6.3.16).

ghost use Rattle.std.specs.Prelude.{◌≡◌};
ghost use Rattle.dae_program.specs.Views.{view};
ghost use Rattle.dae_types_kinds.specs.Types.{shape_of};
ghost use Rattle.dae_types_kinds.specs.Values.{assigned, component_in, is_object, is_update, member_by, member_in, member_value, operator_in, owner, updated, updated_by};
ghost use Rattle.dae_types_rules.specs.Plan.{pure};
ghost use Rattle.dae_types_plans.specs.Steps.{assign_at, assignment_at, member_of, update_at};
ghost use Rattle.dae_types_tables.specs.Seen.{tables};
ghost use Rattle.dae_types_folding.specs.Views.{MakesTree, MakesValue, view_combined, view_deed, view_value};
ghost use Rattle.dae_types_values.specs.Results.{GivesValue, one, two};

use crate::operands::{combination_of, lacks_size, scaled_by};
use dae_base::Place;
use dae_meaning::Operator;
use dae_program::Expression;
use dae_tree::{AssignmentOperator, BinaryOperator, MemberOperator, Name};
use dae_types_folding::{
    Combination, TypedValue, WordOperation, based, boxed, deed_of, further, known_further,
    load_kind, operator_of, scaled, signedness_for, target_of,
};
use dae_types_kinds::{
    Addressing, Category, CheckError, Component, Known, Rule, Shape, is_indirect,
};
use dae_types_tables::{Checker, broken, is_array, is_structure};
use dae_types_values::{convert, fits};

/// Whether a tree gives where an object is.
pub fn is_object(category: Category) -> bool
    ensures { result ≡ is_object category }
{
    match category {
        Category::At(_) | Category::InVariable(_) => true,
        Category::Plain | Category::Aggregate(_) => false,
    }
}

/// What an assignment of a value to an object gives.
fn assigned(
    checker: &Checker,
    place: Place,
    x: TypedValue,
    y: TypedValue,
) -> Result<TypedValue, CheckError>
    ensures { MakesValue result
        (assigned place (tables checker.now) (view_value x) (view_value y)) }
{
    let type_id = x.type_id;
    let kind = load_kind(checker.shape_of(type_id));
    let y = convert(checker, place, y, type_id)?;
    let tree = Expression::Assign(place, kind, target_of(x), y.tree);
    let tree = boxed(checker.alloc, tree)?;
    Ok(TypedValue::plain(tree, type_id))
}

/// `=`
#[tactic(auto, unfolding(dae_types_rules::specs::Plan::ask_all))]
fn store(
    checker: &Checker,
    place: Place,
    x: TypedValue,
    y: TypedValue,
) -> Result<TypedValue, CheckError>
    ensures { GivesValue checker.now result (assign_at place (two x y)) checker.now }
{
    if !is_object(x.category) {
        return Err(broken(Rule::NotLvalue, place));
    }
    if is_array(checker.shape_of(x.type_id)) {
        return Err(broken(Rule::NotModifiable, place));
    }
    if !fits(checker, &y, x.type_id) {
        return Err(broken(Rule::BadAssign, place));
    }
    if is_structure(checker.shape_of(y.type_id)) {
        return Err(broken(Rule::StructureValue, place));
    }
    assigned(checker, place, x, y)
}

/// The operation of a compound assignment; a comparison has none, and counts as a sum.
fn operator_in(deed: WordOperation) -> Operator
    ensures { result ≡ operator_in (view_deed deed) }
{
    match deed {
        WordOperation::Operates(operator) => operator,
        WordOperation::Compares(_, _) => Operator::Add,
    }
}

/// Whether a compound assignment takes operands that go together so.
fn is_update(combination: Option<Combination>) -> bool
    ensures { result ≡ is_update (view_combined combination) }
{
    match combination {
        Some(Combination::Words | Combination::PointerFirst(_)) => true,
        _ => false,
    }
}

/// The right side of a compound assignment.
fn updated_by(
    checker: &Checker,
    place: Place,
    operator: BinaryOperator,
    x: &TypedValue,
    y: TypedValue,
    combination: Option<Combination>,
) -> Result<Box<Expression>, CheckError>
    ensures { MakesTree result
        (updated_by place (tables checker.now) operator (view_value x.now) (view_value y)
        (view_combined combination)) }
{
    match combination {
        Some(Combination::PointerFirst(to)) => {
            scaled(checker.alloc, place, y.tree, checker.layout_at(to).size)
        }
        _ => Ok(y.tree),
    }
}

/// What a compound assignment gives.
fn updated(
    checker: &Checker,
    place: Place,
    operator: BinaryOperator,
    x: TypedValue,
    y: TypedValue,
) -> Result<TypedValue, CheckError>
    ensures { MakesValue result
        (updated place (tables checker.now) operator (view_value x) (view_value y)) }
{
    let type_id = x.type_id;
    let left = checker.shape_of(type_id);
    let signedness = signedness_for(operator, left, checker.shape_of(y.type_id));
    let operation = operator_in(deed_of(signedness, operator));
    let combination = combination_of(checker, operator, &x, &y);
    let right = updated_by(checker, place, operator, &x, y, combination)?;
    let tree = Expression::Update(place, load_kind(left), target_of(x), operation, right);
    let tree = boxed(checker.alloc, tree)?;
    Ok(TypedValue::plain(tree, type_id))
}

/// `+=` and its kin.
#[tactic(auto, unfolding(dae_types_rules::specs::Plan::ask_all))]
fn update(
    checker: &Checker,
    place: Place,
    operator: BinaryOperator,
    x: TypedValue,
    y: TypedValue,
) -> Result<TypedValue, CheckError>
    ensures { GivesValue checker.now result (update_at place operator (two x y)) checker.now }
{
    if !is_object(x.category) {
        return Err(broken(Rule::NotLvalue, place));
    }
    if is_array(checker.shape_of(x.type_id)) {
        return Err(broken(Rule::NotModifiable, place));
    }
    let combination = combination_of(checker, operator, &x, &y);
    if !is_update(combination) {
        return Err(broken(Rule::BadOperands, place));
    }
    if lacks_size(checker, scaled_by(combination)) {
        return Err(broken(Rule::Incomplete, place));
    }
    updated(checker, place, operator, x, y)
}

/// An assignment of a value to an object.
pub fn assign(
    checker: &Checker,
    place: Place,
    operator: AssignmentOperator,
    x: TypedValue,
    y: TypedValue,
) -> Result<TypedValue, CheckError>
    ensures { GivesValue checker.now result (assignment_at place operator (two x y)) checker.now }
{
    match operator {
        AssignmentOperator::Assign => store(checker, place, x, y),
        AssignmentOperator::Multiply
        | AssignmentOperator::Divide
        | AssignmentOperator::Remainder
        | AssignmentOperator::Add
        | AssignmentOperator::Subtract
        | AssignmentOperator::ShiftLeft
        | AssignmentOperator::ShiftRight
        | AssignmentOperator::And
        | AssignmentOperator::Xor
        | AssignmentOperator::Or => update(checker, place, operator_of(operator), x, y),
    }
}

/// The structure whose member is meant.
fn owner(checker: &Checker, operator: MemberOperator, x: &TypedValue) -> Option<usize>
    ensures { result ≡ owner operator (tables checker.now) (view_value x.now) }
{
    let shape = match (operator, checker.shape_of(x.type_id)) {
        (MemberOperator::Dot, shape) => shape,
        (MemberOperator::Arrow, Shape::Pointer(to)) => checker.shape_of(to),
        (MemberOperator::Arrow, _) => return None,
    };
    match shape {
        Shape::Struct(structure) => Some(structure),
        _ => None,
    }
}

/// A member of a structure that is a value: a scalar is read at once.
fn member_value(
    checker: &Checker,
    place: Place,
    tree: Box<Expression>,
    type_id: usize,
    addressing: Addressing,
) -> Result<TypedValue, CheckError>
    ensures { MakesValue result
        (member_value place (tables checker.now) (view tree.value) type_id addressing
        (shape_of (tables checker.now) type_id)) }
{
    match checker.shape_of(type_id) {
        Shape::Struct(_) | Shape::Array(_, _) => Ok(TypedValue {
            tree,
            type_id,
            category: Category::Aggregate(addressing),
            known: Known::Nothing,
        }),
        shape => {
            let indirect = is_indirect(addressing);
            let tree = Expression::Read(place, load_kind(shape), indirect, tree);
            let tree = boxed(checker.alloc, tree)?;
            Ok(TypedValue::plain(tree, type_id))
        }
    }
}

/// A member at an address, which is its tree. Its category is still that of its structure.
fn member_in(
    checker: &Checker,
    place: Place,
    operator: MemberOperator,
    x: TypedValue,
) -> Result<TypedValue, CheckError>
    ensures { MakesValue result
        (member_in place (tables checker.now) operator (view x.tree.value) x.type_id x.category
        x.known) }
{
    match (operator, x.category) {
        (MemberOperator::Arrow, _) => Ok(TypedValue {
            tree: x.tree,
            type_id: x.type_id,
            category: Category::At(Addressing::Indirect),
            known: based(x.known),
        }),
        (MemberOperator::Dot, Category::Aggregate(addressing)) => {
            member_value(checker, place, x.tree, x.type_id, addressing)
        }
        (MemberOperator::Dot, _) => Ok(x),
    }
}

/// The member of this row.
fn member_by(
    checker: &Checker,
    place: Place,
    operator: MemberOperator,
    x: TypedValue,
    component: Component,
) -> Result<TypedValue, CheckError>
    ensures { MakesValue result
        (member_by place (tables checker.now) operator (view_value x) (Some component)) }
{
    let known = known_further(x.known, component.offset);
    let tree = further(checker.alloc, place, x.tree, component.offset)?;
    let member = TypedValue {
        tree,
        type_id: component.type_id,
        category: x.category,
        known,
    };
    member_in(checker, place, operator, member)
}

ghost use Rattle.std.specs.Prelude.{Some};

/// A member of a structure.
#[tactic(auto, unfolding(dae_types_rules::specs::Plan::ask_all))]
pub fn member(
    checker: &Checker,
    place: Place,
    operator: MemberOperator,
    name: Name,
    x: TypedValue,
) -> Result<TypedValue, CheckError>
    ensures { GivesValue checker.now result (member_of place operator name (one x)) checker.now }
{
    let Some(structure) = owner(checker, operator, &x) else {
        return Err(broken(Rule::NotStructure, place));
    };
    if checker.layout_of(structure).is_none() {
        return Err(broken(Rule::Incomplete, place));
    }
    let Some(component) = checker.found_component(structure, name.number) else {
        return Err(broken(Rule::BadMember, place));
    };
    member_by(checker, place, operator, x, component)
}
