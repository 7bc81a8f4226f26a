// The trees of conversions, addresses and operations (C90 6.2 and 6.3).

ghost use Rattle.std.specs.Prelude.{◌≡◌};
ghost use Rattle.dae_program.specs.Trees as program;
ghost use Rattle.dae_program.specs.Views.{view, view_target};
ghost use Rattle.dae_types_kinds.specs.Values.{changes, changed, further, scaled, sum_of, difference_of, tree_by, address_tree, operated, target_of};
ghost use Rattle.dae_types_folding.specs.Views.{MakesTree, MakesValue, view_deed, view_value};

use crate::knowing::known_by;
use crate::operators::WordOperation;
use crate::value::{TypedValue, boxed, refilled};
use dae_base::{LoadKind, Place};
use dae_meaning::Operator;
use dae_program::{Expression, Target};
use dae_types_kinds::{Category, CheckError, Known, is_indirect};
use std::alloc::Global;

/// Whether a conversion from one kind to the other may change a word.
fn changes(from: LoadKind, to: LoadKind) -> bool
    ensures { result ≡ changes from to }
{
    match (from, to) {
        (_, LoadKind::I32)
        | (LoadKind::U8, LoadKind::U8 | LoadKind::I16 | LoadKind::U16)
        | (LoadKind::I8, LoadKind::I8 | LoadKind::I16)
        | (LoadKind::I16, LoadKind::I16)
        | (LoadKind::U16, LoadKind::U16) => false,
        _ => true,
    }
}

/// A value of one kind as one of another.
pub fn changed(
    alloc: Global,
    place: Place,
    from: LoadKind,
    to: LoadKind,
    tree: Box<Expression>,
) -> Result<Box<Expression>, CheckError>
    ensures { MakesTree result (changed place from to (view tree.value)) }
{
    if changes(from, to) {
        boxed(alloc, Expression::Convert(place, to, tree))
    } else {
        Ok(tree)
    }
}

/// An operation on two trees.
fn binary(
    alloc: Global,
    place: Place,
    operator: Operator,
    left: Box<Expression>,
    right: Box<Expression>,
) -> Result<Box<Expression>, CheckError>
    ensures { MakesTree result
        (program.Binary place operator (view left.value) (view right.value)) }
{
    boxed(alloc, Expression::Binary(place, operator, left, right))
}

/// An operation on a tree and a number.
fn binary_with(
    alloc: Global,
    place: Place,
    operator: Operator,
    left: Box<Expression>,
    number: u32,
) -> Result<Box<Expression>, CheckError>
    ensures { MakesTree result
        (program.Binary place operator (view left.value) (program.Number number)) }
{
    let right = boxed(alloc, Expression::Number(number))?;
    binary(alloc, place, operator, left, right)
}

/// An address so many bytes further.
pub fn further(
    alloc: Global,
    place: Place,
    address: Box<Expression>,
    bytes: u32,
) -> Result<Box<Expression>, CheckError>
    ensures { MakesTree result (further place (view address.value) bytes) }
{
    match *address {
        Expression::Number(word) => {
            let moved = Expression::Number(word.wrapping_add(bytes));
            Ok(refilled(address, moved))
        }
        Expression::Address(object, offset) => {
            let moved = Expression::Address(object, offset.wrapping_add(bytes));
            Ok(refilled(address, moved))
        }
        Expression::Frame(start, offset) => {
            let moved = Expression::Frame(start, offset.wrapping_add(bytes));
            Ok(refilled(address, moved))
        }
        _ => binary_with(alloc, place, Operator::Add, address, bytes),
    }
}

/// An index of elements of so many bytes, in bytes.
pub fn scaled(
    alloc: Global,
    place: Place,
    index: Box<Expression>,
    size: u32,
) -> Result<Box<Expression>, CheckError>
    ensures { MakesTree result (scaled place (view index.value) size) }
{
    match *index {
        Expression::Number(word) => {
            let bytes = Expression::Number(word.wrapping_mul(size));
            Ok(refilled(index, bytes))
        }
        _ if size == 1 => Ok(index),
        _ => binary_with(alloc, place, Operator::Multiply, index, size),
    }
}

/// The sum of an address and an index in bytes, in the order of the text.
pub fn sum_of(
    alloc: Global,
    place: Place,
    left: Box<Expression>,
    right: Box<Expression>,
) -> Result<Box<Expression>, CheckError>
    ensures { MakesTree result (sum_of place (view left.value) (view right.value)) }
{
    match *right {
        Expression::Number(bytes) => further(alloc, place, left, bytes),
        _ => match *left {
            Expression::Number(bytes) => further(alloc, place, right, bytes),
            _ => binary(alloc, place, Operator::Add, left, right),
        },
    }
}

/// An address so many bytes back.
pub fn difference_of(
    alloc: Global,
    place: Place,
    left: Box<Expression>,
    right: Box<Expression>,
) -> Result<Box<Expression>, CheckError>
    ensures { MakesTree result (difference_of place (view left.value) (view right.value)) }
{
    match *right {
        Expression::Number(bytes) => further(alloc, place, left, 0u32.wrapping_sub(bytes)),
        _ => binary(alloc, place, Operator::Subtract, left, right),
    }
}

/// What an operator on words does, as a tree.
pub fn tree_by(
    alloc: Global,
    place: Place,
    deed: WordOperation,
    left: Box<Expression>,
    right: Box<Expression>,
) -> Result<Box<Expression>, CheckError>
    ensures { MakesTree result
        (tree_by place (view_deed deed) (view left.value) (view right.value)) }
{
    match deed {
        WordOperation::Operates(operator) => binary(alloc, place, operator, left, right),
        WordOperation::Compares(comparison, turned) => boxed(
            alloc,
            Expression::Compare(place, comparison, turned, left, right),
        ),
    }
}

/// A constant address, or else this tree.
fn address_tree(tree: Box<Expression>, known: Known) -> Box<Expression>
    ensures { view result.value ≡ address_tree (view tree.value) known }
{
    match known {
        Known::Address(Some(object), offset) => {
            refilled(tree, Expression::Address(object, offset))
        }
        _ => tree,
    }
}

/// An operator on two words, with a result of this type.
pub fn operated(
    alloc: Global,
    place: Place,
    deed: WordOperation,
    type_id: usize,
    x: TypedValue,
    y: TypedValue,
) -> Result<TypedValue, CheckError>
    ensures { MakesValue result
        (operated place (view_deed deed) type_id (view_value x) (view_value y)) }
{
    let known = known_by(deed, x.known, y.known);
    let tree = tree_by(alloc, place, deed, x.tree, y.tree)?;
    Ok(TypedValue::of_known(address_tree(tree, known), type_id, known))
}

/// What an assignment to an object writes.
pub fn target_of(x: TypedValue) -> Target
    ensures { view_target result ≡ target_of (view_value x) x.category }
{
    match x.category {
        Category::InVariable(variable) => Target::Variable(variable),
        Category::At(addressing) => Target::Object(is_indirect(addressing), x.tree),
        _ => Target::Object(false, x.tree),
    }
}
