// Operators before and behind their operand (C90 6.3.2.4 and 6.3.3).

ghost use Rattle.std.specs.Prelude.{◌≡◌, if◌then◌else◌};
ghost use Rattle.dae_base.specs.Words.{minus};
ghost use Rattle.dae_program.specs.Views.{is_prefix};
ghost use Rattle.dae_types_kinds.specs.Values.{addressed, complemented, inverted, negated, step_size, stepped};
ghost use Rattle.dae_types_rules.specs.Plan.{pure};
ghost use Rattle.dae_types_plans.specs.Steps.{address_at, marked_name, postfix_at, prefix_at, star_at, step_at};
ghost use Rattle.dae_types_tables.specs.Seen.{tables};
ghost use Rattle.dae_types_folding.specs.Views.{MakesValue, view_value};
ghost use Rattle.dae_types_values.specs.Results.{GivesValue, one};
ghost use Rattle.dae_types_operations.specs.Steps.{is_down};

use crate::objects::is_object;
use crate::operands::lacks_size;
use dae_base::Place;
use dae_meaning::Operator;
use dae_program::{Expression, Fixity};
use dae_tree::{Name, PostfixOperator, PrefixOperator};
use dae_types_folding::{
    TypedValue, WordOperation, based, boxed, known_not, load_kind, operated, pointee, promoted,
    target_of,
};
use dae_types_kinds::{Addressing, Category, CheckError, Entity, INT_ID, Local, Rule, Shape};
use dae_types_tables::{Checker, broken, is_array, is_scalar, is_void};
use dae_types_values::{integer, scalar, value};
use std::alloc::Global;

/// Which way a step goes: `++` or `--`.
#[derive(Clone, Copy)]
enum Direction {
    Up,
    Down,
}

/// Notes that the address of a local object is taken, where a name stands for one.
fn mark(checker: &mut Checker, name: Option<Name>)
    ensures { tables checker.new ≡ marked_name name (tables checker.old) }
{
    let Some(name) = name else {
        return;
    };
    let Some(Entity::Local(number)) = checker.found_name(name.number) else {
        return;
    };
    if let Some(local) = checker.local(number) {
        checker.set_local(
            number,
            Local {
                type_id: local.type_id,
                taken: true,
            },
        );
    }
}

/// `&` before an operand that is this name, perhaps.
#[tactic(auto, unfolding(dae_types_rules::specs::Plan::ask_all))]
fn address(
    checker: &mut Checker,
    place: Place,
    name: Option<Name>,
    x: TypedValue,
) -> Result<TypedValue, CheckError>
    ensures { GivesValue checker.new result (address_at place name (one x)) checker.old }
{
    if !is_object(x.category) {
        return Err(broken(Rule::NotLvalue, place));
    }
    mark(checker, name);
    let type_id = checker.make(Shape::Pointer(x.type_id))?;
    Ok(TypedValue {
        tree: x.tree,
        type_id,
        category: Category::Plain,
        known: x.known,
    })
}

/// `*` before a value.
#[tactic(auto, unfolding(dae_types_rules::specs::Plan::ask_all))]
fn dereference(checker: &Checker, place: Place, x: TypedValue) -> Result<TypedValue, CheckError>
    ensures { GivesValue checker.now result (star_at place (one x)) checker.now }
{
    let Shape::Pointer(to) = checker.shape_of(x.type_id) else {
        return Err(broken(Rule::BadDeref, place));
    };
    if is_void(checker.shape_of(to)) {
        return Err(broken(Rule::BadDeref, place));
    }
    Ok(TypedValue {
        tree: x.tree,
        type_id: to,
        category: Category::At(Addressing::Indirect),
        known: based(x.known),
    })
}

/// How far a step goes: the size of what a pointer points to, or 1.
fn step_size(checker: &Checker, shape: Shape) -> u32
    ensures { result ≡ step_size (tables checker.now) shape }
{
    match shape {
        Shape::Pointer(to) => checker.layout_at(to).size,
        _ => 1,
    }
}

/// The word that a step of this size adds.
fn change_by(direction: Direction, size: u32) -> u32
    ensures { result ≡ (if is_down direction then minus 0 size else size) }
{
    match direction {
        Direction::Up => size,
        Direction::Down => 0u32.wrapping_sub(size),
    }
}

/// What a step of an object gives: its new value or the one before.
fn stepped(
    checker: &Checker,
    place: Place,
    direction: Direction,
    fixity: Fixity,
    x: TypedValue,
) -> Result<TypedValue, CheckError>
    ensures { MakesValue result
        (stepped place (tables checker.now) (is_down direction) (is_prefix fixity)
        (view_value x)) }
{
    let type_id = x.type_id;
    let shape = checker.shape_of(type_id);
    let size = step_size(checker, shape);
    let change = change_by(direction, size);
    let tree = Expression::Step(place, load_kind(shape), target_of(x), change, fixity);
    let tree = boxed(checker.alloc, tree)?;
    Ok(TypedValue::plain(tree, type_id))
}

/// `++` or `--`, before or behind an object.
#[tactic(auto, unfolding(dae_types_rules::specs::Plan::ask_all))]
fn step(
    checker: &Checker,
    place: Place,
    direction: Direction,
    fixity: Fixity,
    x: TypedValue,
) -> Result<TypedValue, CheckError>
    ensures { GivesValue checker.now result
        (step_at place (is_down direction) (is_prefix fixity) (one x)) checker.now }
{
    let shape = checker.shape_of(x.type_id);
    if !is_object(x.category) {
        return Err(broken(Rule::NotLvalue, place));
    }
    if is_array(shape) {
        return Err(broken(Rule::NotModifiable, place));
    }
    if !is_scalar(shape) {
        return Err(broken(Rule::NotScalar, place));
    }
    if lacks_size(checker, pointee(shape)) {
        return Err(broken(Rule::Incomplete, place));
    }
    stepped(checker, place, direction, fixity, x)
}

/// A minus sign, which takes a value from 0.
fn negated(
    alloc: Global,
    place: Place,
    x: TypedValue,
    type_id: usize,
) -> Result<TypedValue, CheckError>
    ensures { MakesValue result (negated place (view_value x) type_id) }
{
    let zero = TypedValue::number(alloc, 0, INT_ID)?;
    operated(
        alloc,
        place,
        WordOperation::Operates(Operator::Subtract),
        type_id,
        zero,
        x,
    )
}

/// `~`, which differs from the value in each bit.
fn complemented(
    alloc: Global,
    place: Place,
    x: TypedValue,
    type_id: usize,
) -> Result<TypedValue, CheckError>
    ensures { MakesValue result (complemented place (view_value x) type_id) }
{
    let ones = TypedValue::number(alloc, u32::MAX, INT_ID)?;
    operated(
        alloc,
        place,
        WordOperation::Operates(Operator::Xor),
        type_id,
        x,
        ones,
    )
}

/// `!`
fn inverted(alloc: Global, place: Place, x: TypedValue) -> Result<TypedValue, CheckError>
    ensures { MakesValue result (inverted place (view_value x)) }
{
    let known = known_not(x.known);
    let tree = boxed(alloc, Expression::Not(place, x.tree))?;
    Ok(TypedValue::of_known(tree, INT_ID, known))
}

/// An operator before its operand, which has a place of its own and is this name, perhaps.
pub fn prefix(
    checker: &mut Checker,
    place: Place,
    operand: Place,
    operator: PrefixOperator,
    name: Option<Name>,
    x: TypedValue,
) -> Result<TypedValue, CheckError>
    ensures { GivesValue checker.new result
        (prefix_at place operand operator name (one x)) checker.old }
{
    match operator {
        PrefixOperator::Increment => step(checker, place, Direction::Up, Fixity::Prefix, x),
        PrefixOperator::Decrement => step(checker, place, Direction::Down, Fixity::Prefix, x),
        PrefixOperator::Address => address(checker, place, name, x),
        PrefixOperator::Indirection => {
            let x = value(checker, operand, x)?;
            dereference(checker, place, x)
        }
        PrefixOperator::Plus => {
            let x = value(checker, operand, x)?;
            let x = scalar(checker, place, x)?;
            let x = integer(checker, place, x)?;
            let type_id = promoted(checker.shape_of(x.type_id));
            Ok(TypedValue::of_known(x.tree, type_id, x.known))
        }
        PrefixOperator::Minus => {
            let x = value(checker, operand, x)?;
            let x = scalar(checker, place, x)?;
            let x = integer(checker, place, x)?;
            let type_id = promoted(checker.shape_of(x.type_id));
            negated(checker.alloc, place, x, type_id)
        }
        PrefixOperator::Complement => {
            let x = value(checker, operand, x)?;
            let x = scalar(checker, place, x)?;
            let x = integer(checker, place, x)?;
            let type_id = promoted(checker.shape_of(x.type_id));
            complemented(checker.alloc, place, x, type_id)
        }
        PrefixOperator::Not => {
            let x = value(checker, operand, x)?;
            let x = scalar(checker, place, x)?;
            inverted(checker.alloc, place, x)
        }
    }
}

/// An operator behind its operand.
pub fn postfix(
    checker: &Checker,
    place: Place,
    operator: PostfixOperator,
    x: TypedValue,
) -> Result<TypedValue, CheckError>
    ensures { GivesValue checker.now result (postfix_at place operator (one x)) checker.now }
{
    match operator {
        PostfixOperator::Increment => step(checker, place, Direction::Up, Fixity::Postfix, x),
        PostfixOperator::Decrement => step(checker, place, Direction::Down, Fixity::Postfix, x),
    }
}
