// Objects that are read, and operands of a class of types (C90 6.2.2.1, 6.3.3.4).

ghost use Rattle.std.specs.Prelude.{◌≡◌, Ok};
ghost use Rattle.dae_types_kinds.specs.Types.{shape_of};
ghost use Rattle.dae_types_kinds.specs.Values.{read_by};
ghost use Rattle.dae_types_rules.specs.Plan.{Gives, pure};
ghost use Rattle.dae_types_plans.specs.Steps.{integer_at, scalar_at, sizeof_at, value_at};
ghost use Rattle.dae_types_tables.specs.Seen.{tables};
ghost use Rattle.dae_types_folding.specs.Views.{view_value};
ghost use Rattle.dae_types_values.specs.Results.{GivesValue, one};

use dae_base::Place;
use dae_program::Expression;
use dae_types_folding::{TypedValue, boxed, load_kind};
use dae_types_kinds::{
    Addressing, Category, CheckError, Known, Rule, Shape, UNSIGNED_ID, is_indirect,
};
use dae_types_tables::{Checker, broken, is_integer, is_scalar, is_structure};

/// The value of an object: an array gives the address of its first element, and a structure stays where it is.
fn read(
    checker: &mut Checker,
    place: Place,
    x: TypedValue,
    addressing: Addressing,
) -> Result<TypedValue, CheckError>
    ensures { Gives (λ y. (tables checker.new, view_value y)) result
        (Ok (read_by place (tables checker.old) (view_value x) addressing
        (shape_of (tables checker.old) x.type_id))) }
{
    match checker.shape_of(x.type_id) {
        Shape::Void => Ok(x),
        Shape::Struct(_) => Ok(TypedValue {
            tree: x.tree,
            type_id: x.type_id,
            category: Category::Aggregate(addressing),
            known: Known::Nothing,
        }),
        Shape::Array(element, _) => {
            let type_id = checker.make(Shape::Pointer(element))?;
            Ok(TypedValue {
                tree: x.tree,
                type_id,
                category: Category::Plain,
                known: x.known,
            })
        }
        shape => {
            let indirect = is_indirect(addressing);
            let tree = Expression::Read(place, load_kind(shape), indirect, x.tree);
            let tree = boxed(checker.alloc, tree)?;
            Ok(TypedValue::plain(tree, x.type_id))
        }
    }
}

/// The value of an expression.
#[tactic(auto, unfolding(dae_types_rules::specs::Plan::ask_all))]
pub fn value(checker: &mut Checker, place: Place, x: TypedValue) -> Result<TypedValue, CheckError>
    ensures { GivesValue checker.new result (value_at place (one x)) checker.old }
{
    if is_structure(checker.shape_of(x.type_id)) && !checker.is_complete(x.type_id) {
        return Err(broken(Rule::Incomplete, place));
    }
    match x.category {
        Category::At(addressing) => read(checker, place, x, addressing),
        Category::InVariable(_) => Ok(TypedValue::plain(x.tree, x.type_id)),
        _ => Ok(x),
    }
}

/// A value that must be a number or a pointer.
#[tactic(auto, unfolding(dae_types_rules::specs::Plan::ask_all))]
pub fn scalar(checker: &Checker, place: Place, x: TypedValue) -> Result<TypedValue, CheckError>
    ensures { GivesValue checker.now result (scalar_at place (one x)) checker.now }
{
    if is_scalar(checker.shape_of(x.type_id)) {
        Ok(x)
    } else {
        Err(broken(Rule::NotScalar, place))
    }
}

/// A value that must be an integer.
#[tactic(auto, unfolding(dae_types_rules::specs::Plan::ask_all))]
pub fn integer(checker: &Checker, place: Place, x: TypedValue) -> Result<TypedValue, CheckError>
    ensures { GivesValue checker.now result (integer_at place (one x)) checker.now }
{
    if is_integer(checker.shape_of(x.type_id)) {
        Ok(x)
    } else {
        Err(broken(Rule::NotInteger, place))
    }
}

/// The size of a type (C90 6.3.3.4).
#[tactic(auto, unfolding(dae_types_rules::specs::Plan::ask_all))]
pub fn sizeof(checker: &Checker, place: Place, type_id: usize) -> Result<TypedValue, CheckError>
    ensures { GivesValue checker.now result (sizeof_at place (pure type_id)) checker.now }
{
    if checker.is_complete(type_id) {
        let size = checker.layout_at(type_id).size;
        TypedValue::number(checker.alloc, size, UNSIGNED_ID)
    } else {
        Err(broken(Rule::Incomplete, place))
    }
}
