// Parts of declarators: pointers, arrays, functions and parameters (C90 6.5.4).

ghost use Rattle.std.specs.Prelude.{◌≡◌, Ok};
ghost use Rattle.dae_types_kinds.specs.declared.values.Category.{Category};
ghost use Rattle.dae_types_kinds.specs.Types.{is_too_large};
ghost use Rattle.dae_types_kinds.specs.Values.{typed};
ghost use Rattle.dae_types_plans.specs.Steps.{adjusted, count_at, counted, function, is_taken, parameter_at, pointer, sized, unsized, with_named_local};
ghost use Rattle.dae_program.specs.Trees.{Expression};
ghost use Rattle.dae_types_rules.specs.Plan.{Gives, pure};
ghost use Rattle.dae_types_rules.specs.Table.{is_size};
ghost use Rattle.dae_types_tables.specs.Seen.{tables, Follows, Leaves};
ghost use Rattle.dae_types_sites.specs.Adjusting.{is_adjusted};

use dae_base::Place;
use dae_tree::Name;
use dae_types_kinds::{CheckError, Entity, Known, Local, NamedType, Rule, Shape};
use dae_types_tables::{
    Checker, broken, is_array, is_function, is_integer, is_structure, is_unsigned, is_void,
};

/// What becomes of an array: it is kept, or it is adjusted to a pointer, as the outermost part of a parameter is, and so
/// free of a limit (C90 6.7.1).
#[derive(Clone, Copy)]
pub enum Adjustment {
    Kept,
    ToPointer,
}

/// A pointer to a type.
#[tactic(auto, unfolding(dae_types_rules::specs::Plan::ask_all))]
pub fn make_pointer(checker: &mut Checker, place: Place, to: usize) -> Result<usize, CheckError>
    ensures { Follows checker.new result (pointer place to) checker.old }
{
    if is_function(checker.shape_of(to)) {
        return Err(broken(Rule::FunctionPointer, place));
    }
    checker.make(Shape::Pointer(to))
}

/// An array without a size.
#[tactic(auto, unfolding(dae_types_rules::specs::Plan::ask_all))]
pub fn make_unsized_array(
    checker: &mut Checker,
    place: Place,
    element: usize,
) -> Result<usize, CheckError>
    ensures { Follows checker.new result (unsized place element) checker.old }
{
    let shape = checker.shape_of(element);
    if is_function(shape) {
        return Err(broken(Rule::BadFunctionType, place));
    }
    if !checker.is_complete(element) {
        return Err(broken(Rule::Incomplete, place));
    }
    if checker.is_too_large(element, None) {
        return Err(broken(Rule::ObjectTooLarge, place));
    }
    checker.make(Shape::Array(element, None))
}

/// An array of so many elements.
#[tactic(auto, unfolding(dae_types_rules::specs::Plan::ask_all))]
pub fn make_array(
    checker: &mut Checker,
    place: Place,
    adjustment: Adjustment,
    element: usize,
    count: u32,
) -> Result<usize, CheckError>
    ensures { Follows checker.new result
        (sized place (is_adjusted adjustment) element (pure count)) checker.old }
{
    let shape = checker.shape_of(element);
    if is_function(shape) {
        return Err(broken(Rule::BadFunctionType, place));
    }
    if !checker.is_complete(element) {
        return Err(broken(Rule::Incomplete, place));
    }
    if checker.is_too_large(element, counted(adjustment, count)) {
        return Err(broken(Rule::ObjectTooLarge, place));
    }
    checker.make(Shape::Array(element, Some(count)))
}

/// The number of elements that the limit counts.
fn counted(adjustment: Adjustment, count: u32) -> Option<u32>
    ensures { result ≡ counted (is_adjusted adjustment) count }
{
    match adjustment {
        Adjustment::Kept => Some(count),
        Adjustment::ToPointer => None,
    }
}

/// The number of elements that an array's size says, of which this is known.
#[tactic(auto, unfolding(dae_types_rules::specs::Plan::ask_all))]
pub fn element_count(
    checker: &Checker,
    place: Place,
    type_id: usize,
    known: Known,
) -> Result<u32, CheckError>
    ensures { (e : Expression) (c : Category)
        → Follows checker.now result (count_at place (pure (typed e type_id c known))) checker.now }
{
    let shape = checker.shape_of(type_id);
    if !is_integer(shape) {
        return Err(broken(Rule::NotInteger, place));
    }
    match known {
        Known::Division => Err(broken(Rule::ConstantDivision, place)),
        Known::Number(count) => {
            if count == 0 || (count >= 2_147_483_648 && !is_unsigned(shape)) {
                return Err(broken(Rule::BadSize, place));
            }
            Ok(count)
        }
        Known::Nothing | Known::Address(_, _) | Known::NullPointer => {
            Err(broken(Rule::BadSize, place))
        }
    }
}

/// A function of a result and a list of parameters.
#[tactic(auto, unfolding(dae_types_rules::specs::Plan::ask_all))]
pub fn make_function(
    checker: &mut Checker,
    place: Place,
    gives: usize,
    parameters: usize,
) -> Result<usize, CheckError>
    ensures { Follows checker.new result (function place gives (pure parameters)) checker.old }
{
    let shape = checker.shape_of(gives);
    if is_function(shape) || is_array(shape) {
        return Err(broken(Rule::BadFunctionType, place));
    }
    if is_structure(shape) {
        return Err(broken(Rule::StructureValue, place));
    }
    checker.make(Shape::Function(gives, parameters))
}

/// Declares a parameter, and gives the list of parameters with it at its end.
#[tactic(auto, unfolding(dae_types_rules::specs::Plan::ask_all))]
pub fn add_parameter(
    checker: &mut Checker,
    place: Place,
    list: usize,
    name: Option<Name>,
    declared: NamedType,
) -> Result<usize, CheckError>
    ensures { Follows checker.new result
        (parameter_at place list name (pure declared)) checker.old }
{
    let shape = adjusted(checker, declared.type_id);
    if is_function(shape) {
        return Err(broken(Rule::FunctionPointer, place));
    }
    if is_void(shape) {
        return Err(broken(Rule::VoidObject, place));
    }
    if is_structure(shape) {
        return Err(broken(Rule::StructureValue, place));
    }
    if is_taken(checker, declared.name) {
        return Err(broken(Rule::Redeclared, place));
    }
    let type_id = checker.make(shape)?;
    add_named_local(checker, declared.name, type_id)?;
    checker.make(Shape::Parameter(list, type_id))
}

/// The shape of a parameter: an array is a pointer to its elements (C90 6.7.1).
fn adjusted(checker: &Checker, type_id: usize) -> Shape
    ensures { result ≡ adjusted (tables checker.now) type_id }
{
    match checker.shape_of(type_id) {
        Shape::Array(element, _) => Shape::Pointer(element),
        shape => shape,
    }
}

/// Whether the innermost scope declares a name.
pub fn is_taken(checker: &Checker, name: Option<Name>) -> bool
    ensures { result ≡ is_taken (tables checker.now) name }
{
    match name {
        Some(name) => checker.own_name(name.number),
        None => false,
    }
}

/// Declares a parameter or local object, where it has a name.
pub fn add_named_local(
    checker: &mut Checker,
    name: Option<Name>,
    type_id: usize,
) -> Result<(), CheckError>
    ensures { Leaves checker.new result (with_named_local name type_id (tables checker.old)) }
{
    let Some(name) = name else {
        return Ok(());
    };
    let number = checker.count_locals();
    checker.add_local(Local {
        type_id,
        taken: false,
    })?;
    checker.add_name(name.number, Entity::Local(number))
}
