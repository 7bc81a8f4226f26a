// Expressions, type names, specifiers and declarators.

ghost use Rattle.std.specs.Prelude.{◌≡◌};
ghost use Rattle.dae_tree.specs.Trees.{Prefix, SizeofExpression};
ghost use Rattle.dae_tree.specs.declared.operators.MemberOperator.TheVariants as signs;
ghost use Rattle.dae_tree.specs.declared.operators.PostfixOperator.TheVariants as postfix;
ghost use Rattle.dae_tree.specs.Views.{view, view_declarator, view_specifier, views_declarators, views_enumerators};
ghost use Rattle.dae_types_plans.specs.Expressions.{plan, plan_component_list, plan_declarator, plan_enumerators, plan_specifier, plan_value};
ghost use Rattle.dae_types_tables.specs.Seen.{Follows, FollowsBy};
ghost use Rattle.dae_types_sites.specs.Adjusting.{is_adjusted};
ghost use Rattle.dae_types_sites.specs.Scopes.{is_innermost};
ghost use Rattle.dae_types_values.specs.Results.{GivesValue, one, views as views_of_arguments};
ghost use Rattle.dae_types_walk.specs.Plans.{IsAssignment, IsBinary, IsCall, IsComma, IsConditional, IsIndex, plan_all, plan_alone, plan_assignment, plan_base, plan_behind, plan_binary, plan_call, plan_cast, plan_conditional, plan_enumeration, plan_function, plan_layout, plan_member, plan_no_call, plan_postfix, plan_structure, plan_type_name, plan_types, view_pair};

use crate::parts::{
    array_adjustment, called_function, constant_value, declared_place, element_count, name_in,
    place_of_specifiers,
};
use dae_base::Place;
use dae_tree::{
    AssignmentOperator, BinaryOperator, Declarator, Enumerator, Expression, Member, MemberOperator,
    Name, Parameter, PostfixOperator, PrefixOperator, Seen, Specifier, TypeName,
};
use dae_types_folding::TypedValue;
use dae_types_kinds::{CheckError, Context, INT_ID, Layout, NO_PARAMETERS_ID, NamedType, Rule};
use dae_types_sites::{Adjustment, TagScope};
use dae_types_tables::{Checker, broken};

/// The typed tree of an expression, as an object where it is one. Each kind has a function of its
/// own, so that a level of a nest takes no more of the stack than its kind needs.
#[cycle(tree)]
pub fn expression(checker: &mut Checker, e: &Expression) -> Result<TypedValue, CheckError>
    ensures { GivesValue checker.new result (plan (view e.now)) checker.old }
{
    match e {
        Expression::Identifier(name) => dae_types_values::name(checker, *name),
        Expression::Constant(_, constant) => {
            dae_types_values::constant_number(checker.alloc, *constant)
        }
        Expression::Literal(_, number) => dae_types_values::literal(checker, *number),
        Expression::Parenthesised(_, a) => expression(checker, a),
        Expression::Index(_, _, _) => subscript(checker, e),
        Expression::Call(_, _, _) => call_or_refuse(checker, e),
        Expression::Member(a, _, MemberOperator::Dot, name) => dot(checker, a, *name),
        Expression::Member(a, _, MemberOperator::Arrow, name) => arrow(checker, a, *name),
        Expression::Postfix(a, _, PostfixOperator::Increment) => increment(checker, a),
        Expression::Postfix(a, _, PostfixOperator::Decrement) => decrement(checker, a),
        Expression::Prefix(place, operator, a) => prefix(checker, *place, *operator, a),
        Expression::SizeofExpression(place, a) => sizeof(checker, *place, a),
        Expression::SizeofType(place, _, name) => {
            let type_id = type_name(checker, name, *place)?;
            dae_types_values::sizeof(checker, *place, type_id)
        }
        Expression::Cast(place, name, a) => {
            let type_id = type_name(checker, name, *place)?;
            cast(checker, *place, type_id, a)
        }
        Expression::Binary(_, _, _, _) => operation(checker, e),
        Expression::Conditional(_, _, _, _) => choice(checker, e),
        Expression::Assignment(_, _, _, _) => assign_to(checker, e),
        Expression::Comma(_, _) => comma(checker, e),
    }
}

/// A subscript, which is an operator between two values.
#[cycle(tree)]
#[inline(never)]
fn subscript(checker: &mut Checker, e: &Expression) -> Result<TypedValue, CheckError>
    requires { IsIndex e.now }
    ensures { GivesValue checker.new result (plan (view e.now)) checker.old }
{
    match e {
        Expression::Index(a, _, b) => {
            let x = operand(checker, a)?;
            let (x, y) = pair(checker, x, b)?;
            dae_types_operations::index(checker, a.place(), b.place(), x, y)
        }
        _ => unreachable!(),
    }
}

/// A call of a function by its name; a call of anything else is refused, behind its arguments.
#[cycle(tree)]
#[inline(never)]
fn call_or_refuse(checker: &mut Checker, e: &Expression) -> Result<TypedValue, CheckError>
    requires { IsCall e.now }
    ensures { GivesValue checker.new result (plan (view e.now)) checker.old }
{
    match e {
        Expression::Call(callee, _, list) => match called_function(checker, callee) {
            Some((name, function)) => { call(checker, callee.place(), name, function, list) }
            None => {
                let x = operand(checker, callee)?;
                no_call(checker, callee.place(), x, list)
            }
        },
        _ => unreachable!(),
    }
}

/// A member of a structure.
#[cycle(tree)]
#[inline(never)]
fn dot(checker: &mut Checker, a: &Expression, name: Name) -> Result<TypedValue, CheckError>
    ensures { GivesValue checker.new result (plan_member a.now signs.Dot name) checker.old }
{
    let x = expression(checker, a)?;
    dae_types_operations::member(checker, a.place(), MemberOperator::Dot, name, x)
}

/// A member of the structure that a pointer points to.
#[cycle(tree)]
#[inline(never)]
fn arrow(checker: &mut Checker, a: &Expression, name: Name) -> Result<TypedValue, CheckError>
    ensures { GivesValue checker.new result (plan_member a.now signs.Arrow name) checker.old }
{
    let x = operand(checker, a)?;
    dae_types_operations::member(checker, a.place(), MemberOperator::Arrow, name, x)
}

/// `++` behind an object.
#[cycle(tree)]
#[inline(never)]
fn increment(checker: &mut Checker, a: &Expression) -> Result<TypedValue, CheckError>
    ensures { GivesValue checker.new result (plan_postfix a.now postfix.Increment) checker.old }
{
    let x = expression(checker, a)?;
    dae_types_operations::postfix(checker, a.place(), PostfixOperator::Increment, x)
}

/// `--` behind an object.
#[cycle(tree)]
#[inline(never)]
fn decrement(checker: &mut Checker, a: &Expression) -> Result<TypedValue, CheckError>
    ensures { GivesValue checker.new result (plan_postfix a.now postfix.Decrement) checker.old }
{
    let x = expression(checker, a)?;
    dae_types_operations::postfix(checker, a.place(), PostfixOperator::Decrement, x)
}

/// An operator between two expressions.
#[cycle(tree)]
#[inline(never)]
#[tactic(auto, using(crate::proofs::Steps::binary_follows, crate::proofs::Steps::binary_stops))]
fn operation(checker: &mut Checker, e: &Expression) -> Result<TypedValue, CheckError>
    requires { IsBinary e.now }
    ensures { GivesValue checker.new result (plan (view e.now)) checker.old }
{
    match e {
        Expression::Binary(a, _, operator, b) => {
            let x = operand(checker, a)?;
            binary(checker, a.place(), *operator, x, b)
        }
        _ => unreachable!(),
    }
}

/// `?:` between three expressions.
#[cycle(tree)]
#[inline(never)]
fn choice(checker: &mut Checker, e: &Expression) -> Result<TypedValue, CheckError>
    requires { IsConditional e.now }
    ensures { GivesValue checker.new result (plan (view e.now)) checker.old }
{
    match e {
        Expression::Conditional(a, _, b, c) => {
            let x = operand(checker, a)?;
            let x = dae_types_values::scalar(checker, a.place(), x)?;
            let (x, y) = pair(checker, x, b)?;
            conditional(checker, a.place(), x, y, c)
        }
        _ => unreachable!(),
    }
}

/// An assignment between two expressions.
#[cycle(tree)]
#[inline(never)]
#[tactic(auto, using(crate::proofs::Steps::assignment_follows, crate::proofs::Steps::assignment_stops))]
fn assign_to(checker: &mut Checker, e: &Expression) -> Result<TypedValue, CheckError>
    requires { IsAssignment e.now }
    ensures { GivesValue checker.new result (plan (view e.now)) checker.old }
{
    match e {
        Expression::Assignment(a, _, operator, b) => {
            let x = expression(checker, a)?;
            assignment(checker, a.place(), *operator, x, b)
        }
        _ => unreachable!(),
    }
}

/// A comma between two expressions.
#[cycle(tree)]
#[inline(never)]
fn comma(checker: &mut Checker, e: &Expression) -> Result<TypedValue, CheckError>
    requires { IsComma e.now }
    ensures { GivesValue checker.new result (plan (view e.now)) checker.old }
{
    match e {
        Expression::Comma(a, b) => {
            let x = operand(checker, a)?;
            let (x, y) = pair(checker, x, b)?;
            dae_types_operations::comma(checker, x, y)
        }
        _ => unreachable!(),
    }
}

/// The value of an expression.
#[cycle(tree)]
#[inline(never)]
pub fn operand(checker: &mut Checker, e: &Expression) -> Result<TypedValue, CheckError>
    ensures { GivesValue checker.new result (plan_value (view e.now)) checker.old }
{
    let x = expression(checker, e)?;
    dae_types_values::value(checker, e.place(), x)
}

/// A value, and the value of an expression behind it.
#[cycle(tree)]
#[inline(never)]
fn pair(
    checker: &mut Checker,
    x: TypedValue,
    b: &Expression,
) -> Result<(TypedValue, TypedValue), CheckError>
    ensures { FollowsBy view_pair checker.new result (plan_behind x b.now) checker.old }
{
    let y = operand(checker, b)?;
    Ok((x, y))
}

/// An operator before an expression.
#[cycle(tree)]
#[inline(never)]
#[tactic(auto, using(crate::proofs::Steps::prefix_given, crate::proofs::Steps::prefix_failed))]
fn prefix(
    checker: &mut Checker,
    place: Place,
    operator: PrefixOperator,
    a: &Expression,
) -> Result<TypedValue, CheckError>
    ensures { GivesValue checker.new result
        (plan (Prefix place operator (view a.now))) checker.old }
{
    let x = expression(checker, a)?;
    dae_types_operations::prefix(checker, place, a.place(), operator, name_in(a), x)
}

/// `sizeof` before an expression, which isn't used.
#[cycle(tree)]
#[inline(never)]
fn sizeof(checker: &mut Checker, place: Place, a: &Expression) -> Result<TypedValue, CheckError>
    ensures { GivesValue checker.new result
        (plan (SizeofExpression place (view a.now))) checker.old }
{
    let uses = checker.copy_uses()?;
    let x = expression(checker, a)?;
    checker.set_uses(uses);
    dae_types_values::sizeof(checker, place, x.type_id)
}

/// A cast to a type.
#[cycle(tree)]
#[inline(never)]
fn cast(
    checker: &mut Checker,
    place: Place,
    type_id: usize,
    a: &Expression,
) -> Result<TypedValue, CheckError>
    ensures { GivesValue checker.new result (plan_cast place type_id a.now) checker.old }
{
    let x = operand(checker, a)?;
    dae_types_values::cast(checker, place, type_id, x)
}

/// An operator between a value, from this place, and an expression.
#[cycle(tree)]
#[inline(never)]
#[tactic(auto, using(crate::proofs::Steps::binary_given, crate::proofs::Steps::binary_failed))]
fn binary(
    checker: &mut Checker,
    place: Place,
    operator: BinaryOperator,
    x: TypedValue,
    b: &Expression,
) -> Result<TypedValue, CheckError>
    ensures { GivesValue checker.new result (plan_binary place operator x b.now) checker.old }
{
    let y = operand(checker, b)?;
    dae_types_operations::binary(checker, place, b.place(), operator, x, y)
}

/// `?:` between a condition, from this place, a value and an expression.
#[cycle(tree)]
#[inline(never)]
fn conditional(
    checker: &mut Checker,
    place: Place,
    x: TypedValue,
    y: TypedValue,
    b: &Expression,
) -> Result<TypedValue, CheckError>
    ensures { GivesValue checker.new result (plan_conditional place x y b.now) checker.old }
{
    let z = operand(checker, b)?;
    dae_types_operations::conditional(checker, place, x, y, z)
}

/// An assignment of an expression to an object, from this place.
#[cycle(tree)]
#[inline(never)]
#[tactic(auto, using(crate::proofs::Steps::assignment_given, crate::proofs::Steps::assignment_failed))]
fn assignment(
    checker: &mut Checker,
    place: Place,
    operator: AssignmentOperator,
    x: TypedValue,
    b: &Expression,
) -> Result<TypedValue, CheckError>
    ensures { GivesValue checker.new result (plan_assignment place operator x b.now) checker.old }
{
    let y = operand(checker, b)?;
    dae_types_operations::assign(checker, place, operator, x, y)
}

/// A call of a function by its name.
#[cycle(tree)]
#[inline(never)]
fn call(
    checker: &mut Checker,
    place: Place,
    name: Name,
    function: usize,
    list: &[Expression],
) -> Result<TypedValue, CheckError>
    ensures { GivesValue checker.new result (plan_call place name function list.now) checker.old }
{
    dae_types_values::begin_call(checker, place, name, function, list.len())?;
    let arguments = arguments(checker, Some(function), list)?;
    dae_types_values::call(checker, place, function, arguments)
}

/// A call of a value, which is no function.
#[cycle(tree)]
#[inline(never)]
#[tactic(auto, unfolding(dae_types_rules::specs::Plan::ask_all))]
fn no_call(
    checker: &mut Checker,
    place: Place,
    x: TypedValue,
    list: &[Expression],
) -> Result<TypedValue, CheckError>
    ensures { GivesValue checker.new result (plan_no_call place (one x) list.now) checker.old }
{
    arguments(checker, None, list)?;
    Err(broken(Rule::BadCall, place))
}

/// The arguments of a function, or of what is none.
#[cycle(tree)]
#[inline(never)]
fn arguments(
    checker: &mut Checker,
    function: Option<usize>,
    list: &[Expression],
) -> Result<Vec<dae_program::Expression>, CheckError>
    ensures { FollowsBy views_of_arguments checker.new result
        (plan_all function list.now) checker.old }
{
    let mut done = Vec::new(checker.alloc);
    let mut number = 0;
    for e in list {
        let x = operand(checker, e)?;
        done = dae_types_values::add_argument(checker, e.place(), function, number, done, x)?;
        number += 1;
    }
    Ok(done)
}

/// The type of a type name, before a token at this place.
#[cycle(tree)]
#[inline(never)]
pub fn type_name(checker: &mut Checker, name: &TypeName, place: Place) -> Result<usize, CheckError>
    ensures { Follows checker.new result (plan_type_name name.now place) checker.old }
{
    let base = base(checker, Context::TypeName, &name.specifiers)?;
    let place = place_of_specifiers(&name.specifiers, place);
    let declared = declarator(checker, place, Adjustment::Kept, base, &name.declarator)?;
    Ok(declared.type_id)
}

/// The type that specifiers name.
#[cycle(tree)]
#[inline(never)]
pub fn base(
    checker: &mut Checker,
    context: Context,
    list: &[Specifier],
) -> Result<usize, CheckError>
    ensures { Follows checker.new result (plan_base context list.now) checker.old }
{
    let alone = specifiers(checker, context, TagScope::Any, list)?;
    Ok(dae_types_sites::base_type(Seen::of_specifiers(list), alone))
}

/// The type that stands alone among specifiers, if there is one. A tag without members is looked for in this scope.
#[cycle(tree)]
#[inline(never)]
pub fn specifiers(
    checker: &mut Checker,
    context: Context,
    scope: TagScope,
    list: &[Specifier],
) -> Result<Option<usize>, CheckError>
    ensures { Follows checker.new result
        (plan_alone context (is_innermost scope) list.now) checker.old }
{
    let mut base = None;
    for one in list {
        base = specifier(checker, context, scope, base, one)?;
    }
    Ok(base)
}

/// The type that stands alone among the specifiers so far and one more.
#[cycle(tree)]
#[inline(never)]
fn specifier(
    checker: &mut Checker,
    context: Context,
    scope: TagScope,
    base: Option<usize>,
    specifier: &Specifier,
) -> Result<Option<usize>, CheckError>
    ensures { Follows checker.new result
        (plan_specifier context (is_innermost scope) base (view_specifier specifier.now))
        checker.old }
{
    match specifier {
        Specifier::Word(place, word) => dae_types_sites::check_word(
            checker, *place, context, base, *word,
        ),
        Specifier::TypeName(name) => dae_types_sites::type_of_name(checker, *name),
        Specifier::Structure(_, name) => dae_types_sites::structure_by_tag(checker, scope, *name),
        Specifier::StructureBody(place, tag, _, list) => { structure(checker, *place, *tag, list) }
        Specifier::Enumeration(_, name) => dae_types_sites::enumeration_by_tag(checker, *name),
        Specifier::EnumerationBody(_, tag, _, list, _) => enumeration(checker, *tag, list),
    }
}

/// A structure with its members.
#[cycle(tree)]
#[inline(never)]
fn structure(
    checker: &mut Checker,
    place: Place,
    tag: Option<Name>,
    list: &[Member],
) -> Result<Option<usize>, CheckError>
    ensures { Follows checker.new result (plan_structure place tag list.now) checker.old }
{
    let structure = dae_types_sites::begin_structure(checker, tag)?;
    let layout = members(checker, structure, list)?;
    dae_types_sites::end_structure(checker, place, tag, structure, layout)
}

/// An enumeration with its enumerators.
#[cycle(tree)]
#[inline(never)]
fn enumeration(
    checker: &mut Checker,
    tag: Option<Name>,
    list: &[Enumerator],
) -> Result<Option<usize>, CheckError>
    ensures { Follows checker.new result (plan_enumeration tag list.now) checker.old }
{
    dae_types_sites::declare_enumeration(checker, tag)?;
    enumerators(checker, list)?;
    Ok(Some(INT_ID))
}

/// The members of a structure, and its layout so far.
#[cycle(tree)]
#[inline(never)]
pub fn members(
    checker: &mut Checker,
    structure: usize,
    list: &[Member],
) -> Result<Layout, CheckError>
    ensures { Follows checker.new result (plan_layout structure list.now) checker.old }
{
    let mut layout = Layout { size: 0, align: 1 };
    for member in list {
        let base = base(checker, Context::Member, &member.specifiers)?;
        let place = place_of_specifiers(&member.specifiers, member.end);
        layout = components(checker, place, structure, base, layout, &member.declarators)?;
    }
    Ok(layout)
}

/// The members of one declaration, behind members of this layout.
#[cycle(tree)]
#[inline(never)]
pub fn components(
    checker: &mut Checker,
    place: Place,
    structure: usize,
    base: usize,
    mut layout: Layout,
    list: &[Declarator],
) -> Result<Layout, CheckError>
    ensures { Follows checker.new result
        (plan_component_list place structure base layout (views_declarators list.now)) checker.old }
{
    for one in list {
        let at = declared_place(one, place);
        let declared = declarator(checker, at, Adjustment::Kept, base, one)?;
        layout = dae_types_sites::add_member(checker, at, structure, layout, one.name(), declared)?;
    }
    Ok(layout)
}

/// Enumerators, and the value of a next one.
#[cycle(tree)]
#[inline(never)]
pub fn enumerators(checker: &mut Checker, list: &[Enumerator]) -> Result<u32, CheckError>
    ensures { Follows checker.new result
        (plan_enumerators 0 (views_enumerators list.now)) checker.old }
{
    let mut word = 0;
    for one in list {
        match one {
            Enumerator::Plain(name) => word = dae_types_sites::add_enumerator(
                checker, *name, word,
            )?,
            Enumerator::Valued(name, _, e) => {
                let x = operand(checker, e)?;
                let value = constant_value(checker, e.place(), x)?;
                word = dae_types_sites::add_enumerator(checker, *name, value)?;
            }
        }
    }
    Ok(word)
}

/// What a declarator declares, from its outermost part, whose array is adjusted so.
#[cycle(tree)]
#[tactic(auto, using(crate::proofs::Rows::function_gives))]
pub fn declarator(
    checker: &mut Checker,
    place: Place,
    adjustment: Adjustment,
    base: usize,
    part: &Declarator,
) -> Result<NamedType, CheckError>
    ensures { Follows checker.new result
        (plan_declarator place (is_adjusted adjustment) base (view_declarator part.now))
        checker.old }
{
    match part {
        Declarator::Absent => Ok(NamedType {
            name: None,
            type_id: base,
        }),
        Declarator::Named(name) => Ok(NamedType {
            name: Some(*name),
            type_id: base,
        }),
        Declarator::Grouped(_, inner) => declarator(checker, place, adjustment, base, inner),
        Declarator::Pointer(_, _, inner) => {
            let base = dae_types_sites::make_pointer(checker, place, base)?;
            declarator(checker, place, adjustment, base, inner)
        }
        Declarator::Unsized(inner, _) => {
            let base = dae_types_sites::make_unsized_array(checker, place, base)?;
            declarator(checker, place, adjustment, base, inner)
        }
        Declarator::Sized(inner, _, size) => {
            let x = operand(checker, size)?;
            let count = element_count(checker, size.place(), x)?;
            let array = array_adjustment(adjustment, inner);
            let base = dae_types_sites::make_array(checker, place, array, base, count)?;
            declarator(checker, place, adjustment, base, inner)
        }
        Declarator::Empty(inner, _) | Declarator::Void(inner, _, _) => {
            let base = dae_types_sites::make_function(checker, place, base, NO_PARAMETERS_ID)?;
            declarator(checker, place, adjustment, base, inner)
        }
        Declarator::Function(inner, q, list) => {
            let base = function(checker, place, base, *q, list)?;
            declarator(checker, place, adjustment, base, inner)
        }
    }
}

/// A function of parameters, which have a scope of their own.
#[cycle(tree)]
#[inline(never)]
fn function(
    checker: &mut Checker,
    place: Place,
    base: usize,
    q: Place,
    list: &[Parameter],
) -> Result<usize, CheckError>
    ensures { Follows checker.new result (plan_function place base q list.now) checker.old }
{
    let outer = checker.open();
    let types = parameters(checker, q, list)?;
    checker.close(outer)?;
    dae_types_sites::make_function(checker, place, base, types)
}

/// The types of parameters.
#[cycle(tree)]
#[inline(never)]
pub fn parameters(
    checker: &mut Checker,
    place: Place,
    list: &[Parameter],
) -> Result<usize, CheckError>
    ensures { Follows checker.new result (plan_types place list.now) checker.old }
{
    let mut types = NO_PARAMETERS_ID;
    for one in list {
        let at = declared_place(&one.declarator, place_of_specifiers(&one.specifiers, place));
        let base = base(checker, Context::Parameter, &one.specifiers)?;
        let declared = declarator(checker, at, Adjustment::ToPointer, base, &one.declarator)?;
        types = dae_types_sites::add_parameter(
            checker,
            at,
            types,
            one.declarator.name(),
            declared,
        )?;
    }
    Ok(types)
}
