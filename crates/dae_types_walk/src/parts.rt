// Names and places in trees, and what expressions are at places where they stand for a function or for a number.

ghost use Rattle.std.specs.Prelude.{◌≡◌, ◌&&◌};
ghost use Rattle.dae_tree.specs.Depth.{place_of_specifiers};
ghost use Rattle.dae_tree.specs.Views.{view, views_specifiers, view_declarator};
ghost use Rattle.dae_types_plans.specs.Steps.{constant_at, count_at, declared_place, is_last, name_in, named_place};
ghost use Rattle.dae_types_tables.specs.Seen.{Follows, tables};
ghost use Rattle.dae_types_sites.specs.Adjusting.{is_adjusted};
ghost use Rattle.dae_types_values.specs.Results.{one};
ghost use Rattle.dae_types_walk.specs.Plans.{function_named};

use dae_base::Place;
use dae_tree::{Declarator, Expression, Name, Specifier};
use dae_types_folding::TypedValue;
use dae_types_kinds::CheckError;
use dae_types_sites::Adjustment;
use dae_types_tables::Checker;

/// The name that is an expression, perhaps in parentheses.
#[tactic(auto, using(dae_tree::proofs::Laws::view_call, dae_tree::proofs::Laws::view_sizeof_type, dae_tree::proofs::Laws::view_cast))]
pub fn name_in(e: &Expression) -> Option<Name>
    ensures { result ≡ name_in (view e.now) }
{
    match e {
        Expression::Identifier(name) => Some(*name),
        Expression::Parenthesised(_, a) => name_in(a),
        Expression::Constant(_, _) => None,
        Expression::Literal(_, _) => None,
        Expression::Index(_, _, _) => None,
        Expression::Call(_, _, _) => None,
        Expression::Member(_, _, _, _) => None,
        Expression::Postfix(_, _, _) => None,
        Expression::Prefix(_, _, _) => None,
        Expression::SizeofExpression(_, _) => None,
        Expression::SizeofType(_, _, _) => None,
        Expression::Cast(_, _, _) => None,
        Expression::Binary(_, _, _, _) => None,
        Expression::Conditional(_, _, _, _) => None,
        Expression::Assignment(_, _, _, _) => None,
        Expression::Comma(_, _) => None,
    }
}

/// The place of specifiers before a token at a place.
pub fn place_of_specifiers(specifiers: &[Specifier], next: Place) -> Place
    ensures { result ≡ place_of_specifiers (views_specifiers specifiers.now) next }
{
    match specifiers {
        [first, ..] => first.place(),
        [] => next,
    }
}

/// The place of a name, or this one where there is none.
fn named_place(name: Option<Name>, place: Place) -> Place
    ensures { result ≡ named_place name place }
{
    match name {
        Some(name) => name.place,
        None => place,
    }
}

/// The place of what a declarator declares: its name, or a token at this place.
pub fn declared_place(declarator: &Declarator, place: Place) -> Place
    ensures { result ≡ declared_place (view_declarator declarator.now) place }
{
    named_place(declarator.name(), place)
}

/// Whether no part of a declarator is left but its name.
#[tactic(auto, using(dae_tree::proofs::Laws::view_function))]
pub fn is_last(declarator: &Declarator) -> bool
    ensures { result ≡ is_last (view_declarator declarator.now) }
{
    match declarator {
        Declarator::Absent => true,
        _ => declarator.is_bare(),
    }
}

/// What becomes of an array that stands round the rest of a declarator, by what becomes of an outermost one.
pub fn array_adjustment(outermost: Adjustment, rest: &Declarator) -> Adjustment
    ensures { is_adjusted result
        ≡ (is_adjusted outermost && is_last (view_declarator rest.now)) }
{
    match outermost {
        Adjustment::Kept => Adjustment::Kept,
        Adjustment::ToPointer => {
            if is_last(rest) {
                Adjustment::ToPointer
            } else {
                Adjustment::Kept
            }
        }
    }
}

/// The function that an expression names, with the name.
pub fn called_function(checker: &Checker, callee: &Expression) -> Option<(Name, usize)>
    ensures { result ≡ function_named (tables checker.now) (name_in (view callee.now)) }
{
    let Some(name) = name_in(callee) else {
        return None;
    };
    match dae_types_values::routine_of(checker, name) {
        Some(function) => Some((name, function)),
        None => None,
    }
}

/// The word of an enumerator's or label's value.
pub fn constant_value(checker: &Checker, place: Place, x: TypedValue) -> Result<u32, CheckError>
    ensures { Follows checker.now result (constant_at place (one x)) checker.now }
{
    dae_types_sites::constant_value(checker, place, x.type_id, x.known)
}

/// The number of elements that an array's size says.
pub fn element_count(checker: &Checker, place: Place, x: TypedValue) -> Result<u32, CheckError>
    ensures { Follows checker.now result (count_at place (one x)) checker.now }
{
    dae_types_sites::element_count(checker, place, x.type_id, x.known)
}
