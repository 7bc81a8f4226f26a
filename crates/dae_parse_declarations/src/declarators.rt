// Declarators (C90 6.5.4): pointers, names, groups, and the sizes and parameters behind them.

ghost use Rattle.std.specs.Prelude.{◌≡◌, [], List, Some, IfOk};
ghost use Rattle.dae_base.specs.declared.Place.{Place};
ghost use Rattle.dae_tree.specs.declared.signs.Sign.TheVariants as signs;
ghost use Rattle.dae_parse_states.specs.Fronts.{sign_at};
ghost use Rattle.dae_parse_grammar.specs.Stuck.{behind};
ghost use Rattle.dae_tree.specs.Trees.{Declarator};
ghost use Rattle.dae_parse_grammar.specs.Frames.{Frame as PlainFrame};
ghost use Rattle.dae_parse_grammar.specs.Machine.{declared as declared_of, nothing_declared, qualified, suffixed, sized, parameters_opened, onto, begins_parameters as parameters_begin};
ghost use Rattle.dae_parse_nodes.specs.Parts.{ShowsDeclared};
ghost use Rattle.dae_parse_states.specs.Frames.{is_required, manner_of};
ghost use Rattle.dae_parse_declarations.specs.Ahead.{parameters_ahead};
ghost use Rattle.dae_parse_states.specs.States.{Stands, Follows, outside_stack, Steps};

use dae_base::Place;
use dae_parse_nodes::{
    Declared, absent, empty_function, named, no_parameters, no_specifiers, unsized_array,
};
use dae_parse_parts::{CONDITIONAL, Scope};
use dae_parse_states::{
    DeclaratorFrame, Doing, ExpressionFrame, Manner, OpenParameters, Parser, Presence,
    SpecifiersFrame, TokensLeft, begins_specifiers,
};
use dae_tree::{Keyword, Seen, Sign};
use std::alloc::AllocError;

/// Before a declarator, of which a part is required or none (C90 6.5.4 and 6.5.5).
pub fn read_declarator(
    machine: &mut Parser<'_>,
    manner: Manner,
    presence: Presence,
) -> Result<Option<Doing>, AllocError>
    ensures { Steps machine.old result machine.new
        (declared_of (manner_of manner) (is_required presence)) }
{
    if let Some(star) = machine.rest.take_sign(Sign::Times) {
        return Ok(Some(Doing::Qualifying(manner, star, Vec::new(machine.alloc))));
    }
    match machine.rest.sign() {
        Some(Sign::LeftParen) => read_parenthesis(machine, manner, presence),
        Some(Sign::LeftBracket) => read_bracket(machine, manner, presence),
        _ => read_name_or_nothing(machine, manner, presence),
    }
}

/// Before a bracket: the suffix of no part, where a name may be lacking.
#[tactic(auto, using(crate::proofs::OtherwiseDeclarators::bracket_by_name, crate::proofs::OtherwiseDeclarators::bracket_without, crate::proofs::OtherwiseDeclarators::bracket_either))]
fn read_bracket(
    machine: &Parser<'_>,
    manner: Manner,
    presence: Presence,
) -> Result<Option<Doing>, AllocError>
    ensures { (s : List PlainFrame) → sign_at machine.now.rest ≡ Some signs.LeftBracket
        → Stands machine.now s (outside_stack s)
        → IfOk result
        (λ r. Follows r machine.now (declared_of
        (manner_of manner) (is_required presence) s machine.now.scope.names machine.now.rest)) }
{
    match manner {
        Manner::ByName => Ok(None),
        Manner::WithoutName | Manner::EitherWay => Ok(Some(Doing::Suffixing(
            manner,
            absent(machine.alloc)?,
        ))),
    }
}

/// No part, where none is required and a name may be lacking.
fn read_nothing(
    machine: &Parser<'_>,
    manner: Manner,
    presence: Presence,
) -> Result<Option<Doing>, AllocError>
    ensures { (s : List PlainFrame) → Stands machine.now s (outside_stack s)
        → IfOk result
        (λ r. Follows r machine.now (nothing_declared
        (manner_of manner) (is_required presence) s machine.now.scope.names machine.now.rest)) }
{
    match manner {
        Manner::ByName => Ok(None),
        Manner::WithoutName | Manner::EitherWay => match presence {
            Presence::Required => Ok(None),
            Presence::Optional => Ok(Some(Doing::GaveDeclarator(absent(machine.alloc)?))),
        },
    }
}

/// Before what is neither a star nor a parenthesis nor a bracket: a name, or no part.
#[tactic(auto, using(crate::proofs::OtherwiseDeclarators::declared_otherwise, crate::proofs::OtherwiseDeclarators::without_otherwise))]
fn read_name_or_nothing(
    machine: &mut Parser<'_>,
    manner: Manner,
    presence: Presence,
) -> Result<Option<Doing>, AllocError>
    ensures { ¬ (sign_at machine.old.rest ≡ Some signs.Times)
        → ¬ (sign_at machine.old.rest ≡ Some signs.LeftParen)
        → ¬ (sign_at machine.old.rest ≡ Some signs.LeftBracket)
        → Steps machine.old result machine.new
        (declared_of (manner_of manner) (is_required presence)) }
{
    if manner == Manner::WithoutName {
        return read_nothing(machine, manner, presence);
    }
    match machine.rest.take_name() {
        Some(name) => Ok(Some(Doing::Suffixing(manner, named(machine.alloc, name)?))),
        None => read_nothing(machine, manner, presence),
    }
}

/// Before a parenthesis: parameters of no part, where a name may be lacking, or a declarator in parentheses.
#[tactic(auto, using(crate::proofs::OtherwiseDeclarators::parameters_declared, crate::proofs::OtherwiseDeclarators::group_declared))]
fn read_parenthesis(
    machine: &mut Parser<'_>,
    manner: Manner,
    presence: Presence,
) -> Result<Option<Doing>, AllocError>
    ensures { sign_at machine.old.rest ≡ Some signs.LeftParen
        → Steps machine.old result machine.new
        (declared_of (manner_of manner) (is_required presence)) }
{
    if begins_parameters(machine, manner) {
        return Ok(Some(Doing::Suffixing(manner, absent(machine.alloc)?)));
    }
    let Some(paren) = machine.rest.take_sign(Sign::LeftParen) else {
        return Ok(None);
    };
    machine.push_declarator(DeclaratorFrame::InGroup(paren, manner))?;
    Ok(Some(Doing::Declaring(manner, Presence::Required)))
}

/// Whether parameters begin behind the next token, where a name may be lacking.
fn begins_parameters(machine: &Parser<'_>, manner: Manner) -> bool
    ensures { result ≡ parameters_ahead (manner_of manner) machine.now.scope.names
        (behind machine.now.rest) }
{
    match manner {
        Manner::ByName => false,
        Manner::WithoutName | Manner::EitherWay => parameters_stand(
            &machine.scope,
            machine.rest.behind(),
        ),
    }
}

/// Whether parameters begin with the next token.
fn parameters_stand(scope: &Scope<bool>, rest: TokensLeft<'_>) -> bool
    ensures { result ≡ parameters_begin scope.now.names rest.entry }
{
    let mut inner = rest;
    if inner.take_sign(Sign::RightParen).is_some() {
        return true;
    }
    begins_specifiers(scope, &inner)
}

/// Behind the star of a pointer (C90 6.5.4.1).
#[inline(never)]
#[tactic(auto, using(crate::proofs::OtherwiseDeclarators::qualified_otherwise))]
pub fn read_qualifier(
    machine: &mut Parser<'_>,
    manner: Manner,
    place: Place,
    qualifiers: Vec<Place>,
) -> Result<Option<Doing>, AllocError>
    ensures { (qs : List Place) → qualifiers.items ≡ onto qs [] →
        Steps machine.old result machine.new (qualified (manner_of manner) place qs) }
{
    let mut qualifiers = qualifiers;
    if let Some(qualifier) = machine.rest.take_word(Keyword::Const) {
        qualifiers.push(qualifier)?;
        return Ok(Some(Doing::Qualifying(manner, place, qualifiers)));
    }
    machine.push_declarator(DeclaratorFrame::BehindStar(place, qualifiers))?;
    Ok(Some(Doing::Declaring(manner, Presence::Optional)))
}

/// Behind a declarator that suffixes may follow (C90 6.5.4.2 and 6.5.4.3).
#[tactic(auto, using(crate::proofs::OtherwiseDeclarators::suffixed_otherwise))]
pub fn read_suffix(
    machine: &mut Parser<'_>,
    manner: Manner,
    declared: Declared,
) -> Result<Option<Doing>, AllocError>
    ensures { (d : Declarator) → ShowsDeclared declared d →
        Steps machine.old result machine.new (suffixed (manner_of manner) d) }
{
    if let Some(place) = machine.rest.take_sign(Sign::LeftBracket) {
        return Ok(Some(Doing::Sizing(manner, declared, place)));
    }
    if let Some(place) = machine.rest.take_sign(Sign::LeftParen) {
        return Ok(Some(Doing::InParameters(manner, declared, place)));
    }
    Ok(Some(Doing::GaveDeclarator(declared)))
}

/// Behind the bracket of an array (C90 6.5.4.2).
#[inline(never)]
#[tactic(auto, using(crate::proofs::OtherwiseDeclarators::sized_otherwise))]
pub fn read_size(
    machine: &mut Parser<'_>,
    manner: Manner,
    declared: Declared,
    place: Place,
) -> Result<Option<Doing>, AllocError>
    ensures { (d : Declarator) → ShowsDeclared declared d →
        Steps machine.old result machine.new (sized (manner_of manner) d place) }
{
    if machine.rest.take_sign(Sign::RightBracket).is_some() {
        let whole = unsized_array(machine.alloc, declared, place)?;
        return Ok(Some(Doing::Suffixing(manner, whole)));
    }
    machine.push_expression(ExpressionFrame::InSize(declared, place, manner))?;
    Ok(Some(Doing::Seek(CONDITIONAL)))
}

/// Behind the parenthesis of a function, whose parameters have a scope of their own (C90 6.5.4.3 and 6.1.2.1).
#[inline(never)]
#[tactic(auto, using(crate::proofs::OtherwiseDeclarators::parameters_otherwise))]
pub fn read_parameters(
    machine: &mut Parser<'_>,
    manner: Manner,
    declared: Declared,
    place: Place,
) -> Result<Option<Doing>, AllocError>
    ensures { (d : Declarator) → ShowsDeclared declared d →
        Steps machine.old result machine.new (parameters_opened (manner_of manner) d place) }
{
    if machine.rest.take_sign(Sign::RightParen).is_some() {
        let whole = empty_function(machine.alloc, declared, place)?;
        return Ok(Some(Doing::Suffixing(manner, whole)));
    }
    machine.scope.open()?;
    let none = no_parameters(machine.alloc);
    machine.push_specifiers(SpecifiersFrame::ForParameter(
        OpenParameters {
            declared,
            place,
            manner,
        },
        none,
    ))?;
    let before = no_specifiers(machine.alloc);
    Ok(Some(Doing::Specifying(Seen::nothing(), before)))
}
