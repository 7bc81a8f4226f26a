// Initialisers (C90 6.5.7): expressions and lists in braces.

ghost use Rattle.std.specs.Prelude.{◌≡◌, ◌∷◌, List, Option, Some, None, IfOk};
ghost use Rattle.dae_tree.specs.Trees.{Expression, Initialiser as InitialiserTree};
ghost use Rattle.dae_parse_grammar.specs.Frames as plain;
ghost use Rattle.dae_parse_grammar.specs.Frames.{Frame as PlainFrame};
ghost use Rattle.dae_parse_grammar.specs.Machine.{expression_given, initialised, list_followed, listed};
ghost use Rattle.dae_parse_nodes.specs.Parts.{ShowsOperand, ShowsInitialiser, ShowsInitialisers};
ghost use Rattle.dae_parse_states.specs.States.{Steps};

use dae_base::Place;
use dae_parse_nodes::{ReadOperand, initialiser_list, no_initialisers, value, with_initialiser};
use dae_parse_parts::{ASSIGNMENT, Read};
use dae_parse_states::{Doing, ExpressionFrame, InitialiserFrame, Parser};
use dae_tree::{Initialiser, Sign, TrailingComma};
use std::alloc::AllocError;

/// Before an initialiser (C90 6.5.7).
#[tactic(auto, using(crate::proofs::OtherwiseDeclarations::initialised_otherwise))]
pub fn read_initialiser(machine: &mut Parser<'_>) -> Result<Option<Doing>, AllocError>
    ensures { Steps machine.old result machine.new initialised }
{
    if let Some(brace) = machine.rest.take_sign(Sign::LeftBrace) {
        machine.push_initialiser(InitialiserFrame::InList(brace, no_initialisers(machine.alloc)))?;
        return Ok(Some(Doing::Initialising));
    }
    machine.push_expression(ExpressionFrame::InValue)?;
    Ok(Some(Doing::Seek(ASSIGNMENT)))
}

/// Behind the comma in a list of initialisers.
#[tactic(auto, using(crate::proofs::OtherwiseDeclarations::list_otherwise))]
pub fn read_list(
    machine: &mut Parser<'_>,
    place: Place,
    list: Read<Vec<Initialiser>>,
) -> Result<Option<Doing>, AllocError>
    ensures { (xs : List InitialiserTree) → ShowsInitialisers list xs →
        Steps machine.old result machine.new (list_followed place xs) }
{
    if machine.rest.take_sign(Sign::RightBrace).is_some() {
        let whole = initialiser_list(place, list, TrailingComma::Present)?;
        return Ok(Some(Doing::GaveInitialiser(whole)));
    }
    machine.push_initialiser(InitialiserFrame::InList(place, list))?;
    Ok(Some(Doing::Initialising))
}

/// Behind an initialiser in a list.
#[tactic(auto, using(crate::proofs::OtherwiseDeclarations::listed_or_none))]
pub fn in_list(
    machine: &mut Parser<'_>,
    initialiser: Read<Initialiser>,
    place: Place,
    before: Read<Vec<Initialiser>>,
) -> Result<Option<Doing>, AllocError>
    ensures { (x : InitialiserTree) (xs : List InitialiserTree) → ShowsInitialiser initialiser x
        → ShowsInitialisers before xs → Steps machine.old result machine.new (listed x place xs) }
{
    let list = with_initialiser(before, initialiser)?;
    if machine.rest.take_sign(Sign::Comma).is_some() {
        return Ok(Some(Doing::Listing(place, list)));
    }
    if machine.rest.take_sign(Sign::RightBrace).is_none() {
        return Ok(None);
    }
    let whole = initialiser_list(place, list, TrailingComma::Absent)?;
    Ok(Some(Doing::GaveInitialiser(whole)))
}

/// Behind the expression of an initialiser.
pub fn in_value(machine: &mut Parser<'_>, operand: ReadOperand) -> Result<Option<Doing>, AllocError>
    ensures { (e : Expression) → ShowsOperand operand e →
        Steps machine.old result machine.new (expression_given e plain.in_value) }
{
    Ok(Some(Doing::GaveInitialiser(value(operand))))
}
