// Behind an expression that is a part of a statement: a test, a start, a step, a value.

ghost use Rattle.std.specs.Prelude.{List, Option, IfOk};
ghost use Rattle.dae_tree.specs.Trees.{Expression};
ghost use Rattle.dae_parse_grammar.specs.Frames as plain;
ghost use Rattle.dae_parse_grammar.specs.Frames.{Frame as PlainFrame};
ghost use Rattle.dae_parse_grammar.specs.Machine.{expression_given};
ghost use Rattle.dae_parse_nodes.specs.Parts.{ShowsOperand, ShowsOptional, ShowsLoop};
ghost use Rattle.dae_parse_states.specs.Frames.{ShowsHead};
ghost use Rattle.dae_parse_states.specs.States.{Steps};

use crate::nodes::{evaluation, return_statement};
use dae_base::Place;
use dae_parse_nodes::{DoParts, Loop, ReadOperand};
use dae_parse_states::{Doing, Parser, StatementFrame, StatementHead, StatementKind};
use dae_tree::Sign;
use std::alloc::AllocError;

/// Behind the expression of a statement (C90 6.6.3).
#[tactic(auto, using(dae_parse_states::proofs::Laws::semicolon_or_none))]
pub fn in_evaluation(
    machine: &mut Parser<'_>,
    operand: ReadOperand,
) -> Result<Option<Doing>, AllocError>
    ensures { (e : Expression) → ShowsOperand operand e →
        Steps machine.old result machine.new (expression_given e plain.in_evaluation) }
{
    let Some(end) = machine.rest.take_sign(Sign::Semicolon) else {
        return Ok(None);
    };
    let whole = evaluation(machine.alloc, operand, end)?;
    Ok(Some(Doing::GaveStatement(whole, StatementKind::Other)))
}

/// Behind a test (C90 6.6.4 and 6.6.5).
#[inline(never)]
#[tactic(auto, using(dae_parse_states::proofs::Laws::paren_or_none))]
pub fn in_test(
    machine: &mut Parser<'_>,
    test: ReadOperand,
    head: StatementHead,
    paren: Place,
) -> Result<Option<Doing>, AllocError>
    ensures { (e : Expression) (h : plain.StatementHead) → ShowsOperand test e → ShowsHead head h →
        Steps machine.old result machine.new (expression_given e (plain.in_test h paren)) }
{
    if machine.rest.take_sign(Sign::RightParen).is_none() {
        return Ok(None);
    }
    match head {
        StatementHead::If(place) => machine.push_statement(StatementFrame::ThenBranch {
            place,
            paren,
            test,
        })?,
        StatementHead::While(place) => machine.push_statement(StatementFrame::WhileBody {
            place,
            paren,
            test,
        })?,
        StatementHead::Switch(place) => machine.push_statement(StatementFrame::SwitchBody {
            place,
            paren,
            test,
        })?,
        StatementHead::Do { place, body, word } => {
            return Ok(Some(Doing::Finishing(DoParts {
                place,
                body,
                word,
                paren,
                test,
            })));
        }
    }
    Ok(Some(Doing::AtStatement))
}

/// Behind the first expression of a `for` (C90 6.6.5.3).
#[inline(never)]
#[tactic(auto, using(dae_parse_states::proofs::Laws::semicolon_or_none))]
pub fn in_start(
    machine: &mut Parser<'_>,
    start: ReadOperand,
    word: Place,
    paren: Place,
) -> Result<Option<Doing>, AllocError>
    ensures { (e : Expression) → ShowsOperand start e →
        Steps machine.old result machine.new (expression_given e (plain.in_start word paren)) }
{
    let Some(first) = machine.rest.take_sign(Sign::Semicolon) else {
        return Ok(None);
    };
    Ok(Some(Doing::Testing {
        word,
        paren,
        start: Some(start),
        first,
    }))
}

/// Behind the second expression of a `for` (C90 6.6.5.3).
#[inline(never)]
#[tactic(auto, using(dae_parse_states::proofs::Laws::semicolon_or_none))]
pub fn in_loop_test(
    machine: &mut Parser<'_>,
    test: ReadOperand,
    word: Place,
    paren: Place,
    start: Option<ReadOperand>,
    first: Place,
) -> Result<Option<Doing>, AllocError>
    ensures { (e : Expression) (a : Option Expression) → ShowsOperand test e → ShowsOptional start a
        → Steps machine.old result machine.new
        (expression_given e (plain.in_loop_test word paren a first)) }
{
    let Some(second) = machine.rest.take_sign(Sign::Semicolon) else {
        return Ok(None);
    };
    let test = Some(test);
    let parts = Loop {
        word,
        paren,
        start,
        first,
        test,
        second,
    };
    Ok(Some(Doing::Stepping(Box::new(machine.alloc, parts)?)))
}

/// Behind the third expression of a `for` (C90 6.6.5.3).
#[inline(never)]
#[tactic(auto, using(dae_parse_states::proofs::Laws::paren_or_none))]
pub fn in_step(
    machine: &mut Parser<'_>,
    step: ReadOperand,
    parts: Box<Loop>,
) -> Result<Option<Doing>, AllocError>
    ensures { (e : Expression) (l : plain.Loop) → ShowsOperand step e → ShowsLoop parts.value l →
        Steps machine.old result machine.new (expression_given e (plain.in_step l)) }
{
    if machine.rest.take_sign(Sign::RightParen).is_none() {
        return Ok(None);
    }
    machine.push_statement(StatementFrame::ForBody(parts, Some(step)))?;
    Ok(Some(Doing::AtStatement))
}

/// Behind the value of a `return` (C90 6.6.6.4).
#[inline(never)]
#[tactic(auto, using(dae_parse_states::proofs::Laws::semicolon_or_none))]
pub fn in_return(
    machine: &mut Parser<'_>,
    value: ReadOperand,
    place: Place,
) -> Result<Option<Doing>, AllocError>
    ensures { (e : Expression) → ShowsOperand value e →
        Steps machine.old result machine.new (expression_given e (plain.in_return place)) }
{
    let Some(end) = machine.rest.take_sign(Sign::Semicolon) else {
        return Ok(None);
    };
    let whole = return_statement(machine.alloc, place, Some(value), end)?;
    Ok(Some(Doing::GaveStatement(whole, StatementKind::Other)))
}

/// Behind the value of a `case` (C90 6.6.1).
#[inline(never)]
#[tactic(auto, using(dae_parse_states::proofs::Laws::colon_or_none))]
pub fn in_case(
    machine: &mut Parser<'_>,
    value: ReadOperand,
    place: Place,
) -> Result<Option<Doing>, AllocError>
    ensures { (e : Expression) → ShowsOperand value e →
        Steps machine.old result machine.new (expression_given e (plain.in_case place)) }
{
    if machine.rest.take_sign(Sign::Colon).is_none() {
        return Ok(None);
    }
    machine.push_statement(StatementFrame::CaseBody(place, value))?;
    Ok(Some(Doing::AtStatement))
}
