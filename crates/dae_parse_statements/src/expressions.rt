// Behind an expression that is a part of another (C90 6.3): an operand, an argument, an index.

ghost use Rattle.std.specs.Prelude.{◌≡◌, List, IfOk};
ghost use Rattle.dae_tree.specs.Trees.{Expression as Tree, Specifiers, Declarator};
ghost use Rattle.dae_parse_grammar.specs.Frames.{Frame as PlainFrame, in_parentheses, in_index, in_arguments, behind_prefix, behind_sizeof, behind_cast, behind_binary, behind_question, behind_colon, behind_assignment, behind_comma};
ghost use Rattle.dae_parse_grammar.specs.Machine.{expression_given};
ghost use Rattle.dae_parse_nodes.specs.Parts.{ShowsOperand, ShowsArguments, ShowsSpecified, ShowsDeclared};
ghost use Rattle.dae_parse_states.specs.States.{Steps};

use dae_base::Place;
use dae_parse_nodes::{
    Declared, ReadOperand, Specified, assignment, binary, call, cast, comma, conditional, index,
    parenthesised, prefix, sizeof_expression, with_argument,
};
use dae_parse_parts::{ASSIGNMENT, CONDITIONAL, Read};
use dae_parse_states::{Doing, ExpressionFrame, Parser};
use dae_tree::{AssignmentOperator, BinaryOperator, Expression, PrefixOperator, Sign};
use std::alloc::AllocError;

/// Behind an expression in parentheses.
#[tactic(auto, using(dae_parse_states::proofs::Laws::paren_or_none))]
pub fn in_parentheses(
    machine: &mut Parser<'_>,
    a: ReadOperand,
    place: Place,
    level: u8,
) -> Result<Option<Doing>, AllocError>
    ensures { (e : Tree) → ShowsOperand a e →
        Steps machine.old result machine.new (expression_given e (in_parentheses place level)) }
{
    if machine.rest.take_sign(Sign::RightParen).is_none() {
        return Ok(None);
    }
    Ok(Some(Doing::Operated(parenthesised(machine.alloc, place, a)?, level)))
}

/// Behind a subscript.
#[tactic(auto, using(dae_parse_states::proofs::Laws::bracket_or_none))]
pub fn in_index(
    machine: &mut Parser<'_>,
    a: ReadOperand,
    base: ReadOperand,
    place: Place,
    level: u8,
) -> Result<Option<Doing>, AllocError>
    ensures { (e f : Tree) → ShowsOperand a e → ShowsOperand base f →
        Steps machine.old result machine.new (expression_given e (in_index f place level)) }
{
    if machine.rest.take_sign(Sign::RightBracket).is_none() {
        return Ok(None);
    }
    Ok(Some(Doing::Operated(index(machine.alloc, base, place, a)?, level)))
}

/// Behind the operand of a prefix operator.
pub fn behind_prefix(
    machine: &mut Parser<'_>,
    a: ReadOperand,
    place: Place,
    operator: PrefixOperator,
    level: u8,
) -> Result<Option<Doing>, AllocError>
    ensures { (e : Tree) → ShowsOperand a e
        → Steps machine.old result machine.new
        (expression_given e (behind_prefix place operator level)) }
{
    Ok(Some(Doing::Operated(prefix(machine.alloc, place, operator, a)?, level)))
}

/// Behind the right operand of a binary operator.
pub fn behind_binary(
    machine: &mut Parser<'_>,
    a: ReadOperand,
    left: ReadOperand,
    place: Place,
    operator: BinaryOperator,
    level: u8,
) -> Result<Option<Doing>, AllocError>
    ensures { (e f : Tree) → ShowsOperand a e → ShowsOperand left f
        → Steps machine.old result machine.new
        (expression_given e (behind_binary f place operator level)) }
{
    Ok(Some(Doing::Operated(binary(machine.alloc, left, place, operator, a)?, level)))
}

/// Behind the second operand of the conditional operator.
#[inline(never)]
#[tactic(auto, using(dae_parse_states::proofs::Laws::colon_or_none))]
pub fn behind_question(
    machine: &mut Parser<'_>,
    a: ReadOperand,
    test: ReadOperand,
    place: Place,
    level: u8,
) -> Result<Option<Doing>, AllocError>
    ensures { (e f : Tree) → ShowsOperand a e → ShowsOperand test f →
        Steps machine.old result machine.new (expression_given e (behind_question f place level)) }
{
    if machine.rest.take_sign(Sign::Colon).is_none() {
        return Ok(None);
    }
    machine.push_expression(ExpressionFrame::BehindColon(test, place, a, level))?;
    Ok(Some(Doing::Seek(CONDITIONAL)))
}

/// Behind an argument.
#[tactic(auto, using(crate::proofs::OtherwiseExpressions::argument_or_none))]
pub fn in_arguments(
    machine: &mut Parser<'_>,
    a: ReadOperand,
    callee: ReadOperand,
    place: Place,
    before: Read<Vec<Expression>>,
    level: u8,
) -> Result<Option<Doing>, AllocError>
    ensures { (e f : Tree) (es : List Tree) → ShowsOperand a e → ShowsOperand callee f
        → ShowsArguments before es
        → Steps machine.old result machine.new
        (expression_given e (in_arguments f place es level)) }
{
    let arguments = with_argument(before, a)?;
    if machine.rest.take_sign(Sign::Comma).is_some() {
        machine.push_expression(ExpressionFrame::InArguments(callee, place, arguments, level))?;
        return Ok(Some(Doing::Seek(ASSIGNMENT)));
    }
    if machine.rest.take_sign(Sign::RightParen).is_none() {
        return Ok(None);
    }
    Ok(Some(Doing::Operated(call(machine.alloc, callee, place, arguments)?, level)))
}

/// Behind the operand of `sizeof`.
#[inline(never)]
pub fn behind_sizeof(
    machine: &mut Parser<'_>,
    a: ReadOperand,
    place: Place,
    level: u8,
) -> Result<Option<Doing>, AllocError>
    ensures { (e : Tree) → ShowsOperand a e →
        Steps machine.old result machine.new (expression_given e (behind_sizeof place level)) }
{
    Ok(Some(Doing::Operated(sizeof_expression(machine.alloc, place, a)?, level)))
}

/// Behind the operand of a cast.
#[inline(never)]
pub fn behind_cast(
    machine: &mut Parser<'_>,
    a: ReadOperand,
    place: Place,
    specified: Specified,
    declared: Declared,
    level: u8,
) -> Result<Option<Doing>, AllocError>
    ensures { (e : Tree) (ws : Specifiers) (d : Declarator) → ShowsOperand a e
        → ShowsSpecified specified ws → ShowsDeclared declared d
        → Steps machine.old result machine.new (expression_given e (behind_cast place ws d level)) }
{
    Ok(Some(Doing::Operated(cast(machine.alloc, place, specified, declared, a)?, level)))
}

/// Behind the third operand of the conditional operator.
#[inline(never)]
pub fn behind_colon(
    machine: &mut Parser<'_>,
    a: ReadOperand,
    test: ReadOperand,
    place: Place,
    then: ReadOperand,
    level: u8,
) -> Result<Option<Doing>, AllocError>
    ensures { (e f g : Tree) → ShowsOperand a e → ShowsOperand test f → ShowsOperand then g →
        Steps machine.old result machine.new (expression_given e (behind_colon f place g level)) }
{
    Ok(Some(Doing::Operated(conditional(machine.alloc, test, place, then, a)?, level)))
}

/// Behind the right operand of an assignment.
pub fn behind_assignment(
    machine: &mut Parser<'_>,
    a: ReadOperand,
    left: ReadOperand,
    place: Place,
    operator: AssignmentOperator,
    level: u8,
) -> Result<Option<Doing>, AllocError>
    ensures { (e f : Tree) → ShowsOperand a e → ShowsOperand left f
        → Steps machine.old result machine.new
        (expression_given e (behind_assignment f place operator level)) }
{
    Ok(Some(Doing::Operated(assignment(machine.alloc, left, place, operator, a)?, level)))
}

/// Behind the right operand of a comma.
pub fn behind_comma(
    machine: &mut Parser<'_>,
    a: ReadOperand,
    left: ReadOperand,
    level: u8,
) -> Result<Option<Doing>, AllocError>
    ensures { (e f : Tree) → ShowsOperand a e → ShowsOperand left f →
        Steps machine.old result machine.new (expression_given e (behind_comma f level)) }
{
    Ok(Some(Doing::Operated(comma(machine.alloc, left, a)?, level)))
}
