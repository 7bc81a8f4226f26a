// Behind an operand: what is applied to it, or the end of the expression.

ghost use Rattle.std.specs.Prelude.{◌≡◌, ◌∷◌, List, IfOk};
ghost use Rattle.dae_tree.specs.Marks.{sign as sign_of, part, comma};
ghost use Rattle.dae_tree.specs.Trees.{Expression as Tree};
ghost use Rattle.dae_parse_grammar.specs.Frames.{Frame as PlainFrame};
ghost use Rattle.dae_parse_grammar.specs.Machine.{operated_at, operate as operate_of, named_member as member_named};
ghost use Rattle.dae_parse_grammar.specs.Stuck.{behind};
ghost use Rattle.dae_parse_nodes.specs.Parts.{ShowsOperand};
ghost use Rattle.dae_parse_states.specs.States.{Steps};

use dae_base::Place;
use dae_parse_nodes::{ReadOperand, member, postfix};
use dae_parse_parts::{ASSIGNMENT, COMMA, begun_by, left_level, reach, under};
use dae_parse_states::{Doing, ExpressionFrame, Parser};
use dae_tree::{MemberOperator, Operation, Sign, TokenKind};
use std::alloc::AllocError;

/// Behind an operand, which an operator may follow (C90 6.3.2 and 6.3.5 to 6.3.17).
pub fn read_operator(
    machine: &mut Parser<'_>,
    operand: ReadOperand,
    level: u8,
) -> Result<Option<Doing>, AllocError>
    ensures { (e : Tree) → ShowsOperand operand e →
        Steps machine.old result machine.new (operated_at e level) }
{
    let Some(token) = machine.rest.front() else {
        return Ok(Some(Doing::Gave(operand)));
    };
    match token.kind {
        TokenKind::Sign(Sign::RightParen | Sign::RightBracket | Sign::RightBrace | Sign::Colon) => {
            Ok(Some(Doing::Gave(operand)))
        }
        TokenKind::Sign(Sign::Comma) => read_comma(machine, operand, level),
        TokenKind::Sign(sign) => read_sign(machine, operand, sign, token.place, level),
        _ => Ok(Some(Doing::Gave(operand))),
    }
}

/// Before a comma.
fn read_comma(
    machine: &mut Parser<'_>,
    operand: ReadOperand,
    level: u8,
) -> Result<Option<Doing>, AllocError>
    ensures { (e : Tree) → machine.old.rest ≡ part comma ∷ behind machine.old.rest
        → ShowsOperand operand e → Steps machine.old result machine.new (operated_at e level) }
{
    if level < COMMA {
        return Ok(Some(Doing::Gave(operand)));
    }
    machine.rest.skip();
    machine.push_expression(ExpressionFrame::BehindComma(operand, level))?;
    Ok(Some(Doing::Seek(ASSIGNMENT)))
}

/// Before a sign that may be an operator.
fn read_sign(
    machine: &mut Parser<'_>,
    operand: ReadOperand,
    sign: Sign,
    place: Place,
    level: u8,
) -> Result<Option<Doing>, AllocError>
    ensures { (e : Tree) → machine.old.rest ≡ sign_of sign place ∷ behind machine.old.rest
        → ShowsOperand operand e → Steps machine.old result machine.new (operated_at e level) }
{
    let begun = begun_by(sign);
    if reach(begun) <= level && operand.level <= left_level(begun) {
        machine.rest.skip();
        return operate(machine, begun, operand, place, level);
    }
    Ok(Some(Doing::Gave(operand)))
}

/// Behind the sign of an operation.
fn operate(
    machine: &mut Parser<'_>,
    operation: Operation,
    operand: ReadOperand,
    place: Place,
    level: u8,
) -> Result<Option<Doing>, AllocError>
    ensures { (e : Tree) → ShowsOperand operand e →
        Steps machine.old result machine.new (operate_of operation e place level) }
{
    match operation {
        Operation::Subscript => {
            machine.push_expression(ExpressionFrame::InIndex(operand, place, level))?;
            Ok(Some(Doing::Seek(COMMA)))
        }
        Operation::Call => Ok(Some(Doing::Calling(operand, place, level))),
        Operation::Member(operator) => read_member_name(machine, operand, place, operator, level),
        Operation::Step(operator) => {
            let whole = postfix(machine.alloc, operand, place, operator)?;
            Ok(Some(Doing::Operated(whole, level)))
        }
        Operation::Binary(operator) => {
            machine.push_expression(ExpressionFrame::BehindBinary(
                operand, place, operator, level,
            ))?;
            Ok(Some(Doing::Seek(under(operator))))
        }
        Operation::Choice => {
            machine.push_expression(ExpressionFrame::BehindQuestion(operand, place, level))?;
            Ok(Some(Doing::Seek(COMMA)))
        }
        Operation::Assignment(operator) => {
            machine.push_expression(ExpressionFrame::BehindAssignment(
                operand, place, operator, level,
            ))?;
            Ok(Some(Doing::Seek(ASSIGNMENT)))
        }
        Operation::Ends => Ok(None),
    }
}

/// Before the name of a member (C90 6.3.2.3).
fn read_member_name(
    machine: &mut Parser<'_>,
    operand: ReadOperand,
    place: Place,
    operator: MemberOperator,
    level: u8,
) -> Result<Option<Doing>, AllocError>
    ensures { (e : Tree) → ShowsOperand operand e →
        Steps machine.old result machine.new (member_named e place operator level) }
{
    let Some(name) = machine.rest.take_name() else {
        return Ok(None);
    };
    let whole = member(machine.alloc, operand, place, operator, name)?;
    Ok(Some(Doing::Operated(whole, level)))
}
