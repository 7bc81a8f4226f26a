// Before an operand (C90 6.3.1 to 6.3.4): names, constants, prefixes, casts, sizes; and the arguments of a call.

ghost use Rattle.std.specs.Prelude.{◌≡◌, ◌∷◌, List, IfOk};
ghost use Rattle.dae_tree.specs.declared.signs.Sign.TheVariants as signs;
ghost use Rattle.dae_tree.specs.Marks.{sign_mark, name};
ghost use Rattle.dae_tree.specs.Trees.{Expression as Tree};
ghost use Rattle.dae_parse_grammar.specs.Frames.{Frame as PlainFrame};
ghost use Rattle.dae_parse_grammar.specs.Machine.{sought as sought_of, measured as measured_of, called as called_of};
ghost use Rattle.dae_parse_grammar.specs.Stuck.{behind};
ghost use Rattle.dae_parse_nodes.specs.Parts.{ShowsOperand};
ghost use Rattle.dae_parse_states.specs.States.{Steps};

use dae_base::Place;
use dae_parse_nodes::{
    ReadOperand, call, constant, identifier, literal, no_arguments, no_specifiers,
};
use dae_parse_parts::{ASSIGNMENT, CAST, COMMA, UNARY, operand_level, prefix_operator};
use dae_parse_states::{
    Doing, ExpressionFrame, Parser, SpecifiersFrame, begins_specifiers, is_type,
};
use dae_tree::{Keyword, Name, Seen, Sign, TokenKind};
use std::alloc::AllocError;

/// Before an operand (C90 6.3.1 to 6.3.4).
pub fn seek_operand(machine: &mut Parser<'_>, level: u8) -> Result<Option<Doing>, AllocError>
    ensures { Steps machine.old result machine.new (sought_of level) }
{
    let Some(token) = machine.rest.front() else {
        return Ok(None);
    };
    let place = token.place;
    match token.kind {
        TokenKind::Name(number) => seek_name(machine, Name { place, number }, level),
        TokenKind::Constant(value) => {
            machine.rest.skip();
            Ok(Some(Doing::Operated(constant(machine.alloc, place, value)?, level)))
        }
        TokenKind::Literal(number) => {
            machine.rest.skip();
            Ok(Some(Doing::Operated(literal(machine.alloc, place, number)?, level)))
        }
        TokenKind::Keyword(Keyword::Sizeof) => {
            machine.rest.skip();
            Ok(Some(Doing::Measuring(place, level)))
        }
        TokenKind::Keyword(_) => Ok(None),
        TokenKind::Sign(sign) => seek_sign(machine, sign, place, level),
    }
}

/// Before a name.
fn seek_name(machine: &mut Parser<'_>, found: Name, level: u8) -> Result<Option<Doing>, AllocError>
    ensures { machine.old.rest ≡ name found ∷ behind machine.old.rest →
        Steps machine.old result machine.new (sought_of level) }
{
    if is_type(&machine.scope, found.number) {
        return Ok(None);
    }
    machine.rest.skip();
    Ok(Some(Doing::Operated(identifier(machine.alloc, found)?, level)))
}

/// Before a sign.
fn seek_sign(
    machine: &mut Parser<'_>,
    sign: Sign,
    place: Place,
    level: u8,
) -> Result<Option<Doing>, AllocError>
    ensures { machine.old.rest ≡ sign_mark sign place ∷ behind machine.old.rest →
        Steps machine.old result machine.new (sought_of level) }
{
    if sign == Sign::LeftParen {
        return seek_parenthesis(machine, place, level);
    }
    let Some(operator) = prefix_operator(sign) else {
        return Ok(None);
    };
    machine.rest.skip();
    machine.push_expression(ExpressionFrame::BehindPrefix(place, operator, level))?;
    Ok(Some(Doing::Seek(operand_level(operator))))
}

/// Before a parenthesis: a cast, or an expression in parentheses (C90 6.3.1 and 6.3.4).
fn seek_parenthesis(
    machine: &mut Parser<'_>,
    place: Place,
    level: u8,
) -> Result<Option<Doing>, AllocError>
    ensures { machine.old.rest ≡ sign_mark signs.LeftParen place ∷ behind machine.old.rest →
        Steps machine.old result machine.new (sought_of level) }
{
    machine.rest.skip();
    if level >= CAST && begins_specifiers(&machine.scope, &machine.rest) {
        machine.push_specifiers(SpecifiersFrame::ForCast(place, level))?;
        let before = no_specifiers(machine.alloc);
        return Ok(Some(Doing::Specifying(Seen::nothing(), before)));
    }
    machine.push_expression(ExpressionFrame::InParentheses(place, level))?;
    Ok(Some(Doing::Seek(COMMA)))
}

/// Behind `sizeof` (C90 6.3.3.4).
#[inline(never)]
pub fn read_sizeof(
    machine: &mut Parser<'_>,
    place: Place,
    level: u8,
) -> Result<Option<Doing>, AllocError>
    ensures { Steps machine.old result machine.new (measured_of place level) }
{
    let inner = machine.rest.behind();
    if begins_specifiers(&machine.scope, &inner) {
        if let Some(paren) = machine.rest.take_sign(Sign::LeftParen) {
            machine.push_specifiers(SpecifiersFrame::ForSizeof {
                place,
                paren,
                level,
            })?;
            let before = no_specifiers(machine.alloc);
            return Ok(Some(Doing::Specifying(Seen::nothing(), before)));
        }
    }
    machine.push_expression(ExpressionFrame::BehindSizeof(place, level))?;
    Ok(Some(Doing::Seek(UNARY)))
}

/// Behind the parenthesis of a call (C90 6.3.2.2).
pub fn read_call(
    machine: &mut Parser<'_>,
    callee: ReadOperand,
    place: Place,
    level: u8,
) -> Result<Option<Doing>, AllocError>
    ensures { (e : Tree) → ShowsOperand callee e →
        Steps machine.old result machine.new (called_of e place level) }
{
    let none = no_arguments(machine.alloc);
    if machine.rest.take_sign(Sign::RightParen).is_some() {
        let whole = call(machine.alloc, callee, place, none)?;
        return Ok(Some(Doing::Operated(whole, level)));
    }
    machine.push_expression(ExpressionFrame::InArguments(callee, place, none, level))?;
    Ok(Some(Doing::Seek(ASSIGNMENT)))
}
