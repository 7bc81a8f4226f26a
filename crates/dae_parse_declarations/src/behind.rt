// Behind an expression or a declarator that stood in another part: a size, the value of an enumerator, a pointer, a
// group, a member, a type name.

ghost use Rattle.std.specs.Prelude.{List, IfOk};
ghost use Rattle.dae_tree.specs.Trees.{Expression, Specifiers, Declarator as DeclaratorTree};
ghost use Rattle.dae_tree.specs.Lists as lists;
ghost use Rattle.dae_parse_grammar.specs.Frames as plain;
ghost use Rattle.dae_parse_grammar.specs.Frames.{Frame as PlainFrame};
ghost use Rattle.dae_parse_grammar.specs.Machine.{expression_given, declarator_given};
ghost use Rattle.dae_parse_nodes.specs.Parts.{ShowsOperand, ShowsSpecified, ShowsDeclared, ShowsDeclarators, ShowsMembers, ShowsEnumerators};
ghost use Rattle.dae_parse_states.specs.Frames.{manner_of, ShowsBody};
ghost use Rattle.dae_parse_states.specs.States.{Steps};

use dae_base::Place;
use dae_parse_nodes::{
    Declared, ReadOperand, Specified, TypeBody, grouped, pointer, sized_array, sizeof_type,
    with_declarator, with_member, with_valued_enumerator,
};
use dae_parse_parts::{CAST, Read};
use dae_parse_states::{DeclaratorFrame, Doing, ExpressionFrame, Manner, Parser, Presence};
use dae_tree::{Declarator, Enumerator, Member, Name, Sign};
use std::alloc::AllocError;

/// Behind the size of an array (C90 6.5.4.2).
#[inline(never)]
#[tactic(auto, using(dae_parse_states::proofs::Laws::bracket_or_none))]
pub fn in_size(
    machine: &mut Parser<'_>,
    size: ReadOperand,
    declared: Declared,
    place: Place,
    manner: Manner,
) -> Result<Option<Doing>, AllocError>
    ensures { (e : Expression) (d : DeclaratorTree) → ShowsOperand size e → ShowsDeclared declared d
        → Steps machine.old result machine.new
        (expression_given e (plain.in_size d place (manner_of manner))) }
{
    if machine.rest.take_sign(Sign::RightBracket).is_none() {
        return Ok(None);
    }
    let whole = sized_array(machine.alloc, declared, place, size)?;
    Ok(Some(Doing::Suffixing(manner, whole)))
}

/// Behind the value of an enumerator (C90 6.5.2.2).
#[inline(never)]
pub fn in_enumerator(
    machine: &mut Parser<'_>,
    value: ReadOperand,
    body: Box<TypeBody>,
    list: Read<Vec<Enumerator>>,
    name: Name,
    place: Place,
) -> Result<Option<Doing>, AllocError>
    ensures { (e : Expression) (b : plain.TypeBody) (es : List lists.EnumEntry)
        → ShowsOperand value e
        → ShowsBody body b → ShowsEnumerators list es
        → Steps machine.old result machine.new
        (expression_given e (plain.in_enumerator b es name place)) }
{
    machine.scope.bind(name.number, false)?;
    let list = with_valued_enumerator(list, name, place, value)?;
    Ok(Some(Doing::Entered(body, list)))
}

/// Behind what a pointer stands before (C90 6.5.4.1).
#[inline(never)]
pub fn behind_star(
    machine: &mut Parser<'_>,
    declared: Declared,
    place: Place,
    qualifiers: Vec<Place>,
) -> Result<Option<Doing>, AllocError>
    ensures { (d : DeclaratorTree) → ShowsDeclared declared d
        → Steps machine.old result machine.new
        (declarator_given d (plain.behind_star place qualifiers.items)) }
{
    let whole = pointer(machine.alloc, place, qualifiers, declared)?;
    Ok(Some(Doing::GaveDeclarator(whole)))
}

/// Behind a declarator in parentheses.
#[inline(never)]
#[tactic(auto, using(dae_parse_states::proofs::Laws::paren_or_none))]
pub fn in_group(
    machine: &mut Parser<'_>,
    declared: Declared,
    place: Place,
    manner: Manner,
) -> Result<Option<Doing>, AllocError>
    ensures { (d : DeclaratorTree) → ShowsDeclared declared d
        → Steps machine.old result machine.new
        (declarator_given d (plain.in_group place (manner_of manner))) }
{
    if machine.rest.take_sign(Sign::RightParen).is_none() {
        return Ok(None);
    }
    let whole = grouped(machine.alloc, place, declared)?;
    Ok(Some(Doing::Suffixing(manner, whole)))
}

/// Behind the type of a cast (C90 6.3.4).
#[inline(never)]
#[tactic(auto, using(dae_parse_states::proofs::Laws::paren_or_none))]
pub fn of_cast(
    machine: &mut Parser<'_>,
    declared: Declared,
    place: Place,
    specified: Specified,
    level: u8,
) -> Result<Option<Doing>, AllocError>
    ensures { (d : DeclaratorTree) (ws : Specifiers) → ShowsDeclared declared d
        → ShowsSpecified specified ws
        → Steps machine.old result machine.new (declarator_given d (plain.of_cast place ws level)) }
{
    if machine.rest.take_sign(Sign::RightParen).is_none() {
        return Ok(None);
    }
    machine.push_expression(ExpressionFrame::BehindCast(place, specified, declared, level))?;
    Ok(Some(Doing::Seek(CAST)))
}

/// Behind the type in `sizeof` (C90 6.3.3.4).
#[inline(never)]
#[tactic(auto, using(dae_parse_states::proofs::Laws::paren_or_none))]
pub fn of_sizeof(
    machine: &mut Parser<'_>,
    declared: Declared,
    place: Place,
    paren: Place,
    specified: Specified,
    level: u8,
) -> Result<Option<Doing>, AllocError>
    ensures { (d : DeclaratorTree) (ws : Specifiers) → ShowsDeclared declared d
        → ShowsSpecified specified ws
        → Steps machine.old result machine.new
        (declarator_given d (plain.of_sizeof place paren ws level)) }
{
    if machine.rest.take_sign(Sign::RightParen).is_none() {
        return Ok(None);
    }
    let whole = sizeof_type(machine.alloc, place, paren, specified, declared)?;
    Ok(Some(Doing::Operated(whole, level)))
}

/// Behind a declarator of members (C90 6.5.2.1).
#[inline(never)]
#[tactic(auto, using(crate::proofs::OtherwiseDeclarators::member_or_none))]
pub fn of_member(
    machine: &mut Parser<'_>,
    declared: Declared,
    body: Box<TypeBody>,
    members: Read<Vec<Member>>,
    specified: Specified,
    before: Read<Vec<Declarator>>,
) -> Result<Option<Doing>, AllocError>
    ensures { (d : DeclaratorTree) (b : plain.TypeBody) (ms : List lists.MemberLine)
        (ws : Specifiers)
        (ds : List DeclaratorTree)
        → ShowsDeclared declared d → ShowsBody body b → ShowsMembers members ms
        → ShowsSpecified specified ws → ShowsDeclarators before ds
        → Steps machine.old result machine.new (declarator_given d (plain.of_member b ms ws ds)) }
{
    let list = with_declarator(before, declared)?;
    if machine.rest.take_sign(Sign::Comma).is_some() {
        machine.push_declarator(DeclaratorFrame::OfMember(body, members, specified, list))?;
        return Ok(Some(Doing::Declaring(Manner::ByName, Presence::Optional)));
    }
    let Some(end) = machine.rest.take_sign(Sign::Semicolon) else {
        return Ok(None);
    };
    let members = with_member(members, specified, list, end)?;
    Ok(Some(Doing::InMembers(body, members)))
}
