// The bodies of structures and enumerations (C90 6.5.2.1 and 6.5.2.2).

ghost use Rattle.std.specs.Prelude.{◌∷◌, List, IfOk};
ghost use Rattle.dae_tree.specs.Words.{with_whole};
ghost use Rattle.dae_tree.specs.Trees.{Specifier, StructureBody, EnumerationBody, no_members as no_members_tree, no_enumerators as no_enumerators_tree};
ghost use Rattle.dae_tree.specs.Views.{has_comma};
ghost use Rattle.dae_tree.specs.Lists as lists;
ghost use Rattle.dae_parse_grammar.specs.Frames as plain;
ghost use Rattle.dae_parse_grammar.specs.Frames.{Frame as PlainFrame};
ghost use Rattle.dae_parse_grammar.specs.Machine.{tag_taken, tag_followed, tag_alone, body_opened, members_followed, enumerator_named, enumerator_followed, entry_followed, comma_followed, members_onto, enumerators_onto};
ghost use Rattle.dae_parse_nodes.specs.Parts.{ShowsMembers, ShowsEnumerators};
ghost use Rattle.dae_parse_states.specs.Frames.{is_structure_kind, ShowsBefore, ShowsBody, ShowsDoing};
ghost use Rattle.dae_parse_states.specs.States.{Stands, Follows, ShowsState, outside_stack, Steps};

use dae_base::Place;
use dae_parse_nodes::{
    Specified, TypeBody, has_members, no_enumerators, no_members, no_specifiers, with_enumeration,
    with_enumeration_body, with_plain_enumerator, with_structure, with_structure_body,
};
use dae_parse_parts::{CONDITIONAL, Read};
use dae_parse_states::{Doing, ExpressionFrame, Parser, SpecifiersFrame, TagKind};
use dae_tree::{Enumerator, Member, Name, Seen, Sign, TrailingComma};
use std::alloc::{AllocError, Global};

/// Behind `struct` or `enum` (C90 6.5.2).
#[inline(never)]
#[tactic(auto, using(crate::proofs::OtherwiseDeclarators::tag_or_none))]
pub fn read_tag(
    machine: &mut Parser<'_>,
    kind: TagKind,
    place: Place,
    seen: Seen,
    before: Specified,
) -> Result<Option<Doing>, AllocError>
    ensures { (ws : List Specifier) → ShowsBefore before ws →
        Steps machine.old result machine.new (tag_taken (is_structure_kind kind) place seen ws) }
{
    if let Some(name) = machine.rest.take_name() {
        return Ok(Some(Doing::Tagged(kind, place, name, seen, before)));
    }
    let Some(brace) = machine.rest.take_sign(Sign::LeftBrace) else {
        return Ok(None);
    };
    let tag = None;
    let body = TypeBody {
        place,
        tag,
        brace,
        seen,
        before,
    };
    let body = Box::new(machine.alloc, body)?;
    Ok(Some(open_body(machine, kind, body)))
}

/// Behind the brace of a body.
fn open_body(machine: &Parser<'_>, kind: TagKind, body: Box<TypeBody>) -> Doing
    ensures { (b : plain.TypeBody) (s : List PlainFrame) → ShowsBody body b
        → Stands machine.now s (outside_stack s)
        → ShowsState result machine.now
        (body_opened (is_structure_kind kind) b s machine.now.scope.names machine.now.rest) }
{
    match kind {
        TagKind::Structure => Doing::InMembers(body, no_members(machine.alloc)),
        TagKind::Enumeration => Doing::Enumerating(body, no_enumerators(machine.alloc)),
    }
}

/// Behind a tag (C90 6.5.2.3).
#[inline(never)]
#[tactic(auto, using(crate::proofs::OtherwiseDeclarators::tag_alone_otherwise))]
pub fn read_body(
    machine: &mut Parser<'_>,
    kind: TagKind,
    place: Place,
    name: Name,
    seen: Seen,
    before: Specified,
) -> Result<Option<Doing>, AllocError>
    ensures { (ws : List Specifier) → ShowsBefore before ws
        → Steps machine.old result machine.new
        (tag_followed (is_structure_kind kind) place name seen ws) }
{
    if let Some(brace) = machine.rest.take_sign(Sign::LeftBrace) {
        let tag = Some(name);
        let body = TypeBody {
            place,
            tag,
            brace,
            seen,
            before,
        };
        let body = Box::new(machine.alloc, body)?;
        return Ok(Some(open_body(machine, kind, body)));
    }
    let more = with_tag(machine.alloc, kind, before, place, name)?;
    Ok(Some(Doing::Specifying(seen.with_whole(), more)))
}

/// A tag without a body more.
fn with_tag(
    alloc: Global,
    kind: TagKind,
    before: Specified,
    place: Place,
    name: Name,
) -> Result<Specified, AllocError>
    ensures { (ws : List Specifier) → ShowsBefore before ws
        → IfOk result
        (λ r. ShowsBefore r (tag_alone (is_structure_kind kind) place name ∷ ws)) }
{
    match kind {
        TagKind::Structure => with_structure(alloc, before, place, name),
        TagKind::Enumeration => with_enumeration(alloc, before, place, name),
    }
}

/// In the body of a structure, before a declaration of members or the brace (C90 6.5.2.1).
#[inline(never)]
#[tactic(auto, using(crate::proofs::OtherwiseDeclarators::members_otherwise))]
pub fn read_member(
    machine: &mut Parser<'_>,
    body: Box<TypeBody>,
    members: Read<Vec<Member>>,
) -> Result<Option<Doing>, AllocError>
    ensures { (b : plain.TypeBody) (ms : List lists.MemberLine) → ShowsBody body b
        → ShowsMembers members ms → Steps machine.old result machine.new (members_followed b ms) }
{
    if has_members(&members) && machine.rest.take_sign(Sign::RightBrace).is_some() {
        return Ok(Some(close_structure(body, members)?));
    }
    machine.push_specifiers(SpecifiersFrame::ForMember(body, members))?;
    let before = no_specifiers(machine.alloc);
    Ok(Some(Doing::Specifying(Seen::nothing(), before)))
}

/// Behind the brace that closes a structure.
fn close_structure(body: Box<TypeBody>, members: Read<Vec<Member>>) -> Result<Doing, AllocError>
    ensures { (b : plain.TypeBody) (ms : List lists.MemberLine) → ShowsBody body b
        → ShowsMembers members ms
        → IfOk result (λ d. ShowsDoing d (plain.specifying (with_whole b.seen)
        (StructureBody b.place b.tag b.brace (members_onto ms no_members_tree) ∷ b.before))) }
{
    let body = Box::into_inner(body);
    let seen = body.seen;
    let more = with_structure_body(body, members)?;
    Ok(Doing::Specifying(seen.with_whole(), more))
}

/// In the body of an enumeration, before an enumerator (C90 6.5.2.2).
#[inline(never)]
#[tactic(auto, using(crate::proofs::OtherwiseDeclarators::enumerator_or_none))]
pub fn read_enumerator(
    machine: &mut Parser<'_>,
    body: Box<TypeBody>,
    list: Read<Vec<Enumerator>>,
) -> Result<Option<Doing>, AllocError>
    ensures { (b : plain.TypeBody) (es : List lists.EnumEntry) → ShowsBody body b
        → ShowsEnumerators list es
        → Steps machine.old result machine.new (enumerator_named b es) }
{
    match machine.rest.take_name() {
        Some(name) => Ok(Some(Doing::Enumerated(body, list, name))),
        None => Ok(None),
    }
}

/// Behind the name of an enumerator.
#[inline(never)]
#[tactic(auto, using(crate::proofs::OtherwiseDeclarators::enumerator_otherwise))]
pub fn read_enumerator_value(
    machine: &mut Parser<'_>,
    body: Box<TypeBody>,
    list: Read<Vec<Enumerator>>,
    name: Name,
) -> Result<Option<Doing>, AllocError>
    ensures { (b : plain.TypeBody) (es : List lists.EnumEntry) → ShowsBody body b
        → ShowsEnumerators list es
        → Steps machine.old result machine.new (enumerator_followed b es name) }
{
    if let Some(place) = machine.rest.take_sign(Sign::Assign) {
        machine.push_expression(ExpressionFrame::InEnumerator(body, list, name, place))?;
        return Ok(Some(Doing::Seek(CONDITIONAL)));
    }
    machine.scope.bind(name.number, false)?;
    let list = with_plain_enumerator(machine.alloc, list, name)?;
    Ok(Some(Doing::Entered(body, list)))
}

/// Behind an enumerator.
#[inline(never)]
#[tactic(auto, using(crate::proofs::OtherwiseDeclarators::entry_or_none))]
pub fn read_behind_enumerator(
    machine: &mut Parser<'_>,
    body: Box<TypeBody>,
    list: Read<Vec<Enumerator>>,
) -> Result<Option<Doing>, AllocError>
    ensures { (b : plain.TypeBody) (es : List lists.EnumEntry) (e : lists.EnumEntry)
        → ShowsBody body b
        → ShowsEnumerators list (e ∷ es)
        → Steps machine.old result machine.new (entry_followed b es e) }
{
    if machine.rest.take_sign(Sign::Comma).is_some() {
        return Ok(Some(Doing::Entering(body, list)));
    }
    if machine.rest.take_sign(Sign::RightBrace).is_some() {
        return Ok(Some(close_enumeration(body, list, TrailingComma::Absent)?));
    }
    Ok(None)
}

/// Behind the comma behind an enumerator.
#[inline(never)]
#[tactic(auto, using(crate::proofs::OtherwiseDeclarators::comma_otherwise))]
pub fn read_behind_comma(
    machine: &mut Parser<'_>,
    body: Box<TypeBody>,
    list: Read<Vec<Enumerator>>,
) -> Result<Option<Doing>, AllocError>
    ensures { (b : plain.TypeBody) (es : List lists.EnumEntry) (e : lists.EnumEntry)
        → ShowsBody body b
        → ShowsEnumerators list (e ∷ es)
        → Steps machine.old result machine.new (comma_followed b es e) }
{
    if machine.rest.take_sign(Sign::RightBrace).is_some() {
        return Ok(Some(close_enumeration(body, list, TrailingComma::Present)?));
    }
    Ok(Some(Doing::Enumerating(body, list)))
}

/// Behind the brace that closes an enumeration.
fn close_enumeration(
    body: Box<TypeBody>,
    list: Read<Vec<Enumerator>>,
    comma: TrailingComma,
) -> Result<Doing, AllocError>
    ensures { (b : plain.TypeBody) (es : List lists.EnumEntry) → ShowsBody body b
        → ShowsEnumerators list es
        → IfOk result (λ d. ShowsDoing d
        (plain.specifying (with_whole b.seen) (EnumerationBody b.place b.tag b.brace
        (enumerators_onto es no_enumerators_tree) (has_comma comma) ∷ b.before))) }
{
    let body = Box::into_inner(body);
    let seen = body.seen;
    let more = with_enumeration_body(body, list, comma)?;
    Ok(Doing::Specifying(seen.with_whole(), more))
}
