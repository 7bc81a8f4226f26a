// Specifiers (C90 6.5): words, names of types, tags, and what comes behind them.

ghost use Rattle.std.specs.Prelude.{◌≡◌, ◌∷◌, List, IfOk};
ghost use Rattle.dae_tree.specs.Marks.{word_mark, name as name_mark};
ghost use Rattle.dae_tree.specs.Trees.{Specifiers, Specifier};
ghost use Rattle.dae_tree.specs.Lists as lists;
ghost use Rattle.dae_parse_grammar.specs.Frames as plain;
ghost use Rattle.dae_parse_grammar.specs.Frames.{Frame as PlainFrame};
ghost use Rattle.dae_parse_grammar.specs.Machine.{specified, specifiers_end, specifiers_given, word_taken as taken};
ghost use Rattle.dae_parse_grammar.specs.Stuck.{behind};
ghost use Rattle.dae_parse_nodes.specs.Parts.{ShowsSpecified, ShowsMembers, ShowsParameters};
ghost use Rattle.dae_parse_states.specs.Frames.{ShowsBefore, ShowsBody, ShowsOpen};
ghost use Rattle.dae_parse_states.specs.States.{Stands, Follows, ShowsState, outside_stack, Steps};

use dae_base::Place;
use dae_parse_nodes::{
    ParameterList, Specified, TypeBody, no_declarators, with_type_name, with_word,
};
use dae_parse_parts::Read;
use dae_parse_states::{
    DeclaratorFrame, Doing, Manner, OpenParameters, Parser, Presence, TagKind, is_type,
};
use dae_tree::{Keyword, Member, Name, Seen, TokenKind};
use std::alloc::AllocError;

/// Behind specifiers, which others may follow (C90 6.5).
#[tactic(auto, using(crate::proofs::OtherwiseDeclarators::specified_otherwise))]
pub fn read_specifier(
    machine: &mut Parser<'_>,
    seen: Seen,
    before: Specified,
) -> Result<Option<Doing>, AllocError>
    ensures { (ws : List Specifier) → ShowsBefore before ws →
        Steps machine.old result machine.new (specified seen ws) }
{
    let Some(token) = machine.rest.front() else {
        return Ok(end_specifiers(machine, seen, before));
    };
    let place = token.place;
    match token.kind {
        TokenKind::Keyword(word) => read_word(machine, word, place, seen, before),
        TokenKind::Name(number) => read_type_name(machine, Name { place, number }, seen, before),
        _ => Ok(end_specifiers(machine, seen, before)),
    }
}

/// Specifiers that end here, if a type is among them.
fn end_specifiers(machine: &Parser<'_>, seen: Seen, before: Specified) -> Option<Doing>
    ensures { (ws : List Specifier) (s : List PlainFrame) → ShowsBefore before ws
        → Stands machine.now s (outside_stack s)
        → Follows result machine.now (specifiers_end seen ws s machine.now.scope.names
        machine.now.rest) }
{
    if seen.has_type() {
        Some(Doing::GaveSpecifiers(before))
    } else {
        None
    }
}

/// Before a word.
#[tactic(auto, using(crate::proofs::OtherwiseDeclarators::specified_by_word))]
fn read_word(
    machine: &mut Parser<'_>,
    word: Keyword,
    place: Place,
    seen: Seen,
    before: Specified,
) -> Result<Option<Doing>, AllocError>
    ensures { (ws : List Specifier)
        → machine.old.rest ≡ word_mark word place ∷ behind machine.old.rest → ShowsBefore before ws
        → Steps machine.old result machine.new (specified seen ws) }
{
    if !seen.admits(word) {
        return Ok(end_specifiers(machine, seen, before));
    }
    machine.rest.skip();
    Ok(Some(add_word(machine, word, place, seen, before)?))
}

/// Behind a word that may stand there.
#[tactic(auto, using(crate::proofs::OtherwiseDeclarators::word_taken_otherwise))]
fn add_word(
    machine: &Parser<'_>,
    word: Keyword,
    place: Place,
    seen: Seen,
    before: Specified,
) -> Result<Doing, AllocError>
    ensures { (ws : List Specifier) (s : List PlainFrame) → ShowsBefore before ws
        → Stands machine.now s (outside_stack s)
        → IfOk result (λ r. ShowsState r machine.now
        (taken word place seen ws s machine.now.scope.names machine.now.rest)) }
{
    match word {
        Keyword::Struct => Ok(Doing::Tagging(TagKind::Structure, place, seen, before)),
        Keyword::Enum => Ok(Doing::Tagging(TagKind::Enumeration, place, seen, before)),
        _ => {
            let more = with_word(machine.alloc, before, place, word)?;
            Ok(Doing::Specifying(seen.with_word(word), more))
        }
    }
}

/// Before a name, which is one of a type where no type was read and it is bound as one (C90 6.5.6).
fn read_type_name(
    machine: &mut Parser<'_>,
    name: Name,
    seen: Seen,
    before: Specified,
) -> Result<Option<Doing>, AllocError>
    ensures { (ws : List Specifier) → machine.old.rest ≡ name_mark name ∷ behind machine.old.rest
        → ShowsBefore before ws → Steps machine.old result machine.new (specified seen ws) }
{
    if seen.has_type() || !is_type(&machine.scope, name.number) {
        return Ok(end_specifiers(machine, seen, before));
    }
    machine.rest.skip();
    let more = with_type_name(machine.alloc, before, name)?;
    Ok(Some(Doing::Specifying(seen.with_whole(), more)))
}

/// Behind the specifiers of a cast (C90 6.3.4).
#[inline(never)]
pub fn for_cast(
    machine: &mut Parser<'_>,
    specified: Specified,
    place: Place,
    level: u8,
) -> Result<Option<Doing>, AllocError>
    ensures { (ws : Specifiers) → ShowsSpecified specified ws →
        Steps machine.old result machine.new (specifiers_given ws (plain.for_cast place level)) }
{
    machine.push_declarator(DeclaratorFrame::OfCast(place, specified, level))?;
    Ok(Some(Doing::Declaring(Manner::WithoutName, Presence::Optional)))
}

/// Behind the specifiers of a type in `sizeof` (C90 6.3.3.4).
#[inline(never)]
pub fn for_sizeof(
    machine: &mut Parser<'_>,
    specified: Specified,
    place: Place,
    paren: Place,
    level: u8,
) -> Result<Option<Doing>, AllocError>
    ensures { (ws : Specifiers) → ShowsSpecified specified ws
        → Steps machine.old result machine.new
        (specifiers_given ws (plain.for_sizeof place paren level)) }
{
    machine.push_declarator(DeclaratorFrame::OfSizeof {
        place,
        paren,
        specified,
        level,
    })?;
    Ok(Some(Doing::Declaring(Manner::WithoutName, Presence::Optional)))
}

/// Behind the specifiers of a parameter (C90 6.5.4.3).
#[inline(never)]
pub fn for_parameter(
    machine: &mut Parser<'_>,
    specified: Specified,
    opened: OpenParameters,
    list: ParameterList,
) -> Result<Option<Doing>, AllocError>
    ensures { (ws : Specifiers) (o : plain.OpenParameters) (ps : List lists.Parameter)
        (s : List PlainFrame)
        → ShowsSpecified specified ws → ShowsOpen opened o → ShowsParameters list ps
        → Stands machine.old s
        (outside_stack (plain.awaits_specifiers (plain.for_parameter o ps) ∷ s))
        → IfOk result (λ r. Follows r machine.new (specifiers_given ws
        (plain.for_parameter o ps) s machine.old.scope.names machine.old.rest)) }
{
    machine.push_declarator(DeclaratorFrame::OfParameter(opened, list, specified))?;
    Ok(Some(Doing::Declaring(Manner::EitherWay, Presence::Optional)))
}

/// Behind the specifiers of members (C90 6.5.2.1).
#[inline(never)]
pub fn for_member(
    machine: &mut Parser<'_>,
    specified: Specified,
    body: Box<TypeBody>,
    members: Read<Vec<Member>>,
) -> Result<Option<Doing>, AllocError>
    ensures { (ws : Specifiers) (b : plain.TypeBody) (ms : List lists.MemberLine)
        → ShowsSpecified specified ws → ShowsBody body b → ShowsMembers members ms
        → Steps machine.old result machine.new (specifiers_given ws (plain.for_member b ms)) }
{
    let none = no_declarators(machine.alloc);
    machine.push_declarator(DeclaratorFrame::OfMember(body, members, specified, none))?;
    Ok(Some(Doing::Declaring(Manner::ByName, Presence::Optional)))
}
