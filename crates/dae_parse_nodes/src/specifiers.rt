// Nodes of specifiers, members and enumerators.

ghost use Rattle.std.specs.Prelude.{◌≡◌, List, [], ◌∷◌, Option, Some, None, IfOk, ◌||◌};
ghost use Rattle.dae_tree.specs.Trees as tree;
ghost use Rattle.dae_tree.specs.Depth.{place_of_specifier};
ghost use Rattle.dae_tree.specs.Views.{has_comma};
ghost use Rattle.dae_tree.specs.Lists as lists;
ghost use Rattle.dae_parse_grammar.specs.Frames as frames;
ghost use Rattle.dae_parse_grammar.specs.Machine.{specifiers_onto, members_onto, enumerators_onto, declarators_onto};
ghost use Rattle.dae_parse_nodes.specs.Parts.{specifier_word, says_typedef, void_place, ShowsOperand, ShowsSpecifier, ShowsSpecified, ShowsDeclared, ShowsDeclarators, ShowsMembers, ShowsEnumerators};

use crate::values::{Declared, ReadOperand, Specified, TypeBody};
use dae_base::Place;
use dae_parse_parts::{Read, beside, flat, longer, over, unbox};
use dae_tree::{Declarator, Enumerator, Keyword, Member, Name, Specifier, TrailingComma};
use std::alloc::{AllocError, Global};

/// No specifiers.
pub fn no_specifiers(alloc: Global) -> Specified
    ensures { ShowsSpecified result tree.no_specifiers }
{
    Specified {
        read: flat(alloc, Vec::new(alloc)),
        typedef: false,
        place: None,
        void: None,
    }
}

/// A specifier more, with its place, and with the word that it is, if it is one.
fn with_specifier(
    before: Specified,
    specifier: Read<Specifier>,
    place: Place,
    word: Option<Keyword>,
) -> Result<Specified, AllocError>
    ensures { (ws : List tree.Specifier) (w : tree.Specifier)
        → ShowsSpecified before (specifiers_onto ws tree.no_specifiers) → ShowsSpecifier specifier w
        → place ≡ place_of_specifier w → word ≡ specifier_word w
        → IfOk result (λ r. ShowsSpecified r (specifiers_onto (w ∷ ws) tree.no_specifiers)) }
{
    let Specified {
        read,
        typedef,
        place: first,
        void: _,
    } = before;
    let read = longer(read, specifier)?;
    let typedef = either(typedef, is_typedef(word));
    match first {
        Some(first) => Ok(Specified {
            read,
            typedef,
            place: Some(first),
            void: None,
        }),
        None => Ok(Specified {
            read,
            typedef,
            place: Some(place),
            void: void_at(place, word),
        }),
    }
}

fn either(a: bool, b: bool) -> bool
    ensures { result ≡ (a || b) }
{
    a || b
}

fn is_typedef(word: Option<Keyword>) -> bool
    ensures { result ≡ says_typedef word }
{
    matches!(word, Some(Keyword::Typedef))
}

/// The place of a word that is `void`.
fn void_at(place: Place, word: Option<Keyword>) -> Option<Place>
    ensures { result ≡ void_place place word }
{
    match word {
        Some(Keyword::Void) => Some(place),
        _ => None,
    }
}

/// A word more (C90 6.5.1 to 6.5.3).
pub fn with_word(
    alloc: Global,
    before: Specified,
    place: Place,
    word: Keyword,
) -> Result<Specified, AllocError>
    ensures { (ws : List tree.Specifier)
        → ShowsSpecified before (specifiers_onto ws tree.no_specifiers)
        → IfOk result
        (λ r. ShowsSpecified r (specifiers_onto (tree.Word place word ∷ ws) tree.no_specifiers)) }
{
    let read = flat(alloc, Specifier::Word(place, word));
    with_specifier(before, read, place, Some(word))
}

/// A name of a type more (C90 6.5.6).
pub fn with_type_name(alloc: Global, before: Specified, name: Name) -> Result<Specified, AllocError>
    ensures { (ws : List tree.Specifier)
        → ShowsSpecified before (specifiers_onto ws tree.no_specifiers)
        → IfOk result
        (λ r. ShowsSpecified r (specifiers_onto (tree.TypeName name ∷ ws) tree.no_specifiers)) }
{
    let place = name.place;
    let read = flat(alloc, Specifier::TypeName(name));
    with_specifier(before, read, place, None)
}

/// `struct` and a tag more (C90 6.5.2.3).
pub fn with_structure(
    alloc: Global,
    before: Specified,
    place: Place,
    name: Name,
) -> Result<Specified, AllocError>
    ensures { (ws : List tree.Specifier)
        → ShowsSpecified before (specifiers_onto ws tree.no_specifiers)
        → IfOk result
        (λ r. ShowsSpecified r
        (specifiers_onto (tree.Structure place name ∷ ws) tree.no_specifiers)) }
{
    let read = flat(alloc, Specifier::Structure(place, name));
    with_specifier(before, read, place, None)
}

/// `enum` and a tag more (C90 6.5.2.3).
pub fn with_enumeration(
    alloc: Global,
    before: Specified,
    place: Place,
    name: Name,
) -> Result<Specified, AllocError>
    ensures { (ws : List tree.Specifier)
        → ShowsSpecified before (specifiers_onto ws tree.no_specifiers)
        → IfOk result
        (λ r. ShowsSpecified r
        (specifiers_onto (tree.Enumeration place name ∷ ws) tree.no_specifiers)) }
{
    let read = flat(alloc, Specifier::Enumeration(place, name));
    with_specifier(before, read, place, None)
}

/// A structure with its members more (C90 6.5.2.1).
pub fn with_structure_body(
    body: TypeBody,
    members: Read<Vec<Member>>,
) -> Result<Specified, AllocError>
    ensures { (ws : List tree.Specifier) (ms : List lists.MemberLine)
        → ShowsSpecified body.before (specifiers_onto ws tree.no_specifiers)
        → ShowsMembers members ms
        → IfOk result
        (λ r. ShowsSpecified r
        (specifiers_onto
        (tree.StructureBody body.place body.tag body.brace (members_onto ms tree.no_members)
        ∷ ws) tree.no_specifiers)) }
{
    let TypeBody {
        place,
        tag,
        brace,
        seen: _,
        before,
    } = body;
    let Read { tree, depths } = over(place, members)?;
    let tree = match tree {
        Some(members) => Some(Specifier::StructureBody(place, tag, brace, members)),
        None => None,
    };
    with_specifier(before, Read { tree, depths }, place, None)
}

/// An enumeration with its enumerators more, and whether a comma stands behind the last (C90 6.5.2.2).
pub fn with_enumeration_body(
    body: TypeBody,
    enumerators: Read<Vec<Enumerator>>,
    comma: TrailingComma,
) -> Result<Specified, AllocError>
    ensures { (ws : List tree.Specifier) (es : List lists.EnumEntry)
        → ShowsSpecified body.before (specifiers_onto ws tree.no_specifiers)
        → ShowsEnumerators enumerators es
        → IfOk result
        (λ r. ShowsSpecified r
        (specifiers_onto
        (tree.EnumerationBody body.place body.tag body.brace
        (enumerators_onto es tree.no_enumerators) (has_comma comma) ∷ ws)
        tree.no_specifiers)) }
{
    let TypeBody {
        place,
        tag,
        brace,
        seen: _,
        before,
    } = body;
    let Read { tree, depths } = over(place, enumerators)?;
    let tree = match tree {
        Some(enumerators) => Some(Specifier::EnumerationBody(
            place,
            tag,
            brace,
            enumerators,
            comma,
        )),
        None => None,
    };
    with_specifier(before, Read { tree, depths }, place, None)
}

/// A declarator of members more.
pub fn with_declarator(
    before: Read<Vec<Declarator>>,
    declared: Declared,
) -> Result<Read<Vec<Declarator>>, AllocError>
    ensures { (ds : List tree.Declarator) (d : tree.Declarator) → ShowsDeclarators before ds
        → ShowsDeclared declared d → IfOk result (λ r. ShowsDeclarators r (d ∷ ds)) }
{
    longer(before, unbox(declared.read))
}

/// A declaration of members more.
pub fn with_member(
    before: Read<Vec<Member>>,
    specified: Specified,
    declarators: Read<Vec<Declarator>>,
    end: Place,
) -> Result<Read<Vec<Member>>, AllocError>
    ensures { (ms : List lists.MemberLine) (ws : tree.Specifiers) (ds : List tree.Declarator)
        → ShowsMembers before ms → ShowsSpecified specified ws → ShowsDeclarators declarators ds
        → IfOk result
        (λ r. ShowsMembers r
        (record {
          specifiers = ws;
          declarators = declarators_onto ds tree.no_declarators;
          end = end;
        } ∷ ms)) }
{
    let Read { tree, depths } = beside(specified.read, declarators)?;
    let tree = match tree {
        Some((specifiers, declarators)) => Some(Member {
            specifiers,
            declarators,
            end,
        }),
        None => None,
    };
    longer(before, Read { tree, depths })
}

/// An enumerator without a value more.
pub fn with_plain_enumerator(
    alloc: Global,
    before: Read<Vec<Enumerator>>,
    name: Name,
) -> Result<Read<Vec<Enumerator>>, AllocError>
    ensures { (es : List lists.EnumEntry) → ShowsEnumerators before es
        → IfOk result (λ r. ShowsEnumerators r (record { name = name; value = None } ∷ es)) }
{
    longer(before, flat(alloc, Enumerator::Plain(name)))
}

/// An enumerator with its value more.
pub fn with_valued_enumerator(
    before: Read<Vec<Enumerator>>,
    name: Name,
    place: Place,
    value: ReadOperand,
) -> Result<Read<Vec<Enumerator>>, AllocError>
    ensures { (es : List lists.EnumEntry) (e : tree.Expression) → ShowsEnumerators before es
        → ShowsOperand value e
        → IfOk result
        (λ r. ShowsEnumerators r (record { name = name; value = Some (place, e) } ∷ es)) }
{
    let Read { tree, depths } = value.read;
    let tree = match tree {
        Some(value) => Some(Enumerator::Valued(name, place, Box::into_inner(value))),
        None => None,
    };
    longer(before, Read { tree, depths })
}
