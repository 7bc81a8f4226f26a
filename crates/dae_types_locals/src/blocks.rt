// The declarations of a block: names of types, and local objects with the statements that begin them (C90 6.5 and 6.6.2).

ghost use Rattle.std.specs.Prelude.{◌≡◌, false, true};
ghost use Rattle.dae_tree.specs.Names.{has_typedef, is_typedef_specifier, is_typedef_word};
ghost use Rattle.dae_tree.specs.Views.{view_specifier, views_specifiers};
ghost use Rattle.dae_tree.specs.FileViews.{view_declaration, view_declarations, view_item, view_items};
ghost use Rattle.dae_program.specs.Trees.{Done};
ghost use Rattle.dae_types_file_plans.specs.Statements.{is_alone, plan_declaration, plan_declarations, plan_item_at, plan_items};
ghost use Rattle.dae_types_sites.specs.Scopes.{is_innermost};
ghost use Rattle.dae_types_tables.specs.Seen.{Follows};
ghost use Rattle.dae_types_bodies.specs.Written.{GivesStatements, as_statements};
ghost use Rattle.dae_types_locals.specs.Plans.{plan_declared};

use crate::locals::begin;
use dae_base::Place;
use dae_program::Statement;
use dae_tree::{Declaration, InitDeclarator, Keyword, Seen, Specifier};
use dae_types_bodies::append;
use dae_types_kinds::{CheckError, Context};
use dae_types_linkage::{Introduction, declare_local, declare_type};
use dae_types_sites::{Adjustment, TagScope, base_type};
use dae_types_tables::Checker;
use dae_types_walk::{declarator, declared_place, place_of_specifiers, specifiers};

/// Whether a word is `typedef`.
fn is_typedef_word(word: Keyword) -> bool
    ensures { result ≡ is_typedef_word word }
{
    match word {
        Keyword::Typedef => true,
        _ => false,
    }
}

/// Whether a specifier is `typedef`.
#[tactic(auto, using(dae_tree::proofs::Laws::view_structure_body, dae_tree::proofs::Laws::view_enumeration_body))]
fn is_typedef(specifier: &Specifier) -> bool
    ensures { result ≡ is_typedef_specifier (view_specifier specifier.now) }
{
    match specifier {
        Specifier::Word(_, word) => is_typedef_word(*word),
        Specifier::TypeName(_) => false,
        Specifier::Structure(_, _) => false,
        Specifier::StructureBody(_, _, _, _) => false,
        Specifier::Enumeration(_, _) => false,
        Specifier::EnumerationBody(_, _, _, _, _) => false,
    }
}

/// Whether `typedef` is among specifiers.
pub fn has_typedef(list: &[Specifier]) -> bool
    ensures { result ≡ has_typedef (views_specifiers list.now) }
{
    for specifier in list {
        if is_typedef(specifier) {
            return true;
        }
    }
    false
}

/// Gives a type a name, which stands at this place.
fn name_type(
    checker: &mut Checker,
    place: Place,
    base: usize,
    item: &InitDeclarator,
) -> Result<Vec<Statement>, CheckError>
    ensures { GivesStatements checker.new result
        (plan_item_at true place base (view_item item.now)) checker.old }
{
    let declared = declarator(checker, place, Adjustment::Kept, base, &item.declarator)?;
    let introduction = Introduction {
        place,
        name: item.declarator.name(),
        given: item.initialiser.is_some(),
    };
    declare_type(checker, Context::Block, introduction, declared)?;
    Ok(Vec::new(checker.alloc))
}

/// Declares a local object, whose name stands at this place, and begins it.
fn declare(
    checker: &mut Checker,
    place: Place,
    base: usize,
    item: &InitDeclarator,
) -> Result<Vec<Statement>, CheckError>
    ensures { GivesStatements checker.new result
        (plan_item_at false place base (view_item item.now)) checker.old }
{
    let declared = declarator(checker, place, Adjustment::Kept, base, &item.declarator)?;
    let introduction = Introduction {
        place,
        name: item.declarator.name(),
        given: item.initialiser.is_some(),
    };
    let number = declare_local(checker, introduction, declared)?;
    begin(checker, place, &item.initialiser, number)
}

/// Declares one name over a type, as these specifiers say.
fn declare_item(
    checker: &mut Checker,
    list: &[Specifier],
    place: Place,
    base: usize,
    item: &InitDeclarator,
) -> Result<Vec<Statement>, CheckError>
    ensures { GivesStatements checker.new result
        (plan_item_at (has_typedef (views_specifiers list.now)) place base (view_item item.now))
        checker.old }
{
    if has_typedef(list) {
        name_type(checker, place, base, item)
    } else {
        declare(checker, place, base, item)
    }
}

/// Declares names over a type, as these specifiers say, behind statements that are done.
fn declare_items(
    checker: &mut Checker,
    place: Place,
    list: &[Specifier],
    base: usize,
    mut done: Vec<Statement>,
    items: &[InitDeclarator],
) -> Result<Vec<Statement>, CheckError>
    ensures { GivesStatements checker.new result
        (plan_items place (has_typedef (views_specifiers list.now)) base (as_statements done)
        (view_items items.now)) checker.old }
{
    for one in items {
        let at = declared_place(&one.declarator, place);
        let statements = declare_item(checker, list, at, base, one)?;
        done = append(done, statements)?;
    }
    Ok(done)
}

/// Where the tag of a structure without members is looked for in a declaration of these names: in the innermost scope,
/// if there is none.
#[tactic(auto, using(crate::proofs::Lists::alone_where_empty))]
pub fn tag_scope(items: &[InitDeclarator]) -> TagScope
    ensures { is_innermost result ≡ is_alone (view_items items.now) }
{
    if items.is_empty() {
        TagScope::Innermost
    } else {
        TagScope::Any
    }
}

/// The type that the specifiers of a declaration name.
fn base(checker: &mut Checker, scope: TagScope, list: &[Specifier]) -> Result<usize, CheckError>
    ensures { Follows checker.new result
        (plan_declared (is_innermost scope) list.now) checker.old }
{
    let named = specifiers(checker, Context::Block, scope, list)?;
    Ok(base_type(Seen::of_specifiers(list), named))
}

/// Goes through a declaration of a block, behind statements that are done.
fn declaration(
    checker: &mut Checker,
    done: Vec<Statement>,
    one: &Declaration,
) -> Result<Vec<Statement>, CheckError>
    ensures { GivesStatements checker.new result
        (plan_declaration (as_statements done) (view_declaration one.now)) checker.old }
{
    let base = base(checker, tag_scope(&one.items), &one.specifiers)?;
    let place = place_of_specifiers(&one.specifiers, one.end);
    declare_items(checker, place, &one.specifiers, base, done, &one.items)
}

/// Goes through the declarations of a block, in their order: gives the statements that begin its objects. An error is a rule
/// that is broken, or want of memory.
pub fn declarations(
    checker: &mut Checker,
    list: &[Declaration],
) -> Result<Vec<Statement>, CheckError>
    ensures { GivesStatements checker.new result
        (plan_declarations Done (view_declarations list.now)) checker.old }
{
    let mut done = Vec::new(checker.alloc);
    for one in list {
        done = declaration(checker, done, one)?;
    }
    Ok(done)
}
