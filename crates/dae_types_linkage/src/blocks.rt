// Names of types, and local objects (C90 6.5, 6.5.6 and 6.7.1).

ghost use Rattle.std.specs.Prelude.{◌≡◌};
ghost use Rattle.dae_types_file_plans.specs.Statements.{local_at, own_of, typedef_at};
ghost use Rattle.dae_types_rules.specs.Plan.{pure};
ghost use Rattle.dae_types_rules.specs.Table.{clashes_with_type};
ghost use Rattle.dae_types_tables.specs.Seen.{tables, Follows};
ghost use Rattle.dae_types_linkage.specs.Contexts.{is_in_block};

use crate::introductions::Introduction;
use dae_tree::Name;
use dae_types_kinds::{CheckError, Context, Entity, NamedType, Rule};
use dae_types_sites::{add_named_local, is_taken};
use dae_types_tables::{Checker, broken, is_array, is_function, is_void};

/// Declares the name of a type, in a file or in a block.
#[tactic(auto, unfolding(dae_types_rules::specs::Plan::ask_all))]
pub fn declare_type(
    checker: &mut Checker,
    context: Context,
    introduction: Introduction,
    declared: NamedType,
) -> Result<(), CheckError>
    ensures { Follows checker.new result
        (typedef_at introduction.place (is_in_block context) introduction.given introduction.name
        (pure declared)) checker.old }
{
    let place = introduction.place;
    if introduction.given {
        return Err(broken(Rule::TypedefMisuse, place));
    }
    let found = own_entity(checker, introduction.name);
    if clashes_with_type(checker, context, declared.type_id, found) {
        return Err(broken(Rule::Redeclared, place));
    }
    let Some(name) = introduction.name else {
        return Ok(());
    };
    checker.add_name(name.number, Entity::Type(declared.type_id))
}

/// Whether a type may not have a name here that stands for this already.
fn clashes_with_type(
    checker: &Checker,
    context: Context,
    type_id: usize,
    found: Option<Entity>,
) -> bool
    ensures { result
        ≡ clashes_with_type (is_in_block context) (tables checker.now) type_id found }
{
    match found {
        None => false,
        Some(Entity::Type(other)) => is_in_block(context) || !checker.same(other, type_id),
        Some(_) => true,
    }
}

/// Whether a declaration stands in a block.
fn is_in_block(context: Context) -> bool
    ensures { result ≡ is_in_block context }
{
    match context {
        Context::Block => true,
        _ => false,
    }
}

/// What a name stands for in the innermost scope.
pub fn own_entity(checker: &Checker, name: Option<Name>) -> Option<Entity>
    ensures { result ≡ own_of (tables checker.now) name }
{
    match name {
        Some(name) => checker.own_entity(name.number),
        None => None,
    }
}

/// Declares a local object, and gives its number.
#[tactic(auto, unfolding(dae_types_rules::specs::Plan::ask_all))]
pub fn declare_local(
    checker: &mut Checker,
    introduction: Introduction,
    declared: NamedType,
) -> Result<Option<usize>, CheckError>
    ensures { Follows checker.new result
        (local_at introduction.place introduction.given introduction.name (pure declared))
        checker.old }
{
    let place = introduction.place;
    let shape = checker.shape_of(declared.type_id);
    if is_function(shape) {
        return Err(broken(Rule::BlockFunction, place));
    }
    if is_void(shape) {
        return Err(broken(Rule::VoidObject, place));
    }
    if !checker.is_complete(declared.type_id) && !(introduction.given && is_array(shape)) {
        return Err(broken(Rule::Incomplete, place));
    }
    if is_taken(checker, introduction.name) {
        return Err(broken(Rule::Redeclared, place));
    }
    let number = checker.count_locals();
    add_named_local(checker, introduction.name, declared.type_id)?;
    Ok(Some(number))
}
