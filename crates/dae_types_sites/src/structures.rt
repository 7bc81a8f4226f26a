// Tags, structures and their members (C90 6.5.2.1 and 6.5.2.3).

ghost use Rattle.std.specs.Prelude.{◌≡◌, Some, false, true};
ghost use Rattle.dae_types_plans.specs.Steps.{begins_at, ends_at, has_component, member_at, new_structure, number_of, structure_type, tag_at, tag_in};
ghost use Rattle.dae_types_rules.specs.Plan.{pure};
ghost use Rattle.dae_types_rules.specs.Table.{has_begun};
ghost use Rattle.dae_types_tables.specs.Seen.{tables, Follows, LeavesAnd};
ghost use Rattle.dae_types_sites.specs.Scopes.{is_innermost};

use dae_base::Place;
use dae_tree::Name;
use dae_types_kinds::{CheckError, Component, Layout, NamedType, Rule, Shape, Structure, Tagged};
use dae_types_tables::{
    Checker, MOST_BYTES, broken, finish_layout, is_function, is_void, place_member, round_up,
};

/// Where the tag of a structure without members is looked for: in the innermost scope alone, as where its declaration
/// declares nothing else, or in any scope (C90 6.5.2.3).
#[derive(Clone, Copy)]
pub enum TagScope {
    Innermost,
    Any,
}

/// `struct` and a tag: the type of the structure of that tag, or of a new one that has no members yet.
#[tactic(auto, unfolding(dae_types_rules::specs::Plan::ask_all))]
pub fn structure_by_tag(
    checker: &mut Checker,
    scope: TagScope,
    name: Name,
) -> Result<Option<usize>, CheckError>
    ensures { Follows checker.new result (tag_at (is_innermost scope) name) checker.old }
{
    let number = match tagged(checker, scope, name.number) {
        Some(Tagged::Enumeration) => return Err(broken(Rule::TagKind, name.place)),
        Some(Tagged::Structure(number)) => number,
        None => declare_structure(checker, name.number)?,
    };
    structure_type(checker, number)
}

/// What a tag stands for in such scopes.
fn tagged(checker: &Checker, scope: TagScope, name: u32) -> Option<Tagged>
    ensures { result ≡ tag_in (is_innermost scope) (tables checker.now) name }
{
    match scope {
        TagScope::Innermost => checker.own_tag(name),
        TagScope::Any => checker.found_tag(name),
    }
}

/// Makes the type of a structure.
fn structure_type(checker: &mut Checker, number: usize) -> Result<Option<usize>, CheckError>
    ensures { LeavesAnd checker.new result (structure_type (tables checker.old, number)) }
{
    Ok(Some(checker.make(Shape::Struct(number))?))
}

/// Adds a structure of which only the tag is declared, and gives its number.
fn declare_structure(checker: &mut Checker, tag: u32) -> Result<usize, CheckError>
    ensures { LeavesAnd checker.new result (new_structure (Some tag) false (tables checker.old)) }
{
    let number = checker.add_structure(Structure {
        tag: Some(tag),
        begun: false,
        layout: None,
    })?;
    checker.add_tag(tag, Tagged::Structure(number))?;
    Ok(number)
}

/// Adds a structure whose members begin, with its tag where it has one, and gives its number.
fn add_structure(checker: &mut Checker, tag: Option<u32>) -> Result<usize, CheckError>
    ensures { LeavesAnd checker.new result (new_structure tag true (tables checker.old)) }
{
    let number = checker.add_structure(Structure {
        tag,
        begun: true,
        layout: None,
    })?;
    if let Some(name) = tag {
        checker.add_tag(name, Tagged::Structure(number))?;
    }
    Ok(number)
}

/// Begins the members of a structure, and gives its number.
#[tactic(auto, unfolding(dae_types_rules::specs::Plan::ask_all))]
pub fn begin_structure(checker: &mut Checker, tag: Option<Name>) -> Result<usize, CheckError>
    ensures { Follows checker.new result (begins_at tag) checker.old }
{
    let Some(name) = tag else {
        return add_structure(checker, None);
    };
    let own = checker.own_tag(name.number);
    if has_begun(checker, own) {
        return Err(broken(Rule::Redefined, name.place));
    }
    match own {
        Some(Tagged::Enumeration) => Err(broken(Rule::TagKind, name.place)),
        Some(Tagged::Structure(number)) => {
            let tag = Some(name.number);
            checker.set_structure(
                number,
                Structure {
                    tag,
                    begun: true,
                    layout: None,
                },
            );
            Ok(number)
        }
        None => add_structure(checker, Some(name.number)),
    }
}

/// Whether a tag stands for a structure whose members have begun.
fn has_begun(checker: &Checker, tagged: Option<Tagged>) -> bool
    ensures { result ≡ has_begun (tables checker.now) tagged }
{
    match tagged {
        Some(Tagged::Structure(number)) => match checker.structure(number) {
            Some(structure) => structure.begun,
            None => false,
        },
        _ => false,
    }
}

/// Adds a member of a structure behind members of this layout, and gives the layout with it.
#[tactic(auto, unfolding(dae_types_rules::specs::Plan::ask_all))]
pub fn add_member(
    checker: &mut Checker,
    place: Place,
    structure: usize,
    layout: Layout,
    name: Option<Name>,
    declared: NamedType,
) -> Result<Layout, CheckError>
    ensures { Follows checker.new result
        (member_at place structure layout name (pure declared)) checker.old }
{
    let shape = checker.shape_of(declared.type_id);
    if is_void(shape) {
        return Err(broken(Rule::VoidObject, place));
    }
    if is_function(shape) {
        return Err(broken(Rule::BadFunctionType, place));
    }
    if !checker.is_complete(declared.type_id) {
        return Err(broken(Rule::Incomplete, place));
    }
    if has_component(checker, structure, declared.name) {
        return Err(broken(Rule::Redeclared, place));
    }
    let Some(name) = declared.name else {
        return Ok(layout);
    };
    let own = checker.layout_at(declared.type_id);
    checker.add_component(Component {
        structure,
        name: name.number,
        offset: round_up(layout.size, own.align),
        type_id: declared.type_id,
    })?;
    Ok(place_member(layout, own))
}

/// Whether a structure has a member of this name.
fn has_component(checker: &Checker, structure: usize, name: Option<Name>) -> bool
    ensures { result ≡ has_component (tables checker.now) structure name }
{
    match name {
        Some(name) => checker.found_component(structure, name.number).is_some(),
        None => false,
    }
}

/// Ends the members of a structure, and makes its type.
#[tactic(auto, unfolding(dae_types_rules::specs::Plan::ask_all))]
pub fn end_structure(
    checker: &mut Checker,
    place: Place,
    tag: Option<Name>,
    number: usize,
    layout: Layout,
) -> Result<Option<usize>, CheckError>
    ensures { Follows checker.new result (ends_at place tag number layout) checker.old }
{
    let layout = finish_layout(layout);
    if layout.size > MOST_BYTES {
        return Err(broken(Rule::ObjectTooLarge, place));
    }
    let tag = number_of(tag);
    checker.set_structure(
        number,
        Structure {
            tag,
            begun: true,
            layout: Some(layout),
        },
    );
    structure_type(checker, number)
}

/// The number of a name.
fn number_of(name: Option<Name>) -> Option<u32>
    ensures { result ≡ number_of name }
{
    match name {
        Some(name) => Some(name.number),
        None => None,
    }
}
