// Enumerations and their enumerators (C90 6.5.2.2).

ghost use Rattle.std.specs.Prelude.{◌≡◌};
ghost use Rattle.dae_types_kinds.specs.declared.values.Category.{Category};
ghost use Rattle.dae_types_kinds.specs.Values.{typed};
ghost use Rattle.dae_types_plans.specs.Steps.{constant_at, enumeration_at, enumeration_tag, enumerator_at};
ghost use Rattle.dae_program.specs.Trees.{Expression};
ghost use Rattle.dae_types_rules.specs.Plan.{pure};
ghost use Rattle.dae_types_tables.specs.Seen.{Follows};

use dae_base::Place;
use dae_tree::Name;
use dae_types_kinds::{CheckError, Entity, INT_ID, Known, Rule, Tagged};
use dae_types_tables::{Checker, broken, is_integer};

/// `enum` and a tag without enumerators.
#[tactic(auto, unfolding(dae_types_rules::specs::Plan::ask_all))]
pub fn enumeration_by_tag(checker: &Checker, name: Name) -> Result<Option<usize>, CheckError>
    ensures { Follows checker.now result (enumeration_tag name) checker.now }
{
    match checker.found_tag(name.number) {
        Some(Tagged::Enumeration) => Ok(Some(INT_ID)),
        Some(Tagged::Structure(_)) => Err(broken(Rule::TagKind, name.place)),
        None => Err(broken(Rule::Incomplete, name.place)),
    }
}

/// Declares the tag of an enumeration before its enumerators.
#[tactic(auto, unfolding(dae_types_rules::specs::Plan::ask_all))]
pub fn declare_enumeration(checker: &mut Checker, tag: Option<Name>) -> Result<(), CheckError>
    ensures { Follows checker.new result (enumeration_at tag) checker.old }
{
    let Some(name) = tag else {
        return Ok(());
    };
    match checker.own_tag(name.number) {
        Some(Tagged::Enumeration) => Err(broken(Rule::Redefined, name.place)),
        Some(Tagged::Structure(_)) => Err(broken(Rule::TagKind, name.place)),
        None => checker.add_tag(name.number, Tagged::Enumeration),
    }
}

/// Declares an enumerator, and gives the value of the next one.
#[tactic(auto, unfolding(dae_types_rules::specs::Plan::ask_all))]
pub fn add_enumerator(checker: &mut Checker, name: Name, word: u32) -> Result<u32, CheckError>
    ensures { Follows checker.new result (enumerator_at name word) checker.old }
{
    if checker.own_name(name.number) {
        return Err(broken(Rule::Redeclared, name.place));
    }
    checker.add_name(name.number, Entity::Enumerator(word))?;
    Ok(word.wrapping_add(1))
}

/// The word of an enumerator's or label's value, of which this is known.
#[tactic(auto, unfolding(dae_types_rules::specs::Plan::ask_all))]
pub fn constant_value(
    checker: &Checker,
    place: Place,
    type_id: usize,
    known: Known,
) -> Result<u32, CheckError>
    ensures { (e : Expression) (c : Category)
        → Follows checker.now result
        (constant_at place (pure (typed e type_id c known))) checker.now }
{
    if !is_integer(checker.shape_of(type_id)) {
        return Err(broken(Rule::NotInteger, place));
    }
    match known {
        Known::Number(word) => Ok(word),
        Known::Division => Err(broken(Rule::ConstantDivision, place)),
        Known::Nothing | Known::Address(_, _) | Known::NullPointer => {
            Err(broken(Rule::NotConstant, place))
        }
    }
}
