// What an item of an initialiser writes (C90 6.5.7): a constant, the bytes of a literal, or nothing of a structure.

ghost use Rattle.std.specs.Prelude.{◌≡◌, [], ◌∷◌, ◌++◌, Ok};
ghost use Rattle.dae_program.specs.Views.{view, view_settings};
ghost use Rattle.dae_types_kinds.specs.Values.{constant_tree, is_division};
ghost use Rattle.dae_types_rules.specs.Table.{is_longer};
ghost use Rattle.dae_types_rules.specs.Plan.{Gives};
ghost use Rattle.dae_types_file_plans.specs.Initialisers.{byte_setting, byte_settings, item_at, literal_bytes, setting};
ghost use Rattle.dae_types_tables.specs.Seen.{tables, FollowsBy};
ghost use Rattle.dae_types_folding.specs.Views.{view_value};
ghost use Rattle.dae_types_fills.specs.Fillings.{scalar_item, structure_item, text_item, view_constant, view_filling, view_landing, view_setting};

use crate::filling::{Destination, Filling, Landing};
use crate::slots::behind_bytes;
use dae_base::{LoadKind, Place, extend};
use dae_program::{Expression, Setting};
use dae_types_folding::{TypedValue, known_as, load_kind};
use dae_types_kinds::{CheckError, Known, Rule, Shape, word_behind, word_for};
use dae_types_tables::{Checker, broken, is_structure};
use dae_types_values::fits;

/// An array that a literal is for: its offset in bytes, the type of its elements, and their
/// number if it has one.
#[derive(Clone, Copy)]
struct TextArray {
    offset: u32,
    element: usize,
    count: Option<u32>,
}

/// Whether a constant expression divides by zero.
fn is_division(known: Known) -> bool
    ensures { result ≡ is_division known }
{
    match known {
        Known::Division => true,
        _ => false,
    }
}

/// The tree of a constant for an initialiser: an integer constant expression or an address constant (C90 6.4).
fn constant_tree(known: Known) -> Option<Expression>
    ensures { view_constant result ≡ constant_tree known }
{
    match known {
        Known::Number(word) => Some(Expression::Number(word)),
        Known::Address(Some(object), offset) => Some(Expression::Address(object, offset)),
        Known::Address(None, word) => Some(Expression::Number(word)),
        Known::NullPointer => Some(Expression::Number(0)),
        Known::Division | Known::Nothing => None,
    }
}

/// The bytes of a literal, without the zero byte at its end.
fn literal_bytes(checker: &Checker, literal: Option<u32>) -> &[u8]
    ensures { result.now ≡ literal_bytes (tables checker.now) literal }
{
    match literal {
        Some(number) => checker.literal(number as usize),
        None => &[],
    }
}

/// Whether a literal has more bytes than an array has elements.
fn is_longer(length: usize, count: Option<u32>) -> bool
    ensures { result ≡ is_longer length count }
{
    match count {
        Some(count) => (count as usize) < length,
        None => false,
    }
}

/// A byte of a literal as an item.
fn byte_setting(offset: u32, kind: LoadKind, byte: u8) -> Setting
    ensures { view_setting result ≡ byte_setting offset kind byte }
{
    Setting {
        offset,
        width: kind.width(),
        value: Expression::Number(extend(kind, byte as u32)),
    }
}

/// A constant as the item of a scalar of this shape.
fn constant_setting(offset: u32, shape: Shape, value: Expression) -> Setting
    ensures { view_setting result ≡ setting offset shape (view value) }
{
    Setting {
        offset,
        width: load_kind(shape).width(),
        value,
    }
}

/// Adds an item.
#[tactic(auto, using(crate::proofs::Settings::settings_push))]
fn push_setting(items: &mut Vec<Setting>, item: Setting) -> Result<(), CheckError>
    ensures { Gives (λ x. view_settings items.new.items) result
        (Ok (view_settings items.old.items ++ view_setting item ∷ [])) }
{
    items.push(item)?;
    Ok(())
}

/// Writes bytes as items from an offset on.
fn push_bytes(
    items: &mut Vec<Setting>,
    offset: u32,
    kind: LoadKind,
    bytes: &[u8],
) -> Result<(), CheckError>
    ensures { Gives (λ x. view_settings items.new.items) result
        (Ok (view_settings items.old.items ++ byte_settings offset kind bytes.now)) }
{
    let mut next = offset;
    for byte in bytes {
        push_setting(items, byte_setting(next, kind, *byte))?;
        next = behind_bytes(next, 1);
    }
    Ok(())
}

/// Writes the bytes of a literal into an array of characters.
#[tactic(auto, unfolding(dae_types_rules::specs::Plan::ask_all))]
fn fill_text(
    checker: &Checker,
    place: Place,
    literal: Option<u32>,
    array: TextArray,
    filling: Filling,
) -> Result<Filling, CheckError>
    ensures { FollowsBy view_filling checker.now result
        (text_item place literal array.offset array.element array.count (view_filling filling))
        checker.now }
{
    let bytes = literal_bytes(checker, literal);
    if is_longer(bytes.len(), array.count) {
        return Err(broken(Rule::TooManyInitialisers, place));
    }
    let kind = load_kind(checker.shape_of(array.element));
    let count = word_behind(word_for(bytes.len()));
    let mut items = filling.items;
    push_bytes(&mut items, array.offset, kind, bytes)?;
    Ok(Filling {
        rest: filling.rest,
        items,
        count,
        over: filling.over,
    })
}

/// Refuses a value for a structure: it is a structure or it is none.
#[tactic(auto, unfolding(dae_types_rules::specs::Plan::ask_all))]
fn fill_structure(
    checker: &Checker,
    place: Place,
    x: &TypedValue,
    type_id: usize,
    filling: Filling,
) -> Result<Filling, CheckError>
    ensures { FollowsBy view_filling checker.now result
        (structure_item place (view_value x.now) type_id (view_filling filling)) checker.now }
{
    let is_value = is_structure(checker.shape_of(x.type_id));
    let is_for_structure = is_structure(checker.shape_of(type_id));
    if is_for_structure && is_value {
        return Err(broken(Rule::StructureValue, place));
    }
    Err(broken(Rule::BadInitialiser, place))
}

/// Writes a constant into a scalar.
#[tactic(auto, unfolding(dae_types_rules::specs::Plan::ask_all))]
fn fill_scalar(
    checker: &Checker,
    place: Place,
    x: &TypedValue,
    destination: Destination,
    filling: Filling,
) -> Result<Filling, CheckError>
    ensures { FollowsBy view_filling checker.now result
        (scalar_item place (view_value x.now) destination.offset destination.type_id
        (view_filling filling)) checker.now }
{
    if !fits(checker, x, destination.type_id) {
        return Err(broken(Rule::BadAssign, place));
    }
    let from = checker.shape_of(x.type_id);
    if is_structure(from) {
        return Err(broken(Rule::StructureValue, place));
    }
    if is_division(x.known) {
        return Err(broken(Rule::ConstantDivision, place));
    }
    let shape = checker.shape_of(destination.type_id);
    let Some(value) = constant_tree(known_as(from, shape, x.known)) else {
        return Err(broken(Rule::NotConstant, place));
    };
    let mut items = filling.items;
    push_setting(
        &mut items,
        constant_setting(destination.offset, shape, value),
    )?;
    Ok(Filling {
        rest: filling.rest,
        items,
        count: filling.count,
        over: filling.over,
    })
}

/// Writes an item: its value is a constant or a literal, by its number.
#[tactic(auto, unfolding(dae_types_rules::specs::Plan::ask_all))]
pub fn fill_item(
    checker: &Checker,
    place: Place,
    literal: Option<u32>,
    x: &TypedValue,
    landing: Landing,
) -> Result<Filling, CheckError>
    ensures { FollowsBy view_filling checker.now result
        (item_at place literal (view_value x.now) (view_landing landing)) checker.now }
{
    let Some(destination) = landing.destination else {
        return Ok(landing.filling);
    };
    let filling = landing.filling;
    match checker.shape_of(destination.type_id) {
        Shape::Array(element, count) => {
            let offset = destination.offset;
            let array = TextArray {
                offset,
                element,
                count,
            };
            fill_text(checker, place, literal, array, filling)
        }
        Shape::Struct(_) => fill_structure(checker, place, x, destination.type_id, filling),
        _ => fill_scalar(checker, place, x, destination, filling),
    }
}
