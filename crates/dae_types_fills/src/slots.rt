// What of an aggregate is still to be filled, as a stack, and the object that is next (C90 6.5.7).

ghost use Rattle.std.specs.Prelude.{◌≡◌, ◌*◌, ◌&&◌, ◌||◌, List, ◌∷◌, Option, Ok, slice_get};
ghost use Rattle.dae_types_kinds.specs.Types.{is_scalar, is_structure};
ghost use Rattle.dae_types_file_plans.specs.Initialisers.{Unfilled as PlainRest, FillSlot as PlainSlot, behind_bytes, components_of, descend, element_slot, is_before, is_text_array, next_slot, or_slot, parts_of, slot};
ghost use Rattle.dae_types_rules.specs.Plan.{Gives};
ghost use Rattle.dae_types_tables.specs.Seen.{tables};
ghost use Rattle.dae_types_fills.specs.Slots.{left_behind, slot_or, structure_slot, view_rest, view_slot, view_stack};
ghost use Rattle.dae_types_fills.specs.Filled.{seen};

use dae_types_kinds::{CheckError, Component, Shape, word_behind};
use dae_types_tables::{Checker, is_character, is_scalar, is_structure};
use std::alloc::Global;

/// One object of a type at an offset; the elements of an array from one on, up to its count if it has one; or the members of
/// a structure from one on. Offsets are in bytes.
#[derive(Clone, Copy)]
pub enum Unfilled {
    Once(u32, usize),
    Elements(u32, usize, u32, Option<u32>),
    Members(u32, usize, u32),
}

/// An object to be filled, and what is left behind it, the next part at the end.
#[derive(Drop)]
pub struct FillSlot {
    pub offset: u32,
    pub type_id: usize,
    pub rest: Vec<Unfilled>,
}

/// What an item is: a literal, or a structure.
#[derive(Clone, Copy)]
pub struct ItemKind {
    pub literal: bool,
    pub structure: bool,
}

/// The first object of a part, and what is left of that part.
#[derive(Clone, Copy)]
struct Start {
    offset: u32,
    type_id: usize,
    left: Option<Unfilled>,
}

/// The next object that is to be filled, if there is one.
#[tactic(auto, using(crate::proofs::Stacks::stack_push))]
pub fn next_slot(checker: &Checker, mut rest: Vec<Unfilled>) -> Result<Option<FillSlot>, CheckError>
    ensures { Gives (seen view_slot) result
        (Ok (next_slot (tables checker.now) (view_stack rest.items))) }
{
    while let Some(part) = rest.pop() {
        if let Some(start) = start_of(checker, part) {
            let slot = before_rest(start, rest)?;
            return Ok(Some(slot));
        }
    }
    Ok(None)
}

/// The first object of a part, with what is left of that part on top of the rest.
#[tactic(auto, using(crate::proofs::Stacks::stack_push))]
fn before_rest(start: Start, mut rest: Vec<Unfilled>) -> Result<FillSlot, CheckError>
    ensures { Gives view_slot result
        (Ok (slot start.offset start.type_id (left_behind start.left (view_stack rest.items)))) }
{
    if let Some(left) = start.left {
        rest.push(left)?;
    }
    Ok(FillSlot {
        offset: start.offset,
        type_id: start.type_id,
        rest,
    })
}

/// The first object of a part, unless nothing of it is left.
fn start_of(checker: &Checker, part: Unfilled) -> Option<Start>
    ensures { (rest : List PlainRest)
        → slot_or result rest (next_slot (tables checker.now) rest)
        ≡ next_slot (tables checker.now) (view_rest part ∷ rest) }
{
    match part {
        Unfilled::Once(offset, type_id) => Some(Start {
            offset,
            type_id,
            left: None,
        }),
        Unfilled::Elements(offset, element, begun, count) => {
            first_element(checker, offset, element, begun, count)
        }
        Unfilled::Members(offset, structure, begun) => {
            first_member(checker, offset, structure, begun)
        }
    }
}

/// An offset so many bytes further. It stops at the greatest word, behind all that an object may have.
pub fn behind_bytes(offset: u32, bytes: u32) -> u32
    ensures { result ≡ behind_bytes offset bytes }
{
    offset.saturating_add(bytes)
}

/// The offset of an element of so many bytes, by its number, in an array at an offset.
fn element_offset(offset: u32, number: u32, size: u32) -> u32
    ensures { result ≡ behind_bytes offset (number * size) }
{
    behind_bytes(offset, number.saturating_mul(size))
}

/// The next element of an array, unless all are begun.
fn first_element(
    checker: &Checker,
    offset: u32,
    element: usize,
    begun: u32,
    count: Option<u32>,
) -> Option<Start>
    ensures { (rest : List PlainRest) (behind : Option PlainSlot)
        → slot_or result rest behind
        ≡ element_slot (tables checker.now) offset element begun count rest behind }
{
    if !is_before(begun, count) {
        return None;
    }
    let size = checker.layout_at(element).size;
    Some(Start {
        offset: element_offset(offset, begun, size),
        type_id: element,
        left: Some(Unfilled::Elements(offset, element, word_behind(begun), count)),
    })
}

/// Whether an array has an element of this number.
fn is_before(number: u32, count: Option<u32>) -> bool
    ensures { result ≡ is_before number count }
{
    match count {
        Some(count) => number < count,
        None => true,
    }
}

/// The next member of a structure, unless all are begun.
fn first_member(checker: &Checker, offset: u32, structure: usize, begun: u32) -> Option<Start>
    ensures { (rest : List PlainRest) (behind : Option PlainSlot)
        → slot_or result rest behind
        ≡ structure_slot (tables checker.now) offset structure begun rest behind }
{
    let member = component(checker, structure, begun as usize)?;
    Some(Start {
        offset: behind_bytes(offset, member.offset),
        type_id: member.type_id,
        left: Some(Unfilled::Members(offset, structure, word_behind(begun))),
    })
}

/// The member of a structure by its number in it.
fn component(checker: &Checker, structure: usize, number: usize) -> Option<Component>
    ensures { result ≡ slice_get (components_of (tables checker.now) structure) number }
{
    let mut left = number;
    for row in checker.components() {
        if row.structure == structure {
            if left == 0 {
                return Some(*row);
            }
            left -= 1;
        }
    }
    None
}

/// The parts of an aggregate at an offset.
pub fn parts_of(offset: u32, type_id: usize, shape: Shape) -> Unfilled
    ensures { view_rest result ≡ parts_of offset type_id shape }
{
    match shape {
        Shape::Array(element, count) => Unfilled::Elements(offset, element, 0, count),
        Shape::Struct(structure) => Unfilled::Members(offset, structure, 0),
        _ => Unfilled::Once(offset, type_id),
    }
}

/// Whether a type is an array of characters.
pub fn is_text_array(checker: &Checker, shape: Shape) -> bool
    ensures { result ≡ is_text_array (tables checker.now) shape }
{
    match shape {
        Shape::Array(element, _) => is_character(checker.shape_of(element)),
        _ => false,
    }
}

/// Whether an item is for an object of this shape and no part of it: for a scalar, for an array of characters if it is a literal,
/// for a structure if it is one.
fn is_for(checker: &Checker, item: ItemKind, shape: Shape) -> bool
    ensures { result
        ≡ (is_scalar shape
        || ((item.literal && is_text_array (tables checker.now) shape)
        || (item.structure && is_structure shape))) }
{
    let text = item.literal && is_text_array(checker, shape);
    is_scalar(shape) || (text || (item.structure && is_structure(shape)))
}

/// Down to the object that an item is for: a scalar, an array of characters for a literal, or a structure for a structure.
pub fn descend(
    checker: &Checker,
    item: ItemKind,
    depth: usize,
    mut slot: FillSlot,
) -> Result<FillSlot, CheckError>
    ensures { Gives view_slot result
        (Ok (descend depth (tables checker.now) item.literal item.structure (view_slot slot))) }
{
    let mut left = depth;
    while left > 0 {
        let shape = checker.shape_of(slot.type_id);
        if is_for(checker, item, shape) {
            return Ok(slot);
        }
        slot = first_part(checker, slot, shape)?;
        left -= 1;
    }
    Ok(slot)
}

/// The first object of an aggregate of this shape, or what is next behind it, or itself where nothing is.
fn first_part(checker: &Checker, slot: FillSlot, shape: Shape) -> Result<FillSlot, CheckError>
    ensures { Gives view_slot result
        (Ok (or_slot (view_slot slot) (next_slot (tables checker.now)
        (parts_of slot.offset slot.type_id shape ∷ view_stack slot.rest.items)))) }
{
    let part = parts_of(slot.offset, slot.type_id, shape);
    match start_of(checker, part) {
        Some(start) => before_rest(start, slot.rest),
        None => behind(checker, slot),
    }
}

/// What is next behind an object of which nothing is to be filled, or that object where nothing is.
fn behind(checker: &Checker, slot: FillSlot) -> Result<FillSlot, CheckError>
    ensures { Gives view_slot result
        (Ok (or_slot (view_slot slot)
        (next_slot (tables checker.now) (view_stack slot.rest.items)))) }
{
    let rest = copy_stack(checker.alloc, &slot.rest)?;
    match next_slot(checker, rest)? {
        Some(next) => Ok(next),
        None => Ok(slot),
    }
}

/// A copy of a stack.
fn copy_stack(alloc: Global, rest: &[Unfilled]) -> Result<Vec<Unfilled>, CheckError>
    ensures { Gives (λ v. v.items) result (Ok rest.now) }
{
    let mut stack = Vec::new(alloc);
    for part in rest {
        stack.push(*part)?;
    }
    Ok(stack)
}
