// Initialised aggregates: zeros, and then their items (C90 6.5.7).

ghost use Rattle.std.specs.Prelude.{◌≡◌, ◌+◌, [], ◌∷◌, IfOk};
ghost use Rattle.dae_ir.specs.Form.{form_of, Form};
ghost use Rattle.dae_lower.specs.Lowering.{only, settings, turn_bytes, zeros, zeros_at, ◌⨾◌};
ghost use Rattle.dae_lower_expressions.specs.Lowered.{MakesWhole, links_in};
ghost use Rattle.dae_lower_programs.specs.Parts.{zero_then, zero_turn};
ghost use Rattle.dae_program.specs.Views.{view_settings};

use crate::blocks::leave_if_not;
use dae_base::{Place, Width};
use dae_ir::{Item, Operand, Statement, Test, Value};
use dae_lower_expressions::Lowerer;
use dae_meaning::{Comparison, Operator};
use dae_program::{Links, Setting};
use std::alloc::{AllocError, Global};

/// An aggregate in the frame that is initialised: the statement's place, its offset and its size in bytes.
#[derive(Clone, Copy)]
pub struct Aggregate {
    pub place: Place,
    pub offset: u32,
    pub size: u32,
}

/// How many bytes a turn of zeroing so many clears: the most, up to five, that divide them.
#[tactic(auto, unfolding(dae_lower::specs::Lowering::turn_bytes))]
fn turn_bytes(size: u32) -> u32
    ensures { result ≡ turn_bytes size }
{
    if size % 5 == 0 {
        5
    } else if size % 4 == 0 {
        4
    } else if size % 3 == 0 {
        3
    } else if size % 2 == 0 {
        2
    } else {
        1
    }
}

/// Appends the store of a zero at the address in a variable, which goes up behind it.
fn push_zero(block: &mut Vec<Statement>, place: Place, address: u32) -> Result<(), AllocError>
    ensures { IfOk result
        (λ u. (rest : Form)
        → (form_of block.new.items ⨾ rest)
        ≡ (form_of block.old.items ⨾ zero_then place address rest)) }
{
    let at = Operand::Variable(address);
    let store = Item::Store(Width::B1, at, Operand::Number(0));
    let next = Value::Binary(Operator::Add, at, Operand::Number(1));
    block.push(Statement::Simple(place, store))?;
    block.push(Statement::Simple(place, Item::Assign(address, next)))?;
    Ok(())
}

/// Appends the stores of so many zeros from the address in a variable on.
fn push_zeros(
    block: &mut Vec<Statement>,
    place: Place,
    address: u32,
    count: u32,
) -> Result<(), AllocError>
    ensures { IfOk result
        (λ u.
        form_of block.new.items
        ≡ (form_of block.old.items ⨾ zeros_at place address count)) }
{
    for _ in 0..count {
        push_zero(block, place, address)?;
    }
    Ok(())
}

/// A turn of zeroing so many bytes: some of them, from an address on, become 0, unless it is the end.
fn zero_turn(
    alloc: Global,
    place: Place,
    size: u32,
    address: u32,
    end: u32,
) -> Result<Vec<Statement>, AllocError>
    ensures { IfOk result (λ block. form_of block.items ≡ zero_turn place size address end) }
{
    let test = Test {
        comparison: Comparison::NotEqual,
        left: Operand::Variable(address),
        right: Operand::Variable(end),
    };
    let leave = leave_if_not(alloc, place, test)?;
    let count = turn_bytes(size);
    let mut block = Vec::new(alloc);
    block.push(leave)?;
    push_zeros(&mut block, place, address, count)?;
    Ok(block)
}

/// The bytes of an aggregate become 0. What is given is the first of two variables, which is for addresses.
pub fn zero(lowerer: &mut Lowerer, aggregate: Aggregate) -> Result<u32, AllocError>
    ensures { IfOk result
        (MakesWhole
        (λ n. only (zeros aggregate.place aggregate.offset aggregate.size n) n (n + 2)) lowerer.old
        lowerer.new) }
{
    let place = aggregate.place;
    let address = lowerer.maker.reserve();
    let end = lowerer.maker.reserve();
    let body = zero_turn(lowerer.alloc, place, aggregate.size, address, end)?;
    let step = Vec::new(lowerer.alloc);
    let behind = aggregate.offset.wrapping_add(aggregate.size);
    let first = Value::Binary(
        Operator::Subtract,
        Operand::Variable(end),
        Operand::Number(aggregate.size),
    );
    lowerer
        .maker
        .item(place, Item::Assign(end, Value::FrameAddress(behind)))?;
    lowerer.maker.item(place, Item::Assign(address, first))?;
    lowerer.maker.repeat(place, body, step)?;
    Ok(address)
}

/// An item, whose address is in a variable.
fn put(
    lowerer: &mut Lowerer,
    links: &Links,
    none: u32,
    place: Place,
    v: u32,
    item: &Setting,
) -> Result<(), AllocError>
    ensures { IfOk result
        (MakesWhole
        (settings (links_in none links.now) place v
        (view_settings (item.now ∷ []))) lowerer.old lowerer.new) }
{
    let y = lowerer.whole_value(links, none, &item.value)?;
    let address = Value::FrameAddress(item.offset);
    lowerer.maker.item(place, Item::Assign(v, address))?;
    lowerer
        .maker
        .item(place, Item::Store(item.width, Operand::Variable(v), y))?;
    Ok(())
}

/// Items in order, whose addresses are all in one variable.
pub fn put_all(
    lowerer: &mut Lowerer,
    links: &Links,
    none: u32,
    place: Place,
    v: u32,
    items: &[Setting],
) -> Result<(), AllocError>
    ensures { IfOk result
        (MakesWhole
        (settings (links_in none links.now) place v
        (view_settings items.now)) lowerer.old lowerer.new) }
{
    for item in items {
        put(lowerer, links, none, place, v, item)?;
    }
    Ok(())
}
