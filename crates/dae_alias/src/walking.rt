// The walk along a stretch.

ghost use Rattle.std.specs.Prelude.{◌≡◌, ◌+◌, ◌^◌, ◌<◌, [], ◌∷◌, false, Some, None, OnOk, IfOk};
ghost use Rattle.dae_alias.specs.Meeting.{Meets, known_in, held_by};
ghost use Rattle.dae_alias.specs.Stretches as spec;
ghost use Rattle.dae_alias.specs.Reuse.{is_load};
ghost use Rattle.dae_alias.specs.Turning.{Passes};

use crate::addresses::SymAddr;
use crate::held::{Held, find, keep_apart};
use crate::stretch::{Latest, assign, new_base, set, symbol};
use dae_base::LoadKind;
use dae_ir::{Item, Operand};
use indexmap::IndexMap;
use std::alloc::{AllocError, Global};

/// What was set and loaded in the stretch so far, the newest loads first, and how many loads the code had so far.
#[derive(Drop)]
pub struct Walk {
    pub sets: IndexMap<u32, Latest>,
    pub held: Vec<Held>,
    pub loads: usize,
}

/// A stretch begins, where so many loads stand before it.
#[tactic(auto, using(crate::proofs::Sets::known_empty))]
pub fn start(alloc: Global, loads: usize) -> Walk
    ensures known { known_in result ≡ spec.nothing }
    ensures held { held_by result ≡ [] }
    ensures loads { result.loads ≡ loads }
{
    Walk {
        sets: IndexMap::new(alloc),
        held: Vec::new(alloc),
        loads,
    }
}

// One more held, before the others.
fn hold(alloc: Global, held: &mut Vec<Held>, x: Held) -> Result<(), AllocError>
    ensures { OnOk result (held.new.items ≡ x ∷ held.old.items) }
{
    let mut first = Vec::new(alloc);
    first.push(x)?;
    first.append(held)?;
    *held = first;
    Ok(())
}

// A load that repeats one that is held.
fn meet_again(walk: &mut Walk, variable: u32, value: SymAddr) -> Result<(), AllocError>
    requires times { (known_in walk.old).times variable + 1 < 2 ^ 64 }
    requires loads { walk.old.loads + 1 < 2 ^ 64 }
    ensures known { OnOk result
        (known_in walk.new ≡ spec.set (known_in walk.old) variable (Some value)) }
    ensures held { OnOk result (held_by walk.new ≡ held_by walk.old) }
    ensures loads { OnOk result (walk.new.loads ≡ walk.old.loads + 1) }
{
    set(&mut walk.sets, variable, Some(value))?;
    walk.loads += 1;
    Ok(())
}

// A load that repeats none.
fn meet_first(
    alloc: Global,
    walk: &mut Walk,
    variable: u32,
    kind: LoadKind,
    at: SymAddr,
) -> Result<(), AllocError>
    requires times { (known_in walk.old).times variable + 1 < 2 ^ 64 }
    requires loads { walk.old.loads + 1 < 2 ^ 64 }
    ensures known { OnOk result
        (known_in walk.new ≡ spec.set (known_in walk.old) variable None) }
    ensures held { OnOk result
        (held_by walk.new
        ≡ record {
          kind = kind;
          at = at;
          value = spec.renewed (known_in walk.old) variable;
          number = walk.old.loads;
        }
        ∷ held_by walk.old) }
    ensures loads { OnOk result (walk.new.loads ≡ walk.old.loads + 1) }
{
    let value = new_base(&walk.sets, variable);
    let number = walk.loads;
    hold(
        alloc,
        &mut walk.held,
        Held {
            kind,
            at,
            value,
            number,
        },
    )?;
    set(&mut walk.sets, variable, Some(value))?;
    walk.loads = number + 1;
    Ok(())
}

/// A load is met. The answer is the earlier load that it repeats.
pub fn meet(
    alloc: Global,
    walk: &mut Walk,
    variable: u32,
    kind: LoadKind,
    x: Operand,
) -> Result<Option<Held>, AllocError>
    requires times { (known_in walk.old).times variable + 1 < 2 ^ 64 }
    requires loads { walk.old.loads + 1 < 2 ^ 64 }
    ensures { IfOk result (Meets variable kind x walk.old walk.new) }
{
    let at = symbol(&walk.sets, x);
    let given = find(&walk.held, kind, at);
    match given {
        Some(earlier) => meet_again(walk, variable, earlier.value)?,
        None => meet_first(alloc, walk, variable, kind, at)?,
    }
    Ok(given)
}

/// A stretch has ended.
#[tactic(auto, using(crate::proofs::Sets::known_empty))]
pub fn begin_again(walk: &mut Walk)
    ensures known { known_in walk.new ≡ spec.nothing }
    ensures held { held_by walk.new ≡ [] }
    ensures loads { walk.new.loads ≡ walk.old.loads }
{
    walk.sets.clear();
    walk.held.clear();
}

/// An item that is no load is met.
pub fn pass(alloc: Global, walk: &mut Walk, item: &Item) -> Result<(), AllocError>
    requires load { is_load item.now ≡ false }
    requires seldom { spec.IsSetSeldom (known_in walk.old) }
    ensures { OnOk result (Passes item.now walk.old walk.new) }
{
    match item {
        Item::Assign(variable, x) => {
            assign(&mut walk.sets, *variable, *x)?;
        }
        Item::Store(width, x, _) => {
            let at = symbol(&walk.sets, *x);
            walk.held = keep_apart(alloc, &walk.held, at, *width)?;
        }
        Item::Expect(_) => {}
        _ => begin_again(walk),
    }
    Ok(())
}
