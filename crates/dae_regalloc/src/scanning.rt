// The scan that gives each span a home, in the order in which spans begin.

ghost use Rattle.std.specs.Prelude.{List, ◌≡◌, ℕ, ◌<◌, ◌≤◌, ◌^◌, length, IfOk, replicate, Some};
ghost use Rattle.dae_regalloc.specs.Scan.{free_at as first_free, register_at as register_number, scan, AreClear, AreInOrder, NoSlot, depth_at, AreCovered};
ghost use Rattle.std.specs.List.{AllByRecursion, AllZip};
ghost use Rattle.dae_regalloc.specs.Given.{IsOwnHome};
ghost use Rattle.dae_ir.specs.Classes.{VariableSet};
ghost use Rattle.dae_select_walks.specs.Homes.{AreApart};

use crate::Span;
use dae_select_walks::Home;
use std::alloc::{AllocError, Global};

/// The first register that is free at a place.
fn free_at(ends: &[u64], place: u32) -> Option<usize>
    ensures found { result ≡ first_free ends.now place 0 }
    ensures inside { (i : ℕ) → result ≡ Some i → i < length ends.now }
{
    for index in 0..ends.len() {
        if ends[index] <= u64::from(place) {
            return Some(index);
        }
    }
    None
}

/// The number of the register at an index.
fn register_at(index: u8) -> u8
    requires { index < 18 }
    ensures { result ≡ register_number index }
{
    if index < 2 {
        8 + index
    } else if index < 8 {
        9 + index
    } else {
        10 + index
    }
}

fn scanned(alloc: Global, spans: &[Span]) -> Result<Vec<Home>, AllocError>
    ensures { IfOk result (λ homes. homes.items ≡ scan spans.now (replicate 18 0)) }
{
    let mut ends: Vec<u64> = vec![in alloc; 0; 18]?;
    let mut homes = Vec::new(alloc);
    for span in spans {
        match free_at(&ends, span.first) {
            Some(index) => {
                ends[index] = u64::from(span.last) + 1;
                homes.push(Home::Register(register_at(index as u8)))?;
            }
            None => homes.push(Home::Slot(span.variable))?,
        }
    }
    Ok(homes)
}

/// A home for each span: another than those of the spans that share a place with it, so that two variables that are live at
/// one place have different ones; and a register for each where at most 18 share one place.
pub fn homes_of(alloc: Global, spans: &[Span]) -> Result<Vec<Home>, AllocError>
    requires order { AreInOrder 0 spans.now }
    ensures clear { IfOk result (λ homes. AreClear spans.now homes.items) }
    ensures apart { IfOk result (λ homes. (places : List VariableSet) (home : ℕ → Home)
        → AreCovered places 0 home spans.now homes.items → AllByRecursion (AreApart home) places) }
    ensures own { IfOk result (λ homes. AllZip IsOwnHome spans.now homes.items) }
    ensures registers { IfOk result (λ homes. ((place : ℕ) → depth_at spans.now place ≤ 18)
        → NoSlot homes.items) }
{
    let homes = scanned(alloc, spans)?;
    Ok(homes)
}
