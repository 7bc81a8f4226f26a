// The split of a form, with the budget of its pair.

ghost use Rattle.std.specs.Prelude.{◌≤◌, IfOk};
ghost use Rattle.dae_ir.specs.Scope.{IsScoped};
ghost use Rattle.dae_split_pair.specs.Decoupled.{IsDecoupled};

use crate::budget;
use dae_base::{Depths, Items};
use dae_ir::{Class, Ir, Pair};
use dae_slice::classes;
use dae_split::split;
use std::alloc::{AllocError, Global};

/// The classes of a form's variables, per function and variable, its two streams, and how many items each queue between
/// them must hold.
#[derive(Drop)]
pub struct Decoupled {
    pub classes: Items<Items<Class>>,
    pub pair: Pair,
    pub budget: Depths,
}

/// Splits a form into its two streams, where a group holds at most `cap` loads for E and as many copies, from 1 to 64.
/// Memory may be wanting.
pub fn decouple(alloc: Global, ir: &Ir, cap: u8) -> Result<Decoupled, AllocError>
    requires scoped { IsScoped ir.now }
    requires some { 1 ≤ cap }
    requires few { cap ≤ 64 }
    ensures { IfOk result (λ d. IsDecoupled ir.now cap d) }
{
    let classes = classes(alloc, ir)?;
    let pair = split(alloc, ir, classes.as_slice(), cap)?;
    let budget = budget(&pair);
    Ok(Decoupled {
        classes,
        pair,
        budget,
    })
}
