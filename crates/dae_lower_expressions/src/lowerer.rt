// What lowers the expressions of a function.

use dae_lower_maker::{Later, Maker};
use std::alloc::Global;

/// What is written, and what is still to come of the running full expression.
#[derive(Drop)]
pub struct Lowerer {
    pub alloc: Global,
    pub maker: Maker,
    pub later: Later,
}

ghost use Rattle.std.specs.Prelude.{◌≡◌};
ghost use Rattle.dae_ir.specs.Code.{Done};
ghost use Rattle.dae_lower_maker.specs.Counting.{never};
ghost use Rattle.dae_lower_expressions.specs.Lowered.{state_of};

impl Lowerer {
    /// Nothing is written, in a function with so many variables.
    pub fn new(alloc: Global, variables: u32) -> Lowerer
        ensures { state_of result
            ≡ record { written = record { code = Done; next = variables }; later = never } }
    {
        Lowerer {
            alloc,
            maker: Maker::new(alloc, variables),
            later: Later::new(alloc),
        }
    }
}
