// The budget of a pair.

ghost use Rattle.dae_ir.specs.Budgets.{IsBudgetOf};
ghost use Rattle.dae_split_pair.specs.Tallies.{HasSmallGroups};

use crate::kinds::{Counted, Wanted};
use crate::tally::most_of_all;
use crate::uses::stands;
use dae_base::Depths;
use dae_ir::Pair;

/// How many items each queue must hold for a pair. The groups of the pair come in order, and each has fewer than 65,536
/// loads for E and copies.
pub fn budget(pair: &Pair) -> Depths
    requires { HasSmallGroups pair.now }
    ensures { IsBudgetOf pair.now result }
{
    let a = pair.a.functions.as_slice();
    let e = pair.e.functions.as_slice();
    Depths {
        ld: most_of_all(Counted::Loads, a) as u16,
        al: stands(Wanted::OwnLoad, a),
        sa: stands(Wanted::StoreAddress, a),
        sd: stands(Wanted::StoreDatum, e),
        ab: stands(Wanted::Message, a),
        eb: stands(Wanted::Message, e),
        cq: most_of_all(Counted::Copies, a) as u16,
    }
}
