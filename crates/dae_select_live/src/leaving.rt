// Lists that leave the loop that they stand in.

ghost use Rattle.std.specs.Prelude.{◌≡◌};
ghost use Rattle.dae_ir.specs.Streams.{actions_of};
ghost use Rattle.dae_select_walks.specs.Facts.{only_leaves};

use dae_ir::{Action, Step};

/// Whether a list only leaves the loop.
pub fn only_leaves(steps: &[Step]) -> bool
    ensures { result ≡ only_leaves (actions_of steps.now) }
{
    steps.len() == 1 && matches!(&steps[0], Step::Act(_, Action::Break))
}
