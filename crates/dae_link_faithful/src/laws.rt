// What is proved of the queues that words and actions use.

ghost use Rattle.dae_link_faithful.specs.Uses.{CodeUses, StartUses, PairUses};

use dae_ir_pair::budget_covers;

/// With homes in their ranges and actions of its side, the code of a function leaves a queue alone exactly where its actions
/// do. The code that begins, and what main returns to, leave all queues alone.
pub fn code_uses()
    ensures code { CodeUses }
    ensures start { StartUses }
{}

/// A number of a pair's budget is 0 exactly where no action of either stream uses its queue.
pub fn pair_uses()
    ensures { PairUses }
{
    budget_covers();
}
