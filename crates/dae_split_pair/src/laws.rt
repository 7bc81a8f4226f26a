// Laws of groups: they come in order, and a small budget has small groups.

ghost use Rattle.dae_split_pair.specs.Laws.{PairsAreOrdered, SmallBudgetsSmallGroups};

/// The groups of a form's pair come in order. Where they do, and each budget of a pair has small numbers, its groups are
/// as `budget` asks.
pub fn groups_are_small()
    ensures ordered { PairsAreOrdered }
    ensures small { SmallBudgetsSmallGroups }
{}
