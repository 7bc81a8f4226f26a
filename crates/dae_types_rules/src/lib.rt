// The rules of types: the sites where they are asked, the table that says what breaks each, and plans, which say what is
// asked and written in going through a tree. Their law: stopping at the first broken rule and listing all of them agree.
// Nothing here runs; the code of the checker stands above.
#![tactic(auto)]

ghost use Rattle.dae_types_rules.specs.Settled.{NothingIsMadeUp};
ghost use Rattle.dae_types_rules.specs.Table.{RulesAreAsked};

/// Each rule that is broken at a site is among those that a check asks there.
pub fn rules_are_asked()
    ensures { RulesAreAsked }
{}

/// Where no rule is broken, what is written is what the text says.
pub fn nothing_is_made_up()
    ensures { NothingIsMadeUp }
{}
