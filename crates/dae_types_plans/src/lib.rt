// The plans of expressions, and of the specifiers and declarators that they hold: what is asked and what is written in going
// through each. Nothing here runs; the code of the checker stands above.
#![tactic(auto)]

ghost use Rattle.dae_types_plans.specs.Promise.{ValuesAreChecked};

/// A check of an expression answers a rule that is broken, at its place, or none is broken and what it gives is the one typed
/// value.
pub fn values_are_checked()
    ensures { ValuesAreChecked }
{}
