// What lowering may give the access side to load and to decide. Each law is the contract of a function that does nothing.
#![tactic(auto)]

ghost use Rattle.dae_lower_bounds.specs.Bounds.{SetsBounded};

/// In the form of a program some sets hold all variables that lead to addresses: in each function at most as many loads go into
/// them as it has wanted expressions that designate a scalar in memory, and at most as many conditions are of their variables
/// alone as it has initialised aggregates, tests that are open to the access side, and tests of a call of exit or abort, which
/// no C program has.
pub fn sets_bounded()
    ensures { SetsBounded }
{}
