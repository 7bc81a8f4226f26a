// Laws of what the plans of files come to, above the rules of types. Each is the contract of a function that does nothing.
#![tactic(auto)]

ghost use Rattle.dae_void_laws.specs.Tested.{BodiesTestValues};

/// No statement of a function that a file defines tests the value of a call of exit or abort.
pub fn bodies_test_values()
    ensures { BodiesTestValues }
{}
