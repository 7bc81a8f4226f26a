// What is proved of invariants of loops: the contracts of functions that do nothing.

ghost use Rattle.dae_hoist.specs.Forms.{FormsAreHoisted};
ghost use Rattle.dae_hoist.specs.Laws.{HoistingKeepsSizes};

/// A form in which variables hold values for loops ends as the form does, in the same world, and is as well made. Closed sets of the
/// form have their like in it.
pub fn forms_are_hoisted()
    ensures { FormsAreHoisted }
{}

/// Code stays as large.
pub fn hoisting_keeps_sizes()
    ensures { HoistingKeepsSizes }
{}
