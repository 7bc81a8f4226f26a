// What is proved of common subexpressions: the contracts of functions that do nothing.

ghost use Rattle.dae_commons.specs.Forms.{FormsAreCommoned};
ghost use Rattle.dae_commons.specs.Laws.{CommoningKeepsCounts};

/// A form without the common subexpressions of a form ends as the form does, in the same world, and is as well made. Closed sets by
/// which variables are alike stay closed.
pub fn forms_are_commoned()
    ensures { FormsAreCommoned }
{}

/// Code stays as large.
pub fn commoning_keeps_counts()
    ensures { CommoningKeepsCounts }
{}
