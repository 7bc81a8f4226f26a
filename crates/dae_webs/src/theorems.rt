// What is proved of renaming by webs: the contracts of functions that do nothing.

ghost use Rattle.dae_webs.specs.Forms.{FormsAreRenamed};
ghost use Rattle.dae_webs.specs.Laws.{RenamingKeepsSizes};

/// A form whose variables are renamed by webs does what the form does, item by item, is as well made, and its access side need not
/// load nor decide more.
pub fn forms_are_renamed()
    ensures { FormsAreRenamed }
{}

/// Code stays as large.
pub fn renaming_keeps_sizes()
    ensures { RenamingKeepsSizes }
{}
