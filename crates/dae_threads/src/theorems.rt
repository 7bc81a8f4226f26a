// What is proved of threaded conditions: the contracts of functions that do nothing.

ghost use Rattle.dae_threads.specs.Forms.{FormsAreThreaded};
ghost use Rattle.dae_threads.specs.Laws.{ThreadingAddsNothing};

/// A form in which conditions are threaded does what the form does, in no more items, is as well made, and its access side loads and
/// decides no more.
pub fn forms_are_threaded()
    ensures { FormsAreThreaded }
{}

/// No function has more variables, nor larger code.
pub fn threading_adds_nothing()
    ensures { ThreadingAddsNothing }
{}
