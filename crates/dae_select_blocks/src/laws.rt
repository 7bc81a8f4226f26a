// The laws of blocks: they do what the stream does, and all of them have words.

ghost use Rattle.dae_select_blocks.specs.Laws.{CodeBegins, CodeDoes, CodeInRange, StartInRange};

/// Where the code of a function of a stream stands, it does the function's actions: from each processor that agrees with a
/// moment before an action there is a walk, with just the action's accesses, to one that agrees with the moment after it.
pub fn code_does()
    ensures { CodeDoes }
{}

/// Where the start code stands at word 0, the opened processor comes to where main's actions begin, and agrees with that
/// moment.
pub fn code_begins()
    ensures { CodeBegins }
{}

/// The code of each function, and the start code with what main returns to, are made of instructions that have words.
pub fn code_is_in_range()
    ensures function { CodeInRange }
    ensures start { StartInRange }
{}
