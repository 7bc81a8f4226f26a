// What is proved of the forms of programs in memory.

ghost use Rattle.dae_lower_formed.specs.Code.{CodeWithin};
ghost use Rattle.dae_lower_formed.specs.Formed.{FormsName, FormsScoped, FormsSetFirst, MadeSetFirst};
ghost use Rattle.dae_lower_formed.specs.Order.{FormsDoPrograms, LoweredDoPrograms};
ghost use Rattle.dae_lower_formed.specs.Sizes.{FormsSmall, VariablesWithin};

/// The form of a lawful program is well made: each variable, function and loop that it names is there, its constants are words,
/// a call gives as many arguments as are taken, no code falls off its end, and main has no parameters and never returns.
pub fn forms_scoped()
    ensures { FormsScoped }
{
    dae_lower::forms_close();
}

/// The form of a lawful program's function names variables below their number, and words.
pub fn forms_name()
    ensures { FormsName }
{}

/// Each variable that lowering makes is set before it is read, whichever way the code takes.
pub fn made_set_first()
    ensures { MadeSetFirst }
{}

/// The form of a lawful program sets each variable before it reads it.
pub fn forms_set_first()
    ensures { FormsSetFirst }
{}

/// The form of a lawful program ends or traps exactly where the program does, with the same output, memory, reads, writes and
/// status, and goes on exactly where it does. For every bound on the turns of loops the form has printed, under some bound, at
/// least what the program has; under every bound it has printed a front of what the program has under some. It never goes astray.
pub fn forms_do_programs()
    ensures { FormsDoPrograms }
{
    dae_lower::programs_kept();
    dae_ir::more_turns();
}

/// The form of a program is small: each function has its own variables and at most 3 more for each node of its tree, and at most
/// 10 items of code for each node.
pub fn forms_small()
    ensures { FormsSmall }
{}

/// The form of a function has its own variables and at most those that are counted of its tree, node by node.
pub fn variables_within()
    ensures { VariablesWithin }
{}

/// The form of a function weighs at most what is counted of its tree, node by node.
pub fn code_within()
    ensures { CodeWithin }
{}

/// The same of a form in memory that is a program's, with a limit of at least one call: it does what the program does.
pub fn lowered_do_programs()
    ensures { LoweredDoPrograms }
{
    forms_scoped();
    forms_do_programs();
}
