// What is proved of the forms of programs: the contracts of functions that do nothing but call others like them.

ghost use Rattle.dae_lower.specs.Keeping.{FormKeeps, FormsClose, FormsNeverStray, MeaningKept, ProgramsKept};

/// The form of a program ends as the program does, with the same output, memory, reads and writes, for every large bound on
/// the turns of loops; or both go on. Its items and loads together are at most 9 for each unit of work.
pub fn form_keeps()
    ensures { FormKeeps }
{}

/// Where a program ends or traps under some bound, its form does so alike under some bound. Where a form ends or traps under
/// a large bound, the program does so alike under that bound. Under each large bound the form has printed a front of what the
/// program has, and under some bound at least as much.
pub fn meaning_kept()
    ensures { MeaningKept }
{
    dae_program::turns_in_order();
}

/// The form of a program whose objects by name lie in memory goes astray under no bound.
pub fn forms_never_stray()
    ensures { FormsNeverStray }
{
    dae_program::named_never_stray();
    dae_ir::more_turns();
}

/// No code of a form falls off its end.
pub fn forms_close()
    ensures { FormsClose }
{}

/// The form of a program in memory keeps its meaning, whatever the limit on calls, and goes astray under no bound.
pub fn programs_kept()
    ensures { ProgramsKept }
{
    dae_program::lawful_keep_rules();
    meaning_kept();
    forms_never_stray();
}
