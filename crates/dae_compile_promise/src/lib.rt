// The promise on a compiled program, from its meaning to every run of its image: `KeepsMeaning`, in specs/Promises.antt. Here
// the chain is put together: the program's form does what the program does, a later form of it does what the form does, and the
// image does that. The theorem is the contract of a function that does nothing but call others like it.
#![tactic(auto)]

ghost use Rattle.dae_compile_promise.specs.Promises.{ImageKeepsMeaning, LaterFormsDoPrograms};

/// A later form of a program ends or traps exactly where the program does, with the same output, memory, writes and status and
/// no more loads than reads, and goes on exactly where it does.
pub fn later_forms_do_programs()
    ensures { LaterFormsDoPrograms }
{
    dae_program::lawful_keep_rules();
    dae_lower_formed::lowered_do_programs();
}

/// An image that holds a program's data and does a later form of the program keeps its meaning, in every order of steps.
pub fn image_keeps_meaning()
    ensures { ImageKeepsMeaning }
{
    later_forms_do_programs();
    dae_program::never_strays();
    dae_machine_rounds::order_is_a_run();
}
