// Laws of compiled programs that stand above the compiler. How soon the runs of a program that goes on print what it prints:
// `GoesOnInTime`, in specs/Going.antt. Each law is the contract of a function that does nothing but call others like it.
#![tactic(auto)]

ghost use Rattle.dae_compile_laws.specs.Going.{FormsGoOnInTime, ImagesGoOnInTime};

/// Where a program goes on, an image that does its form has a run that isn't long beside the work, and has printed as much.
pub fn forms_go_on_in_time()
    ensures { FormsGoOnInTime }
{
    dae_program::lawful_keep_rules();
    dae_program::turns_in_order();
    dae_lower::form_keeps();
    dae_lower_formed::forms_scoped();
    dae_machine_rounds::order_is_a_run();
}

/// The image of accepted texts does so.
pub fn images_go_on_in_time()
    ensures { ImagesGoOnInTime }
{
    forms_go_on_in_time();
}
