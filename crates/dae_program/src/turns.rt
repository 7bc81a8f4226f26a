// How what a program does hangs on the bound on turns: the contracts of functions that do nothing.

ghost use Rattle.dae_program.specs.Turns.{TurnsInOrder, EndsStay, OutputGrows, GoingBefore, OneEnd};

/// More turns change no end of a call, and take back no output. What it does with n turns, and the test of the next one,
/// lies between what it does with n turns and with n + 1, each without that test.
pub fn turns_in_order()
    ensures { TurnsInOrder }
{}

/// A program that ends or traps under a bound does so under each greater one, with the same output, memory, counts and
/// status.
pub fn ends_stay()
    ensures { EndsStay }
{}

/// What a program prints under a bound is a front of what it prints under each greater one.
pub fn output_grows()
    ensures { OutputGrows }
{}

/// A program that goes on under a bound does so under each lesser one.
pub fn going_before()
    ensures { GoingBefore }
{}

/// A program has no two ends, and doesn't go on where it has one.
pub fn one_end()
    ensures { OneEnd }
{}
