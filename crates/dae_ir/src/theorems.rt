// What is proved of forms: the contracts of functions that do nothing.

ghost use Rattle.dae_ir.specs.Form.{Program};
ghost use Rattle.dae_ir.specs.Laws.{Counting, FewerLoads, GoingTakesTurns, IsWithinLoads, MemoryKept, MoreTurns};

/// More turns change no end of a form, and take back no output.
pub fn more_turns()
    ensures { (p : Program) (counted : Counting) → MoreTurns p counted }
{}

/// Where a form runs out of n turns of a loop, it has executed at least n items: so for more and more turns it executes
/// more and more.
pub fn going_takes_turns()
    ensures { (p : Program) (counted : Counting) → GoingTakesTurns p counted }
{}

/// Which loads are counted changes nothing but their number.
pub fn fewer_loads()
    ensures { (p : Program) (counted : Counting) (more : Counting) → IsWithinLoads counted more
        → FewerLoads p counted more }
{}

/// However a form ends, memory is as long as before, and holds bytes where it did.
pub fn memory_kept()
    ensures { (p : Program) (counted : Counting) → MemoryKept p counted }
{}
