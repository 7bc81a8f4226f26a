// Laws of ticks.
ghost use Rattle.dae_timing.specs.Runs.{PrintIsApart, PrintIsApartOfTicks, TicksAreFew, TicksGoOn, TicksPrintOnce, TicksRun, TicksRunFromOpening};

/// The picks of ticks in a row, in their order, are a run of the machine. From a machine's opening on, it is as long as the
/// machine counts steps.
pub fn ticks_run()
    ensures run { TicksRun }
    ensures opened { TicksRunFromOpening }
{}

/// So many ticks, and so many more behind them, are ticks in a row.
pub fn ticks_go_on()
    ensures { TicksGoOn }
{}

/// From a machine's opening on there are at most as many ticks as the largest cost for each step, and once more that.
pub fn ticks_are_few()
    ensures { TicksAreFew }
{}

/// In a tick E makes at most one step, so that a tick prints at most once.
pub fn ticks_print_once()
    ensures { TicksPrintOnce }
{}

/// What was printed before changes neither a tick nor ticks in a row.
pub fn print_changes_no_tick()
    ensures tick { PrintIsApart }
    ensures ticks { PrintIsApartOfTicks }
{}
