// The rounds of a pair of streams on the machine. In specs/: a stream as a machine of its own over positions, with the
// uses of queues that its moves make; what code is to do for it; and the canonical order of runs. In proofs/: each round
// of a pair lands on the machine, whose queues are empty between rounds. What the crates above need stands in
// proofs/Laws.antt.
#![tactic(auto)]

ghost use Rattle.dae_machine.specs.Machine.{Setup, State, Runs};
ghost use Rattle.dae_machine.specs.declared.Pick.{Pick};
ghost use Rattle.dae_machine_rounds.specs.Order.{InOrder};
ghost use Rattle.std.specs.Prelude.{List};

/// A list of rounds is a run.
pub fn order_is_a_run()
    ensures { (setup : Setup) (s t : State) (ps : List Pick) → InOrder setup s ps t
        → Runs setup s ps t }
{}
