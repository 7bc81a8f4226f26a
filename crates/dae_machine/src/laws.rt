// The laws of runs that crates above rely on, as functions without parameters.

ghost use Rattle.std.specs.Prelude.{◌⊎◌, ◌≡◌, ◌≢◌, ℕ, ◌+◌, List, length, Some};
ghost use Rattle.std.specs.List.{AllByRecursion};
ghost use Rattle.dae_base.specs.Budgets.{Reaches};
ghost use Rattle.dae_base.specs.declared.Depths.{Depths};
ghost use Rattle.dae_base.specs.declared.Side.{Side};
ghost use Rattle.dae_base.specs.declared.Side.TheVariants.{A, E};
ghost use Rattle.dae_core.specs.Queues.{Queues};
ghost use Rattle.dae_encode.specs.Processor.{Processor};
ghost use Rattle.dae_image.specs.declared.Image.{Image};
ghost use Rattle.dae_machine.specs.declared.Pick.{Pick};
ghost use Rattle.dae_machine.specs.Ends.{CanOnlyEnd, GoesOn, HasRuns};
ghost use Rattle.dae_machine.specs.Machine.{Setup, State, IsCounted, IsFinal, IsQuiet, IsStuck, Runs, step};
ghost use Rattle.dae_machine.specs.Opened.{opened};
ghost use Rattle.dae_machine.specs.Printing.{behind};
ghost use Rattle.dae_machine.specs.Runs.{Joined};
ghost use Rattle.dae_machine.specs.Schedules.{scheduled};
ghost use Rattle.dae_machine.specs.Turns.{pick_of};
ghost use Rattle.dae_machine.specs.Uses.{PushesWord, Use, texts};
ghost use Rattle.dae_machine.specs.Walks.{Grants, RanA, RanE, Walks, WordsWait};

/// Two different picks that are enabled can follow each other in both orders, and both orders give one state.
pub fn steps_commute()
    ensures { (setup : Setup) (s t u : State) (p q : Pick) → IsCounted s → p ≢ q
        → step setup s p ≡ Some t → step setup s q ≡ Some u
        → (v : State) × (step setup t q ≡ Some v) × (step setup u p ≡ Some v) }
{}

/// The machine begins with its numbers in order, and each step keeps them so.
pub fn numbers_stay()
    ensures opened { (image : Image) → IsCounted (opened image) }
    ensures kept { (setup : Setup) (s t : State) (p : Pick) → IsCounted s
        → step setup s p ≡ Some t → IsCounted t }
{}

/// Any two runs from one state can be lengthened to meet, with each pick equally often in both.
pub fn runs_meet()
    ensures { (setup : Setup) (s t u : State) (ps qs : List Pick) → IsCounted s
        → Runs setup s ps t → Runs setup s qs u → Joined (step setup) ps t qs u }
{}

/// Where one run ends in a state without enabled picks, every run is at most as long and can be lengthened to that state.
pub fn quiet_is_last()
    ensures { (setup : Setup) (s t u : State) (ps qs : List Pick) → IsCounted s
        → Runs setup s ps t → IsQuiet setup t → Runs setup s qs u
        → (rest : List Pick) × Runs setup u rest t × (length qs + length rest ≡ length ps) }
{}

/// One run to a final state fixes the end, the output, the memory and the length of every run, and none gets stuck.
pub fn one_run_tells_all()
    ensures { (setup : Setup) (s t : State) (ps : List Pick) → IsCounted s
        → Runs setup s ps t → IsFinal setup t → CanOnlyEnd setup s t (length ps) }
{}

/// Where for each bound some run prints what is due by then, after so many steps of E, or after so many of A while E waits
/// for A's message, every run goes on and prints what is due.
pub fn some_runs_tell_all()
    ensures { (setup : Setup) (s : State) (outputs : ℕ → List ℕ) → IsCounted s
        → ((n : ℕ) → HasRuns setup s outputs n) → GoesOn setup s outputs }
{}

/// What runs with some depths runs so, through the same states, with deeper queues.
pub fn deeper_runs_too()
    ensures { (setup : Setup) (d' : Depths) (s t : State) (ps : List Pick)
        → Reaches d' setup.depths → Runs setup s ps t
        → Runs (record setup { depths = d' }) s ps t }
{}

/// What was printed before changes neither a step nor a run, nor the pick of a word, nor how a machine rests.
pub fn printing_is_apart()
    ensures step { (setup : Setup) (s t : State) (p : Pick) (xs : List ℕ)
        → step setup s p ≡ Some t → step setup (behind xs s) p ≡ Some (behind xs t) }
    ensures run { (setup : Setup) (s t : State) (ps : List Pick) (xs : List ℕ)
        → Runs setup s ps t → Runs setup (behind xs s) ps (behind xs t) }
    ensures pick { (setup : Setup) (s : State) (word : ℕ) (xs : List ℕ)
        → pick_of setup (behind xs s) word ≡ pick_of setup s word }
    ensures ends { (setup : Setup) (s : State) (xs : List ℕ)
        → IsFinal setup s → IsFinal setup (behind xs s) }
    ensures stuck { (setup : Setup) (s : State) (xs : List ℕ)
        → IsStuck setup s → IsStuck setup (behind xs s) }
{}

/// The turns of a schedule are a run. It is shorter than asked only where no pick is enabled any more.
pub fn schedules_run()
    ensures { (setup : Setup) (s : State) (words : ℕ → ℕ) (k : ℕ) → IsCounted s
        → (t : State) × Runs setup s (scheduled setup s words k) t
        × ((length (scheduled setup s words k) ≡ k) ⊎ IsQuiet setup t) }
{}

/// A walk of a processor whose uses the queues grant is a run of the machine; and what waits stays words where words are
/// pushed.
pub fn walks_run()
    ensures access { (setup : Setup) (s : State) (steps fills : ℕ) (uses : List Use) (p : Processor)
        (q : Queues)
        → Walks setup A s.a uses steps p
        → Grants setup.depths A s.memory fills s.queues uses q
        → RanA setup s steps fills p q }
    ensures execute { (setup : Setup) (s : State) (steps fills : ℕ) (uses : List Use)
        (p : Processor) (q : Queues)
        → Walks setup E s.e uses steps p
        → Grants setup.depths E s.memory fills s.queues uses q
        → RanE setup s steps p q (texts uses) }
    ensures words { (d : Depths) (on : Side) (memory : List ℕ) (fills : ℕ) (q last : Queues)
        (uses : List Use)
        → Grants d on memory fills q uses last
        → AllByRecursion PushesWord uses → WordsWait q → WordsWait last }
{}
