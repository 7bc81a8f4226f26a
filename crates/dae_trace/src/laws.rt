// The laws of traces.
ghost use Rattle.std.specs.Prelude.{◌≡◌, ◌<◌, ◌^◌, ℕ, List, Some, length};
ghost use Rattle.std.specs.List.{concat};
ghost use Rattle.dae_base.specs.declared.Depths.{Depths};
ghost use Rattle.dae_image.specs.declared.Image.{Image};
ghost use Rattle.dae_machine.specs.declared.Pick.{Pick};
ghost use Rattle.dae_machine.specs.Machine.{Setup, State, Runs, step};
ghost use Rattle.dae_machine.specs.Opened.{opened, setup_of};
ghost use Rattle.dae_machine.specs.Schedules.{scheduled};
ghost use Rattle.dae_trace.specs.Lines.{Names, line};
ghost use Rattle.dae_trace.specs.Traces.{FailsOf, IsTrace, IsTraceOf, lines};

/// The line of each step of a run names its pick, and no text names two.
pub fn lines_name_their_picks()
    ensures named { (image : Image) (d : Depths) (ps : List Pick) (s t : State) (p : Pick)
        → Runs (setup_of image d) (opened image) ps s → length ps < 2 ^ 40
        → step (setup_of image d) s p ≡ Some t → Names (line s p) p }
    ensures one { (text : List ℕ) (p q : Pick) → Names text p → Names text q → p ≡ q }
{}

/// What is a trace has no fault: bytes of which some line isn't that of an enabled pick are no trace.
pub fn traces_have_no_fault()
    ensures { (i : Image) (d : Depths) (bytes text : List ℕ) (n : ℕ) (t : State)
        → length bytes < 2 ^ 40 → FailsOf i d bytes n text → ¬ (IsTraceOf i d bytes t) }
{}

/// The same bytes are the trace of one run, which leads to one state.
pub fn traces_tell_one_run()
    ensures picks { (i : Image) (d : Depths) (bytes : List ℕ) (t u : State)
        → length bytes < 2 ^ 40 → (x : IsTraceOf i d bytes t) → (y : IsTraceOf i d bytes u)
        → x.picks ≡ y.picks }
    ensures state { (i : Image) (d : Depths) (bytes : List ℕ) (t u : State)
        → length bytes < 2 ^ 40 → IsTraceOf i d bytes t → IsTraceOf i d bytes u → t ≡ u }
{}

/// What the turns of a schedule come to, line by line, is a trace.
pub fn turns_make_a_trace()
    ensures { (setup : Setup) (s t : State) (words : ℕ → ℕ) (k : ℕ)
        → Runs setup s (scheduled setup s words k) t
        → IsTrace setup s (concat (lines setup s (scheduled setup s words k))) t }
{}
