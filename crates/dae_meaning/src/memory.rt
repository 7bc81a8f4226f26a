// Laws of memory: the contracts of functions that do nothing.

ghost use Rattle.std.specs.Prelude.{◌≡◌, ◌<◌, ◌^◌, ℕ, List, length};
ghost use Rattle.dae_base.specs.Words.{AreBytes, loaded, stored};
ghost use Rattle.dae_base.specs.declared.LoadKind.{LoadKind};
ghost use Rattle.dae_base.specs.declared.Width.{Width};

/// A store changes no memory's length.
pub fn memory_keeps_length()
    ensures { (width : Width) (address x : ℕ) (memory : List ℕ)
        → length (stored width address x memory) ≡ length memory }
{}

/// A memory of bytes stays one, whatever is stored.
pub fn memory_keeps_bytes()
    ensures { (width : Width) (address x : ℕ) (memory : List ℕ) → AreBytes memory
        → AreBytes (stored width address x memory) }
{}

/// What is loaded from a memory of bytes is a word.
pub fn loads_are_words()
    ensures { (kind : LoadKind) (address : ℕ) (memory : List ℕ) → AreBytes memory
        → loaded kind address memory < 2 ^ 32 }
{}
