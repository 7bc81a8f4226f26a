// A field of bits of a word.

ghost use Rattle.std.specs.Prelude.{◌≡◌, ℕ, ◌<◌};
ghost use Rattle.dae_encode.specs.Instructions.{field};

/// The bits of a word from low on, count of them.
pub fn field(word: u32, low: u32, count: u32) -> u32
    requires low { low < 32 }
    requires count { count < 32 }
    ensures { result ≡ field low count word }
{
    (word >> low) % (1 << count)
}
