// Numbers that are words: they stop at the greatest one.

ghost use Rattle.std.specs.Prelude.{◌≡◌, suc};
ghost use Rattle.dae_types_kinds.specs.Types.{word_for};

/// A number as a word; the greatest word where it is beyond.
pub fn word_for(number: usize) -> u32
    ensures { result ≡ word_for number }
{
    match u32::try_from(number) {
        Ok(word) => word,
        Err(_) => u32::MAX,
    }
}

/// The word behind a number, as far as words go.
pub fn word_behind(number: u32) -> u32
    ensures { result ≡ word_for (suc number) }
{
    number.saturating_add(1)
}
