// Words of a line: what stands before a byte, and decimal numbers.
ghost use Rattle.std.specs.Prelude.{◌≡◌};
ghost use Rattle.dae_base.specs.Ones.{IsTheOne};
ghost use Rattle.dae_certificate.specs.Lines.{SpellsWord, SpellsCounter};
ghost use Rattle.dae_certificate.specs.Cuts.{IsCut, bytes_of};

use itoa::Buffer;

/// What stands before the first such byte, and what stands behind it, or None where there is none.
#[tactic(auto, using(crate::proofs::Parts::cut_at, crate::proofs::Parts::cut_whole))]
pub fn cut(bytes: &[u8], byte: u8) -> (&[u8], Option<&[u8]>)
    ensures { IsCut byte bytes.now result.0.now (bytes_of result.1) }
{
    for (place, b) in bytes.iter().enumerate() {
        if *b == byte {
            return (&bytes[..place], Some(&bytes[place + 1..]));
        }
    }
    (bytes, None)
}

/// The number below 2^32 that the digits spell: without a sign and without zeros before it.
pub fn number(digits: &[u8]) -> Option<u32>
    ensures { IsTheOne (SpellsWord digits.now) result }
{
    match str::from_utf8(digits) {
        Ok(text) => number_of(text),
        Err(_) => None,
    }
}

/// The same of a text.
fn number_of(text: &str) -> Option<u32>
    ensures { IsTheOne (SpellsWord text.now) result }
{
    let number = text.parse::<u32>().ok()?;
    let mut buffer = Buffer::new();
    if buffer.format(number) == text {
        Some(number)
    } else {
        None
    }
}

/// The counter that a word spells, None where the side has halted; or None where it spells no counter.
#[tactic(auto, using(crate::proofs::Spellings::counter_word, crate::proofs::Spellings::no_counter))]
pub fn counter(word: &[u8]) -> Option<Option<u32>>
    ensures { IsTheOne (SpellsCounter word.now) result }
{
    if word == b"halted".as_slice() {
        Some(None)
    } else {
        Some(Some(number(word)?))
    }
}
