// Decimal numbers, each spelled in one way.
ghost use Rattle.std.specs.Prelude.{◌≡◌, ◌≤◌};
ghost use Rattle.dae_base.specs.Ones.{IsTheOne};
ghost use Rattle.dae_cli_options.specs.Spelling.{SpellsNumber};
ghost use Rattle.dae_debug_commands.specs.Commands.{SpellsPair};

use itoa::Buffer;

/// The number from the least to the most that the bytes spell.
pub fn number(bytes: &[u8], least: u64, most: u64) -> Option<u64>
    ensures { IsTheOne (SpellsNumber least most bytes.now) result }
{
    match std::str::from_utf8(bytes) {
        Ok(text) => number_of(text, least, most),
        Err(_) => None,
    }
}

/// The two numbers that the bytes spell, with one blank between them: the first up to its most, the second from the least to the
/// most.
pub fn pair(bytes: &[u8], most_first: u64, least: u64, most: u64) -> Option<(u64, u64)>
    ensures { IsTheOne (SpellsPair most_first least most bytes.now) result }
{
    match std::str::from_utf8(bytes) {
        Ok(text) => pair_of(text, most_first, least, most),
        Err(_) => None,
    }
}

fn pair_of(text: &str, most_first: u64, least: u64, most: u64) -> Option<(u64, u64)>
    ensures { IsTheOne (SpellsPair most_first least most text.now) result }
{
    let (first, second) = text.split_once(' ')?;
    let first = number_of(first, 0, most_first)?;
    let second = number_of(second, least, most)?;
    Some((first, second))
}

fn number_of(text: &str, least: u64, most: u64) -> Option<u64>
    ensures { IsTheOne (SpellsNumber least most text.now) result }
{
    let number = any_number(text)?;
    if least <= number && number <= most {
        Some(number)
    } else {
        None
    }
}

fn any_number(text: &str) -> Option<u64>
    ensures { IsTheOne (SpellsNumber 0 18446744073709551615 text.now) result }
{
    let number = text.parse::<u64>().ok()?;
    let mut buffer = Buffer::new();
    if buffer.format(number) == text {
        Some(number)
    } else {
        None
    }
}
