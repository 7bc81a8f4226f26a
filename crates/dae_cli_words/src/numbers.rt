// Values of options that texts spell, each in one way.
ghost use Rattle.std.specs.Prelude.{◌≡◌};
ghost use Rattle.dae_machine.specs.declared.Schedule.TheVariants.{Seed};
ghost use Rattle.dae_base.specs.Ones.{IsTheOne};
ghost use Rattle.dae_cli_options.specs.Spelling.{SpellsNumber};
ghost use Rattle.dae_cli_words.specs.Values.{SpellsMemory, SpellsSchedule, SpellsShown};

use dae_cli_options::Shown;
use dae_machine::Schedule;
use itoa::Buffer;

/// The schedule that a text spells.
pub fn schedule_of(value: &str) -> Option<Schedule>
    ensures { IsTheOne (SpellsSchedule value.now) result }
{
    match value {
        "round" => Some(Schedule::Round),
        "a" => Some(Schedule::A),
        "e" => Some(Schedule::E),
        "fill" => Some(Schedule::Fill),
        "drain" => Some(Schedule::Drain),
        _ => Some(Schedule::Seed(seed_of(value)?)),
    }
}

fn seed_of(value: &str) -> Option<u32>
    ensures { IsTheOne (λ n. SpellsSchedule value.now (Seed n)) result }
{
    let (kind, seed) = value.split_once(':')?;
    if kind == "seed" {
        Some(number(seed, 0, 4_294_967_295)? as u32)
    } else {
        None
    }
}

/// The size of a memory, which is a multiple of 16.
pub fn memory_of(value: &str) -> Option<u32>
    ensures { IsTheOne (SpellsMemory value.now) result }
{
    let memory = number(value, 64, 67_108_864)? as u32;
    if memory % 16 == 0 { Some(memory) } else { None }
}

/// The bytes that a text asks to show.
pub fn shown_of(value: &str) -> Option<Shown>
    ensures { IsTheOne (SpellsShown value.now) result }
{
    let (address, count) = value.split_once(',')?;
    let address = number(address, 0, 4_294_967_295)? as u32;
    let count = number(count, 1, 64)? as u8;
    Some(Shown::new(address, count))
}

/// The number that a text spells, from the least to the most.
pub fn number(text: &str, least: u64, most: u64) -> Option<u64>
    ensures { IsTheOne (SpellsNumber least most text.now) result }
{
    let number = any_number(text)?;
    if least <= number && number <= most {
        Some(number)
    } else {
        None
    }
}

// The number that a text spells in decimal digits.
fn any_number(text: &str) -> Option<u64>
    ensures { IsTheOne (SpellsNumber 0 18446744073709551615 text.now) result }
{
    let number = text.parse::<u64>().ok()?;
    let mut buffer = Buffer::new();
    if buffer.format(number) == text {
        Some(number)
    } else {
        None
    }
}
