// What the options choose, by the texts that clap found for them.
ghost use Rattle.std.specs.Prelude.{◌≡◌, codes, IfSome, option_map};
ghost use Rattle.clap.specs.Matches.{first_value, found_of};
ghost use Rattle.dae_machine.specs.declared.Schedule.TheVariants.{Round};
ghost use Rattle.dae_cli_options.specs.Options.{AreDepths};
ghost use Rattle.dae_cli_options.specs.Ranges.{IsFromTo};
ghost use Rattle.dae_cli_settings.specs.Settings.{option_in};
ghost use Rattle.dae_base.specs.Ones.{IsTheOne};
ghost use Rattle.dae_cli_words.specs.Values.{AreChosen, AreCostsOf, AreDepthsOf, FindsIfAny, IsChosen, IsCompilingOf, IsMemory, IsNumber, IsRunOf, SpellsMemory, SpellsSchedule, SpellsSomeShown};

use crate::numbers::{memory_of, number, schedule_of, shown_of};
use clap::ArgMatches;
use dae_base::Depths;
use dae_cli_options::{Costs, OptionValues, Options, RunOptions, Shown};
use dae_machine::Schedule;

/// What all options choose: how files are compiled and a machine is run, what its instructions cost, and how many ticks it
/// has. An option that isn't given has its usual value.
#[derive(Drop)]
pub struct Chosen {
    pub compiling: Options,
    pub running: RunOptions,
    pub costs: Costs,
    pub ticks: u64,
}

/// What the options choose, or None where a text that is given to one spells no value of it.
pub fn chosen_of(matches: &ArgMatches<'_>) -> Option<Chosen>
    ensures { FindsIfAny result (AreChosen (option_in matches.now)) }
{
    Some(Chosen {
        compiling: compiling_of(matches)?,
        running: run_of(matches)?,
        costs: costs_of(matches)?,
        ticks: number_in(matches, "ticks", 1, 100_000_000_000, 10_000_000)?,
    })
}

fn compiling_of(matches: &ArgMatches<'_>) -> Option<Options>
    ensures { FindsIfAny result (IsCompilingOf (option_in matches.now)) }
{
    let memory = memory_in(matches)?;
    let calls = number_in(matches, "calls", 1, 4_096, 1_000)? as u16;
    let cap = number_in(matches, "cap", 1, 64, 4)? as u8;
    Some(Options { memory, calls, cap })
}

fn run_of(matches: &ArgMatches<'_>) -> Option<RunOptions>
    ensures { FindsIfAny result (IsRunOf (option_in matches.now)) }
{
    let values = OptionValues {
        depths: depths_of(matches)?,
        schedule: schedule_in(matches)?,
        steps: number_in(matches, "steps", 1, 1_000_000_000_000, 10_000_000)?,
        show: shown_in(matches)?,
    };
    Some(RunOptions::new(values))
}

fn depths_of(matches: &ArgMatches<'_>) -> Option<Depths>
    ensures depths { FindsIfAny result (AreDepthsOf (option_in matches.now)) }
    ensures ranges { IfSome result AreDepths }
{
    Some(Depths {
        ld: depth_in(matches, "ld")?,
        al: depth_in(matches, "al")?,
        sa: depth_in(matches, "sa")?,
        sd: depth_in(matches, "sd")?,
        ab: depth_in(matches, "ab")?,
        eb: depth_in(matches, "eb")?,
        cq: depth_in(matches, "cq")?,
    })
}

fn costs_of(matches: &ArgMatches<'_>) -> Option<Costs>
    ensures { FindsIfAny result (AreCostsOf (option_in matches.now)) }
{
    let load = number_in(matches, "load", 1, 1_000, 8)? as u16;
    let mul = number_in(matches, "mul", 1, 1_000, 3)? as u16;
    let div = number_in(matches, "div", 1, 1_000, 20)? as u16;
    Some(Costs { load, mul, div })
}

fn depth_in(matches: &ArgMatches<'_>, name: &str) -> Option<u16>
    ensures choice { IsTheOne
        (IsNumber 1 4096 8 (first_value (found_of matches.now) name.now)) result }
    ensures range { IfSome result (IsFromTo 1 4096) }
{
    let depth = number_in(matches, name, 1, 4_096, 8)? as u16;
    Some(depth)
}

fn memory_in(matches: &ArgMatches<'_>) -> Option<u32>
    ensures choice { IsTheOne
        (IsChosen SpellsMemory 1048576 (first_value (found_of matches.now) (codes "memory")))
        result }
    ensures range { IfSome result IsMemory }
{
    match matches.get_str("memory") {
        Some(text) => memory_of(text),
        None => Some(1_048_576),
    }
}

fn schedule_in(matches: &ArgMatches<'_>) -> Option<Schedule>
    ensures { IsTheOne
        (IsChosen SpellsSchedule Round (first_value (found_of matches.now) (codes "schedule")))
        result }
{
    match matches.get_str("schedule") {
        Some(text) => schedule_of(text),
        None => Some(Schedule::Round),
    }
}

fn shown_in(matches: &ArgMatches<'_>) -> Option<Option<Shown>>
    ensures { FindsIfAny result
        (IsChosen SpellsSomeShown None (first_value (found_of matches.now) (codes "show"))) }
{
    match matches.get_str("show") {
        Some(text) => Some(Some(shown_of(text)?)),
        None => Some(None),
    }
}

// The number that is given to an option, from the least to the most, or the usual one where none is given.
fn number_in(matches: &ArgMatches<'_>, name: &str, least: u64, most: u64, usual: u64) -> Option<u64>
    requires { IsFromTo least most usual }
    ensures choice { IsTheOne
        (IsNumber least most usual (first_value (found_of matches.now) name.now)) result }
    ensures range { IfSome result (IsFromTo least most) }
{
    match matches.get_str(name) {
        Some(text) => number(text, least, most),
        None => Some(usual),
    }
}
