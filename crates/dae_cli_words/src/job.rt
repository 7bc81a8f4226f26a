// The job that the words ask for.
ghost use Rattle.std.specs.Prelude.{◌≡◌, ℕ, List, IfOk, IfSome, map, MatchOption, option_map, string_bytes};
ghost use Rattle.clap.specs.Matches.{first_value, found_of};
ghost use Rattle.dae_cli_options.specs.Names.{AreFiles};
ghost use Rattle.dae_cli_settings.specs.Settings.{option_in};
ghost use Rattle.dae_cli_words.specs.Asked.{Asked, HasRanges, asked};
ghost use Rattle.dae_cli_words.specs.Values.{AreChosen, FindsIfAny};
ghost use Rattle.dae_cli_words.specs.Words.{AskFor, AsksFor, IsKept, SpellsJob};

use crate::command::Command;
use crate::numbers::number;
use crate::parts::{are_files, both_files, is_file_name, only_file, parted};
use crate::values::chosen_of;
use clap::ArgMatches;
use dae_cli_options::{Costs, DepthOptions, Options, RunOptions};
use dae_cli_settings::{are_settings, matches_of};
use std::alloc::{AllocError, Global};

/// What the words ask for, with its options and the names of its files: an image and then, for some, a text about it.
#[derive(Drop)]
pub enum Job<'w> {
    Run(Options, RunOptions, &'w [String]),
    Big(Options, RunOptions, u16),
    /// The name under which the image is kept stands before the files.
    Compile(Options, &'w str, &'w [String]),
    Report(Options, &'w [String]),
    Exec(RunOptions, &'w str),
    Trace(RunOptions, &'w str),
    /// The number is the most ticks.
    Time(RunOptions, Costs, u64, &'w str),
    Check(DepthOptions, &'w str, &'w str),
    Debug(DepthOptions, &'w str, &'w str),
    Guard(DepthOptions, &'w str, &'w str),
    /// The name under which the image is kept stands before the file.
    Asm(&'w str, &'w str),
    Dis(&'w str),
}

/// The job that the words after the program's name spell, or None where they spell none.
///
/// # Errors
///
/// Memory was wanting.
pub fn spelled_job(alloc: Global, words: &[String]) -> Result<Option<Job<'_>>, AllocError>
    ensures job { IfOk result (λ found. MatchOption found
        ((job : Asked) → ¬ (SpellsJob (map string_bytes words.now) job))
        (λ job. SpellsJob (map string_bytes words.now) (asked job))) }
    ensures ranges { IfOk result (λ found. IfSome found (λ job. HasRanges (asked job))) }
{
    let [word, rest @ ..] = words else {
        return Ok(None);
    };
    let Some(command) = Command::named(word.as_str()) else {
        return Ok(None);
    };
    let (settings, files) = parted(rest);
    if !are_files(files) {
        return Ok(None);
    }
    let names = command.names();
    if !are_settings(names, settings) {
        return Ok(None);
    }
    let Ok(matches) = matches_of(alloc, names, rest) else {
        return Err(AllocError);
    };
    Ok(job_of(command, &matches, files))
}

// The job of a command with what is given to its options, and files.
fn job_of<'w>(command: Command, matches: &ArgMatches<'w>, files: &'w [String]) -> Option<Job<'w>>
    requires { AreFiles (map string_bytes files.now) }
    ensures job { MatchOption result
        ((job : Asked)
        → ¬ (AskFor command (option_in matches.now) (map string_bytes files.entry.now) job))
        (λ job. AskFor command (option_in matches.now) (map string_bytes files.entry.now)
        (asked job)) }
    ensures ranges { IfSome result (λ job. HasRanges (asked job)) }
{
    let chosen = chosen_of(matches)?;
    let (compiling, running) = (chosen.compiling, chosen.running);
    match command {
        Command::Run => Some(Job::Run(compiling, running, files)),
        Command::Big => {
            let functions = number(only_file(files)?, 1, 900)? as u16;
            Some(Job::Big(compiling, running, functions))
        }
        Command::Compile => Some(Job::Compile(compiling, kept_name(matches)?, files)),
        Command::Report => Some(Job::Report(compiling, files)),
        Command::Exec => Some(Job::Exec(running, only_file(files)?)),
        Command::Trace => Some(Job::Trace(running, only_file(files)?)),
        Command::Time => {
            let image = only_file(files)?;
            Some(Job::Time(running, chosen.costs, chosen.ticks, image))
        }
        Command::Check => {
            let (image, trace) = both_files(files)?;
            Some(Job::Check(depths_in(&running), image, trace))
        }
        Command::Debug => {
            let (image, script) = both_files(files)?;
            Some(Job::Debug(depths_in(&running), image, script))
        }
        Command::Guard => {
            let (image, certificate) = both_files(files)?;
            Some(Job::Guard(depths_in(&running), image, certificate))
        }
        Command::Asm => Some(Job::Asm(kept_name(matches)?, only_file(files)?)),
        Command::Dis => Some(Job::Dis(only_file(files)?)),
    }
}

// The depths alone.
fn depths_in(options: &RunOptions) -> DepthOptions
    ensures { result ≡ options.now.depths }
{
    DepthOptions::new(options.values().depths)
}

// The name under which an image is to be kept.
fn kept_name<'w>(matches: &ArgMatches<'w>) -> Option<&'w str>
    ensures { MatchOption result
        ((to : List ℕ) → ¬ (IsKept (option_in matches.now) to))
        (λ to. IsKept (option_in matches.now) to.now) }
{
    let to = matches.get_str("to")?;
    if is_file_name(to) { Some(to) } else { None }
}
