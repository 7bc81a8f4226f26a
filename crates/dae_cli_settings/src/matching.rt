// What clap reads in words.
ghost use Rattle.std.specs.Prelude.{◌≡◌, ℕ, List, IfErr, IfOk, codes, map, string_bytes, true};
ghost use Rattle.std.specs.List.{list_all};
ghost use Rattle.clap.specs.Simple.{app_of};
ghost use Rattle.clap.specs.Values.{kind_of};
ghost use Rattle.clap.specs.declared.error.kind.ErrorKind.TheVariants.{OutOfMemory};
ghost use Rattle.dae_cli_settings.specs.Commands.{app_of_names};
ghost use Rattle.dae_cli_settings.specs.Settings.{AreParts, OptionSetting, given, is_name, option_in};

use clap::{Arg, ArgMatches, Command, Error};
use std::alloc::{AllocError, Global};

/// What words that are settings of options with these names, and then files, give to each option.
///
/// # Errors
///
/// Memory was wanting, and nothing else.
pub fn matches_of<'w>(
    alloc: Global,
    names: &[&'static str],
    words: &'w [String],
) -> Result<ArgMatches<'w>, Error>
    requires names { list_all is_name (map (λ n. n.now) names.now) ≡ true }
    requires parts { (ss : List OptionSetting) × (files : List (List ℕ))
        × AreParts (map (λ n. n.now) names.now) (map string_bytes words.now) ss files }
    ensures options { IfOk result (λ m. (ss : List OptionSetting) (files : List (List ℕ))
        → AreParts (map (λ n. n.now) names.entry.now) (map string_bytes words.entry.now) ss files
        → option_in m ≡ given ss) }
    ensures err { IfErr result (λ e. kind_of e ≡ OutOfMemory) }
{
    let command = command_with(alloc, names)?;
    command.try_get_matches_from(words)
}

// The command that reads options of these names, each with its value in one word, and then files.
fn command_with<'a>(alloc: Global, names: &[&'static str]) -> Result<Command<'a>, AllocError>
    ensures { IfOk result (λ c. app_of c
        ≡ app_of_names (codes "job") (map (λ n. n.now) names.entry.now)) }
{
    let mut command = Command::new(alloc, "job")
        .no_binary_name(true)
        .disable_help_flag(true)
        .disable_version_flag(true);
    for name in names {
        command = command.arg(Arg::new(alloc, name).long(name))?;
    }
    command.arg(Arg::new(alloc, "files").num_args(1..))
}
