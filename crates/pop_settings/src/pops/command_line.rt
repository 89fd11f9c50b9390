//! The command line `pops [--check] [--no-board] [FILE]`.
ghost use Rattle.std.specs.Prelude.{◌≡◌, ◌≢◌, IfErr, IfOk, [], true, map};
ghost use Rattle.clap.specs.Values.{kind_of};
ghost use Rattle.clap.specs.Walk.{rows_of};
ghost use Rattle.clap.specs.Matches.{found_of};
ghost use Rattle.clap.specs.Simple.{matches_of};
ghost use Rattle.clap.specs.Takes.{takes};
ghost use Rattle.clap.specs.Kinds.{FailsBy};
ghost use Rattle.pop_settings.specs.pops.CommandLine.{command, refusals, IsChosen, IsMemoryIfTaken, IsSettings, IsUsageIfRefused};

use crate::arg_fault::{ArgFault, fault_of_error};
use crate::commands::{file_of, is_set, with_flag, with_value};
use clap::error::ErrorKind;
use clap::{ArgMatches, Command, Error};
use run_settings::Settings;
use std::alloc::Global;

/// Returns the settings of a command line. Its first word is the program's name.
///
/// # Errors
///
/// `Usage` if clap refuses the words: an unknown option, an option twice, a second FILE, `--help`. `Memory` if an
/// allocation fails, whatever the words.
pub fn settings(alloc: Global, words: &[&str]) -> Result<Settings, ArgFault>
    ensures chosen { IfOk result (IsSettings (map (λ s. s.now) words.now)) }
    ensures memory { IfErr result (IsMemoryIfTaken (map (λ s. s.now) words.now)) }
    ensures taken { IfOk result (λ s. refusals (map (λ s. s.now) words.now) ≡ []) }
    ensures usage { IfErr result (IsUsageIfRefused (map (λ s. s.now) words.now)) }
{
    match arg_matches(alloc, words) {
        Ok(matches) => settings_of(alloc, &matches),
        Err(error) => Err(fault_of_error(&error)),
    }
}

// Returns the settings that clap's matches choose. Fails only with `Memory`.
fn settings_of(alloc: Global, matches: &ArgMatches<'_>) -> Result<Settings, ArgFault>
    ensures chosen { IfOk result (IsChosen (rows_of (found_of matches.now))) }
    ensures refused { IfErr result (λ fault. fault ≡ ArgFault.Memory) }
{
    Ok(Settings {
        file: file_of(alloc, matches)?,
        check: is_set(matches, "check"),
        no_board: is_set(matches, "no-board"),
    })
}

// Returns clap's matches of the words.
fn arg_matches<'a>(alloc: Global, words: &'a [&'a str]) -> Result<ArgMatches<'a>, Error>
    ensures rows { IfOk result (λ m. rows_of (found_of m)
        ≡ matches_of command (map (λ s. s.now) words.now)) }
    ensures memory { IfErr result (λ e. takes command (map (λ s. s.now) words.now) ≡ true
        → kind_of e ≡ ErrorKind.OutOfMemory) }
    ensures kinds { FailsBy (refusals (map (λ s. s.now) words.now)) result }
{
    let command = Command::new(alloc, "pops");
    let command = with_flag(Ok(command), alloc, "check");
    let command = with_flag(command, alloc, "no-board");
    let command = with_value(command, alloc, "file")?;
    command.try_get_matches_from(words)
}
