//! The command line `pops-tries [--check] [--no-board] [--refutations N] [FILE]`.
ghost use Rattle.std.specs.Prelude.{◌≡◌, ◌≢◌, ◌≤◌, IfErr, IfOk, IfSome, [], map, option_map, true};
ghost use Rattle.clap.specs.Values.{kind_of};
ghost use Rattle.clap.specs.Walk.{rows_of};
ghost use Rattle.clap.specs.Matches.{found_of};
ghost use Rattle.clap.specs.Simple.{matches_of};
ghost use Rattle.clap.specs.Takes.{takes};
ghost use Rattle.clap.specs.Kinds.{FailsBy};
ghost use Rattle.pop_settings.specs.pops_tries.CommandLine.{command, fault_by, most_refutations, refusals, refutations_by, refutations_in, refutations_said, IsChosen, IsMemoryIfTaken, IsSettings, IsUsageIfRefused};

use crate::arg_fault::{ArgFault, fault_of_error};
use crate::commands::{file_of, is_set, text_of, with_flag, with_option, with_value};
use crate::pops_part::values::number_of;
use crate::pops_tries::chosen::Settings;
use clap::error::ErrorKind;
use clap::{ArgMatches, Command, Error};
use std::alloc::Global;

// The greatest number of refutations that the option takes (own).
const MOST_REFUTATIONS: u64 = 200;

/// Returns the settings of a command line. Its first word is the program's name.
///
/// # Errors
///
/// `Usage` if clap refuses the words or N isn't a number from 0 to 200. `Memory` if an allocation fails, whatever the
/// words.
pub fn settings(alloc: Global, words: &[&str]) -> Result<Settings, ArgFault>
    ensures chosen { IfOk result (IsSettings (map (λ s. s.now) words.now)) }
    ensures memory { IfErr result (IsMemoryIfTaken (map (λ s. s.now) words.now)) }
    ensures taken { IfOk result (λ s. refusals (map (λ s. s.now) words.now) ≡ []) }
    ensures usage { IfErr result (IsUsageIfRefused (map (λ s. s.now) words.now)) }
    ensures few { IfOk result (λ s. s.refutations ≤ most_refutations) }
{
    match arg_matches(alloc, words) {
        Ok(matches) => settings_of(alloc, &matches),
        Err(error) => Err(fault_of_error(&error)),
    }
}

// Returns the settings that clap's matches choose, `Usage` if N isn't a number from 0 to 200, or `Memory`.
fn settings_of(alloc: Global, matches: &ArgMatches<'_>) -> Result<Settings, ArgFault>
    ensures chosen { IfOk result (IsChosen (rows_of (found_of matches.now))) }
    ensures refused { IfErr result (λ fault.
        fault ≡ fault_by (refutations_by (rows_of (found_of matches.now)))) }
    ensures few { IfOk result (λ s. s.refutations ≤ most_refutations) }
{
    let Some(refutations) = refutations_or_default(text_of(matches, "refutations")) else {
        return Err(ArgFault::Usage);
    };
    Ok(Settings {
        file: file_of(alloc, matches)?,
        check: is_set(matches, "check"),
        no_board: is_set(matches, "no-board"),
        refutations,
    })
}

// Returns the greatest number of refutations of a try, by the value of `--refutations`: 1 without one.
fn refutations_or_default(said: Option<&str>) -> Option<u32>
    ensures value { result ≡ refutations_said (option_map (λ s. s.now) said.entry) }
    ensures few { IfSome result (λ most. most ≤ most_refutations) }
{
    match said {
        Some(text) => refutations_of(text.as_bytes()),
        None => Some(1),
    }
}

// Returns the number that decimal digits state, if it is at most 200.
fn refutations_of(text: &[u8]) -> Option<u32>
    ensures value { result ≡ refutations_in text.now }
    ensures few { IfSome result (λ most. most ≤ most_refutations) }
{
    match number_of(text) {
        Some(number) if number <= MOST_REFUTATIONS => Some(number as u32),
        _ => None,
    }
}

// Returns clap's matches of the words.
fn arg_matches<'a>(alloc: Global, words: &'a [&'a str]) -> Result<ArgMatches<'a>, Error>
    ensures rows { IfOk result (λ m. rows_of (found_of m)
        ≡ matches_of command (map (λ s. s.now) words.now)) }
    ensures memory { IfErr result (λ e. takes command (map (λ s. s.now) words.now) ≡ true
        → kind_of e ≡ ErrorKind.OutOfMemory) }
    ensures kinds { FailsBy (refusals (map (λ s. s.now) words.now)) result }
{
    let command = Command::new(alloc, "pops-tries");
    let command = with_flag(Ok(command), alloc, "check");
    let command = with_flag(command, alloc, "no-board");
    let command = with_option(command, alloc, "refutations");
    let command = with_value(command, alloc, "file")?;
    command.try_get_matches_from(words)
}
