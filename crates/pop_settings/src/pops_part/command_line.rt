//! The command lines `pops-part --list [--depth D] [FILE]`,
//! `pops-part --item I --phase set|play --part A[..B] [--depth D] [FILE]` and `pops-part --faults [FILE]`.
ghost use Rattle.std.specs.Prelude.{◌≡◌, ◌≢◌, ◌≤◌, ◌||◌, IfErr, IfOk, IfSome, [], is_some, map, option_and_then, option_map, true};
ghost use Rattle.clap.specs.Values.{kind_of};
ghost use Rattle.clap.specs.Walk.{rows_of};
ghost use Rattle.clap.specs.Matches.{found_of};
ghost use Rattle.clap.specs.Simple.{matches_of};
ghost use Rattle.clap.specs.Takes.{takes};
ghost use Rattle.clap.specs.Kinds.{FailsBy};
ghost use Rattle.pop_settings.specs.pops_part.CommandLine.{command, depth_said, fault_by, faults_wanted, has_options, list_wanted, parts_by, parts_wanted, refusals, wanted_by, IsChosen, HasDepth, IsMemoryIfTaken, IsSettings, IsUsageIfRefused};
ghost use Rattle.pop_settings.specs.pops_part.Numbers.{number_in, phase_in, range_in};

use crate::arg_fault::{ArgFault, fault_of_error};
use crate::commands::{file_of, is_set, text_of, with_flag, with_option, with_value};
use crate::pops_part::values::{depth_of, number_of, phase_of, range_of};
use crate::pops_part::wanted::{NamedParts, Settings, Wanted};
use clap::error::ErrorKind;
use clap::{ArgMatches, Command, Error};
use std::alloc::Global;

/// Returns the settings of a command line. Its first word is the program's name.
///
/// # Errors
///
/// `Usage` if clap refuses the words or they have none of the forms. `Memory` if an allocation fails, whatever the
/// words.
pub fn settings(alloc: Global, words: &[&str]) -> Result<Settings, ArgFault>
    ensures chosen { IfOk result (IsSettings (map (λ s. s.now) words.now)) }
    ensures memory { IfErr result (IsMemoryIfTaken (map (λ s. s.now) words.now)) }
    ensures taken { IfOk result (λ s. refusals (map (λ s. s.now) words.now) ≡ []) }
    ensures usage { IfErr result (IsUsageIfRefused (map (λ s. s.now) words.now)) }
    ensures deep { IfOk result (λ s. HasDepth s.wanted) }
{
    match arg_matches(alloc, words) {
        Ok(matches) => settings_of(alloc, &matches),
        Err(error) => Err(fault_of_error(&error)),
    }
}

// Returns the settings that clap's matches choose, `Usage` if the words have none of the forms, or `Memory`.
fn settings_of(alloc: Global, matches: &ArgMatches<'_>) -> Result<Settings, ArgFault>
    ensures chosen { IfOk result (IsChosen (rows_of (found_of matches.now))) }
    ensures refused { IfErr result (λ fault.
        fault ≡ fault_by (wanted_by (rows_of (found_of matches.now)))) }
    ensures deep { IfOk result (λ s. HasDepth s.wanted) }
{
    let Some(wanted) = wanted_of(matches) else {
        return Err(ArgFault::Usage);
    };
    Ok(Settings {
        file: file_of(alloc, matches)?,
        wanted,
    })
}

// Returns what the options want, if they have one of the three forms.
#[tactic(auto, unfolding(crate::specs::pops_part::CommandLine::wanted_by))]
fn wanted_of(matches: &ArgMatches<'_>) -> Option<Wanted>
    ensures value { result ≡ wanted_by (rows_of (found_of matches.now)) }
    ensures deep { IfSome result HasDepth }
{
    if is_set(matches, "faults") {
        faults_of(has_options(matches))
    } else {
        parts_wanted_of(matches)
    }
}

// Returns the list of faults, unless other options are there too.
fn faults_of(has_options: bool) -> Option<Wanted>
    ensures value { result ≡ faults_wanted has_options }
    ensures deep { IfSome result HasDepth }
{
    if has_options {
        None
    } else {
        Some(Wanted::Faults)
    }
}

// Returns whether an option about parts is there.
fn has_options(matches: &ArgMatches<'_>) -> bool
    ensures { result ≡ has_options (rows_of (found_of matches.now)) }
{
    let has_depth = text_of(matches, "depth").is_some();
    let has_others = is_any(
        text_of(matches, "item"),
        text_of(matches, "phase"),
        text_of(matches, "part"),
    );
    is_set(matches, "list") || has_depth || has_others
}

// Returns what the options about parts want, if they have one of the two forms.
#[tactic(auto, unfolding(crate::specs::pops_part::CommandLine::parts_by))]
fn parts_wanted_of(matches: &ArgMatches<'_>) -> Option<Wanted>
    ensures value { result ≡ parts_by (rows_of (found_of matches.now)) }
    ensures deep { IfSome result HasDepth }
{
    let depth = depth_or_default(text_of(matches, "depth"));
    let item = text_of(matches, "item");
    let phase = text_of(matches, "phase");
    let part = text_of(matches, "part");
    if is_set(matches, "list") {
        list_of(is_any(item, phase, part), depth)
    } else {
        parts_of(item, phase, part, depth)
    }
}

// Returns whether one of these options is there.
fn is_any(item: Option<&str>, phase: Option<&str>, part: Option<&str>) -> bool
    ensures { result ≡ (is_some (option_map (λ s. s.now) item.entry)
        || (is_some (option_map (λ s. s.now) phase.entry)
        || is_some (option_map (λ s. s.now) part.entry))) }
{
    item.is_some() || phase.is_some() || part.is_some()
}

// Returns how many first moves a part of help play fixes, by the value of `--depth`: 1 without one.
fn depth_or_default(said: Option<&str>) -> Option<usize>
    ensures value { result ≡ depth_said (option_map (λ s. s.now) said.entry) }
    ensures range { IfSome result (λ depth. 1 ≤ depth) }
{
    match said {
        Some(text) => depth_of(text.as_bytes()),
        None => Some(1),
    }
}

// Returns a list, unless options that name parts are there too.
fn list_of(has_others: bool, depth: Option<usize>) -> Option<Wanted>
    requires { IfSome depth (λ depth. 1 ≤ depth) }
    ensures value { result ≡ list_wanted has_others depth }
    ensures deep { IfSome result HasDepth }
{
    if has_others {
        return None;
    }
    Some(Wanted::List { depth: depth? })
}

// Returns the parts that the options name, if each option is there and readable.
fn parts_of(
    item: Option<&str>,
    phase: Option<&str>,
    part: Option<&str>,
    depth: Option<usize>,
) -> Option<Wanted>
    requires { IfSome depth (λ depth. 1 ≤ depth) }
    ensures value { result ≡ parts_wanted
        (option_and_then number_in (option_map (λ s. s.now) item.entry))
        (option_and_then phase_in (option_map (λ s. s.now) phase.entry))
        (option_and_then range_in (option_map (λ s. s.now) part.entry)) depth }
    ensures deep { IfSome result HasDepth }
{
    let item = number_of(item?.as_bytes())?;
    let phase = phase_of(phase?.as_bytes())?;
    let range = range_of(part?.as_bytes())?;
    Some(Wanted::Parts(NamedParts {
        item,
        phase,
        first: range.first,
        last: range.last,
        depth: depth?,
    }))
}

// Returns clap's matches of the words.
fn arg_matches<'a>(alloc: Global, words: &'a [&'a str]) -> Result<ArgMatches<'a>, Error>
    ensures rows { IfOk result (λ m. rows_of (found_of m)
        ≡ matches_of command (map (λ s. s.now) words.now)) }
    ensures memory { IfErr result (λ e. takes command (map (λ s. s.now) words.now) ≡ true
        → kind_of e ≡ ErrorKind.OutOfMemory) }
    ensures kinds { FailsBy (refusals (map (λ s. s.now) words.now)) result }
{
    let command = Command::new(alloc, "pops-part");
    let command = with_flag(Ok(command), alloc, "list");
    let command = with_flag(command, alloc, "faults");
    let command = with_option(command, alloc, "depth");
    let command = with_option(command, alloc, "item");
    let command = with_option(command, alloc, "phase");
    let command = with_option(command, alloc, "part");
    let command = with_value(command, alloc, "file")?;
    command.try_get_matches_from(words)
}
