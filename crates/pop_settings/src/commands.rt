//! The options and values of a command line.
ghost use Rattle.std.specs.Prelude.{◌≡◌, IfErr, IfOk, codes, false, option_map, string_bytes};
ghost use Rattle.clap.specs.Simple.{App, app_of, new_rule, with_rule};
ghost use Rattle.clap.specs.Matches.{found_of};
ghost use Rattle.clap.specs.Walk.{first_of, rows_of, rule_of};
ghost use Rattle.pop_settings.specs.Commands.{flag, is_set, option_with_value};

use crate::arg_fault::ArgFault;
use clap::{Arg, ArgAction, ArgMatches, Command};
use std::alloc::{AllocError, Global};

// Adds an argument to a command. Passes on the error of an earlier allocation.
fn with<'a>(
    command: Result<Command<'a>, AllocError>,
    argument: Arg<'a>,
) -> Result<Command<'a>, AllocError>
    ensures { (app : App) → argument.entry.global ≡ false → IfOk command.entry (λ c. app_of c ≡ app)
        → IfOk result (λ c. app_of c ≡ with_rule app (rule_of argument.entry)) }
{
    match command {
        Ok(command) => command.arg(argument),
        Err(error) => Err(error),
    }
}

// Adds an option without a value.
pub(crate) fn with_flag<'a>(
    command: Result<Command<'a>, AllocError>,
    alloc: Global,
    name: &'a str,
) -> Result<Command<'a>, AllocError>
    ensures { (app : App) → IfOk command.entry (λ c. app_of c ≡ app)
        → IfOk result (λ c. app_of c ≡ with_rule app (flag name.now)) }
{
    let option = Arg::new(alloc, name).long(name).action(ArgAction::SetTrue);
    with(command, option)
}

// Adds an option with a value.
pub(crate) fn with_option<'a>(
    command: Result<Command<'a>, AllocError>,
    alloc: Global,
    name: &'a str,
) -> Result<Command<'a>, AllocError>
    ensures { (app : App) → IfOk command.entry (λ c. app_of c ≡ app)
        → IfOk result (λ c. app_of c ≡ with_rule app (option_with_value name.now)) }
{
    let option = Arg::new(alloc, name).long(name);
    with(command, option)
}

// Adds a value without an option.
pub(crate) fn with_value<'a>(
    command: Result<Command<'a>, AllocError>,
    alloc: Global,
    name: &'a str,
) -> Result<Command<'a>, AllocError>
    ensures { (app : App) → IfOk command.entry (λ c. app_of c ≡ app)
        → IfOk result (λ c. app_of c ≡ with_rule app (new_rule name.now)) }
{
    let value = Arg::new(alloc, name);
    with(command, value)
}

// Returns the text of the value `name`, or `None` if it isn't there.
pub(crate) fn text_of<'a>(matches: &ArgMatches<'a>, name: &str) -> Option<&'a str>
    ensures { option_map (λ s. s.now) result ≡ first_of name.now (rows_of (found_of matches.now)) }
{
    matches.get_str(name)
}

// Returns the path of the input file, or `None` without one. Fails only with `Memory`.
pub(crate) fn file_of(alloc: Global, matches: &ArgMatches<'_>) -> Result<Option<String>, ArgFault>
    ensures path { IfOk result (λ file. option_map string_bytes file
        ≡ first_of (codes "file") (rows_of (found_of matches.now))) }
    ensures refused { IfErr result (λ fault. fault ≡ ArgFault.Memory) }
{
    match text_of(matches, "file") {
        Some(file) => match String::from_str(alloc, file) {
            Ok(file) => Ok(Some(file)),
            Err(_) => Err(ArgFault::Memory),
        },
        None => Ok(None),
    }
}

// Returns whether the flag `name` is set.
pub(crate) fn is_set(matches: &ArgMatches<'_>, name: &str) -> bool
    ensures { result ≡ is_set name.now (rows_of (found_of matches.now)) }
{
    match text_of(matches, name) {
        Some(text) => "true" == text,
        None => false,
    }
}
