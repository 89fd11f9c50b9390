//! The program `pops-tries`: its settings, its files and its exit statuses.
ghost use Rattle.std.specs.Prelude.{◌≡◌, ◌≤◌};
ghost use Rattle.pop_settings.specs.pops_tries.CommandLine.{most_refutations};

use pop_program::{on_input, refuse};
use pop_run::{Choice, EXIT_DEVICE_FAILED, EXIT_OUT_OF_MEMORY, EXIT_REFUSED};
use pop_settings::ArgFault;
use pop_settings::pops_tries::{Settings, settings};
use pop_text::{ReadSource, WriteSink};
use pop_tries_run::report_tries;
use std::io::{Read, Write};
use std::rt::Files;

/// Runs the program on the words of a command line, whose first word is the program's name, and returns the exit
/// status.
///
/// | Status | When | Written to `errors` |
/// |---|---|---|
/// | 0 | every problem is sound | nothing |
/// | 1 | some problem is faulty | nothing |
/// | 2 | the words don't have the form `pops-tries [--check] [--no-board] [--refutations N] [FILE]` | the usage |
/// | 3 | the input device failed | nothing |
/// | 3 | FILE can't be opened, also for lack of memory | `pops-tries: cannot open the input file` |
/// | 3 | a write or the last flush failed | `pops-tries: output failed` |
/// | 4 | there was no memory to read the words | `pops-tries: out of memory` |
///
/// N is a number from 0 to 200. A failure to write to `errors` changes no status.
pub fn program<T: Files + AllocGlobal, R: Read + Drop, W: Write + Drop, E: Write + Drop>(
    rt: &T,
    words: &[&str],
    input: R,
    output: W,
    errors: E,
) -> u8
    ensures { result ≤ EXIT_OUT_OF_MEMORY }
{
    let settings = match settings(rt.alloc(), words) {
        Ok(settings) => settings,
        Err(ArgFault::Usage) => return refuse(
            errors,
            b"pops-tries: usage: pops-tries [--check] [--no-board] [--refutations N] [FILE]\n",
            EXIT_REFUSED,
        ),
        Err(ArgFault::Memory) => return refuse(
            errors,
            b"pops-tries: out of memory\n",
            EXIT_OUT_OF_MEMORY,
        ),
    };
    on_input!(
        rt,
        &settings.file,
        input,
        source => report(&settings, source, output, errors),
        refuse(errors, b"pops-tries: cannot open the input file\n", EXIT_DEVICE_FAILED)
    )
}

// Reports the input, flushes the output and returns the exit status.
fn report<R: Read + Drop, W: Write + Drop, E: Write + Drop>(
    settings: &Settings,
    input: R,
    output: W,
    errors: E,
) -> u8
    requires { settings.now.refutations ≤ most_refutations }
    ensures { result ≤ EXIT_OUT_OF_MEMORY }
{
    let mut source = ReadSource::new(input);
    let mut sink = WriteSink::new(output);
    let status = report_tries(
        choice_of(settings),
        settings.refutations,
        &mut source,
        &mut sink,
    );
    let mut output = sink.into_inner();
    let flushed = output.flush().is_ok();
    match status.exit_status(flushed) {
        Some(status) => status,
        None => refuse(errors, b"pops-tries: output failed\n", EXIT_DEVICE_FAILED),
    }
}

// Returns the two flags of the settings.
fn choice_of(settings: &Settings) -> Choice
    ensures { result ≡ record { check = settings.now.check; no_board = settings.now.no_board } }
{
    Choice {
        check: settings.check,
        no_board: settings.no_board,
    }
}
