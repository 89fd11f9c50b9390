//! The program `pops`: its settings, its files and its exit statuses.
ghost use Rattle.std.specs.Prelude.{◌≡◌, ◌≤◌};

use pop_program::{on_input, refuse};
use pop_run::{EXIT_DEVICE_FAILED, EXIT_OUT_OF_MEMORY, EXIT_REFUSED, Settings, run};
use pop_settings::{ArgFault, settings};
use pop_text::{ReadSource, WriteSink};
use std::io::{Read, Write};
use std::rt::Files;

/// Runs the program on the words of a command line, whose first word is the program's name, and returns the exit
/// status.
///
/// | Status | When | Written to `errors` |
/// |---|---|---|
/// | 0 | every problem is sound | nothing |
/// | 1 | some problem is faulty | nothing |
/// | 2 | the words don't have the form `pops [--check] [--no-board] [FILE]` | the usage |
/// | 3 | the input device failed | nothing |
/// | 3 | FILE can't be opened, also for lack of memory | `pops: cannot open the input file` |
/// | 3 | a write or the last flush failed | `pops: output failed` |
/// | 4 | there was no memory to read the words | `pops: out of memory` |
///
/// A failure to write to `errors` changes no status.
pub fn program<T: Files + AllocGlobal, R: Read + Drop, W: Write + Drop, E: Write + Drop>(
    rt: &T,
    words: &[&str],
    input: R,
    output: W,
    errors: E,
) -> u8
    ensures { result ≤ EXIT_OUT_OF_MEMORY }
{
    let settings = match settings(rt.alloc(), words) {
        Ok(settings) => settings,
        Err(ArgFault::Usage) => return refuse(
            errors,
            b"pops: usage: pops [--check] [--no-board] [FILE]\n",
            EXIT_REFUSED,
        ),
        Err(ArgFault::Memory) => return refuse(
            errors,
            b"pops: out of memory\n",
            EXIT_OUT_OF_MEMORY,
        ),
    };
    on_input!(
        rt,
        &settings.file,
        input,
        source => report(&settings, source, output, errors),
        refuse(errors, b"pops: cannot open the input file\n", EXIT_DEVICE_FAILED)
    )
}

// Reports the input, flushes the output and returns the exit status.
fn report<R: Read + Drop, W: Write + Drop, E: Write + Drop>(
    settings: &Settings,
    input: R,
    output: W,
    errors: E,
) -> u8
    ensures { result ≤ EXIT_OUT_OF_MEMORY }
{
    let mut source = ReadSource::new(input);
    let mut sink = WriteSink::new(output);
    let status = run(settings, &mut source, &mut sink);
    let mut output = sink.into_inner();
    let flushed = output.flush().is_ok();
    match status.exit_status(flushed) {
        Some(status) => status,
        None => refuse(errors, b"pops: output failed\n", EXIT_DEVICE_FAILED),
    }
}
