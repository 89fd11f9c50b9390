//! The program `pops-part`: its settings, its files and its exit statuses.
ghost use Rattle.std.specs.Prelude.{◌≡◌, ◌<◌, ◌≤◌, IfSome};
ghost use Rattle.pop_text.specs.Bytes.{greatest_count};
ghost use Rattle.pop_run.specs.Run.{FailsOnce, has_grown, input_met, taken_of};
ghost use Rattle.pop_settings.specs.pops_part.CommandLine.{HasDepth};
ghost use Rattle.pops_part.specs.ExitStatus.{ending_flushed, ending_of_list, ending_of_parts, message_of, status_of};
ghost use Rattle.pops_part.specs.Runs.{ReadsWanted, request_of, phase_named};
ghost use Rattle.pops_part.specs.ties.Answering.{Answers};

use pop_events::Phase;
use pop_faults::list_faults;
use pop_parts::{Outcome, PartRequest, list_parts, show_parts};
use pop_program::{on_input, refuse};
use pop_run::{
    EXIT_DEVICE_FAILED, EXIT_FAULTY, EXIT_OUT_OF_MEMORY, EXIT_REFUSED, EXIT_SOUND, Status,
};
use pop_settings::ArgFault;
use pop_settings::pops_part::{NamedParts, PhaseName, Wanted, settings};
use pop_text::{ReadSource, Sink, Source, WriteSink};
use std::io::{Read, Write};
use std::rt::Files;

/// How a run ends.
#[derive(Clone, Copy)]
pub enum Ending {
    /// All is written: the parts, or a list in which every item is sound.
    Done,
    /// The list is written, and some item is faulty.
    Faulty,
    /// The named parts aren't there. Holds the reason.
    Refused(Outcome),
    /// The input device failed.
    InputFailed,
    /// The output can't be written.
    OutputFailed,
}

/// Runs the program on the words of a command line, whose first word is the program's name, and returns the exit
/// status.
///
/// | Status | When | Written to `errors` |
/// |---|---|---|
/// | 0 | the list is written and every problem is sound, or the parts are shown | nothing |
/// | 1 | the list is written and some problem is faulty | nothing |
/// | 2 | the words have none of the forms | the usage |
/// | 2 | the item, phase or part doesn't exist, or the item is faulty | which of these |
/// | 3 | the input device failed | nothing |
/// | 3 | FILE can't be opened, also for lack of memory | `pops-part: cannot open the input file` |
/// | 3 | a write or the last flush failed | `pops-part: output failed` |
/// | 4 | there was no memory to read the words | `pops-part: out of memory` |
///
/// A failure to write to `errors` changes no status.
pub fn program<T: Files + AllocGlobal, R: Read + Drop, W: Write + Drop, E: Write + Drop>(
    rt: &T,
    words: &[&str],
    input: R,
    output: W,
    errors: E,
) -> u8
    ensures { result ≤ EXIT_OUT_OF_MEMORY }
{
    let settings = match settings(rt.alloc(), words) {
        Ok(settings) => settings,
        Err(ArgFault::Usage) => return refuse(
            errors,
            b"pops-part: usage: pops-part --list [--depth D] [FILE]\n       pops-part --item I --phase set|play --part A[..B] [--depth D] [FILE]\n       pops-part --faults [FILE]\n",
            EXIT_REFUSED,
        ),
        Err(ArgFault::Memory) => return refuse(
            errors,
            b"pops-part: out of memory\n",
            EXIT_OUT_OF_MEMORY,
        ),
    };
    on_input!(
        rt,
        &settings.file,
        input,
        source => report(&settings.wanted, source, output, errors),
        refuse(errors, b"pops-part: cannot open the input file\n", EXIT_DEVICE_FAILED)
    )
}

// Writes what is wanted, flushes the output, reports a failure and returns the exit status.
fn report<R: Read + Drop, W: Write + Drop, E: Write + Drop>(
    wanted: &Wanted,
    input: R,
    output: W,
    errors: E,
) -> u8
    requires { HasDepth wanted.now }
    ensures { result ≤ EXIT_OUT_OF_MEMORY }
{
    let mut source = ReadSource::new(input);
    let mut sink = WriteSink::new(output);
    let ending = answer(wanted, &mut source, &mut sink);
    let mut output = sink.into_inner();
    let ending = ending_after_flush(ending, output.flush().is_ok());
    let text = message_of(ending);
    if text.is_empty() {
        status_of(ending)
    } else {
        refuse(errors, text, status_of(ending))
    }
}

// Writes what is wanted of the source to the sink, and returns how the run ends.
//
// Writes exactly the list of the input, of its parts or faults, or the text of the parts, or a beginning of it if the
// sink fails. At most one source call and one sink call fail.
fn answer<S: Source, W: Sink>(wanted: &Wanted, source: &mut S, sink: &mut W) -> Ending
    requires deep { HasDepth wanted.now }
    requires source { S.failures source.old < greatest_count }
    requires sink { W.failures sink.old < greatest_count }
    ensures headline { IfSome (S.remaining source.old) (λ had.
        Answers wanted.now had (S.remaining source.new)
        (has_grown (S.failures source.old) (S.failures source.new))
        (W.taken sink.old) (W.taken sink.new)
        (has_grown (W.failures sink.old) (W.failures sink.new)) result) }
    ensures reads { IfSome (S.remaining source.old) (λ had.
        ReadsWanted wanted.now
        (input_met (has_grown (S.failures source.old) (S.failures source.new)) had
        (S.remaining source.new))
        (taken_of had (S.remaining source.new))) }
    ensures once { FailsOnce (S.failures source.old) (S.failures source.new)
        × FailsOnce (W.failures sink.old) (W.failures sink.new) }
{
    match wanted {
        Wanted::List { depth } => ending_of_list(list_parts(*depth, source, sink)),
        Wanted::Parts(named) => ending_of_parts(show_parts(&request_of(named), source, sink)),
        Wanted::Faults => ending_of_list(list_faults(source, sink)),
    }
}

// Returns the request for the parts that are named.
fn request_of(named: &NamedParts) -> PartRequest
    ensures { result ≡ request_of named.now }
{
    PartRequest {
        item: named.item,
        phase: phase_named(named.phase),
        first: named.first,
        last: named.last,
        depth: named.depth,
    }
}

// Returns the phase that the command line names.
fn phase_named(name: PhaseName) -> Phase
    ensures { result ≡ phase_named name }
{
    match name {
        PhaseName::Set => Phase::Set,
        PhaseName::Play => Phase::Play,
    }
}

// Returns how a run ends. `ending` is how it ended before the last flush, and `is_flushed` says whether the flush
// succeeded.
fn ending_after_flush(ending: Ending, is_flushed: bool) -> Ending
    ensures { result ≡ ending_flushed ending is_flushed }
{
    if is_flushed {
        ending
    } else {
        Ending::OutputFailed
    }
}

// Returns how a run that lists parts or faults ends.
fn ending_of_list(status: Status) -> Ending
    ensures { result ≡ ending_of_list status }
{
    match status {
        Status::Sound => Ending::Done,
        Status::Faulty => Ending::Faulty,
        Status::InputFailed => Ending::InputFailed,
        Status::OutputFailed => Ending::OutputFailed,
    }
}

// Returns how a run that shows parts ends.
fn ending_of_parts(outcome: Outcome) -> Ending
    ensures { result ≡ ending_of_parts outcome }
{
    match outcome {
        Outcome::Shown => Ending::Done,
        Outcome::InputFailed => Ending::InputFailed,
        Outcome::OutputFailed => Ending::OutputFailed,
        other => Ending::Refused(other),
    }
}

// Returns the exit status of an ending.
fn status_of(ending: Ending) -> u8
    ensures { result ≡ status_of ending }
{
    match ending {
        Ending::Done => EXIT_SOUND,
        Ending::Faulty => EXIT_FAULTY,
        Ending::Refused(_) => EXIT_REFUSED,
        Ending::InputFailed | Ending::OutputFailed => EXIT_DEVICE_FAILED,
    }
}

// Returns the message for standard error, empty if there is none.
fn message_of(ending: Ending) -> &'static [u8]
    ensures { result.now ≡ message_of ending }
{
    match ending {
        Ending::Done | Ending::Faulty | Ending::InputFailed => b"",
        Ending::OutputFailed => b"pops-part: output failed\n",
        Ending::Refused(Outcome::NoItem) => b"pops-part: the input has no such item\n",
        Ending::Refused(Outcome::FaultyItem) => b"pops-part: the item is faulty\n",
        Ending::Refused(Outcome::NoPhase) => b"pops-part: the problem has no such phase\n",
        Ending::Refused(_) => b"pops-part: the phase has no such part\n",
    }
}
