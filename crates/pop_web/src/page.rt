//! The calls of the page: a text's report, with or without tries, the lists of its parts and faults, the solutions of
//! one part.
ghost use Rattle.std.specs.Prelude.{◌≡◌, ◌<◌, ◌≤◌, length, take};
ghost use Rattle.pop_web.specs.ties.FaultsShown.{ShowsFaults};
ghost use Rattle.pop_web.specs.Page.{Lists, Shows, ShowsItems, ShowsParts, ShowsTries, depth_of as depth_by, status_number, outcome_number, part_of as part_by, phase_of as phase_by, room, too_small};

use crate::memory_sink::MemorySink;
use crate::text_source::TextSource;
use pop_events::Phase;
use pop_faults::list_faults;
use pop_parts::{Outcome, PartRequest, list_parts, show_parts};
use pop_run::{Choice, ItemWriter, Status, run_with};
use pop_tries_run::{MOST_REFUTATIONS, TriesWriter};

/// The size of the output, in bytes. Longer texts are cut.
const ROOM: usize = 1 << 22;

// `on_text!(input, output, written, |source, sink| call, |ending| number)`: the body of a call of the page. It makes
// `call` on a source of the input and a sink in memory, copies what the sink keeps to the front of the output, and
// returns `number`, by which the page knows the ending. An output that is too small is refused.
macro_rules! on_text {
    (
        $input:ident,
        $output:ident,
        $written:ident,
        |$source:ident, $sink:ident| $call:expr,
        |$ending:ident| $number:expr
    ) => {{
        if $output.len() < ROOM {
            return refuse($written);
        }
        let mut $source = TextSource::new($input);
        let mut $sink = MemorySink::<ROOM>::new();
        let $ending = $call;
        *$written = copy_out(&$sink, $output);
        $number
    }};
}

/// Writes the report of the input to the front of `output`, and its length in bytes to `written`.
///
/// | Result | When |
/// |---|---|
/// | 0 | every problem is sound |
/// | 1 | some problem is faulty |
/// | 3 | the report is longer than 2^22 bytes: its first 2^22 are written |
/// | 4 | `output` has fewer than 2^22 bytes: nothing is read or written |
///
/// The results 0, 1 and 3 are the exit statuses of `pops`.
#[unsafe(no_mangle)]
pub extern "C" fn pops_report(
    check: bool,
    no_board: bool,
    input: &[u8],
    output: &mut [u8],
    written: &mut usize,
) -> u32
    ensures shows { room ≤ length output.old → Shows (record {
      check = check;
      no_board = no_board;
    }) input.now (take written.new output.new) result }
    ensures short { length output.old < room → (result ≡ too_small) × (written.new ≡ 0)
        × (output.new ≡ output.old) }
    ensures inside { written.new ≤ length output.new }
    ensures room { length output.new ≡ length output.old }
{
    show_items(Choice { check, no_board }, input, output, written)
}

/// Writes the report of the input with keys, tries and refutations to the front of `output`, and its length in bytes to
/// `written`. A try has at most `refutations` refutations; more than 200 count as 200.
///
/// The results are those that `pops_report` returns; the bytes are those that `pops-tries` writes.
#[unsafe(no_mangle)]
pub extern "C" fn pops_tries(
    no_board: bool,
    refutations: u32,
    input: &[u8],
    output: &mut [u8],
    written: &mut usize,
) -> u32
    ensures shows { room ≤ length output.old → ShowsTries no_board refutations input.now
        (take written.new output.new) result }
    ensures short { length output.old < room → (result ≡ too_small) × (written.new ≡ 0)
        × (output.new ≡ output.old) }
    ensures inside { written.new ≤ length output.new }
    ensures room { length output.new ≡ length output.old }
{
    let choice = Choice {
        check: false,
        no_board,
    };
    let writer = TriesWriter::new(choice, refutations.min(MOST_REFUTATIONS));
    show_items(writer, input, output, written)
}

/// Writes the list of the input's parts to the front of `output`, one line per item, and its length in bytes to
/// `written`. A part of help play fixes `depth` first moves; 0 counts as 1.
///
/// The results are those that `pops_report` returns.
#[unsafe(no_mangle)]
pub extern "C" fn pops_list(
    depth: usize,
    input: &[u8],
    output: &mut [u8],
    written: &mut usize,
) -> u32
    ensures lists { room ≤ length output.old → Lists (depth_by depth) input.now
        (take written.new output.new) result }
    ensures short { length output.old < room → (result ≡ too_small) × (written.new ≡ 0)
        × (output.new ≡ output.old) }
    ensures inside { written.new ≤ length output.new }
    ensures room { length output.new ≡ length output.old }
{
    on_text!(
        input,
        output,
        written,
        |source, sink| list_parts(depth_of(depth), &mut source, &mut sink),
        |ending| status_number(ending)
    )
}

/// Writes the list of the input's faults to the front of `output`, one line per faulty item with the span of the fault,
/// the bytes where it is found, and the list's length in bytes to `written`.
///
/// The results are those that `pops_report` returns; the bytes are those that `pops-part --faults` writes.
#[unsafe(no_mangle)]
pub extern "C" fn pops_faults(input: &[u8], output: &mut [u8], written: &mut usize) -> u32
    ensures shows { room ≤ length output.old → ShowsFaults input.now (take written.new output.new)
        result }
    ensures short { length output.old < room → (result ≡ too_small) × (written.new ≡ 0)
        × (output.new ≡ output.old) }
    ensures inside { written.new ≤ length output.new }
    ensures room { length output.new ≡ length output.old }
{
    on_text!(
        input,
        output,
        written,
        |source, sink| list_faults(&mut source, &mut sink),
        |ending| status_number(ending)
    )
}

/// Writes the solutions of one part of the input's first problem, and their number, to the front of `output`, and the
/// text's length in bytes to `written`. Parts are counted from 1. Pass the same `depth` as to `pops_list`.
///
/// | Result | When |
/// |---|---|
/// | 0 | the part is there |
/// | 1 | the problem is faulty |
/// | 3 | the text is longer than 2^22 bytes: its first 2^22 are written |
/// | 4 | `output` has fewer than 2^22 bytes: nothing is read or written |
/// | 5 | the input has no problem |
/// | 6 | `set_play` is true and the problem has no set play |
/// | 7 | the phase has no part with this number |
#[unsafe(no_mangle)]
pub extern "C" fn pops_part(
    set_play: bool,
    depth: usize,
    number: u64,
    input: &[u8],
    output: &mut [u8],
    written: &mut usize,
) -> u32
    ensures shows { room ≤ length output.old → ShowsParts (part_by set_play depth number) input.now
        (take written.new output.new) result }
    ensures short { length output.old < room → (result ≡ too_small) × (written.new ≡ 0)
        × (output.new ≡ output.old) }
    ensures inside { written.new ≤ length output.new }
    ensures room { length output.new ≡ length output.old }
{
    let request = part_of(set_play, depth, number);
    on_text!(
        input,
        output,
        written,
        |source, sink| show_parts(&request, &mut source, &mut sink),
        |outcome| outcome_number(outcome)
    )
}

// Writes the input's items in the way of the writer to the front of `output`, and their length in bytes to `written`.
// Returns what `pops_report` returns.
fn show_items<I: ItemWriter>(writer: I, input: &[u8], output: &mut [u8], written: &mut usize) -> u32
    ensures shows { room ≤ length output.old → ShowsItems (I.text writer) input.now
        (take written.new output.new) result }
    ensures short { length output.old < room → (result ≡ too_small) × (written.new ≡ 0)
        × (output.new ≡ output.old) }
    ensures inside { written.new ≤ length output.new }
    ensures room { length output.new ≡ length output.old }
{
    on_text!(
        input,
        output,
        written,
        |source, sink| run_with(writer, &mut source, &mut sink),
        |status| status_number(status)
    )
}

// Notes that nothing is written, and returns the result for an output that is too small.
fn refuse(written: &mut usize) -> u32
    ensures { (result ≡ too_small) × (written.new ≡ 0) }
{
    *written = 0;
    4
}

// Copies the bytes of a sink to the front of the output, and returns their number.
fn copy_out(sink: &MemorySink<ROOM>, output: &mut [u8]) -> usize
    requires { room ≤ length output.old }
    ensures text { take result output.new ≡ sink.now.taken }
    ensures fits { length (take result output.new) ≤ room }
    ensures full { 0 < sink.now.failures → length (take result output.new) ≡ room }
    ensures inside { result ≤ length output.new }
    ensures room { length output.new ≡ length output.old }
{
    let text = sink.text();
    let count = text.len();
    output[..count].copy_from_slice(text);
    count
}

// Returns how many first moves a part of help play fixes: at least one.
fn depth_of(depth: usize) -> usize
    ensures { result ≡ depth_by depth }
{
    if depth == 0 { 1 } else { depth }
}

// Returns the request for one part of the first problem.
fn part_of(set_play: bool, depth: usize, number: u64) -> PartRequest
    ensures { result ≡ part_by set_play depth number }
{
    PartRequest {
        item: 1,
        phase: phase_of(set_play),
        first: number,
        last: number,
        depth: depth_of(depth),
    }
}

// Returns the phase of the flag for set play.
fn phase_of(set_play: bool) -> Phase
    ensures { result ≡ phase_by set_play }
{
    if set_play { Phase::Set } else { Phase::Play }
}

// Returns the number by which the page knows a status.
fn status_number(status: Status) -> u32
    ensures { result ≡ status_number status }
{
    match status {
        Status::Sound => 0,
        Status::Faulty => 1,
        Status::InputFailed => 2,
        Status::OutputFailed => 3,
    }
}

// Returns the number by which the page knows an outcome.
fn outcome_number(outcome: Outcome) -> u32
    ensures { result ≡ outcome_number outcome }
{
    match outcome {
        Outcome::Shown => 0,
        Outcome::FaultyItem => 1,
        Outcome::InputFailed => 2,
        Outcome::OutputFailed => 3,
        Outcome::NoItem => 5,
        Outcome::NoPhase => 6,
        Outcome::NoPart => 7,
    }
}
