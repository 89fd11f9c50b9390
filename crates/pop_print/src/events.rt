//! The text of events.
ghost use Rattle.std.specs.Prelude.{◌*◌, ◌++◌, ◌+◌, ◌<◌, ◌^◌, ◌≡◌, ◌≤◌, decimal, length, replicate, true};
ghost use Rattle.pop_text.specs.Bytes.{Writes, count_after, greatest_count};
ghost use Rattle.pop_print.specs.Events.{event_text, line_text, move_number_text, moves_text, prefix_text, stopped_text as text_of_stopped, total_text};
ghost use Rattle.pop_print.specs.Moves.{move_text};
ghost use Rattle.pop_print.specs.Notation.{blank};

use crate::line::{LONGEST, LONGEST_NUMBER, LineBuffer};
use crate::moves::LONGEST_MOVE;
use pop_events::{Event, Phase, Shown};
use pop_stipulation::MOST_HALF_MOVES;
use pop_text::{Sink, SinkFault, put_all};

// The most blanks before a node of a problem: two for each half-move above it.
const BLANKS: u64 = 64;

// The most bytes of a total, or of a node of battle play with at most `BLANKS` blanks before it (own).
const LONGEST_NODE: usize = 128;

// The most bytes of a half-move's number.
const LONGEST_PREFIX: usize = 23;

// The most bytes before a move of a line.
const LONGEST_MOVE_NUMBER: usize = LONGEST_PREFIX + 1;

// The most bytes of a line's moves, each with its number.
const LONGEST_MOVES: usize = MOST_HALF_MOVES * (LONGEST_MOVE_NUMBER + LONGEST_MOVE);

// The most bytes of what comes before a count, and of what follows it.
const LONGEST_LABEL: usize = 16;

/// Writes an event as one line.
///
/// Passes the line to the sink in one piece; only blanks before a node beyond the 64th go one by one.
///
/// # Errors
///
/// `SinkFault` if the sink fails: a beginning of the line is then written.
#[tactic(auto, unfolding(crate::specs::Events::event_text))]
pub fn print_event<W: Sink>(sink: &mut W, event: &Event) -> Result<(), SinkFault>
    requires { W.failures sink.old < greatest_count }
    ensures bytes { Writes (W.taken sink.old) (W.taken sink.new) (event_text event.now) result }
    ensures counted { W.failures sink.new ≡ count_after result (W.failures sink.old) }
{
    match event {
        Event::Phase(Phase::Set) => put_all(sink, b"set\n"),
        Event::Phase(Phase::Play) => put_all(sink, b"play\n"),
        Event::Line { half, moves } => print_line(sink, *half, moves.as_slice()),
        Event::Node { depth, half, shown } => print_node(sink, *depth, *half, shown, b"\n"),
        Event::Impossible => put_all(sink, b"not possible\n"),
        Event::Total { count, stopped } => print_total(sink, *count, *stopped),
    }
}

// Writes a line of help play.
fn print_line<W: Sink>(sink: &mut W, half: u32, moves: &[Shown]) -> Result<(), SinkFault>
    requires sink { W.failures sink.old < greatest_count }
    requires room { length moves.now ≤ MOST_HALF_MOVES }
    ensures bytes { Writes (W.taken sink.old) (W.taken sink.new) (line_text half moves.now) result }
    ensures counted { W.failures sink.new ≡ count_after result (W.failures sink.old) }
{
    let mut line = LineBuffer::<LONGEST>::new();
    line.add_line(half, moves);
    line.put(sink)
}

/// Writes a move of battle play that has `depth` moves above it, and the line's ending after it. No move of a problem
/// has more than `BLANKS` blanks before it. The code for more blanks is for the prover alone, since `depth` may be any
/// number.
///
/// # Errors
///
/// `SinkFault` if the sink fails: a beginning of the line is then written.
pub(crate) fn print_node<W: Sink>(
    sink: &mut W,
    depth: u32,
    half: u32,
    shown: &Shown,
    ending: &[u8],
) -> Result<(), SinkFault>
    requires sink { W.failures sink.old < greatest_count }
    requires ending { length ending.now ≤ 2 }
    ensures bytes { Writes (W.taken sink.old) (W.taken sink.new) (replicate (2 * depth) blank
        ++ prefix_text half ++ move_text shown.now ++ ending.now) result }
    ensures counted { W.failures sink.new ≡ count_after result (W.failures sink.old) }
{
    let blanks = 2 * u64::from(depth);
    let apart = blanks.saturating_sub(BLANKS);
    put_blanks(sink, apart)?;
    let mut line = LineBuffer::<LONGEST_NODE>::new();
    line.add_node(blanks - apart, half, shown, ending);
    line.put(sink)
}

// Writes `count` blanks, one by one.
fn put_blanks<W: Sink>(sink: &mut W, count: u64) -> Result<(), SinkFault>
    requires { W.failures sink.old < greatest_count }
    ensures bytes { Writes (W.taken sink.old) (W.taken sink.new) (replicate count blank) result }
    ensures counted { W.failures sink.new ≡ count_after result (W.failures sink.old) }
{
    for _blank in 0..count {
        put_all(sink, b" ")?;
    }
    Ok(())
}

/// Writes the count at the end of a phase.
///
/// # Errors
///
/// `SinkFault` if the sink fails: a beginning of the line is then written.
pub(crate) fn print_total<W: Sink>(sink: &mut W, count: u32, stopped: bool) -> Result<(), SinkFault>
    requires { W.failures sink.old < greatest_count }
    ensures bytes { Writes (W.taken sink.old) (W.taken sink.new) (total_text count stopped) result }
    ensures counted { W.failures sink.new ≡ count_after result (W.failures sink.old) }
{
    print_count(sink, b"solutions: ", count, stopped_text(stopped))
}

/// Writes a count between a label and the line's ending.
///
/// # Errors
///
/// `SinkFault` if the sink fails: a beginning of the line is then written.
pub(crate) fn print_count<W: Sink>(
    sink: &mut W,
    label: &[u8],
    count: u32,
    ending: &[u8],
) -> Result<(), SinkFault>
    requires sink { W.failures sink.old < greatest_count }
    requires label { length label.now ≤ LONGEST_LABEL }
    requires ending { length ending.now ≤ LONGEST_LABEL }
    ensures bytes { Writes (W.taken sink.old) (W.taken sink.new) (label.now ++ decimal count
        ++ ending.now) result }
    ensures counted { W.failures sink.new ≡ count_after result (W.failures sink.old) }
{
    let mut line = LineBuffer::<LONGEST_NODE>::new();
    line.add_count(label, count, ending);
    line.put(sink)
}

// Returns the ending of a total: whether the limit of solutions stopped the phase, and the line end.
fn stopped_text(stopped: bool) -> &'static [u8]
    ensures text { result.now ≡ text_of_stopped stopped }
    ensures short { length result.now ≤ 10 }
{
    if stopped { b", stopped\n" } else { b"\n" }
}

impl<const N: usize> LineBuffer<N> {
    // Adds the number of a half-move, such as `1.` for White's first and `1...` for Black's first.
    fn add_prefix(&mut self, half: u64)
        requires room { length self.old + LONGEST_PREFIX ≤ N }
        requires half { half < 2 ^ 33 }
        ensures text { self.new ≡ self.old ++ prefix_text half }
        ensures short { length self.new ≤ length self.old + LONGEST_PREFIX }
    {
        if half % 2 == 1 {
            self.add_number((half + 1) / 2);
            self.add(b".");
        } else {
            self.add_number(half / 2);
            self.add(b"...");
        }
    }

    // Adds what comes before a move of a line: the first move and each White move have their number.
    fn add_move_number(&mut self, first: bool, half: u64)
        requires room { length self.old + LONGEST_MOVE_NUMBER ≤ N }
        requires half { half < 2 ^ 33 }
        ensures text { self.new ≡ self.old ++ move_number_text first half }
        ensures short { length self.new ≤ length self.old + LONGEST_MOVE_NUMBER }
    {
        if first {
            self.add_prefix(half);
            return;
        }
        self.add(b" ");
        if half % 2 == 1 {
            self.add_prefix(half);
        }
    }

    // Adds the moves of a line. `half` is the number of the first move's half-move.
    fn add_moves(&mut self, half: u64, moves: &[Shown])
        requires room { length self.old + LONGEST_MOVES ≤ N }
        requires moves { length moves.now ≤ MOST_HALF_MOVES }
        requires half { half < 2 ^ 32 }
        ensures text { self.new ≡ self.old ++ moves_text true half moves.now }
        ensures short { length self.new ≤ length self.old + LONGEST_MOVES }
    {
        let mut number = half;
        let mut first = true;
        for shown in moves {
            self.add_move_number(first, number);
            self.add_move(shown);
            first = false;
            number += 1;
        }
    }

    // Adds a line of help play.
    fn add_line(&mut self, half: u32, moves: &[Shown])
        requires room { length self.old + LONGEST_MOVES + 1 ≤ N }
        requires moves { length moves.now ≤ MOST_HALF_MOVES }
        ensures { self.new ≡ self.old ++ line_text half moves.now }
    {
        self.add_moves(u64::from(half), moves);
        self.add(b"\n");
    }

    // Adds a move of battle play, after `blanks` blanks and before the line's ending.
    fn add_node(&mut self, blanks: u64, half: u32, shown: &Shown, ending: &[u8])
        requires { length self.old + blanks + LONGEST_PREFIX + LONGEST_MOVE
            + length ending.now ≤ N }
        ensures { self.new ≡ self.old ++ (replicate blanks blank ++ prefix_text half
            ++ move_text shown.now ++ ending.now) }
    {
        self.add_blanks(blanks);
        self.add_prefix(u64::from(half));
        self.add_move(shown);
        self.add(ending);
    }

    // Adds a count between a label and the line's ending.
    fn add_count(&mut self, label: &[u8], count: u32, ending: &[u8])
        requires { length self.old + length label.now + LONGEST_NUMBER + length ending.now ≤ N }
        ensures { self.new ≡ self.old ++ (label.now ++ decimal count ++ ending.now) }
    {
        self.add(label);
        self.add_number(u64::from(count));
        self.add(ending);
    }

    // Adds `count` blanks.
    fn add_blanks(&mut self, count: u64)
        requires { length self.old + count ≤ N }
        ensures { self.new ≡ self.old ++ replicate count blank }
    {
        for _blank in 0..count {
            self.add_byte(b' ');
        }
    }
}
