//! The list of an input's parts.
ghost use Rattle.std.specs.Prelude.{◌≡◌, ◌<◌, ◌≤◌, ◌+◌, ◌++◌, IfSome, codes, decimal, length};
ghost use Rattle.pop_text.specs.Bytes.{greatest_count};
ghost use Rattle.pop_input.specs.Blocks.{Sound as SoundEntry};
ghost use Rattle.pop_input.specs.Posed.{rule_of};
ghost use Rattle.pop_walk.specs.Events.{is_impossible_phase as barred};
ghost use Rattle.pop_run.specs.Run.{FailsOnce, ReadsUpTo, has_grown, input_met, taken_of};
ghost use Rattle.pop_parts.specs.Parts.{count_of, count_text, parts_line, set_text, reported_count};
ghost use Rattle.pop_parts.specs.Runs.{Lists};

use crate::searching::parts_in;
use chess_core::Board;
use chess_rules::{Rules, in_check};
use pop_events::Phase;
use pop_input::{Fault, Problem, under_condition};
use pop_print::line::{LONGEST, LineBuffer};
use pop_run::{ItemWriter, Status, run_with};
use pop_text::{Sink, SinkFault, Source};
use std::marker::Model;

// Writes one line for each item: the number of parts of its phases. `depth` moves, 1 or more, distinguish the parts
// of help play.
#[derive(Clone, Copy)]
struct PartLines {
    depth: usize,
}

impl Model for PartLines {
    ghost use Rattle.std.specs.Prelude.{◌≤◌, ℕ};

    ghost Value = { ℕ };

    ghost view = { λ s. s.depth };

    ghost invariant = { λ s. 1 ≤ s.depth };

    ghost inverse = { λ n. record { depth = n } };
}

impl ItemWriter for PartLines {
    ghost use Rattle.pop_parts.specs.Parts.{parts_line};

    ghost text = { parts_line };

    #[tactic(auto, unfolding(crate::specs::Parts::parts_line))]
    fn write_sound<W: Sink>(
        &self,
        sink: &mut W,
        number: u64,
        problem: &Problem,
    ) -> Result<(), SinkFault> {
        let mut line = LineBuffer::<LONGEST>::new();
        add_sound(&mut line, number, self.depth, problem);
        line.put(sink)
    }

    #[tactic(auto, unfolding(crate::specs::Parts::parts_line))]
    fn write_fault<W: Sink>(
        &self,
        sink: &mut W,
        number: u64,
        _fault: &Fault,
    ) -> Result<(), SinkFault> {
        let mut line = LineBuffer::<LONGEST>::new();
        add_faulty(&mut line, number);
        line.put(sink)
    }
}

/// Reads all items of the source and writes one line for each: the number of parts of its phases. `depth`
/// moves, 1 or more, distinguish the parts of help play. Returns the status of the input.
///
/// It writes exactly the list of the input, or a beginning of the list if the sink fails; then it writes
/// nothing more and returns `OutputFailed`. It takes at most 4,096 bytes after the first EndProblem, and
/// doesn't use them. At most one call to the source and one call to the sink fail.
pub fn list_parts<S: Source, W: Sink>(depth: usize, source: &mut S, sink: &mut W) -> Status
    requires depth { 1 ≤ depth }
    requires source { S.failures source.old < greatest_count }
    requires sink { W.failures sink.old < greatest_count }
    ensures headline { IfSome (S.remaining source.old) (λ had.
        Lists depth (input_met (has_grown (S.failures source.old) (S.failures source.new)) had
        (S.remaining source.new))
        (W.taken sink.old) (W.taken sink.new)
        (has_grown (W.failures sink.old) (W.failures sink.new)) result) }
    ensures reads { IfSome (S.remaining source.old) (λ had.
        ReadsUpTo (input_met (has_grown (S.failures source.old) (S.failures source.new)) had
        (S.remaining source.new)) (taken_of had (S.remaining source.new))) }
    ensures once { FailsOnce (S.failures source.old) (S.failures source.new)
        × FailsOnce (W.failures sink.old) (W.failures sink.new) }
{
    run_with(PartLines { depth }, source, sink)
}

// Adds the line of a faulty item.
fn add_faulty<const N: usize>(line: &mut LineBuffer<N>, number: u64)
    requires { length line.old + 100 ≤ N }
    ensures { line.new ≡ line.old ++ decimal number ++ codes ": faulty\n" }
{
    line.add_number(number);
    line.add(b": faulty\n");
}

// Adds the line of a sound problem.
#[tactic(auto, unfolding(crate::specs::Parts::parts_line))]
fn add_sound<const N: usize>(line: &mut LineBuffer<N>, number: u64, depth: usize, problem: &Problem)
    requires depth { 1 ≤ depth }
    requires room { length line.old + 100 ≤ N }
    ensures { line.new ≡ line.old ++ parts_line depth number (SoundEntry problem.now) }
{
    line.add_number(number);
    line.add(b": ");
    add_set(line, depth, problem);
    line.add(b"play ");
    add_count(line, count_in(problem, Phase::Play, depth));
    line.add(b"\n");
}

// Adds the number of parts of set play, if the problem has set play.
fn add_set<const N: usize>(line: &mut LineBuffer<N>, depth: usize, problem: &Problem)
    requires depth { 1 ≤ depth }
    requires room { length line.old + 26 ≤ N }
    ensures text { line.new ≡ line.old ++ set_text problem.now depth }
    ensures short { length line.new ≤ length line.old + 26 }
{
    if problem.set_play() {
        line.add(b"set ");
        add_count(line, count_in(problem, Phase::Set, depth));
        line.add(b", ");
    }
}

// Adds the number of parts of a phase, or `not possible` for `None`.
fn add_count<const N: usize>(line: &mut LineBuffer<N>, count: Option<u64>)
    requires { length line.old + 20 ≤ N }
    ensures text { line.new ≡ line.old ++ count_text count }
    ensures short { length line.new ≤ length line.old + 20 }
{
    match count {
        None => line.add(b"not possible"),
        Some(count) => line.add_number(count),
    }
}

// Returns the number of parts of a phase, up to the greatest u64; `None` if the phase isn't possible.
#[tactic(auto, unfolding(crate::specs::Parts::count_of))]
fn count_in(problem: &Problem, phase: Phase, depth: usize) -> Option<u64>
    requires { 1 ≤ depth }
    ensures { result ≡ count_of problem.now phase depth }
{
    under_condition!(problem.condition(), count_under::<_>(problem, phase, depth))
}

// Returns the number of parts of a phase under the rules of the problem's condition.
fn count_under<R: Rules>(problem: &Problem, phase: Phase, depth: usize) -> Option<u64>
    requires depth { 1 ≤ depth }
    requires rules { R.rule ≡ rule_of problem.now.condition }
    ensures { result ≡ reported_count R.rule problem.now phase depth }
{
    if is_impossible_phase::<R>(problem, phase) {
        None
    } else {
        Some(parts_in::<R>(problem, phase, depth))
    }
}

// Returns whether the phase isn't possible: it is set play, which the other side starts, and the diagram's side to move
// is in check.
#[tactic(auto, unfolding(pop_battle::specs::Chess::is_impossible, chess_core::specs::Diagrams::position_of))]
fn is_impossible_phase<R: Rules>(problem: &Problem, phase: Phase) -> bool
    ensures { result ≡ barred R.rule problem.now phase }
{
    match phase {
        Phase::Play => false,
        Phase::Set => {
            let board = Board::of(&problem.diagram());
            in_check::<R>(&board, board.turn())
        }
    }
}
