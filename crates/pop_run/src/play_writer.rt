//! Ways to write the play of a problem, and the report of a sound problem by them.
ghost use Rattle.std.specs.Prelude.{◌<◌, ◌≡◌, false};
ghost use Rattle.pop_text.specs.Bytes.{Writes, count_after, greatest_count};
ghost use Rattle.pop_input.specs.Blocks.{Sound as SoundEntry};
ghost use Rattle.pop_run.specs.Report.{entry_text_by};

use crate::choice::Choice;
use pop_input::Problem;
use pop_print::{print_checked, print_head};
use pop_text::{Sink, SinkFault, put_all};

/// A way to write the play of a sound problem, such as its solutions.
pub trait PlayWriter {
    ghost use Rattle.std.specs.Prelude.{List, ℕ};
    ghost use Rattle.pop_input.specs.Posed.{Posed};

    /// The text of a problem's play.
    ghost play: { Self → Posed → List ℕ };

    /// Writes the play of a problem.
    ///
    /// # Errors
    ///
    /// `SinkFault` if the sink fails. A beginning of the text is then written.
    fn write_play<W: Sink>(&self, sink: &mut W, problem: &Problem) -> Result<(), SinkFault>
        requires { W.failures sink.old < greatest_count }
        ensures bytes { Writes (W.taken sink.old) (W.taken sink.new) (play self.now problem.now)
            result }
        ensures counted { W.failures sink.new ≡ count_after result (W.failures sink.old) };
}

/// Writes the report of a sound problem: its head and play, or, if problems are only tested, that it is sound.
///
/// # Errors
///
/// `SinkFault` if the sink fails. A beginning of the report is then written.
#[tactic(auto, unfolding(crate::specs::Report::entry_text_by))]
pub fn print_sound<P: PlayWriter, W: Sink>(
    play: &P,
    sink: &mut W,
    number: u64,
    problem: &Problem,
    choice: Choice,
) -> Result<(), SinkFault>
    requires { W.failures sink.old < greatest_count }
    ensures bytes { Writes (W.taken sink.old) (W.taken sink.new)
        (entry_text_by (P.play play.now) choice number (SoundEntry problem.now)) result }
    ensures counted { W.failures sink.new ≡ count_after result (W.failures sink.old) }
{
    if choice.check {
        print_checked(sink, number, problem, choice.no_board)
    } else {
        print_solved(play, sink, number, problem, choice.no_board)
    }
}

// Writes the head, the play and an empty line.
#[tactic(auto, unfolding(crate::specs::Report::entry_text_by))]
fn print_solved<P: PlayWriter, W: Sink>(
    play: &P,
    sink: &mut W,
    number: u64,
    problem: &Problem,
    no_board: bool,
) -> Result<(), SinkFault>
    requires { W.failures sink.old < greatest_count }
    ensures bytes { Writes (W.taken sink.old) (W.taken sink.new)
        (entry_text_by (P.play play.now) (record { check = false; no_board = no_board }) number
        (SoundEntry problem.now)) result }
    ensures counted { W.failures sink.new ≡ count_after result (W.failures sink.old) }
{
    print_head(sink, number, problem, no_board)?;
    play.write_play(sink, problem)?;
    put_all(sink, b"\n")
}
