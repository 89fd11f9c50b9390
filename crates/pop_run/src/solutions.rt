//! The solutions of a problem, as they are written.
ghost use Rattle.std.specs.Prelude.{◌≡◌, ◌<◌};
ghost use Rattle.std.specs.List.{flat_map};
ghost use Rattle.pop_text.specs.Bytes.{Writes, count_after, greatest_count};
ghost use Rattle.pop_input.specs.Posed.{rule_of};
ghost use Rattle.pop_walk.specs.Events.{events, events_of};
ghost use Rattle.pop_print.specs.Events.{event_text};

use crate::play_writer::PlayWriter;
use chess_rules::Rules;
use pop_input::{MOST_FRAMES, Problem, under_condition};
use pop_print::print_event;
use pop_solve::PrunedSearch;
use pop_text::{Sink, SinkFault};

// Writes the solutions of a problem.
pub(crate) struct SolutionsWriter;

impl PlayWriter for SolutionsWriter {
    ghost use Rattle.pop_run.specs.Report.{solutions_text};

    ghost play = { λ _. solutions_text };

    // Chooses the rules of the problem's condition.
    fn write_play<W: Sink>(&self, sink: &mut W, problem: &Problem) -> Result<(), SinkFault> {
        under_condition!(problem.condition(), print_solutions::<_, W>(sink, problem))
    }
}

// Writes the events of a problem, each as soon as the search finds it.
fn print_solutions<R: Rules, W: Sink>(sink: &mut W, problem: &Problem) -> Result<(), SinkFault>
    requires sink { W.failures sink.old < greatest_count }
    requires rules { R.rule ≡ rule_of problem.now.condition }
    ensures bytes { Writes (W.taken sink.old) (W.taken sink.new)
        (flat_map event_text (events_of problem.now)) result }
    ensures counted { W.failures sink.new ≡ count_after result (W.failures sink.old) }
{
    let mut search = start_search::<R>(problem);
    // Borrows the event: moving it out of its `Some` would copy it.
    while let Some(event) = &search.next() {
        print_event(sink, event)?;
    }
    Ok(())
}

// Returns a search with room for the longest stipulation.
fn start_search<R: Rules>(problem: &Problem) -> PrunedSearch<R, MOST_FRAMES>
    requires { R.rule ≡ rule_of problem.now.condition }
    ensures problem { result.problem ≡ problem.now }
    ensures left { result.left ≡ events R.rule problem.now }
{
    problem.show_sound();
    PrunedSearch::new(problem)
}
