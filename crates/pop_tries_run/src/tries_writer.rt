//! The items of a report with tries.
ghost use Rattle.std.specs.Prelude.{◌≡◌, ◌<◌, ◌≤◌};
ghost use Rattle.pop_text.specs.Bytes.{Writes, count_after, greatest_count};
ghost use Rattle.pop_input.specs.Posed.{rule_of};
ghost use Rattle.pop_tries.specs.Events.{try_events};
ghost use Rattle.pop_tries_run.specs.Report.{tries_text};

use chess_rules::Rules;
use pop_input::{Fault, MOST_FRAMES, Problem, under_condition};
use pop_print::{print_fault, print_try_event};
use pop_run::{Choice, ItemWriter, PlayWriter, print_sound};
use pop_text::{Sink, SinkFault};
use pop_tries::{MOST_REFUTATIONS, TriesSearch};
use std::marker::Model;

/// Writes items with their keys and tries. Contracts see the choice and the greatest number of refutations of a try.
#[derive(Clone, Copy)]
pub struct TriesWriter {
    choice: Choice,
    most: u32,
}

impl Model for TriesWriter {
    ghost use Rattle.std.specs.Prelude.{◌≤◌, ℕ};
    ghost use Rattle.pop_run.specs.declared.choice.Choice.{Choice};
    ghost use Rattle.pop_tries_run.specs.Report.{most_refutations};

    ghost Value = { Choice × ℕ };

    ghost view = { λ s. (s.choice, s.most) };

    ghost invariant = { λ s. s.most ≤ most_refutations };

    ghost inverse = { λ v. record { choice = v.0; most = v.1 } };
}

impl TriesWriter {
    /// Returns a writer that shows tries with at most `most` refutations, 0 to `MOST_REFUTATIONS`.
    pub fn new(choice: Choice, most: u32) -> TriesWriter
        requires { most ≤ MOST_REFUTATIONS }
        ensures { result ≡ (choice, most) }
    {
        TriesWriter { choice, most }
    }
}

impl PlayWriter for TriesWriter {
    ghost use Rattle.pop_tries_run.specs.Report.{tries_text};

    ghost play = { λ w. tries_text w.1 };

    // Chooses the rules of the problem's condition.
    fn write_play<W: Sink>(&self, sink: &mut W, problem: &Problem) -> Result<(), SinkFault> {
        let most = self.most;
        under_condition!(
            problem.condition(),
            print_tries::<_, W>(sink, problem, most)
        )
    }
}

impl ItemWriter for TriesWriter {
    ghost use Rattle.pop_tries_run.specs.Report.{tries_entry_text};

    ghost text = { λ w. tries_entry_text w.0 w.1 };

    fn write_sound<W: Sink>(
        &self,
        sink: &mut W,
        number: u64,
        problem: &Problem,
    ) -> Result<(), SinkFault> {
        print_sound(self, sink, number, problem, self.choice)
    }

    #[tactic(auto, unfolding(pop_run::specs::Report::entry_text_by))]
    fn write_fault<W: Sink>(
        &self,
        sink: &mut W,
        number: u64,
        fault: &Fault,
    ) -> Result<(), SinkFault> {
        print_fault(sink, number, fault)
    }
}

// Writes the events of a problem with its tries, each as soon as the search finds it.
fn print_tries<R: Rules, W: Sink>(
    sink: &mut W,
    problem: &Problem,
    most: u32,
) -> Result<(), SinkFault>
    requires sink { W.failures sink.old < greatest_count }
    requires few { most ≤ MOST_REFUTATIONS }
    requires rules { R.rule ≡ rule_of problem.now.condition }
    ensures bytes { Writes (W.taken sink.old) (W.taken sink.new) (tries_text most problem.now)
        result }
    ensures counted { W.failures sink.new ≡ count_after result (W.failures sink.old) }
{
    let mut search = start_search::<R>(problem, most);
    // Borrows the event: moving it out of its `Some` would copy it.
    while let Some(event) = &search.next() {
        print_try_event(sink, event)?;
    }
    Ok(())
}

// Returns a search with room for the longest stipulation.
fn start_search<R: Rules>(problem: &Problem, most: u32) -> TriesSearch<R, MOST_FRAMES>
    requires { most ≤ MOST_REFUTATIONS }
    ensures problem { result.problem ≡ problem.now }
    ensures left { result.left ≡ try_events R.rule problem.now most }
{
    problem.show_sound();
    TriesSearch::new(problem, most)
}
