//! Whole runs.
ghost use Rattle.std.specs.Prelude.{◌+◌, ◌<◌, ◌^◌, ◌≤◌, IfSome, length};
ghost use Rattle.pop_text.specs.Bytes.{greatest_count};
ghost use Rattle.pop_text.specs.Words.{window_size};
ghost use Rattle.pop_run.specs.Run.{FailsOnce, ReadsUpTo, RunsBy, has_grown, input_met, taken_of};
ghost use Rattle.pop_tries_run.specs.Report.{tries_entry_text};

use crate::tries_writer::TriesWriter;
use pop_run::{Choice, Status, run_with};
use pop_text::{Sink, Source};
use pop_tries::MOST_REFUTATIONS;

/// Reads all items of the source, writes their report with tries to the sink and returns the status. A try has at most
/// `most` refutations, 0 to `MOST_REFUTATIONS`.
///
/// Writes exactly the text of the items, which depends on the choice, `most` and the input alone. If the sink fails, a
/// beginning of the text is written and the status is `OutputFailed`.
///
/// Takes at most 2^30 + 4,096 bytes from the source. At most 4,096 of them come after the first EndProblem, and none of
/// these is used. At most one source call and one sink call fail.
pub fn report_tries<S: Source, W: Sink>(
    choice: Choice,
    most: u32,
    source: &mut S,
    sink: &mut W,
) -> Status
    requires few { most ≤ MOST_REFUTATIONS }
    requires source { S.failures source.old < greatest_count }
    requires sink { W.failures sink.old < greatest_count }
    ensures headline { IfSome (S.remaining source.old) (λ had.
        RunsBy (tries_entry_text choice most)
        (input_met (has_grown (S.failures source.old) (S.failures source.new))
        had (S.remaining source.new))
        (W.taken sink.old) (W.taken sink.new)
        (has_grown (W.failures sink.old) (W.failures sink.new)) result) }
    ensures reads { IfSome (S.remaining source.old) (λ had.
        ReadsUpTo (input_met (has_grown (S.failures source.old) (S.failures source.new))
        had (S.remaining source.new)) (taken_of had (S.remaining source.new))) }
    ensures once { FailsOnce (S.failures source.old) (S.failures source.new)
        × FailsOnce (W.failures sink.old) (W.failures sink.new) }
    ensures taken { IfSome (S.remaining source.old)
        (λ had. length (taken_of had (S.remaining source.new)) ≤ 2 ^ 30 + window_size) }
{
    run_with(TriesWriter::new(choice, most), source, sink)
}
