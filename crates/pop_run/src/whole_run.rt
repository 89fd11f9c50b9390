//! Whole runs.
ghost use Rattle.std.specs.Prelude.{◌+◌, ◌<◌, ◌^◌, ◌≤◌, IfSome, length};
ghost use Rattle.pop_text.specs.Bytes.{greatest_count};
ghost use Rattle.pop_text.specs.Words.{window_size};
ghost use Rattle.pop_run.specs.Report.{choice_of};
ghost use Rattle.pop_run.specs.Run.{FailsOnce, ReadsUpTo, Runs, RunsBy, has_grown, input_met, taken_of};

use crate::choice::Choice;
use crate::item_writer::ItemWriter;
use crate::session::Session;
use crate::status::{Status, Step};
use pop_text::{Sink, Source};
use run_settings::Settings;

/// Reads all items of the source, writes their report to the sink and returns the status.
///
/// Writes exactly the report of the input, which depends on the settings and the input alone. If the sink fails, a
/// beginning of the report is written and the status is `OutputFailed`.
///
/// Takes at most 2^30 + 4,096 bytes from the source. At most 4,096 of them come after the first EndProblem, and none of
/// these is used. At most one source call and one sink call fail. `settings.file` is for the caller.
pub fn run<S: Source, W: Sink>(settings: &Settings, source: &mut S, sink: &mut W) -> Status
    requires source { S.failures source.old < greatest_count }
    requires sink { W.failures sink.old < greatest_count }
    ensures headline { IfSome (S.remaining source.old) (λ had.
        Runs (choice_of settings.now)
        (input_met (has_grown (S.failures source.old) (S.failures source.new))
        had (S.remaining source.new))
        (W.taken sink.old) (W.taken sink.new)
        (has_grown (W.failures sink.old) (W.failures sink.new)) result) }
    ensures reads { IfSome (S.remaining source.old) (λ had.
        ReadsUpTo (input_met (has_grown (S.failures source.old) (S.failures source.new))
        had (S.remaining source.new)) (taken_of had (S.remaining source.new))) }
    ensures once { FailsOnce (S.failures source.old) (S.failures source.new)
        × FailsOnce (W.failures sink.old) (W.failures sink.new) }
    ensures taken { IfSome (S.remaining source.old)
        (λ had. length (taken_of had (S.remaining source.new)) ≤ 2 ^ 30 + window_size) }
{
    run_with(Choice::of(settings), source, sink)
}

/// Does what `run` does, but writes items in the way of the writer, such as a `Choice`. Returns the status.
pub fn run_with<I: ItemWriter, S: Source, W: Sink>(
    writer: I,
    source: &mut S,
    sink: &mut W,
) -> Status
    requires source { S.failures source.old < greatest_count }
    requires sink { W.failures sink.old < greatest_count }
    ensures headline { IfSome (S.remaining source.old) (λ had.
        RunsBy (I.text writer)
        (input_met (has_grown (S.failures source.old) (S.failures source.new))
        had (S.remaining source.new))
        (W.taken sink.old) (W.taken sink.new)
        (has_grown (W.failures sink.old) (W.failures sink.new)) result) }
    ensures reads { IfSome (S.remaining source.old) (λ had.
        ReadsUpTo (input_met (has_grown (S.failures source.old) (S.failures source.new))
        had (S.remaining source.new)) (taken_of had (S.remaining source.new))) }
    ensures once { FailsOnce (S.failures source.old) (S.failures source.new)
        × FailsOnce (W.failures sink.old) (W.failures sink.new) }
    ensures taken { IfSome (S.remaining source.old)
        (λ had. length (taken_of had (S.remaining source.new)) ≤ 2 ^ 30 + window_size) }
{
    let mut session = Session::with(writer);
    loop {
        match session.step(source, sink) {
            Ok(Step::Problem { sound: _sound }) => {}
            Ok(Step::Finished(status)) => return status,
            Err(_) => return Status::OutputFailed,
        }
    }
}
