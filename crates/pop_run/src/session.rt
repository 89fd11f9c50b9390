//! Sessions: runs that report one item a call.
ghost use Rattle.std.specs.Prelude.{◌+◌, ◌<◌, ◌==◌, ◌||◌, ◌≡◌, ◌≤◌, ◌⊎◌, IsErr, false, is_err, length, true};
ghost use Rattle.pop_text.specs.Bytes.{count_after, greatest_count};
ghost use Rattle.pop_text.specs.Words.{limit, window_size};
ghost use Rattle.pop_text.specs.declared.scanner.End.{End};
ghost use Rattle.pop_text.specs.ties.Reading.{IsEndSeen, failures_after};
ghost use Rattle.pop_input.specs.FaultKinds.{is_device_failure};
ghost use Rattle.pop_input.specs.ties.ReaderState.{work_left};
ghost use Rattle.pop_run.specs.Report.{choice_of};
ghost use Rattle.pop_run.specs.ties.Sessions.{HasMore, Steps, first_state, is_problem, status_with as with_item, step_of};

use crate::choice::Choice;
use crate::item_writer::ItemWriter;
use crate::status::{Status, Step};
use pop_input::{Fault, Item, Last, Reader};
use pop_text::{Sink, SinkFault, Source};
use run_settings::Settings;
use std::marker::Model;

/// A run over the items of one input, which it writes in the way of an `ItemWriter`. Contracts see it as a `RunState`.
#[derive(Drop)]
pub struct Session<I: ItemWriter = Choice> {
    reader: Reader,
    next_number: u64,
    so_far: Status,
    last: Last,
    has_stopped: bool,
    writer: I,
}

impl<I: ItemWriter> Model for Session<I> {
    ghost use Rattle.std.specs.Prelude.{◌≡◌, ◌≤◌, ◌+◌, ◌^◌, length};
    ghost use Rattle.pop_text.specs.Words.{limit, window_size};
    ghost use Rattle.pop_input.specs.ties.ReaderState.{work_left};
    ghost use Rattle.pop_run.specs.ties.Sessions.{RunState, ends, is_last};

    ghost Value = { RunState I };

    ghost view = { λ s. record {
      at = s.reader;
      number = s.next_number;
      status = s.so_far;
      stopped = s.has_stopped;
      writer = s.writer;
    } };

    ghost invariant = { λ s. (s.next_number + work_left s.reader ≤ 2 ^ 31)
        × (s.reader.at.used ≤ limit) × (length s.reader.at.window ≤ window_size)
        × (ends s.reader.next ≡ is_last s.last) };
}

impl Session<Choice> {
    /// Returns a session before its first item. Only the two flags of the settings matter; `file` is for the caller.
    pub fn new(settings: &Settings) -> Session<Choice>
        ensures { result ≡ first_state (choice_of settings.now) }
    {
        Session::with(Choice::of(settings))
    }
}

impl<I: ItemWriter> Session<I> {
    /// Returns a session before its first item, which writes items in this way.
    #[tactic(auto, unfolding(pop_text::specs::Words::limit))]
    pub fn with(writer: I) -> Session<I>
        ensures { result ≡ first_state writer }
    {
        Session {
            reader: Reader::new(),
            next_number: 1,
            so_far: Status::Sound,
            last: Last::No,
            has_stopped: false,
            writer,
        }
    }

    /// Reads the next item and writes its report. Uses the input's bytes up to the end of the word that closes the
    /// item, and none after it. After the last item it calls neither source nor sink, and returns the status of all
    /// items.
    ///
    /// # Errors
    ///
    /// `SinkFault` if the sink fails: a beginning of the item's report is then written. Every later call returns
    /// `SinkFault` and calls neither source nor sink.
    pub fn step<S: Source, W: Sink>(
        &mut self,
        source: &mut S,
        sink: &mut W,
    ) -> Result<Step, SinkFault>
        requires source { HasMore self.old → self.old.at.at.end ≡ End.Open
            → S.failures source.old < greatest_count }
        requires sink { HasMore self.old → W.failures sink.old < greatest_count }
        ensures does { self.old.stopped ≡ false
            → Steps I.text self.old self.new (S.remaining source.old) (S.remaining source.new)
            (W.taken sink.old) (W.taken sink.new) result }
        ensures stopped { self.old.stopped ≡ true
            → IsErr result × (self.new ≡ self.old) × (source.new ≡ source.old)
            × (sink.new ≡ sink.old) }
        ensures seen { IsEndSeen self.old.at.at.end (S.remaining source.old)
            → IsEndSeen self.new.at.at.end (S.remaining source.new) }
        ensures ends { self.old.at.at.end ≡ End.Open ⊎ self.new.at.at.end ≡ self.old.at.at.end }
        ensures read_failures { S.failures source.new
            ≡ failures_after self.old.at.at.end self.new.at.at.end (S.failures source.old) }
        ensures write_failures { self.old.stopped ≡ false
            → W.failures sink.new ≡ count_after result (W.failures sink.old) }
        ensures within { self.new.at.at.used ≤ limit }
        ensures waits { length self.new.at.at.window ≤ window_size }
        ensures less { is_problem result ≡ true → work_left self.new.at < work_left self.old.at }
    {
        if self.has_stopped {
            return Err(SinkFault);
        }
        if self.last == Last::Yes {
            return Ok(Step::Finished(self.so_far));
        }
        let number = self.next_number;
        let item = self.reader.next_problem(source);
        match &item {
            Item::End => Ok(Step::Finished(self.so_far)),
            Item::Sound(problem, last) => {
                self.next_number += 1;
                self.last = *last;
                let printed = self.writer.write_sound(sink, number, problem);
                self.step_after(printed, Step::Problem { sound: true })
            }
            Item::Faulty(fault, last) => {
                self.next_number += 1;
                self.last = *last;
                self.so_far = status_with(self.so_far, fault);
                let printed = self.writer.write_fault(sink, number, fault);
                self.step_after(printed, Step::Problem { sound: false })
            }
        }
    }

    // Returns the step of an item that is sound or not. If the item couldn't be printed, stops the session.
    fn step_after(&mut self, printed: Result<(), SinkFault>, step: Step) -> Result<Step, SinkFault>
        ensures step { result ≡ step_of printed step }
        ensures stops { self.new ≡ record self.old {
          stopped = self.old.stopped
              || is_err printed;
        } }
    {
        match printed {
            Ok(()) => Ok(step),
            Err(fault) => {
                self.has_stopped = true;
                Err(fault)
            }
        }
    }
}

// Returns the status after one more fault.
fn status_with(so_far: Status, fault: &Fault) -> Status
    ensures { result ≡ with_item so_far (is_device_failure fault.now.kind) true }
{
    match so_far {
        _ if fault.kind.is_device_failure() => Status::InputFailed,
        Status::Sound => Status::Faulty,
        so_far => so_far,
    }
}
