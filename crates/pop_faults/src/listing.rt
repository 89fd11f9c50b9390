//! The list of an input's faults.
ghost use Rattle.std.specs.Prelude.{◌≡◌, ◌<◌, ◌≤◌, ◌+◌, ◌++◌, IfSome, length, not, true};
ghost use Rattle.pop_text.specs.Bytes.{Writes, count_after, greatest_count};
ghost use Rattle.pop_input.specs.FaultKinds.{is_device_failure};
ghost use Rattle.pop_input.specs.ties.ReaderState.{is_item};
ghost use Rattle.pop_run.specs.Run.{FailsOnce, ReadsUpTo, has_grown, input_met, taken_of};
ghost use Rattle.pop_run.specs.ties.Sessions.{status_with};
ghost use Rattle.pop_faults.specs.FaultList.{fault_line};
ghost use Rattle.pop_faults.specs.ties.FaultRuns.{ListsFaults};
ghost use Rattle.pop_faults.specs.ties.ReadItems.{item_text, status_after};

use pop_input::{Fault, Item, Reader, Span};
use pop_print::line::{LONGEST, LineBuffer};
use pop_run::Status;
use pop_text::{Sink, SinkFault, Source};

// The most bytes of a line (own).
const LONGEST_LINE: usize = 140;

/// Reads all items of the source and writes a line for each faulty one: its number, the fault with its line, and the
/// range of bytes where it is found. Returns the status of the input.
///
/// It writes exactly the list of the input, or a beginning of the list if the sink fails; then it writes nothing more
/// and returns `OutputFailed`. It takes at most 4,096 bytes after the first EndProblem, and doesn't use them. At most
/// one call to the source and one call to the sink fail.
pub fn list_faults<S: Source, W: Sink>(source: &mut S, sink: &mut W) -> Status
    requires source { S.failures source.old < greatest_count }
    requires sink { W.failures sink.old < greatest_count }
    ensures headline { IfSome (S.remaining source.old) (λ had.
        ListsFaults had (S.remaining source.new)
        (has_grown (S.failures source.old) (S.failures source.new))
        (W.taken sink.old) (W.taken sink.new)
        (has_grown (W.failures sink.old) (W.failures sink.new)) result) }
    ensures reads { IfSome (S.remaining source.old) (λ had.
        ReadsUpTo (input_met (has_grown (S.failures source.old) (S.failures source.new)) had
        (S.remaining source.new)) (taken_of had (S.remaining source.new))) }
    ensures once { FailsOnce (S.failures source.old) (S.failures source.new)
        × FailsOnce (W.failures sink.old) (W.failures sink.new) }
{
    let mut reader = Reader::new();
    let mut number: u64 = 1;
    let mut status = Status::Sound;
    loop {
        let (item, span) = reader.next_with_span(source);
        if is_end(&item) {
            return status;
        }
        match put_item(sink, number, &item, span) {
            Ok(()) => {
                status = status_after(status, &item);
                number += 1;
            }
            Err(_) => return Status::OutputFailed,
        }
    }
}

// Returns whether no item is left.
fn is_end(item: &Item) -> bool
    ensures { result ≡ not (is_item item.now) }
{
    match item {
        Item::End => true,
        Item::Sound(_, _) | Item::Faulty(_, _) => false,
    }
}

// Writes the line of an item, if it is faulty.
fn put_item<W: Sink>(sink: &mut W, number: u64, item: &Item, span: Span) -> Result<(), SinkFault>
    requires { W.failures sink.old < greatest_count }
    ensures bytes { Writes (W.taken sink.old) (W.taken sink.new) (item_text number item.now span)
        result }
    ensures counted { W.failures sink.new ≡ count_after result (W.failures sink.old) }
{
    match item {
        Item::Sound(_, _) | Item::End => Ok(()),
        Item::Faulty(fault, _) => put_fault(sink, number, fault, span),
    }
}

// Writes the line of a faulty item.
fn put_fault<W: Sink>(sink: &mut W, number: u64, fault: &Fault, span: Span) -> Result<(), SinkFault>
    requires { W.failures sink.old < greatest_count }
    ensures bytes { Writes (W.taken sink.old) (W.taken sink.new)
        (fault_line number fault.now span) result }
    ensures counted { W.failures sink.new ≡ count_after result (W.failures sink.old) }
{
    let mut line = LineBuffer::<LONGEST>::new();
    add_fault(&mut line, number, fault, span);
    line.put(sink)
}

// Adds the line of a faulty item.
#[tactic(auto, unfolding(crate::specs::FaultList::fault_line))]
fn add_fault<const N: usize>(line: &mut LineBuffer<N>, number: u64, fault: &Fault, span: Span)
    requires { length line.old + LONGEST_LINE ≤ N }
    ensures { line.new ≡ line.old ++ fault_line number fault.now span }
{
    line.add_number(number);
    line.add(b": fault ");
    line.add_number(u64::from(fault.number()));
    line.add(b", line ");
    line.add_number(fault.line);
    line.add(b", bytes ");
    line.add_number(u64::from(span.start));
    line.add(b" up to ");
    line.add_number(u64::from(span.end));
    line.add(b"\n");
}

// Returns the status after one more item.
fn status_after(so_far: Status, item: &Item) -> Status
    ensures { result ≡ status_after so_far item.now }
{
    match item {
        Item::Sound(_, _) | Item::End => so_far,
        Item::Faulty(fault, _) => status_with(so_far, fault),
    }
}

// Returns the status after one more fault.
fn status_with(so_far: Status, fault: &Fault) -> Status
    ensures { result ≡ status_with so_far (is_device_failure fault.now.kind) true }
{
    match so_far {
        _ if fault.kind.is_device_failure() => Status::InputFailed,
        Status::Sound => Status::Faulty,
        so_far => so_far,
    }
}
