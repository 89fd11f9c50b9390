//! The text of the events of a search for tries.
ghost use Rattle.std.specs.Prelude.{◌<◌, ◌≡◌};
ghost use Rattle.pop_text.specs.Bytes.{Writes, count_after, greatest_count};
ghost use Rattle.pop_print.specs.Tries.{try_event_text};

use crate::events::{print_count, print_event, print_node, print_total};
use pop_events::TryEvent;
use pop_text::{Sink, SinkFault, put_all};

/// Writes an event of a search for tries as one line.
///
/// Passes the line to the sink in one piece; only blanks before a node beyond the 64th go one by one.
///
/// # Errors
///
/// `SinkFault` if the sink fails: a beginning of the line is then written.
///
/// # Example
///
/// ```rust
/// use pop_events::TryEvent;
/// use pop_print::print_try_event;
/// use pop_text::TrialSink;
///
/// let mut sink = TrialSink::<64>::new(64, None);
/// print_try_event(&mut sink, &TryEvent::Tries)?;
/// print_try_event(&mut sink, &TryEvent::TryTotal { count: 0 })?;
/// assert!(rt; sink.text() == b"tries\ntries: 0\n".as_slice());
/// ```
#[tactic(auto, unfolding(crate::specs::Tries::try_event_text))]
pub fn print_try_event<W: Sink>(sink: &mut W, event: &TryEvent) -> Result<(), SinkFault>
    requires { W.failures sink.old < greatest_count }
    ensures bytes { Writes (W.taken sink.old) (W.taken sink.new) (try_event_text event.now) result }
    ensures counted { W.failures sink.new ≡ count_after result (W.failures sink.old) }
{
    match event {
        TryEvent::NoTries => put_all(sink, b"no tries in help play\n"),
        TryEvent::Set(event) => print_event(sink, event),
        TryEvent::Keys => put_all(sink, b"play\n"),
        TryEvent::Key(shown) => print_node(sink, 0, 1, shown, b"!\n"),
        TryEvent::KeyTotal { count, stopped } => print_total(sink, *count, *stopped),
        TryEvent::Tries => put_all(sink, b"tries\n"),
        TryEvent::Try(shown) => print_node(sink, 0, 1, shown, b"?\n"),
        TryEvent::TryTotal { count } => print_count(sink, b"tries: ", *count, b"\n"),
        TryEvent::Check => put_all(sink, b"  check\n"),
        TryEvent::Threat => put_all(sink, b"  threat\n"),
        TryEvent::Zugzwang => put_all(sink, b"  zugzwang\n"),
        TryEvent::Node { depth, half, shown } => print_node(sink, *depth, *half, shown, b"\n"),
        TryEvent::But => put_all(sink, b"  but\n"),
        TryEvent::Refutation(shown) => print_node(sink, 2, 2, shown, b"!\n"),
        TryEvent::Stalemate => put_all(sink, b"    stalemate\n"),
    }
}
