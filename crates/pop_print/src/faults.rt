//! The text of faults.
ghost use Rattle.std.specs.Prelude.{◌++◌, ◌+◌, ◌<◌, ◌≡◌, ◌≤◌, length};
ghost use Rattle.pop_text.specs.Bytes.{Writes, count_after, greatest_count};
ghost use Rattle.pop_print.specs.Faults.{fault_text};

use crate::line::{LONGEST, LineBuffer};
use pop_input::Fault;
use pop_text::{Sink, SinkFault};

// The most bytes of a faulty item (own).
const LONGEST_FAULT: usize = 140;

/// Writes a faulty item: its number, the fault with its line, and an empty line. Passes the text to the sink in one
/// piece.
///
/// # Errors
///
/// `SinkFault` if the sink fails: a beginning of the text is then written.
pub fn print_fault<W: Sink>(sink: &mut W, number: u64, fault: &Fault) -> Result<(), SinkFault>
    requires sink { W.failures sink.old < greatest_count }
    ensures bytes { Writes (W.taken sink.old) (W.taken sink.new) (fault_text number fault.now)
        result }
    ensures counted { W.failures sink.new ≡ count_after result (W.failures sink.old) }
{
    let mut lines = LineBuffer::<LONGEST>::new();
    lines.add_fault(number, fault);
    lines.put(sink)
}

impl<const N: usize> LineBuffer<N> {
    // Adds the text of a faulty item.
    #[tactic(auto, unfolding(crate::specs::Faults::fault_text))]
    fn add_fault(&mut self, number: u64, fault: &Fault)
        requires { length self.old + LONGEST_FAULT ≤ N }
        ensures { self.new ≡ self.old ++ fault_text number fault.now }
    {
        self.add_item_line(number);
        self.add(b"line ");
        self.add_number(fault.line);
        self.add(b": fault ");
        self.add_number(u64::from(fault.number()));
        self.add(b": ");
        self.add(fault.kind.message().as_bytes());
        self.add(b"\n\n");
    }
}
