//! Ways to write items.
ghost use Rattle.std.specs.Prelude.{◌<◌, ◌≡◌};
ghost use Rattle.pop_text.specs.Bytes.{Writes, count_after, greatest_count};
ghost use Rattle.pop_input.specs.Blocks.{Faulty as FaultyEntry, Sound as SoundEntry};
ghost use Rattle.pop_run.specs.Report.{ItemText};

use pop_input::{Fault, Problem};
use pop_text::{Sink, SinkFault};

/// A way to write the items of an input.
pub trait ItemWriter: Copy {
    /// The text of an item, by its number.
    ghost text: { Self → ItemText };

    /// Writes the text of a sound problem.
    ///
    /// # Errors
    ///
    /// `SinkFault` if the sink fails. A beginning of the text is then written.
    fn write_sound<W: Sink>(
        &self,
        sink: &mut W,
        number: u64,
        problem: &Problem,
    ) -> Result<(), SinkFault>
        requires { W.failures sink.old < greatest_count }
        ensures bytes { Writes (W.taken sink.old) (W.taken sink.new)
            (text self.now number (SoundEntry problem.now)) result }
        ensures counted { W.failures sink.new ≡ count_after result (W.failures sink.old) };

    /// Writes the text of a fault.
    ///
    /// # Errors
    ///
    /// `SinkFault` if the sink fails. A beginning of the text is then written.
    fn write_fault<W: Sink>(
        &self,
        sink: &mut W,
        number: u64,
        fault: &Fault,
    ) -> Result<(), SinkFault>
        requires { W.failures sink.old < greatest_count }
        ensures bytes { Writes (W.taken sink.old) (W.taken sink.new)
            (text self.now number (FaultyEntry fault.now)) result }
        ensures counted { W.failures sink.new ≡ count_after result (W.failures sink.old) };
}
