//! Writers of the standard library as sinks.
ghost use Rattle.std.specs.Prelude.{◌+◌, ◌-◌, ◌<◌, ◌≡◌, length};
ghost use Rattle.pop_text.specs.Bytes.{PassesOnWrite, count_after, greatest_count};

use crate::sink::{Sink, SinkFault};
use std::io;
use std::io::Write;

/// A writer of the standard library as a sink. Each call calls the writer once and never retries: an interrupted call
/// is a failure, and so is a call that takes no byte of a non-empty text.
#[derive(Drop)]
pub struct WriteSink<W> {
    writer: W,
    failures: u64,
}

impl<W: Write + Drop> WriteSink<W> {
    /// Returns a sink of this writer, with no failure counted.
    pub fn new(writer: W) -> WriteSink<W>
        ensures taken { ⟦<WriteSink<W> as Sink>⟧.taken result ≡ W.contents writer }
        ensures failures { ⟦<WriteSink<W> as Sink>⟧.failures result ≡ 0 }
    {
        WriteSink {
            writer,
            failures: 0,
        }
    }

    /// Returns the writer, with everything that it has taken.
    pub fn into_inner(self) -> W
        ensures { W.contents result ≡ ⟦<WriteSink<W> as Sink>⟧.taken self }
    {
        let WriteSink {
            writer,
            failures: _,
        } = self;
        writer
    }

    // Turns the writer's result into the sink's, and counts a failure. `Ok(0)` for a non-empty text is a failure.
    fn result_of(&mut self, answer: io::Result<usize>, text: &[u8]) -> Result<usize, SinkFault>
        requires { self.old.failures < greatest_count }
        ensures answer { PassesOnWrite (length text.now) answer result }
        ensures counted { self.new.failures ≡ count_after result self.old.failures }
        ensures writer { self.new.writer ≡ self.old.writer }
    {
        match answer {
            Ok(n) if n > 0 || text.is_empty() => Ok(n),
            _ => {
                self.failures += 1;
                Err(SinkFault)
            }
        }
    }
}

impl<W: Write + Drop> Sink for WriteSink<W> {
    ghost taken = { λ s. W.contents s.writer };

    ghost failures = { λ s. s.failures };

    fn write(&mut self, text: &[u8]) -> Result<usize, SinkFault> {
        let answer = self.writer.write(text);
        self.result_of(answer, text)
    }
}
