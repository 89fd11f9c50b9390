//! Sinks in memory.
ghost use Rattle.std.specs.Prelude.{◌≡◌, ℕ, List, [], ◌<◌, ◌≤◌, ◌+◌, Some, length, IfOk};
ghost use Rattle.std.specs.Io.{WritesAtMost};
ghost use Rattle.pop_text.specs.Bytes.{WriteAppends, count_after, greatest_count};

use arrayvec::ArrayVec;
use pop_text::{Sink, SinkFault};
use std::marker::Model;

/// A sink that keeps at most N bytes. It fails only when it is full.
#[derive(Drop)]
pub(crate) struct MemorySink<const N: usize> {
    text: ArrayVec<u8, N>,
    failures: u64,
}

impl<const N: usize> Model for MemorySink<N> {
    ghost use Rattle.std.specs.Prelude.{◌≡◌, ◌<◌, length};
    ghost use Rattle.pop_web.specs.Page.{MemoryOutput};

    ghost Value = { MemoryOutput };

    ghost view = { λ s. record { taken = s.text.items; failures = s.failures } };

    ghost invariant = { λ s. 0 < s.failures → length s.text.items ≡ N };
}

impl<const N: usize> MemorySink<N> {
    /// Returns an empty sink.
    pub(crate) fn new() -> MemorySink<N>
        ensures { result ≡ record { taken = []; failures = 0 } }
    {
        MemorySink {
            text: ArrayVec::new(),
            failures: 0,
        }
    }

    /// Returns the bytes that the sink keeps: N bytes if a call has failed.
    pub(crate) fn text(&self) -> &[u8]
        ensures text { result.now ≡ self.now.taken }
        ensures room { length result.now ≤ N }
        ensures full { 0 < self.now.failures → length result.now ≡ N }
    {
        self.text.as_slice()
    }
}

impl<const N: usize> Sink for MemorySink<N> {
    ghost use Rattle.std.specs.Prelude.{Some};

    ghost taken = { λ s. Some s.taken };

    ghost failures = { λ s. s.failures };

    fn write(&mut self, text: &[u8]) -> Result<usize, SinkFault> {
        let count = text.len().min(self.text.remaining_capacity());
        if count == 0 && !text.is_empty() {
            self.failures += 1;
            return Err(SinkFault);
        }
        match self.text.try_extend_from_slice(&text[..count]) {
            Ok(()) => Ok(count),
            Err(_) => unreachable!("the room is counted"),
        }
    }
}
