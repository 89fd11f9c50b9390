//! Sources and sinks that count their calls.
ghost use Rattle.std.specs.Prelude.{◌≡◌, ◌<◌};

use pop_text::{Device, Sink, SinkFault, Source};

/// A source or a sink, with the number of its calls, and of its calls after a failure.
#[derive(Drop)]
pub(crate) struct Counted<D> {
    pub(crate) device: D,
    pub(crate) calls: u64,
    pub(crate) calls_after_failure: u64,
    has_failed: bool,
}

impl<D> Counted<D> {
    /// Returns the device with no call counted.
    pub(crate) fn new(device: D) -> Counted<D>
        ensures { result.device ≡ device }
    {
        Counted {
            device,
            calls: 0,
            calls_after_failure: 0,
            has_failed: false,
        }
    }

    fn count(&mut self)
        ensures { self.new.device ≡ self.old.device }
    {
        self.calls = self.calls.saturating_add(1);
        if self.has_failed {
            self.calls_after_failure = self.calls_after_failure.saturating_add(1);
        }
    }
}

impl<S: Source> Source for Counted<S> {
    ghost remaining = { λ s. S.remaining s.device };

    ghost failures = { λ s. S.failures s.device };

    fn read(&mut self, buffer: &mut [u8]) -> Result<usize, Device> {
        self.count();
        let read = self.device.read(buffer);
        self.has_failed |= read.is_err();
        read
    }
}

impl<W: Sink> Sink for Counted<W> {
    ghost taken = { λ s. W.taken s.device };

    ghost failures = { λ s. W.failures s.device };

    fn write(&mut self, text: &[u8]) -> Result<usize, SinkFault> {
        self.count();
        let written = self.device.write(text);
        self.has_failed |= written.is_err();
        written
    }
}
