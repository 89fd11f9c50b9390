//! Readers and writers of the standard library as sources and sinks: each call calls its reader or writer
//! once and never retries.
use pop_text::{ReadSource, Sink, Source, WriteSink};
use std::io;
use std::io::{ErrorKind, Read, Write};

/// A reader whose first call is interrupted. Each later call would return a byte.
#[derive(Drop)]
struct InterruptedReader {
    calls: u64,
}

impl Read for InterruptedReader {
    fn read(&mut self, buffer: &mut [u8]) -> io::Result<usize> {
        self.calls = self.calls.saturating_add(1);
        if self.calls == 1 || buffer.is_empty() {
            return Err(io::Error::from(ErrorKind::Interrupted));
        }
        buffer[0] = b'x';
        Ok(1)
    }
}

/// A reader that returns `given` bytes a call and counts its calls.
#[derive(Drop)]
struct CountingReader {
    given: usize,
    calls: u64,
}

impl Read for CountingReader {
    fn read(&mut self, buffer: &mut [u8]) -> io::Result<usize> {
        self.calls = self.calls.saturating_add(1);
        Ok(self.given.min(buffer.len()))
    }
}

/// What the first call of a writer does. Each later call would take the whole text.
#[derive(Clone, Copy, PartialEq, Eq)]
enum First {
    IsInterrupted,
    TakesNothing,
    TakesOneByte,
    TakesAll,
}

/// A writer that counts its calls.
#[derive(Drop)]
struct CountingWriter {
    first: First,
    calls: u64,
}

impl Write for CountingWriter {
    fn write(&mut self, text: &[u8]) -> io::Result<usize> {
        self.calls = self.calls.saturating_add(1);
        if self.calls > 1 {
            return Ok(text.len());
        }
        match self.first {
            First::IsInterrupted => Err(io::Error::from(ErrorKind::Interrupted)),
            First::TakesNothing => Ok(0),
            First::TakesOneByte => Ok(text.len().min(1)),
            First::TakesAll => Ok(text.len()),
        }
    }

    fn flush(&mut self) -> io::Result<()> {
        Ok(())
    }
}

// With a retry the first read would return a byte.
#[test]
fn an_interrupted_read_is_a_failure(rt: HostRuntime) {
    let mut source = ReadSource::new(InterruptedReader { calls: 0 });
    let mut buffer = [0u8; 4];
    assert!(rt; source.read(&mut buffer).is_err());
    assert!(rt; source.read(&mut buffer) == Ok(1));
    assert!(rt; buffer == [b'x', 0, 0, 0]);
}

// Returns the result of one call of a source, `None` for a failure, and how many calls of its reader it made.
fn read(given: usize) -> (Option<usize>, u64) {
    let mut reader = CountingReader { given, calls: 0 };
    let mut buffer = [0u8; 4];
    let answer = ReadSource::new(&mut reader).read(&mut buffer).ok();
    (answer, reader.calls)
}

// A read of no byte means the end, not a failure.
#[test]
fn a_read_makes_one_call(rt: HostRuntime) {
    assert!(rt; read(3) == (Some(3), 1));
    assert!(rt; read(0) == (Some(0), 1));
}

// Returns the result of one call of a sink, `None` for a failure, and how many calls of its writer it made.
fn written_of(text: &[u8], first: First) -> (Option<usize>, u64) {
    let mut sink = WriteSink::new(CountingWriter { first, calls: 0 });
    let answer = sink.write(text).ok();
    (answer, sink.into_inner().calls)
}

fn written(first: First) -> (Option<usize>, u64) {
    written_of(b"abc", first)
}

#[test]
fn a_write_makes_one_call(rt: HostRuntime) {
    assert!(rt; written(First::TakesAll) == (Some(3), 1));
    assert!(rt; written(First::TakesOneByte) == (Some(1), 1));
    assert!(rt; written_of(&[b'x'; 5000], First::TakesAll) == (Some(5000), 1));
}

#[test]
fn a_refused_write_is_a_failure(rt: HostRuntime) {
    assert!(rt; written(First::IsInterrupted) == (None, 1));
    assert!(rt; written(First::TakesNothing) == (None, 1));
}
