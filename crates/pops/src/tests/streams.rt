//! The program on writers that fail.
use crate::program::program;
use std::io;
use std::io::{ErrorKind, Write};
use std::test::Fail;

/// Which calls of a writer fail.
#[derive(Clone, Copy, PartialEq, Eq)]
enum Failing {
    Writes,
    Flushes,
}

/// A writer that takes nothing or whose flush fails. It counts its calls.
#[derive(Drop)]
struct FailingWriter {
    failing: Failing,
    writes: u64,
    flushes: u64,
}

impl FailingWriter {
    fn new(failing: Failing) -> FailingWriter {
        FailingWriter {
            failing,
            writes: 0,
            flushes: 0,
        }
    }
}

impl Write for FailingWriter {
    fn write(&mut self, text: &[u8]) -> io::Result<usize> {
        self.writes = self.writes.saturating_add(1);
        match self.failing {
            Failing::Writes => Err(io::Error::from(ErrorKind::BrokenPipe)),
            Failing::Flushes => Ok(text.len()),
        }
    }

    fn flush(&mut self) -> io::Result<()> {
        self.flushes = self.flushes.saturating_add(1);
        match self.failing {
            Failing::Writes => Ok(()),
            Failing::Flushes => Err(io::Error::from(ErrorKind::BrokenPipe)),
        }
    }
}

const PROBLEM: &[u8] =
    b"BeginProblem\nPieces White Kg6 Ra1 Black Kg8\nStipulation #1\nEndProblem\n";

// The program writes nothing more after a failed write.
#[test]
fn an_output_that_refuses_its_first_byte(rt: HostRuntime) -> Result<(), Fail> {
    let mut output = FailingWriter::new(Failing::Writes);
    let mut errors = Vec::new(rt.alloc());
    let status = program(&rt, &["pops"], PROBLEM, &mut output, &mut errors);
    assert_eq!(rt; status, 3);
    assert!(rt; errors.as_slice() == b"pops: output failed\n".as_slice());
    assert_eq!(rt; output.writes, 1);
    Ok(())
}

#[test]
fn an_output_whose_flush_fails(rt: HostRuntime) -> Result<(), Fail> {
    let mut output = FailingWriter::new(Failing::Flushes);
    let mut errors = Vec::new(rt.alloc());
    let status = program(&rt, &["pops"], PROBLEM, &mut output, &mut errors);
    assert_eq!(rt; status, 3);
    assert!(rt; errors.as_slice() == b"pops: output failed\n".as_slice());
    assert_eq!(rt; output.flushes, 1);
    Ok(())
}

// The exit status doesn't depend on whether standard error can be written.
#[test]
fn errors_that_can_not_be_written(rt: HostRuntime) {
    let mut output = FailingWriter::new(Failing::Writes);
    let mut errors = FailingWriter::new(Failing::Writes);
    assert_eq!(rt;
        program(&rt, &["pops"], PROBLEM, &mut output, &mut errors),
        3
    );
    assert_eq!(rt;
        program(&rt, &["pops", "--fast"], PROBLEM, &mut output, &mut errors),
        2
    );
    assert_eq!(rt; output.writes, 1);
}
