//! Inputs that are longer than the reading window, and sources and sinks that fail.
ghost use Rattle.std.specs.Prelude.{◌<◌};

use crate::counted::Counted;
use crate::report::settings;
use pop_run::{Session, Status, Step, run};
use pop_text::{SinkFault, Source, TrialSink, TrialSource};
use std::alloc::AllocError;
use std::test::Fail;

const PROBLEM: &[u8] = crate::tests::rows::orthodox::MATE_IN_ONE_INPUT;

const REPORT: &[u8] = crate::tests::rows::orthodox::MATE_IN_ONE_REPORT;

// A faulty problem, a sound one, and one in which the input ends.
const THREE: &[u8] = crate::tests::rows::several::THREE_PROBLEMS_INPUT;

const THREE_REPORT: &[u8] = crate::tests::rows::several::THREE_PROBLEMS_REPORT;

// The size of a sink, more than any report of these tests.
const ROOM: usize = 1024;

// Returns a text of `front`, `count` times `byte`, and `back`.
fn text(
    rt: &HostRuntime,
    front: &[u8],
    byte: u8,
    count: usize,
    back: &[u8],
) -> Result<Vec<u8>, AllocError> {
    let mut text = Vec::new(rt.alloc());
    text.extend_from_slice(front)?;
    for _byte in 0..count {
        text.push(byte)?;
    }
    text.extend_from_slice(back)?;
    Ok(text)
}

fn mates(input: &[u8]) -> bool {
    let mut source = TrialSource::new(input, 65_536, None);
    let mut sink = TrialSink::<ROOM>::new(4096, None);
    let status = run(&settings(false), &mut source, &mut sink);
    status == Status::Sound && sink.text() == REPORT
}

#[test]
fn texts_past_a_window(rt: HostRuntime) -> Result<(), Fail> {
    assert!(rt; mates(text(&rt, b"", b' ', 4090, PROBLEM)?.as_slice()));
    assert!(rt;
        mates(text(
            &rt,
            b"BeginProblem\nRemark ",
            b'y',
            10_000,
            b"\nPieces White Kg6 Ra1 Black Kg8\nStipulation #1\nEndProblem\n"
        )?
        .as_slice())
    );
    Ok(())
}

// The text after the last problem is in the window: nothing is left in the source.
#[test]
fn blanks_after_the_end(rt: HostRuntime) -> Result<(), Fail> {
    let input = text(&rt, PROBLEM, b' ', 1000, b"")?;
    let mut source = TrialSource::new(input.as_slice(), 65_536, None);
    let mut sink = TrialSink::<ROOM>::new(4096, None);
    assert!(rt; run(&settings(false), &mut source, &mut sink) == Status::Sound);
    assert!(rt; sink.text() == REPORT);
    let mut more = [0; 16];
    assert!(rt; source.read(&mut more) == Ok(0));
    Ok(())
}

// Returns whether the report is right with a source of `given` bytes a call and a sink of `taken` bytes a call.
fn reports_three(given: usize, taken: usize) -> bool
    requires given { 0 < given }
    requires taken { 0 < taken }
{
    let mut source = TrialSource::new(THREE, given, None);
    let mut sink = TrialSink::<ROOM>::new(taken, None);
    let status = run(&settings(false), &mut source, &mut sink);
    status == Status::Faulty && sink.text() == THREE_REPORT
}

// The report doesn't depend on how many bytes a source or a sink moves a call.
#[test]
fn bytes_a_call(rt: HostRuntime) {
    for given in &[1, 2, 3, 4095, 4096, 4097] {
        for taken in &[1, 2, 3, 4096] {
            assert!(rt;
                reports_three(*given, *taken),
                "{given} bytes given, {taken} taken"
            );
        }
    }
}

// Returns the report before its last line, if the source fails after `bytes` bytes. A word is complete once the byte
// after it was read. The second rook, on an occupied square, is bytes 30 to 32; the second NextProblem is bytes 149 to
// 159; the last K, without a square, is byte 174. If the source fails before the end of the first NextProblem, bytes 91
// to 101, the failure is an item of its own after the fault of problem 1; later it is the fault of problem 2. Both have
// the number 2.
fn before_the_failure(bytes: usize) -> &'static [u8] {
    match bytes {
        0..=33 => b"problem 1\n",
        34..=160 => b"problem 1\nline 2: fault 5: square given twice\n\nproblem 2\n",
        161..=175 => {
            b"problem 1\nline 2: fault 5: square given twice\n\nproblem 2\n8 ......k.\n7 ........\n6 ......K.\n5 ........\n4 ........\n3 ........\n2 ........\n1 R.......\n  abcdefgh\n#1\nplay\n1.Ra1-a8#\nsolutions: 1\n\nproblem 3\n"
        }
        _ => {
            b"problem 1\nline 2: fault 5: square given twice\n\nproblem 2\n8 ......k.\n7 ........\n6 ......K.\n5 ........\n4 ........\n3 ........\n2 ........\n1 R.......\n  abcdefgh\n#1\nplay\n1.Ra1-a8#\nsolutions: 1\n\nproblem 3\nline 9: fault 14: square expected\n\nproblem 4\n"
        }
    }
}

// Returns the last line of the report: the failure, in the line after these bytes.
fn failure_in(bytes: &[u8]) -> &'static [u8] {
    let line_ends = bytes.iter().filter(|byte| **byte == b'\n').count();
    match line_ends {
        0 => b"line 1: fault 21: input device failed\n\n",
        1 => b"line 2: fault 21: input device failed\n\n",
        2 => b"line 3: fault 21: input device failed\n\n",
        3 => b"line 4: fault 21: input device failed\n\n",
        4 => b"line 5: fault 21: input device failed\n\n",
        5 => b"line 6: fault 21: input device failed\n\n",
        6 => b"line 7: fault 21: input device failed\n\n",
        7 => b"line 8: fault 21: input device failed\n\n",
        8 => b"line 9: fault 21: input device failed\n\n",
        _ => b"line 10: fault 21: input device failed\n\n",
    }
}

// Returns whether a source that fails after this beginning is reported and isn't called again.
fn reports_device_failure(beginning: &[u8], given: usize) -> bool
    requires { 0 < given }
{
    let bytes = beginning.len();
    let mut source = Counted::new(TrialSource::new(THREE, given, Some(bytes)));
    let mut sink = TrialSink::<ROOM>::new(4096, None);
    let status = run(&settings(false), &mut source, &mut sink);
    let report = sink.text().strip_prefix(before_the_failure(bytes));
    status == Status::InputFailed
        && report == Some(failure_in(beginning))
        && source.calls_after_failure == 0
}

// The source fails once, after each number of bytes. It would work again, but isn't called again.
#[test]
fn a_source_that_fails(rt: HostRuntime) {
    for bytes in 0..THREE.len() + 1 {
        for given in &[1, 4096] {
            assert!(rt;
                reports_device_failure(&THREE[..bytes], *given),
                "{bytes} bytes"
            );
        }
    }
}

// Returns whether a sink that fails after this beginning of the report holds exactly that and isn't called again.
fn holds(beginning: &[u8], taken: usize) -> bool
    requires { 0 < taken }
{
    let mut source = TrialSource::new(THREE, 4096, None);
    let failing = TrialSink::<ROOM>::new(taken, Some(beginning.len()));
    let mut sink = Counted::new(failing);
    let status = run(&settings(false), &mut source, &mut sink);
    status == Status::OutputFailed
        && sink.device.text() == beginning
        && sink.calls_after_failure == 0
}

// The sink fails once, after each number of bytes of the report, and holds exactly these. It would work again, but
// isn't called again.
#[test]
fn a_sink_that_fails(rt: HostRuntime) {
    for bytes in 0..THREE_REPORT.len() {
        for taken in &[1, 4096] {
            assert!(rt; holds(&THREE_REPORT[..bytes], *taken), "{bytes} bytes");
        }
    }
}

#[test]
fn a_sink_that_fails_after_seven_bytes(rt: HostRuntime) {
    let mut source = TrialSource::new(PROBLEM, 4096, None);
    let mut sink = TrialSink::<ROOM>::new(4096, Some(7));
    assert!(rt; run(&settings(false), &mut source, &mut sink) == Status::OutputFailed);
    assert!(rt; sink.text() == b"problem".as_slice());
}

// After the step that fails, each further step returns the failure again and calls neither device.
#[test]
fn steps_after_a_failed_write(rt: HostRuntime) {
    for bytes in 0..THREE_REPORT.len() {
        let mut source = Counted::new(TrialSource::new(THREE, 1, None));
        let mut sink = Counted::new(TrialSink::<ROOM>::new(4096, Some(bytes)));
        let mut session = Session::new(&settings(false));
        let mut failed = None;
        for _step in 0..8u8 {
            let step = session.step(&mut source, &mut sink);
            match failed {
                None => {
                    if step == Err(SinkFault) {
                        failed = Some((source.calls, sink.calls));
                    }
                }
                Some(calls) => {
                    assert!(rt; step == Err(SinkFault), "{bytes} bytes");
                    assert!(rt; calls == (source.calls, sink.calls), "{bytes} bytes");
                }
            }
        }
        assert!(rt; failed.is_some(), "{bytes} bytes");
        assert!(rt;
            sink.device.text() == &THREE_REPORT[..bytes],
            "{bytes} bytes"
        );
    }
}

// Two problems, and words after them.
const TWO: &[u8] =
    b"BeginProblem\nPieces White Kg6 Ra1 Black Kg8\nStipulation #1\nNextProblem\nPieces White Kg6 Ra1 Black Kg8\nStipulation #1\nEndProblem\nPieces White Kh1\nEndProblem\n";

// With one byte per call, a step reads up to the end of the closing word, then the byte that ends the
// word, and nothing else. NextProblem is bytes 59 to 69, and EndProblem is bytes 117 to 126.
#[test]
fn calls_of_a_step(rt: HostRuntime) {
    let mut source = Counted::new(TrialSource::new(TWO, 1, None));
    let mut sink = TrialSink::<ROOM>::new(4096, None);
    let mut session = Session::new(&settings(false));
    let first = session.step(&mut source, &mut sink);
    let calls_of_first = source.calls;
    let second = session.step(&mut source, &mut sink);
    let calls_of_both = source.calls;
    let third = session.step(&mut source, &mut sink);
    assert!(rt; first == Ok(Step::Problem { sound: true }));
    assert!(rt; second == Ok(Step::Problem { sound: true }));
    assert!(rt; third == Ok(Step::Finished(Status::Sound)));
    assert!(rt; (calls_of_first, calls_of_both, source.calls) == (71, 128, 128));
}

// After a fault, with words that are skipped, a step reads no further either. The first NextProblem is bytes 91 to 101.
#[test]
fn calls_of_a_step_after_a_fault(rt: HostRuntime) {
    let mut source = Counted::new(TrialSource::new(THREE, 1, None));
    let mut sink = TrialSink::<ROOM>::new(4096, None);
    let mut session = Session::new(&settings(false));
    assert!(rt; session.step(&mut source, &mut sink) == Ok(Step::Problem { sound: false }));
    assert_eq!(rt; source.calls, 103);
}

// After the last item each step returns the status of all items and calls neither device.
#[test]
fn steps_after_the_last_item(rt: HostRuntime) {
    let mut source = Counted::new(TrialSource::new(PROBLEM, 1, None));
    let mut sink = Counted::new(TrialSink::<ROOM>::new(4096, None));
    let mut session = Session::new(&settings(false));
    assert!(rt; session.step(&mut source, &mut sink) == Ok(Step::Problem { sound: true }));
    let calls = (source.calls, sink.calls);
    assert!(rt; session.step(&mut source, &mut sink) == Ok(Step::Finished(Status::Sound)));
    assert!(rt; session.step(&mut source, &mut sink) == Ok(Step::Finished(Status::Sound)));
    assert!(rt; calls == (source.calls, sink.calls));
    assert!(rt; sink.device.text() == REPORT);
}
