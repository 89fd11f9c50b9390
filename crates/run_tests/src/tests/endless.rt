//! Endless inputs: 2^30 + 8,192 bytes, more than a run reads. The limit is 2^30 bytes.
use crate::report::settings;
use pop_run::{Status, run};
use pop_text::{TrialSink, TrialSource};

const LIMIT: usize = 1 << 30;

const WITHOUT_END: usize = LIMIT + 8192;

// Returns whether this report is that of the text over and over, `bytes` bytes in all.
fn reports(text: &[u8], bytes: usize, report: &[u8]) -> bool {
    let mut source = TrialSource::repeated(text, bytes, 4096, None);
    let mut sink = TrialSink::<256>::new(256, None);
    let status = run(&settings(false), &mut source, &mut sink);
    status == Status::Faulty && sink.text() == report
}

#[test]
fn letters_without_end(rt: HostRuntime) {
    let report = b"problem 1\nline 1: fault 20: input too long\n\n";
    assert!(rt; reports(&[b'x'; 4096], WITHOUT_END, report));
}

// The line after 2^30 line ends.
#[test]
fn line_ends_without_end(rt: HostRuntime) {
    let report = b"problem 1\nline 1073741825: fault 20: input too long\n\n";
    assert!(rt; reports(&[b'\n'; 4096], WITHOUT_END, report));
}

// An input that ends cleanly at the limit isn't too long.
#[test]
fn blanks_up_to_the_limit(rt: HostRuntime) {
    let report = b"problem 1\nline 1: fault 1: BeginProblem expected\n\n";
    assert!(rt; reports(&[b' '; 4096], LIMIT, report));
}

// The first word is a fault, and the text that is skipped reaches the limit.
#[test]
fn letters_and_blanks_without_end(rt: HostRuntime) {
    let mut text = [b' '; 4096];
    for pair in 0..2048usize {
        text[2 * pair] = b'x';
    }
    let report =
        b"problem 1\nline 1: fault 1: BeginProblem expected\n\nproblem 2\nline 1: fault 20: input too long\n\n";
    assert!(rt; reports(&text, WITHOUT_END, report));
}
