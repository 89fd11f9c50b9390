//! The program on words and files, with writers into fixed buffers.
use crate::program::program;
use std::fs;
use std::test::Fail;

const PROBLEM: &[u8] =
    b"BeginProblem\nPieces White Kg6 Ra1 Black Kg8\nStipulation #1\nEndProblem\n";

const REPORT: &[u8] =
    b"problem 1\n8 ......k.\n7 ........\n6 ......K.\n5 ........\n4 ........\n3 ........\n2 ........\n1 R.......\n  abcdefgh\n#1\nplay\n1.Ra1-a8#\nsolutions: 1\n\n";

// A file in the folder in which the test runs.
const PATH: &str = "mate_in_one_of_a_test.pop";

const MISSING: &str = "a_file_that_is_not_there.pop";

// The exit status of the program, and all that it writes.
#[derive(Drop)]
struct Outcome {
    status: u8,
    output: &'static [u8],
    errors: &'static [u8],
}

// Returns whether the buffer holds the text at its front, and nothing after it.
fn holds(room: &[u8], text: &[u8]) -> bool {
    match room.strip_prefix(text) {
        Some(free) => free.iter().all(|byte| *byte == 0),
        None => false,
    }
}

// Returns whether the program on these words has the outcome, with an empty standard input.
fn has_outcome(rt: &HostRuntime, words: &[&str], wanted: &Outcome) -> bool {
    let mut output = [0; 256];
    let mut errors = [0; 64];
    let status = program(
        rt,
        words,
        b"".as_slice(),
        output.as_mut_slice(),
        errors.as_mut_slice(),
    );
    status == wanted.status
        && holds(output.as_slice(), wanted.output)
        && holds(errors.as_slice(), wanted.errors)
}

#[test]
fn words_that_are_refused(rt: HostRuntime) {
    let usage = Outcome {
        status: 2,
        output: b"",
        errors: b"pops: usage: pops [--check] [--no-board] [FILE]\n",
    };
    assert!(rt; has_outcome(&rt, &["pops", "--fast"], &usage));
    assert!(rt; has_outcome(&rt, &["pops", "--check", "--check"], &usage));
}

#[test]
fn a_file_that_is_there(rt: HostRuntime) -> Result<(), Fail> {
    let solved = Outcome {
        status: 0,
        output: REPORT,
        errors: b"",
    };
    fs::write(&rt, PATH, PROBLEM)?;
    let is_solved = has_outcome(&rt, &["pops", PATH], &solved);
    fs::remove_file(&rt, PATH)?;
    assert!(rt; is_solved);
    Ok(())
}

#[test]
fn a_file_that_is_not_there(rt: HostRuntime) {
    let refused = Outcome {
        status: 3,
        output: b"",
        errors: b"pops: cannot open the input file\n",
    };
    assert!(rt; has_outcome(&rt, &["pops", MISSING], &refused));
}
