//! Where faults are found. In the texts, brackets enclose the span of each fault; they are no part of the input.
ghost use Rattle.std.specs.Prelude.{◌<◌};

use arrayvec::ArrayVec;
use pop_input::{Item, Reader};
use pop_text::TrialSource;

const BYTES: usize = 5000;

const SPANS: usize = 4;

/// Inputs that end cleanly.
const ENDED: [&str; 12] = [
    "[Pieces] White Kg6 EndProblem",
    "BeginProblem [Kg6] Rg6 EndProblem",
    "BeginProblem Pieces [Kg6] Zz9 White Kb1 Kb2\nEndProblem",
    "BeginProblem\nPieces White Kg6\n\t [Rg6] Rg6 Black Kg8\nNextProblem Stipulation #2 [EndProblem] Kg6",
    "BeginProblem Pieces White Kg6 Ra1 Black Kg8 Stipulation #1 NextProblem [Begin] EndProblem",
    "BeginProblem Pieces White Kg6 Stipulation #1\n[EndProblem]",
    "BeginProblem\nRemark Kg6 NextProblem\n[Kg6] EndProblem",
    "BeginProblem Option MaxSolutions [EndProblem]",
    "BeginProblem Pieces White [K] \n",
    "BeginProblem Pieces White Kg6 \n[]",
    "Remark no word\n \n[]",
    "BeginProblem [NextProblem] [NextProblem]\n[]",
];

/// Inputs whose source fails at their end.
const FAILED: [&str; 4] = [
    "BeginProblem Pieces White Kg6 \n[]",
    "BeginProblem [Kg6] White[]",
    "BeginProblem Pieces White Kg6 Title not yet[]",
    "BeginProblem Piec[]",
];

/// An input, and the spans of its faults: the number of bytes before each, and up to its end.
#[derive(Drop)]
struct Marked {
    input: ArrayVec<u8, BYTES>,
    spans: ArrayVec<(u32, u32), SPANS>,
}

// Returns the input of a marked text, with blanks before it, and the spans that it marks.
fn unmarked(blanks: usize, text: &str) -> Marked {
    let mut input = ArrayVec::new();
    let mut spans = ArrayVec::new();
    for _blank in 0..blanks {
        let _ = input.try_push(b' ');
    }
    let mut start = 0;
    for &byte in text.as_bytes() {
        let here = input.len() as u32;
        match byte {
            b'[' => start = here,
            b']' => {
                let _ = spans.try_push((start, here));
            }
            _ => {
                let _ = input.try_push(byte);
            }
        }
    }
    Marked { input, spans }
}

// Returns the spans of the faults that the reader finds, from a source of at most `at_most` bytes a call, which may
// fail at the end.
fn spans_in(input: &[u8], at_most: usize, failed: bool) -> ArrayVec<(u32, u32), SPANS>
    requires { 0 < at_most }
{
    let fails_at = if failed { Some(input.len()) } else { None };
    let mut source = TrialSource::new(input, at_most, fails_at);
    let mut reader = Reader::new();
    let mut spans = ArrayVec::new();
    for _round in 0..SPANS + 1 {
        let (item, span) = reader.next_with_span(&mut source);
        match item {
            Item::End => break,
            Item::Sound(_, _) => {}
            Item::Faulty(_, _) => {
                let _ = spans.try_push((span.start, span.end));
            }
        }
    }
    spans
}

// Returns whether the faults of a marked text are found at their spans.
fn are_found(blanks: usize, text: &str, at_most: usize, failed: bool) -> bool
    requires { 0 < at_most }
{
    let wanted = unmarked(blanks, text);
    spans_in(wanted.input.as_slice(), at_most, failed).as_slice() == wanted.spans.as_slice()
}

#[test]
fn spans_of_faults(rt: HostRuntime) {
    for text in &ENDED {
        assert!(rt; are_found(0, text, 1, false), "{text}");
        assert!(rt; are_found(0, text, 4096, false), "{text}");
    }
}

#[test]
fn spans_where_the_source_fails(rt: HostRuntime) {
    for text in &FAILED {
        assert!(rt; are_found(0, text, 1, true), "{text}");
        assert!(rt; are_found(0, text, 4096, true), "{text}");
    }
}

// Each byte of the texts is at a window's end once.
#[test]
fn spans_at_a_window_end(rt: HostRuntime) {
    for blanks in 3990..4097usize {
        for text in &ENDED {
            assert!(rt;
                are_found(blanks, text, 4096, false),
                "{blanks} blanks, {text}"
            );
        }
    }
}

// A word of 161 bytes after 22 others.
#[test]
fn span_of_a_long_word(rt: HostRuntime) {
    let mut text = unmarked(0, "BeginProblem Pieces\n  ").input;
    for _letter in 0..161 {
        let _ = text.try_push(b'x');
    }
    for &byte in b" Kg6" {
        let _ = text.try_push(byte);
    }
    for at_most in &[1, 100, 4096] {
        let spans = spans_in(text.as_slice(), *at_most, false);
        assert!(rt; spans.as_slice() == [(22, 183)].as_slice());
    }
}
