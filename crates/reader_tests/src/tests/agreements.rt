//! Inputs on which both readers must agree.
use crate::compared::{ITEM_KINDS, agree, mark};
use crate::long::{PERIOD, long_text};
use crate::made::text;
use crate::plain::items;
use std::test::Fail;

const THREE: &str =
    "BeginProblem\nPieces White Kg6 Rg6 Black Kg8\nRemark not yet NextProblem here\nStipulation #1\nNextProblem\nPieces White Kg6 Ra1 Black Kg8\nStipulation #1\nNextProblem\nPieces White K\n";

#[test]
fn every_beginning_of_three_problems(rt: HostRuntime) {
    let bytes = THREE.as_bytes();
    for length in 0..bytes.len() + 1 {
        for at_most in &[1, 2, 3, 4095, 4096, 4097] {
            assert!(rt; agree(&bytes[..length], *at_most));
        }
    }
}

#[test]
fn made_texts(rt: HostRuntime) {
    let mut seen = [false; ITEM_KINDS];
    for number in 0..600u64 {
        let made = text(number);
        mark(made.as_slice(), false, &mut seen);
        mark(made.as_slice(), true, &mut seen);
        assert!(rt; agree(made.as_slice(), 1 + (number % 7) as usize));
        assert!(rt; agree(made.as_slice(), 4096));
    }
    // Every kind of item occurs, except fault 20, the limit of 2^30 bytes.
    for number in 0..ITEM_KINDS {
        assert_eq!(rt; seen[number], number != 20);
    }
}

// Each byte of a long text is at a window's end once.
#[test]
fn long_texts(rt: HostRuntime) -> Result<(), Fail> {
    for shift in 0..PERIOD {
        let text = long_text(&rt, shift)?;
        // Twenty sound problems, twenty faulty ones, and the last one.
        assert_eq!(rt; items(text.as_slice(), false).len(), 41);
        assert!(rt; agree(text.as_slice(), 4096), "{shift} blanks");
    }
    Ok(())
}

// Sources that return each number of bytes per call, up to more than a window.
#[test]
fn bytes_a_call(rt: HostRuntime) -> Result<(), Fail> {
    for bytes in 1..4098usize {
        let text = long_text(&rt, bytes % PERIOD)?;
        assert!(rt; agree(text.as_slice(), bytes), "{bytes} bytes a call");
    }
    Ok(())
}
