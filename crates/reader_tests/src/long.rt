//! Texts of more than three reading windows, in which words, blanks and lines cross the windows' ends.
use std::alloc::AllocError;

/// The number of bytes after which a long text repeats: a sound problem of 346 bytes, and a faulty one of 367 to 371.
pub(crate) const PERIOD: usize = 715;

// Adds a sound problem with a title, blanks of each kind and a long text line.
fn put_sound(text: &mut Vec<u8>) -> Result<(), AllocError> {
    text.extend_from_slice(b"Pieces White Kg6\tRa1 \n\n Black Kg8\r\nTitle \x0b a title \x0c\n")?;
    text.extend_from_slice(b"stipulation #1\nRemark ")?;
    for _letter in 0..210u8 {
        text.push(b'y')?;
    }
    text.extend_from_slice(b"\n author  NextProblem \nOption MaxSolutions\n 0012\nNextProblem\n")
}

// Adds a faulty problem, with long words and text lines in the text that the reader skips.
fn put_faulty(text: &mut Vec<u8>, long_word: u8) -> Result<(), AllocError> {
    text.extend_from_slice(b"Pieces Black Pa8 ")?;
    for _letter in 0..long_word {
        text.push(b'x')?;
    }
    text.extend_from_slice(b"\nRemark NextProblem\n")?;
    for _blank in 0..150u8 {
        text.push(b' ')?;
    }
    text.extend_from_slice(b"\n\n\nPieces nextproblem ")
}

/// Returns a text of many problems after `shift` blanks. Long words have 158 to 162 bytes.
pub(crate) fn long_text(rt: &HostRuntime, shift: usize) -> Result<Vec<u8>, AllocError> {
    let mut text = Vec::new(rt.alloc());
    for _blank in 0..shift {
        text.push(b' ')?;
    }
    text.extend_from_slice(b"BeginProblem ")?;
    for problem in 0..20u8 {
        put_sound(&mut text)?;
        put_faulty(&mut text, 158 + problem % 5)?;
    }
    text.extend_from_slice(b"Pieces White Kg6 EndProblem and")?;
    Ok(text)
}
