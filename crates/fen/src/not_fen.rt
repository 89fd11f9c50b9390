//! The error of reading FEN.
use std::error::Error;
use std::fmt;

/// The error of `read`: the text is no diagram's FEN.
#[derive(Clone, Copy, Debug, PartialEq, Eq)]
pub struct NotFen;

impl fmt::Display for NotFen {
    fn fmt<W: fmt::Write>(&self, f: &mut fmt::Formatter<W>) -> fmt::Result {
        f.write_str(
            "not the first four fields of FEN: men, w or b, castling rights, en passant square",
        )
    }
}

impl Error for NotFen {}
