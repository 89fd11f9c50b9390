//! Why a scanner returns no word or text line.
use std::error::Error;
use std::fmt;

/// Why a scanner returns no word or text line. Each case holds a line, counted from 1. The limits are own.
#[derive(Clone, Copy, Debug)]
pub enum ReadFault {
    /// A word has more than `LONGEST_WORD` bytes. Holds the line on which the word begins. The word is used, and the
    /// next call continues after it.
    TooLong(u64),
    /// A byte after the first 2^30 of the input is needed. Holds the line of that byte. Every later call returns this
    /// fault.
    InputTooLong(u64),
    /// The source failed. Holds the line of the next byte. Every later call returns this fault.
    Device(u64),
}

impl fmt::Display for ReadFault {
    fn fmt<W: fmt::Write>(&self, f: &mut fmt::Formatter<W>) -> fmt::Result {
        match self {
            ReadFault::TooLong(line) => write!(f, "line {line}: the word is too long"),
            ReadFault::InputTooLong(line) => write!(f, "line {line}: the input is too long"),
            ReadFault::Device(line) => write!(f, "line {line}: the read failed"),
        }
    }
}

impl Error for ReadFault {}
