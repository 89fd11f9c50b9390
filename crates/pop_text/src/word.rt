//! Words of an input.
ghost use Rattle.std.specs.Prelude.{[], ◌≡◌};

use arrayvec::ArrayVec;

/// The greatest number of bytes of a word (own).
pub const LONGEST_WORD: usize = 160;

/// A word of at most `LONGEST_WORD` bytes, as written, and the number of its line, counted from 1.
#[derive(Drop)]
pub struct Word {
    pub bytes: ArrayVec<u8, LONGEST_WORD>,
    pub line: u64,
}

impl Word {
    /// Returns a word without bytes, as a buffer for `Scanner::read_word`. Its line is 0.
    pub fn new() -> Word
        ensures bytes { result.bytes.items ≡ [] }
        ensures line { result.line ≡ 0 }
    {
        Word {
            bytes: ArrayVec::new(),
            line: 0,
        }
    }
}
