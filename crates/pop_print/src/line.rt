//! A buffer of fixed size for lines.
ghost use Rattle.std.specs.Prelude.{[], ◌++◌, ◌+◌, ◌<◌, ◌∷◌, ◌≡◌, ◌≤◌, decimal, length};
ghost use Rattle.pop_text.specs.Bytes.{Writes, count_after, greatest_count};

use arrayvec::ArrayVec;
use itoa::Buffer;
use pop_text::{Sink, SinkFault, put_all};
use std::marker::Model;

/// The size of a buffer for the longest line or head of any problem, in bytes (own).
pub const LONGEST: usize = 1536;

/// The most digits of a number.
pub const LONGEST_NUMBER: usize = 20;

/// A text of at most N bytes that is built piece by piece and then written in one piece. Contracts see the bytes.
#[derive(Drop)]
pub struct LineBuffer<const N: usize> {
    text: ArrayVec<u8, N>,
}

impl<const N: usize> Model for LineBuffer<N> {
    ghost use Rattle.std.specs.Prelude.{ℕ, List};

    ghost Value = { List ℕ };

    ghost view = { λ b. b.text.items };
}

impl<const N: usize> LineBuffer<N> {
    /// Returns an empty buffer.
    pub fn new() -> LineBuffer<N>
        ensures { result ≡ [] }
    {
        LineBuffer {
            text: ArrayVec::new(),
        }
    }

    /// Adds bytes. The caller proves that they fit.
    pub fn add(&mut self, piece: &[u8])
        requires { length self.old + length piece.now ≤ N }
        ensures { self.new ≡ self.old ++ piece.now }
    {
        // The bytes always fit, as `requires` says.
        let _fits = self.text.try_extend_from_slice(piece);
    }

    /// Adds one byte. The caller proves that it fits.
    pub fn add_byte(&mut self, byte: u8)
        requires { length self.old < N }
        ensures { self.new ≡ self.old ++ byte ∷ [] }
    {
        self.text.push(byte);
    }

    /// Adds a number as decimal digits.
    pub fn add_number(&mut self, number: u64)
        requires { length self.old + LONGEST_NUMBER ≤ N }
        ensures text { self.new ≡ self.old ++ decimal number }
        ensures short { length self.new ≤ length self.old + LONGEST_NUMBER }
    {
        let mut digits = Buffer::new();
        self.add(digits.format(number).as_bytes());
    }

    /// Writes the text to the sink.
    ///
    /// # Errors
    ///
    /// `SinkFault` if the sink fails: a beginning of the text is then written.
    pub fn put<W: Sink>(&self, sink: &mut W) -> Result<(), SinkFault>
        requires { W.failures sink.old < greatest_count }
        ensures bytes { Writes (W.taken sink.old) (W.taken sink.new) self.now result }
        ensures counted { W.failures sink.new ≡ count_after result (W.failures sink.old) }
    {
        put_all(sink, self.text.as_slice())
    }
}
