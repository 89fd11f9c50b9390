//! The text of squares and men.
ghost use Rattle.std.specs.Prelude.{◌++◌, ◌+◌, ◌<◌, ◌≡◌, ◌≤◌, length};
ghost use Rattle.chess_core.specs.SquareNames.{square_text};
ghost use Rattle.pop_print.specs.Notation.{colour_letter as letter_of_colour, man_text};

use crate::line::LineBuffer;
use chess_core::{Colour, Kind, Square};

/// Returns the letter of a colour, `w` or `b`.
pub(crate) fn colour_letter(colour: Colour) -> u8
    ensures { result ≡ letter_of_colour colour }
{
    match colour {
        Colour::White => b'w',
        Colour::Black => b'b',
    }
}

impl<const N: usize> LineBuffer<N> {
    /// Adds a square, such as `a1`.
    pub(crate) fn add_square(&mut self, square: Square)
        requires { length self.old + 2 ≤ N }
        ensures text { self.new ≡ self.old ++ square_text square }
        ensures short { length self.new ≤ length self.old + 2 }
    {
        self.add(&[b'a' - 1 + square.file(), b'0' + square.rank()]);
    }

    /// Adds the letter of the man that moves. A pawn has none.
    pub(crate) fn add_man(&mut self, kind: Kind)
        requires { length self.old + 1 ≤ N }
        ensures text { self.new ≡ self.old ++ man_text kind }
        ensures short { length self.new ≤ length self.old + 1 }
    {
        match kind {
            Kind::Pawn => self.add(b""),
            kind => self.add_byte(kind.letter()),
        }
    }
}
