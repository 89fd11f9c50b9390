//! Writing FEN.
ghost use Rattle.std.specs.Prelude.{◌≡◌, ◌≤◌, ◌<◌, ◌+◌, ◌&&◌, [], ◌∷◌, Some, MatchResult};
ghost use Rattle.std.specs.Fmt.{WritesOnOk};
ghost use Rattle.chess_core.specs.Castling.{has_unmoved};
ghost use Rattle.chess_core.specs.Position.{man_on};
ghost use Rattle.fen.specs.Letters.{man_text, turn_letter};
ghost use Rattle.fen.specs.Fen.{castling_letters, crossed_text, letter_if, or_dash};
ghost use Rattle.fen.specs.ties.Reading.{mark, square_before, text_from};
ghost use Rattle.fen.specs.ties.Writing.{empty_left, empty_next, mark_text, number_text, written_text};

use crate::letters::{is_bracketed, letter_of};
use crate::men::{mark, square_before};
use crate::not_fen::NotFen;
use crate::reading::read;
use chess_core::{Colour, Diagram, Man, Square, Unmoved};
use std::fmt;
use std::str::FromStr;

/// A diagram as FEN: `Display` writes it, `FromStr` reads it.
#[derive(Clone, Copy, Debug)]
pub struct Fen {
    /// The diagram.
    pub diagram: Diagram,
}

/// Writes the first four fields of FEN in their one form, such as `6k1/8/6K1/8/8/8/8/R7 w - -`.
impl fmt::Display for Fen {
    ghost use Rattle.fen.specs.Fen.{fen_text};

    ghost output = { λ fen. Some (fen_text fen.diagram) };

    fn fmt<W: fmt::Write>(&self, f: &mut fmt::Formatter<W>) -> fmt::Result {
        write_men(f, &self.diagram)?;
        write_byte(f, turn_letter(self.diagram.turn))?;
        write_byte(f, b' ')?;
        write_rights(f, self.diagram.unmoved)?;
        write_byte(f, b' ')?;
        write_crossed(f, self.diagram.crossed)
    }
}

/// Reads FEN, and refuses the same texts as `read`.
impl FromStr for Fen {
    type Err = NotFen;

    ghost use Rattle.chess_core.specs.Diagrams.{Diagram};
    ghost use Rattle.fen.specs.Fen.{IsFenOf};

    ghost from_str_gives = { λ text result. MatchResult result (λ fen. IsFenOf text fen.diagram)
        (λ _. (d : Diagram) → IsFenOf text d → ⊥) };

    fn from_str(text: &str) -> Result<Fen, NotFen> {
        match read(text.as_bytes()) {
            Ok(diagram) => Ok(Fen { diagram }),
            Err(error) => Err(error),
        }
    }
}

// Returns the letter of the side to move.
fn turn_letter(turn: Colour) -> u8
    ensures value { result ≡ turn_letter turn }
    ensures small { result < 128 }
{
    match turn {
        Colour::White => b'w',
        Colour::Black => b'b',
    }
}

// Writes a byte of ASCII.
fn write_byte<W: fmt::Write>(f: &mut fmt::Formatter<W>, byte: u8) -> fmt::Result
    requires { byte < 128 }
    ensures { WritesOnOk W.write_str_gives f.old result (byte ∷ []) f.new }
{
    f.write_char(byte as char)
}

// Writes a number of empty squares, if there are any.
fn write_number<W: fmt::Write>(f: &mut fmt::Formatter<W>, empty: u8) -> fmt::Result
    requires { empty ≤ 8 }
    ensures { WritesOnOk W.write_str_gives f.old result (number_text empty) f.new }
{
    if empty > 0 {
        write_byte(f, b'0' + empty)
    } else {
        f.write_str("")
    }
}

// Writes a man's letter, in brackets if it is a knight's too.
fn write_man<W: fmt::Write>(f: &mut fmt::Formatter<W>, man: Man) -> fmt::Result
    ensures { WritesOnOk W.write_str_gives f.old result (man_text man) f.new }
{
    if is_bracketed(man.kind) {
        write_byte(f, b'(')?;
        write_byte(f, letter_of(man))?;
        write_byte(f, b')')
    } else {
        write_byte(f, letter_of(man))
    }
}

// Writes a man, and before it the empty squares to its left.
fn write_square<W: fmt::Write>(
    f: &mut fmt::Formatter<W>,
    empty: u8,
    found: Option<Man>,
) -> fmt::Result
    requires { empty ≤ 8 }
    ensures { WritesOnOk W.write_str_gives f.old result (written_text empty found) f.new }
{
    match found {
        Some(man) => {
            write_number(f, empty)?;
            write_man(f, man)
        }
        None => f.write_str(""),
    }
}

// Writes what ends a rank, if the square was the last of one, and before it the empty squares to its left.
fn write_mark<W: fmt::Write>(f: &mut fmt::Formatter<W>, after: u8, empty: u8) -> fmt::Result
    requires { empty ≤ 8 }
    ensures { WritesOnOk W.write_str_gives f.old result (mark_text after empty) f.new }
{
    if after % 8 > 0 {
        return f.write_str("");
    }
    write_number(f, empty)?;
    write_byte(f, mark(after))
}

// Returns how many empty squares are still to be written after a square.
fn empty_next(empty: u8, found: Option<Man>) -> u8
    requires { empty < 8 }
    ensures { result ≡ empty_next empty found }
{
    if found.is_some() { 0 } else { empty + 1 }
}

// Returns how many empty squares are still to be written after what ends a rank.
fn empty_left(after: u8, empty: u8) -> u8
    ensures { result ≡ empty_left after empty }
{
    if after % 8 > 0 { empty } else { 0 }
}

// Writes the ranks from 8 to 1: the letters of men, the numbers of empty squares between them, a slash between two
// ranks and a blank after the last.
fn write_men<W: fmt::Write>(f: &mut fmt::Formatter<W>, diagram: &Diagram) -> fmt::Result
    ensures { WritesOnOk W.write_str_gives f.old result (text_from diagram.now.men 64 []) f.new }
{
    let mut empty = 0;
    for number in 0..64u8 {
        let after = 63 - number;
        let found = diagram.man_at(square_before(after));
        write_square(f, empty, found)?;
        let next = empty_next(empty, found);
        write_mark(f, after, next)?;
        empty = empty_left(after, next);
    }
    Ok(())
}

// Writes a letter, if the castling is allowed.
fn write_if<W: fmt::Write>(f: &mut fmt::Formatter<W>, is_allowed: bool, letter: u8) -> fmt::Result
    requires { letter < 128 }
    ensures { WritesOnOk W.write_str_gives f.old result (letter_if is_allowed letter) f.new }
{
    if is_allowed {
        write_byte(f, letter)
    } else {
        f.write_str("")
    }
}

// Returns whether neither king nor rook has left its square.
fn is_allowed(rights: Unmoved, king: Square, rook: Square) -> bool
    ensures { result ≡ (has_unmoved rights king && has_unmoved rights rook) }
{
    rights.has(king) && rights.has(rook)
}

// Writes a letter for each castling whose king and rook haven't moved, or a dash for none.
fn write_rights<W: fmt::Write>(f: &mut fmt::Formatter<W>, rights: Unmoved) -> fmt::Result
    ensures { WritesOnOk W.write_str_gives f.old result (or_dash (castling_letters rights)) f.new }
{
    let h1 = is_allowed(rights, Square::E1, Square::H1);
    let a1 = is_allowed(rights, Square::E1, Square::A1);
    let h8 = is_allowed(rights, Square::E8, Square::H8);
    let a8 = is_allowed(rights, Square::E8, Square::A8);
    if h1 || a1 || h8 || a8 {
        write_if(f, h1, b'K')?;
        write_if(f, a1, b'Q')?;
        write_if(f, h8, b'k')?;
        return write_if(f, a8, b'q');
    }
    write_byte(f, b'-')
}

// Writes the en passant square.
fn write_crossed<W: fmt::Write>(f: &mut fmt::Formatter<W>, crossed: Option<Square>) -> fmt::Result
    ensures { WritesOnOk W.write_str_gives f.old result (crossed_text crossed) f.new }
{
    match crossed {
        Some(square) => write!(f, "{square}"),
        None => write_byte(f, b'-'),
    }
}
