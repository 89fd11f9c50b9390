//! The words of the section Pieces.
ghost use Rattle.std.specs.Prelude.{◌≡◌, ◌≤◌, ◌<◌, [], length, None, Some, Ok, Err, unwrap_or};
ghost use Rattle.std.specs.List.{list_any};
ghost use Rattle.chess_core.specs.KindNames.{kind_of};
ghost use Rattle.chess_core.specs.Position.{with_man};
ghost use Rattle.pop_text.specs.Words.{longest_word};
ghost use Rattle.pop_input.specs.Values.{is_digit, squares_named};
ghost use Rattle.pop_input.specs.Drafts.{Within, put_kind, put_men, draft_by};
ghost use Rattle.pop_input.specs.WordFaults.{is_other_word, letter_fault, man_fault, men_fault, role_fault};
ghost use Rattle.pop_input.specs.declared.names.Section.TheVariants.{Pieces};

use crate::draft::Draft;
use crate::fault_kind::FaultKind;
use crate::names::colour_of;
use crate::short_word::ShortWord;
use crate::values::{is_digit, squares_named};
use chess_core::{Kind, Man, Square};

impl Draft {
    /// Reads a colour, or the letter of a kind and the squares of its men, and returns the word's fault, if any.
    pub(crate) fn read_pieces(&mut self, word: &ShortWord<'_>) -> Option<FaultKind>
        ensures fault { result ≡ role_fault self.old (Within (Some Pieces)) word.now }
        ensures draft { result ≡ None → self.new
            ≡ draft_by (Within (Some Pieces)) self.old word.now }
    {
        self.context.expected = None;
        let word = word.bytes();
        match (colour_of(word), word) {
            (Some(colour), _) => {
                self.colour = Some(colour);
                None
            }
            (None, [letter, text @ ..]) => self.read_men(*letter, text),
            (None, []) => None,
        }
    }

    // Reads a letter, and the text after it as squares.
    fn read_men(&mut self, letter: u8, text: &[u8]) -> Option<FaultKind>
        requires { length text.now ≤ longest_word }
        ensures fault { result ≡ letter_fault self.old (kind_of letter) text.now }
        ensures draft { result ≡ None → self.new
            ≡ record self.old {
              men = put_kind self.old.colour (kind_of letter)
                  (unwrap_or (squares_named text.now) []) self.old.men;
            } }
    {
        match Kind::of_letter(letter) {
            Some(kind) => self.read_kind(kind, text),
            None => Some(FaultKind::WordMisplaced),
        }
    }

    // Reads the squares of men of this kind.
    fn read_kind(&mut self, kind: Kind, text: &[u8]) -> Option<FaultKind>
        requires { length text.now ≤ longest_word }
        ensures fault { result ≡ letter_fault self.old (Some kind) text.now }
        ensures draft { result ≡ None → self.new
            ≡ record self.old {
              men = put_kind self.old.colour (Some kind)
                  (unwrap_or (squares_named text.now) []) self.old.men;
            } }
    {
        match squares_named(text) {
            Some(squares) => match self.colour {
                Some(colour) => self.put_men(Man { colour, kind }, squares.as_slice()),
                None => Some(FaultKind::ColourMissing),
            },
            None => {
                if is_other_word(text) {
                    Some(FaultKind::WordMisplaced)
                } else if self.colour.is_none() {
                    Some(FaultKind::ColourMissing)
                } else {
                    Some(FaultKind::SquareMissing)
                }
            }
        }
    }

    // Puts a man on each of the squares in turn, and stops at the first fault.
    fn put_men(&mut self, man: Man, squares: &[Square]) -> Option<FaultKind>
        ensures fault { result ≡ men_fault self.old.men man squares.now }
        ensures draft { result ≡ None → self.new
            ≡ record self.old { men = put_men self.old.men man squares.now } }
    {
        for &square in squares {
            if let Some(fault) = self.put_man(man, square) {
                return Some(fault);
            }
        }
        None
    }

    // Puts a man on the square, or returns the fault of doing so.
    fn put_man(&mut self, man: Man, square: Square) -> Option<FaultKind>
        ensures fault { result ≡ man_fault self.old.men man square }
        ensures draft { result ≡ None → self.new
            ≡ record self.old { men = with_man self.old.men square man } }
    {
        if let Some(fault) = self.man_fault(man, square) {
            return Some(fault);
        }
        match self.diagram.put(square, man) {
            Ok(()) => None,
            Err(_) => Some(FaultKind::SquareTaken),
        }
    }

    // Returns the fault of putting the man on the square, if any.
    fn man_fault(&self, man: Man, square: Square) -> Option<FaultKind>
        ensures { result ≡ man_fault self.now.men man square }
    {
        if self.diagram.man_at(square).is_some() {
            Some(FaultKind::SquareTaken)
        } else if man.kind.is(Kind::Pawn) && !(square.rank() >= 2 && square.rank() <= 7) {
            Some(FaultKind::PawnOnOuterRank)
        } else if man.kind.is(Kind::King) && self.diagram.has(man.colour, Kind::King) {
            Some(FaultKind::SecondKing)
        } else {
            None
        }
    }
}

// Returns whether the text has two bytes or more and no digit: then the word isn't a letter and squares at all.
fn is_other_word(text: &[u8]) -> bool
    ensures { result ≡ is_other_word text.now }
{
    text.len() >= 2 && !has_digit(text)
}

// Returns whether the text has a decimal digit.
fn has_digit(text: &[u8]) -> bool
    ensures { result ≡ list_any is_digit text.now }
{
    for &byte in text {
        if is_digit(byte) {
            return true;
        }
    }
    false
}
