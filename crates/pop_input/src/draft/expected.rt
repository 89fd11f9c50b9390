//! The values that options expect.
ghost use Rattle.std.specs.Prelude.{◌≡◌, ◌≤◌, ◌<◌, length, None, Some, fold, if◌then◌else◌};
ghost use Rattle.std.specs.List.{list_all};
ghost use Rattle.chess_core.specs.Castling.{is_castling_square, with_unmoved};
ghost use Rattle.pop_input.specs.Drafts.{EnPassantSquare, Limit, draft_by};
ghost use Rattle.pop_input.specs.WordFaults.{forbidden_fault, role_fault};
ghost use Rattle.pop_input.specs.declared.names.ExpectedValue.TheVariants.{MoreSquares};

use crate::draft::Draft;
use crate::fault_kind::FaultKind;
use crate::names::ExpectedValue;
use crate::short_word::ShortWord;
use crate::values::{limit_of, square_of};
use chess_core::{Square, Unmoved};

impl Draft {
    /// Reads the number after MaxSolutions.
    pub(crate) fn read_limit(&mut self, word: &ShortWord<'_>) -> Option<FaultKind>
        ensures fault { result ≡ role_fault self.old Limit word.now }
        ensures draft { result ≡ None → self.new ≡ draft_by Limit self.old word.now }
    {
        match limit_of(word.bytes()) {
            Some(limit) => {
                self.limit = limit;
                self.context.expected = None;
                None
            }
            None => Some(FaultKind::BadLimit),
        }
    }

    /// Reads the square after EnPassant.
    pub(crate) fn read_en_passant(&mut self, word: &ShortWord<'_>) -> Option<FaultKind>
        ensures fault { result ≡ role_fault self.old EnPassantSquare word.now }
        ensures draft { result ≡ None → self.new ≡ draft_by EnPassantSquare self.old word.now }
    {
        match square_of(word.bytes()) {
            Some(square) => {
                self.crossed = Some(square);
                self.context.expected = None;
                None
            }
            None => Some(FaultKind::SquareMissing),
        }
    }

    /// Adds the squares of a word after NoCastling. More words with squares may follow.
    pub(crate) fn forbid(&mut self, squares: &[Square]) -> Option<FaultKind>
        ensures fault { result ≡ forbidden_fault (Some squares.now) }
        ensures draft { result ≡ None → self.new ≡ record self.old {
          context = record { section = self.old.context.section; expected = Some MoreSquares };
          castling_forbidden = fold with_unmoved self.old.castling_forbidden squares.now;
        } }
    {
        match forbidden_with(self.castling_forbidden, squares) {
            Some(castling_forbidden) => {
                self.castling_forbidden = castling_forbidden;
                self.context.expected = Some(ExpectedValue::MoreSquares);
                None
            }
            None => Some(FaultKind::NoneCastlesThere),
        }
    }
}

// Adds the squares to the set. Returns `None` if one of them isn't a castling square.
fn forbidden_with(castling_forbidden: Unmoved, squares: &[Square]) -> Option<Unmoved>
    ensures { result ≡ (if list_all is_castling_square squares.now
        then Some (fold with_unmoved castling_forbidden squares.now) else None) }
{
    let mut set = castling_forbidden;
    for &square in squares {
        if !square.is_castling_square() {
            return None;
        }
        set = set.with(square);
    }
    Some(set)
}
