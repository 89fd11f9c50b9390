//! The legal moves of one position, most of them found without being played.
ghost use Rattle.std.specs.Prelude.{◌≡◌, ◌<◌, ◌++◌, [], filter, IfSome, MatchOption, length, true};
ghost use Rattle.chess_core.specs.WellFormed.{IsWellFormed};
ghost use Rattle.chess_rules.specs.ties.Counting.{IsKnownIn};
ghost use Rattle.chess_rules.specs.ties.Evasions.{AreEvasions};
ghost use Rattle.chess_rules.specs.Legal.{is_legal};
ghost use Rattle.chess_rules.specs.ties.Places.{IsPlaceIn, moves_after, moves_between, place_of};
ghost use Rattle.chess_rules.specs.ties.Filtering.{IsFirstKept, SomeFails};
ghost use Rattle.chess_rules.specs.ties.Targets.{AreCandidates, AreOrigins};

use crate::legality::blockers::king_safety;
use crate::legality::evasions::{evasion_squares, evasions_from};
use crate::legality::legal::is_legal;
use crate::legality::targets::arrivals;
use crate::listing_moves::cursor::Cursor;
use crate::listing_moves::move_place::MovePlace;
use crate::listing_moves::move_test::MoveTest;
use crate::listing_moves::square_filter::{NextKept, SquareFilter, first_kept, some_removed};
use crate::listing_moves::triples::{TRIPLES, move_at};
use chess_attacks::Rules;
use chess_core::{Board, Move, Square, Squares};

/// A cursor over the legal moves of one position.
pub type LegalCursor<R> = Cursor<R, LegalityMasks>;

/// What the search for legal moves knows of a position: the squares from which a move may expose the
/// mover's king, and the squares where a move may parry a check.
#[derive(Clone, Copy)]
pub struct LegalityMasks {
    pub(crate) blocker_squares: Squares,
    pub(crate) evasion_squares: Squares,
}

/// Returns what the search for legal moves knows of the board's position.
pub(crate) fn legality_masks<R: Rules>(board: &Board) -> LegalityMasks
    ensures { IsKnownIn R.rule board.now result }
{
    let safety = king_safety(board, board.turn());
    LegalityMasks {
        blocker_squares: safety.blockers,
        evasion_squares: evasion_squares::<R>(board, board.turn(), safety.checkers),
    }
}

impl<R: Rules> Cursor<R, LegalityMasks> {
    /// Returns the cursor before the first triple, for the board's position.
    pub fn of(board: &Board) -> LegalCursor<R>
        ensures start { result.place ≡ 0 }
        ensures place { IsPlaceIn R.rule board.now result }
    {
        Cursor::over(legality_masks::<R>(board))
    }

    /// Returns `true` only if some legal move fails the filter's test; `false` says nothing. Looks for a move
    /// that the filter removes, of a man on one of `origins`: these affect speed only. Cursor and filter must
    /// belong to the board's position. The board is unchanged.
    pub fn has_removed<S: SquareFilter>(
        &self,
        square_filter: &mut S,
        board: &mut Board,
        origins: Squares,
    ) -> bool
        requires well_formed { IsWellFormed board.old }
        requires place { IsPlaceIn R.rule board.old self.now }
        requires fits { S.fits square_filter.old R.rule board.old }
        ensures fails { result ≡ true → SomeFails R.rule board.old (S.test R.rule board.old) }
        ensures same { square_filter.new ≡ square_filter.old }
        ensures board { board.new ≡ board.old }
    {
        some_removed::<R, S>(board, *self.test(), square_filter, origins)
    }

    /// Returns a legal move after the cursor, with the number of legal moves before it, and moves the cursor
    /// to it. The moves before it fail the filter's test. It is the first move that the filter keeps, but
    /// that is for speed only: no clause says that a filter removes any move. If it removes all moves after
    /// the cursor, returns their number, and moves the cursor to the end; all of them fail the test. Cursor
    /// and filter must belong to the board's position. The board is unchanged.
    #[tactic(auto, using(crate::proofs::Filtering::next_kept))]
    pub fn next_kept<S: SquareFilter>(
        &mut self,
        square_filter: &mut S,
        board: &mut Board,
    ) -> NextKept
        requires well_formed { IsWellFormed board.old }
        requires place { IsPlaceIn R.rule board.old self.old }
        requires fits { S.fits square_filter.old R.rule board.old }
        ensures place { self.new ≡ record self.old { place = place_of result.found } }
        ensures within { IsPlaceIn R.rule board.old self.new }
        ensures skipped { MatchOption result.found
            ((filter (S.test R.rule board.old) (moves_after R.rule board.old self.old.place) ≡ [])
            × (result.skipped ≡ length (moves_after R.rule board.old self.old.place)))
            (λ m. IsFirstKept R.rule board.old (S.test R.rule board.old) self.old.place
            self.new.place result.skipped m) }
        ensures following { moves_after R.rule board.old self.old.place
            ≡ moves_between R.rule board.old self.old.place self.new.place
            ++ moves_after R.rule board.old self.new.place }
        ensures legal { IfSome result.found (λ m. is_legal R.rule board.old m ≡ true) }
        ensures onward { IfSome result.found (λ m. self.old.place < self.new.place) }
        ensures same { square_filter.new ≡ square_filter.old }
        ensures board { board.new ≡ board.old }
    {
        let masks = *self.test();
        let start = self.place().number();
        let mut skipped = 0;
        let number = first_kept::<R, S>(board, masks, square_filter, start, &mut skipped);
        if number < TRIPLES {
            self.go_to(MovePlace::at(number + 1));
            return NextKept {
                found: Some(move_at(number)),
                skipped,
            };
        }
        self.go_to(MovePlace::at(TRIPLES));
        NextKept {
            found: None,
            skipped,
        }
    }
}

impl MoveTest for LegalityMasks {
    ghost use Rattle.chess_rules.specs.Legal.{is_legal};
    ghost use Rattle.chess_rules.specs.ties.Counting.{IsKnownIn};
    ghost use Rattle.chess_rules.specs.ties.Idle.{is_legal-idle};

    ghost test = { is_legal };

    ghost fits = { λ masks rule p. IsKnownIn rule p masks };

    fn origins<R: Rules>(&self, board: &Board) -> Squares {
        own_origins::<R>(board)
    }

    #[inline(always)]
    fn candidates<R: Rules>(&self, board: &Board, from: Square) -> Squares {
        candidates::<R>(board, self.evasion_squares, from)
    }

    #[inline(always)]
    fn meets<R: Rules>(&self, board: &mut Board, m: Move) -> bool {
        is_legal::<R>(board, self.blocker_squares, self.evasion_squares, m)
    }

    ghost idle = { λ rule p m h. is_legal-idle rule p m h };
}

// Returns a superset of the squares from which the side to move has a legal move: the squares of all its
// men.
pub(crate) fn own_origins<R: Rules>(board: &Board) -> Squares
    ensures { AreOrigins (is_legal R.rule board.now) result }
{
    board.side(board.turn())
}

// Returns a superset of the squares to which the man on `from` has a legal move.
#[tactic(auto, using(crate::proofs::Walks::legal_candidates))]
#[inline(always)]
pub(crate) fn candidates<R: Rules>(board: &Board, evasion_squares: Squares, from: Square) -> Squares
    requires well_formed { IsWellFormed board.now }
    requires evasion_squares { AreEvasions R.rule board.now.men board.now.turn evasion_squares }
    ensures { AreCandidates R.rule board.now (is_legal R.rule board.now) from result }
{
    let evasions = evasions_from::<R>(board, evasion_squares, from);
    if evasions == 0 {
        return 0;
    }
    arrivals::<R>(board, from) & evasions
}
