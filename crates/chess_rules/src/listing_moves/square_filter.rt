//! Filters of the legal moves of a position, which remove many moves at a time.
ghost use Rattle.std.specs.Prelude.{◌≡◌, ◌+◌, ◌*◌, ◌<◌, ◌≤◌, length, true};
ghost use Rattle.chess_core.specs.WellFormed.{IsWellFormed};
ghost use Rattle.chess_rules.specs.Legal.{is_legal};
ghost use Rattle.chess_rules.specs.ties.Counting.{AreKnownCandidates, IsKnownIn};
ghost use Rattle.chess_rules.specs.ties.Places.{all_triples, per_origin, NoneMeet, moves_between, triple_at};
ghost use Rattle.chess_rules.specs.ties.Filtering.{AreKeptSquares, SomeFails, is_legal_and};
ghost use Rattle.chess_rules.specs.ties.Targets.{AreCandidates};

use crate::listing_moves::counting::{Candidates, Legality, count_origin};
use crate::listing_moves::legal_moves::{LegalityMasks, candidates, own_origins};
use crate::listing_moves::move_test::next_of_man;
use crate::listing_moves::triples::{PER_ORIGIN, TRIPLES};
use chess_attacks::Rules;
use chess_attacks::words::{pop_first, squares_from};
use chess_core::{Board, Move, Square, Squares};

/// A filter of the legal moves of a position, by arrival squares, which saves the time of trying moves. It
/// keeps all moves that meet a test, and perhaps others; the moves that it removes fail the test. `fits`
/// says to which positions the filter belongs.
pub trait SquareFilter {
    ghost use Rattle.std.specs.Prelude.{Bool, ◌≡◌, IfSome};
    ghost use Rattle.chess_core.specs.Position.{Position};
    ghost use Rattle.chess_core.specs.declared.man.Move.{Move};
    ghost use Rattle.chess_rules.specs.Legal.{is_legal};
    ghost use Rattle.chess_attacks.specs.RuleSet.{RuleSet};
    ghost use Rattle.chess_rules.specs.ties.Counting.{AreExact};
    ghost use Rattle.chess_rules.specs.ties.Targets.{AreCandidates};

    ghost test: { RuleSet → Position → Move → Bool };

    ghost fits: { Self → RuleSet → Position → Type 0 };

    /// Returns the squares that the filter keeps: those among `squares` to which a legal move of the man on
    /// `from` may meet the test, and perhaps others. The filter may cache results; contracts don't see them.
    fn kept_squares<R: Rules>(&mut self, board: &Board, from: Square, squares: Squares) -> Squares
        requires well_formed { IsWellFormed board.now }
        requires fits { fits self.old R.rule board.now }
        ensures kept { AreKeptSquares R.rule board.now (test R.rule board.now) from squares
            result }
        ensures same { self.new ≡ self.old };

    /// Returns exactly the squares to which the man on `from` has legal moves, or `None` if the filter
    /// doesn't know them. `squares` is a superset of these squares.
    fn legal_squares<R: Rules>(
        &self,
        board: &Board,
        from: Square,
        squares: Squares,
    ) -> Option<Squares>
        requires well_formed { IsWellFormed board.now }
        requires fits { fits self.now R.rule board.now }
        requires squares { AreCandidates R.rule board.now (is_legal R.rule board.now) from squares }
        ensures { IfSome result (λ w. AreExact R.rule board.now from w) };
}

/// The outcome of a search for the next legal move that a filter keeps.
#[derive(Clone, Copy)]
pub struct NextKept {
    /// A legal move, if the filter keeps one: each one before it fails the filter's test.
    pub found: Option<Move>,
    /// The number of legal moves before `found`, or of all legal moves after the start of the search if
    /// there is none.
    pub skipped: u16,
}

// Returns the candidate squares of the man on `from`, and whether its move to each is known to be legal: it
// is if the filter knows the exact squares of its legal moves.
fn candidates_with_legality<R: Rules, S: SquareFilter>(
    board: &Board,
    square_filter: &S,
    masks: LegalityMasks,
    from: Square,
) -> Candidates
    requires well_formed { IsWellFormed board.now }
    requires masks { IsKnownIn R.rule board.now masks }
    requires fits { S.fits square_filter.now R.rule board.now }
    ensures { AreKnownCandidates R.rule board.now from result }
{
    let squares = candidates::<R>(board, masks.evasion_squares, from);
    match square_filter.legal_squares::<R>(board, from, squares) {
        Some(exact) => Candidates {
            squares: exact,
            legality: Legality::Sure,
        },
        None => Candidates {
            squares,
            legality: Legality::Open,
        },
    }
}

// Returns which of `squares`, the candidate squares of the man on `from`, the filter keeps.
#[tactic(auto, using(crate::proofs::Filtering::wanted_candidates))]
fn kept_candidates<R: Rules, S: SquareFilter>(
    board: &Board,
    square_filter: &mut S,
    from: Square,
    squares: Squares,
) -> Squares
    requires well_formed { IsWellFormed board.now }
    requires fits { S.fits square_filter.old R.rule board.now }
    requires squares { AreCandidates R.rule board.now (is_legal R.rule board.now) from squares }
    ensures wanted { AreCandidates R.rule board.now
        (is_legal_and R.rule board.now (S.test R.rule board.now)) from result }
    ensures same { square_filter.new ≡ square_filter.old }
{
    if squares == 0 {
        return 0;
    }
    squares & square_filter.kept_squares::<R>(board, from, squares)
}

// Returns the number of the first legal move that the filter keeps, from triple `start` on; `TRIPLES`
// if there is none. Adds to `skipped`, which is 0, the number of legal moves before it. The board is
// unchanged.
pub(crate) fn first_kept<R: Rules, S: SquareFilter>(
    board: &mut Board,
    masks: LegalityMasks,
    square_filter: &mut S,
    start: u16,
    skipped: &mut u16,
) -> u16
    requires well_formed { IsWellFormed board.old }
    requires masks { IsKnownIn R.rule board.old masks }
    requires fits { S.fits square_filter.old R.rule board.old }
    requires none { skipped.old ≡ 0 }
    ensures low { result < all_triples → start ≤ result }
    ensures high { result ≤ all_triples }
    ensures none { NoneMeet (is_legal_and R.rule board.old (S.test R.rule board.old)) start
        result }
    ensures legal { result < all_triples → is_legal R.rule board.old (triple_at result) ≡ true }
    ensures skipped { skipped.new ≡ length (moves_between R.rule board.old start result) }
    ensures same { square_filter.new ≡ square_filter.old }
    ensures board { board.new ≡ board.old }
{
    let origins = own_origins::<R>(board);
    let mut rest = squares_from(origins, (start / PER_ORIGIN) as u8);
    while let Some(from) = pop_first(&mut rest) {
        let first = u16::from(from.index()) * PER_ORIGIN;
        let given = candidates_with_legality::<R, S>(board, square_filter, masks, from);
        let kept = kept_candidates::<R, S>(board, square_filter, from, given.squares);
        let begin = start.saturating_sub(first);
        let at = next_of_man::<R, LegalityMasks>(board, &masks, from, kept, begin, PER_ORIGIN);
        *skipped += count_origin::<R>(board, masks, given, from, begin, at);
        if at < PER_ORIGIN {
            return first + at;
        }
    }
    TRIPLES
}

// Returns whether the filter removes a legal move of the man on `from`. The board is unchanged.
fn removes_some<R: Rules, S: SquareFilter>(
    board: &mut Board,
    masks: LegalityMasks,
    square_filter: &mut S,
    from: Square,
) -> bool
    requires well_formed { IsWellFormed board.old }
    requires masks { IsKnownIn R.rule board.old masks }
    requires fits { S.fits square_filter.old R.rule board.old }
    ensures fails { result ≡ true → SomeFails R.rule board.old (S.test R.rule board.old) }
    ensures same { square_filter.new ≡ square_filter.old }
    ensures board { board.new ≡ board.old }
{
    let given = candidates_with_legality::<R, S>(board, square_filter, masks, from);
    let removed = given.squares
        & !kept_candidates::<R, S>(board, square_filter, from, given.squares);
    if removed == 0 {
        return false;
    }
    match given.legality {
        Legality::Sure => true,
        Legality::Open => {
            next_of_man::<R, LegalityMasks>(board, &masks, from, removed, 0, PER_ORIGIN)
                < PER_ORIGIN
        }
    }
}

// Returns whether the filter removes a legal move of a man on one of `origins`. The board is unchanged.
pub(crate) fn some_removed<R: Rules, S: SquareFilter>(
    board: &mut Board,
    masks: LegalityMasks,
    square_filter: &mut S,
    origins: Squares,
) -> bool
    requires well_formed { IsWellFormed board.old }
    requires masks { IsKnownIn R.rule board.old masks }
    requires fits { S.fits square_filter.old R.rule board.old }
    ensures fails { result ≡ true → SomeFails R.rule board.old (S.test R.rule board.old) }
    ensures same { square_filter.new ≡ square_filter.old }
    ensures board { board.new ≡ board.old }
{
    let mut rest = origins;
    while let Some(from) = pop_first(&mut rest) {
        if removes_some::<R, S>(board, masks, square_filter, from) {
            return true;
        }
    }
    false
}
