//! Searches the triples for the next move that meets a test. What is known of the position skips most
//! of them.
ghost use Rattle.std.specs.Prelude.{◌≡◌, ◌≤◌, ◌<◌, Some, false, true};
ghost use Rattle.chess_core.specs.Position.{is_man, man_on};
ghost use Rattle.chess_core.specs.WellFormed.{IsWellFormed};
ghost use Rattle.chess_core.specs.declared.man.Kind.TheVariants.{Pawn};
ghost use Rattle.chess_rules.specs.ties.Places.{IsFirstOfOrigin, NoneMeet, all_triples, per_origin, triple_at};
ghost use Rattle.chess_rules.specs.ties.Targets.{AreCandidates, IsTargetCacheOf, AreOrigins, IsAimed, meets_on};

use crate::listing_moves::triples::{PER_ARRIVAL, PER_ORIGIN, move_at, next_from};
use chess_attacks::Rules;
use chess_attacks::words::{contains, pop_first, squares_from};
use chess_core::{Board, Kind, Move, Square, Squares};

/// The candidate squares of one origin, stored while the moves from there are listed.
#[derive(Clone, Copy)]
pub struct TargetCache {
    /// The origin, or `None` if nothing is stored.
    pub origin: Option<Square>,
    /// A superset of the squares to which its man moves by a move that meets the test.
    pub squares: Squares,
}

/// A test of the moves of a position, with what helps to find the moves that meet it. `fits` says to which
/// positions the test belongs.
pub trait MoveTest {
    ghost use Rattle.std.specs.Prelude.{Bool, ◌≡◌, true, false};
    ghost use Rattle.chess_core.specs.Position.{Position};
    ghost use Rattle.chess_core.specs.declared.man.Move.{Move};
    ghost use Rattle.chess_attacks.specs.RuleSet.{RuleSet};
    ghost use Rattle.chess_rules.specs.Legal.{is_pseudo_legal};

    ghost test: { RuleSet → Position → Move → Bool };

    ghost fits: { Self → RuleSet → Position → Type 0 };

    /// Returns a superset of the squares from which a move meets the test.
    fn origins<R: Rules>(&self, board: &Board) -> Squares
        requires well_formed { IsWellFormed board.now }
        requires fits { fits self.now R.rule board.now }
        ensures { AreOrigins (test R.rule board.now) result };

    /// Returns a superset of the squares to which the man on `from` moves by a move that meets the test.
    fn candidates<R: Rules>(&self, board: &Board, from: Square) -> Squares
        requires well_formed { IsWellFormed board.now }
        requires fits { fits self.now R.rule board.now }
        ensures { AreCandidates R.rule board.now (test R.rule board.now) from result };

    /// Returns whether the move meets the test. The board is unchanged.
    fn meets<R: Rules>(&self, board: &mut Board, m: Move) -> bool
        requires well_formed { IsWellFormed board.old }
        requires aimed { IsAimed R.rule board.old m }
        requires fits { fits self.now R.rule board.old }
        ensures answer { result ≡ test R.rule board.old m }
        ensures board { board.new ≡ board.old };

    ghost idle: { (rule : RuleSet) (p : Position) (m : Move) → is_pseudo_legal rule p m ≡ false
        → test rule p m ≡ false };
}

// Returns `cache` if it belongs to the origin `from`; otherwise computes its candidate squares.
fn cache_for<R: Rules, S: MoveTest>(
    board: &Board,
    move_test: &S,
    cache: TargetCache,
    from: Square,
) -> TargetCache
    requires well_formed { IsWellFormed board.now }
    requires fits { S.fits move_test.now R.rule board.now }
    requires cache { IsTargetCacheOf R.rule board.now (S.test R.rule board.now) cache }
    ensures origin { result.origin ≡ Some from }
    ensures cache { IsTargetCacheOf R.rule board.now (S.test R.rule board.now) result }
{
    if cache.origin == Some(from) {
        return cache;
    }
    TargetCache {
        origin: Some(from),
        squares: move_test.candidates::<R>(board, from),
    }
}

// Returns the first triple of the pawn on `from` that goes to one of the squares and meets the test, from `start`
// up to but not including `end`; `end` if there is none. Triples are counted from the first with this
// origin. The board is unchanged. Inlined: a call costs more than it saves.
#[inline(always)]
fn next_of_pawn<R: Rules, S: MoveTest>(
    board: &mut Board,
    move_test: &S,
    from: Square,
    squares: Squares,
    start: u16,
    end: u16,
) -> u16
    requires well_formed { IsWellFormed board.old }
    requires fits { S.fits move_test.now R.rule board.old }
    requires squares { AreCandidates R.rule board.old
        (meets_on squares (S.test R.rule board.old)) from squares }
    requires start { start ≤ per_origin }
    requires end { end ≤ per_origin }
    ensures first { IsFirstOfOrigin (S.test R.rule board.old) from squares start end result }
    ensures board { board.new ≡ board.old }
{
    let first = u16::from(from.index()) * PER_ORIGIN;
    let mut at = next_from(board, from, squares, start);
    while at < end {
        if move_test.meets::<R>(board, move_at(first + at)) {
            return at;
        }
        at = next_from(board, from, squares, at + 1);
    }
    end
}

// Returns the first triple of the piece on `from` that goes to one of the squares and meets the test, from
// `start` up to but not including `end`; `end` if there is none. Pieces don't promote, so each square has
// one triple. Triples are counted from the first with this origin. The board is unchanged. Inlined: a call
// costs more than it saves.
#[inline(always)]
#[tactic(auto, using(crate::proofs::Walks::plain_aimed, crate::proofs::Chess::cases_eq, crate::proofs::Chess::cases_lt), unfolding(crate::specs::ties::Places::triple_at))]
fn next_of_piece<R: Rules, S: MoveTest>(
    board: &mut Board,
    move_test: &S,
    from: Square,
    squares: Squares,
    start: u16,
    end: u16,
) -> u16
    requires well_formed { IsWellFormed board.old }
    requires fits { S.fits move_test.now R.rule board.old }
    requires squares { AreCandidates R.rule board.old
        (meets_on squares (S.test R.rule board.old)) from squares }
    requires no_pawn { is_man (man_on board.old.men from) board.old.turn Pawn ≡ false }
    requires start { start ≤ per_origin }
    requires end { end ≤ per_origin }
    ensures first { IsFirstOfOrigin (S.test R.rule board.old) from squares start end result }
    ensures board { board.new ≡ board.old }
{
    let mut rest = squares_from(squares, ((start + PER_ARRIVAL - 1) / PER_ARRIVAL) as u8);
    while let Some(to) = pop_first(&mut rest) {
        let number = u16::from(to.index()) * PER_ARRIVAL;
        if number >= end {
            return end;
        }
        let m = Move {
            from,
            to,
            promo: None,
        };
        if move_test.meets::<R>(board, m) {
            return number;
        }
    }
    end
}

// Returns the first triple of the man on `from` that goes to one of the squares and meets the test, from `start`
// up to but not including `end`; `end` if there is none. Triples are counted from the first with this
// origin. The board is unchanged. Inlined: a call costs more than it saves.
#[inline(always)]
#[tactic(auto, using(chess_attacks::proofs::Bits::word_has), unfolding(chess_core::specs::ties::Words::squares_of))]
pub(crate) fn next_of_man<R: Rules, S: MoveTest>(
    board: &mut Board,
    move_test: &S,
    from: Square,
    squares: Squares,
    start: u16,
    end: u16,
) -> u16
    requires well_formed { IsWellFormed board.old }
    requires fits { S.fits move_test.now R.rule board.old }
    requires squares { AreCandidates R.rule board.old
        (meets_on squares (S.test R.rule board.old)) from squares }
    requires start { start ≤ per_origin }
    requires end { end ≤ per_origin }
    ensures first { IsFirstOfOrigin (S.test R.rule board.old) from squares start end result }
    ensures board { board.new ≡ board.old }
{
    if squares == 0 {
        return end;
    }
    if contains(board.squares(board.turn(), Kind::Pawn), from) {
        next_of_pawn::<R, S>(board, move_test, from, squares, start, end)
    } else {
        next_of_piece::<R, S>(board, move_test, from, squares, start, end)
    }
}

// Returns the number of the first move that meets the test, from triple `start` up to but not including `end`;
// `end` if there is none. `cache` carries the candidates of one origin from call to call. The board is unchanged.
pub(crate) fn next_met<R: Rules, S: MoveTest>(
    board: &mut Board,
    move_test: &S,
    cache: &mut TargetCache,
    start: u16,
    end: u16,
) -> u16
    requires well_formed { IsWellFormed board.old }
    requires fits { S.fits move_test.now R.rule board.old }
    requires cache { IsTargetCacheOf R.rule board.old (S.test R.rule board.old) cache.old }
    requires end { end ≤ all_triples }
    ensures low { result < end → start ≤ result }
    ensures high { result ≤ end }
    ensures none { NoneMeet (S.test R.rule board.old) start result }
    ensures meets { result < end → S.test R.rule board.old (triple_at result) ≡ true }
    ensures cache { IsTargetCacheOf R.rule board.old (S.test R.rule board.old) cache.new }
    ensures board { board.new ≡ board.old }
{
    let origins = move_test.origins::<R>(board);
    let mut rest = squares_from(origins, (start / PER_ORIGIN) as u8);
    while let Some(from) = pop_first(&mut rest) {
        let first = u16::from(from.index()) * PER_ORIGIN;
        if first >= end {
            return end;
        }
        *cache = cache_for::<R, S>(board, move_test, *cache, from);
        let begin = start.saturating_sub(first);
        let limit = (end - first).min(PER_ORIGIN);
        let at = next_of_man::<R, S>(board, move_test, from, cache.squares, begin, limit);
        if at < PER_ORIGIN {
            return first + at;
        }
    }
    end
}
