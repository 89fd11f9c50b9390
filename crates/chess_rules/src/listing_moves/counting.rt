//! Counts the legal moves of one origin between two triples, mostly by counting bits.
ghost use Rattle.std.specs.Prelude.{◌≡◌, ◌/◌, ◌^◌, ◌<◌, ◌≤◌, ◌==◌, ℕ, count_ones, false, length, true};
ghost use Rattle.std.specs.Int.{bit_at};
ghost use Rattle.chess_core.specs.Position.{is_man, man_on};
ghost use Rattle.chess_core.specs.WellFormed.{IsWellFormed};
ghost use Rattle.chess_core.specs.declared.man.Kind.TheVariants.{Pawn};
ghost use Rattle.chess_core.specs.ties.Words.{word};
ghost use Rattle.chess_rules.specs.Legal.{is_legal};
ghost use Rattle.chess_rules.specs.ties.Counting.{AreKnownCandidates, AreLegal, IsKnownIn, is_untested};
ghost use Rattle.chess_rules.specs.ties.Places.{moves_of_origin, per_origin};
ghost use Rattle.chess_rules.specs.ties.Blockers.{may_expose};
ghost use Rattle.chess_rules.specs.ties.Targets.{AreCandidates};

use crate::legality::evasions::rebirth_captures;
use crate::legality::legal::is_legal;
use crate::legality::targets::promoting_squares;
use crate::listing_moves::legal_moves::LegalityMasks;
use crate::listing_moves::triples::{PER_ARRIVAL, PER_ORIGIN, move_at, next_from};
use chess_attacks::Rules;
use chess_attacks::words::{contains, only, pop_first, squares_from};
use chess_core::{Board, Colour, Kind, Man, Move, Square, Squares};

// Whether moves to the squares are known to be legal (`Sure`), or each needs a test (`Open`).
#[derive(Clone, Copy)]
pub(crate) enum Legality {
    Open,
    Sure,
}

// Candidate squares of a man, and whether its move to each of them is known to be legal.
#[derive(Clone, Copy)]
pub(crate) struct Candidates {
    pub(crate) squares: Squares,
    pub(crate) legality: Legality,
}

// Returns the number of squares of `word` whose number is `from` or more.
#[tactic(auto, using(crate::proofs::listing_moves::Counts::none_from))]
fn count_from(word: Squares, from: u8) -> u16
    ensures value { result ≡ count_ones (word / 2 ^ from) }
    ensures small { result ≤ 64 }
{
    if from >= 64 {
        return 0;
    }
    (word >> from).count_ones() as u16
}

// Returns the squares where a move of this man, not a king, needs a test of its own: the squares of en
// passant, rebirth and promotion, and `blocker_squares`, from which a move may expose the mover's king. They
// hold the king's fairy lines.
#[tactic(auto, using(crate::proofs::listing_moves::SurelyLegal::unsure_word))]
fn untested_squares<R: Rules>(board: &Board, man: Man, blocker_squares: Squares) -> Squares
    requires { blocker_squares ≡ word (may_expose board.now.men board.now.turn) }
    ensures { result ≡ word (is_untested R.rule board.now man) }
{
    only(board.crossed()) | rebirth_captures::<R>(board) | promoting_squares(man) | blocker_squares
}

// Returns whether all moves of the man on `from` to `squares` are certainly legal and none promotes.
// `blocker_squares` are the squares from which a move may expose the mover's king.
#[tactic(auto, using(crate::proofs::listing_moves::SurelyLegal::surely_legal))]
fn are_surely_legal<R: Rules>(
    board: &Board,
    blocker_squares: Squares,
    from: Square,
    squares: Squares,
) -> bool
    requires well_formed { IsWellFormed board.now }
    requires blocker_squares { blocker_squares ≡ word (may_expose board.now.men board.now.turn) }
    requires squares { AreCandidates R.rule board.now (is_legal R.rule board.now) from squares }
    ensures { result ≡ true → AreLegal R.rule board.now from squares }
{
    from.show_below_64();
    let Some(man) = board.man_at(from) else {
        return false;
    };
    if squares == 0 {
        return true;
    }
    if man.kind.is(Kind::King) {
        return false;
    }
    if contains(blocker_squares, from) {
        return false;
    }
    squares & untested_squares::<R>(board, man, blocker_squares) == 0
}

// Returns whether no move of the man on `from` to the squares of `given` needs a test, since all of them are
// certainly legal: `given` says so, or the squares show it.
fn need_no_test<R: Rules>(
    board: &Board,
    blocker_squares: Squares,
    from: Square,
    given: Candidates,
) -> bool
    requires well_formed { IsWellFormed board.now }
    requires blocker_squares { blocker_squares ≡ word (may_expose board.now.men board.now.turn) }
    requires given { AreKnownCandidates R.rule board.now from given }
    ensures { result ≡ true → AreLegal R.rule board.now from given.squares }
{
    match given.legality {
        Legality::Open => are_surely_legal::<R>(board, blocker_squares, from, given.squares),
        Legality::Sure => true,
    }
}

// Returns the number of legal moves of the pawn on `from` among its triples from `start` up to but not
// including `end`, by testing each; `squares` are its candidates. Triples are counted from the first with
// this origin. The board is unchanged. Inlined: a call costs more than it saves.
#[inline(always)]
fn count_of_pawn<R: Rules>(
    board: &mut Board,
    masks: LegalityMasks,
    squares: Squares,
    from: Square,
    start: u16,
    end: u16,
) -> u16
    requires well_formed { IsWellFormed board.old }
    requires masks { IsKnownIn R.rule board.old masks }
    requires squares { AreCandidates R.rule board.old (is_legal R.rule board.old) from squares }
    requires start { start ≤ end }
    requires end { end ≤ per_origin }
    ensures count { result ≡ length (moves_of_origin R.rule board.old from start end) }
    ensures board { board.new ≡ board.old }
{
    let first = u16::from(from.index()) * PER_ORIGIN;
    let mut count = 0u16;
    let mut at = next_from(board, from, squares, start);
    while at < end {
        let m = move_at(first + at);
        count += u16::from(is_legal::<R>(board, masks.blocker_squares, masks.evasion_squares, m));
        at = next_from(board, from, squares, at + 1);
    }
    count
}

// Returns the number of legal moves of the piece on `from` among its triples from `start` up to but not
// including `end`, by testing each. Pieces don't promote, so each square has one triple. The board is
// unchanged. Inlined: a call costs more than it saves.
#[inline(always)]
fn count_of_piece<R: Rules>(
    board: &mut Board,
    masks: LegalityMasks,
    squares: Squares,
    from: Square,
    start: u16,
    end: u16,
) -> u16
    requires well_formed { IsWellFormed board.old }
    requires masks { IsKnownIn R.rule board.old masks }
    requires squares { AreCandidates R.rule board.old (is_legal R.rule board.old) from squares }
    requires no_pawn { is_man (man_on board.old.men from) board.old.turn Pawn ≡ false }
    requires start { start ≤ end }
    requires end { end ≤ per_origin }
    ensures count { result ≡ length (moves_of_origin R.rule board.old from start end) }
    ensures board { board.new ≡ board.old }
{
    let mut count = 0u16;
    let mut rest = squares_from(squares, ((start + PER_ARRIVAL - 1) / PER_ARRIVAL) as u8);
    while let Some(to) = pop_first(&mut rest) {
        if u16::from(to.index()) * PER_ARRIVAL >= end {
            return count;
        }
        let m = Move {
            from,
            to,
            promo: None,
        };
        let legal = is_legal::<R>(board, masks.blocker_squares, masks.evasion_squares, m);
        count += u16::from(legal);
    }
    count
}

// Returns the number of legal moves of the man on `from` among its triples from `start` up to but not
// including `end`, by testing each.
#[inline(never)]
#[tactic(auto, using(chess_attacks::proofs::Bits::word_has), unfolding(chess_core::specs::ties::Words::squares_of))]
fn count_one_by_one<R: Rules>(
    board: &mut Board,
    masks: LegalityMasks,
    squares: Squares,
    from: Square,
    start: u16,
    end: u16,
) -> u16
    requires well_formed { IsWellFormed board.old }
    requires masks { IsKnownIn R.rule board.old masks }
    requires squares { AreCandidates R.rule board.old (is_legal R.rule board.old) from squares }
    requires start { start ≤ end }
    requires end { end ≤ per_origin }
    ensures count { result ≡ length (moves_of_origin R.rule board.old from start end) }
    ensures board { board.new ≡ board.old }
{
    if contains(board.squares(board.turn(), Kind::Pawn), from) {
        count_of_pawn::<R>(board, masks, squares, from, start, end)
    } else {
        count_of_piece::<R>(board, masks, squares, from, start, end)
    }
}

// Returns the number of legal moves of the man on `from` among its triples from `start` up to but not
// including `end`. Usually it only counts bits; the loops that test each move are out of line. The board
// is unchanged.
#[inline(always)]
pub(crate) fn count_origin<R: Rules>(
    board: &mut Board,
    masks: LegalityMasks,
    given: Candidates,
    from: Square,
    start: u16,
    end: u16,
) -> u16
    requires well_formed { IsWellFormed board.old }
    requires masks { IsKnownIn R.rule board.old masks }
    requires given { AreKnownCandidates R.rule board.old from given }
    requires start { start ≤ end }
    requires end { end ≤ per_origin }
    ensures count { result ≡ length (moves_of_origin R.rule board.old from start end) }
    ensures board { board.new ≡ board.old }
{
    let squares = given.squares;
    if need_no_test::<R>(board, masks.blocker_squares, from, given) {
        // Usually the whole origin is counted, and no division is needed.
        if start == 0 && end == PER_ORIGIN {
            return squares.count_ones() as u16;
        }
        let ahead = count_from(squares, ((start + PER_ARRIVAL - 1) / PER_ARRIVAL) as u8);
        let following = count_from(squares, ((end + PER_ARRIVAL - 1) / PER_ARRIVAL) as u8);
        return ahead.saturating_sub(following);
    }
    count_one_by_one::<R>(board, masks, squares, from, start, end)
}
