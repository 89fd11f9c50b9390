//! The squares where a man may arrive.
ghost use Rattle.std.specs.Prelude.{◌≡◌, ◌==◌, ℕ, ◌<◌, ◌&&◌, true};
ghost use Rattle.chess_core.specs.Castling.{has_unmoved};
ghost use Rattle.chess_core.specs.Position.{man_on, Position};
ghost use Rattle.chess_core.specs.Squares.{rank_of};
ghost use Rattle.chess_core.specs.ties.Words.{word};
ghost use Rattle.chess_rules.specs.Legal.{is_arrival_free, last_rank};
ghost use Rattle.chess_rules.specs.ties.Targets.{is_promoting, is_arrival, may_arrive, pawn_steps_to, steps_to};
ghost use Rattle.std.specs.Int.{bit_at};

use crate::legality::legal::{last_rank, second_rank};
use chess_attacks::Rules;
use chess_attacks::leaps::{king_leaps, pawn_advances, squares_aside};
use chess_attacks::lines::occupied;
use chess_attacks::reach::reach_as;
use chess_attacks::unblocked::unblocked_reach;
use chess_attacks::words::{next_bit, only};
use chess_core::{Board, Colour, Kind, Man, Square, Squares};

/// Returns the squares one and two ahead of a pawn on `from`, or two files to either side of a king;
/// none for other men.
#[tactic(auto, using(crate::proofs::Targeting::step_words))]
pub fn steps_to(man: Man, from: Square) -> Squares
    ensures { result ≡ word (steps_to man from) }
{
    if man.kind.is(Kind::Pawn) {
        pawn_advances(man.colour, from)
    } else if man.kind.is(Kind::King) {
        squares_aside(from)
    } else {
        0
    }
}

/// Returns a superset of the squares to which the man on `from` could move on some board, castling
/// included.
#[tactic(auto, using(crate::proofs::OpenBoard::king_targets, crate::proofs::OpenBoard::pawn_targets, crate::proofs::OpenBoard::piece_targets))]
pub fn unblocked_targets(man: Man, from: Square) -> Squares
    ensures { (p : Position) (t : ℕ) → t < 64 → may_arrive p man from t ≡ true
        → (bit_at result t == 1) ≡ true }
{
    let reached = unblocked_reach(man, from);
    match man.kind {
        Kind::Pawn => reached | pawn_advances(man.colour, from),
        Kind::King => reached | steps_to(man, from),
        _ => reached,
    }
}

// Returns the squares to which a pawn on `from` steps: one ahead if it is empty, and from its second rank
// two ahead if both are.
fn pawn_steps_to(board: &Board, man: Man, from: Square) -> Squares
    ensures { result ≡ word (pawn_steps_to board.now man from) }
{
    let ahead = pawn_advances(man.colour, from) & !occupied(board);
    let Some(_next) = next_bit(ahead & king_leaps(from), 0) else {
        return 0;
    };
    if from.rank() == second_rank(man.colour) {
        return ahead;
    }
    ahead & king_leaps(from)
}

// Returns a superset of the squares where the king on `from` arrives by castling; none without its
// castling right.
fn castling_squares(board: &Board, man: Man, from: Square) -> Squares
    ensures { result ≡ word (λ t. has_unmoved board.now.unmoved from && steps_to man from t) }
{
    if board.unmoved().has(from) {
        steps_to(man, from)
    } else {
        0
    }
}

// Returns the squares to which the man on `from` may go, whoever is there. Castling meets only some
// of its tests.
#[tactic(auto, using(crate::proofs::Arrivals::other_ways, crate::proofs::Arrivals::pawn_ways))]
fn arrivals_of(board: &Board, man: Man, from: Square) -> Squares
    ensures { result ≡ word (may_arrive board.now man from) }
{
    let reach = reach_as(board, man.colour, man.kind, from);
    if man.kind.is(Kind::Pawn) {
        return reach & (occupied(board) | only(board.crossed())) | pawn_steps_to(board, man, from);
    }
    reach | castling_squares(board, man, from)
}

// Returns the squares without a man of the colour and without a king.
fn free_squares(board: &Board, colour: Colour) -> Squares
    ensures { result ≡ word (λ t. is_arrival_free colour (man_on board.now.men t)) }
{
    !(board.side(colour) | board.squares(colour.other(), Kind::King))
}

/// Returns the squares where the man on `from` may arrive; none if it is paralysed or not of the side to
/// move. Castling meets only some of its tests.
#[tactic(auto, using(crate::proofs::Arrivals::arrivals_nobody, crate::proofs::Arrivals::arrivals_other, crate::proofs::Arrivals::arrivals_paralysed))]
#[inline(always)]
pub fn arrivals<R: Rules>(board: &Board, from: Square) -> Squares
    ensures { result ≡ word (is_arrival R.rule board.now from) }
{
    let Some(man) = board.man_at(from) else {
        return 0;
    };
    if !man.colour.is(board.turn()) {
        return 0;
    }
    if R::paralysed(board, from) {
        return 0;
    }
    free_squares(board, board.turn()) & arrivals_of(board, man, from)
}

// Returns whether the man is a pawn that arrives on its last rank.
pub(crate) fn is_promoting(man: Man, to: Square) -> bool
    ensures { result ≡ is_promoting man to }
{
    man.kind.is(Kind::Pawn) && to.rank() == last_rank(man.colour)
}

// Returns the squares of the rank on which the colour's pawns promote.
#[tactic(auto, unfolding(chess_core::specs::Squares::squares, chess_core::specs::ties::Words::word, chess_core::specs::ties::Words::word_of))]
fn last_rank_squares(colour: Colour) -> Squares
    ensures { result ≡ word (λ t. rank_of t == last_rank colour) }
{
    match colour {
        Colour::White => 0xff00_0000_0000_0000,
        Colour::Black => 0xff,
    }
}

// Returns the squares on which this man promotes; none unless it is a pawn.
#[tactic(auto, using(crate::proofs::listing_moves::SurelyLegal::promotion_words))]
pub(crate) fn promoting_squares(man: Man) -> Squares
    ensures { result ≡ word (is_promoting man) }
{
    if man.kind.is(Kind::Pawn) {
        last_rank_squares(man.colour)
    } else {
        0
    }
}
