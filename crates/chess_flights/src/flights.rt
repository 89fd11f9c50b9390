//! The steps of the enemy king after a move, and what guards them, without playing the move.
ghost use Rattle.std.specs.Prelude.{◌≡◌, ◌<◌, IfNone, IfSome, List, Option};
ghost use Rattle.std.specs.Int.Bits.{bit_and, bit_or};
ghost use Rattle.chess_core.specs.Position.{other};
ghost use Rattle.chess_core.specs.ties.Words.{side_of, squares_of, word};
ghost use Rattle.chess_core.specs.declared.man.Man.{Man};
ghost use Rattle.chess_core.specs.declared.man.Move.{Move};
ghost use Rattle.chess_core.specs.declared.man.Kind.TheVariants.{King};
ghost use Rattle.chess_flights.specs.ties.Flights.{AreSteps, AreUnsafe, IsSafe, IsSeenFrom, occupancy_lifted, occupancy_with};
ghost use Rattle.chess_rules.specs.Play.{arriving_man, capture_square, position_after};
ghost use Rattle.chess_attacks.specs.RuleSet.{captures_are_reborn};
ghost use Rattle.chess_attacks.specs.ties.Lines.{occupied_squares};
ghost use Rattle.chess_attacks.specs.Reaches.{reaches_as};

use chess_attacks::Rules;
use chess_attacks::attacks_on::has_attacker_in;
use chess_attacks::leaps::king_leaps;
use chess_attacks::occupancy::{Occupancy, occupancy_after};
use chess_attacks::reach::reach_over;
use chess_attacks::words::{only, pop_first};
use chess_core::{Board, Colour, Kind, Man, Move, Square, Squares};
use chess_rules::unplayed::{arriving_man, capture_square};

/// Returns the occupancy after a man has gone from `from` to `to`, the man on `captured` has left the
/// board, and the king on `king` is lifted. The man that moved isn't among the standing men.
pub fn occupancy_lifted(
    board: &Board,
    from: Square,
    captured: Option<Square>,
    to: Square,
    king: Square,
) -> Occupancy
    ensures { result ≡ occupancy_lifted board.now.men from captured to king }
{
    let occupancy = occupancy_after(board, from, captured, to);
    Occupancy {
        occupied: occupancy.occupied & !only(Some(king)),
        standing: occupancy.standing & !only(Some(from)),
    }
}

/// Returns the occupancy after the lifted king is put on `to`, whoever was there.
pub fn occupancy_with(occupancy: Occupancy, to: Square) -> Occupancy
    ensures { result ≡ occupancy_with occupancy to }
{
    let there = only(Some(to));
    Occupancy {
        occupied: occupancy.occupied | there,
        standing: occupancy.standing & !there,
    }
}

/// Returns the squares to which the king of the side that isn't to move may not step: the squares of its
/// own men that are still standing, and the square of the mover's king.
pub fn held_squares(board: &Board, standing: Squares) -> Squares
    ensures { result ≡ bit_or (bit_and (side_of board.now.men (other board.now.turn)) standing)
        (squares_of board.now.men board.now.turn King) }
{
    let mover = board.turn();
    board.side(mover.other()) & standing | board.squares(mover, Kind::King)
}

/// Returns the squares that the man attacks from its arrival `to`, as a `promo` if it promotes.
pub fn covered_squares(occupied: Squares, man: Man, promo: Option<Kind>, to: Square) -> Squares
    ensures { (men : List (Option Man)) → occupied ≡ occupied_squares men
        → result ≡ word (reaches_as men (arriving_man man promo).colour
        (arriving_man man promo).kind to) }
{
    let arrived = arriving_man(man, promo);
    reach_over(occupied, arrived.colour, arrived.kind, to)
}

/// Returns the squares to which the enemy king on `king` may step after a simple move, attacked or not:
/// no man of its own and no king is there, and in Circe nobody. `occupancy` is the occupancy after the
/// move with the king lifted.
#[tactic(auto, using(crate::proofs::Fleeing::open_squares_in_circe, crate::proofs::Fleeing::open_squares))]
pub fn open_squares<R: Rules>(board: &Board, occupancy: Occupancy, king: Square) -> Squares
    ensures { (m : Move) (x : Man) → IsSeenFrom R.rule board.now m x king → m.to < 64
        → occupancy ≡ occupancy_lifted board.now.men m.from (capture_square board.now x m) m.to king
        → AreSteps R.rule (position_after R.rule board.now m).men x (other board.now.turn) king
        result }
{
    let near = king_leaps(king);
    if R::captures_are_reborn() {
        return near & !occupancy.occupied;
    }
    near & !held_squares(board, occupancy.standing)
}

/// Returns the first of the squares where no man of the colour, except perhaps the moved man, attacks the
/// enemy king.
#[tactic(auto, using(chess_attacks::proofs::HoldTaken::taken_all, chess_attacks::proofs::HoldTaken::taken_none, chess_attacks::proofs::HoldTaken::rest_falls))]
#[inline(always)]
pub fn first_safe(
    board: &Board,
    occupancy: Occupancy,
    squares: Squares,
    colour: Colour,
) -> Option<Square>
    ensures safe { IfSome result (λ t. IsSafe board.now.men colour occupancy squares t) }
    ensures guarded { IfNone result (AreUnsafe board.now.men colour occupancy squares) }
{
    let mut rest = squares;
    while let Some(square) = pop_first(&mut rest) {
        if !has_attacker_in(board, occupancy_with(occupancy, square), square, colour) {
            return Some(square);
        }
    }
    None
}
