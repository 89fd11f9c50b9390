//! The squares on which the king of the side to be mated can still end.
ghost use Rattle.std.specs.Prelude.{◌≡◌, ◌≢◌, ◌≤◌, ◌+◌, ◌-◌, ◌/◌, ◌^◌, true, is_some};
ghost use Rattle.chess_core.specs.Position.{king_square};
ghost use Rattle.chess_core.specs.WellFormed.{IsWellFormed};
ghost use Rattle.chess_reach.specs.Lines.{HoldsEnds, mover};
ghost use Rattle.chess_reach.specs.Plans.{king_home, saved_moves, standing_checks};

use crate::hold::Ending;
use crate::planned_squares::planned_squares;
use chess_attacks::Rules;
use chess_core::{Board, Colour, Square, Squares};
use pop_stipulation::Goal;

/// Returns the part of `squares` on which the king of the side to be mated can still end in `half_moves`
/// half-moves of help play. It leaves out a square only if no line of `half_moves` legal moves reaches the
/// goal with the king there (own).
#[tactic(auto, using(crate::proofs::LineEnds::ends_held))]
pub fn mating_squares<R: Rules>(
    board: &Board,
    goal: Goal,
    squares: Squares,
    half_moves: usize,
) -> Squares
    requires { IsWellFormed board.now }
    ensures { HoldsEnds goal R.rule half_moves board.now squares
        → HoldsEnds goal R.rule half_moves board.now result }
{
    let mating = last_mover(board.turn(), half_moves);
    let mated = mating.other();
    if !lines_have_plans(board, mated, half_moves) {
        return squares;
    }
    let ours = with_castling(board, mating, last_mover_moves(half_moves));
    let theirs = with_castling(board, mated, half_moves / 2);
    let ending = Ending {
        goal,
        standing_checks: standing_checks::<R>(),
        are_reborn: R::captures_are_reborn(),
    };
    planned_squares(board, ending, mating, ours, theirs, squares)
}

// Returns the side that makes the last of `half_moves` half-moves.
fn last_mover(turn: Colour, half_moves: usize) -> Colour
    ensures { turn ≡ mover result half_moves }
{
    if half_moves % 2 == 1 {
        turn
    } else {
        turn.other()
    }
}

// Returns whether a knight or pawn that makes no move may check.
fn standing_checks<R: Rules>() -> bool
    ensures { result ≡ standing_checks R.rule }
{
    R::like_men_paralyse() || R::captures_are_reborn()
}

// Returns whether each line that reaches the goal has a plan: both sides still move, and the side to be mated has
// a king.
fn lines_have_plans(board: &Board, mated: Colour, half_moves: usize) -> bool
    ensures moves { result ≡ true → half_moves ≢ 0 }
    ensures more { result ≡ true → half_moves ≢ 1 }
    ensures king { result ≡ true → is_some (king_square board.now.men mated) ≡ true }
{
    half_moves > 1 && board.king_of(mated).is_some()
}

// Returns how many of `half_moves` half-moves the side that makes the last one makes.
fn last_mover_moves(half_moves: usize) -> usize
    ensures value { result ≡ half_moves - half_moves / 2 }
    ensures small { result ≤ 2 ^ 63 }
{
    let others = half_moves / 2;
    half_moves - others
}

// Returns the moves, plus two if castling may save them.
fn with_castling(board: &Board, colour: Colour, moves: usize) -> usize
    requires { moves ≤ 2 ^ 63 }
    ensures { result ≡ moves + saved_moves board.now colour }
{
    if board.unmoved().has(king_home(colour)) {
        moves + 2
    } else {
        moves
    }
}

// Returns the square from which this colour's king castles.
fn king_home(colour: Colour) -> Square
    ensures { result ≡ king_home colour }
{
    match colour {
        Colour::White => Square::E1,
        Colour::Black => Square::E8,
    }
}
