//! The occupied squares that attacks depend on, now or after a move.
ghost use Rattle.std.specs.Prelude.{◌≡◌, List, Option};
ghost use Rattle.chess_core.specs.declared.man.Colour.{Colour};
ghost use Rattle.chess_core.specs.declared.man.Man.{Man};
ghost use Rattle.chess_core.specs.ties.Words.{squares_of};
ghost use Rattle.chess_attacks.specs.ties.Occupancy.{DescribesMen, occupancy_after};

use crate::lines::occupied;
use crate::words::only;
use chess_core::{Board, Colour, Kind, Square, Squares};

/// What attacks depend on: the occupied squares, and the squares whose men are still there.
#[derive(Clone, Copy)]
pub struct Occupancy {
    /// The squares with a man, which block lines.
    pub occupied: Squares,
    /// The squares whose men on the board still count. Men on other squares have moved, been captured or
    /// been lifted.
    pub standing: Squares,
}

/// Returns the occupancy before any move: each man is on its square, and counts.
#[tactic(auto, using(crate::proofs::attacks::Attacking::seen_now))]
pub fn occupancy_now(board: &Board) -> Occupancy
    ensures { (c : Colour) → DescribesMen board.now.men board.now.men c result }
{
    Occupancy {
        occupied: occupied(board),
        standing: !0,
    }
}

/// Returns the occupancy after the man on `from` has gone to `to` and the man on `captured`, if there is
/// one, is off the board.
pub fn occupancy_after(
    board: &Board,
    from: Square,
    captured: Option<Square>,
    to: Square,
) -> Occupancy
    ensures { result ≡ occupancy_after board.now.men from captured to }
{
    let gone = only(captured);
    Occupancy {
        occupied: occupied(board) & !(only(Some(from)) | gone) | only(Some(to)),
        standing: !gone,
    }
}

// Returns the squares of the men of this colour and kind that are still standing.
pub(crate) fn squares_seen(
    board: &Board,
    occupancy: Occupancy,
    colour: Colour,
    kind: Kind,
) -> Squares
    ensures { (men : List (Option Man)) → DescribesMen board.now.men men colour occupancy
        → result ≡ squares_of men colour kind }
{
    board.squares(colour, kind) & occupancy.standing
}
