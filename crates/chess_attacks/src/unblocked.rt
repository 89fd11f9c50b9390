//! Where a man could go on some board, whoever else is there.
ghost use Rattle.chess_attacks.specs.ties.Lines.{AreReached};

use crate::leaps::leaps_of;
use crate::lines::{diagonal_lines, straight_lines};
use crate::reach::reach_over;
use chess_core::{Kind, Man, Square, Squares};

/// Returns a superset of the squares that the man on `from` could reach on some board; for a grasshopper
/// a queen's lines. Pawns reach the squares on which they capture.
#[tactic(auto, using(crate::proofs::rays::OpenBoard::grasshopper_reach, crate::proofs::rays::OpenBoard::leap_reach, crate::proofs::rays::OpenBoard::nightrider_reach, crate::proofs::rays::OpenBoard::queen_reach, crate::proofs::rays::OpenBoard::ride_reach))]
pub fn unblocked_reach(man: Man, from: Square) -> Squares
    ensures { AreReached man from result }
{
    match man.kind {
        Kind::Queen | Kind::Grasshopper => straight_lines(from) | diagonal_lines(from),
        Kind::Rook => straight_lines(from),
        Kind::Bishop => diagonal_lines(from),
        Kind::Nightrider => reach_over(0, man.colour, Kind::Nightrider, from),
        _ => leaps_of(man.colour, man.kind, from),
    }
}
