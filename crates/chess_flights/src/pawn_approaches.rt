//! The squares from which a pawn could come, on some board.
ghost use Rattle.chess_core.specs.declared.man.Kind.TheVariants.{Pawn};
ghost use Rattle.chess_flights.specs.ties.Approaches.{AreApproaches, AreCapturers};

use chess_core::{Colour, Squares};

/// Returns a superset of the squares from which a pawn of this colour could go to one of the targets: the
/// shifts wrap around the edges of the board.
#[inline(always)]
#[tactic(auto, using(crate::proofs::Approaches::pawns_come_from))]
pub fn pawns_before(colour: Colour, targets: Squares) -> Squares
    ensures { AreApproaches (record { colour = colour; kind = Pawn }) targets result }
{
    match colour {
        Colour::White => targets >> 7 | targets >> 8 | targets >> 9 | targets >> 16,
        Colour::Black => targets << 7 | targets << 8 | targets << 9 | targets << 16,
    }
}

/// Returns a superset of the squares from which a pawn of this colour could capture on one of the
/// targets: the shifts wrap around the edges of the board.
#[tactic(auto, using(crate::proofs::Approaches::pawns_capture_from))]
pub fn capturers_before(colour: Colour, targets: Squares) -> Squares
    ensures { AreCapturers colour targets result }
{
    match colour {
        Colour::White => targets >> 7 | targets >> 9,
        Colour::Black => targets << 7 | targets << 9,
    }
}
