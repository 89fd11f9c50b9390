//! How men move: the squares that a man reaches from its square.
ghost use Rattle.std.specs.Prelude.{◌≡◌, ℕ, List, Option};
ghost use Rattle.chess_core.specs.ties.Words.{word};
ghost use Rattle.chess_core.specs.declared.man.Man.{Man};
ghost use Rattle.chess_attacks.specs.ties.Lines.{occupied_squares};
ghost use Rattle.chess_attacks.specs.Reaches.{reaches, reaches_as};

use crate::leaps::leaps_of;
use crate::lines::{
    diagonal_rides, knight_rides, occupied, queen_hops, queen_rides, straight_rides,
};
use crate::words::contains;
use chess_core::{Board, Colour, Kind, Square, Squares};

/// Returns the squares where a man of this colour and kind on `from` could capture an enemy. Only
/// `occupied` matters, not which men are there. A pawn captures diagonally; its steps forward aren't
/// included.
#[tactic(auto, unfolding(crate::specs::Reaches::reaches_as))]
pub fn reach_over(occupied: Squares, colour: Colour, kind: Kind, from: Square) -> Squares
    ensures { (men : List (Option Man)) → occupied ≡ occupied_squares men
        → result ≡ word (reaches_as men colour kind from) }
{
    match kind {
        Kind::Queen => queen_rides(occupied, from),
        Kind::Rook => straight_rides(occupied, from),
        Kind::Bishop => diagonal_rides(occupied, from),
        Kind::Grasshopper => queen_hops(occupied, from),
        Kind::Nightrider => knight_rides(occupied, from),
        _ => leaps_of(colour, kind, from),
    }
}

/// Returns the squares where a man of this colour and kind on `from` could capture an enemy on this
/// board.
pub fn reach_as(board: &Board, colour: Colour, kind: Kind, from: Square) -> Squares
    ensures { result ≡ word (λ t. reaches_as board.now.men colour kind from t) }
{
    reach_over(occupied(board), colour, kind, from)
}

/// Returns whether a man is on `from` and could capture an enemy on `to`.
#[tactic(auto, using(crate::proofs::Bits::word_has), unfolding(crate::specs::Reaches::reaches))]
pub fn reaches(board: &Board, from: Square, to: Square) -> bool
    ensures { result ≡ reaches board.now.men from to }
{
    match board.man_at(from) {
        Some(man) => {
            to.show_below_64();
            contains(reach_as(board, man.colour, man.kind, from), to)
        }
        None => false,
    }
}
