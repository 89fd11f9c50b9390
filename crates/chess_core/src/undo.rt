//! What a move destroys.
use crate::man::{Man, Unmoved};
use crate::square::Square;
use std::marker::Model;

/// What a move destroyed. Together with the move itself it is all that is needed to take the move back.
/// It holds no position.
#[derive(Clone, Copy, Debug, Default)]
pub struct Undo {
    // First, since fields lie in memory in this order and this one needs an address that is a multiple of
    // eight.
    /// The castling rights before the move.
    pub unmoved: Unmoved,
    /// The captured man.
    pub captured: Option<Man>,
    /// The square on which the captured man was reborn (Circe).
    pub rebirth: Option<Square>,
    /// The en passant square before the move.
    pub crossed: Option<Square>,
}

impl Model for Undo {
    ghost use Rattle.chess_core.specs.Undo.{Undo};

    ghost Value = { Undo };

    ghost view = { λ u. record {
      captured = u.captured;
      rebirth = u.rebirth;
      unmoved = u.unmoved;
      crossed = u.crossed;
    } };

    ghost inverse = { λ v. record {
      captured = v.captured;
      rebirth = v.rebirth;
      unmoved = v.unmoved;
      crossed = v.crossed;
    } };
}
