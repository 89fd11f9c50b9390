//! Moves as they are shown.
use chess_core::{Colour, Kind, Man, Square};
use std::marker::Model;

/// The side that a king castles to: the a-file or the h-file.
#[derive(Clone, Copy, Debug, PartialEq, Eq)]
pub enum Side {
    A,
    H,
}

/// What a move does to the opponent, as a report marks it.
#[derive(Clone, Copy, Debug, PartialEq, Eq)]
pub enum Mark {
    /// No check.
    Plain,
    /// Check that isn't mate.
    Check,
    /// Mate.
    Mate,
    /// Stalemate. Marked only if stalemate is the goal (own).
    Stalemate,
}

/// A move as shown, with everything that its text says. Contracts see it as the record `Shown`, with squares as
/// numbers.
#[derive(Clone, Copy)]
pub struct Shown {
    /// The man that moves, before a promotion.
    pub man: Man,
    /// The origin square.
    pub from: Square,
    /// The arrival square; for a capture en passant the en passant square.
    pub to: Square,
    /// Whether a man is captured.
    pub capture: bool,
    /// Whether the capture is en passant.
    pub ep: bool,
    /// The kind that the pawn is promoted to, if any.
    pub promo: Option<Kind>,
    /// The side that the king castles to, if the move is castling.
    pub castling: Option<Side>,
    /// The captured man that is reborn and its square of rebirth, if any (Popeye manual, Circe).
    pub rebirth: Option<(Man, Square)>,
    /// What the move does to the opponent.
    pub mark: Mark,
}

impl Model for Shown {
    ghost use Rattle.pop_events.specs.Shown.{Shown};

    ghost Value = { Shown };

    ghost view = { λ s. record {
      man = s.man;
      from = s.from;
      to = s.to;
      capture = s.capture;
      ep = s.ep;
      promo = s.promo;
      castling = s.castling;
      rebirth = s.rebirth;
      mark = s.mark;
    } };

    ghost inverse = { λ v. record {
      man = v.man;
      from = v.from;
      to = v.to;
      capture = v.capture;
      ep = v.ep;
      promo = v.promo;
      castling = v.castling;
      rebirth = v.rebirth;
      mark = v.mark;
    } };
}

impl Default for Shown {
    ghost use Rattle.std.specs.Prelude.{◌≡◌};
    ghost use Rattle.pop_events.specs.Shown.{no_move_shown};

    ghost is_default = { λ s. s ≡ no_move_shown };

    // Returns a move of no man, which is never shown.
    fn default() -> Shown {
        Shown {
            man: Man {
                colour: Colour::White,
                kind: Kind::King,
            },
            from: Square::A1,
            to: Square::A1,
            capture: false,
            ep: false,
            promo: None,
            castling: None,
            rebirth: None,
            mark: Mark::Plain,
        }
    }
}
