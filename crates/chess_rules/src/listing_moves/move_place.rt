//! Places in the order of moves.
ghost use Rattle.std.specs.Prelude.{◌==◌, ◌≡◌, ◌-◌, ◌∷◌, [], IfSome, MatchOption, true};
ghost use Rattle.chess_core.specs.WellFormed.{IsWellFormed};
ghost use Rattle.chess_rules.specs.Legal.{is_legal};
ghost use Rattle.chess_rules.specs.ties.Places.{moves_between};

use crate::legality::single_move::is_single_move_legal;
use crate::listing_moves::triples::{TRIPLES, move_at};
use chess_attacks::Rules;
use chess_core::{Board, Move};
use std::marker::Model;

/// A place in the order of moves: the number of triples of origin, arrival and promotion before it, from 0
/// to `TRIPLES`. It belongs to no position and no rules. Contracts see this number.
#[derive(Clone, Copy, Debug, PartialEq, Eq, Default)]
pub struct MovePlace {
    number: u16,
}

impl Model for MovePlace {
    ghost use Rattle.std.specs.Prelude.{ℕ};

    ghost Value = { ℕ };

    ghost view = { λ place. place.number };

    ghost inverse = { λ n. record { number = n } };
}

impl MovePlace {
    /// Returns the place before the first triple.
    pub fn start() -> MovePlace
        ensures { result ≡ 0 }
    {
        MovePlace { number: 0 }
    }

    /// Returns the place after the first `number` triples. From `TRIPLES` on it is the end.
    pub fn at(number: u16) -> MovePlace
        ensures { result ≡ number }
    {
        MovePlace { number }
    }

    /// Returns the number of triples before the place.
    pub fn number(self) -> u16
        ensures { result ≡ self }
    {
        self.number
    }

    /// Returns whether this is the given place.
    pub fn is(self, place: MovePlace) -> bool
        ensures { result ≡ (self == place) }
    {
        self.number == place.number
    }

    /// Returns the place one triple earlier; the start stays the start.
    pub fn previous(self) -> MovePlace
        ensures { result ≡ self - 1 }
    {
        MovePlace {
            number: self.number.saturating_sub(1),
        }
    }

    /// Returns the last triple before the place, if it is a legal move in the board's position.
    /// Tests only this move. The board is unchanged.
    #[tactic(auto, using(crate::proofs::Between::standing))]
    pub fn legal_move<R: Rules>(self, board: &mut Board) -> Option<Move>
        requires { IsWellFormed board.old }
        ensures rest { MatchOption result (moves_between R.rule board.old (self - 1) self ≡ [])
            (λ m. moves_between R.rule board.old (self - 1) self ≡ m ∷ []) }
        ensures legal { IfSome result (λ m. is_legal R.rule board.old m ≡ true) }
        ensures board { board.new ≡ board.old }
    {
        if self.number == 0 || self.number > TRIPLES {
            return None;
        }
        let m = move_at(self.number - 1);
        if is_single_move_legal::<R>(board, m) {
            Some(m)
        } else {
            None
        }
    }
}
