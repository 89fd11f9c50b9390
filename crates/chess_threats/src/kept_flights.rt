//! Flights that a king keeps whatever either side plays next, computed once for all moves of its side.
ghost use Rattle.std.specs.Prelude.{◌≡◌, Some};
ghost use Rattle.chess_core.specs.Position.{king_square};
ghost use Rattle.chess_core.specs.WellFormed.{IsWellFormed};
ghost use Rattle.chess_threats.specs.ties.Threats.{AreRisky, AreThreatsOf};

use crate::king_attack::{KingAttack, king_attack_of};
use crate::king_zone::{compute_targets, needed_squares};
use crate::lasting_flights::OpenTargets;
use crate::steps::{exact_steps, flightless_steps};
use chess_attacks::Rules;
use chess_attacks::leaps::king_leaps;
use chess_core::{Board, Square, Squares};
use chess_rules::unplayed::SquareFilter;
use std::marker::Model;

/// The flights of the king of the side to move, as a filter: it removes moves after which the king has a
/// flight whatever is played, so that no reply mates. It keeps castling, and in Circe every move.
#[derive(Drop)]
pub struct KeptFlights {
    king_attack: KingAttack,
    // Where the attackers could go on an otherwise empty board.
    targets: OpenTargets,
    // The squares that other men must not occupy if the king, which stays, is to keep a flight.
    needed: Squares,
}

impl Model for KeptFlights {
    ghost use Rattle.chess_threats.specs.ties.LastingFlights.{AreOpenTargets};
    ghost use Rattle.chess_threats.specs.ties.KingAttack.{AreNeeded, IsKingAttack, IsWhole};
    ghost use Rattle.chess_threats.specs.ties.Threats.{ThreatsSeen};

    ghost Value = { ThreatsSeen };

    ghost view = { λ t. record { king_attack = t.king_attack } };

    ghost invariant = { λ t. IsKingAttack t.king_attack × IsWhole t.king_attack
        × AreOpenTargets t.king_attack.men t.targets
        × AreNeeded t.king_attack t.needed };
}

impl KeptFlights {
    /// Computes the flights of the king of the side to move, which is on `king`.
    pub fn of<R: Rules>(board: &Board, king: Square) -> KeptFlights
        ensures { IsWellFormed board.now → king_square board.now.men board.now.turn ≡ Some king
            → AreThreatsOf R.rule board.now result }
    {
        let king_attack = king_attack_of::<R>(board, king);
        let mut targets = OpenTargets::unknown();
        compute_targets::<R>(&king_attack, &mut targets);
        KeptFlights {
            needed: needed_squares(&king_attack, &targets),
            targets,
            king_attack,
        }
    }

    /// Returns whether the filter may remove moves of men other than the king.
    pub fn removes_others(&self) -> bool {
        self.needed != !0
    }

    // Returns which of `squares` are risky: squares where the arrival of the man on `from` might leave
    // the king without a flight.
    fn risky_squares<R: Rules>(&self, _board: &Board, from: Square, squares: Squares) -> Squares
        requires well_formed { IsWellFormed _board.now }
        requires flights { AreThreatsOf R.rule _board.now self.now }
        ensures { AreRisky R.rule _board.now from squares result }
    {
        from.show_below_64();
        if R::captures_are_reborn() {
            return squares;
        }
        if from != self.king_attack.king {
            return squares & self.needed;
        }
        let castlings = !king_leaps(from);
        let steps = flightless_steps::<R>(&self.king_attack, &self.targets, squares & !castlings);
        squares & (castlings | steps)
    }
}

impl SquareFilter for KeptFlights {
    ghost use Rattle.chess_flights.specs.ties.Mates.{allows_mate};
    ghost use Rattle.chess_threats.specs.ties.Threats.{AreThreatsOf};

    ghost test = { allows_mate };

    ghost fits = { λ t rule p. AreThreatsOf rule p t };

    fn kept_squares<R: Rules>(&mut self, board: &Board, from: Square, squares: Squares) -> Squares {
        self.risky_squares::<R>(board, from, squares)
    }

    #[tactic(auto, using(crate::proofs::ExactSteps::known_exactly))]
    fn legal_squares<R: Rules>(
        &self,
        _board: &Board,
        from: Square,
        squares: Squares,
    ) -> Option<Squares> {
        if from != self.king_attack.king {
            return None;
        }
        exact_steps::<R>(&self.king_attack, squares)
    }
}
