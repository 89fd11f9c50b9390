//! The threats of one position, kept while its moves are tried.
ghost use Rattle.std.specs.Prelude.{[], ◌≡◌, IfSome, None, true};
ghost use Rattle.chess_core.specs.WellFormed.{IsWellFormed};
ghost use Rattle.chess_rules.specs.Legal.{is_legal};
ghost use Rattle.chess_rules.specs.Play.{position_after};
ghost use Rattle.chess_flights.specs.ties.Mates.{mates_after};
ghost use Rattle.chess_threats.specs.ties.Threats.{AreThreatsOf};

use chess_core::{Board, Move};
use chess_rules::Rules;
use chess_threats::Threats;

/// The threats computed last, for one position.
#[derive(Drop)]
pub struct KeptThreats {
    /// `None` before the first, and for a position whose side to move has no king.
    pub last: Option<Threats>,
}

impl KeptThreats {
    /// Returns the state in which no threats are kept.
    pub fn none() -> KeptThreats
        ensures { result.last ≡ None }
    {
        KeptThreats { last: None }
    }

    /// Computes the threats in the board's position and keeps them; keeps none if the side to
    /// move has no king.
    pub fn renew<R: Rules>(&mut self, board: &Board)
        requires well_formed { IsWellFormed board.now }
        ensures { IfSome self.new.last (λ t. AreThreatsOf R.rule board.now t) }
    {
        let Some(king) = board.king_of(board.turn()) else {
            self.last = None;
            return;
        };
        match &mut self.last {
            Some(threats) => threats.recompute::<R>(board, king),
            None => self.last = Some(Threats::of::<R>(board, king)),
        }
    }

    /// Makes sure that the threats, if any are kept, belong to the board's position.
    pub fn update<R: Rules>(&mut self, board: &Board)
        requires well_formed { IsWellFormed board.now }
        ensures { IfSome self.new.last (λ t. AreThreatsOf R.rule board.now t) }
    {
        if let Some(threats) = &self.last {
            if threats.are_of::<R>(board) {
                return;
            }
        }
        self.renew::<R>(board);
    }

    /// Returns whether the threats in the board's position rule out that a reply to this move mates;
    /// `false` says nothing. Keeps the threats for the position's other moves.
    pub fn rule_out_mate<R: Rules>(&mut self, board: &Board, m: Move) -> bool
        requires well_formed { IsWellFormed board.now }
        requires legal { is_legal R.rule board.now m ≡ true }
        ensures { result ≡ true
            → mates_after R.rule (position_after R.rule board.now m) 0 ≡ [] }
    {
        self.update::<R>(board);
        let Some(threats) = &mut self.last else {
            return false;
        };
        threats.rule_out_mate::<R>(board, m)
    }
}
