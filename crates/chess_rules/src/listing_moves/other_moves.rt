//! Tests whether a man other than the king has a legal move.
ghost use Rattle.std.specs.Prelude.{◌≡◌, ◌<◌, ◌&&◌, filter, not};
ghost use Rattle.chess_core.specs.WellFormed.{IsWellFormed};
ghost use Rattle.chess_rules.specs.Legal.{is_legal, is_nil, moves};
ghost use Rattle.chess_rules.specs.ties.Counting.{IsKnownIn};
ghost use Rattle.chess_rules.specs.ties.Filtering.{is_of_others, is_legal_and};
ghost use Rattle.chess_rules.specs.ties.Targets.{AreCandidates, AreOrigins, IsAimed};

use crate::legality::legal::is_legal;
use crate::listing_moves::cursor::Cursor;
use crate::listing_moves::legal_moves::{LegalityMasks, candidates, legality_masks, own_origins};
use crate::listing_moves::move_test::MoveTest;
use chess_attacks::Rules;
use chess_attacks::words::contains;
use chess_core::{Board, Kind, Move, Square, Squares};

// What the search for legal moves of men other than the king knows of a position.
#[derive(Clone, Copy)]
struct Others {
    masks: LegalityMasks,
}

impl MoveTest for Others {
    ghost use Rattle.chess_rules.specs.ties.Counting.{IsKnownIn};
    ghost use Rattle.chess_rules.specs.ties.Idle.{is_legal_and-idle};
    ghost use Rattle.chess_rules.specs.ties.Filtering.{is_of_others, is_legal_and};

    ghost test = { λ rule p. is_legal_and rule p (is_of_others p) };

    ghost fits = { λ s rule p. IsKnownIn rule p s.masks };

    fn origins<R: Rules>(&self, board: &Board) -> Squares {
        origins_of_others::<R>(board)
    }

    fn candidates<R: Rules>(&self, board: &Board, from: Square) -> Squares {
        candidates_of_others::<R>(board, self.masks, from)
    }

    fn meets<R: Rules>(&self, board: &mut Board, m: Move) -> bool {
        is_legal_of_others::<R>(board, self.masks, m)
    }

    ghost idle = { λ rule p m h. is_legal_and-idle rule p (is_of_others p) m h };
}

// Returns a superset of the squares from which a man other than the king has a legal move: the squares
// of all men of the side to move except the king.
#[tactic(auto, using(crate::proofs::listing_moves::OtherMoves::other_origins))]
fn origins_of_others<R: Rules>(board: &Board) -> Squares
    ensures { AreOrigins (is_legal_and R.rule board.now (is_of_others board.now)) result }
{
    own_origins::<R>(board) & !board.squares(board.turn(), Kind::King)
}

// Returns a superset of the squares to which the man on `from` has a legal move.
#[tactic(auto, using(crate::proofs::listing_moves::OtherMoves::other_candidates))]
fn candidates_of_others<R: Rules>(board: &Board, masks: LegalityMasks, from: Square) -> Squares
    requires well_formed { IsWellFormed board.now }
    requires masks { IsKnownIn R.rule board.now masks }
    ensures { AreCandidates R.rule board.now
        (is_legal_and R.rule board.now (is_of_others board.now)) from result }
{
    candidates::<R>(board, masks.evasion_squares, from)
}

// Returns whether the move is legal and not the king's. The board is unchanged.
#[tactic(auto, using(crate::proofs::listing_moves::OtherMoves::is_other))]
fn is_legal_of_others<R: Rules>(board: &mut Board, masks: LegalityMasks, m: Move) -> bool
    requires well_formed { IsWellFormed board.old }
    requires aimed { IsAimed R.rule board.old m }
    requires masks { IsKnownIn R.rule board.old masks }
    ensures answer { result ≡ is_legal_and R.rule board.old (is_of_others board.old) m }
    ensures board { board.new ≡ board.old }
{
    is_legal::<R>(board, masks.blocker_squares, masks.evasion_squares, m)
        && !contains(board.squares(board.turn(), Kind::King), m.from)
}

/// Returns whether a man of the side to move other than the king has a legal move. The board is unchanged.
pub fn others_have_move<R: Rules>(board: &mut Board) -> bool
    requires { IsWellFormed board.old }
    ensures answer { result
        ≡ not (is_nil (filter (is_of_others board.old) (moves R.rule board.old))) }
    ensures board { board.new ≡ board.old }
{
    let others = Others {
        masks: legality_masks::<R>(board),
    };
    Cursor::<R, Others>::over(others).next(board).is_some()
}
