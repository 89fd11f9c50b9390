//! Tests a single move, without computing the bitboards that serve all moves of a position.
ghost use Rattle.std.specs.Prelude.{◌≡◌, false, true};
ghost use Rattle.chess_core.specs.WellFormed.{IsWellFormed};
ghost use Rattle.chess_rules.specs.Legal.{is_legal, is_pseudo_legal};
ghost use Rattle.chess_rules.specs.ties.Targets.{IsAimed};

use crate::legality::exposure::leaves_king_in_check;
use crate::legality::legal::is_pseudo_legal;
use crate::legality::targets::{arrivals, is_promoting};
use chess_attacks::Rules;
use chess_attacks::words::contains;
use chess_core::{Board, Move};

// Returns whether the move arrives on one of the man's arrival squares, with a promotion exactly if it is a
// pawn on its last rank.
fn is_aimed<R: Rules>(board: &Board, m: Move) -> bool
    ensures aimed { result ≡ true → IsAimed R.rule board.now m }
    ensures idle { result ≡ false → is_pseudo_legal R.rule board.now m ≡ false }
{
    m.to.show_below_64();
    let Some(man) = board.man_at(m.from) else {
        return false;
    };
    m.promo.is_some() == is_promoting(man, m.to) && contains(arrivals::<R>(board, m.from), m.to)
}

// Returns whether the move is legal. The board is unchanged.
#[tactic(auto, unfolding(crate::specs::Legal::is_legal))]
pub(crate) fn is_single_move_legal<R: Rules>(board: &mut Board, m: Move) -> bool
    requires well_formed { IsWellFormed board.old }
    ensures answer { result ≡ is_legal R.rule board.old m }
    ensures board { board.new ≡ board.old }
{
    is_aimed::<R>(board, m)
        && is_pseudo_legal::<R>(board, &m)
        && !leaves_king_in_check::<R>(board, m)
}
