//! Moves as a search for tries shows them.
ghost use Rattle.std.specs.Prelude.{◌≡◌, true};
ghost use Rattle.chess_core.specs.WellFormed.{IsWellFormed};
ghost use Rattle.chess_rules.specs.Legal.{is_legal};
ghost use Rattle.pop_events.specs.Shown.{shown_move};

use chess_core::{Board, Move};
use chess_rules::{Rules, play, unplay};
use pop_battle::chess::{Reached, mark_after, shown_of};
use pop_events::Shown;
use pop_stipulation::Goal;

/// Returns a legal move of the board's position as it is shown.
#[tactic(auto, using(chess_rules::proofs::LegalMoves::may_be_made), unfolding(pop_events::specs::Shown::shown_move))]
pub(crate) fn shown<R: Rules>(goal: Goal, by: Move, board: &mut Board) -> Shown
    requires well_formed { IsWellFormed board.old }
    requires legal { is_legal R.rule board.old by ≡ true }
    ensures shown { result ≡ shown_move goal R.rule board.old by }
    ensures unchanged { board.new ≡ board.old }
{
    let man = board.man_at(by.from);
    let there = board.man_at(by.to);
    let undo = play::<R>(board, by);
    let mark = mark_after::<R>(goal, Reached::Perhaps, board);
    let shown = shown_of(man, there, by, &undo, mark);
    unplay::<R>(board, by, undo);
    shown
}
