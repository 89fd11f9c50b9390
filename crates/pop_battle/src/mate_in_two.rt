//! White's last move but one in a direct mate, after which White must mate against each last defence.
ghost use Rattle.std.specs.Prelude.{◌+◌, ◌≡◌, ◌≤◌, true};
ghost use Rattle.chess_core.specs.WellFormed.{IsWellFormed};
ghost use Rattle.chess_rules.specs.Legal.{is_legal, moves as legal_moves};
ghost use Rattle.chess_rules.specs.Play.{position_after};
ghost use Rattle.pop_stipulation.specs.declared.stipulation.Goal.TheVariants.{Mate};
ghost use Rattle.pop_battle.specs.Chess.{chess};
ghost use Rattle.pop_battle.specs.Walks.{walk_count};
ghost use Rattle.pop_stipulation.specs.declared.stipulation.Battle.TheVariants.{Direct};
ghost use Rattle.pop_battle.specs.ties.Calls.{EvaluatesMate};
ghost use Rattle.pop_battle.specs.ties.Counts.{HasCounted, smallest_tree};
ghost use Rattle.pop_battle.specs.ties.Values.{value};

use crate::chess::cursor_at;
use crate::frame::MoveStage;
use crate::last_defence::value_of_last_defence;
use crate::move_stages::{next_tried, order_of};
use crate::search_state::SearchState;
use chess_core::{Board, Move};
use chess_rules::{Rules, play, unplay};
use pop_stipulation::Battle;

/// Returns whether White mates next after this move, whatever Black's defence.
#[tactic(auto, using(chess_rules::proofs::LegalMoves::may_be_made))]
fn leaves_no_defence<R: Rules>(by: Move, board: &mut Board, search_state: &mut SearchState) -> bool
    requires well_formed { IsWellFormed board.old }
    requires legal { is_legal R.rule board.old by ≡ true }
    ensures unchanged { board.new ≡ board.old }
    ensures value { result
        ≡ value Direct (chess Mate R.rule) 2 (position_after R.rule board.old by) }
    ensures opened { search_state.new.opened ≤ search_state.old.opened
        + walk_count (legal_moves R.rule) (position_after R.rule) 2
        (position_after R.rule board.old by) }
    ensures tried { HasCounted search_state.old.opened search_state.new.opened
        (smallest_tree Direct (chess Mate R.rule) 2 (position_after R.rule board.old by)) }
{
    let undo = play::<R>(board, by);
    let mates = value_of_last_defence::<R>(board, search_state);
    unplay::<R>(board, by, undo);
    mates
}

/// Returns whether White, to move, mates in at most two moves, trying the moves in the order of a test.
/// Counts the position even if it has no legal move.
pub(crate) fn mates_in_two<R: Rules>(board: &mut Board, search_state: &mut SearchState) -> bool
    requires well_formed { IsWellFormed board.old }
    ensures { EvaluatesMate R.rule Direct 3 board.old board.new search_state.old.opened
        search_state.new.opened result }
{
    search_state.opened = search_state.opened.saturating_add(1);
    let order = order_of(&search_state.killers, Battle::Direct, 3);
    let mut cursor = cursor_at::<R>(None, order.killer.previous(), board);
    let mut move_stage = MoveStage::Killer;
    while let Some(by) = next_tried::<R>(order, &mut move_stage, &mut cursor, board) {
        if leaves_no_defence::<R>(by, board, search_state) {
            search_state.killers.put(3, cursor.place());
            return true;
        }
    }
    false
}
