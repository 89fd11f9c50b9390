//! White's last move in a selfmate for mate, after which Black must mate.
ghost use Rattle.std.specs.Prelude.{[], ◌≡◌, ◌≤◌, length, true};
ghost use Rattle.chess_core.specs.WellFormed.{IsWellFormed};
ghost use Rattle.chess_rules.specs.Legal.{is_legal};
ghost use Rattle.chess_rules.specs.Play.{position_after};
ghost use Rattle.chess_rules.specs.ties.Places.{IsPlaceIn, moves_after};
ghost use Rattle.chess_flights.specs.ties.QuietSteps.{must_reply_with_mate};
ghost use Rattle.pop_stipulation.specs.declared.stipulation.Goal.TheVariants.{Mate};
ghost use Rattle.pop_battle.specs.Chess.{chess};
ghost use Rattle.pop_stipulation.specs.declared.stipulation.Battle.TheVariants.{SelfMate};
ghost use Rattle.pop_battle.specs.ties.Calls.{EvaluatesMate};
ghost use Rattle.pop_battle.specs.ties.Counts.{HasCounted, smallest_below};
ghost use Rattle.pop_battle.specs.ties.Skipping.{IsNextKept};
ghost use Rattle.pop_battle.specs.ties.Values.{joined_value, value};

use crate::chess::is_reached_without_move;
use crate::kept_threats::KeptThreats;
use crate::search_state::{SearchState, show_fits_u64};
use chess_core::{Board, Move};
use chess_mates::every_move_mates;
use chess_rules::{LegalCursor, Rules, play, unplay};
use chess_threats::QuietSteps;
use pop_stipulation::Goal;

/// Returns whether Black must mate after this move by White. The move isn't played if Black's king has a
/// quiet step after it, or if no reply can mate.
#[tactic(auto, using(chess_rules::proofs::LegalMoves::may_be_made, crate::proofs::Boards::some_move, crate::proofs::LastMoves::unforced, crate::proofs::Values::last_half_move))]
fn forces_mate<R: Rules>(
    steps: QuietSteps,
    by: Move,
    board: &mut Board,
    threats: &mut KeptThreats,
) -> bool
    requires well_formed { IsWellFormed board.old }
    requires legal { is_legal R.rule board.old by ≡ true }
    ensures unchanged { board.new ≡ board.old }
    ensures value { result ≡ value SelfMate (chess Mate R.rule) 1
        (position_after R.rule board.old by) }
{
    if steps.follow::<R>(board, by) || threats.rule_out_mate::<R>(board, by) {
        return false;
    }
    let undo = play::<R>(board, by);
    let forced = every_move_mates::<R>(board);
    unplay::<R>(board, by, undo);
    forced
}

/// Returns the next legal move after the cursor, and skips moves after which the filter finds a quiet step
/// of Black's king. Adds the number of skipped moves to `counted`.
#[tactic(auto, using(crate::proofs::Skipping::with_filter, crate::proofs::Skipping::without_filter))]
fn next_without_quiet_step<R: Rules>(
    steps: &mut QuietSteps,
    cursor: &mut LegalCursor<R>,
    board: &mut Board,
    counted: &mut u64,
) -> Option<Move>
    requires well_formed { IsWellFormed board.old }
    requires place { IsPlaceIn R.rule board.old cursor.old }
    ensures unchanged { board.new ≡ board.old }
    ensures within { IsPlaceIn R.rule board.old cursor.new }
    ensures next { IsNextKept R.rule board.old (must_reply_with_mate R.rule board.old)
        cursor.old.place cursor.new.place counted.old counted.new result }
{
    show_fits_u64(*counted);
    if !steps.are_found_at_once(board) {
        return cursor.next(board);
    }
    let kept = cursor.next_kept(steps, board);
    *counted = counted.saturating_add(u64::from(kept.skipped));
    kept.found
}

/// Returns whether some move after the cursor forces mate. Counts each move up to the first that does.
fn some_forces_mate<R: Rules>(
    mut cursor: LegalCursor<R>,
    board: &mut Board,
    threats: &mut KeptThreats,
    counted: &mut u64,
) -> bool
    requires well_formed { IsWellFormed board.old }
    requires place { IsPlaceIn R.rule board.old cursor }
    requires none { counted.old ≡ 0 }
    ensures unchanged { board.new ≡ board.old }
    ensures value { result ≡ joined_value SelfMate (chess Mate R.rule) 2 board.old
        (moves_after R.rule board.old cursor.place) }
    ensures none { counted.new ≡ 0 → moves_after R.rule board.old cursor.place ≡ [] }
    ensures opened { counted.new ≤ length (moves_after R.rule board.old cursor.place) }
    ensures tried { HasCounted 0 counted.new (smallest_below SelfMate (chess Mate R.rule) 2
        board.old (moves_after R.rule board.old cursor.place)) }
{
    let mut steps = QuietSteps::of(board);
    while let Some(by) = next_without_quiet_step::<R>(&mut steps, &mut cursor, board, counted) {
        *counted = counted.saturating_add(1);
        if forces_mate::<R>(steps, by, board, threats) {
            return true;
        }
    }
    false
}

/// Returns the value of a position with two half-moves left in a selfmate for mate. Counts the position if
/// it has a legal move.
pub(crate) fn value_of_last_move<R: Rules>(
    board: &mut Board,
    search_state: &mut SearchState,
) -> bool
    requires well_formed { IsWellFormed board.old }
    ensures { EvaluatesMate R.rule SelfMate 2 board.old board.new search_state.old.opened
        search_state.new.opened result }
{
    let cursor = LegalCursor::<R>::of(board);
    let mut counted = 0;
    let forced = some_forces_mate::<R>(cursor, board, &mut search_state.threats, &mut counted);
    if counted == 0 {
        return is_reached_without_move::<R>(Goal::Mate, board);
    }
    search_state.opened = search_state
        .opened
        .saturating_add(counted)
        .saturating_add(1);
    forced
}
