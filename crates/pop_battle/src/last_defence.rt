//! Black's last defence in a direct mate, after which White must mate at once.
ghost use Rattle.std.specs.Prelude.{◌+◌, ◌-◌, ◌≡◌, ◌≤◌, IfSome, None, Some, false, true};
ghost use Rattle.chess_core.specs.Position.{king_square};
ghost use Rattle.chess_core.specs.WellFormed.{IsWellFormed};
ghost use Rattle.chess_attacks.specs.RuleSet.{captures_are_reborn};
ghost use Rattle.chess_rules.specs.Legal.{is_legal};
ghost use Rattle.chess_rules.specs.Play.{position_after};
ghost use Rattle.chess_rules.specs.ties.Filtering.{SomeFails};
ghost use Rattle.chess_rules.specs.ties.Places.{IsPlaceIn};
ghost use Rattle.chess_flights.specs.ties.Mates.{allows_mate};
ghost use Rattle.pop_stipulation.specs.declared.stipulation.Goal.TheVariants.{Mate};
ghost use Rattle.pop_battle.specs.Chess.{chess};
ghost use Rattle.pop_stipulation.specs.declared.stipulation.Battle.TheVariants.{Direct};
ghost use Rattle.pop_battle.specs.declared.frame.MoveStage.TheVariants.{Killer};
ghost use Rattle.pop_battle.specs.ties.Calls.{EvaluatesMate, Finds};
ghost use Rattle.pop_battle.specs.ties.Counts.{HasCounted};
ghost use Rattle.pop_battle.specs.ties.Frames.{moves_ahead, moves_unlooked};
ghost use Rattle.pop_battle.specs.ties.Values.{value};

use crate::chess::{cursor_at, find_mate, is_reached_without_move};
use crate::frame::{MoveStage, Order};
use crate::killers::Killers;
use crate::move_stages::{next_tried, order_of, place_before};
use crate::search_state::SearchState;
use chess_core::{Board, Kind, Move, Square};
use chess_rules::{LegalCursor, MovePlace, Rules, play, unplay};
use chess_threats::KeptFlights;
use pop_stipulation::{Battle, Goal};

/// Returns whether White, to move, mates at once. The mating move becomes the killer; without one the
/// killer is cleared.
#[tactic(auto, using(crate::proofs::Values::last_half_move))]
pub(crate) fn has_mate<R: Rules>(board: &mut Board, killers: &mut Killers) -> bool
    requires well_formed { IsWellFormed board.old }
    ensures unchanged { board.new ≡ board.old }
    ensures value { result ≡ value Direct (chess Mate R.rule) 1 board.old }
{
    let found = find_mate::<R>(killers.of(Battle::Direct, 1), board);
    killers.put(1, found.unwrap_or_default());
    found.is_some()
}

/// Returns whether White mates after this move by Black. Counts the position after it.
#[tactic(auto, using(chess_rules::proofs::LegalMoves::may_be_made))]
fn lets_mate<R: Rules>(by: Move, board: &mut Board, search_state: &mut SearchState) -> bool
    requires well_formed { IsWellFormed board.old }
    requires legal { is_legal R.rule board.old by ≡ true }
    ensures unchanged { board.new ≡ board.old }
    ensures value { result
        ≡ value Direct (chess Mate R.rule) 1 (position_after R.rule board.old by) }
    ensures opened { search_state.new.opened ≤ search_state.old.opened + 1 }
    ensures tried { HasCounted search_state.old.opened search_state.new.opened 1 }
{
    search_state.opened = search_state.opened.saturating_add(1);
    let undo = play::<R>(board, by);
    let mates = has_mate::<R>(board, &mut search_state.killers);
    unplay::<R>(board, by, undo);
    mates
}

/// Returns the next defence to try. The first call after the killer sets up `cursor`, which only
/// later stages need.
fn next_defence<R: Rules>(
    order: Order,
    move_stage: &mut MoveStage,
    cursor: &mut Option<LegalCursor<R>>,
    board: &mut Board,
) -> Option<Move>
    requires well_formed { IsWellFormed board.old }
    requires cursor { IfSome cursor.old (λ k. IsPlaceIn R.rule board.old k) }
    ensures { Finds R.rule board.old board.new cursor.new result
        (moves_unlooked R.rule board.old order move_stage.old cursor.old)
        (moves_unlooked R.rule board.old order move_stage.new cursor.new) }
{
    if cursor.is_none() {
        *move_stage = MoveStage::Earlier;
        *cursor = Some(cursor_at::<R>(None, place_before::<R>(order, MoveStage::Earlier), board));
    }
    let Some(cursor) = cursor else {
        return None;
    };
    next_tried::<R>(order, move_stage, cursor, board)
}

/// Returns the first defence to try: the killer, tested without listing the moves, or the first move after
/// it.
#[tactic(auto, unfolding(crate::specs::ties::Frames::moves_here))]
fn first_defence<R: Rules>(
    order: Order,
    move_stage: &mut MoveStage,
    cursor: &mut Option<LegalCursor<R>>,
    board: &mut Board,
) -> Option<Move>
    requires well_formed { IsWellFormed board.old }
    requires unlisted { cursor.old ≡ None }
    ensures { Finds R.rule board.old board.new cursor.new result
        (moves_ahead R.rule board.old order Killer (order.killer - 1))
        (moves_unlooked R.rule board.old order move_stage.new cursor.new) }
{
    if let Some(by) = order.killer.legal_move::<R>(board) {
        return Some(by);
    }
    next_defence::<R>(order, move_stage, cursor, board)
}

/// Returns the place of the defence that was found last.
fn place_of_last<R: Rules>(order: Order, cursor: &Option<LegalCursor<R>>) -> MovePlace {
    match cursor {
        Some(cursor) => cursor.place(),
        None => order.killer,
    }
}

/// Returns the value of a position with two half-moves left in a direct mate, by trying Black's moves in
/// the order of a test. Counts the position if it has a legal move, and each position after a tried move.
#[inline(always)]
fn value_by_trial<R: Rules>(board: &mut Board, search_state: &mut SearchState) -> bool
    requires well_formed { IsWellFormed board.old }
    ensures { EvaluatesMate R.rule Direct 2 board.old board.new search_state.old.opened
        search_state.new.opened result }
{
    let order = order_of(&search_state.killers, Battle::Direct, 2);
    let mut cursor: Option<LegalCursor<R>> = None;
    let mut move_stage = MoveStage::Killer;
    let mut next = first_defence::<R>(order, &mut move_stage, &mut cursor, board);
    if next.is_none() {
        return is_reached_without_move::<R>(Goal::Mate, board);
    }
    search_state.opened = search_state.opened.saturating_add(1);
    while let Some(by) = next {
        if !lets_mate::<R>(by, board, search_state) {
            search_state.killers.put(2, place_of_last(order, &cursor));
            return false;
        }
        next = next_defence::<R>(order, &mut move_stage, &mut cursor, board);
    }
    true
}

// Returns whether Black certainly has a legal move after which its king keeps a flight, whatever White plays;
// `false` says nothing. Tries the king's moves last.
#[inline(never)]
fn keeps_flight<R: Rules>(board: &mut Board, king: Square) -> bool
    requires well_formed { IsWellFormed board.old }
    requires captures { captures_are_reborn R.rule ≡ false }
    requires king { king_square board.old.men board.old.turn ≡ Some king }
    ensures unchanged { board.new ≡ board.old }
    ensures defence { result ≡ true
        → SomeFails R.rule board.old (allows_mate R.rule board.old) }
{
    let mut flights = KeptFlights::of::<R>(board, king);
    let cursor = LegalCursor::<R>::of(board);
    let kings = board.squares(board.turn(), Kind::King);
    let men = board.side(board.turn()) & !kings;
    flights.removes_others() && cursor.has_removed(&mut flights, board, men)
        || cursor.has_removed(&mut flights, board, kings)
}

// The most attackers and the most defenders with which kept flights are computed before any defence is
// tried. The limits affect speed only.
const MOST_ATTACKERS: u32 = 5;

const MOST_DEFENDERS: u32 = 5;

// Returns whether there are so few men that computing kept flights is worth its time.
fn are_few_men(board: &Board) -> bool {
    let defenders = board.side(board.turn());
    let attackers = board.side(board.turn().other());
    attackers.count_ones() <= MOST_ATTACKERS && defenders.count_ones() <= MOST_DEFENDERS
}

/// Returns whether Black certainly has a defence after which its king keeps a flight; `false` says nothing.
#[inline(always)]
fn certainly_escapes<R: Rules>(board: &mut Board) -> bool
    requires well_formed { IsWellFormed board.old }
    ensures unchanged { board.new ≡ board.old }
    ensures defence { result ≡ true
        → SomeFails R.rule board.old (allows_mate R.rule board.old) }
{
    if R::captures_are_reborn() || !are_few_men(board) {
        return false;
    }
    let Some(king) = board.king_of(board.turn()) else {
        return false;
    };
    keeps_flight::<R>(board, king)
}

/// Returns the value of a position with two half-moves left in a direct mate. Counts two positions if Black
/// certainly escapes, otherwise the positions that it tries.
#[inline(always)]
pub(crate) fn value_of_last_defence<R: Rules>(
    board: &mut Board,
    search_state: &mut SearchState,
) -> bool
    requires well_formed { IsWellFormed board.old }
    ensures { EvaluatesMate R.rule Direct 2 board.old board.new search_state.old.opened
        search_state.new.opened result }
{
    if certainly_escapes::<R>(board) {
        search_state.opened = search_state.opened.saturating_add(2);
        return false;
    }
    value_by_trial::<R>(board, search_state)
}
