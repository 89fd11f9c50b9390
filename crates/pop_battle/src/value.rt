//! The value of a position in battle play.
ghost use Rattle.std.specs.Prelude.{[], ◌%◌, ◌&&◌, ◌++◌, ◌+◌, ◌-◌, ◌<◌, ◌==◌, ◌∷◌, ◌≡◌, ◌≤◌, ◌⊎◌, IfNone, IfSome, MatchBool, MatchOption, None, Some, false, not, true};
ghost use Rattle.arrayvec.specs.ArrayVec.{array_vec_len};
ghost use Rattle.chess_core.specs.Position.{Position};
ghost use Rattle.chess_core.specs.WellFormed.{IsWellFormed};
ghost use Rattle.chess_rules.specs.Legal.{is_legal, moves as legal_moves};
ghost use Rattle.chess_rules.specs.Play.{position_after, undo_of};
ghost use Rattle.chess_rules.specs.ties.Places.{IsPlaceIn};
ghost use Rattle.pop_battle.specs.Chess.{chess};
ghost use Rattle.pop_battle.specs.Game.{can_move as has_move};
ghost use Rattle.pop_battle.specs.Walks.{walk_count};
ghost use Rattle.pop_stipulation.specs.declared.stipulation.Battle.TheVariants.{Direct, SelfMate};
ghost use Rattle.pop_battle.specs.ties.Calls.{Evaluates, EvaluatesMate};
ghost use Rattle.pop_battle.specs.ties.Counts.{HasCounted, smallest_tree};
ghost use Rattle.pop_battle.specs.ties.Frames.{CameFrom, CameFromAt, Ends, IsOpenedOn, IsTesting, Turns, left_at_top, tests};
ghost use Rattle.pop_battle.specs.ties.Values.{attacker_to_move, joined_value, value};

use crate::aim::Aim;
use crate::chess::{cursor_at, cursor_if_any_move, is_reached_without_move, reaches_goal};
use crate::frame::{Frame, MoveStage};
use crate::last_defence::{has_mate, value_of_last_defence};
use crate::last_move::value_of_last_move;
use crate::mate_in_two::mates_in_two;
use crate::move_stages::{next_tried, order_of};
use crate::search_state::SearchState;
use arrayvec::ArrayVec;
use chess_core::{Board, Move};
use chess_mates::every_move_mates;
use chess_rules::{LegalCursor, Rules, play, unplay};
use pop_stipulation::{Battle, Goal};

/// Returns whether White, who needs only one good move, is to move with `left` half-moves left.
pub fn attacker_to_move(battle: Battle, left: usize) -> bool
    ensures { result ≡ attacker_to_move battle left }
{
    match battle {
        Battle::Direct => left % 2 == 1,
        Battle::SelfMate => left % 2 == 0,
    }
}

/// Returns whether White is to move with an odd number of half-moves left. The goal can't be reached before
/// this move, so the value depends on White's moves only, even if there are none.
fn is_free(battle: Battle, left: usize) -> bool
    ensures { result ≡ (left % 2 == 1 && attacker_to_move battle left) }
{
    left % 2 == 1 && attacker_to_move(battle, left)
}

/// Returns the value of a position without a legal move, with `left` half-moves left.
fn value_without_move<R: Rules>(goal: Goal, left: usize, board: &Board) -> bool
    requires { has_move (chess goal R.rule) board.now ≡ false }
    ensures { result ≡ ((left % 2 == 0) && (chess goal R.rule).goal board.now) }
{
    left % 2 == 0 && is_reached_without_move::<R>(goal, board)
}

/// Returns the value of a position with one half-move left in a direct mate for mate: whether White mates.
#[tactic(auto, using(crate::proofs::Boards::some_move, crate::proofs::Boards::settling, crate::proofs::SmallestTrees::shortest, crate::proofs::Values::last_half_move))]
fn value_of_last_mate<R: Rules>(board: &mut Board, search_state: &mut SearchState) -> bool
    requires well_formed { IsWellFormed board.old }
    ensures { EvaluatesMate R.rule Direct 1 board.old board.new search_state.old.opened
        search_state.new.opened result }
{
    search_state.opened = search_state.opened.saturating_add(1);
    has_mate::<R>(board, &mut search_state.killers)
}

/// Returns the value of a position with one half-move left in a selfmate for mate: whether Black must mate.
#[tactic(auto, using(crate::proofs::Boards::some_move, crate::proofs::Boards::settling, crate::proofs::SmallestTrees::shortest, crate::proofs::Values::last_half_move))]
fn value_of_last_reply<R: Rules>(board: &mut Board, search_state: &mut SearchState) -> bool
    requires well_formed { IsWellFormed board.old }
    ensures { EvaluatesMate R.rule SelfMate 1 board.old board.new search_state.old.opened
        search_state.new.opened result }
{
    search_state.opened = search_state.opened.saturating_add(1);
    every_move_mates::<R>(board)
}

/// Returns the value of a position if it can be decided without a frame; otherwise `None`, with a
/// cursor over its moves, if they were listed. For mate, the last half-moves need no frame (three in a direct
/// mate, two in a selfmate), and count as if they had one.
#[tactic(auto, using(crate::proofs::Boards::settling, crate::proofs::SmallestTrees::shortest, crate::proofs::Values::free_moves))]
#[inline(always)]
fn value_at_once<R: Rules>(
    aim: Aim,
    left: usize,
    board: &mut Board,
    cursor: &mut Option<LegalCursor<R>>,
    search_state: &mut SearchState,
) -> Option<bool>
    requires well_formed { IsWellFormed board.old }
    ensures unchanged { board.new ≡ board.old }
    ensures value { MatchOption result
        ((0 < left) × (value aim.battle (chess aim.goal R.rule) left board.old
        ≡ joined_value aim.battle (chess aim.goal R.rule) left board.old
        (legal_moves R.rule board.old)))
        (λ v. v ≡ value aim.battle (chess aim.goal R.rule) left board.old) }
    ensures cursor { IfSome cursor.new (λ k. IsPlaceIn R.rule board.old k) }
    ensures opened { MatchOption result (search_state.new.opened ≡ search_state.old.opened)
        (λ _. search_state.new.opened ≤ search_state.old.opened + walk_count (legal_moves R.rule)
        (position_after R.rule) left
        board.old) }
    ensures tried { IfSome result
        (λ _. HasCounted search_state.old.opened search_state.new.opened
        (smallest_tree aim.battle (chess aim.goal R.rule) left board.old)) }
{
    *cursor = None;
    match (aim.goal, aim.battle, left) {
        (goal, _, 0) => Some(reaches_goal::<R>(goal, board)),
        (Goal::Mate, Battle::Direct, 1) => Some(value_of_last_mate::<R>(board, search_state)),
        (Goal::Mate, Battle::SelfMate, 1) => Some(value_of_last_reply::<R>(board, search_state)),
        (Goal::Mate, Battle::Direct, 2) => Some(value_of_last_defence::<R>(board, search_state)),
        (Goal::Mate, Battle::SelfMate, 2) => Some(value_of_last_move::<R>(board, search_state)),
        (Goal::Mate, Battle::Direct, 3) => Some(mates_in_two::<R>(board, search_state)),
        (_, battle, _) if is_free(battle, left) => None,
        (goal, battle, _) => {
            *cursor = cursor_if_any_move::<R>(search_state.killers.of(battle, left), board);
            if cursor.is_some() {
                None
            } else {
                Some(value_without_move::<R>(goal, left, board))
            }
        }
    }
}

/// Returns whether the value after the last move tried decides the position.
fn is_decided(answer: Option<bool>, seek: bool) -> bool
    ensures { MatchBool result (answer ≡ Some seek) ((answer ≡ None) ⊎ (answer ≡ Some (not seek))) }
{
    match answer {
        Some(v) => v == seek,
        None => false,
    }
}

/// Closes a frame with the value of its position. Returns that value if the frame is the test's lowest.
#[tactic(auto, using(chess_rules::proofs::LegalMoves::may_be_made))]
fn close<R: Rules>(
    value: bool,
    floor: usize,
    depth: usize,
    top: Frame<R>,
    board: &mut Board,
    answer: &mut Option<bool>,
) -> Option<bool>
    requires { floor < depth → CameFrom R.rule top board.old }
    ensures lowest { depth ≤ floor → (result ≡ Some value) × (board.new ≡ board.old) }
    ensures above { floor < depth → (result ≡ None) × (answer.new ≡ Some value) }
    ensures before { (p : Position) → floor < depth → CameFromAt R.rule top board.old p
        → board.new ≡ p }
{
    if depth <= floor {
        return Some(value);
    }
    unplay::<R>(board, top.by, top.undo);
    *answer = Some(value);
    None
}

/// Plays a move of the top frame; `top` is that frame with its new cursor. Opens a frame for the position
/// after the move, unless that position's value is known at once; then takes the move back and returns the
/// value.
#[tactic(auto, using(chess_rules::proofs::LegalMoves::may_be_made))]
fn descend<R: Rules, const N: usize>(
    aim: Aim,
    top: Frame<R>,
    by: Move,
    board: &mut Board,
    frames: &mut ArrayVec<Frame<R>, N>,
    search_state: &mut SearchState,
) -> Option<bool>
    requires well_formed { IsWellFormed board.old }
    requires some { 0 < top.left }
    requires room { array_vec_len frames.old + top.left ≤ N }
    requires legal { is_legal R.rule board.old by ≡ true }
    ensures opened { MatchOption result (search_state.new.opened ≤ search_state.old.opened + 1)
        (λ _. search_state.new.opened ≤ search_state.old.opened + walk_count (legal_moves R.rule)
        (position_after R.rule)
        (top.left - 1) (position_after R.rule board.old by)) }
    ensures tried { MatchOption result
        (HasCounted search_state.old.opened search_state.new.opened 1)
        (λ _. HasCounted search_state.old.opened search_state.new.opened
        (smallest_tree aim.battle (chess aim.goal R.rule) (top.left - 1)
        (position_after R.rule board.old by))) }
    ensures answer { MatchOption result
        ((0 < top.left - 1)
        × (value aim.battle (chess aim.goal R.rule) (top.left - 1)
        (position_after R.rule board.old by)
        ≡ joined_value aim.battle (chess aim.goal R.rule) (top.left - 1)
        (position_after R.rule board.old by)
        (legal_moves R.rule (position_after R.rule board.old by)))
        × (board.new ≡ position_after R.rule board.old by)
        × IsOpenedOn R.rule (position_after R.rule board.old by)
        (frames.old.items ++ top ∷ []) frames.new.items
        by (undo_of R.rule board.old by) (top.left - 1))
        (λ v. (v ≡ value aim.battle (chess aim.goal R.rule) (top.left - 1)
        (position_after R.rule board.old by))
        × (board.new ≡ board.old)
        × (frames.new.items ≡ frames.old.items ++ top ∷ [])) }
{
    frames.push(top);
    let left = top.left - 1;
    let undo = play::<R>(board, by);
    let mut cursor = None;
    let answer = value_at_once::<R>(aim, left, board, &mut cursor, search_state);
    if answer.is_some() {
        unplay::<R>(board, by, undo);
        return answer;
    }
    search_state.opened = search_state.opened.saturating_add(1);
    let order = order_of(&search_state.killers, aim.battle, left);
    frames.push(Frame {
        place: order.killer.previous(),
        by,
        undo,
        left,
        order,
        move_stage: MoveStage::Killer,
        cursor,
        line_ends: None,
        ..top
    });
    None
}

/// Takes one turn of a test: plays the next move of the top frame, or closes the frame. Returns the test's
/// value at the end.
fn turn<R: Rules, const N: usize>(
    aim: Aim,
    floor: usize,
    board: &mut Board,
    frames: &mut ArrayVec<Frame<R>, N>,
    answer: &mut Option<bool>,
    search_state: &mut SearchState,
) -> Option<bool>
    requires well_formed { IsWellFormed board.old }
    requires above { floor < array_vec_len frames.old }
    requires room { left_at_top (tests floor frames.old.items) + array_vec_len frames.old ≤ N + 1 }
    requires testing { (p : Position) × IsTesting R.rule p (tests floor frames.old.items)
        board.old }
    ensures room { IfNone result
        (left_at_top (tests floor frames.new.items) + array_vec_len frames.new ≤ N + 1) }
    ensures next { (p : Position) → IsTesting R.rule p (tests floor frames.old.items) board.old
        → MatchOption result
        (Turns R.rule aim floor p frames.old.items frames.new.items
        answer.old answer.new board.new search_state.old.opened search_state.new.opened)
        (λ v. Ends R.rule aim floor p frames.old.items frames.new.items
        answer.old board.new search_state.old.opened search_state.new.opened v) }
{
    let Some(top) = frames.pop() else {
        return None;
    };
    let depth = frames.len();
    let seek = attacker_to_move(aim.battle, top.left);
    if is_decided(*answer, seek) {
        search_state.killers.put(top.left, top.place);
        return close::<R>(seek, floor, depth, top, board, answer);
    }
    let mut cursor = cursor_at::<R>(top.cursor, top.place, board);
    let mut move_stage = top.move_stage;
    let Some(by) = next_tried::<R>(top.order, &mut move_stage, &mut cursor, board) else {
        return close::<R>(!seek, floor, depth, top, board, answer);
    };
    let moved = Frame {
        place: cursor.place(),
        move_stage,
        cursor: Some(cursor),
        ..top
    };
    *answer = descend::<R, N>(aim, moved, by, board, frames, search_state);
    None
}

/// Returns the value of the board's position: whether White reaches the aim within `left` half-moves. The
/// test opens at most `left` frames on top of the frames in use; board and frames are unchanged afterwards.
pub fn value_of<R: Rules, const N: usize>(
    aim: Aim,
    left: usize,
    board: &mut Board,
    frames: &mut ArrayVec<Frame<R>, N>,
    search_state: &mut SearchState,
) -> bool
    requires well_formed { IsWellFormed board.old }
    requires room { array_vec_len frames.old + left ≤ N }
    ensures { Evaluates R.rule aim left board.old board.new frames.old.items frames.new.items
        search_state.old.opened search_state.new.opened result }
{
    let mut cursor = None;
    if let Some(v) = value_at_once::<R>(aim, left, board, &mut cursor, search_state) {
        return v;
    }
    let floor = frames.len();
    search_state.opened = search_state.opened.saturating_add(1);
    let order = order_of(&search_state.killers, aim.battle, left);
    frames.push(Frame {
        place: order.killer.previous(),
        left,
        order,
        move_stage: MoveStage::Killer,
        cursor,
        line_ends: None,
        ..Frame::default()
    });
    let mut answer = None;
    loop {
        if let Some(found) = turn::<R, N>(aim, floor, board, frames, &mut answer, search_state) {
            return found;
        }
    }
}
