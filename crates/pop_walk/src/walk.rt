//! The walk over the moves of a phase, with a stack of frames.
ghost use Rattle.std.specs.Prelude.{◌≡◌, ◌↔◌, ◌+◌, ◌<◌, ◌≤◌, ◌/◌, [], ◌∷◌, ◌++◌, length, reverse, take, List, IsTrue, true, false, is_some, IfSome, MatchOption, Some, None, ◌⊎◌, not, ◌&&◌, ◌||◌, ◌==◌, ◌-◌, ◌^◌, if◌then◌else◌, min};
ghost use Rattle.arrayvec.specs.ArrayVec.{array_vec_len};
ghost use Rattle.chess_threats.specs.ties.Threats.{AreThreatsOf};
ghost use Rattle.chess_rules.specs.Legal.{is_legal, is_mate, moves as legal_moves};
ghost use Rattle.chess_rules.specs.Play.{position_after, undo_of};
ghost use Rattle.chess_rules.specs.ties.Places.{IsPlaceIn, moves_after};
ghost use Rattle.pop_battle.specs.ties.Calls.{Evaluates, Restores};
ghost use Rattle.pop_battle.specs.ties.Frames.{CameFrom, CameFromAt, Frame as Level, opened_frame};
ghost use Rattle.pop_battle.specs.ties.Skipping.{IsNextMatable};
ghost use Rattle.pop_walk.specs.ties.Counts.{CountsMove, CountsWalk, tries_all};
ghost use Rattle.pop_walk.specs.ties.Walk.{Battle, IsWellFormed, Mate, Position, attacker_to_move, chess, is_for_mate, value, MovesOn, fewest_half_moves, least_length_from, shown_length, is_followed, is_emitted, walk_length, IsMatedAtLast, IsNextOf, IsWalking, seeks_last, Steps};

use crate::mode::Mode;
use crate::reach::{is_out_of_reach, keep_line_ends, line_ends_after};
use arrayvec::ArrayVec;
use chess_core::{Board, Move};
use chess_mates::next_mate;
use chess_rules::{LegalCursor, MovePlace, Rules, play, unplay};
use chess_threats::Threats;
use pop_battle::chess::{is_for_mate, next_move, reaches_goal};
use pop_battle::{
    Aim, Frame, MoveStage, Order, SearchState, attacker_to_move, show_fits_u64, value_of,
};
use pop_stipulation::Battle;

/// Returns the fewest half-moves with which White, to move, can reach the aim.
fn fewest_half_moves(battle: Battle) -> usize
    ensures { result ≡ fewest_half_moves battle }
{
    match battle {
        Battle::Direct => 1,
        Battle::SelfMate => 2,
    }
}

/// Returns the least number of half-moves within which White, to move, reaches the aim. Tests rising
/// lengths, and takes for granted that White reaches it within `left`.
#[tactic(auto, using(crate::proofs::Lengths::next_length), unfolding(crate::specs::ties::Walk::least_length_from))]
fn least_length<R: Rules, const N: usize>(
    aim: Aim,
    left: usize,
    board: &mut Board,
    frames: &mut ArrayVec<Frame<R>, N>,
    search_state: &mut SearchState,
) -> usize
    requires well_formed { IsWellFormed board.old }
    requires room { array_vec_len frames.old + left ≤ N }
    ensures least { result ≡ least_length_from aim.battle (chess aim.goal R.rule) board.old
        ((left - fewest_half_moves aim.battle) / 2) (fewest_half_moves aim.battle) }
    ensures rest { Restores board.old board.new frames.old.items frames.new.items
        search_state.old.opened search_state.new.opened }
{
    let mut tried = fewest_half_moves(aim.battle);
    while left >= 2 && tried <= left - 2 {
        if value_of::<R, N>(aim, tried, board, frames, search_state) {
            return tried;
        }
        tried += 2;
    }
    tried
}

/// Returns how many half-moves battle play shows from the board's position, with `left` half-moves left:
/// 0 if it shows no more.
#[tactic(auto, unfolding(crate::specs::ties::Walk::shown_length))]
fn shown_length<R: Rules, const N: usize>(
    aim: Aim,
    left: usize,
    board: &mut Board,
    frames: &mut ArrayVec<Frame<R>, N>,
    search_state: &mut SearchState,
) -> usize
    requires well_formed { IsWellFormed board.old }
    requires room { array_vec_len frames.old + left ≤ N }
    ensures length { result ≡ shown_length aim.battle (chess aim.goal R.rule) left board.old }
    ensures rest { Restores board.old board.new frames.old.items frames.new.items
        search_state.old.opened search_state.new.opened }
{
    if left == 0 || reaches_goal::<R>(aim.goal, board) {
        return 0;
    }
    if !attacker_to_move(aim.battle, left) {
        return left;
    }
    least_length::<R, N>(aim, left, board, frames, search_state)
}

/// Returns how many half-moves the walk goes on from the board's position, with `left` half-moves left.
#[tactic(auto, unfolding(crate::specs::ties::Walk::walk_length))]
pub fn walk_length<R: Rules, const N: usize>(
    mode: Mode,
    left: usize,
    board: &mut Board,
    frames: &mut ArrayVec<Frame<R>, N>,
    search_state: &mut SearchState,
) -> usize
    requires well_formed { IsWellFormed board.old }
    requires room { array_vec_len frames.old + left ≤ N }
    ensures length { result
        ≡ walk_length mode.battle mode.variation (chess mode.goal R.rule) left board.old }
    ensures rest { Restores board.old board.new frames.old.items frames.new.items
        search_state.old.opened search_state.new.opened }
    ensures opened { mode.battle ≡ None → search_state.new.opened ≡ search_state.old.opened }
    ensures keys_alone { (battle : Battle) → mode.battle ≡ Some battle
        → IsTrue (not mode.variation && attacker_to_move battle (left + 1))
        → search_state.new.opened ≡ search_state.old.opened }
{
    let Some(battle) = mode.battle else {
        return left;
    };
    if !mode.variation && attacker_to_move(battle, left + 1) {
        return 0;
    }
    let aim = Aim {
        battle,
        goal: mode.goal,
    };
    shown_length::<R, N>(aim, left, board, frames, search_state)
}

/// Returns the battle in which a move is tested before the walk follows it, with `left` half-moves left
/// including the move: White's moves and the moves of a phase's first position are tested. `depth` is the
/// number of frames, 1 at the first position.
fn tested_in(battle: Option<Battle>, depth: usize, left: usize) -> Option<Battle>
    ensures { MatchOption result ((fought : Battle) → battle ≡ Some fought
        → ((depth == 1) || attacker_to_move fought left) ≡ false)
        (λ fought. (battle ≡ Some fought)
        × (((depth == 1) || attacker_to_move fought left) ≡ true)) }
{
    match battle {
        Some(battle) if depth == 1 || attacker_to_move(battle, left) => Some(battle),
        _ => None,
    }
}

/// Returns whether the side that makes the last half-move wants to reach the goal: either side in help
/// play, White in a direct mate; in a selfmate Black doesn't.
fn seeks_last(battle: Option<Battle>) -> bool
    ensures { result ≡ seeks_last battle }
{
    match battle {
        None => true,
        Some(battle) => attacker_to_move(battle, 1),
    }
}

/// Returns whether the next half-move ends every path and must mate: it is the last half-move of play for
/// mate, by a side that wants mate.
pub(crate) fn ends_with_mate(mode: Mode, left: usize) -> bool
    ensures { IsTrue result ↔ ((is_for_mate mode.goal ≡ true) × (seeks_last mode.battle ≡ true)
        × (left ≡ 1)) }
{
    is_for_mate(mode.goal) && left == 1 && seeks_last(mode.battle)
}

/// Returns the value of the position that a move has reached, with `left` half-moves left. It tests
/// nothing after a last move that is known to mate.
#[tactic(auto, unfolding(pop_battle::specs::ties::Counts::smallest_tree, pop_battle::specs::ties::Values::value))]
fn value_after<R: Rules, const N: usize>(
    aim: Aim,
    left: usize,
    board: &mut Board,
    frames: &mut ArrayVec<Frame<R>, N>,
    search_state: &mut SearchState,
) -> bool
    requires well_formed { IsWellFormed board.old }
    requires room { array_vec_len frames.old + left ≤ N }
    requires mated { is_for_mate aim.goal ≡ true → attacker_to_move aim.battle 1 ≡ true → left ≡ 0
        → is_mate R.rule board.old ≡ true }
    ensures { Evaluates R.rule aim left board.old board.new frames.old.items
        frames.new.items search_state.old.opened search_state.new.opened result }
{
    if left == 0 && is_for_mate(aim.goal) && attacker_to_move(aim.battle, 1) {
        return true;
    }
    value_of::<R, N>(aim, left, board, frames, search_state)
}

/// Returns whether the path to the board's position is emitted, with `left` half-moves left. In help play
/// for mate the last half-move is known to mate.
#[tactic(auto, unfolding(crate::specs::ties::Walk::is_emitted))]
fn is_emitted<R: Rules>(mode: Mode, left: usize, board: &mut Board) -> bool
    requires well_formed { IsWellFormed board.old }
    requires mated { IsMatedAtLast R.rule mode left board.old }
    ensures unchanged { board.new ≡ board.old }
    ensures emitted { result ≡ is_emitted mode.battle (chess mode.goal R.rule) left board.old }
{
    match mode.battle {
        Some(_) => true,
        None => left == 0 && (is_for_mate(mode.goal) || reaches_goal::<R>(mode.goal, board)),
    }
}

/// Returns the count of tried positions after a frame with `tried` half-moves has been opened. A frame
/// without half-moves doesn't count.
pub(crate) fn opened_with(opened: u64, tried: usize) -> u64
    ensures { result ≡ min (opened + (if tried == 0 then 0 else 1)) (2 ^ 64 - 1) }
{
    if tried > 0 {
        opened.saturating_add(1)
    } else {
        opened
    }
}

/// Returns the count of tried positions after a move whose frame has `tried` half-moves. A position that
/// was tested in a battle isn't counted again: its test has counted it.
fn opened_after(opened: u64, tried: usize, tested: Option<Battle>) -> u64
    ensures { result ≡ min (opened + (if is_some tested || (tried == 0) then 0 else 1))
        (2 ^ 64 - 1) }
{
    match tested {
        Some(_) => opened,
        None => opened_with(opened, tried),
    }
}

/// Plays a legal move, after which `left` half-moves are left, and opens a frame for the position after
/// it if the walk follows the move; otherwise takes it back. Returns whether its path is emitted. Inlined
/// by hand: it is called for each move, and the compiler wouldn't inline it.
#[tactic(auto, using(chess_rules::proofs::LegalMoves::may_be_made, chess_rules::proofs::Stays::after_well_formed), unfolding(crate::specs::ties::Walk::is_followed, crate::specs::ties::Walk::walk_length))]
#[inline(always)]
pub(crate) fn enter<R: Rules, const N: usize>(
    mode: Mode,
    left: usize,
    by: Move,
    board: &mut Board,
    frames: &mut ArrayVec<Frame<R>, N>,
    search_state: &mut SearchState,
) -> bool
    requires well_formed { IsWellFormed board.old }
    requires room { array_vec_len frames.old + left < N }
    requires legal { is_legal R.rule board.old by ≡ true }
    requires mated { IsMatedAtLast R.rule mode left (position_after R.rule board.old by) }
    ensures unfollowed { is_followed mode.battle (chess mode.goal R.rule)
        (array_vec_len frames.old == 1) left
        (position_after R.rule board.old by) ≡ false
        → (result ≡ false) × (board.new ≡ board.old) × (frames.new.items ≡ frames.old.items) }
    ensures enters { is_followed mode.battle (chess mode.goal R.rule)
        (array_vec_len frames.old == 1) left
        (position_after R.rule board.old by) ≡ true
        → (result ≡ is_emitted mode.battle (chess mode.goal R.rule) left
        (position_after R.rule board.old by))
        × (board.new ≡ position_after R.rule board.old by)
        × (frames.new.items ≡ frames.old.items ++ opened_frame by (undo_of R.rule board.old by)
        (walk_length mode.battle mode.variation (chess mode.goal R.rule) left
        (position_after R.rule board.old by))
        ∷ []) }
    ensures counts { CountsMove R.rule mode (array_vec_len frames.old == 1) left
        (position_after R.rule board.old by) search_state.old.opened search_state.new.opened }
{
    let depth = frames.len();
    let undo = play::<R>(board, by);
    let tested = tested_in(mode.battle, depth, left + 1);
    if let Some(battle) = tested {
        let aim = Aim {
            battle,
            goal: mode.goal,
        };
        if !value_after::<R, N>(aim, left, board, frames, search_state) {
            unplay::<R>(board, by, undo);
            return false;
        }
    }
    let tried = walk_length::<R, N>(mode, left, board, frames, search_state);
    frames.push(Frame {
        place: MovePlace::start(),
        by,
        undo,
        left: tried,
        order: Order::unordered(),
        move_stage: MoveStage::Others,
        cursor: None,
        line_ends: None,
    });
    search_state.opened = opened_after(search_state.opened, tried, tested);
    is_emitted::<R>(mode, left, board)
}

/// Returns whether the search may skip moves to which no reply mates: in help play for mate with two
/// half-moves left.
#[tactic(auto, using(pop_battle::proofs::Boards::for_mate))]
fn may_skip(mode: Mode, left: usize) -> bool
    ensures { result ≡ true → (mode.battle ≡ None) × (mode.goal ≡ Mate) × (left ≡ 2) }
{
    left == 2 && mode.battle.is_none() && is_for_mate(mode.goal)
}

/// Returns the next legal move after `place`, and skips moves for which the threats rule out that a reply
/// mates. Adds the number of skipped moves to `opened`: each counts as the position that it would have
/// reached.
#[tactic(auto, using(pop_battle::proofs::Skipping::with_filter))]
fn next_risky<R: Rules>(
    threats: &mut Threats,
    cursor: &mut Option<LegalCursor<R>>,
    place: &mut MovePlace,
    board: &mut Board,
    opened: &mut u64,
) -> Option<Move>
    requires well_formed { IsWellFormed board.old }
    requires threats { AreThreatsOf R.rule board.old threats.old }
    requires cursor { IfSome cursor.old (λ k. IsPlaceIn R.rule board.old k) }
    ensures unchanged { board.new ≡ board.old }
    ensures within { IfSome cursor.new (λ k. IsPlaceIn R.rule board.old k) }
    ensures next { IsNextMatable R.rule board.old place.old place.new opened.old opened.new
        result }
{
    if cursor.is_none() {
        *cursor = Some(LegalCursor::<R>::of(board));
    }
    let Some(cursor) = cursor else {
        return None;
    };
    cursor.go_to(*place);
    let kept = cursor.next_kept(threats, board);
    *opened = opened.saturating_add(u64::from(kept.skipped));
    *place = cursor.place();
    kept.found
}

/// Returns the next legal move after `place` to which a reply may mate; without threats, the next legal
/// move.
#[tactic(auto, using(pop_battle::proofs::Skipping::without_filter))]
fn next_allowing_mate<R: Rules>(
    cursor: &mut Option<LegalCursor<R>>,
    place: &mut MovePlace,
    board: &mut Board,
    search_state: &mut SearchState,
) -> Option<Move>
    requires well_formed { IsWellFormed board.old }
    requires cursor { IfSome cursor.old (λ k. IsPlaceIn R.rule board.old k) }
    ensures unchanged { board.new ≡ board.old }
    ensures within { IfSome cursor.new (λ k. IsPlaceIn R.rule board.old k) }
    ensures next { IsNextMatable R.rule board.old place.old place.new search_state.old.opened
        search_state.new.opened result }
{
    show_fits_u64(search_state.opened);
    if cursor.is_none() {
        search_state.threats.renew::<R>(board);
    } else {
        search_state.threats.update::<R>(board);
    }
    let opened = &mut search_state.opened;
    match &mut search_state.threats.last {
        Some(threats) => next_risky::<R>(threats, cursor, place, board, opened),
        None => next_move::<R>(cursor, place, board),
    }
}

/// Returns the next move to try after `place`, in a position with `left` half-moves left: the next mate, if
/// the path ends with it; with two half-moves left in help play for mate, the next move to which a reply
/// may mate; otherwise the next legal move.
#[tactic(auto, using(crate::proofs::Walking::next_mating, pop_battle::proofs::Boards::for_mate))]
fn next_of<R: Rules>(
    mode: Mode,
    left: usize,
    cursor: &mut Option<LegalCursor<R>>,
    place: &mut MovePlace,
    board: &mut Board,
    search_state: &mut SearchState,
) -> Option<Move>
    requires well_formed { IsWellFormed board.old }
    requires cursor { IfSome cursor.old (λ k. IsPlaceIn R.rule board.old k) }
    ensures unchanged { board.new ≡ board.old }
    ensures within { IfSome cursor.new (λ k. IsPlaceIn R.rule board.old k) }
    ensures next { IsNextOf R.rule mode left board.old place.old place.new search_state.old.opened
        search_state.new.opened result }
    ensures mated { IfSome result
        (λ m. IsMatedAtLast R.rule mode (left - 1) (position_after R.rule board.old m)) }
{
    if left == 0 {
        return None;
    }
    if ends_with_mate(mode, left) {
        return next_mate::<R>(place, board);
    }
    if may_skip(mode, left) {
        return next_allowing_mate::<R>(cursor, place, board, search_state);
    }
    next_move::<R>(cursor, place, board)
}

/// Takes back the move of a closed frame, unless it is the lowest.
#[tactic(auto, using(chess_rules::proofs::LegalMoves::may_be_made))]
#[inline(always)]
pub fn step_back<R: Rules>(depth: usize, top: Frame<R>, board: &mut Board)
    requires { 0 < depth → CameFrom R.rule top board.old }
    ensures lowest { depth ≡ 0 → board.new ≡ board.old }
    ensures before { (p : Position) → 0 < depth → CameFromAt R.rule top board.old p
        → board.new ≡ p }
{
    if depth > 0 {
        unplay::<R>(board, top.by, top.undo);
    }
}

/// Returns the frame of the position on the board, which is the last one.
fn top_of<R: Rules, const N: usize>(frames: &ArrayVec<Frame<R>, N>) -> &Frame<R>
    requires { 0 < array_vec_len frames.now }
    ensures { frames.now.items
        ≡ take (array_vec_len frames.now - 1) frames.now.items ++ result.now ∷ [] }
{
    &frames.as_slice()[frames.len() - 1]
}

/// Returns the next move to try from the top frame and moves its cursor. Changes the frame in place:
/// popping and pushing it would copy it twice.
fn next_of_top<R: Rules, const N: usize>(
    mode: Mode,
    board: &mut Board,
    frames: &mut ArrayVec<Frame<R>, N>,
    search_state: &mut SearchState,
) -> Option<Move>
    requires well_formed { IsWellFormed board.old }
    requires open { 0 < array_vec_len frames.old }
    requires cursor { (below : List Level) (top : Level) → frames.old.items ≡ below ++ top ∷ []
        → IfSome top.cursor (λ k. IsPlaceIn R.rule board.old k) }
    ensures unchanged { board.new ≡ board.old }
    ensures top { MovesOn R.rule mode board.old frames.old.items frames.new.items
        search_state.old.opened search_state.new.opened result }
    ensures len { array_vec_len frames.new ≡ array_vec_len frames.old }
{
    let last = frames.len() - 1;
    let top = &mut frames.as_mut_slice()[last];
    next_of::<R>(
        mode,
        top.left,
        &mut top.cursor,
        &mut top.place,
        board,
        search_state,
    )
}

/// Takes one step of the walk: plays the next move of the top frame, or closes the frame. Returns whether
/// the path to the new top frame is emitted. If the walk prunes, it doesn't follow a move of help play after
/// which the goal is out of reach.
#[tactic(auto, using(crate::proofs::Walking::top_frame))]
pub fn step<R: Rules, const N: usize, const PRUNES: bool>(
    mode: Mode,
    half_moves: usize,
    board: &mut Board,
    frames: &mut ArrayVec<Frame<R>, N>,
    search_state: &mut SearchState,
) -> bool
    requires well_formed { IsWellFormed board.old }
    requires room { half_moves < N }
    requires open { 0 < array_vec_len frames.old }
    requires walking { (p : Position) × IsWalking R.rule half_moves p (reverse frames.old.items)
        board.old }
    ensures steps { (p : Position) → IsWalking R.rule half_moves p (reverse frames.old.items)
        board.old
        → Steps R.rule mode half_moves p (reverse frames.old.items) (reverse frames.new.items)
        board.new result }
    ensures counts { (p : Position) → IsWalking R.rule half_moves p (reverse frames.old.items)
        board.old
        → CountsWalk (tries_all PRUNES mode.battle) R.rule mode half_moves p
        (reverse frames.old.items) (reverse frames.new.items) search_state.old.opened
        search_state.new.opened }
{
    let depth = frames.len() - 1;
    let Some(by) = next_of_top::<R, N>(mode, board, frames, search_state) else {
        if let Some(top) = frames.pop() {
            step_back::<R>(depth, top, board);
        }
        return false;
    };
    let top = top_of(frames);
    let left = top.left;
    let line_ends = top.line_ends;
    let ends = line_ends_after::<R, PRUNES>(mode, left - 1, by, line_ends, board);
    if is_out_of_reach(ends) {
        return false;
    }
    let emitted = enter::<R, N>(mode, left - 1, by, board, frames, search_state);
    keep_line_ends::<R, N>(ends, frames);
    emitted
}
