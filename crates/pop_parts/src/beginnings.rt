//! The first moves of each part of a phase, in the order of moves. The walk over them uses frames with no
//! half-moves left, so it tries nothing after a part's first moves.
ghost use Rattle.std.specs.Prelude.{◌≡◌, ◌+◌, ◌-◌, ◌<◌, ◌≤◌, ◌==◌, ◌^◌, ◌||◌, ℕ, min, not, [], ◌∷◌, ◌++◌, length, reverse, slice_get, true, false, MatchOption, None, Some};
ghost use Rattle.arrayvec.specs.ArrayVec.{array_vec_len};
ghost use Rattle.chess_rules.specs.Legal.{is_legal};
ghost use Rattle.pop_stipulation.specs.declared.stipulation.Goal.{Goal};
ghost use Rattle.pop_input.specs.Posed.{IsSound, rule_of};
ghost use Rattle.pop_stipulation.specs.Stipulations.{half_moves};
ghost use Rattle.pop_walk.specs.Events.{is_impossible_phase, phase_half_moves as half_moves_of_phase, phase_start, play_start};
ghost use Rattle.pop_parts.specs.PhaseParts.{beginnings, part_depth as depth_of_parts, part_numbered, parts};
ghost use Rattle.pop_parts.specs.ties.Beginnings.{beginnings_to_come, FindsNumbered, IsSeeking, Seeks};
ghost use Rattle.pop_battle.specs.ties.Frames.{opened_frame};
ghost use Rattle.pop_walk.specs.ties.Walk.{Position, chess, path};

use arrayvec::ArrayVec;
use chess_core::{Board, Move};
use chess_rules::{MovePlace, Rules, Undo, play};
use pop_battle::chess::next_move;
use pop_battle::{Frame, MoveStage, Order};
use pop_events::Phase;
use pop_input::{MOST_FRAMES, Problem};
use pop_walk::phases::{phase_half_moves, set_up};
use pop_walk::walk::step_back;

/// Returns the number of moves that distinguish the parts of a phase: in help play `depth`, but at most
/// the half-moves of the phase; otherwise one.
pub(crate) fn part_depth(problem: &Problem, phase: Phase, depth: usize) -> usize
    ensures { result ≡ depth_of_parts problem.now phase depth }
{
    if problem.stipulation().form.is_help() {
        depth.min(phase_half_moves(problem, phase))
    } else {
        1
    }
}

/// Returns the frame of the position after a move, from which nothing is tried.
fn idle<R: Rules>(by: Move, undo: Undo) -> Frame<R>
    ensures { result ≡ opened_frame by undo 0 }
{
    Frame {
        place: MovePlace::start(),
        by,
        undo,
        left: 0,
        order: Order::unordered(),
        move_stage: MoveStage::Others,
        cursor: None,
        line_ends: None,
    }
}

/// Takes one step of the walk over lists of `depth` moves. Plays the next move of the top frame and opens
/// a frame for it, but returns the move without playing it if it completes a list. Closes the frame if it
/// has no more moves.
fn seek<R: Rules, const N: usize>(
    depth: usize,
    board: &mut Board,
    frames: &mut ArrayVec<Frame<R>, N>,
) -> Option<Move>
    requires room { depth < N }
    requires seeking { (h : ℕ) × (p : Position)
        × IsSeeking R.rule h depth p (reverse frames.old.items) board.old }
    requires open { 0 < array_vec_len frames.old }
    ensures seeks { (h : ℕ) (p : Position)
        → IsSeeking R.rule h depth p (reverse frames.old.items) board.old
        → Seeks R.rule h depth p (reverse frames.old.items) (reverse frames.new.items) board.new
        result }
{
    let Some(top) = frames.pop() else {
        return None;
    };
    let below = frames.len();
    let mut place = top.place;
    let mut cursor = top.cursor;
    let Some(by) = next_move::<R>(&mut cursor, &mut place, board) else {
        step_back::<R>(below, top, board);
        return None;
    };
    frames.push(Frame {
        place,
        cursor,
        ..top
    });
    if frames.len() == depth {
        return Some(by);
    }
    let undo = play::<R>(board, by);
    frames.push(idle(by, undo));
    None
}

/// Puts a phase's first position on the board and its frame on the empty stack. Returns `false`, with
/// nothing changed, if the phase has no half-move or is impossible.
pub(crate) fn begin_walk<R: Rules, const N: usize>(
    problem: &Problem,
    phase: Phase,
    board: &mut Board,
    frames: &mut ArrayVec<Frame<R>, N>,
) -> bool
    requires board { board.old ≡ play_start problem.now }
    requires room { 0 < N }
    requires none { frames.old.items ≡ [] }
    ensures possible { result ≡ not (is_impossible_phase R.rule problem.now phase
        || (half_moves_of_phase problem.now phase == 0)) }
    ensures seeking { IsSound problem.now → result ≡ true → (d : ℕ) → 1 ≤ d
        → d ≤ half_moves_of_phase problem.now phase
        → IsSeeking R.rule (half_moves_of_phase problem.now phase) d
        (phase_start problem.now phase) (reverse frames.new.items) board.new }
    ensures come { result ≡ true → (goal : Goal) (d : ℕ) → 1 ≤ d
        → beginnings_to_come goal R.rule d (phase_start problem.now phase)
        (reverse frames.new.items)
        ≡ beginnings (chess goal R.rule) d (phase_start problem.now phase) }
{
    if phase_half_moves(problem, phase) == 0 || !set_up::<R>(problem, phase, board) {
        return false;
    }
    frames.push(Frame::default());
    true
}

/// Walks to the part with this number, counted from 1 among the parts still to come. Returns the last of
/// its first moves without playing it, or `None` if there are fewer parts.
pub(crate) fn seek_numbered<R: Rules, const N: usize>(
    problem: &Problem,
    phase: Phase,
    depth: usize,
    number: u64,
    board: &mut Board,
    frames: &mut ArrayVec<Frame<R>, N>,
) -> Option<Move>
    requires room { depth < N }
    requires number { 1 ≤ number }
    requires seeking { IsSeeking R.rule (half_moves_of_phase problem.now phase) depth
        (phase_start problem.now phase) (reverse frames.old.items) board.old }
    ensures found { FindsNumbered R.rule (half_moves_of_phase problem.now phase) depth
        (phase_start problem.now phase) (reverse frames.old.items) (reverse frames.new.items)
        board.new number result }
{
    let mut left = number;
    while !frames.is_empty() {
        let found = seek::<R, N>(depth, board, frames);
        if found.is_some() {
            if left == 1 {
                return found;
            }
            left -= 1;
        }
    }
    None
}

/// Returns how many parts, each of `depth` first moves, are still to come, up to the greatest u64.
fn count_to_come<R: Rules, const N: usize>(
    problem: &Problem,
    phase: Phase,
    depth: usize,
    board: &mut Board,
    frames: &mut ArrayVec<Frame<R>, N>,
) -> u64
    requires room { depth < N }
    requires seeking { IsSeeking R.rule (half_moves_of_phase problem.now phase) depth
        (phase_start problem.now phase) (reverse frames.old.items) board.old }
    ensures counts { (goal : Goal) → result ≡ min (length (beginnings_to_come goal R.rule depth
        (phase_start problem.now phase) (reverse frames.old.items))) (2 ^ 64 - 1) }
{
    let mut count: u64 = 0;
    while !frames.is_empty() {
        if seek::<R, N>(depth, board, frames).is_some() {
            count = count.saturating_add(1);
        }
    }
    count
}

/// Returns the number of parts of a phase, up to the greatest u64. `depth` moves distinguish the parts of
/// help play. `N` must be more than the half-moves of the play and at most `MOST_FRAMES`, and `R` must be the rules of
/// the problem's condition.
pub fn count_parts<R: Rules, const N: usize>(problem: &Problem, phase: Phase, depth: usize) -> u64
    requires room { half_moves problem.now.stipulation < N }
    requires few { N ≤ MOST_FRAMES }
    requires rule { R.rule ≡ rule_of problem.now.condition }
    requires depth { 1 ≤ depth }
    ensures { result ≡ min (length (parts R.rule problem.now phase depth)) (2 ^ 64 - 1) }
{
    let mut board = Board::of(&problem.diagram());
    let mut frames = ArrayVec::<Frame<R>, N>::new();
    if !begin_walk::<R, N>(problem, phase, &mut board, &mut frames) {
        return 0;
    }
    let depth = part_depth(problem, phase, depth);
    count_to_come::<R, N>(problem, phase, depth, &mut board, &mut frames)
}
