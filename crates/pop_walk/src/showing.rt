//! The moves that lead to the top frame, as they are shown: they are taken back on the board and played
//! again.
ghost use Rattle.chess_core.specs.Position.{Position};
ghost use Rattle.chess_core.specs.WellFormed.{IsWellFormed};
ghost use Rattle.chess_rules.specs.Legal.{is_legal};
ghost use Rattle.chess_rules.specs.Play.{position_after};
ghost use Rattle.pop_battle.specs.Chess.{chess};
ghost use Rattle.pop_events.specs.Shown.{shown_move};
ghost use Rattle.pop_walk.specs.Events.{moves_shown, last_shown};
ghost use Rattle.pop_battle.specs.ties.Frames.{CameFrom, CameFromAt, left_at_top};
ghost use Rattle.pop_walk.specs.ties.Walk.{ends_at_goal, IsEnded, IsWalking, path};
ghost use Rattle.pop_battle.specs.declared.chess.Reached.TheVariants.{Perhaps, Certainly};
ghost use Rattle.std.specs.Prelude.{◌≡◌, ◌+◌, ◌<◌, ◌≤◌, ℕ, if◌then◌else◌, length, reverse, true};

use crate::mode::Mode;
use arrayvec::ArrayVec;
use chess_core::Board;
use chess_rules::{Rules, play, unplay};
use pop_battle::chess::{Reached, mark_after, shown_of};
use pop_battle::{Frame, attacker_to_move};
use pop_events::Shown;
use pop_stipulation::{Goal, MOST_FRAMES, MOST_HALF_MOVES};

/// Takes back the move of a frame.
#[tactic(auto, using(chess_rules::proofs::LegalMoves::may_be_made))]
#[inline(always)]
fn unplay_frame<R: Rules>(frame: &Frame<R>, board: &mut Board)
    requires came { CameFrom R.rule frame.now board.old }
    ensures before { (p : Position) → CameFromAt R.rule frame.now board.old p → board.new ≡ p }
{
    unplay::<R>(board, frame.by, frame.undo);
}

/// Returns whether the goal is known to be reached at the frame where an emitted path ends: always in
/// help play; in a direct mate or stalemate with variations, where a whole variation ends.
fn reached_at<R: Rules>(mode: Mode, frame: &Frame<R>) -> Reached
    ensures { result ≡ if ends_at_goal mode.battle mode.variation frame.now.left
        then Certainly else Perhaps }
{
    match mode.battle {
        None => Reached::Certainly,
        Some(battle) if frame.left == 0 && mode.variation && attacker_to_move(battle, 1) => {
            Reached::Certainly
        }
        _ => Reached::Perhaps,
    }
}

/// Returns whether the goal is known to be reached at frame `k` of an emitted path. Below the top frame
/// it isn't.
#[tactic(auto, using(crate::proofs::Paths::left_last))]
fn reached_along<R: Rules>(mode: Mode, frames: &[Frame<R>], k: usize) -> Reached
    requires { k < length frames.now }
    ensures { result ≡ Certainly → (k + 1 ≡ length frames.now)
        × (ends_at_goal mode.battle mode.variation (left_at_top (reverse frames.now))
        ≡ true) }
{
    if k + 1 < frames.len() {
        return Reached::Perhaps;
    }
    reached_at::<R>(mode, &frames[k])
}

/// Plays the move of a frame again and returns it as it is shown. `reached` says whether it is known to
/// reach the goal.
#[tactic(auto, using(chess_rules::proofs::LegalMoves::may_be_made), unfolding(pop_events::specs::Shown::shown_move))]
fn play_shown<R: Rules>(goal: Goal, reached: Reached, frame: &Frame<R>, board: &mut Board) -> Shown
    requires well_formed { IsWellFormed board.old }
    requires legal { is_legal R.rule board.old frame.now.by ≡ true }
    requires reached { reached ≡ Certainly
        → (chess goal R.rule).goal (position_after R.rule board.old frame.now.by) ≡ true }
    ensures shown { result ≡ shown_move goal R.rule board.old frame.now.by }
    ensures after { board.new ≡ position_after R.rule board.old frame.now.by }
    ensures well_formed { IsWellFormed board.new }
{
    let by = frame.by;
    let man = board.man_at(by.from);
    let there = board.man_at(by.to);
    let undo = play::<R>(board, by);
    let mark = mark_after::<R>(goal, reached, board);
    shown_of(man, there, by, &undo, mark)
}

/// Takes back all moves that lead to the top frame.
fn unplay_all<R: Rules>(frames: &[Frame<R>], board: &mut Board)
    requires walking { (h : ℕ) × (p : Position)
        × IsWalking R.rule h p (reverse frames.now) board.old }
    ensures start { (h : ℕ) (p : Position) → IsWalking R.rule h p (reverse frames.now) board.old
        → board.new ≡ p }
    ensures well_formed { IsWellFormed board.new }
{
    let mut k = frames.len();
    while k > 1 {
        k -= 1;
        unplay_frame::<R>(&frames[k], board);
    }
}

/// Returns the moves that lead to the top frame, as they are shown: a line of help play.
pub(crate) fn line<R: Rules>(
    mode: Mode,
    frames: &[Frame<R>],
    board: &mut Board,
) -> ArrayVec<Shown, MOST_HALF_MOVES>
    requires shallow { length frames.now ≤ MOST_FRAMES }
    requires walking { (h : ℕ) × (p : Position)
        × IsWalking R.rule h p (reverse frames.now) board.old }
    requires ended { IsEnded R.rule mode (reverse frames.now) board.old }
    ensures unchanged { board.new ≡ board.old }
    ensures line { (h : ℕ) (p : Position) → IsWalking R.rule h p (reverse frames.now) board.old
        → result.items ≡ moves_shown mode.goal R.rule p (path (reverse frames.now)) }
{
    unplay_all::<R>(frames, board);
    let mut line = ArrayVec::new();
    for k in 1..frames.len() {
        let reached = reached_along::<R>(mode, frames, k);
        line.push(play_shown::<R>(mode.goal, reached, &frames[k], board));
    }
    line
}

/// Returns the last move that leads to the top frame, as it is shown.
pub fn last_shown<R: Rules>(mode: Mode, frames: &[Frame<R>], board: &mut Board) -> Shown
    requires deep { 2 ≤ length frames.now }
    requires walking { (h : ℕ) × (p : Position)
        × IsWalking R.rule h p (reverse frames.now) board.old }
    requires ended { IsEnded R.rule mode (reverse frames.now) board.old }
    ensures unchanged { board.new ≡ board.old }
    ensures shown { (h : ℕ) (p : Position) → IsWalking R.rule h p (reverse frames.now) board.old
        → result ≡ last_shown mode.goal R.rule p (path (reverse frames.now)) }
{
    let top = &frames[frames.len() - 1];
    let reached = reached_at::<R>(mode, top);
    unplay_frame::<R>(top, board);
    play_shown::<R>(mode.goal, reached, top, board)
}
