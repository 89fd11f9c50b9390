//! The search of a phase after a beginning of moves: how it begins.
ghost use Rattle.std.specs.Prelude.{◌≡◌, ◌-◌, ◌<◌, ◌≤◌, [], reverse, true, false};
ghost use Rattle.arrayvec.specs.ArrayVec.{array_vec_len};
ghost use Rattle.chess_rules.specs.Legal.{is_legal, is_mate, moves as legal_moves};
ghost use Rattle.chess_rules.specs.Play.{position_after};
ghost use Rattle.pop_input.specs.Posed.{IsSound};
ghost use Rattle.pop_stipulation.specs.Stipulations.{half_moves, is_help};
ghost use Rattle.pop_battle.specs.Walks.{walk_count};
ghost use Rattle.pop_walk.specs.Events.{phase_half_moves as half_moves_of_phase};
ghost use Rattle.pop_walk.specs.ties.Beginnings.{IsBeginning, paths_by};
ghost use Rattle.pop_walk.specs.ties.Counts.{Counts, exactly, untried_at};
ghost use Rattle.pop_walk.specs.ties.Phases.{events_along, left_of, HoldsAtProgress};
ghost use Rattle.pop_walk.specs.ties.Walk.{IsMatedAtLast, IsWellFormed, is_for_mate, seeks_last};

use crate::guess::guess_killers;
use crate::mode::Mode;
use crate::phases::{Progress, Scope, Walk, phase_half_moves};
use crate::walk::{ends_with_mate, enter};
use arrayvec::ArrayVec;
use chess_core::{Board, Move};
use chess_rules::{Rules, play, unplay};
use pop_battle::chess::reaches_goal;
use pop_battle::{Frame, SearchState};
use pop_events::Phase;
use pop_input::Problem;
use pop_stipulation::MOST_HALF_MOVES;

/// Returns whether a path may begin with this legal move, after which `left` half-moves are left: if each
/// path ends with it and mates, only if it mates.
#[tactic(auto, using(chess_rules::proofs::LegalMoves::may_be_made))]
fn may_lead<R: Rules>(mode: Mode, left: usize, by: Move, board: &mut Board) -> bool
    requires well_formed { IsWellFormed board.old }
    requires few { left ≤ MOST_HALF_MOVES }
    requires legal { is_legal R.rule board.old by ≡ true }
    ensures unchanged { board.new ≡ board.old }
    ensures mated { result ≡ true → IsMatedAtLast R.rule mode left
        (position_after R.rule board.old by) }
    ensures fails { result ≡ false → (is_for_mate mode.goal ≡ true)
        × (seeks_last mode.battle ≡ true) × (left ≡ 0)
        × (is_mate R.rule (position_after R.rule board.old by) ≡ false) }
{
    if !ends_with_mate(mode, left + 1) {
        return true;
    }
    let undo = play::<R>(board, by);
    let mates = reaches_goal::<R>(mode.goal, board);
    unplay::<R>(board, by, undo);
    mates
}

/// Begins the search of a phase after the moves that lead to the top frame and then `by`. At these frames
/// no half-move is left, so that nothing else is tried from them. Guesses the killers first.
pub fn begin_after<R: Rules, const N: usize>(
    problem: &Problem,
    phase: Phase,
    by: Move,
    board: &mut Board,
    frames: &mut ArrayVec<Frame<R>, N>,
    search_state: &mut SearchState,
) -> Progress
    requires sound { IsSound problem.now }
    requires room { half_moves problem.now.stipulation < N }
    requires begun { IsBeginning R.rule problem.now phase (array_vec_len frames.old)
        (reverse frames.old.items) board.old }
    requires legal { is_legal R.rule board.old by ≡ true }
    requires opened { search_state.old.opened ≡ 0 }
    ensures standing { HoldsAtProgress R.rule problem.now result (reverse frames.new.items)
        board.new }
    ensures left { left_of R.rule problem.now result (reverse frames.new.items)
        ≡ events_along problem.now phase 0 (paths_by R.rule problem.now phase
        (array_vec_len frames.old) (reverse frames.old.items) board.old by) [] }
    ensures counts { is_help problem.now.stipulation.form ≡ true
        → Counts (exactly (walk_count (legal_moves R.rule) (position_after R.rule)
        (half_moves_of_phase problem.now phase - array_vec_len frames.old)
        (position_after R.rule board.old by)))
        (untried_at R.rule problem.now result (reverse frames.new.items)) 0
        search_state.new.opened }
{
    let walk = Walk::of(problem, phase, Scope::Part);
    let mode = Mode::of(problem);
    let depth = frames.len();
    let left = phase_half_moves(problem, phase) - depth;
    if !may_lead::<R>(mode, left, by, board) {
        return Progress::Within { walk, count: 0 };
    }
    guess_killers::<R>(mode, left, by, board, &mut search_state.killers);
    if enter::<R, N>(mode, left, by, board, frames, search_state) {
        return Progress::First { walk };
    }
    Progress::Within { walk, count: 0 }
}
