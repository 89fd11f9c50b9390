//! The phases of a search: set play and the play, each walked whole or after a beginning of moves.
ghost use Rattle.std.specs.Prelude.{◌≡◌, ◌+◌, ◌<◌, ◌≤◌, ℕ, [], ◌∷◌, length, reverse, true, false, if◌then◌else◌, MatchOption, Some, None, is_none, not, ◌&&◌, ◌||◌, ◌==◌, ◌-◌};
ghost use Rattle.arrayvec.specs.ArrayVec.{array_vec_len};
ghost use Rattle.chess_core.specs.Position.{Position};
ghost use Rattle.pop_input.specs.Posed.{IsSound};
ghost use Rattle.pop_stipulation.specs.Stipulations.{half_moves, is_help};
ghost use Rattle.pop_walk.specs.Events.{first_phase, moves_shown, play_start, phase_half_moves as half_moves_of_phase, phase_start, phase_half as half_of_phase, event_of, is_impossible_phase, path_event, opening};
ghost use Rattle.pop_walk.specs.ties.Counts.{CountsOn, CountsWalk, tries_all};
ghost use Rattle.pop_walk.specs.ties.Walk.{IsEnded, IsWalking, path};
ghost use Rattle.pop_walk.specs.ties.Modes.{goes_on, mode_of, walk_of};
ghost use Rattle.pop_walk.specs.ties.Phases.{left_of, HoldsAtProgress, Walks, Gives};
ghost use Rattle.pop_events.specs.declared.event.Event.TheVariants.{Line, Total};
ghost use Rattle.pop_events.specs.declared.event.Phase.TheVariants.{Play};
ghost use Rattle.pop_walk.specs.declared.phases.Progress.TheVariants.{Before, First, Within, After};

use crate::mode::Mode;
use crate::showing::{last_shown, line};
use crate::walk::{opened_with, step, step_back};
use arrayvec::ArrayVec;
use chess_core::Board;
use chess_rules::Rules;
use pop_battle::chess::{is_impossible, turn_back, turn_over};
use pop_battle::{Frame, SearchState};
use pop_events::{Event, Phase};
use pop_input::{MOST_FRAMES, Problem};

/// How much of a problem a search walks.
#[derive(Clone, Copy)]
pub enum Scope {
    /// A whole problem: the play follows set play.
    Whole,
    /// One phase after a beginning of moves.
    Part,
}

/// How a phase is walked: the phase, its mode, its number of half-moves, and how much of the problem follows.
#[derive(Clone, Copy)]
pub struct Walk {
    pub phase: Phase,
    pub mode: Mode,
    pub half_moves: usize,
    pub scope: Scope,
}

/// How far a search has come in its phases, set play and the play.
#[derive(Clone, Copy)]
pub enum Progress {
    /// Before this phase.
    Before { phase: Phase },
    /// After the `Phase` event of a set play that isn't possible.
    NotPossible,
    /// In a phase, before the event of the path of its beginning.
    First { walk: Walk },
    /// In a phase, `count` of whose solutions have begun.
    Within { walk: Walk, count: u32 },
    /// After the last phase.
    After,
}

/// Returns the phase with which a problem begins.
pub fn first_phase(problem: &Problem) -> Phase
    ensures { result ≡ first_phase problem.now }
{
    if problem.set_play() {
        Phase::Set
    } else {
        Phase::Play
    }
}

/// Returns the number of half-moves in a phase: set play drops the first one.
pub fn phase_half_moves(problem: &Problem, phase: Phase) -> usize
    ensures { result ≡ half_moves_of_phase problem.now phase }
{
    let half_moves = problem.stipulation().half_moves();
    match phase {
        Phase::Set => half_moves.saturating_sub(1),
        Phase::Play => half_moves,
    }
}

impl Walk {
    /// Returns how to walk a phase of a problem.
    pub(crate) fn of(problem: &Problem, phase: Phase, scope: Scope) -> Walk
        ensures { result ≡ walk_of problem.now phase scope }
    {
        Walk {
            phase,
            mode: Mode::of(problem),
            half_moves: phase_half_moves(problem, phase),
            scope,
        }
    }

    /// Returns the progress of the search after the last event of the phase.
    fn progress_after(self) -> Progress
        ensures { result ≡ (if goes_on self then Before Play else After) }
    {
        match self.scope {
            Scope::Whole if self.phase == Phase::Set => Progress::Before { phase: Phase::Play },
            _ => Progress::After,
        }
    }
}

/// Returns the number of a phase's first half-move.
fn phase_half(problem: &Problem, phase: Phase) -> u32
    ensures { result ≡ half_of_phase problem.now phase }
{
    let first = problem.stipulation().form.first_half();
    match phase {
        Phase::Set => first + 1,
        Phase::Play => first,
    }
}

/// Returns whether the limit ends a phase here: no more solutions may begin, and none is unfinished.
/// `limit` is how many may still begin, `depth` the number of frames.
fn limit_ends_phase(problem: &Problem, depth: usize, limit: u32) -> bool
    ensures { result ≡ ((limit == 0) && (is_help problem.now.stipulation.form || (depth == 1))) }
{
    limit == 0 && (problem.stipulation().form.is_help() || depth == 1)
}

/// Walks to the next path to emit, in a phase of which `count` solutions have begun. Returns whether there
/// is one.
fn walk_on<R: Rules, const N: usize, const PRUNES: bool>(
    problem: &Problem,
    walk: Walk,
    count: u32,
    board: &mut Board,
    frames: &mut ArrayVec<Frame<R>, N>,
    search_state: &mut SearchState,
) -> bool
    requires mode { walk.mode ≡ mode_of problem.now }
    requires room { walk.half_moves < N }
    requires count { count ≤ problem.now.max_solutions }
    requires walking { IsWalking R.rule walk.half_moves (phase_start problem.now walk.phase)
        (reverse frames.old.items) board.old }
    ensures walks { Walks R.rule walk.mode (is_none walk.mode.battle) walk.half_moves
        (phase_start problem.now walk.phase) (problem.now.max_solutions - count)
        (reverse frames.old.items) (reverse frames.new.items)
        board.new result }
    ensures counts { CountsWalk (tries_all PRUNES walk.mode.battle) R.rule walk.mode
        walk.half_moves (phase_start problem.now walk.phase) (reverse frames.old.items)
        (reverse frames.new.items) search_state.old.opened search_state.new.opened }
{
    let limit = still_to_begin(problem, count);
    while !frames.is_empty() && !limit_ends_phase(problem, frames.len(), limit) {
        if step::<R, N, PRUNES>(walk.mode, walk.half_moves, board, frames, search_state) {
            return true;
        }
    }
    false
}

/// Closes all frames and takes their moves back.
fn close_all<R: Rules, const N: usize>(board: &mut Board, frames: &mut ArrayVec<Frame<R>, N>)
    requires walking { (h : ℕ) × (p : Position) × IsWalking R.rule h p (reverse frames.old.items)
        board.old }
    ensures none { frames.new.items ≡ [] }
    ensures back { (h : ℕ) (p : Position) → IsWalking R.rule h p (reverse frames.old.items)
        board.old → board.new ≡ p }
{
    while let Some(top) = frames.pop() {
        step_back::<R>(frames.len(), top, board);
    }
}

/// Returns the event of the line of help play that leads to the top frame; `half` is the number of its
/// first half-move. A function of its own, which keeps the room for the line's moves out of `event_at`.
fn line_at<R: Rules>(mode: Mode, half: u32, frames: &[Frame<R>], board: &mut Board) -> Event
    requires shallow { length frames.now ≤ MOST_FRAMES }
    requires walking { (h : ℕ) × (p : Position)
        × IsWalking R.rule h p (reverse frames.now) board.old }
    requires ended { IsEnded R.rule mode (reverse frames.now) board.old }
    ensures unchanged { board.new ≡ board.old }
    ensures line { (h : ℕ) (p : Position) → IsWalking R.rule h p (reverse frames.now) board.old
        → result ≡ Line half (record {
          items = moves_shown mode.goal R.rule p (path (reverse frames.now));
        }) }
{
    Event::Line {
        half,
        moves: line::<R>(mode, frames, board),
    }
}

/// Returns the event of the path to the top frame, whose position the board has.
fn event_at<R: Rules>(
    problem: &Problem,
    walk: Walk,
    frames: &[Frame<R>],
    board: &mut Board,
) -> Event
    requires mode { walk.mode ≡ mode_of problem.now }
    requires deep { 2 ≤ length frames.now }
    requires shallow { length frames.now ≤ MOST_FRAMES }
    requires walking { (h : ℕ) × IsWalking R.rule h (phase_start problem.now walk.phase)
        (reverse frames.now) board.old }
    requires ended { IsEnded R.rule walk.mode (reverse frames.now) board.old }
    ensures unchanged { board.new ≡ board.old }
    ensures event { result ≡ event_of R.rule problem.now
        (path_event problem.now walk.phase (path (reverse frames.now))) }
{
    let half = phase_half(problem, walk.phase);
    if problem.stipulation().form.is_help() {
        return line_at::<R>(walk.mode, half, frames, board);
    }
    let depth = (frames.len() - 2) as u32;
    Event::Node {
        depth,
        half: half + depth,
        shown: last_shown::<R>(walk.mode, frames, board),
    }
}

/// Puts the first position of a phase on the board, which has the play's first position. Returns `false`,
/// with the board unchanged, if the phase is impossible.
pub fn set_up<R: Rules>(problem: &Problem, phase: Phase, board: &mut Board) -> bool
    requires { board.old ≡ play_start problem.now }
    ensures possible { result ≡ not (is_impossible_phase R.rule problem.now phase) }
    ensures board { board.new ≡ (if result then phase_start problem.now phase
        else play_start problem.now) }
{
    if phase == Phase::Play {
        return true;
    }
    turn_over(board);
    if !is_impossible::<R>(board) {
        return true;
    }
    turn_back(board, &problem.diagram());
    false
}

/// Begins a phase with one frame, or finds that the phase is impossible. Returns the new progress.
#[tactic(auto, unfolding(crate::specs::ties::Phases::HoldsAtProgress))]
fn begin<R: Rules, const N: usize, const PRUNES: bool>(
    problem: &Problem,
    phase: Phase,
    board: &mut Board,
    frames: &mut ArrayVec<Frame<R>, N>,
    search_state: &mut SearchState,
) -> Progress
    requires sound { IsSound problem.now }
    requires room { half_moves problem.now.stipulation < N }
    requires standing { HoldsAtProgress R.rule problem.now (Before phase) (reverse frames.old.items)
        board.old }
    ensures standing { HoldsAtProgress R.rule problem.now result (reverse frames.new.items)
        board.new }
    ensures left { left_of R.rule problem.now (Before phase) (reverse frames.old.items)
        ≡ opening phase ∷ left_of R.rule problem.now result (reverse frames.new.items) }
    ensures counts { CountsOn PRUNES R.rule problem.now (Before phase) result
        (reverse frames.old.items) (reverse frames.new.items) search_state.old.opened
        search_state.new.opened }
{
    if !set_up::<R>(problem, phase, board) {
        return Progress::NotPossible;
    }
    let walk = Walk::of(problem, phase, Scope::Whole);
    let left = walk.half_moves;
    frames.push(Frame {
        left,
        ..Frame::default()
    });
    search_state.opened = opened_with(search_state.opened, left);
    Progress::Within { walk, count: 0 }
}

/// Ends a phase: closes its frames and puts the first position of the play on the board. Returns the new
/// progress.
fn end<R: Rules, const N: usize>(
    problem: &Problem,
    walk: Walk,
    board: &mut Board,
    frames: &mut ArrayVec<Frame<R>, N>,
) -> Progress
    requires sound { IsSound problem.now }
    requires walking { (h : ℕ) × IsWalking R.rule h (phase_start problem.now walk.phase)
        (reverse frames.old.items) board.old }
    ensures progress { result ≡ (if goes_on walk then Before Play else After) }
    ensures none { frames.new.items ≡ [] }
    ensures board { board.new ≡ play_start problem.now }
{
    close_all::<R, N>(board, frames);
    if walk.phase == Phase::Set {
        turn_back(board, &problem.diagram());
    }
    walk.progress_after()
}

/// Returns how many solutions of a phase may still begin after `count`.
fn still_to_begin(problem: &Problem, count: u32) -> u32
    requires { count ≤ problem.now.max_solutions }
    ensures { result ≡ problem.now.max_solutions - count }
{
    problem.max_solutions() - count
}

/// Returns the event that ends a phase with `count` solutions. It says `stopped` if `count` is the limit.
fn total(problem: &Problem, count: u32) -> Event
    ensures { result ≡ Total count (count == problem.now.max_solutions) }
{
    Event::Total {
        count,
        stopped: count == problem.max_solutions(),
    }
}

/// Returns the count of solutions after the path to the top of `depth` frames is emitted: one more if
/// this path begins a solution.
fn count_with(problem: &Problem, depth: usize, count: u32) -> u32
    requires sound { IsSound problem.now }
    requires begins { (if is_help problem.now.stipulation.form || (depth == 2) then 1 else 0)
        ≤ problem.now.max_solutions - count }
    requires most { count ≤ problem.now.max_solutions }
    ensures { result ≡ count + (if is_help problem.now.stipulation.form || (depth == 2) then 1
        else 0) }
{
    if problem.stipulation().form.is_help() || depth == 2 {
        count + 1
    } else {
        count
    }
}

/// Returns the event of the path of a phase's beginning, with the progress after it.
#[tactic(auto, unfolding(crate::specs::ties::Phases::HoldsAtProgress, crate::specs::ties::Phases::left_of))]
fn first_event<R: Rules>(
    problem: &Problem,
    walk: Walk,
    frames: &[Frame<R>],
    board: &mut Board,
) -> (Progress, Event)
    requires sound { IsSound problem.now }
    requires standing { HoldsAtProgress R.rule problem.now (First walk) (reverse frames.now)
        board.old }
    ensures standing { HoldsAtProgress R.rule problem.now result.0 (reverse frames.now) board.new }
    ensures gives { Gives R.rule problem.now
        (left_of R.rule problem.now (First walk) (reverse frames.now))
        (left_of R.rule problem.now result.0 (reverse frames.now))
        result.1 board.new (length frames.now) }
    ensures progress { (count : ℕ) × (result.0 ≡ Within walk count) }
{
    let count = count_with(problem, frames.len(), 0);
    let event = event_at::<R>(problem, walk, frames, board);
    (Progress::Within { walk, count }, event)
}

/// Writes the next event of a search to `event`, or `None` after the last, and updates the progress. A search
/// that prunes (`PRUNES`) doesn't walk below positions of help play from which the goal is out of reach.
/// Takes `event` by reference, since each caller would copy a returned event.
#[tactic(auto, unfolding(crate::specs::ties::Phases::HoldsAtProgress, crate::specs::ties::Phases::left_of))]
pub fn advance<R: Rules, const N: usize, const PRUNES: bool>(
    problem: &Problem,
    progress: &mut Progress,
    board: &mut Board,
    frames: &mut ArrayVec<Frame<R>, N>,
    search_state: &mut SearchState,
    event: &mut Option<Event>,
)
    requires sound { IsSound problem.now }
    requires room { half_moves problem.now.stipulation < N }
    requires standing { HoldsAtProgress R.rule problem.now progress.old (reverse frames.old.items)
        board.old }
    ensures standing { HoldsAtProgress R.rule problem.now progress.new (reverse frames.new.items)
        board.new }
    ensures gives { MatchOption event.new
        ((left_of R.rule problem.now progress.old (reverse frames.old.items) ≡ [])
        × (board.new ≡ play_start problem.now)
        × (left_of R.rule problem.now progress.new (reverse frames.new.items) ≡ []))
        (λ event. Gives R.rule problem.now
        (left_of R.rule problem.now progress.old (reverse frames.old.items))
        (left_of R.rule problem.now progress.new (reverse frames.new.items))
        event board.new (array_vec_len frames.new)) }
    ensures counts { CountsOn PRUNES R.rule problem.now progress.old progress.new
        (reverse frames.old.items) (reverse frames.new.items) search_state.old.opened
        search_state.new.opened }
{
    match *progress {
        Progress::Before { phase } => {
            *progress = begin::<R, N, PRUNES>(problem, phase, board, frames, search_state);
            *event = Some(Event::Phase(phase));
        }
        Progress::NotPossible => {
            *progress = Progress::Before { phase: Phase::Play };
            *event = Some(Event::Impossible);
        }
        Progress::First { walk } => {
            let (next, first) = first_event::<R>(problem, walk, frames.as_slice(), board);
            *progress = next;
            *event = Some(first);
        }
        Progress::Within { walk, count } => {
            if walk_on::<R, N, PRUNES>(problem, walk, count, board, frames, search_state) {
                let count = count_with(problem, frames.len(), count);
                *progress = Progress::Within { walk, count };
                *event = Some(event_at::<R>(problem, walk, frames.as_slice(), board));
                return;
            }
            *progress = end::<R, N>(problem, walk, board, frames);
            *event = Some(total(problem, count));
        }
        Progress::After => *event = None,
    }
}
