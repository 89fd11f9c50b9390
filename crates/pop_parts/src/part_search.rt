//! The search of one part of a phase.
ghost use Rattle.std.specs.Prelude.{◌≡◌, ◌<◌, [], ◌∷◌, ◌++◌, reverse};
ghost use Rattle.arrayvec.specs.ArrayVec.{array_vec_len};
ghost use Rattle.pop_walk.specs.ties.Walk.{path};

use crate::remaining_parts::RemainingParts;
use arrayvec::ArrayVec;
use chess_core::{Board, Move};
use chess_rules::Rules;
use pop_battle::{Frame, Killers, SearchState, show_fits_u64};
use pop_events::{Event, Phase};
use pop_input::{MOST_FRAMES, Problem};
use pop_walk::beginning::begin_after;
use pop_walk::phases::{Progress, advance};
use std::marker::Model;

/// Returns the moves that lead to the top frame, followed by `by`.
fn beginning_of<R: Rules, const N: usize>(
    frames: &ArrayVec<Frame<R>, N>,
    by: Move,
) -> ArrayVec<Move, N>
    requires open { 0 < array_vec_len frames.now }
    ensures { result.items ≡ path (reverse frames.now.items) ++ by ∷ [] }
{
    let mut beginning = ArrayVec::new();
    let mut k = 1;
    while k < frames.len() {
        let frame = &frames[k];
        beginning.push(frame.by);
        k += 1;
    }
    beginning.push(by);
    beginning
}

/// A search for the solutions of one part of a phase, the solutions that begin with the part's first
/// moves. It returns their events one by one, as `Search` does for a whole problem. Contracts see the
/// record `PartSeen`.
#[derive(Drop)]
pub struct PartSearch<R: Rules, const N: usize> {
    problem: Problem,
    phase: Phase,
    beginning: ArrayVec<Move, N>,
    progress: Progress,
    board: Board,
    frames: ArrayVec<Frame<R>, N>,
    search_state: SearchState,
}

impl<R: Rules, const N: usize> Model for PartSearch<R, N> {
    ghost use Rattle.std.specs.Prelude.{◌≡◌, ◌<◌, reverse};
    ghost use Rattle.arrayvec.specs.ArrayVec.{array_vec_len};
    ghost use Rattle.pop_input.specs.Posed.{IsSound};
    ghost use Rattle.pop_stipulation.specs.Stipulations.{half_moves};
    ghost use Rattle.pop_walk.specs.ties.Phases.{left_of, HoldsAtProgress};
    ghost use Rattle.pop_parts.specs.ties.PartsSeen.{PartSeen, IsPartOpened};

    ghost Value = { PartSeen };

    ghost view = { λ s. record {
      problem = s.problem;
      phase = s.phase;
      beginning = s.beginning.items;
      left = left_of R.rule s.problem s.progress (reverse s.frames.items);
      board = s.board;
      depth = array_vec_len s.frames;
      opened = s.search_state.opened;
      killers = s.search_state.killers;
    } };

    ghost invariant = { λ s. IsSound s.problem
        × (half_moves s.problem.stipulation < N)
        × HoldsAtProgress R.rule s.problem s.progress (reverse s.frames.items) s.board
        × IsPartOpened R.rule s.problem s.phase s.beginning.items s.progress (reverse s.frames.items)
        s.search_state.opened };
}

impl<R: Rules, const N: usize> PartSearch<R, N> {
    ghost use Rattle.std.specs.Prelude.{[], ◌∷◌, ◌++◌, ℕ, false, true, ◌≡◌, ◌-◌, ◌<◌, ◌≤◌, ◌^◌, min, reverse, MatchOption, None, Some, slice_get, drop};
    ghost use Rattle.arrayvec.specs.ArrayVec.{array_vec_len};
    ghost use Rattle.chess_rules.specs.Legal.{is_legal};
    ghost use Rattle.pop_input.specs.Posed.{IsSound};
    ghost use Rattle.std.specs.Option.{option_map};
    ghost use Rattle.pop_input.specs.Posed.{rule_of};
    ghost use Rattle.pop_stipulation.specs.Stipulations.{half_moves, is_help};
    ghost use Rattle.pop_walk.specs.Events.{event_of, phase_half_moves as half_moves_of_phase, phase_start, play_start};
    ghost use Rattle.pop_parts.specs.ties.Beginnings.{IsSeeking};
    ghost use Rattle.pop_walk.specs.ties.Walk.{path};
    ghost use Rattle.pop_parts.specs.PhaseParts.{part_events, part_numbered};
    ghost use Rattle.pop_parts.specs.ties.PartsSeen.{part_walk};
    ghost use Rattle.pop_walk.specs.ties.Seen.{IsAtPathOf};

    /// Returns a search of the part with this number, counted from 1 in the order of moves; `None` if the
    /// phase has fewer parts. `depth` moves, 1 or more, distinguish the parts of help play. `N` must be
    /// more than the half-moves of the play and at most `MOST_FRAMES`, and `R` must be the rules of the problem's
    /// condition. The killers affect speed only.
    pub fn of(
        problem: &Problem,
        phase: Phase,
        depth: usize,
        number: u64,
        killers: Killers,
    ) -> Option<Self>
        requires room { half_moves problem.now.stipulation < N }
        requires few { N ≤ MOST_FRAMES }
        requires rule { R.rule ≡ rule_of problem.now.condition }
        requires depth { 1 ≤ depth }
        ensures part { MatchOption result
            (part_numbered R.rule problem.now phase depth number ≡ None)
            (λ s. (part_numbered R.rule problem.now phase depth number ≡ Some s.beginning)
            × (s.problem ≡ problem.now) × (s.phase ≡ phase)
            × (s.left ≡ part_events R.rule problem.now phase s.beginning)) }
    {
        if number == 0 {
            return None;
        }
        let mut parts = RemainingParts::<R, N>::of(problem, phase, depth)?;
        parts.search(number, killers)
    }

    /// Returns a search of the part whose first moves lead to the top frame and end with `by`.
    pub(crate) fn at(
        problem: &Problem,
        phase: Phase,
        by: Move,
        mut board: Board,
        mut frames: ArrayVec<Frame<R>, N>,
        killers: Killers,
    ) -> Self
        requires sound { IsSound problem.now }
        requires room { half_moves problem.now.stipulation < N }
        requires few { N ≤ MOST_FRAMES }
        requires open { 0 < array_vec_len frames }
        requires seeking { (d : ℕ) × (IsSeeking R.rule (half_moves_of_phase problem.now phase) d
            (phase_start problem.now phase) (reverse frames.items) board)
            × (array_vec_len frames ≡ d) }
        requires legal { is_legal R.rule board by ≡ true }
        requires battle { is_help problem.now.stipulation.form ≡ false → array_vec_len frames ≡ 1 }
        ensures beginning { result.beginning ≡ path (reverse frames.items) ++ by ∷ [] }
        ensures problem { result.problem ≡ problem.now }
        ensures phase { result.phase ≡ phase }
        ensures left { result.left ≡ part_events R.rule problem.now phase result.beginning }
    {
        let beginning = beginning_of::<R, N>(&frames, by);
        let mut search_state = SearchState::with(killers);
        let progress = begin_after::<R, N>(
            problem,
            phase,
            by,
            &mut board,
            &mut frames,
            &mut search_state,
        );
        PartSearch {
            problem: *problem,
            phase,
            beginning,
            progress,
            board,
            frames,
            search_state,
        }
    }

    /// Returns the next event, or `None` after the last one and on every later call. After a line or node
    /// the board has the position to which its path leads; after `None` it has the play's first position.
    pub fn next(&mut self) -> Option<Event>
        ensures event { result ≡ option_map (event_of R.rule self.old.problem)
            (slice_get self.old.left 0) }
        ensures left { self.new.left ≡ drop 1 self.old.left }
        ensures board { MatchOption (slice_get self.old.left 0)
            (self.new.board ≡ play_start self.old.problem)
            (λ bare. IsAtPathOf R.rule self.old.problem bare self.new.board self.new.depth) }
        ensures problem { self.new.problem ≡ self.old.problem }
        ensures phase { self.new.phase ≡ self.old.phase }
        ensures beginning { self.new.beginning ≡ self.old.beginning }
        ensures opened { self.old.opened ≤ self.new.opened }
    {
        show_fits_u64(self.search_state.opened);
        let mut event = None;
        advance::<R, N, true>(
            &self.problem,
            &mut self.progress,
            &mut self.board,
            &mut self.frames,
            &mut self.search_state,
            &mut event,
        );
        event
    }

    /// Returns the search's killers, the moves that last decided tests.
    pub fn into_killers(self) -> Killers
        ensures { result ≡ self.killers }
    {
        let PartSearch { search_state, .. } = self;
        search_state.killers
    }

    /// Returns the number of positions counted so far, as `PrunedSearch` counts them, up to the greatest u64.
    /// Positions before the end of the first moves don't count, nor does a test whether the first moves
    /// mate, nor do tests that only guess killers. In help play it is at most the part's walk count.
    pub fn opened(&self) -> u64
        ensures opened { result ≡ self.now.opened }
        ensures most { is_help self.now.problem.stipulation.form ≡ true
            → result ≤ part_walk R.rule self.now.problem self.now.phase self.now.beginning }
    {
        show_fits_u64(self.search_state.opened);
        self.search_state.opened
    }
}
