//! The parts of a phase, one after another: the walk to each part continues from the part before it.
ghost use Rattle.std.specs.Prelude.{◌≡◌, ◌≤◌};
ghost use Rattle.arrayvec.specs.ArrayVec.{array_vec_len};

use crate::beginnings::{begin_walk, part_depth, seek_numbered};
use crate::part_search::PartSearch;
use arrayvec::ArrayVec;
use chess_core::Board;
use chess_rules::Rules;
use pop_battle::{Frame, Killers};
use pop_events::Phase;
use pop_input::{MOST_FRAMES, Problem};
use std::marker::Model;

/// The parts of a phase that are still to come. Contracts see the record `RemainingSeen`.
#[derive(Drop)]
pub(crate) struct RemainingParts<R: Rules, const N: usize> {
    problem: Problem,
    phase: Phase,
    depth: usize,
    board: Board,
    frames: ArrayVec<Frame<R>, N>,
}

impl<R: Rules, const N: usize> Model for RemainingParts<R, N> {
    ghost use Rattle.std.specs.Prelude.{◌≡◌, ◌<◌, reverse};
    ghost use Rattle.pop_input.specs.Posed.{IsSound};
    ghost use Rattle.pop_stipulation.specs.Stipulations.{half_moves};
    ghost use Rattle.pop_parts.specs.ties.PartsSeen.{RemainingSeen};
    ghost use Rattle.pop_parts.specs.ties.Beginnings.{beginnings_to_come, IsBetweenParts};
    ghost use Rattle.pop_walk.specs.Events.{phase_start};

    ghost Value = { RemainingSeen };

    ghost view = { λ s. record {
      problem = s.problem;
      phase = s.phase;
      left = beginnings_to_come s.problem.stipulation.goal R.rule s.depth
          (phase_start s.problem s.phase) (reverse s.frames.items);
    } };

    ghost invariant = { λ s. IsSound s.problem
        × (half_moves s.problem.stipulation < N)
        × IsBetweenParts R.rule s.problem s.phase s.depth (reverse s.frames.items) s.board };
}

impl<R: Rules, const N: usize> RemainingParts<R, N> {
    ghost use Rattle.std.specs.Prelude.{[], ◌≡◌, ◌-◌, ◌<◌, ◌≤◌, MatchOption, None, Some, slice_get, drop};
    ghost use Rattle.pop_stipulation.specs.Stipulations.{half_moves};
    ghost use Rattle.pop_parts.specs.PhaseParts.{part_events, parts};

    /// Returns all parts of a phase, or `None` if the phase has no half-move or is impossible. `depth`
    /// moves, 1 or more, distinguish the parts of help play.
    pub(crate) fn of(problem: &Problem, phase: Phase, depth: usize) -> Option<Self>
        requires room { half_moves problem.now.stipulation < N }
        requires few { N ≤ MOST_FRAMES }
        requires depth { 1 ≤ depth }
        ensures all { MatchOption result (parts R.rule problem.now phase depth ≡ [])
            (λ p. (p.problem ≡ problem.now) × (p.phase ≡ phase)
            × (p.left ≡ parts R.rule problem.now phase depth)) }
    {
        let mut board = Board::of(&problem.diagram());
        let mut frames = ArrayVec::new();
        if !begin_walk::<R, N>(problem, phase, &mut board, &mut frames) {
            return None;
        }
        Some(RemainingParts {
            problem: *problem,
            phase,
            depth: part_depth(problem, phase, depth),
            board,
            frames,
        })
    }

    /// Returns a search of the part with this number, counted from 1 among the parts still to come;
    /// `None` if there are fewer. The parts after it are then still to come. The killers affect speed
    /// only.
    pub(crate) fn search(&mut self, number: u64, killers: Killers) -> Option<PartSearch<R, N>>
        requires few { N ≤ MOST_FRAMES }
        requires number { 1 ≤ number }
        ensures part { MatchOption result (slice_get self.old.left (number - 1) ≡ None)
            (λ s. (slice_get self.old.left (number - 1) ≡ Some s.beginning)
            × (s.problem ≡ self.old.problem) × (s.phase ≡ self.old.phase)
            × (s.left ≡ part_events R.rule self.old.problem self.old.phase s.beginning)) }
        ensures left { self.new.left ≡ drop number self.old.left }
        ensures problem { self.new.problem ≡ self.old.problem }
        ensures phase { self.new.phase ≡ self.old.phase }
    {
        let by = seek_numbered::<R, N>(
            &self.problem,
            self.phase,
            self.depth,
            number,
            &mut self.board,
            &mut self.frames,
        )?;
        let frames = copy_of::<R, N>(&self.frames);
        Some(PartSearch::at(&self.problem, self.phase, by, self.board, frames, killers))
    }
}

/// Returns equal frames: a part keeps its own, and `ArrayVec` isn't `Copy`.
fn copy_of<R: Rules, const N: usize>(frames: &ArrayVec<Frame<R>, N>) -> ArrayVec<Frame<R>, N>
    requires few { N ≤ MOST_FRAMES }
    ensures { result.items ≡ frames.now.items }
{
    let mut copy = ArrayVec::new();
    let mut k = 0;
    while k < frames.len() {
        let frame = &frames[k];
        copy.push(*frame);
        k += 1;
    }
    copy
}
