//! The search that prunes: an iterator over the events of a problem, as `Search`, for less work.
use arrayvec::ArrayVec;
use chess_core::Board;
use chess_rules::Rules;
use pop_battle::{Frame, Killers, SearchState, show_fits_u64};
use pop_events::Event;
use pop_input::Problem;
use pop_walk::phases::{Progress, advance, first_phase};
use std::marker::Model;

/// A search that returns the same events as `Search`, with the same board and frames, but in help play doesn't
/// walk below a position from which it knows that the goal is out of reach. So in help play its `opened()` has
/// an upper bound alone. Contracts see the same record `Seen`.
#[derive(Drop)]
pub struct PrunedSearch<R: Rules, const N: usize> {
    problem: Problem,
    progress: Progress,
    board: Board,
    frames: ArrayVec<Frame<R>, N>,
    search_state: SearchState,
    given: u64,
}

impl<R: Rules, const N: usize> Model for PrunedSearch<R, N> {
    ghost use Rattle.std.specs.Prelude.{◌≡◌, ◌<◌, ◌≤◌, ◌-◌, ◌^◌, true, min, length, reverse};
    ghost use Rattle.arrayvec.specs.ArrayVec.{array_vec_len};
    ghost use Rattle.pop_input.specs.Posed.{IsSound};
    ghost use Rattle.pop_stipulation.specs.Stipulations.{half_moves};
    ghost use Rattle.pop_walk.specs.Events.{events};
    ghost use Rattle.pop_walk.specs.ties.Seen.{Seen};
    ghost use Rattle.pop_walk.specs.ties.Counts.{IsOpened};
    ghost use Rattle.pop_walk.specs.ties.Phases.{left_of, HoldsAtProgress, IsCountedUpTo};

    ghost Value = { Seen };

    ghost view = { λ s. record {
      problem = s.problem;
      left = left_of R.rule s.problem s.progress (reverse s.frames.items);
      board = s.board;
      depth = array_vec_len s.frames;
      given = s.given;
      opened = s.search_state.opened;
    } };

    ghost invariant = { λ s. IsSound s.problem
        × (half_moves s.problem.stipulation < N)
        × HoldsAtProgress R.rule s.problem s.progress (reverse s.frames.items) s.board
        × IsCountedUpTo R.rule s.problem
        (left_of R.rule s.problem s.progress (reverse s.frames.items)) s.given
        × IsOpened true R.rule s.problem s.progress (reverse s.frames.items)
        s.search_state.opened };
}

impl<R: Rules, const N: usize> PrunedSearch<R, N> {
    ghost use Rattle.std.specs.Prelude.{[], false, true, ◌≡◌, ◌+◌, ◌-◌, ◌<◌, ◌≤◌, ◌^◌, min, MatchOption, slice_get, drop, length};
    ghost use Rattle.std.specs.Option.{option_map};
    ghost use Rattle.pop_input.specs.Posed.{rule_of};
    ghost use Rattle.pop_stipulation.specs.Stipulations.{half_moves, is_help};
    ghost use Rattle.pop_walk.specs.Events.{events, event_of, play_start};
    ghost use Rattle.pop_walk.specs.Walks.{is_never_stopped, is_walked_once, whole_walk};
    ghost use Rattle.pop_walk.specs.ties.Counts.{fewest_tried};
    ghost use Rattle.pop_walk.specs.ties.Seen.{IsAtPathOf};

    /// Returns a search before its first event: its board has the play's first position, and no frame is in
    /// use. `N` must be more than the half-moves of the play, and `R` must be the rules of the problem's
    /// condition.
    #[tactic(auto, using(pop_walk::proofs::Sound::ways_to_play), unfolding(pop_walk::specs::ties::Counts::least_if, pop_walk::specs::ties::Counts::untried_at, pop_walk::specs::ties::Phases::HoldsAtProgress, pop_walk::specs::ties::Phases::left_of))]
    pub fn new(problem: &Problem) -> Self
        requires room { half_moves problem.now.stipulation < N }
        requires rule { R.rule ≡ rule_of problem.now.condition }
        ensures problem { result.problem ≡ problem.now }
        ensures left { result.left ≡ events R.rule problem.now }
        ensures board { result.board ≡ play_start problem.now }
        ensures depth { result.depth ≡ 0 }
        ensures opened { result.opened ≡ 0 }
    {
        PrunedSearch {
            problem: *problem,
            progress: Progress::Before {
                phase: first_phase(problem),
            },
            board: Board::of(&problem.diagram()),
            frames: ArrayVec::new(),
            search_state: SearchState::with(Killers::none()),
            given: 0,
        }
    }

    /// Returns the next event, or `None` after the last one and on every later call. After a line or node
    /// the board has the position to which its path leads; after `None` it has the play's first position.
    pub fn next(&mut self) -> Option<Event>
        ensures event { result ≡ option_map (event_of R.rule self.old.problem)
            (slice_get self.old.left 0) }
        ensures left { self.new.left ≡ drop 1 self.old.left }
        ensures board { MatchOption (slice_get self.old.left 0)
            (self.new.board ≡ play_start self.old.problem)
            (λ bare. IsAtPathOf R.rule self.old.problem bare self.new.board self.new.depth) }
        ensures problem { self.new.problem ≡ self.old.problem }
        ensures opened { self.old.opened ≤ self.new.opened }
    {
        show_fits_u64(self.search_state.opened);
        let mut event = None;
        advance::<R, N, true>(
            &self.problem,
            &mut self.progress,
            &mut self.board,
            &mut self.frames,
            &mut self.search_state,
            &mut event,
        );
        if event.is_some() {
            self.given = self.given.saturating_add(1);
        }
        event
    }

    /// Returns the number of frames in use, at most `N`. After a line or node it is one more than its
    /// path has moves.
    #[tactic(auto, using(pop_walk::proofs::Events::roomy), unfolding(pop_walk::specs::ties::Phases::HoldsAtProgress))]
    pub fn depth(&self) -> usize
        ensures depth { result ≡ self.now.depth }
        ensures most { result ≤ half_moves self.now.problem.stipulation + 1 }
    {
        self.frames.len()
    }

    /// Returns the number of events returned so far, up to the greatest u64.
    pub fn given(&self) -> u64
        ensures ending { self.now.left ≡ drop
            (length (events R.rule self.now.problem) - length self.now.left)
            (events R.rule self.now.problem) }
        ensures given { result ≡ min (length (events R.rule self.now.problem) - length
            self.now.left) (2 ^ 64 - 1) }
    {
        self.given
    }

    /// Returns the number of positions counted so far, up to the greatest u64 (own). Positions count as for
    /// `Search`, except that those below a position that this search leaves don't count.
    ///
    /// In help play, and if only keys are shown, the number is at most the walk count. In direct mates and
    /// selfmates, after the last event and if no limit stopped a phase, it is at least the number of positions
    /// in a smallest tree for each tested move.
    pub fn opened(&self) -> u64
        ensures opened { result ≡ self.now.opened }
        ensures most { is_walked_once self.now.problem ≡ true
            → result ≤ whole_walk R.rule self.now.problem }
        ensures fewest { is_help self.now.problem.stipulation.form ≡ false
            → is_never_stopped R.rule self.now.problem ≡ true
            → self.now.left ≡ []
            → min (fewest_tried R.rule self.now.problem) (2 ^ 64 - 1) ≤ result }
    {
        show_fits_u64(self.search_state.opened);
        self.search_state.opened
    }
}
