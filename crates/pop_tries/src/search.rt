//! The search for keys and tries: an iterator over the events of a problem with its tries.
ghost use Rattle.std.specs.Prelude.{◌≡◌, [], ◌∷◌, false, MatchOption};
ghost use Rattle.pop_tries.specs.Events.{BareTryEvent};
ghost use Rattle.pop_tries.specs.Shown.{try_event_of};
ghost use Rattle.pop_tries.specs.ties.Searching.{first_course, is_over, left_of, Goes, HoldsAt, MayStep};

use crate::below_first::{
    begin_refutations, end_stalemate, face, find_refutation, find_reply, walk_reply, walk_threats,
};
use crate::desk::Desk;
use crate::group::{begin_group, beginning_of_keys, find_first};
use crate::progress::{Course, MOST_REFUTATIONS, Step, Task, TriesProgress};
use crate::set_play::{begin_set_play, walk_set_play};
use chess_core::Board;
use chess_rules::Rules;
use pop_events::{Event, TryEvent};
use pop_input::Problem;
use std::marker::Model;

/// A search for the keys and tries of a problem, which returns its events one by one and may be dropped at any
/// time. It holds one board, on which it plays moves and takes them back, and a frame for each half-move of its
/// walks. Contracts see the record `TriesState`: the problem, the most refutations of a try, and the events
/// still to come.
#[derive(Drop)]
pub struct TriesSearch<R: Rules, const N: usize> {
    problem: Problem,
    most: u32,
    course: Course,
    desk: Desk<R, N>,
}

impl<R: Rules, const N: usize> Model for TriesSearch<R, N> {
    ghost use Rattle.pop_tries.specs.ties.Searching.{left_on, IsOnCourse, TriesState};

    ghost Value = { TriesState };

    ghost view = { λ s. record {
      problem = s.problem;
      most = s.most;
      left = left_on R.rule s.problem s.most s.course s.desk.frames.items;
    } };

    ghost invariant = { λ s. IsOnCourse R.rule s.problem s.most s.course s.desk.frames.items
        s.desk.board N };
}

impl<R: Rules, const N: usize> TriesSearch<R, N> {
    ghost use Rattle.std.specs.Prelude.{◌≡◌, ◌<◌, ◌≤◌, slice_get, drop};
    ghost use Rattle.std.specs.Option.{option_map};
    ghost use Rattle.pop_stipulation.specs.Stipulations.{half_moves};
    ghost use Rattle.pop_tries.specs.Events.{try_events};
    ghost use Rattle.pop_tries.specs.Shown.{try_event_of};

    /// Returns a search before its first event. Tries have at most `most` refutations, 0 to `MOST_REFUTATIONS`. `N`
    /// must be more than the half-moves of the play.
    pub fn new(problem: &Problem, most: u32) -> Self
        requires room { half_moves problem.now.stipulation < N }
        requires few { most ≤ MOST_REFUTATIONS }
        ensures problem { result.problem ≡ problem.now }
        ensures most { result.most ≡ most }
        ensures left { result.left ≡ try_events R.rule problem.now most }
    {
        TriesSearch {
            problem: *problem,
            most,
            course: first_course(problem),
            desk: Desk::with(Board::of(&problem.diagram())),
        }
    }

    /// Returns the next event, or `None` after the last one and on every later call.
    pub fn next(&mut self) -> Option<TryEvent>
        ensures event { result ≡ option_map (try_event_of R.rule self.old.problem)
            (slice_get self.old.left 0) }
        ensures left { self.new.left ≡ drop 1 self.old.left }
        ensures problem { self.new.problem ≡ self.old.problem }
        ensures most { self.new.most ≡ self.old.most }
    {
        match &mut self.course {
            Course::NoTries => {
                self.course = Course::Ended;
                Some(TryEvent::NoTries)
            }
            Course::InBattle { battle, progress } => {
                let task = Task {
                    problem: self.problem,
                    battle: *battle,
                    most: self.most,
                };
                next_event::<R, N>(&task, progress, &mut self.desk)
            }
            Course::Ended => None,
        }
    }
}

/// Returns the whole course of a problem.
fn first_course(problem: &Problem) -> Course
    ensures { result ≡ first_course problem.now }
{
    let Some(battle) = problem.stipulation().form.battle() else {
        return Course::NoTries;
    };
    let progress = if problem.set_play() {
        TriesProgress::SetPlay
    } else {
        beginning_of_keys()
    };
    Course::InBattle { battle, progress }
}

/// Returns whether nothing is left to return.
fn is_over(progress: TriesProgress) -> bool
    ensures { result ≡ is_over progress }
{
    matches!(progress, TriesProgress::Over)
}

/// Takes the next step, which may emit an event.
#[tactic(auto, unfolding(crate::specs::ties::Searching::HoldsAt, crate::specs::ties::Searching::left_of, crate::specs::ties::Searching::rank))]
fn next_step<R: Rules, const N: usize>(
    task: &Task,
    progress: TriesProgress,
    desk: &mut Desk<R, N>,
) -> Step
    requires may_step { MayStep R.rule task.now progress desk.old N }
    requires open { is_over progress ≡ false }
    ensures { Goes R.rule task.now progress desk.old result.progress desk.new result.event }
{
    match progress {
        TriesProgress::SetPlay => begin_set_play(task, desk),
        TriesProgress::NotPossible => Step {
            progress: beginning_of_keys(),
            event: Some(TryEvent::Set(Event::Impossible)),
        },
        TriesProgress::InSetPlay { progress } => walk_set_play(task, progress, desk),
        TriesProgress::Beginning { group, candidates } => {
            begin_group(task, group, candidates, desk)
        }
        TriesProgress::FirstMove { firsts } => find_first(task, firsts, desk),
        TriesProgress::Faced { first } => face(task, first, desk),
        TriesProgress::Threats { first, crossed } => { walk_threats(task, first, crossed, desk) }
        TriesProgress::Reply { first, place } => { find_reply(task, first, place, desk) }
        TriesProgress::BelowReply { first, reply } => { walk_reply(task, first, reply, desk) }
        TriesProgress::But { first } => begin_refutations(task, first, desk),
        TriesProgress::Refutation { first, place } => { find_refutation(task, first, place, desk) }
        TriesProgress::Stalemate { first } => end_stalemate(task, first, desk),
        TriesProgress::Over => Step {
            progress,
            event: None,
        },
    }
}

/// Takes steps up to the next event, and updates the progress. Returns `None` after the last event.
fn next_event<R: Rules, const N: usize>(
    task: &Task,
    progress: &mut TriesProgress,
    desk: &mut Desk<R, N>,
) -> Option<TryEvent>
    requires { MayStep R.rule task.now progress.old desk.old N }
    ensures holds { HoldsAt R.rule task.now progress.new desk.new.frames.items desk.new.board }
    ensures next { MatchOption result
        ((left_of R.rule task.now progress.old desk.old.frames.items ≡ [])
        × (left_of R.rule task.now progress.new desk.new.frames.items ≡ []))
        (λ shown. (bare : BareTryEvent)
        × (left_of R.rule task.now progress.old desk.old.frames.items
        ≡ bare ∷ left_of R.rule task.now progress.new desk.new.frames.items)
        × (shown ≡ try_event_of R.rule task.now.problem bare)) }
{
    while !is_over(*progress) {
        let step = next_step::<R, N>(task, *progress, desk);
        *progress = step.progress;
        if step.event.is_some() {
            return step.event;
        }
    }
    None
}
