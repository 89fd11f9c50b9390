//! The steps of a search for tries among the first moves of a group.
ghost use Rattle.std.specs.Prelude.{◌≡◌, ℕ, List, None, Some, is_some, true};
ghost use Rattle.chess_core.specs.Position.{Position};
ghost use Rattle.pop_battle.specs.ties.Frames.{CameBy, Frame as Level};
ghost use Rattle.pop_walk.specs.Events.{play_start};
ghost use Rattle.pop_tries.specs.Shown.{try_event_of};
ghost use Rattle.pop_tries.specs.declared.first_moves.Group.TheVariants.{Keys, Tries};
ghost use Rattle.pop_tries.specs.declared.progress.TriesProgress.TheVariants.{Beginning, Faced, FirstMove};
ghost use Rattle.pop_tries.specs.ties.Candidates.{candidates_of, none_kept};
ghost use Rattle.pop_tries.specs.ties.Contests.{IsContest};
ghost use Rattle.pop_tries.specs.ties.Searching.{contest_of, ending_of, event_of_first, first_event as bare_first, is_stopped, left_of, Emits, Goes, HoldsAt, HoldTries, IsBare, IsTask, MayStep};

use crate::desk::Desk;
use crate::first_moves::{Group, play_next};
use crate::kept_tries::Candidates;
use crate::move_set::MoveSet;
use crate::progress::{First, Firsts, Step, Task, TriesProgress};
use crate::refuting::Refuting;
use crate::shown::shown;
use chess_core::{Board, Move};
use chess_rules::{MovePlace, Rules, Undo, play, unplay};
use pop_events::{Shown, TryEvent};

/// Returns the progress of a search before the keys.
pub(crate) fn beginning_of_keys() -> TriesProgress
    ensures { result ≡ Beginning Keys (candidates_of None) }
{
    TriesProgress::Beginning {
        group: Group::Keys,
        candidates: Candidates::of(None),
    }
}

/// Returns the first moves that may be tries before the first move of a group.
fn first_candidates(group: Group, candidates: Candidates) -> Candidates
    ensures keys { group ≡ Keys → result.kept ≡ none_kept }
    ensures tries { (most : ℕ) → group ≡ Tries most → result ≡ candidates }
{
    match group {
        Group::Keys => Candidates::of(Some(MoveSet::none())),
        Group::Tries { .. } => candidates,
    }
}

/// Begins the keys or the tries, before the first of the moves that may be one.
#[tactic(auto, using(crate::proofs::Steps::group_begins, crate::proofs::Steps::few_firsts), unfolding(crate::specs::ties::Searching::HoldsAt, crate::specs::ties::Searching::left_of, crate::specs::ties::Searching::rank))]
pub(crate) fn begin_group<R: Rules, const N: usize>(
    task: &Task,
    group: Group,
    candidates: Candidates,
    desk: &Desk<R, N>,
) -> Step
    requires task { IsTask task.now }
    requires holds { HoldsAt R.rule task.now (Beginning group candidates)
        desk.now.frames.items desk.now.board }
    ensures { Goes R.rule task.now (Beginning group candidates) desk.now result.progress desk.now
        result.event }
{
    Step {
        progress: TriesProgress::FirstMove {
            firsts: Firsts {
                group,
                place: MovePlace::start(),
                count: 0,
                candidates: first_candidates(group, candidates),
            },
        },
        event: Some(match group {
            Group::Keys => TryEvent::Keys,
            Group::Tries { .. } => TryEvent::Tries,
        }),
    }
}

/// Returns whether the limit of solutions stops the group after this many first moves.
fn is_stopped(task: &Task, group: Group, count: u32) -> bool
    ensures { result ≡ is_stopped task.now.problem group count }
{
    match group {
        Group::Keys => count == task.problem.max_solutions(),
        Group::Tries { .. } => false,
    }
}

/// Returns the event that shows a first move as a key or as a try.
fn first_event(group: Group, shown: Shown) -> TryEvent
    ensures { result ≡ event_of_first group shown }
{
    match group {
        Group::Keys => TryEvent::Key(shown),
        Group::Tries { .. } => TryEvent::Try(shown),
    }
}

/// Ends a group with its total. After the keys the tries follow, which are among `candidates`.
#[tactic(auto, unfolding(crate::specs::ties::Searching::HoldsAt, crate::specs::ties::Searching::left_of, crate::specs::ties::Searching::rank))]
fn end_group<R: Rules>(task: &Task, group: Group, count: u32, candidates: Candidates) -> Step
    requires task { IsTask task.now }
    requires contest { IsContest (contest_of task.now) }
    requires candidates { HoldTries R.rule task.now candidates }
    ensures goes { (items : List Level) (p : Position)
        → IsBare (play_start task.now.problem) items p
        → HoldsAt R.rule task.now result.progress items p }
    ensures emits { (items : List Level)
        → Emits R.rule task.now (ending_of R.rule task.now group count)
        (left_of R.rule task.now result.progress items) result.event }
    ensures event { is_some result.event ≡ true }
{
    match group {
        Group::Keys => Step {
            progress: TriesProgress::Beginning {
                group: Group::Tries { most: task.most },
                candidates,
            },
            event: Some(TryEvent::KeyTotal {
                count,
                stopped: count == task.problem.max_solutions(),
            }),
        },
        Group::Tries { .. } => Step {
            progress: TriesProgress::Over,
            event: Some(TryEvent::TryTotal { count }),
        },
    }
}

/// Finds the next first move of a group and plays it, or ends the group.
#[tactic(auto, using(chess_rules::proofs::LegalMoves::may_be_made), unfolding(crate::specs::ties::Searching::HoldsAt, crate::specs::ties::Searching::rank))]
pub(crate) fn find_first<R: Rules, const N: usize>(
    task: &Task,
    firsts: Firsts,
    desk: &mut Desk<R, N>,
) -> Step
    requires { MayStep R.rule task.now (FirstMove firsts) desk.old N }
    ensures { Goes R.rule task.now (FirstMove firsts) desk.old result.progress desk.new
        result.event }
{
    let group = firsts.group;
    if is_stopped(task, group, firsts.count) {
        return end_group::<R>(task, group, firsts.count, Candidates::of(None));
    }
    let mut next = firsts;
    let found = play_next::<R, N>(task, &mut next, desk);
    let Some((by, undo, refuting)) = found else {
        return end_group::<R>(task, group, firsts.count, next.candidates);
    };
    begin_first::<R>(task, next.counted(), by, undo, refuting, &mut desk.board)
}

/// Shows a first move that has been played: takes it back, since it is shown from the position before it, and
/// plays it again.
#[tactic(auto, using(chess_rules::proofs::LegalMoves::may_be_made))]
fn begin_first<R: Rules>(
    task: &Task,
    firsts: Firsts,
    by: Move,
    undo: Undo,
    refuting: Refuting,
    board: &mut Board,
) -> Step
    requires came { CameBy R.rule by undo board.old (play_start task.now.problem) }
    ensures unchanged { board.new ≡ board.old }
    ensures progress { result.progress ≡ Faced
        (record { firsts = firsts; by = by; undo = undo; threat = None; refuting = refuting }) }
    ensures event { result.event ≡ Some (try_event_of R.rule task.now.problem
        (bare_first firsts.group by)) }
{
    unplay::<R>(board, by, undo);
    let shown = shown::<R>(task.problem.stipulation().goal, by, board);
    let _undo = play::<R>(board, by);
    let event = first_event(firsts.group, shown);
    let first = First {
        firsts,
        by,
        undo,
        threat: None,
        refuting,
    };
    Step {
        progress: TriesProgress::Faced { first },
        event: Some(event),
    }
}
