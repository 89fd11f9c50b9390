//! The steps of a search for tries in set play.
ghost use Rattle.pop_events.specs.declared.event.Phase.TheVariants.{Set};
ghost use Rattle.pop_tries.specs.declared.progress.TriesProgress.TheVariants.{InSetPlay, SetPlay};
ghost use Rattle.pop_tries.specs.ties.Searching.{Goes, HoldsAt, MayStep};

use crate::desk::Desk;
use crate::group::beginning_of_keys;
use crate::progress::{Step, Task, TriesProgress};
use chess_rules::{MovePlace, Rules};
use pop_battle::Frame;
use pop_events::{Event, Phase, TryEvent};
use pop_walk::mode::Mode;
use pop_walk::phases::{Progress, Scope, Walk, advance, phase_half_moves, set_up};

/// Begins set play, or finds that it isn't possible.
#[tactic(auto, unfolding(crate::specs::ties::Searching::HoldsAt, crate::specs::ties::Searching::rank))]
pub(crate) fn begin_set_play<R: Rules, const N: usize>(task: &Task, desk: &mut Desk<R, N>) -> Step
    requires { MayStep R.rule task.now SetPlay desk.old N }
    ensures { Goes R.rule task.now SetPlay desk.old result.progress desk.new result.event }
{
    let phase = Phase::Set;
    let event = Some(TryEvent::Set(Event::Phase(phase)));
    if !set_up::<R>(&task.problem, phase, &mut desk.board) {
        return Step {
            progress: TriesProgress::NotPossible,
            event,
        };
    }
    let left = phase_half_moves(&task.problem, phase);
    desk.frames.push(Frame {
        place: MovePlace::start(),
        left,
        cursor: None,
        ..Frame::default()
    });
    let walk = Walk {
        phase,
        mode: Mode::of(&task.problem),
        half_moves: left,
        scope: Scope::Part,
    };
    Step {
        progress: TriesProgress::InSetPlay {
            progress: Progress::Within { walk, count: 0 },
        },
        event,
    }
}

/// Returns the next event of set play; after the last one the keys follow.
#[tactic(auto, unfolding(crate::specs::ties::Searching::HoldsAt, crate::specs::ties::Searching::rank))]
pub(crate) fn walk_set_play<R: Rules, const N: usize>(
    task: &Task,
    progress: Progress,
    desk: &mut Desk<R, N>,
) -> Step
    requires { MayStep R.rule task.now (InSetPlay progress) desk.old N }
    ensures { Goes R.rule task.now (InSetPlay progress) desk.old result.progress desk.new
        result.event }
{
    let mut progress = progress;
    let mut event = None;
    advance::<R, N, true>(
        &task.problem,
        &mut progress,
        &mut desk.board,
        &mut desk.frames,
        &mut desk.search_state,
        &mut event,
    );
    match event {
        Some(event) => Step {
            progress: TriesProgress::InSetPlay { progress },
            event: Some(TryEvent::Set(event)),
        },
        None => Step {
            progress: beginning_of_keys(),
            event: None,
        },
    }
}
