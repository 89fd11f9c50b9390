//! The steps of a search for tries below a first move.
ghost use Rattle.std.specs.Prelude.{◌≡◌, ◌<◌, ◌-◌, [], false, is_some, reverse, true};
ghost use Rattle.chess_core.specs.WellFormed.{IsWellFormed};
ghost use Rattle.chess_rules.specs.Legal.{is_legal};
ghost use Rattle.chess_rules.specs.Play.{position_after, undo_of};
ghost use Rattle.pop_events.specs.Shown.{shown_move};
ghost use Rattle.pop_input.specs.Posed.{IsSound};
ghost use Rattle.pop_walk.specs.ties.Modes.{mode_of};
ghost use Rattle.pop_walk.specs.ties.Walk.{IsWalking};
ghost use Rattle.pop_tries.specs.ties.Starts.{base_position, Base, ShowsBelow};
ghost use Rattle.chess_core.specs.Position.{Position};
ghost use Rattle.pop_battle.specs.Game.{can_move};
ghost use Rattle.pop_battle.specs.ties.Frames.{CameBy};
ghost use Rattle.pop_walk.specs.Events.{game_of};
ghost use Rattle.pop_stipulation.specs.Stipulations.{half_moves};
ghost use Rattle.pop_events.specs.declared.try_event.TryEvent.TheVariants.{Node};
ghost use Rattle.pop_tries.specs.declared.progress.TriesProgress.TheVariants.{BelowReply, But, Faced, FirstMove, Refutation, Reply, Stalemate, Threats};
ghost use Rattle.pop_tries.specs.ties.Contests.{AreThreats, IsContest};
ghost use Rattle.pop_tries.specs.ties.Searching.{after_first, below_and_after, contest_of, event_of_faced, left_of, Goes, HoldsAt, IsFirst, IsOnWalk, MayStep, rank, ShowsNode};

use crate::below::{open_walk, shown_node, walk_on};
use crate::desk::Desk;
use crate::first_moves::{Group, next_refutation, next_reply};
use crate::progress::{First, Played, Step, Task, TriesProgress};
use crate::shown::shown;
use crate::threats::{find_threat, pass, unpass};
use chess_core::{Board, Move, Square};
use chess_rules::{MovePlace, Rules, Undo, has_legal_move, in_check, play, unplay};
use pop_events::TryEvent;
use pop_walk::mode::Mode;

/// Takes a first move back. Returns the new progress.
#[tactic(auto, using(chess_rules::proofs::LegalMoves::may_be_made))]
fn end_first<R: Rules>(first: First, board: &mut Board) -> TriesProgress
    requires came { (p : Position) × CameBy R.rule first.by first.undo board.old p }
    ensures progress { result ≡ FirstMove first.firsts }
    ensures back { (p : Position) → CameBy R.rule first.by first.undo board.old p → board.new ≡ p }
{
    unplay::<R>(board, first.by, first.undo);
    TriesProgress::FirstMove {
        firsts: first.firsts,
    }
}

/// Ends what is shown after a first move, except for the refutations of a try. Returns the new progress.
#[tactic(auto, unfolding(crate::specs::ties::Searching::HoldsAt, crate::specs::ties::Searching::left_of, crate::specs::ties::Searching::rank))]
fn end_replies<R: Rules>(task: &Task, first: First, board: &mut Board) -> TriesProgress
    requires contest { IsContest (contest_of task.now) }
    requires first { IsFirst R.rule task.now first }
    requires board { board.old ≡ after_first R.rule task.now first.by }
    ensures holds { HoldsAt R.rule task.now result [] board.new }
    ensures left { below_and_after R.rule task.now first [] ≡ left_of R.rule task.now result [] }
    ensures rank { rank result ≡ 0 }
{
    match first.firsts.group {
        Group::Keys => end_first::<R>(first, board),
        Group::Tries { .. } => TriesProgress::But { first },
    }
}

/// Finds what Black faces after a first move: check, a threat or zugzwang; nothing if he has no reply.
#[tactic(auto, unfolding(crate::specs::ties::Searching::HoldsAt, crate::specs::ties::Searching::rank))]
pub(crate) fn face<R: Rules, const N: usize>(
    task: &Task,
    first: First,
    desk: &mut Desk<R, N>,
) -> Step
    requires { MayStep R.rule task.now (Faced first) desk.old N }
    ensures { Goes R.rule task.now (Faced first) desk.old result.progress desk.new result.event }
{
    if !has_legal_move::<R>(&mut desk.board) {
        return Step {
            progress: end_replies::<R>(task, first, &mut desk.board),
            event: None,
        };
    }
    let threat = find_threat::<R, N>(task.contest(), desk);
    let first = First { threat, ..first };
    if threat.is_some() {
        return begin_threats::<R, N>(task, first, desk);
    }
    let checked = in_check::<R>(&desk.board, desk.board.turn());
    Step {
        progress: TriesProgress::Reply {
            first,
            place: MovePlace::start(),
        },
        event: Some(faced_event(checked)),
    }
}

/// Returns the event of what Black faces, in check or not, where White threatens nothing.
fn faced_event(checked: bool) -> TryEvent
    ensures { result ≡ event_of_faced checked }
{
    if checked {
        TryEvent::Check
    } else {
        TryEvent::Zugzwang
    }
}

/// Lets Black pass and opens the walk over the threats.
#[tactic(auto, unfolding(crate::specs::ties::Searching::HoldsAt, crate::specs::ties::Searching::rank))]
fn begin_threats<R: Rules, const N: usize>(task: &Task, first: First, desk: &mut Desk<R, N>) -> Step
    requires may_step { MayStep R.rule task.now (Faced first) desk.old N }
    requires threat { AreThreats R.rule (contest_of task.now) (after_first R.rule task.now first.by)
        first.threat }
    requires some { is_some first.threat ≡ true }
    requires reply { can_move (game_of R.rule task.now.problem)
        (after_first R.rule task.now first.by) ≡ true }
    ensures { Goes R.rule task.now (Faced first) desk.old result.progress desk.new result.event }
{
    let crossed = pass(&mut desk.board);
    open_walk::<R, N>(Mode::of(&task.problem), task.half_moves_below(), desk);
    Step {
        progress: TriesProgress::Threats { first, crossed },
        event: Some(TryEvent::Threat),
    }
}

/// Walks to the next node below a first move, and returns its event. After the last node returns `None`: then
/// no frame is left, and the board has the position where the walk started.
#[inline(always)]
fn next_node<R: Rules, const N: usize>(task: &Task, desk: &mut Desk<R, N>) -> Option<TryEvent>
    requires sound { IsSound task.now.problem }
    requires room { half_moves task.now.problem.stipulation < N }
    requires walking { (p : Position) × IsOnWalk R.rule task.now p desk.old.frames.items
        desk.old.board }
    ensures next { (first : Move) (base : Base)
        → IsOnWalk R.rule task.now (base_position R.rule task.now.problem first base)
        desk.old.frames.items desk.old.board
        → ShowsNode R.rule task.now first base desk.old.frames.items desk.new.frames.items
        desk.new.board result }
{
    let mode = Mode::of(&task.problem);
    if !walk_on::<R, N>(mode, task.half_moves_below(), desk) {
        return None;
    }
    let node = shown_node::<R>(mode, desk.frames.as_slice(), &mut desk.board);
    Some(TryEvent::Node {
        depth: node.depth,
        half: node.half,
        shown: node.shown,
    })
}

/// Shows the next node below the threats; after the last one Black's replies follow.
#[tactic(auto, unfolding(crate::specs::ties::Searching::HoldsAt, crate::specs::ties::Searching::rank))]
pub(crate) fn walk_threats<R: Rules, const N: usize>(
    task: &Task,
    first: First,
    crossed: Option<Square>,
    desk: &mut Desk<R, N>,
) -> Step
    requires { MayStep R.rule task.now (Threats first crossed) desk.old N }
    ensures { Goes R.rule task.now (Threats first crossed) desk.old result.progress desk.new
        result.event }
{
    let next = next_node::<R, N>(task, desk);
    if let Some(event) = next {
        return Step {
            progress: TriesProgress::Threats { first, crossed },
            event: Some(event),
        };
    }
    unpass(&mut desk.board, crossed);
    Step {
        progress: TriesProgress::Reply {
            first,
            place: MovePlace::start(),
        },
        event: None,
    }
}

/// Plays a reply and opens the walk over the moves shown after it. Returns what takes it back, and its event.
#[tactic(auto, using(chess_rules::proofs::LegalMoves::may_be_made))]
fn play_reply<R: Rules, const N: usize>(
    task: &Task,
    by: Move,
    desk: &mut Desk<R, N>,
) -> (Undo, TryEvent)
    requires room { half_moves task.now.problem.stipulation < N }
    requires well_formed { IsWellFormed desk.old.board }
    requires legal { is_legal R.rule desk.old.board by ≡ true }
    requires empty { desk.old.frames.items ≡ [] }
    ensures undo { result.0 ≡ undo_of R.rule desk.old.board by }
    ensures event { result.1 ≡ Node 1 2 (shown_move task.now.problem.stipulation.goal R.rule
        desk.old.board by) }
    ensures walking { IsWalking R.rule (half_moves task.now.problem.stipulation - 2)
        (position_after R.rule desk.old.board by) (reverse desk.new.frames.items) desk.new.board }
    ensures come { ShowsBelow R.rule (mode_of task.now.problem)
        (half_moves task.now.problem.stipulation - 2)
        (position_after R.rule desk.old.board by) (reverse desk.new.frames.items) }
{
    let shown = shown::<R>(task.problem.stipulation().goal, by, &mut desk.board);
    let undo = play::<R>(&mut desk.board, by);
    open_walk::<R, N>(Mode::of(&task.problem), task.half_moves_below(), desk);
    let event = TryEvent::Node {
        depth: 1,
        half: 2,
        shown,
    };
    (undo, event)
}

/// Finds the next reply that is shown, plays it, and opens the walk over the moves shown after it; after the last
/// reply ends what is shown after the first move.
#[tactic(auto, using(chess_rules::proofs::LegalMoves::may_be_made), unfolding(crate::specs::ties::Searching::HoldsAt, crate::specs::ties::Searching::rank))]
pub(crate) fn find_reply<R: Rules, const N: usize>(
    task: &Task,
    first: First,
    place: MovePlace,
    desk: &mut Desk<R, N>,
) -> Step
    requires { MayStep R.rule task.now (Reply first place) desk.old N }
    ensures { Goes R.rule task.now (Reply first place) desk.old result.progress desk.new
        result.event }
{
    let mut next = place;
    let found = next_reply::<R, N>(task.contest(), &first, &mut next, desk);
    let Some(by) = found else {
        return Step {
            progress: end_replies::<R>(task, first, &mut desk.board),
            event: None,
        };
    };
    let (undo, event) = play_reply::<R, N>(task, by, desk);
    let reply = Played {
        place: next,
        by,
        undo,
    };
    Step {
        progress: TriesProgress::BelowReply { first, reply },
        event: Some(event),
    }
}

/// Shows the next node below a reply; after the last one takes the reply back.
#[tactic(auto, unfolding(crate::specs::ties::Searching::HoldsAt, crate::specs::ties::Searching::rank))]
pub(crate) fn walk_reply<R: Rules, const N: usize>(
    task: &Task,
    first: First,
    reply: Played,
    desk: &mut Desk<R, N>,
) -> Step
    requires { MayStep R.rule task.now (BelowReply first reply) desk.old N }
    ensures { Goes R.rule task.now (BelowReply first reply) desk.old result.progress desk.new
        result.event }
{
    let next = next_node::<R, N>(task, desk);
    if let Some(event) = next {
        return Step {
            progress: TriesProgress::BelowReply { first, reply },
            event: Some(event),
        };
    }
    unplay::<R>(&mut desk.board, reply.by, reply.undo);
    Step {
        progress: TriesProgress::Reply {
            first,
            place: reply.place,
        },
        event: None,
    }
}

/// Begins the refutations of a try; without a reply it is stalemate.
#[tactic(auto, unfolding(crate::specs::ties::Searching::HoldsAt, crate::specs::ties::Searching::rank))]
pub(crate) fn begin_refutations<R: Rules, const N: usize>(
    task: &Task,
    first: First,
    desk: &mut Desk<R, N>,
) -> Step
    requires holds { HoldsAt R.rule task.now (But first) desk.old.frames.items desk.old.board }
    ensures { Goes R.rule task.now (But first) desk.old result.progress desk.new result.event }
{
    if !has_legal_move::<R>(&mut desk.board) {
        return Step {
            progress: TriesProgress::Stalemate { first },
            event: Some(TryEvent::But),
        };
    }
    Step {
        progress: TriesProgress::Refutation {
            first,
            place: MovePlace::start(),
        },
        event: Some(TryEvent::But),
    }
}

/// Shows that a try stalemates, and takes it back.
#[tactic(auto, unfolding(crate::specs::ties::Searching::HoldsAt, crate::specs::ties::Searching::rank))]
pub(crate) fn end_stalemate<R: Rules, const N: usize>(
    task: &Task,
    first: First,
    desk: &mut Desk<R, N>,
) -> Step
    requires holds { HoldsAt R.rule task.now (Stalemate first) desk.old.frames.items
        desk.old.board }
    ensures { Goes R.rule task.now (Stalemate first) desk.old result.progress desk.new
        result.event }
{
    Step {
        progress: end_first::<R>(first, &mut desk.board),
        event: Some(TryEvent::Stalemate),
    }
}

/// Finds the next refutation of a try, or takes the try back.
#[tactic(auto, unfolding(crate::specs::ties::Searching::HoldsAt, crate::specs::ties::Searching::rank))]
pub(crate) fn find_refutation<R: Rules, const N: usize>(
    task: &Task,
    first: First,
    place: MovePlace,
    desk: &mut Desk<R, N>,
) -> Step
    requires { MayStep R.rule task.now (Refutation first place) desk.old N }
    ensures { Goes R.rule task.now (Refutation first place) desk.old result.progress desk.new
        result.event }
{
    let mut next = place;
    let found = next_refutation::<R, N>(task.contest(), first.refuting, &mut next, desk);
    let Some(by) = found else {
        return Step {
            progress: end_first::<R>(first, &mut desk.board),
            event: None,
        };
    };
    let shown = shown::<R>(task.problem.stipulation().goal, by, &mut desk.board);
    Step {
        progress: TriesProgress::Refutation { first, place: next },
        event: Some(TryEvent::Refutation(shown)),
    }
}
