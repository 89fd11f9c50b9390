//! The next key, try, shown reply or refutation after a place in the order of moves.
ghost use Rattle.std.specs.Prelude.{◌≡◌, ◌≤◌, MatchOption, Some, true};
ghost use Rattle.chess_rules.specs.Legal.{is_legal};
ghost use Rattle.chess_rules.specs.ties.Places.{place_of};
ghost use Rattle.chess_core.specs.declared.man.Move.{Move};
ghost use Rattle.pop_tries.specs.ties.Contests.{AreThreats, IsReady, Keeps};
ghost use Rattle.pop_tries.specs.declared.first_moves.Group.TheVariants.{Keys, Tries};
ghost use Rattle.pop_tries.specs.ties.FirstMoves.{belongs, is_shown, is_try_after, refutes, AreCandidates, AreKept, AreRefuting, AreTries, IsAsked, IsKnownTry, IsNext, IsPlayed};
ghost use Rattle.pop_tries.specs.ties.MoveSets.{may_be, HoldAll, HoldBefore};
ghost use Rattle.pop_tries.specs.ties.Searching.{contest_of};

use crate::contest::Contest;
use crate::desk::Desk;
use crate::kept_tries::Candidates;
use crate::move_set::{MoveSet, may_be, noted};
use crate::progress::{First, Firsts, MOST_REFUTATIONS, Task};
use crate::refuting::Refuting;
use crate::replies::{
    are_two_refutations, count_refutations, is_key, is_key_unrefuted, is_refutation, is_try,
};
use crate::threats::is_defence;
use chess_core::Move;
use chess_rules::{MovePlace, Rules, Undo, play, unplay};
use pop_battle::chess::next_move;

/// Which first moves are shown.
#[derive(Clone, Copy, Debug)]
pub(crate) enum Group {
    /// The keys.
    Keys,
    /// The tries with at most `most` refutations, 0 to `MOST_REFUTATIONS`.
    Tries { most: u32 },
}

/// Returns whether the first move `by`, which led to the board's position, is a key. If it isn't, notes it
/// among `candidates` unless it is no try. Sets `refuting` to the refutations of a try, or to `None`.
#[tactic(auto, using(crate::proofs::Candidates::classing))]
fn is_key_or_noted<R: Rules, const N: usize>(
    task: &Task,
    by: Move,
    candidates: &mut Option<MoveSet>,
    refuting: &mut Option<Refuting>,
    desk: &mut Desk<R, N>,
) -> bool
    requires ready { IsReady (contest_of task.now) desk.old N }
    requires few { task.now.most ≤ MOST_REFUTATIONS }
    ensures key { result ≡ belongs R.rule (contest_of task.now) Keys desk.old.board }
    ensures noted { belongs R.rule (contest_of task.now) (Tries task.now.most) desk.old.board ≡ true
        → may_be candidates.new by ≡ true }
    ensures kept { (m : Move) → may_be candidates.old m ≡ true → may_be candidates.new m ≡ true }
    ensures refuting { IsKnownTry R.rule (contest_of task.now) task.now.most desk.old.board
        refuting.new }
    ensures rest { Keeps desk.old desk.new }
{
    let contest = task.contest();
    *refuting = None;
    if task.most == 0 {
        return is_key::<R, N>(contest, desk);
    }
    if are_two_refutations::<R, N>(contest, task.most, desk) {
        return false;
    }
    let tally = count_refutations::<R, N>(contest, task.most, desk);
    if tally.count == 0 {
        if is_key_unrefuted::<R>(contest, &mut desk.board) {
            return true;
        }
        *candidates = noted(*candidates, by);
        return false;
    }
    if tally.count <= task.most {
        *candidates = noted(*candidates, by);
        *refuting = Some(tally.refuting_kept());
    }
    false
}

/// Plays the next key after `place`, and moves `place` to it. Notes the first moves before it that may be
/// tries among `candidates`, which keep some. Returns the key, what takes it back, and its refutations: none;
/// after the last one `None`, with the board unchanged.
#[tactic(auto, using(crate::proofs::Candidates::key_refuting, crate::proofs::Loops::filtering, chess_rules::proofs::LegalMoves::may_be_made))]
fn play_next_key<R: Rules, const N: usize>(
    task: &Task,
    place: &mut MovePlace,
    candidates: &mut Candidates,
    desk: &mut Desk<R, N>,
) -> Option<(Move, Undo, Refuting)>
    requires ready { IsReady (contest_of task.now) desk.old N }
    requires few { task.now.most ≤ MOST_REFUTATIONS }
    requires noted { HoldBefore R.rule desk.old.board (is_try_after R.rule (contest_of task.now)
        task.now.most desk.old.board) candidates.old.set place.old }
    requires kept { AreKept R.rule (contest_of task.now) task.now.most desk.old.board
        candidates.old.kept }
    ensures frames { desk.new.frames.items ≡ desk.old.frames.items }
    ensures next { IsPlayed R.rule (contest_of task.now) Keys desk.old.board desk.new.board
        place.old place.new result }
    ensures noted { MatchOption result (HoldAll R.rule desk.old.board (is_try_after R.rule
        (contest_of task.now) task.now.most desk.old.board) candidates.new.set)
        (λ _. HoldBefore R.rule desk.old.board (is_try_after R.rule (contest_of task.now)
        task.now.most desk.old.board) candidates.new.set place.new) }
    ensures kept { AreKept R.rule (contest_of task.now) task.now.most desk.old.board
        candidates.new.kept }
{
    let mut cursor = None;
    while let Some(by) = next_move::<R>(&mut cursor, place, &mut desk.board) {
        let undo = play::<R>(&mut desk.board, by);
        let mut refuting = None;
        if is_key_or_noted::<R, N>(task, by, &mut candidates.set, &mut refuting, desk) {
            return Some((by, undo, Refuting::none()));
        }
        unplay::<R>(&mut desk.board, by, undo);
        candidates.keep(place.number(), refuting);
    }
    None
}

/// Returns whether the first move that led to the board's position is a try with at most `most` refutations.
/// `kept` is its refutations if it is known as a try. Sets `refuting` to the refutations of a try.
fn is_try_as_kept<R: Rules, const N: usize>(
    contest: Contest,
    most: u32,
    kept: Option<Refuting>,
    refuting: &mut Refuting,
    desk: &mut Desk<R, N>,
) -> bool
    requires ready { IsReady contest desk.old N }
    requires few { most ≤ MOST_REFUTATIONS }
    requires kept { IsKnownTry R.rule contest most desk.old.board kept }
    ensures tried { result ≡ belongs R.rule contest (Tries most) desk.old.board }
    ensures refuting { result ≡ true → AreRefuting R.rule contest desk.old.board refuting.new }
    ensures rest { Keeps desk.old desk.new }
{
    if let Some(set) = kept {
        *refuting = set;
        return true;
    }
    is_try::<R, N>(contest, most, refuting, desk)
}

/// Plays the next try after `place` with at most `task.most` refutations, and moves `place` to it. Tests only
/// the `candidates` that aren't kept at `index`. Returns the try, what takes it back, and a set that holds its
/// refutations; after the last one `None`, with the board unchanged.
#[tactic(auto, using(crate::proofs::Loops::filtering, chess_rules::proofs::LegalMoves::may_be_made))]
fn play_next_try<R: Rules, const N: usize>(
    task: &Task,
    place: &mut MovePlace,
    candidates: &Candidates,
    index: u32,
    desk: &mut Desk<R, N>,
) -> Option<(Move, Undo, Refuting)>
    requires ready { IsReady (contest_of task.now) desk.old N }
    requires few { task.now.most ≤ MOST_REFUTATIONS }
    requires held { HoldAll R.rule desk.old.board (is_try_after R.rule (contest_of task.now)
        task.now.most desk.old.board) candidates.now.set }
    requires kept { AreKept R.rule (contest_of task.now) task.now.most desk.old.board
        candidates.now.kept }
    ensures frames { desk.new.frames.items ≡ desk.old.frames.items }
    ensures next { IsPlayed R.rule (contest_of task.now) (Tries task.now.most) desk.old.board
        desk.new.board place.old place.new result }
{
    let contest = task.contest();
    let mut cursor = None;
    while let Some(by) = next_move::<R>(&mut cursor, place, &mut desk.board) {
        if may_be(candidates.set, by) {
            let undo = play::<R>(&mut desk.board, by);
            let kept = candidates.kept_at(index as usize, place.number());
            let mut refuting = Refuting::none();
            if is_try_as_kept::<R, N>(contest, task.most, kept, &mut refuting, desk) {
                return Some((by, undo, refuting));
            }
            unplay::<R>(&mut desk.board, by, undo);
        }
    }
    None
}

/// Plays the next first move after the place that belongs to the group, and moves the place to it. Returns the
/// move, what takes it back, and a set that holds its refutations; after the last one `None`, with the board
/// unchanged.
pub(crate) fn play_next<R: Rules, const N: usize>(
    task: &Task,
    firsts: &mut Firsts,
    desk: &mut Desk<R, N>,
) -> Option<(Move, Undo, Refuting)>
    requires ready { IsReady (contest_of task.now) desk.old N }
    requires few { task.now.most ≤ MOST_REFUTATIONS }
    requires asked { IsAsked firsts.old.group task.now.most }
    requires noted { AreCandidates R.rule (contest_of task.now) firsts.old.group task.now.most
        desk.old.board firsts.old.candidates firsts.old.place }
    ensures frames { desk.new.frames.items ≡ desk.old.frames.items }
    ensures next { IsPlayed R.rule (contest_of task.now) firsts.old.group desk.old.board
        desk.new.board firsts.old.place firsts.new.place result }
    ensures noted { MatchOption result (AreTries R.rule (contest_of task.now) task.now.most
        desk.old.board firsts.new.candidates) (λ _. AreCandidates R.rule (contest_of task.now)
        firsts.old.group task.now.most desk.old.board firsts.new.candidates firsts.new.place) }
    ensures group { firsts.new.group ≡ firsts.old.group }
    ensures count { firsts.new.count ≡ firsts.old.count }
{
    let index = firsts.count;
    match firsts.group {
        Group::Keys => play_next_key::<R, N>(task, &mut firsts.place, &mut firsts.candidates, desk),
        Group::Tries { .. } => play_next_try::<R, N>(
            task,
            &mut firsts.place,
            &firsts.candidates,
            index,
            desk,
        ),
    }
}

/// Returns whether the legal reply `by` at `place` to the first move that led to the board's position is shown: a
/// defence that doesn't refute. It reads nothing of `first` but what is known of threats and refutations.
fn is_shown<R: Rules, const N: usize>(
    contest: Contest,
    first: &First,
    by: Move,
    place: u16,
    desk: &mut Desk<R, N>,
) -> bool
    requires ready { IsReady contest desk.old N }
    requires threat { AreThreats R.rule contest desk.old.board first.now.threat }
    requires refuting { AreRefuting R.rule contest desk.old.board first.now.refuting }
    requires legal { is_legal R.rule desk.old.board by ≡ true }
    requires place { place ≡ place_of (Some by) }
    ensures shown { result ≡ is_shown R.rule contest desk.old.board by }
    ensures rest { Keeps desk.old desk.new }
{
    if is_refutation::<R, N>(contest, first.refuting, by, place, desk) {
        return false;
    }
    is_defence::<R, N>(contest, first.threat, by, desk)
}

/// Returns the next reply after `place` that is shown below the first move that led to the board's position,
/// and moves `place` to it; after the last one `None`. The board is unchanged. It reads
/// nothing of `first` but what is known of threats and refutations.
#[tactic(auto, using(crate::proofs::Loops::filtering))]
pub(crate) fn next_reply<R: Rules, const N: usize>(
    contest: Contest,
    first: &First,
    place: &mut MovePlace,
    desk: &mut Desk<R, N>,
) -> Option<Move>
    requires ready { IsReady contest desk.old N }
    requires threat { AreThreats R.rule contest desk.old.board first.now.threat }
    requires refuting { AreRefuting R.rule contest desk.old.board first.now.refuting }
    ensures rest { Keeps desk.old desk.new }
    ensures next { IsNext R.rule desk.old.board (is_shown R.rule contest desk.old.board)
        place.old place.new result }
{
    let mut cursor = None;
    while let Some(by) = next_move::<R>(&mut cursor, place, &mut desk.board) {
        if is_shown::<R, N>(contest, first, by, place.number(), desk) {
            return Some(by);
        }
    }
    None
}

/// Returns the next refutation after `place` of the first move that led to the board's position, and moves
/// `place` to it; after the last one `None`. The board is unchanged. `refuting` holds the refutations.
#[tactic(auto, using(crate::proofs::Loops::filtering))]
pub(crate) fn next_refutation<R: Rules, const N: usize>(
    contest: Contest,
    refuting: Refuting,
    place: &mut MovePlace,
    desk: &mut Desk<R, N>,
) -> Option<Move>
    requires ready { IsReady contest desk.old N }
    requires refuting { AreRefuting R.rule contest desk.old.board refuting }
    ensures rest { Keeps desk.old desk.new }
    ensures next { IsNext R.rule desk.old.board (refutes R.rule contest desk.old.board)
        place.old place.new result }
{
    let mut cursor = None;
    while let Some(by) = next_move::<R>(&mut cursor, place, &mut desk.board) {
        if is_refutation::<R, N>(contest, refuting, by, place.number(), desk) {
            return Some(by);
        }
    }
    None
}
