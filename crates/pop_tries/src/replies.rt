//! Keys, tries and refutations: tests of first moves and of the replies to them.
ghost use Rattle.std.specs.Prelude.{◌≡◌, ◌+◌, ◌-◌, ◌≤◌, filter, not, min, true, length, Some};
ghost use Rattle.chess_core.specs.WellFormed.{IsWellFormed};
ghost use Rattle.chess_rules.specs.Legal.{is_legal, moves};
ghost use Rattle.chess_rules.specs.ties.Places.{moves_between, place_of};
ghost use Rattle.pop_walk.specs.Tree.{is_in_set_play, keeps_win};
ghost use Rattle.pop_tries.specs.Events.{chess_passing};
ghost use Rattle.pop_tries.specs.Tries.{is_try, refutations};
ghost use Rattle.pop_tries.specs.ties.Contests.{IsReady, Keeps, game_in};
ghost use Rattle.chess_core.specs.declared.man.Move.{Move};
ghost use Rattle.pop_tries.specs.ties.MoveSets.{may_hold, HoldAll};
ghost use Rattle.pop_tries.specs.ties.FirstMoves.{AreRefuting, IsRefutedAt, gives_check, is_counted, is_forcing, is_heavy, is_refuted_by_stalemate, refutes, refutes_among};

use crate::contest::Contest;
use crate::desk::Desk;
use crate::move_set::MoveSet;
use crate::progress::MOST_REFUTATIONS;
use crate::refuting::Refuting;
use chess_core::{Board, Kind, Man, Move};
use chess_rules::{MovePlace, Rules, has_legal_move, in_check, is_stalemate, play, unplay};
use pop_battle::chess::{next_move, reaches_goal};
use pop_battle::value_of;
use pop_stipulation::{Battle, Goal};

/// The fewest half-moves of a contest with two moves after a reply: from there on forcing replies are counted first.
const FEWEST_FORCING_FIRST: usize = 5;

/// The half-moves of a contest with one move after a reply.
const ONE_MOVE_AFTER_A_REPLY: usize = 3;

/// Returns whether the first move that led to the board's position is a key.
#[tactic(auto, using(crate::proofs::Contests::key_by_value))]
pub(crate) fn is_key<R: Rules, const N: usize>(contest: Contest, desk: &mut Desk<R, N>) -> bool
    requires ready { IsReady contest desk.old N }
    ensures key { result ≡ keeps_win contest.battle (game_in R.rule contest)
        contest.stipulation.n desk.old.board }
    ensures rest { Keeps desk.old desk.new }
{
    let left = contest.stipulation.half_moves().saturating_sub(1);
    value_of::<R, N>(
        contest.aim(),
        left,
        &mut desk.board,
        &mut desk.frames,
        &mut desk.search_state,
    )
}

/// Returns whether White no longer wins after the reply that led to the board's position.
#[tactic(auto, using(crate::proofs::Contests::replying))]
fn is_refuted<R: Rules, const N: usize>(contest: Contest, desk: &mut Desk<R, N>) -> bool
    requires ready { IsReady contest desk.old N }
    ensures refuted { result ≡ not (is_in_set_play contest.battle (game_in R.rule contest)
        contest.stipulation.n desk.old.board) }
    ensures rest { Keeps desk.old desk.new }
{
    let half_moves = contest.stipulation.half_moves();
    if half_moves < 2 {
        return true;
    }
    !value_of::<R, N>(
        contest.aim(),
        half_moves - 2,
        &mut desk.board,
        &mut desk.frames,
        &mut desk.search_state,
    )
}

/// Returns whether the legal reply `by` refutes the first move that led to the board's position.
#[tactic(auto, using(chess_rules::proofs::LegalMoves::may_be_made))]
pub(crate) fn refutes<R: Rules, const N: usize>(
    contest: Contest,
    by: Move,
    desk: &mut Desk<R, N>,
) -> bool
    requires ready { IsReady contest desk.old N }
    requires legal { is_legal R.rule desk.old.board by ≡ true }
    ensures refutes { result ≡ refutes R.rule contest desk.old.board by }
    ensures rest { Keeps desk.old desk.new }
{
    let undo = play::<R>(&mut desk.board, by);
    let refuted = is_refuted::<R, N>(contest, desk);
    unplay::<R>(&mut desk.board, by, undo);
    refuted
}

/// Returns whether the legal reply `by` at `place` refutes the first move that led to the board's position;
/// `refuting` is what is known of the replies that do.
#[tactic(auto, using(crate::proofs::Counts::refuted_by, crate::proofs::MoveSets::not_held))]
pub(crate) fn is_refutation<R: Rules, const N: usize>(
    contest: Contest,
    refuting: Refuting,
    by: Move,
    place: u16,
    desk: &mut Desk<R, N>,
) -> bool
    requires ready { IsReady contest desk.old N }
    requires refuting { AreRefuting R.rule contest desk.old.board refuting }
    requires legal { is_legal R.rule desk.old.board by ≡ true }
    requires place { place ≡ place_of (Some by) }
    ensures refutes { result ≡ refutes R.rule contest desk.old.board by }
    ensures rest { Keeps desk.old desk.new }
{
    if place == refuting.last {
        return true;
    }
    if !refuting.moves.may_hold(by) {
        return false;
    }
    refutes::<R, N>(contest, by, desk)
}

/// Returns whether the first move that led to the board's position is a key, if no reply refutes it.
#[tactic(auto, using(crate::proofs::Contests::unrefuted))]
pub(crate) fn is_key_unrefuted<R: Rules>(contest: Contest, board: &mut Board) -> bool
    requires well_formed { IsWellFormed board.old }
    ensures key { length (refutations contest.battle (game_in R.rule contest) contest.stipulation.n
        board.old) ≡ 0 → result ≡ keeps_win contest.battle (game_in R.rule contest)
        contest.stipulation.n board.old }
    ensures unchanged { board.new ≡ board.old }
{
    if has_legal_move::<R>(board) {
        return true;
    }
    match contest.battle {
        Battle::Direct => reaches_goal::<R>(contest.stipulation.goal, board),
        Battle::SelfMate => false,
    }
}

/// Which replies are counted together.
#[derive(Clone, Copy, Debug)]
pub(crate) enum Counted {
    All,
    /// The replies that give check or capture a queen or a rook.
    Forcing,
    /// The replies that don't.
    Others,
}

/// A number of refutations, counted up to one more than `most`, which is 0 to `MOST_REFUTATIONS`.
#[derive(Clone, Copy)]
pub(crate) struct Tally {
    pub count: u32,
    pub most: u32,
    /// Holds the refutations that were counted.
    pub refuting: MoveSet,
    /// The place of the one that was counted last; 0 if there is none.
    pub last: u16,
}

impl Tally {
    /// Returns what is known of the refutations.
    pub(crate) fn refuting_kept(self) -> Refuting
        ensures { result ≡ record { moves = self.refuting; last = self.last } }
    {
        Refuting {
            moves: self.refuting,
            last: self.last,
        }
    }
}

/// Returns whether the legal move `by` gives check.
#[tactic(auto, using(chess_rules::proofs::LegalMoves::may_be_made))]
fn gives_check<R: Rules>(by: Move, board: &mut Board) -> bool
    requires well_formed { IsWellFormed board.old }
    requires legal { is_legal R.rule board.old by ≡ true }
    ensures checks { result ≡ gives_check R.rule board.old by }
    ensures unchanged { board.new ≡ board.old }
{
    let undo = play::<R>(board, by);
    let checks = in_check::<R>(board, board.turn());
    unplay::<R>(board, by, undo);
    checks
}

/// Returns whether a man is a queen or a rook.
fn is_heavy(man: Option<Man>) -> bool
    ensures { result ≡ is_heavy man }
{
    match man {
        Some(man) => man.kind.is(Kind::Queen) || man.kind.is(Kind::Rook),
        None => false,
    }
}

/// Returns whether the legal move `by` gives check or captures a queen or a rook.
fn is_forcing<R: Rules>(by: Move, board: &mut Board) -> bool
    requires well_formed { IsWellFormed board.old }
    requires legal { is_legal R.rule board.old by ≡ true }
    ensures forcing { result ≡ is_forcing R.rule board.old by }
    ensures unchanged { board.new ≡ board.old }
{
    if is_heavy(board.man_at(by.to)) {
        return true;
    }
    gives_check::<R>(by, board)
}

/// Returns whether the legal reply `by` is one of those that are counted.
fn is_counted<R: Rules>(counted: Counted, by: Move, board: &mut Board) -> bool
    requires well_formed { IsWellFormed board.old }
    requires legal { is_legal R.rule board.old by ≡ true }
    ensures counted { result ≡ is_counted R.rule board.old counted by }
    ensures unchanged { board.new ≡ board.old }
{
    match counted {
        Counted::All => true,
        Counted::Forcing => is_forcing::<R>(by, board),
        Counted::Others => !is_forcing::<R>(by, board),
    }
}

/// Returns whether the legal reply `by` is counted, and refutes the first move that led to the board's
/// position.
fn refutes_among<R: Rules, const N: usize>(
    contest: Contest,
    counted: Counted,
    by: Move,
    desk: &mut Desk<R, N>,
) -> bool
    requires ready { IsReady contest desk.old N }
    requires legal { is_legal R.rule desk.old.board by ≡ true }
    ensures refutes { result ≡ refutes_among R.rule contest counted desk.old.board by }
    ensures rest { Keeps desk.old desk.new }
{
    if !is_counted::<R>(counted, by, &mut desk.board) {
        return false;
    }
    refutes::<R, N>(contest, by, desk)
}

/// Returns the number of half-moves under which the replies that refute are killers.
fn half_moves_of_replies(contest: Contest) -> usize {
    contest.stipulation.half_moves().saturating_sub(1)
}

/// Returns the tally after the counted refutations of the first move that led to the board's position.
#[tactic(auto, using(crate::proofs::Loops::counting, crate::proofs::MoveSets::filling, pop_battle::proofs::Boards::after_start))]
fn count_among<R: Rules, const N: usize>(
    contest: Contest,
    counted: Counted,
    tally: Tally,
    desk: &mut Desk<R, N>,
) -> Tally
    requires ready { IsReady contest desk.old N }
    requires few { (tally.count ≤ tally.most) × (tally.most ≤ MOST_REFUTATIONS) }
    requires last { IsRefutedAt R.rule contest desk.old.board tally.last }
    ensures count { result.count ≡ min (tally.count + length (filter (refutes_among R.rule contest
        counted desk.old.board) (moves R.rule desk.old.board))) (tally.most + 1) }
    ensures most { result.most ≡ tally.most }
    ensures kept { (m : Move) → may_hold tally.refuting m ≡ true → may_hold result.refuting m ≡
        true }
    ensures held { result.count ≤ tally.most → HoldAll R.rule desk.old.board (refutes_among R.rule
        contest counted desk.old.board) (Some result.refuting) }
    ensures last { IsRefutedAt R.rule contest desk.old.board result.last }
    ensures rest { Keeps desk.old desk.new }
{
    let mut cursor = None;
    let mut place = MovePlace::start();
    let left = half_moves_of_replies(contest);
    let mut count = tally.count;
    let mut refuting = tally.refuting;
    let mut last = tally.last;
    while let Some(by) = next_move::<R>(&mut cursor, &mut place, &mut desk.board) {
        if refutes_among::<R, N>(contest, counted, by, desk) {
            count += 1;
            refuting = refuting.with(by);
            last = place.number();
            desk.search_state.killers.put(left, place);
            if count > tally.most {
                return Tally {
                    count,
                    most: tally.most,
                    refuting,
                    last,
                };
            }
        }
    }
    Tally {
        count,
        most: tally.most,
        refuting,
        last,
    }
}

/// Returns the refutations of the first move that led to the board's position, counted up to one more than
/// `most`. With two or more moves to come it begins with forcing replies: they leave White few moves.
#[tactic(auto, using(crate::proofs::Counts::counting_parts))]
pub(crate) fn count_refutations<R: Rules, const N: usize>(
    contest: Contest,
    most: u32,
    desk: &mut Desk<R, N>,
) -> Tally
    requires ready { IsReady contest desk.old N }
    requires few { most ≤ MOST_REFUTATIONS }
    ensures count { result.count ≡ min (length (refutations contest.battle (game_in R.rule contest)
        contest.stipulation.n desk.old.board)) (most + 1) }
    ensures held { result.count ≤ most → HoldAll R.rule desk.old.board (refutes R.rule contest
        desk.old.board) (Some result.refuting) }
    ensures last { IsRefutedAt R.rule contest desk.old.board result.last }
    ensures rest { Keeps desk.old desk.new }
{
    let none = Tally {
        count: 0,
        most,
        refuting: MoveSet::none(),
        last: 0,
    };
    if contest.stipulation.half_moves() < FEWEST_FORCING_FIRST {
        return count_among::<R, N>(contest, Counted::All, none, desk);
    }
    let some = count_among::<R, N>(contest, Counted::Forcing, none, desk);
    if some.count > most {
        return some;
    }
    count_among::<R, N>(contest, Counted::Others, some, desk)
}

/// Returns whether the move at `place` is a legal reply to the first move that led to the board's position, and
/// refutes it.
fn refutes_at<R: Rules, const N: usize>(
    contest: Contest,
    place: MovePlace,
    desk: &mut Desk<R, N>,
) -> bool
    requires ready { IsReady contest desk.old N }
    ensures one { result ≡ true → length (filter (refutes R.rule contest desk.old.board)
        (moves_between R.rule desk.old.board (place - 1) place)) ≡ 1 }
    ensures rest { Keeps desk.old desk.new }
{
    let Some(by) = place.legal_move::<R>(&mut desk.board) else {
        return false;
    };
    refutes::<R, N>(contest, by, desk)
}

/// Returns whether the last two replies that refuted other first moves refute this one too, which led to the
/// board's position. `false` says nothing. It tests them only if one refutation is allowed and one move is left
/// after the reply: with more moves left, forcing replies cost less.
#[tactic(auto, using(crate::proofs::Counts::two_refute))]
pub(crate) fn are_two_refutations<R: Rules, const N: usize>(
    contest: Contest,
    most: u32,
    desk: &mut Desk<R, N>,
) -> bool
    requires ready { IsReady contest desk.old N }
    ensures one { result ≡ true → most ≡ 1 }
    ensures two { result ≡ true → 2 ≤ length (refutations contest.battle (game_in R.rule contest)
        contest.stipulation.n desk.old.board) }
    ensures rest { Keeps desk.old desk.new }
{
    if most != 1 || contest.stipulation.half_moves() != ONE_MOVE_AFTER_A_REPLY {
        return false;
    }
    let left = half_moves_of_replies(contest);
    let last = desk.search_state.killers.of(Battle::Direct, left);
    let earlier = desk.search_state.killers.earlier(Battle::Direct, left);
    if last.is(earlier) {
        return false;
    }
    refutes_at::<R, N>(contest, last, desk) && refutes_at::<R, N>(contest, earlier, desk)
}

/// Returns whether the first move that led to the board's position stalemates, which refutes it in a direct
/// mate alone.
fn is_refuted_by_stalemate<R: Rules>(contest: Contest, board: &mut Board) -> bool
    requires well_formed { IsWellFormed board.old }
    ensures refuted { result ≡ is_refuted_by_stalemate contest.battle contest.stipulation.goal
        R.rule board.old }
    ensures unchanged { board.new ≡ board.old }
{
    match (contest.battle, contest.stipulation.goal) {
        (Battle::Direct, Goal::Mate) => is_stalemate::<R>(board),
        (Battle::Direct, Goal::Stalemate) | (Battle::SelfMate, _) => false,
    }
}

/// Returns whether the first move that led to the board's position is a try with at most `most` refutations.
/// A refuted move is no key, so the number of refutations decides, or stalemate where no reply refutes. Sets
/// `refuting` to the refutations of a try.
#[tactic(auto, using(crate::proofs::Contests::trying, crate::proofs::Counts::refuting_is_kept))]
pub(crate) fn is_try<R: Rules, const N: usize>(
    contest: Contest,
    most: u32,
    refuting: &mut Refuting,
    desk: &mut Desk<R, N>,
) -> bool
    requires ready { IsReady contest desk.old N }
    requires few { most ≤ MOST_REFUTATIONS }
    ensures tried { result ≡ is_try contest.battle (game_in R.rule contest) contest.stipulation.n
        (chess_passing R.rule) most desk.old.board }
    ensures refuting { result ≡ true → AreRefuting R.rule contest desk.old.board refuting.new }
    ensures rest { Keeps desk.old desk.new }
{
    if most == 0 {
        return false;
    }
    let tally = count_refutations::<R, N>(contest, most, desk);
    *refuting = tally.refuting_kept();
    if tally.count == 0 {
        return is_refuted_by_stalemate::<R>(contest, &mut desk.board);
    }
    tally.count <= most
}
