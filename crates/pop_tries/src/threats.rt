//! Threats, and defences against them: Black passes, and White's moves are tried.
ghost use Rattle.std.specs.Prelude.{◌≡◌, ◌+◌, ◌-◌, ◌≤◌, [], filter, true, Some};
ghost use Rattle.pop_tries.specs.ties.MoveSets.{HoldAll};
ghost use Rattle.arrayvec.specs.ArrayVec.{array_vec_len};
ghost use Rattle.chess_core.specs.WellFormed.{IsWellFormed};
ghost use Rattle.chess_core.specs.Position.{Position};
ghost use Rattle.chess_flights.specs.ties.Mates.{is_mating};
ghost use Rattle.chess_rules.specs.Legal.{is_legal, moves};
ghost use Rattle.chess_rules.specs.Play.{position_after};
ghost use Rattle.pop_battle.specs.Chess.{set_start};
ghost use Rattle.pop_stipulation.specs.Stipulations.{half_moves};
ghost use Rattle.pop_walk.specs.Tree.{keeps_win, wins_in};
ghost use Rattle.pop_tries.specs.Events.{chess_passing};
ghost use Rattle.pop_tries.specs.Tries.{has_threat, is_defence, works};
ghost use Rattle.pop_tries.specs.ties.Contests.{wins_within, AreThreats, IsLength, IsReady, IsThreat, HoldsThreats, Keeps, game_in, moves_of};
ghost use Rattle.pop_tries.specs.ties.FewPlaces.{all_meet, are_few, AreAt, ArePlaces};
ghost use Rattle.chess_rules.specs.ties.Places.{all_triples, triple_at};

use crate::contest::Contest;
use crate::desk::Desk;
use crate::few_places::FewPlaces;
use crate::move_set::MoveSet;
use chess_core::{Board, Move, Square};
use chess_mates::mate_cursor;
use chess_rules::{MovePlace, Rules, in_check, play, unplay};
use pop_battle::chess::{is_for_mate, next_move, reaches_goal, turn_over};
use pop_battle::value_of;
use pop_walk::mode::Mode;
use pop_walk::walk::walk_length;

/// White's threats after a first move.
#[derive(Clone, Copy)]
pub(crate) struct Threat {
    /// The least number of half-moves within which they win.
    pub length: usize,
    /// A set that holds the threats.
    pub moves: MoveSet,
    /// Where they are in the order of moves, if they are few.
    pub places: FewPlaces,
}

/// The winning moves of a position: a set that holds them, and their places, if they are few.
#[derive(Clone, Copy)]
struct Winners {
    moves: MoveSet,
    places: FewPlaces,
}

/// Lets the side to move pass. Returns the en passant square, which `unpass` needs.
pub(crate) fn pass(board: &mut Board) -> Option<Square>
    ensures board { board.new ≡ set_start board.old }
    ensures crossed { result ≡ board.old.crossed }
{
    let crossed = board.crossed();
    turn_over(board);
    crossed
}

/// Takes back that a side has passed; `crossed` is what `pass` returned.
#[tactic(auto, using(crate::proofs::Contests::unpassed))]
pub(crate) fn unpass(board: &mut Board, crossed: Option<Square>)
    ensures before { (q : Position) → board.old ≡ set_start q → crossed ≡ q.crossed
        → board.new ≡ q }
{
    board.set_turn(board.turn().other());
    board.set_crossed(crossed);
}

/// Returns whether White wins the board's position with one move less than the whole contest has.
#[tactic(auto, using(crate::proofs::Contests::passing))]
fn wins_with_one_less<R: Rules, const N: usize>(contest: Contest, desk: &mut Desk<R, N>) -> bool
    requires ready { IsReady contest desk.old N }
    ensures wins { result ≡ wins_in contest.battle (game_in R.rule contest)
        (contest.stipulation.n - 1) desk.old.board }
    ensures rest { Keeps desk.old desk.new }
{
    let half_moves = contest.stipulation.half_moves();
    if half_moves < 2 || reaches_goal::<R>(contest.stipulation.goal, &mut desk.board) {
        return false;
    }
    value_of::<R, N>(
        contest.aim(),
        half_moves - 2,
        &mut desk.board,
        &mut desk.frames,
        &mut desk.search_state,
    )
}

/// Returns whether White threatens after the first move that led to the board's position.
#[tactic(auto, using(crate::proofs::Contests::passed_well_formed))]
pub(crate) fn has_threat<R: Rules, const N: usize>(contest: Contest, desk: &mut Desk<R, N>) -> bool
    requires ready { IsReady contest desk.old N }
    ensures threat { result ≡ has_threat contest.battle (game_in R.rule contest)
        contest.stipulation.n (chess_passing R.rule) desk.old.board }
    ensures rest { Keeps desk.old desk.new }
{
    if in_check::<R>(&desk.board, desk.board.turn()) {
        return false;
    }
    let crossed = pass(&mut desk.board);
    let wins = wins_with_one_less::<R, N>(contest, desk);
    unpass(&mut desk.board, crossed);
    wins
}

/// Returns the least number of half-moves within which White's threats win after the first move that led to
/// the board's position, or `None` if White threatens nothing.
#[tactic(auto, using(crate::proofs::Contests::passed_well_formed))]
pub(crate) fn threat_length<R: Rules, const N: usize>(
    contest: Contest,
    desk: &mut Desk<R, N>,
) -> Option<usize>
    requires ready { IsReady contest desk.old N }
    ensures threat { IsThreat R.rule contest desk.old.board result }
    ensures rest { Keeps desk.old desk.new }
{
    if !has_threat::<R, N>(contest, desk) {
        return None;
    }
    let mode = Mode {
        battle: Some(contest.battle),
        goal: contest.stipulation.goal,
        variation: false,
    };
    let left = contest.stipulation.half_moves().saturating_sub(2);
    let crossed = pass(&mut desk.board);
    let length = walk_length::<R, N>(
        mode,
        left,
        &mut desk.board,
        &mut desk.frames,
        &mut desk.search_state,
    );
    unpass(&mut desk.board, crossed);
    Some(length)
}

/// Returns whether White wins within `length` half-moves that begin with the legal move `by`.
#[tactic(auto, using(chess_rules::proofs::LegalMoves::may_be_made, crate::proofs::Contests::kept_by_value))]
fn wins_by<R: Rules, const N: usize>(
    contest: Contest,
    length: usize,
    by: Move,
    desk: &mut Desk<R, N>,
) -> bool
    requires length { IsLength contest length }
    requires well_formed { IsWellFormed desk.old.board }
    requires legal { is_legal R.rule desk.old.board by ≡ true }
    requires room { array_vec_len desk.old.frames + length ≤ N }
    ensures wins { result ≡ keeps_win contest.battle (game_in R.rule contest) (moves_of length)
        (position_after R.rule desk.old.board by) }
    ensures rest { Keeps desk.old desk.new }
{
    let undo = play::<R>(&mut desk.board, by);
    let left = length.saturating_sub(1);
    let wins = value_of::<R, N>(
        contest.aim(),
        left,
        &mut desk.board,
        &mut desk.frames,
        &mut desk.search_state,
    );
    unplay::<R>(&mut desk.board, by, undo);
    wins
}

/// Returns the moves with which White, to move, mates.
#[tactic(auto, using(crate::proofs::FewPlaces::noting))]
fn mating_moves<R: Rules>(board: &mut Board) -> Winners
    requires well_formed { IsWellFormed board.old }
    ensures held { HoldAll R.rule board.old (is_mating R.rule board.old) (Some result.moves) }
    ensures places { AreAt result.places (filter (is_mating R.rule board.old)
        (moves R.rule board.old)) [] }
    ensures unchanged { board.new ≡ board.old }
{
    let mut mates = mate_cursor::<R>(board);
    let mut moves = MoveSet::none();
    let mut places = FewPlaces::Empty;
    while let Some(by) = mates.next(board) {
        moves = moves.with(by);
        places = places.with(mates.place().number());
    }
    Winners { moves, places }
}

/// Returns the moves with which White, to move, wins within `length` half-moves.
fn winning_moves<R: Rules, const N: usize>(
    contest: Contest,
    length: usize,
    desk: &mut Desk<R, N>,
) -> Winners
    requires length { IsLength contest length }
    requires well_formed { IsWellFormed desk.old.board }
    requires room { array_vec_len desk.old.frames + length ≤ N }
    ensures held { HoldAll R.rule desk.old.board (wins_within R.rule contest length desk.old.board)
        (Some result.moves) }
    ensures places { AreAt result.places (filter (wins_within R.rule contest length desk.old.board)
        (moves R.rule desk.old.board)) [] }
    ensures rest { Keeps desk.old desk.new }
{
    if length == 1 && is_for_mate(contest.stipulation.goal) {
        return mating_moves::<R>(&mut desk.board);
    }
    tested_moves::<R, N>(contest, length, desk)
}

/// Returns the moves with which White, to move, wins within `length` half-moves, by testing each.
#[tactic(auto, using(crate::proofs::MoveSets::filling, crate::proofs::FewPlaces::noting, pop_battle::proofs::Boards::after_start))]
fn tested_moves<R: Rules, const N: usize>(
    contest: Contest,
    length: usize,
    desk: &mut Desk<R, N>,
) -> Winners
    requires length { IsLength contest length }
    requires well_formed { IsWellFormed desk.old.board }
    requires room { array_vec_len desk.old.frames + length ≤ N }
    ensures held { HoldAll R.rule desk.old.board (wins_within R.rule contest length desk.old.board)
        (Some result.moves) }
    ensures places { AreAt result.places (filter (wins_within R.rule contest length desk.old.board)
        (moves R.rule desk.old.board)) [] }
    ensures rest { Keeps desk.old desk.new }
{
    let mut cursor = None;
    let mut place = MovePlace::start();
    let mut moves = MoveSet::none();
    let mut places = FewPlaces::Empty;
    while let Some(by) = next_move::<R>(&mut cursor, &mut place, &mut desk.board) {
        if wins_by::<R, N>(contest, length, by, desk) {
            moves = moves.with(by);
            places = places.with(place.number());
        }
    }
    Winners { moves, places }
}

/// Returns what is known of White's threats after the first move that led to the board's position, or `None` if
/// White threatens nothing.
#[tactic(auto, using(crate::proofs::Contests::passed_well_formed))]
pub(crate) fn find_threat<R: Rules, const N: usize>(
    contest: Contest,
    desk: &mut Desk<R, N>,
) -> Option<Threat>
    requires ready { IsReady contest desk.old N }
    ensures threat { AreThreats R.rule contest desk.old.board result }
    ensures rest { Keeps desk.old desk.new }
{
    let found = threat_length::<R, N>(contest, desk);
    let Some(length) = found else {
        return None;
    };
    let crossed = pass(&mut desk.board);
    let winners = winning_moves::<R, N>(contest, length, desk);
    unpass(&mut desk.board, crossed);
    Some(Threat {
        length,
        moves: winners.moves,
        places: winners.places,
    })
}

/// Returns whether the move at `place` is legal in the board's position and wins within `length` half-moves.
#[tactic(auto, using(chess_rules::proofs::Between::stands_on, chess_rules::proofs::Between::stands_off))]
fn works<R: Rules, const N: usize>(
    contest: Contest,
    length: usize,
    place: MovePlace,
    desk: &mut Desk<R, N>,
) -> bool
    requires length { IsLength contest length }
    requires place { (1 ≤ place) × (place ≤ all_triples) }
    requires well_formed { IsWellFormed desk.old.board }
    requires room { array_vec_len desk.old.frames + length ≤ N }
    ensures works { result ≡ works contest.battle (game_in R.rule contest) contest.stipulation.n
        (chess_passing R.rule) (moves_of length) desk.old.board (triple_at (place - 1)) }
    ensures rest { Keeps desk.old desk.new }
{
    match place.legal_move::<R>(&mut desk.board) {
        Some(by) => wins_by::<R, N>(contest, length, by, desk),
        None => false,
    }
}

/// Returns whether White, to move, threatened the legal move `by`: whether it wins within the length of the
/// threats, which are known.
#[tactic(auto, using(crate::proofs::MoveSets::not_held))]
fn is_threat<R: Rules, const N: usize>(
    contest: Contest,
    threat: Threat,
    by: Move,
    desk: &mut Desk<R, N>,
) -> bool
    requires length { IsLength contest threat.length }
    requires well_formed { IsWellFormed desk.old.board }
    requires held { HoldAll R.rule desk.old.board (wins_within R.rule contest threat.length
        desk.old.board) (Some threat.moves) }
    requires legal { is_legal R.rule desk.old.board by ≡ true }
    requires room { array_vec_len desk.old.frames + threat.length ≤ N }
    ensures wins { result ≡ keeps_win contest.battle (game_in R.rule contest) (moves_of
        threat.length) (position_after R.rule desk.old.board by) }
    ensures rest { Keeps desk.old desk.new }
{
    if !threat.moves.may_hold(by) {
        return false;
    }
    wins_by::<R, N>(contest, threat.length, by, desk)
}

/// Returns whether all threats, which are few, work in the board's position.
fn all_work<R: Rules, const N: usize>(
    contest: Contest,
    threat: Threat,
    desk: &mut Desk<R, N>,
) -> bool
    requires length { IsLength contest threat.length }
    requires places { ArePlaces threat.places }
    requires well_formed { IsWellFormed desk.old.board }
    requires room { array_vec_len desk.old.frames + threat.length ≤ N }
    ensures works { result ≡ all_meet (works contest.battle (game_in R.rule contest)
        contest.stipulation.n (chess_passing R.rule) (moves_of threat.length) desk.old.board)
        threat.places }
    ensures rest { Keeps desk.old desk.new }
{
    let length = threat.length;
    match threat.places {
        FewPlaces::Empty | FewPlaces::Many => true,
        FewPlaces::One { place } => { works::<R, N>(contest, length, MovePlace::at(place), desk) }
        FewPlaces::Two { first, second } => {
            works::<R, N>(contest, length, MovePlace::at(first), desk)
                && works::<R, N>(contest, length, MovePlace::at(second), desk)
        }
    }
}

/// Returns whether the legal reply `by` is a defence, if the threats are few.
#[tactic(auto, using(chess_rules::proofs::LegalMoves::may_be_made, crate::proofs::FewPlaces::places_of))]
fn stops_few<R: Rules, const N: usize>(
    contest: Contest,
    threat: Threat,
    by: Move,
    desk: &mut Desk<R, N>,
) -> bool
    requires threat { HoldsThreats R.rule contest desk.old.board threat }
    requires few { are_few threat.places ≡ true }
    requires well_formed { IsWellFormed desk.old.board }
    requires legal { is_legal R.rule desk.old.board by ≡ true }
    requires room { array_vec_len desk.old.frames + half_moves contest.stipulation ≤ N }
    ensures defence { result ≡ is_defence contest.battle (game_in R.rule contest)
        contest.stipulation.n (chess_passing R.rule) desk.old.board by }
    ensures rest { Keeps desk.old desk.new }
{
    let undo = play::<R>(&mut desk.board, by);
    let still = all_work::<R, N>(contest, threat, desk);
    unplay::<R>(&mut desk.board, by, undo);
    !still
}

/// Returns whether the legal reply `by` to the first move that led to the board's position is a defence.
/// `threat` is what is known of White's threats, or `None` if White threatens nothing.
pub(crate) fn is_defence<R: Rules, const N: usize>(
    contest: Contest,
    threat: Option<Threat>,
    by: Move,
    desk: &mut Desk<R, N>,
) -> bool
    requires threat { AreThreats R.rule contest desk.old.board threat }
    requires well_formed { IsWellFormed desk.old.board }
    requires legal { is_legal R.rule desk.old.board by ≡ true }
    requires room { array_vec_len desk.old.frames + half_moves contest.stipulation ≤ N }
    ensures defence { result ≡ is_defence contest.battle (game_in R.rule contest)
        contest.stipulation.n (chess_passing R.rule) desk.old.board by }
    ensures rest { Keeps desk.old desk.new }
{
    let Some(threats) = threat else {
        return true;
    };
    if threats.places.are_few() {
        return stops_few::<R, N>(contest, threats, by, desk);
    }
    stops_one::<R, N>(contest, threats, by, desk)
}

/// Returns whether the legal reply `by` to the first move that led to the board's position is a defence.
/// Looks for each threat again.
#[tactic(auto, using(crate::proofs::Loops::looking, crate::proofs::Contests::defending, pop_battle::proofs::Boards::after_start))]
fn stops_one<R: Rules, const N: usize>(
    contest: Contest,
    threat: Threat,
    by: Move,
    desk: &mut Desk<R, N>,
) -> bool
    requires threat { HoldsThreats R.rule contest desk.old.board threat }
    requires well_formed { IsWellFormed desk.old.board }
    requires legal { is_legal R.rule desk.old.board by ≡ true }
    requires room { array_vec_len desk.old.frames + half_moves contest.stipulation ≤ N }
    ensures defence { result ≡ is_defence contest.battle (game_in R.rule contest)
        contest.stipulation.n (chess_passing R.rule) desk.old.board by }
    ensures rest { Keeps desk.old desk.new }
{
    let mut cursor = None;
    let mut place = MovePlace::start();
    let mut crossed = pass(&mut desk.board);
    while let Some(tried) = next_move::<R>(&mut cursor, &mut place, &mut desk.board) {
        if is_threat::<R, N>(contest, threat, tried, desk) {
            unpass(&mut desk.board, crossed);
            let undo = play::<R>(&mut desk.board, by);
            let still = works::<R, N>(contest, threat.length, place, desk);
            unplay::<R>(&mut desk.board, by, undo);
            if !still {
                return true;
            }
            crossed = pass(&mut desk.board);
        }
    }
    unpass(&mut desk.board, crossed);
    false
}
