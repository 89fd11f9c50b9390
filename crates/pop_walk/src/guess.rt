//! Guesses of killers, the moves that will probably decide a test, from tests with fewer half-moves. They
//! affect speed only: no contract says which killers are guessed.
ghost use Rattle.std.specs.Prelude.{◌≡◌, ◌≤◌, is_some, not, false, true, None, Some};
ghost use Rattle.chess_core.specs.WellFormed.{IsWellFormed};
ghost use Rattle.chess_rules.specs.Legal.{is_legal};
ghost use Rattle.chess_rules.specs.Play.{position_after};
ghost use Rattle.pop_battle.specs.Chess.{chess};
ghost use Rattle.pop_stipulation.specs.declared.stipulation.Battle.TheVariants.{SelfMate};
ghost use Rattle.pop_battle.specs.ties.Values.{value};

use crate::mode::Mode;
use arrayvec::ArrayVec;
use chess_core::{Board, Move};
use chess_rules::{MovePlace, Rules, play};
use pop_battle::chess::next_move;
use pop_battle::{Aim, Frame, Killers, SearchState, value_of};
use pop_stipulation::{Battle, MOST_FRAMES, MOST_HALF_MOVES};
use std::mem;

/// Returns whether to guess killers for a test with `left` half-moves: in a direct mate with Black to move.
/// Selfmates keep no killers, and help play has no tests.
fn wants_guess(battle: Option<Battle>, left: usize) -> bool
    ensures help { battle ≡ None → result ≡ false }
    ensures selfmate { battle ≡ Some SelfMate → result ≡ false }
{
    battle == Some(Battle::Direct) && left % 2 == 0
}

/// Returns whether White reaches the aim within `left` half-moves, and how many positions were tried to
/// find out. Tests a copy of the board, and updates the killers.
fn cost_of_test<R: Rules>(
    aim: Aim,
    left: usize,
    board: &Board,
    killers: &mut Killers,
) -> (bool, u64)
    requires well_formed { IsWellFormed board.now }
    requires few { left ≤ MOST_HALF_MOVES }
    ensures value { result.0 ≡ value aim.battle (chess aim.goal R.rule) left board.now }
{
    let mut copy = *board;
    let mut frames = ArrayVec::<Frame<R>, MOST_FRAMES>::new();
    let mut search_state = SearchState::with(mem::replace(killers, Killers::none()));
    let wins = value_of::<R, MOST_FRAMES>(aim, left, &mut copy, &mut frames, &mut search_state);
    let SearchState {
        killers: found,
        opened,
        ..
    } = search_state;
    *killers = found;
    (wins, opened)
}

/// Returns how many positions were tried to find that the defence `by` holds, or `None` if it doesn't
/// hold. `left` is the number of half-moves left after the defence.
#[tactic(auto, using(chess_rules::proofs::LegalMoves::may_be_made))]
fn cost_of_defence<R: Rules>(
    aim: Aim,
    left: usize,
    by: Move,
    board: &Board,
    killers: &mut Killers,
) -> Option<u64>
    requires well_formed { IsWellFormed board.now }
    requires legal { is_legal R.rule board.now by ≡ true }
    requires few { left ≤ MOST_HALF_MOVES }
    ensures holds { is_some result ≡ not (value aim.battle (chess aim.goal R.rule) left
        (position_after R.rule board.now by)) }
{
    let mut copy = *board;
    let _undo = play::<R>(&mut copy, by);
    let (wins, opened) = cost_of_test::<R>(aim, left, &copy, killers);
    if wins { None } else { Some(opened) }
}

/// Returns the place of the cheapest defence, the one found to hold with the fewest positions tried, or
/// `None` if no defence holds. `left` is the number of half-moves left after a defence.
fn cheapest_defence<R: Rules>(
    aim: Aim,
    left: usize,
    board: &Board,
    killers: &mut Killers,
) -> Option<MovePlace>
    requires well_formed { IsWellFormed board.now }
    requires few { left ≤ MOST_HALF_MOVES }
{
    let mut copy = *board;
    let mut cursor = None;
    let mut place = MovePlace::start();
    let mut best = None;
    let mut least = u64::MAX;
    while let Some(by) = next_move::<R>(&mut cursor, &mut place, &mut copy) {
        if let Some(cost) = cost_of_defence::<R>(aim, left, by, &copy, killers) {
            if cost < least {
                least = cost;
                best = Some(place);
            }
        }
    }
    best
}

/// Makes the cheapest defence, if any holds, the killer for `left` half-moves.
fn choose_killer<R: Rules>(aim: Aim, left: usize, board: &Board, killers: &mut Killers)
    requires well_formed { IsWellFormed board.now }
    requires few { left ≤ MOST_HALF_MOVES }
{
    if let Some(place) = cheapest_defence::<R>(aim, left.saturating_sub(1), board, killers) {
        killers.put(left, place);
    }
}

/// Guesses the killers for the test of a direct mate's move, with `left` half-moves left after it, by
/// tests of rising length. After each test but the longest, the cheapest defence becomes the killer: the
/// first defence found may take many positions to confirm, and more still with more half-moves left. In
/// help play and selfmates the killers stay unchanged.
#[tactic(auto, using(chess_rules::proofs::LegalMoves::may_be_made))]
pub(crate) fn guess_killers<R: Rules>(
    mode: Mode,
    left: usize,
    by: Move,
    board: &Board,
    killers: &mut Killers,
)
    requires well_formed { IsWellFormed board.now }
    requires legal { is_legal R.rule board.now by ≡ true }
    requires few { left ≤ MOST_HALF_MOVES }
    ensures help { mode.battle ≡ None → killers.new ≡ killers.old }
    ensures selfmate { mode.battle ≡ Some SelfMate → killers.new ≡ killers.old }
{
    if !wants_guess(mode.battle, left) {
        return;
    }
    let aim = Aim {
        battle: Battle::Direct,
        goal: mode.goal,
    };
    let mut copy = *board;
    let _undo = play::<R>(&mut copy, by);
    for half in 1..left / 2 {
        let tried = 2 * half;
        let _cost = cost_of_test::<R>(aim, tried, &copy, killers);
        if tried + 4 <= left {
            choose_killer::<R>(aim, tried, &copy, killers);
        }
        killers.lengthen();
    }
}
