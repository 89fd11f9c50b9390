//! Where lines of help play can end: what a walk that prunes knows of the lines from each frame.
ghost use Rattle.std.specs.Prelude.{◌≡◌, ◌+◌, ◌-◌, ◌^◌, ◌<◌, ◌⊎◌, IfSome, Some, true};
ghost use Rattle.arrayvec.specs.ArrayVec.{array_vec_len};
ghost use Rattle.chess_reach.specs.Lines.{HoldsEnds};
ghost use Rattle.chess_rules.specs.Legal.{is_legal};
ghost use Rattle.chess_rules.specs.Play.{position_after};
ghost use Rattle.pop_battle.specs.declared.frame.LineEnds.{LineEnds as KnownEnds};
ghost use Rattle.pop_walk.specs.ties.Walk.{AreEndsAfter, IsKingOff, IsWellFormed, KeepsEnds};

use crate::mode::Mode;
use arrayvec::ArrayVec;
use chess_attacks::words::contains;
use chess_core::{Board, Move, Squares};
use chess_flights::attackers::has_fairy_promotions;
use chess_reach::{MOST_GUARDS, mating_squares};
use chess_rules::{Rules, play, unplay};
use pop_battle::{Frame, LineEnds};
use pop_stipulation::Goal;

/// The fewest half-moves left with which the walk computes where lines can end: with fewer it costs more than
/// it saves.
const FEWEST_COMPUTED: usize = 3;

/// The most men of the mating side with which the walk computes where lines can end.
const MOST_COMPUTED: u32 = MOST_GUARDS as u32;

/// The most men of the mating side in Circe, where captured men are reborn, so that more squares stay in reach.
const MOST_COMPUTED_REBORN: u32 = 3;

/// Returns where lines to this goal can end: on every square if nothing is known.
fn line_ends_or_all(goal: Goal, line_ends: Option<LineEnds>) -> LineEnds
    ensures goal { result.goal ≡ goal }
    ensures line_ends { (line_ends ≡ Some result) ⊎ (result.squares ≡ 2 ^ 64 - 1) }
{
    match line_ends {
        Some(ends) if ends.goal == goal => ends,
        _ => LineEnds {
            goal,
            squares: Squares::MAX,
        },
    }
}

/// Returns whether the king of the side to move is on none of `squares` after a legal move; it stays there
/// while the other side makes the last move.
fn ends_off<R: Rules>(squares: Squares, by: Move, board: &Board) -> bool
    requires well_formed { IsWellFormed board.now }
    requires legal { is_legal R.rule board.now by ≡ true }
    ensures { result ≡ true → IsKingOff R.rule board.now by squares }
{
    let Some(king) = board.king_of(board.turn()) else {
        return false;
    };
    let end = if by.from == king { by.to } else { king };
    !contains(squares, end)
}

/// Returns the part of `squares` on which lines can still end after a legal move of help play, with `left`
/// half-moves left after it.
#[tactic(auto, using(chess_rules::proofs::LegalMoves::may_be_made, chess_rules::proofs::Stays::after_well_formed, crate::proofs::OutOfReach::ends_after))]
fn squares_after<R: Rules>(
    goal: Goal,
    left: usize,
    by: Move,
    squares: Squares,
    board: &mut Board,
) -> Squares
    requires well_formed { IsWellFormed board.old }
    requires legal { is_legal R.rule board.old by ≡ true }
    requires before { HoldsEnds goal R.rule (left + 1) board.old squares }
    ensures unchanged { board.new ≡ board.old }
    ensures after { HoldsEnds goal R.rule left (position_after R.rule board.old by) result }
{
    if left == 1 && ends_off::<R>(squares, by, board) {
        return 0;
    }
    if !may_compute::<R>(left, board) {
        return squares;
    }
    let undo = play::<R>(board, by);
    let result = mating_squares::<R>(board, goal, squares, left);
    unplay::<R>(board, by, undo);
    result
}

/// Returns whether computing where lines can end may pay after a move, with `left` half-moves left: not without
/// enough moves, nor against more than eight men, in Circe three, nor in diagrams with fairy men. For speed only.
fn may_compute<R: Rules>(left: usize, board: &Board) -> bool {
    if left < FEWEST_COMPUTED {
        return false;
    }
    let mating = if left % 2 == 0 {
        board.turn()
    } else {
        board.turn().other()
    };
    let most = if R::captures_are_reborn() {
        MOST_COMPUTED_REBORN
    } else {
        MOST_COMPUTED
    };
    board.side(mating).count_ones() <= most && !has_fairy_promotions(board)
}

/// Returns what the walk knows of the lines after a legal move, with `left` half-moves left after it: nothing
/// unless it prunes help play. `line_ends` is what it knows of the lines with the move.
#[inline(always)]
pub(crate) fn line_ends_after<R: Rules, const PRUNES: bool>(
    mode: Mode,
    left: usize,
    by: Move,
    line_ends: Option<LineEnds>,
    board: &mut Board,
) -> Option<LineEnds>
    requires well_formed { IsWellFormed board.old }
    requires legal { is_legal R.rule board.old by ≡ true }
    requires line_ends { IfSome line_ends
        (λ e. HoldsEnds e.goal R.rule (left + 1) board.old e.squares) }
    ensures unchanged { board.new ≡ board.old }
    ensures ends { IfSome result (λ e. (PRUNES ≡ true)
        × AreEndsAfter R.rule mode left (position_after R.rule board.old by) e) }
{
    if !PRUNES || left == 0 || mode.battle.is_some() {
        return None;
    }
    if line_ends.is_none() && !may_compute::<R>(left, board) {
        return None;
    }
    let before = line_ends_or_all(mode.goal, line_ends);
    let squares = squares_after::<R>(mode.goal, left, by, before.squares, board);
    Some(LineEnds {
        goal: mode.goal,
        squares,
    })
}

/// Returns whether no line reaches the goal: lines can end on no square.
#[inline(always)]
pub(crate) fn is_out_of_reach(ends: Option<LineEnds>) -> bool
    ensures { result ≡ true → (e : KnownEnds) × (ends ≡ Some e) × (e.squares ≡ 0) }
{
    match ends {
        Some(ends) => ends.squares == 0,
        None => false,
    }
}

/// Keeps what is known of the lines from the top frame; nothing changes if nothing is.
#[inline(always)]
pub(crate) fn keep_line_ends<R: Rules, const N: usize>(
    ends: Option<LineEnds>,
    frames: &mut ArrayVec<Frame<R>, N>,
)
    requires { 0 < array_vec_len frames.old }
    ensures { KeepsEnds ends frames.old.items frames.new.items }
{
    if ends.is_some() {
        let last = frames.len() - 1;
        let top = &mut frames.as_mut_slice()[last];
        top.line_ends = ends;
    }
}
