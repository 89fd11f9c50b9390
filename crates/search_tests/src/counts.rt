//! Plain counts of the positions that a search tries: by recursion over copied positions.
ghost use Rattle.chess_core.specs.WellFormed.{IsWellFormed};

use crate::plain::{can_move, first_diagram, is_goal_reached};
use crate::row::half_moves;
use chess_core::Board;
use chess_rules::{Circe, Madrasi, Moves, Orthodox, Rules, in_check, play};
use pop_input::{Condition, Problem};
use pop_stipulation::{Form, Goal};

/// Returns the number of lists of fewer than `half_moves` moves, each legal when it is played.
#[tactic(auto, using(chess_rules::proofs::LegalMoves::may_be_made))]
fn walk_count<R: Rules>(board: &Board, half_moves: usize) -> u64
    requires { IsWellFormed board.now }
{
    if half_moves == 0 {
        return 0;
    }
    let mut count = 1u64;
    let mut here = *board;
    let mut moves = Moves::<R>::start();
    while let Some(by) = moves.next(&mut here) {
        let mut there = here;
        let _undo = play::<R>(&mut there, by);
        count = count.saturating_add(walk_count::<R>(&there, half_moves - 1));
    }
    count
}

/// Returns the walk count of a phase; 0 if it isn't possible. Set play has one half-move less than the
/// play.
fn phase_walk<R: Rules>(problem: &Problem, in_set: bool) -> u64 {
    let diagram = first_diagram(problem, in_set);
    if !diagram.is_well_formed() {
        return 0;
    }
    let board = Board::of(&diagram);
    if !in_set {
        return walk_count::<R>(&board, half_moves(problem));
    }
    if in_check::<R>(&board, board.turn().other()) {
        return 0;
    }
    walk_count::<R>(&board, half_moves(problem).saturating_sub(1))
}

/// Returns the walk count of a phase under the rules of the problem's condition.
pub(crate) fn walk_of(problem: &Problem, in_set: bool) -> u64 {
    match problem.condition() {
        None => phase_walk::<Orthodox>(problem, in_set),
        Some(Condition::Circe) => phase_walk::<Circe>(problem, in_set),
        Some(Condition::Madrasi) => phase_walk::<Madrasi>(problem, in_set),
    }
}

/// A battle: its goal, and whether it is a selfmate.
#[derive(Clone, Copy)]
struct Battle {
    goal: Goal,
    selfmate: bool,
}

/// Whether White reaches the goal, and the number of positions in a smallest tree that shows it.
#[derive(Clone, Copy)]
struct Shown {
    wins: bool,
    positions: u64,
}

/// Returns whether White reaches the goal within `left` half-moves, and the size of a smallest tree that
/// shows it. At each position of the tree, if one move decides, the tree goes on only after the deciding
/// move with the smallest tree, otherwise after all moves. If the goal is reached or no move is left, the
/// tree is empty.
#[tactic(auto, using(chess_rules::proofs::LegalMoves::may_be_made))]
fn smallest<R: Rules>(battle: Battle, board: &Board, left: usize) -> Shown
    requires { IsWellFormed board.now }
{
    if left % 2 == 0 && is_goal_reached::<R>(battle.goal, board) {
        return Shown {
            wins: true,
            positions: 0,
        };
    }
    if left == 0 || !can_move::<R>(board) {
        return Shown {
            wins: false,
            positions: 0,
        };
    }
    let whites = (left % 2 == 1) != battle.selfmate;
    let mut decided = false;
    let mut least = u64::MAX;
    let mut all = 0u64;
    let mut here = *board;
    let mut moves = Moves::<R>::start();
    while let Some(by) = moves.next(&mut here) {
        let mut there = here;
        let _undo = play::<R>(&mut there, by);
        let after = smallest::<R>(battle, &there, left - 1);
        all = all.saturating_add(after.positions);
        if after.wins == whites {
            decided = true;
            least = least.min(after.positions);
        }
    }
    Shown {
        wins: decided == whites,
        positions: (if decided { least } else { all }).saturating_add(1),
    }
}

/// The result of a search for the keys of a battle.
#[derive(Clone, Copy, Default)]
pub(crate) struct Tried {
    /// The number of keys.
    pub keys: u32,
    /// The least number of positions that a search must try: the first, and all positions in a smallest
    /// tree for each first move.
    pub positions: u64,
}

#[tactic(auto, using(chess_rules::proofs::LegalMoves::may_be_made))]
fn try_all<R: Rules>(problem: &Problem) -> Tried {
    let diagram = problem.diagram();
    let mut tried = Tried {
        keys: 0,
        positions: 1,
    };
    if !diagram.is_well_formed() {
        return tried;
    }
    let battle = Battle {
        goal: problem.stipulation().goal,
        selfmate: problem.stipulation().form == Form::SelfMate,
    };
    let left = half_moves(problem).saturating_sub(1);
    let mut here = Board::of(&diagram);
    let mut moves = Moves::<R>::start();
    while let Some(by) = moves.next(&mut here) {
        let mut there = here;
        let _undo = play::<R>(&mut there, by);
        let after = smallest::<R>(battle, &there, left);
        tried.positions = tried.positions.saturating_add(after.positions);
        if after.wins {
            tried.keys = tried.keys.saturating_add(1);
        }
    }
    tried
}

/// Returns the keys, and the least number of positions to try, under the rules of the problem's condition.
pub(crate) fn fewest_tried(problem: &Problem) -> Tried {
    match problem.condition() {
        None => try_all::<Orthodox>(problem),
        Some(Condition::Circe) => try_all::<Circe>(problem),
        Some(Condition::Madrasi) => try_all::<Madrasi>(problem),
    }
}
