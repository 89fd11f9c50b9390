//! Counts lines of moves.
ghost use Rattle.std.specs.Prelude.{◌≡◌};
ghost use Rattle.chess_core.specs.Diagrams.{position_of};
ghost use Rattle.chess_core.specs.WellFormed.{IsWellFormed};

use crate::plain::Rule;
use crate::probe::is_same;
use crate::setup::posed;
use chess_core::{Board, Diagram, Move};
use chess_rules::unplayed::{blocker_squares, cannot_expose, is_simple};
use chess_rules::{Circe, Madrasi, Moves, Orthodox, Rules, play, unplay};

// The counts of a walk along all lines of moves.
#[derive(Clone, Copy)]
pub(crate) struct Walk {
    // The number of lines of full length.
    pub(crate) lines: u64,
    // The number of last moves that must be played to know that they are legal.
    pub(crate) played: u64,
    // The number of moves after which the board differed once they were taken back.
    pub(crate) changed: u64,
}

// Returns whether `LegalCursor` knows without playing the move that it is legal.
fn is_known_legal<R: Rules>(board: &Board, m: Move) -> bool {
    let squares = blocker_squares(board, board.turn());
    if cannot_expose::<R>(board, board.turn(), squares, m) {
        return true;
    }
    let captures = board.man_at(m.to).is_some() || board.crossed() == Some(m.to);
    match board.man_at(m.from) {
        Some(man) => is_simple::<R>(man, m, captures),
        None => false,
    }
}

// Walks along all lines of `length` legal moves from the diagram's position, under the rules `R`.
fn walk_under<R: Rules>(diagram: &Diagram, length: u32) -> Walk
    requires { IsWellFormed (position_of diagram.now) }
{
    let mut board = Board::of(diagram);
    walk_on::<R>(&mut board, length)
}

// Walks along all lines of `length` legal moves from a position.
pub(crate) fn walk_lines(rule: Rule, position: &str, length: u32) -> Option<Walk> {
    let diagram = posed(position)?;
    Some(match rule {
        Rule::Orthodox => walk_under::<Orthodox>(&diagram, length),
        Rule::Circe => walk_under::<Circe>(&diagram, length),
        Rule::Madrasi => walk_under::<Madrasi>(&diagram, length),
    })
}

// Walks along all lines of `length` legal moves from the board's position.
#[tactic(auto, using(chess_rules::proofs::LegalMoves::may_be_made))]
fn walk_on<R: Rules>(board: &mut Board, length: u32) -> Walk
    requires { IsWellFormed board.old }
    ensures { board.new ≡ board.old }
{
    if length == 0 {
        return Walk {
            lines: 1,
            played: 0,
            changed: 0,
        };
    }
    let before = *board;
    let mut cursor = Moves::<R>::start();
    let mut lines = 0u64;
    let mut played = 0u64;
    let mut changed = 0u64;
    while let Some(m) = cursor.next(board) {
        if length == 1 && !is_known_legal::<R>(board, m) {
            played = played.saturating_add(1);
        }
        let undo = play::<R>(board, m);
        let below = walk_on::<R>(board, length - 1);
        unplay::<R>(board, m, undo);
        lines = lines.saturating_add(below.lines);
        played = played.saturating_add(below.played);
        changed = changed.saturating_add(below.changed);
        if !is_same(board, &before) {
            changed = changed.saturating_add(1);
        }
    }
    Walk {
        lines,
        played,
        changed,
    }
}
