//! Compares the chess crates with the plain rules, position by position along lines of moves.
ghost use Rattle.std.specs.Prelude.{◌≡◌};
ghost use Rattle.chess_core.specs.Diagrams.{position_of};
ghost use Rattle.chess_core.specs.WellFormed.{IsWellFormed};

use crate::compared::first_difference;
use crate::plain::Rule;
use crate::setup::posed;
use chess_core::{Board, Diagram};
use chess_rules::{Circe, Madrasi, Moves, Orthodox, Rules, play, unplay};

// The counts of a comparison.
#[derive(Clone, Copy)]
pub(crate) struct Tally {
    // The number of positions compared.
    pub(crate) positions: u64,
    // The number of positions where the plain rules say otherwise.
    pub(crate) unlike: u64,
}

// Compares the diagram's position and all positions fewer than `length` moves away, under the rules `R`.
fn compare_under<R: Rules>(diagram: &Diagram, rule: Rule, length: u32) -> Tally
    requires { IsWellFormed (position_of diagram.now) }
{
    let mut board = Board::of(diagram);
    compare_on::<R>(&mut board, rule, length)
}

// Compares a position and all positions fewer than `length` moves away.
pub(crate) fn compare(rule: Rule, position: &str, length: u32) -> Option<Tally> {
    let diagram = posed(position)?;
    Some(match rule {
        Rule::Orthodox => compare_under::<Orthodox>(&diagram, rule, length),
        Rule::Circe => compare_under::<Circe>(&diagram, rule, length),
        Rule::Madrasi => compare_under::<Madrasi>(&diagram, rule, length),
    })
}

// Compares the board's position and all positions fewer than `length` moves away.
#[tactic(auto, using(chess_rules::proofs::LegalMoves::may_be_made))]
fn compare_on<R: Rules>(board: &mut Board, rule: Rule, length: u32) -> Tally
    requires { IsWellFormed board.old }
    ensures { board.new ≡ board.old }
{
    let mut positions = 1u64;
    let mut unlike = if first_difference::<R>(board, rule).is_none() {
        0u64
    } else {
        1
    };
    if length <= 1 {
        return Tally { positions, unlike };
    }
    let mut cursor = Moves::<R>::start();
    while let Some(m) = cursor.next(board) {
        let undo = play::<R>(board, m);
        let below = compare_on::<R>(board, rule, length - 1);
        unplay::<R>(board, m, undo);
        positions = positions.saturating_add(below.positions);
        unlike = unlike.saturating_add(below.unlike);
    }
    Tally { positions, unlike }
}
