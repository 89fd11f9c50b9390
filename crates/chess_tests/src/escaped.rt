//! Positions before a defence. If `KeptFlights` removes a move of a man, the man must have a move after
//! which no reply mates, by the plain rules.
ghost use Rattle.std.specs.Prelude.{◌≡◌};
ghost use Rattle.chess_core.specs.Diagrams.{position_of};
ghost use Rattle.chess_core.specs.WellFormed.{IsWellFormed};

use crate::defended::is_followed_by_mate;
use crate::draw::Draw;
use crate::family::Family;
use crate::plain::{Plain, Rule};
use chess_attacks::words::only;
use chess_core::{Board, Diagram, Square};
use chess_rules::{Circe, LegalCursor, Madrasi, Orthodox, Rules};
use chess_threats::{KeptFlights, Threats};

// What the filter reports of the men in the positions of a family.
#[derive(Clone, Copy)]
pub(crate) struct Defended {
    // The number of the first position in which the filter removes a move of a man that has no safe move.
    pub(crate) wrong: Option<u64>,
    // The number of men with a safe move of which the filter removes a move.
    pub(crate) removed: u32,
}

// Tests each man of the side to move in `count` positions of the family under the rule.
pub(crate) fn kept_flights(rule: Rule, family: Family, count: u64) -> Defended {
    let mut defended = Defended {
        wrong: None,
        removed: 0,
    };
    for number in 0..count {
        let diagram = family.diagram(&mut Draw::of(number));
        if diagram.is_well_formed() {
            for from in 0..64u8 {
                match said_by(rule, &diagram, Square::numbered(from)) {
                    Said::Nothing => {}
                    Said::Right => defended.removed = defended.removed.saturating_add(1),
                    Said::Wrong => defended.wrong = Some(number),
                }
            }
        }
        if defended.wrong.is_some() {
            return defended;
        }
    }
    defended
}

// What the filter reports of one man: nothing, or that it has a safe move, rightly or wrongly.
#[derive(Clone, Copy, PartialEq, Eq)]
enum Said {
    Nothing,
    Right,
    Wrong,
}

// Returns what the filter reports of the man on `from`.
fn said_by(rule: Rule, diagram: &Diagram, from: Square) -> Said
    requires { IsWellFormed (position_of diagram.now) }
{
    match rule {
        Rule::Orthodox => said_of::<Orthodox>(rule, diagram, from),
        Rule::Circe => said_of::<Circe>(rule, diagram, from),
        Rule::Madrasi => said_of::<Madrasi>(rule, diagram, from),
    }
}

// Returns what the filter reports of the man on `from` under the rules `R`.
fn said_of<R: Rules>(rule: Rule, diagram: &Diagram, from: Square) -> Said
    requires { IsWellFormed (position_of diagram.now) }
{
    let mut board = Board::of(diagram);
    let plain = Plain::of(&board);
    let Some(king) = board.king_of(board.turn()) else {
        return Said::Nothing;
    };
    let mut flights = KeptFlights::of::<R>(&board, king);
    let cursor = LegalCursor::<R>::of(&board);
    if !cursor.has_removed(&mut flights, &mut board, only(Some(from))) {
        return Said::Nothing;
    }
    if has_safe_move(rule, &plain, from) {
        Said::Right
    } else {
        Said::Wrong
    }
}

// Returns whether the man on the square has a legal move that no mate follows, by the plain rules.
fn has_safe_move(rule: Rule, plain: &Plain, from: Square) -> bool {
    let moves = plain.moves_but_for_check(rule);
    for m in moves.as_slice() {
        if m.from == from && plain.is_legal(rule, *m) && !is_followed_by_mate(rule, plain, *m) {
            return true;
        }
    }
    false
}
