//! Compares threats with the plain rules: no mate may follow a move for which `rule_out_mate` returns
//! `true`.
ghost use Rattle.std.specs.Prelude.{◌≡◌};
ghost use Rattle.chess_core.specs.WellFormed.{IsWellFormed};

use crate::draw::Draw;
use crate::family::Family;
use crate::plain::{Plain, Rule};
use chess_core::{Board, Move};
use chess_rules::{Circe, Madrasi, Moves, Orthodox, Rules};
use chess_threats::Threats;

// The outcome for the positions of a family.
#[derive(Clone, Copy)]
pub(crate) struct Defences {
    // The number of the first position where a mate follows a move that was ruled safe.
    pub(crate) wrong: Option<u64>,
    // The number of moves that were ruled safe.
    pub(crate) reported: u32,
}

// Tests `count` positions of the family, each with the other side to move.
pub(crate) fn defended(rule: Rule, family: Family, count: u64) -> Defences {
    let mut defences = Defences {
        wrong: None,
        reported: 0,
    };
    for number in 0..count {
        let mut diagram = family.diagram(&mut Draw::of(number));
        diagram.turn = diagram.turn.other();
        diagram.crossed = None;
        if diagram.is_well_formed() {
            let mut board = Board::of(&diagram);
            if rules_out_mate_by(rule, &mut board, &mut defences.reported) {
                defences.wrong = Some(number);
                return defences;
            }
        }
    }
    defences
}

// Returns whether a mate follows a move that was ruled safe. Counts the moves ruled safe before it.
fn rules_out_mate_by(rule: Rule, board: &mut Board, reported: &mut u32) -> bool
    requires { IsWellFormed board.old }
{
    match rule {
        Rule::Orthodox => rules_out_a_mate::<Orthodox>(rule, board, reported),
        Rule::Circe => rules_out_a_mate::<Circe>(rule, board, reported),
        Rule::Madrasi => rules_out_a_mate::<Madrasi>(rule, board, reported),
    }
}

// Returns whether a mate follows a move that the threats ruled safe under the rules `R`. Counts the moves
// ruled safe before it.
fn rules_out_a_mate<R: Rules>(rule: Rule, board: &mut Board, reported: &mut u32) -> bool
    requires { IsWellFormed board.old }
{
    let plain = Plain::of(board);
    let Some(king) = board.king_of(board.turn()) else {
        return false;
    };
    let mut threats = Threats::of::<R>(board, king);
    let mut cursor = Moves::<R>::start();
    while let Some(m) = cursor.next(board) {
        if threats.rule_out_mate::<R>(board, m) {
            if is_followed_by_mate(rule, &plain, m) {
                return true;
            }
            *reported = reported.saturating_add(1);
        }
    }
    false
}

// Returns whether some reply to the move mates, by the plain rules.
pub(crate) fn is_followed_by_mate(rule: Rule, plain: &Plain, m: Move) -> bool {
    let after = plain.after(rule, m);
    let replies = after.moves_but_for_check(rule);
    for reply in replies.as_slice() {
        if after.is_legal(rule, *reply) && after.after(rule, *reply).is_mate(rule) {
            return true;
        }
    }
    false
}
