//! Compares positions of one family with the plain rules, and counts motifs.
ghost use Rattle.chess_core.specs.WellFormed.{IsWellFormed};

use crate::case::Case;
use crate::compared::{Question, first_difference};
use crate::draw::Draw;
use crate::family::Family;
use crate::motif::Motif;
use crate::plain::{Plain, Rule};
use chess_core::{Board, Kind, Move, Square};
use chess_rules::{Circe, Madrasi, Moves, Orthodox, Rules, play};

// A position where the chess crates and the plain rules differ: its number in the family, the half-moves
// that lead to it, and the question.
#[derive(Clone, Copy)]
pub(crate) struct Unlike {
    pub(crate) number: u64,
    pub(crate) half_moves: u8,
    pub(crate) question: Question,
}

// More motifs than any survey counts.
pub(crate) const MOTIFS: usize = 16;

// What a survey of positions has found.
#[derive(Clone, Copy)]
pub(crate) struct Survey {
    // The first position where the chess crates and the plain rules differ.
    pub(crate) unlike: Option<Unlike>,
    // The number of moves that show each motif.
    pub(crate) shown: [u32; MOTIFS],
}

impl Survey {
    // Counts the moves that show each motif.
    fn count(&mut self, plain: &Plain, rule: Rule, motifs: &[Motif]) {
        let moves = plain.moves_but_for_check(rule);
        for m in moves.as_slice() {
            self.count_move(plain, rule, *m, motifs);
        }
        for m in &castlings() {
            if let Some(king) = plain.man(m.from) {
                let forbidden = king.kind == Kind::King
                    && king.colour == plain.turn
                    && plain.castling(king, *m).is_some()
                    && !plain.may_arrive(rule, king, *m);
                if forbidden {
                    self.count_move(plain, rule, *m, motifs);
                }
            }
        }
    }

    // Counts the motifs that the move shows.
    fn count_move(&mut self, plain: &Plain, rule: Rule, m: Move, motifs: &[Motif]) {
        let Some(man) = plain.man(m.from) else {
            return;
        };
        let case = Case::of(plain, rule, man, m);
        for (motif, shown) in motifs.iter().zip(self.shown.iter_mut()) {
            if case.shows(*motif) {
                *shown = shown.saturating_add(1);
            }
        }
    }
}

// Returns the castling moves of both kings.
fn castlings() -> [Move; 4] {
    let to = |from: u8, to: u8| Move {
        from: Square::numbered(from),
        to: Square::numbered(to),
        promo: None,
    };
    [to(4, 2), to(4, 6), to(60, 58), to(60, 62)]
}

// Compares `count` positions of the family, and one position a half-move after each.
pub(crate) fn surveyed(rule: Rule, family: Family, count: u64, motifs: &[Motif]) -> Survey {
    match rule {
        Rule::Orthodox => survey_under::<Orthodox>(rule, family, count, motifs),
        Rule::Circe => survey_under::<Circe>(rule, family, count, motifs),
        Rule::Madrasi => survey_under::<Madrasi>(rule, family, count, motifs),
    }
}

// Compares `count` positions of the family, and one position a half-move after each, under the rules `R`.
fn survey_under<R: Rules>(rule: Rule, family: Family, count: u64, motifs: &[Motif]) -> Survey {
    let mut survey = Survey {
        unlike: None,
        shown: [0; MOTIFS],
    };
    for number in 0..count {
        let mut draw = Draw::of(number);
        let diagram = family.diagram(&mut draw);
        if diagram.is_well_formed() {
            let mut board = Board::of(&diagram);
            survey.count(&Plain::of(&board), rule, motifs);
            if let Some(unlike) = unlike_on_the_way::<R>(&mut board, rule, number, draw) {
                survey.unlike = Some(unlike);
                return survey;
            }
        }
    }
    survey
}

// Returns the first position that differs, from the board's position along a drawn line.
fn unlike_on_the_way<R: Rules>(
    board: &mut Board,
    rule: Rule,
    number: u64,
    mut draw: Draw,
) -> Option<Unlike>
    requires { IsWellFormed board.old }
{
    for half_moves in 0..2u8 {
        if let Some(question) = first_difference::<R>(board, rule) {
            return Some(Unlike {
                number,
                half_moves,
                question,
            });
        }
        if !play_drawn::<R>(board, &mut draw) {
            return None;
        }
    }
    None
}

// Plays a drawn legal move, if there is one.
#[tactic(auto, using(chess_rules::proofs::LegalMoves::may_be_made))]
fn play_drawn<R: Rules>(board: &mut Board, draw: &mut Draw) -> bool
    requires { IsWellFormed board.old }
    ensures { IsWellFormed board.new }
{
    let mut cursor = Moves::<R>::start();
    for _skipped in 0..draw.below(40) {
        let _move = cursor.next(board);
    }
    let mut next = cursor.next(board);
    if next.is_none() {
        next = Moves::<R>::start().next(board);
    }
    match next {
        Some(m) => {
            let _undo = play::<R>(board, m);
            true
        }
        None => false,
    }
}
