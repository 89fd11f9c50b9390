//! Compares boards, lists moves, and tries single moves.
ghost use Rattle.std.specs.Prelude.{◌≡◌, IfSome};
ghost use Rattle.chess_core.specs.Diagrams.{position_of};
ghost use Rattle.chess_core.specs.WellFormed.{IsWellFormed};

use crate::plain::{self, Plain, Rule, bit};
use crate::setup::{move_of, moves_of, posed};
use arrayvec::ArrayVec;
use chess_core::{Board, Colour, Diagram, Kind, Move, Square};
use chess_mates::mate_cursor;
use chess_rules::{Circe, Madrasi, Moves, Orthodox, Rules, is_mate, play, unplay};
use chess_threats::{QuietSteps, Threats};

// Returns whether two boards agree in everything that they report.
pub(crate) fn is_same(one: &Board, two: &Board) -> bool {
    for number in 0..64u8 {
        let square = Square::numbered(number);
        if one.man_at(square) != two.man_at(square) {
            return false;
        }
    }
    one.turn() == two.turn()
        && one.unmoved() == two.unmoved()
        && one.crossed() == two.crossed()
        && has_same_men(one, two, Colour::White)
        && has_same_men(one, two, Colour::Black)
        && one.may_promote(Kind::Grasshopper) == two.may_promote(Kind::Grasshopper)
        && one.may_promote(Kind::Nightrider) == two.may_promote(Kind::Nightrider)
}

// Returns whether the boards agree on the colour's king and men.
fn has_same_men(one: &Board, two: &Board, colour: Colour) -> bool {
    for kind in &Kind::all() {
        if one.squares(colour, *kind) != two.squares(colour, *kind) {
            return false;
        }
    }
    one.king_of(colour) == two.king_of(colour) && one.side(colour) == two.side(colour)
}

// Returns whether the board agrees with the plain position.
pub(crate) fn shows(board: &Board, plain: &Plain) -> bool {
    for number in 0..64u8 {
        let square = Square::numbered(number);
        if board.man_at(square) != plain.man(square) {
            return false;
        }
    }
    board.turn() == plain.turn
        && board.unmoved() == plain.unmoved
        && board.crossed() == plain.crossed
        && shows_men(board, plain, Colour::White)
        && shows_men(board, plain, Colour::Black)
}

// Returns whether the board agrees with the plain position on the colour's men, and on the kinds to
// which pawns may promote.
fn shows_men(board: &Board, plain: &Plain, colour: Colour) -> bool {
    let mut side = 0u64;
    for kind in &Kind::all() {
        let squares = plain.of_kind(*kind) & plain.of_colour(colour);
        if board.squares(colour, *kind) != squares {
            return false;
        }
        if board.may_promote(*kind) != plain.may_promote(*kind) {
            return false;
        }
        side |= squares;
    }
    let king = match board.king_of(colour) {
        Some(square) => bit(square),
        None => 0,
    };
    board.side(colour) == side && king == plain.of_kind(Kind::King) & plain.of_colour(colour)
}

// Returns the board after this move from the diagram, if the move is legal.
#[tactic(auto, using(chess_rules::proofs::LegalMoves::may_be_made))]
fn after_move<R: Rules>(diagram: &Diagram, wanted: Move) -> Option<Board>
    requires { IsWellFormed (position_of diagram.now) }
    ensures { IfSome result (λ q. IsWellFormed q) }
{
    let mut board = Board::of(diagram);
    let mut cursor = Moves::<R>::start();
    while let Some(m) = cursor.next(&mut board) {
        if m == wanted {
            let _undo = play::<R>(&mut board, m);
            return Some(board);
        }
    }
    None
}

// What the rules say of a move.
#[derive(Clone, Copy, PartialEq, Eq)]
pub(crate) enum Outcome {
    Illegal,
    Legal,
    Mate,
}

// Returns what the rules `R` say of the move.
fn outcome_under<R: Rules>(diagram: &Diagram, m: Move) -> Outcome
    requires { IsWellFormed (position_of diagram.now) }
{
    match after_move::<R>(diagram, m) {
        Some(mut after) => {
            if is_mate::<R>(&mut after) {
                Outcome::Mate
            } else {
                Outcome::Legal
            }
        }
        None => Outcome::Illegal,
    }
}

// Returns whether the move from the position has this outcome.
pub(crate) fn has_outcome(rule: Rule, position: &str, m: &str, wanted: Outcome) -> bool {
    let (Some(diagram), Some(m)) = (posed(position), move_of(m)) else {
        return false;
    };
    wanted
        == match rule {
            Rule::Orthodox => outcome_under::<Orthodox>(&diagram, m),
            Rule::Circe => outcome_under::<Circe>(&diagram, m),
            Rule::Madrasi => outcome_under::<Madrasi>(&diagram, m),
        }
}

// Returns whether a legal move from the diagram leads to this board, and taking it back restores the
// diagram's board.
#[tactic(auto, using(chess_rules::proofs::LegalMoves::may_be_made))]
fn leads_and_back<R: Rules>(diagram: &Diagram, wanted: Move, after: &Board) -> bool
    requires { IsWellFormed (position_of diagram.now) }
{
    let before = Board::of(diagram);
    let mut board = before;
    let mut cursor = Moves::<R>::start();
    while let Some(m) = cursor.next(&mut board) {
        if m == wanted {
            let undo = play::<R>(&mut board, m);
            let leads = is_same(&board, after);
            unplay::<R>(&mut board, m, undo);
            return leads && is_same(&board, &before);
        }
    }
    false
}

// Returns whether a legal move from the position in Circe leads to `wanted`, and taking it back restores
// the first position.
pub(crate) fn leads_in_circe_and_back(position: &str, m: &str, wanted: &str) -> bool {
    let (Some(diagram), Some(m), Some(wanted)) = (posed(position), move_of(m), posed(wanted)) else {
        return false;
    };
    leads_and_back::<Circe>(&diagram, m, &Board::of(&wanted))
}

// Returns the legal moves of a diagram, in order.
fn moves_under<R: Rules>(diagram: &Diagram) -> plain::Moves
    requires { IsWellFormed (position_of diagram.now) }
{
    let mut board = Board::of(diagram);
    let mut cursor = Moves::<R>::start();
    let mut moves = ArrayVec::new();
    while let Some(m) = cursor.next(&mut board) {
        let _fits = moves.try_push(m);
    }
    moves
}

// Returns whether these are the legal moves of a position.
pub(crate) fn has_moves(rule: Rule, position: &str, wanted: &str) -> bool {
    let Some(diagram) = posed(position) else {
        return false;
    };
    let moves = match rule {
        Rule::Orthodox => moves_under::<Orthodox>(&diagram),
        Rule::Circe => moves_under::<Circe>(&diagram),
        Rule::Madrasi => moves_under::<Madrasi>(&diagram),
    };
    moves.as_slice() == moves_of(wanted).as_slice()
}

// Returns the legal moves that mate.
fn mates_under<R: Rules>(diagram: &Diagram) -> plain::Moves
    requires { IsWellFormed (position_of diagram.now) }
{
    let mut board = Board::of(diagram);
    let mut cursor = mate_cursor::<R>(&board);
    let mut moves = ArrayVec::new();
    while let Some(m) = cursor.next(&mut board) {
        let _fits = moves.try_push(m);
    }
    moves
}

// Returns whether these are the mating moves of a position.
pub(crate) fn has_mates(rule: Rule, position: &str, wanted: &str) -> bool {
    let Some(diagram) = posed(position) else {
        return false;
    };
    let mates = match rule {
        Rule::Orthodox => mates_under::<Orthodox>(&diagram),
        Rule::Circe => mates_under::<Circe>(&diagram),
        Rule::Madrasi => mates_under::<Madrasi>(&diagram),
    };
    mates.as_slice() == moves_of(wanted).as_slice()
}

// Returns whether threats rule out a mate after this move; `None` if it isn't legal.
fn is_harmless_under<R: Rules>(diagram: &Diagram, wanted: Move) -> Option<bool>
    requires { IsWellFormed (position_of diagram.now) }
{
    let mut board = Board::of(diagram);
    let mut cursor = Moves::<R>::start();
    while let Some(m) = cursor.next(&mut board) {
        if m == wanted {
            let Some(king) = board.king_of(board.turn()) else {
                return None;
            };
            let mut threats = Threats::of::<R>(&board, king);
            return Some(threats.rule_out_mate::<R>(&board, m));
        }
    }
    None
}

// Returns whether threats rule out a mate after the legal move exactly if `wanted`.
pub(crate) fn is_ruled_safe(rule: Rule, position: &str, m: &str, wanted: bool) -> bool {
    let (Some(diagram), Some(m)) = (posed(position), move_of(m)) else {
        return false;
    };
    let reported = match rule {
        Rule::Orthodox => is_harmless_under::<Orthodox>(&diagram, m),
        Rule::Circe => is_harmless_under::<Circe>(&diagram, m),
        Rule::Madrasi => is_harmless_under::<Madrasi>(&diagram, m),
    };
    reported == Some(wanted)
}

// Returns whether `QuietSteps` finds a quiet step of the other king after this move; `None` if it isn't
// legal.
fn steps_under<R: Rules>(diagram: &Diagram, wanted: Move) -> Option<bool>
    requires { IsWellFormed (position_of diagram.now) }
{
    let mut board = Board::of(diagram);
    let mut cursor = Moves::<R>::start();
    while let Some(m) = cursor.next(&mut board) {
        if m == wanted {
            return Some(QuietSteps::of(&board).follow::<R>(&board, m));
        }
    }
    None
}

// Returns whether `QuietSteps` finds a quiet step after the legal move exactly if `wanted`.
pub(crate) fn has_seen_step(rule: Rule, position: &str, m: &str, wanted: bool) -> bool {
    let (Some(diagram), Some(m)) = (posed(position), move_of(m)) else {
        return false;
    };
    let reported = match rule {
        Rule::Orthodox => steps_under::<Orthodox>(&diagram, m),
        Rule::Circe => steps_under::<Circe>(&diagram, m),
        Rule::Madrasi => steps_under::<Madrasi>(&diagram, m),
    };
    reported == Some(wanted)
}
