//! Compares everything that the chess crates report of a position with the plain rules.
ghost use Rattle.std.specs.Prelude.{◌≡◌};
ghost use Rattle.chess_core.specs.WellFormed.{IsWellFormed};

use crate::plain::{MOVES, Plain, Rule};
use crate::probe::{is_same, shows};
use arrayvec::ArrayVec;
use chess_core::{Board, Colour, Move, Square};
use chess_mates::{mate_cursor, next_mate};
use chess_rules::{
    LegalCursor, MovePlace, Moves, Rules, has_legal_move, in_check, is_mate, play, unplay,
};

// What the chess crates are compared on.
#[derive(Clone, Copy, Debug)]
pub(crate) enum Question {
    Moves,
    LegalCursor,
    MovesUntil,
    NextMate,
    MateCursor,
    MatesUntil,
    Attack,
    Paralysis,
    Check,
    Mate,
    Play,
    TakeBack,
}

// A legal move by the plain rules, and whether it mates.
#[derive(Clone, Copy, Default)]
struct Choice {
    by: Move,
    mates: bool,
}

// The legal moves in order.
type Choices = ArrayVec<Choice, MOVES>;

// Returns the legal moves in order by the plain rules.
fn choices(plain: &Plain, rule: Rule) -> Choices {
    let mut choices = ArrayVec::new();
    let moves = plain.moves_but_for_check(rule);
    for m in moves.as_slice() {
        if plain.is_legal(rule, *m) {
            let mates = plain.after(rule, *m).is_mate(rule);
            let _fits = choices.try_push(Choice { by: *m, mates });
        }
    }
    choices
}

// Returns the first question on which the chess crates and the plain rules differ.
pub(crate) fn first_difference<R: Rules>(board: &mut Board, rule: Rule) -> Option<Question>
    requires { IsWellFormed board.old }
    ensures { board.new ≡ board.old }
{
    let plain = Plain::of(board);
    let choices = choices(&plain, rule);
    let choices = choices.as_slice();
    if let Some(question) = difference_in_men::<R>(board, &plain, rule) {
        return Some(question);
    }
    if let Some(question) = unlike_of_moves::<R>(board, choices) {
        return Some(question);
    }
    if is_mate::<R>(board) != plain.is_mate(rule)
        || has_legal_move::<R>(board) == choices.is_empty()
    {
        return Some(Question::Mate);
    }
    unlike_of_play::<R>(board, &plain, rule)
}

// Compares attack, paralysis and check. Returns the first question on which they differ.
fn difference_in_men<R: Rules>(board: &Board, plain: &Plain, rule: Rule) -> Option<Question> {
    for number in 0..64u8 {
        let square = Square::numbered(number);
        if R::paralysed(board, square) != plain.is_paralysed(rule, square) {
            return Some(Question::Paralysis);
        }
        for colour in &[Colour::White, Colour::Black] {
            if R::attacked(board, square, *colour) != plain.is_attacked(rule, square, *colour) {
                return Some(Question::Attack);
            }
        }
    }
    for colour in &[Colour::White, Colour::Black] {
        if in_check::<R>(board, *colour) != plain.is_in_check(rule, *colour) {
            return Some(Question::Check);
        }
    }
    None
}

// Compares the different ways to list moves. Returns the first question on which they differ.
fn unlike_of_moves<R: Rules>(board: &mut Board, choices: &[Choice]) -> Option<Question>
    requires { IsWellFormed board.old }
    ensures { board.new ≡ board.old }
{
    if !returns_moves::<R>(board, choices) {
        return Some(Question::Moves);
    }
    if !gives_legal_moves::<R>(board, choices) {
        return Some(Question::LegalCursor);
    }
    if !gives_mating_moves::<R>(board, choices) {
        return Some(Question::MateCursor);
    }
    let third = choices.len() / 3;
    for (skipped, last) in &[
        (0, third),
        (third, choices.len() - third),
        (choices.len() - third, choices.len() + 1),
    ] {
        if !gives_until::<R>(board, choices, *skipped, *last) {
            return Some(Question::MovesUntil);
        }
        if !gives_mates::<R>(board, choices, *skipped) {
            return Some(Question::NextMate);
        }
        if !gives_mates_until::<R>(board, choices, *skipped, *last) {
            return Some(Question::MatesUntil);
        }
    }
    None
}

// Returns whether `Moves` lists these legal moves in order, and then none on two calls.
fn returns_moves<R: Rules>(board: &mut Board, choices: &[Choice]) -> bool
    requires { IsWellFormed board.old }
    ensures { board.new ≡ board.old }
{
    let mut cursor = Moves::<R>::start();
    for choice in choices {
        if cursor.next(board) != Some(choice.by) {
            return false;
        }
    }
    cursor.next(board).is_none() && cursor.next(board).is_none()
}

// Returns whether `LegalCursor` lists these legal moves in order, and then none on two calls.
fn gives_legal_moves<R: Rules>(board: &mut Board, choices: &[Choice]) -> bool
    requires { IsWellFormed board.old }
    ensures { board.new ≡ board.old }
{
    let mut cursor = LegalCursor::<R>::of(board);
    for choice in choices {
        if cursor.next(board) != Some(choice.by) {
            return false;
        }
    }
    cursor.next(board).is_none() && cursor.next(board).is_none()
}

// Returns whether `MateCursor` lists the mating moves among these in order, and then none on two calls.
fn gives_mating_moves<R: Rules>(board: &mut Board, choices: &[Choice]) -> bool
    requires { IsWellFormed board.old }
    ensures { board.new ≡ board.old }
{
    let mut cursor = mate_cursor::<R>(board);
    for choice in choices {
        if choice.mates && cursor.next(board) != Some(choice.by) {
            return false;
        }
    }
    cursor.next(board).is_none() && cursor.next(board).is_none()
}

// Returns the place after the first `count` legal moves.
fn place_after<R: Rules>(board: &mut Board, count: usize) -> MovePlace
    requires { IsWellFormed board.old }
    ensures { board.new ≡ board.old }
{
    let mut cursor = LegalCursor::<R>::of(board);
    for _move in 0..count {
        let _skipped = cursor.next(board);
    }
    cursor.place()
}

// Returns whether the cursor after the first `skipped` legal moves returns the others up to number
// `last`.
fn gives_until<R: Rules>(board: &mut Board, choices: &[Choice], skipped: usize, last: usize) -> bool
    requires { IsWellFormed board.old }
    ensures { board.new ≡ board.old }
{
    let end = place_after::<R>(board, last);
    let mut cursor = LegalCursor::<R>::of(board);
    cursor.go_to(place_after::<R>(board, skipped));
    for (number, choice) in choices.iter().enumerate() {
        if number >= skipped && number < last && cursor.next_until(end, board) != Some(choice.by) {
            return false;
        }
    }
    cursor.next_until(end, board).is_none()
}

// Returns whether the cursor after the first `skipped` legal moves returns the mates among the others.
fn gives_mates<R: Rules>(board: &mut Board, choices: &[Choice], skipped: usize) -> bool
    requires { IsWellFormed board.old }
    ensures { board.new ≡ board.old }
{
    let mut place = place_after::<R>(board, skipped);
    for (number, choice) in choices.iter().enumerate() {
        if number >= skipped
            && choice.mates
            && next_mate::<R>(&mut place, board) != Some(choice.by)
        {
            return false;
        }
    }
    next_mate::<R>(&mut place, board).is_none()
}

// Returns whether the cursor after the first `skipped` legal moves returns the mates among the others up
// to number `last`.
fn gives_mates_until<R: Rules>(
    board: &mut Board,
    choices: &[Choice],
    skipped: usize,
    last: usize,
) -> bool
    requires { IsWellFormed board.old }
    ensures { board.new ≡ board.old }
{
    let end = place_after::<R>(board, last);
    let mut cursor = mate_cursor::<R>(board);
    cursor.go_to(place_after::<R>(board, skipped));
    for (number, choice) in choices.iter().enumerate() {
        let between = number >= skipped && number < last;
        if between && choice.mates && cursor.next_until(end, board) != Some(choice.by) {
            return false;
        }
    }
    cursor.next_until(end, board).is_none()
}

// Compares the positions after each legal move, and the position after each move is taken back. Returns
// the first question on which they differ.
#[tactic(auto, using(chess_rules::proofs::LegalMoves::may_be_made))]
fn unlike_of_play<R: Rules>(board: &mut Board, plain: &Plain, rule: Rule) -> Option<Question>
    requires { IsWellFormed board.old }
    ensures { board.new ≡ board.old }
{
    let before = *board;
    let mut cursor = Moves::<R>::start();
    while let Some(m) = cursor.next(board) {
        let undo = play::<R>(board, m);
        let question = unlike_after::<R>(board, &plain.after(rule, m), rule);
        unplay::<R>(board, m, undo);
        if question.is_some() {
            return question;
        }
        if !is_same(board, &before) {
            return Some(Question::TakeBack);
        }
    }
    None
}

// Compares the position after a move. Returns the first question on which they differ.
fn unlike_after<R: Rules>(board: &mut Board, plain: &Plain, rule: Rule) -> Option<Question>
    requires { IsWellFormed board.old }
    ensures { board.new ≡ board.old }
{
    if !shows(board, plain) {
        return Some(Question::Play);
    }
    for colour in &[Colour::White, Colour::Black] {
        if in_check::<R>(board, *colour) != plain.is_in_check(rule, *colour) {
            return Some(Question::Check);
        }
    }
    if is_mate::<R>(board) != plain.is_mate(rule) {
        return Some(Question::Mate);
    }
    None
}
