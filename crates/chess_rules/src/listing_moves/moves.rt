//! Lists the legal moves one by one, and tests for mate and stalemate.
ghost use Rattle.std.specs.Prelude.{◌≡◌, ◌<◌, ◌∷◌, [], IfSome, MatchOption, not, true};
ghost use Rattle.std.specs.List.{slice_get};
ghost use Rattle.chess_core.specs.WellFormed.{IsWellFormed};
ghost use Rattle.chess_rules.specs.Legal.{is_legal, is_mate, is_nil, is_stalemate, moves};
ghost use Rattle.chess_rules.specs.ties.Places.{first_after, moves_after, place_of};

use crate::listing_moves::legal_moves::LegalCursor;
use crate::listing_moves::move_place::MovePlace;
use chess_attacks::{Rules, in_check};
use chess_core::{Board, Move};
use std::marker::{Model, PhantomData};

/// A cursor over the legal moves under the rules `R`: a place in the order of moves, whose number contracts
/// see.
#[derive_where(Clone, Copy)]
pub struct Moves<R> {
    place: MovePlace,
    rules: PhantomData<R>,
}

impl<R> Model for Moves<R> {
    ghost use Rattle.std.specs.Prelude.{ℕ};

    ghost Value = { ℕ };

    ghost view = { λ m. m.place };

    ghost inverse = { λ n. record { place = n; rules = record {} } };
}

impl<R> Moves<R> {
    /// Returns the cursor before the first triple.
    pub fn start() -> Moves<R>
        ensures { result ≡ 0 }
    {
        Moves {
            place: MovePlace::start(),
            rules: PhantomData,
        }
    }
}

impl<R: Rules> Moves<R> {
    /// Returns the next legal move after the cursor and moves the cursor to it. After the last legal move
    /// it returns `None` and moves the cursor to the end. The board is unchanged.
    pub fn next(&mut self, board: &mut Board) -> Option<Move>
        requires { IsWellFormed board.old }
        ensures first { result ≡ first_after R.rule board.old self.old }
        ensures place { self.new ≡ place_of result }
        ensures rest { MatchOption result (moves_after R.rule board.old self.old ≡ [])
            (λ m. moves_after R.rule board.old self.old
            ≡ m ∷ moves_after R.rule board.old self.new) }
        ensures legal { IfSome result (λ m. is_legal R.rule board.old m ≡ true) }
        ensures onward { IfSome result (λ m. self.old < self.new) }
        ensures board { board.new ≡ board.old }
    {
        let mut cursor = LegalCursor::<R>::of(board);
        cursor.go_to(self.place);
        let found = cursor.next(board);
        self.place = cursor.place();
        found
    }
}

/// Returns whether the side to move has a legal move. The board is unchanged.
#[tactic(auto, using(crate::proofs::Places::any_move))]
pub fn has_legal_move<R: Rules>(board: &mut Board) -> bool
    requires { IsWellFormed board.old }
    ensures answer { result ≡ not (is_nil (moves R.rule board.old)) }
    ensures board { board.new ≡ board.old }
{
    let mut cursor = LegalCursor::<R>::of(board);
    cursor.next(board).is_some()
}

/// Returns whether the side to move is mated: in check and without a legal move (FIDE Laws 5.1.1). The
/// board is unchanged.
#[tactic(auto, unfolding(crate::specs::Legal::is_mate))]
pub fn is_mate<R: Rules>(board: &mut Board) -> bool
    requires { IsWellFormed board.old }
    ensures answer { result ≡ is_mate R.rule board.old }
    ensures board { board.new ≡ board.old }
{
    in_check::<R>(board, board.turn()) && !has_legal_move::<R>(board)
}

/// Returns whether the side to move is stalemated: not in check and without a legal move (FIDE Laws 5.2.1).
/// The board is unchanged.
#[tactic(auto, unfolding(crate::specs::Legal::is_stalemate))]
pub fn is_stalemate<R: Rules>(board: &mut Board) -> bool
    requires { IsWellFormed board.old }
    ensures answer { result ≡ is_stalemate R.rule board.old }
    ensures board { board.new ≡ board.old }
{
    let checked = in_check::<R>(board, board.turn());
    !checked && !has_legal_move::<R>(board)
}

/// Returns what call `number` of `Moves::next` on one position returns, counted from 0. The board is
/// unchanged.
///
/// No program calls it: its contract states the law of those calls. They return each legal move once, in
/// order, and `None` on every later call.
pub fn nth_move<R: Rules>(board: &mut Board, number: u32) -> Option<Move>
    requires { IsWellFormed board.old }
    ensures answer { result ≡ slice_get (moves R.rule board.old) number }
    ensures board { board.new ≡ board.old }
{
    let mut cursor = Moves::<R>::start();
    for _call in 0..number {
        let _earlier = cursor.next(board);
    }
    cursor.next(board)
}
