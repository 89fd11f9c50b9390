//! A cursor over the moves of one position that meet a test.
ghost use Rattle.std.specs.Prelude.{◌≡◌, ◌∷◌, [], ◌<◌, IfSome, MatchOption, true};
ghost use Rattle.chess_core.specs.Position.{Position};
ghost use Rattle.chess_core.specs.WellFormed.{IsWellFormed};
ghost use Rattle.chess_rules.specs.ties.Places.{IsCursorIn, IsNextMet, cursor_onto, first_met, met_after, met_between, place_of};

use crate::listing_moves::move_place::MovePlace;
use crate::listing_moves::move_test::{MoveTest, TargetCache, next_met};
use crate::listing_moves::triples::{TRIPLES, move_at};
use chess_attacks::Rules;
use chess_core::{Board, Move};
use std::marker::{Model, PhantomData};

/// A cursor over the moves of one position that meet a test. Like `Moves` it is a place in the order of
/// moves; it also keeps the test, with what it knows of the position, and the candidate squares of its
/// current origin.
#[derive_where(Clone, Copy; T)]
pub struct Cursor<R, T> {
    number: u16,
    test: T,
    targets: TargetCache,
    rules: PhantomData<R>,
}

impl<R, T> Model for Cursor<R, T> {
    ghost use Rattle.chess_rules.specs.ties.Places.{CursorPlace};

    ghost Value = { CursorPlace T };

    ghost view = { λ m. record { place = m.number; test = m.test; kept = m.targets } };

    ghost inverse = { λ v. record {
      number = v.place;
      test = v.test;
      targets = v.kept;
      rules = record {};
    } };
}

impl<R: Rules, T: MoveTest> Cursor<R, T> {
    /// Returns the cursor before the first triple, for the positions to which the test belongs.
    pub fn over(test: T) -> Cursor<R, T>
        ensures start { result.place ≡ 0 }
        ensures place { (p : Position) → T.fits test R.rule p
            → IsCursorIn T.fits T.test R.rule p result }
    {
        Cursor {
            number: 0,
            test,
            targets: TargetCache {
                origin: None,
                squares: 0,
            },
            rules: PhantomData,
        }
    }

    /// Returns the test, with what it knows of the cursor's position.
    pub fn test(&self) -> &T
        ensures { result.now ≡ self.now.test }
    {
        &self.test
    }

    /// Returns the cursor's place, without what the cursor keeps for its position.
    pub fn place(&self) -> MovePlace
        ensures { result ≡ self.now.place }
    {
        MovePlace::at(self.number)
    }

    /// Moves the cursor to another place in the order of moves of its position.
    pub fn go_to(&mut self, place: MovePlace)
        ensures { self.new ≡ record self.old { place = place } }
    {
        self.number = place.number();
    }

    /// Returns the next move after the cursor that meets the test, and moves the cursor to it. After the
    /// last one it returns `None` and moves the cursor to the end. The cursor must belong to the board's
    /// position. The board is unchanged.
    pub fn next(&mut self, board: &mut Board) -> Option<Move>
        requires well_formed { IsWellFormed board.old }
        requires place { IsCursorIn T.fits T.test R.rule board.old self.old }
        ensures first { result ≡ first_met (T.test R.rule board.old) self.old.place }
        ensures place { self.new ≡ record self.old {
          place = place_of result;
          kept = self.new.kept;
        } }
        ensures within { IsCursorIn T.fits T.test R.rule board.old self.new }
        ensures rest { MatchOption result (met_after (T.test R.rule board.old) self.old.place ≡ [])
            (λ m. met_after (T.test R.rule board.old) self.old.place
            ≡ m ∷ met_after (T.test R.rule board.old) self.new.place) }
        ensures next { IfSome result
            (IsNextMet (T.test R.rule board.old) self.old.place self.new.place) }
        ensures meets { IfSome result (λ m. T.test R.rule board.old m ≡ true) }
        ensures onward { IfSome result (λ m. self.old.place < self.new.place) }
        ensures board { board.new ≡ board.old }
    {
        let number = next_met::<R, T>(board, &self.test, &mut self.targets, self.number, TRIPLES);
        if number < TRIPLES {
            self.number = number + 1;
            return Some(move_at(number));
        }
        self.number = TRIPLES;
        None
    }

    /// Returns the next move between the cursor and `end` that meets the test, and moves the cursor to it. If
    /// there is none it returns `None` and the cursor stays. The cursor must belong to the board's position.
    /// The board is unchanged.
    #[tactic(auto, using(crate::proofs::Between::until))]
    pub fn next_until(&mut self, end: MovePlace, board: &mut Board) -> Option<Move>
        requires well_formed { IsWellFormed board.old }
        requires place { IsCursorIn T.fits T.test R.rule board.old self.old }
        ensures place { self.new ≡ record self.old {
          place = cursor_onto result self.old.place;
          kept = self.new.kept;
        } }
        ensures within { IsCursorIn T.fits T.test R.rule board.old self.new }
        ensures rest { MatchOption result
            (met_between (T.test R.rule board.old) self.old.place end ≡ [])
            (λ m. met_between (T.test R.rule board.old) self.old.place end
            ≡ m ∷ met_between (T.test R.rule board.old) self.new.place end) }
        ensures meets { IfSome result (λ m. T.test R.rule board.old m ≡ true) }
        ensures board { board.new ≡ board.old }
    {
        let last = end.number().min(TRIPLES);
        if self.number >= last {
            return None;
        }
        let number = next_met::<R, T>(board, &self.test, &mut self.targets, self.number, last);
        if number < last {
            self.number = number + 1;
            return Some(move_at(number));
        }
        None
    }
}
