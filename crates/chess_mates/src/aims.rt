//! Moves whose man arrives where it would attack the enemy king.
ghost use Rattle.std.specs.Prelude.{◌≡◌, ◌<◌, ◌∷◌, [], false, filter, IfSome, MatchOption, true};
ghost use Rattle.chess_core.specs.Position.{man_on};
ghost use Rattle.chess_core.specs.WellFormed.{IsWellFormed};
ghost use Rattle.chess_core.specs.ties.Words.{word};
ghost use Rattle.chess_mates.specs.ties.Aims.{aims_at_king, aims_with};
ghost use Rattle.chess_rules.specs.Legal.{is_legal};
ghost use Rattle.chess_rules.specs.ties.Places.{IsPlaceIn, moves_after, place_of};

use crate::checks::check_squares_of;
use chess_attacks::Rules;
use chess_attacks::unblocked::unblocked_reach;
use chess_attacks::words::contains;
use chess_core::{Board, Man, Move, Square, Squares};
use chess_rules::unplayed::{LegalityMasks, MoveTest};
use chess_rules::{Cursor, LegalCursor};

// Returns the squares from which the man on `from`, if there is one, would attack the enemy king on the
// board as it is.
#[tactic(auto, using(chess_attacks::proofs::Bits::word_empty))]
fn aimed_squares(board: &Board, from: Square) -> Squares
    ensures { result ≡ word (aims_with board.now (man_on board.now.men from)) }
{
    match board.man_at(from) {
        Some(man) => check_squares_of(board, board.turn().other(), man.kind),
        None => 0,
    }
}

// Returns whether the moving man is no fairy man and would attack the enemy king from its arrival on no
// board; `false` says nothing. This test is cheap and usually enough.
#[inline(always)]
fn never_aims(board: &Board, m: Move) -> bool
    ensures { result ≡ true → aims_at_king board.now m ≡ false }
{
    m.to.show_below_64();
    let Some(man) = board.man_at(m.from) else {
        return false;
    };
    let Some(king) = board.king_of(board.turn().other()) else {
        return false;
    };
    king.show_below_64();
    let own = Man {
        colour: board.turn(),
        kind: man.kind,
    };
    !man.kind.is_fairy() && !contains(unblocked_reach(own, m.to), king)
}

// Returns whether the moving man would attack the enemy king from its arrival, on the board as it was before
// the move. Out of line: `never_aims` is usually enough.
#[inline(never)]
#[tactic(auto, using(chess_attacks::proofs::Bits::word_has), unfolding(crate::specs::ties::Aims::aims_at_king))]
fn aims_from_arrival(board: &Board, m: &Move) -> bool
    ensures { result ≡ aims_at_king board.now m.now }
{
    m.to.show_below_64();
    contains(aimed_squares(board, m.from), m.to)
}

/// Returns whether the moving man arrives where it would attack the enemy king on the board as it was
/// before the move. A search uses this only to order moves.
#[inline(always)]
pub fn aims_at_king(board: &Board, m: &Move) -> bool
    ensures { result ≡ aims_at_king board.now m.now }
{
    if never_aims(board, *m) {
        return false;
    }
    aims_from_arrival(board, m)
}

// What the search for aimed moves, for which `aims_at_king` holds, knows of a position.
#[derive(Clone, Copy)]
struct Aimed {
    masks: LegalityMasks,
}

impl MoveTest for Aimed {
    ghost use Rattle.chess_mates.specs.ties.Aims.{aims_at_king};
    ghost use Rattle.chess_rules.specs.ties.Counting.{IsKnownIn};
    ghost use Rattle.chess_rules.specs.ties.Idle.{is_legal_and-idle};
    ghost use Rattle.chess_rules.specs.ties.Filtering.{is_legal_and};

    ghost test = { λ rule p. is_legal_and rule p (aims_at_king p) };

    ghost fits = { λ s rule p. IsKnownIn rule p s.masks };

    #[tactic(auto, using(chess_rules::proofs::Filtering::wanted_origins))]
    fn origins<R: Rules>(&self, board: &Board) -> Squares {
        self.masks.origins::<R>(board)
    }

    #[tactic(auto, using(crate::proofs::Aiming::aimed_candidates), unfolding(crate::specs::ties::Aims::aims_at_king))]
    fn candidates<R: Rules>(&self, board: &Board, from: Square) -> Squares {
        let squares = aimed_squares(board, from);
        if squares == 0 {
            return 0;
        }
        self.masks.candidates::<R>(board, from) & squares
    }

    fn meets<R: Rules>(&self, board: &mut Board, m: Move) -> bool {
        self.masks.meets::<R>(board, m) && aims_at_king(board, &m)
    }

    ghost idle = { λ rule p m h. is_legal_and-idle rule p (aims_at_king p) m h };
}

/// Returns the next legal move after the cursor for which `aims_at_king` holds, and moves the cursor to
/// it. After the last one it returns `None` and moves the cursor to the end. The cursor must belong to
/// the board's position. The board is unchanged.
#[tactic(auto, using(crate::proofs::Aiming::next_aimed))]
pub fn next_aimed<R: Rules>(cursor: &mut LegalCursor<R>, board: &mut Board) -> Option<Move>
    requires well_formed { IsWellFormed board.old }
    requires place { IsPlaceIn R.rule board.old cursor.old }
    ensures place { cursor.new ≡ record cursor.old { place = place_of result } }
    ensures within { IsPlaceIn R.rule board.old cursor.new }
    ensures rest { MatchOption result
        (filter (aims_at_king board.old) (moves_after R.rule board.old cursor.old.place) ≡ [])
        (λ m. filter (aims_at_king board.old) (moves_after R.rule board.old cursor.old.place)
        ≡ m ∷ filter (aims_at_king board.old) (moves_after R.rule board.old cursor.new.place)) }
    ensures legal { IfSome result (λ m. is_legal R.rule board.old m ≡ true) }
    ensures onward { IfSome result (λ m. cursor.old.place < cursor.new.place) }
    ensures board { board.new ≡ board.old }
{
    let test = Aimed {
        masks: *cursor.test(),
    };
    let mut aimed = Cursor::<R, Aimed>::over(test);
    aimed.go_to(cursor.place());
    let next = aimed.next(board);
    cursor.go_to(aimed.place());
    next
}
