//! The tests that castling must meet.
ghost use Rattle.std.specs.Prelude.{◌≡◌, ◌≤◌, ◌-◌, ℕ, Some, length};
ghost use Rattle.std.specs.List.{list_all, range_with_len};
ghost use Rattle.chess_core.specs.Position.{man_on};
ghost use Rattle.chess_core.specs.WellFormed.{IsWellFormed, is_vacant};
ghost use Rattle.chess_rules.specs.Legal.{can_castle, may_castle, squares_between};

use crate::making_moves::play::{corner, halfway, is_castling};
use chess_attacks::{Rules, in_check};
use chess_core::{Board, Man, Move, Square};

// Returns whether the squares numbered `low` to `high - 1` are empty.
fn are_empty(board: &Board, low: u8, high: u8) -> bool
    requires { high ≤ 64 }
    ensures { result ≡ list_all (is_vacant board.now.men) (range_with_len low (high - low)) }
{
    for number in low..high {
        if board.man_at(Square::numbered(number)).is_some() {
            return false;
        }
    }
    true
}

// Returns whether the king may castle (Codex, article 16): king and rook have the right to, no man
// is between them, the rook isn't paralysed (own), and the king is in check neither on its square
// nor on the square that it crosses. For the last test the king is put on that square for a moment; the
// board is unchanged afterwards.
#[tactic(auto, using(crate::proofs::Castles::castling), unfolding(crate::specs::Legal::can_castle))]
pub(crate) fn can_castle<R: Rules>(board: &mut Board, man: Man, m: Move) -> bool
    requires here { man_on board.old.men m.from ≡ Some man }
    requires well_formed { IsWellFormed board.old }
    ensures answer { result ≡ can_castle R.rule board.old man m }
    ensures board { board.new ≡ board.old }
{
    if !may_castle::<R>(board, man, m) {
        return false;
    }
    let between = halfway(m);
    board.lift(m.from);
    board.place(between, man);
    let exposed = in_check::<R>(board, man.colour);
    board.lift(between);
    board.place(m.from, man);
    !exposed
}

// Returns whether the king may castle, without testing the square that it crosses.
#[tactic(auto, unfolding(crate::specs::Legal::may_castle))]
fn may_castle<R: Rules>(board: &Board, man: Man, m: Move) -> bool
    ensures { result ≡ may_castle R.rule board.now man m }
{
    let rook = corner(m);
    let (low, high) = if m.from < rook {
        (m.from, rook)
    } else {
        (rook, m.from)
    };
    is_castling(man, m)
        && board.unmoved().has(m.from)
        && board.unmoved().has(rook)
        && are_empty(board, low.index() + 1, high.index())
        && !R::paralysed(board, rook)
        && !in_check::<R>(board, man.colour)
}
