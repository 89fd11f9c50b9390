//! The squares from which a move may give check.
ghost use Rattle.std.specs.Prelude.{◌≡◌, ℕ, ◌<◌, ◌==◌, Some, false, true};
ghost use Rattle.std.specs.Int.{bit_at};
ghost use Rattle.chess_core.specs.Position.{man_on, other, same_kind};
ghost use Rattle.chess_core.specs.WellFormed.{IsWellFormed};
ghost use Rattle.chess_core.specs.ties.Words.{side_of};
ghost use Rattle.chess_core.specs.declared.man.Kind.TheVariants.{King};
ghost use Rattle.chess_mates.specs.ties.CheckSquares.{AreCheckOrigins, AreCheckSquares, AreCheckTargets, own_man};

use crate::checks::{CheckSquares, may_check_from_everywhere, targets_off_blockers};
use chess_attacks::Rules;
use chess_attacks::words::{next_bit, only, pop_first};
use chess_core::{Board, Kind, Man, Square, Squares};
use chess_flights::pawn_approaches::pawns_before;
use chess_rules::unplayed::unblocked_targets;

// Returns the squares of the mover's men of this kind whose moves can't expose the enemy king.
#[inline(always)]
#[tactic(auto, using(chess_flights::proofs::Bitboards::man_of_word, chess_flights::proofs::Bitboards::off_denied, chess_rules::proofs::Walks::on_first))]
fn men_off_blockers(board: &Board, squares: &CheckSquares, kind: Kind) -> Squares
    ensures stands { (s : ℕ) → s < 64 → (bit_at result s == 1) ≡ true
        → man_on board.now.men s ≡ Some (own_man board.now kind) }
    ensures unblocking { (s : ℕ) → s < 64 → (bit_at result s == 1) ≡ true
        → (bit_at squares.now.blocker_squares s == 1) ≡ false }
{
    board.squares(board.turn(), kind) & !squares.blockers()
}

// Returns the squares of the mover's pawns that could reach no check square on an empty board.
#[inline(always)]
fn far_pawns<R: Rules>(board: &Board, squares: &CheckSquares) -> Squares
    requires well_formed { IsWellFormed board.now }
    requires squares { AreCheckSquares board.now.men (other board.now.turn) squares.now }
    ensures { (s : ℕ) → s < 64 → (bit_at result s == 1) ≡ true
        → AreCheckTargets R.rule board.now s 0 }
{
    let targets = targets_off_blockers::<R>(board, squares, Kind::Pawn, None);
    men_off_blockers(board, squares, Kind::Pawn) & !pawns_before(board.turn(), targets)
}

// Returns whether the man could reach none of `targets` from `from` on an empty board.
#[inline(always)]
#[tactic(auto, using(crate::proofs::FarMen::far_by))]
fn is_far<R: Rules>(board: &Board, man: Man, from: Square, targets: Squares) -> bool
    requires here { man_on board.now.men from ≡ Some man }
    requires targets { AreCheckTargets R.rule board.now from targets }
    ensures { result ≡ true → AreCheckTargets R.rule board.now from 0 }
{
    unblocked_targets(man, from) & targets == 0
}

// Returns the squares of the mover's men of this kind, other than king, that could reach no check square
// on an empty board.
#[inline(always)]
#[tactic(auto, using(chess_attacks::proofs::HoldTaken::rest_falls, chess_flights::proofs::Hurdles::rest_on, crate::proofs::FarMen::far_either, chess_attacks::proofs::Bits::off_zero, crate::proofs::FarMen::far_one))]
fn far_men<R: Rules>(board: &Board, squares: &CheckSquares, kind: Kind) -> Squares
    requires well_formed { IsWellFormed board.now }
    requires squares { AreCheckSquares board.now.men (other board.now.turn) squares.now }
    requires no_king { same_kind kind King ≡ false }
    ensures { (s : ℕ) → s < 64 → (bit_at result s == 1) ≡ true
        → AreCheckTargets R.rule board.now s 0 }
{
    let man = Man {
        colour: board.turn(),
        kind,
    };
    let men = men_off_blockers(board, squares, kind);
    if men == 0 {
        return 0;
    }
    let targets = targets_off_blockers::<R>(board, squares, kind, None);
    let mut far = 0u64;
    let mut rest = men;
    while let Some(from) = pop_first(&mut rest) {
        if is_far::<R>(board, man, from, targets) {
            far |= only(Some(from));
        }
    }
    far
}

// Returns the square of the mover's king if it could reach no check square on an empty board, castling
// included.
#[inline(always)]
#[tactic(auto, using(chess_attacks::proofs::Bits::off_zero, crate::proofs::FarMen::far_one))]
fn far_king<R: Rules>(board: &Board, squares: &CheckSquares) -> Squares
    requires well_formed { IsWellFormed board.now }
    requires squares { AreCheckSquares board.now.men (other board.now.turn) squares.now }
    ensures { (s : ℕ) → s < 64 → (bit_at result s == 1) ≡ true
        → AreCheckTargets R.rule board.now s 0 }
{
    let Some(from) = next_bit(men_off_blockers(board, squares, Kind::King), 0) else {
        return 0;
    };
    let king = Man {
        colour: board.turn(),
        kind: Kind::King,
    };
    let targets = targets_off_blockers::<R>(board, squares, Kind::King, Some(from));
    if !is_far::<R>(board, king, from, targets) {
        return 0;
    }
    only(Some(from))
}

// Returns the squares of the mover's men.
fn own_squares(board: &Board) -> Squares
    ensures { result ≡ side_of board.now.men board.now.turn }
{
    board.side(board.turn())
}

// Returns the squares of the mover's men except those that could reach no check square on an empty board.
#[tactic(auto, using(crate::proofs::FarMen::check_origins_own))]
pub(crate) fn check_origins<R: Rules>(board: &Board, squares: &CheckSquares) -> Squares
    requires well_formed { IsWellFormed board.now }
    requires squares { AreCheckSquares board.now.men (other board.now.turn) squares.now }
    ensures { AreCheckOrigins R.rule board.now result }
{
    let own = own_squares(board);
    if may_check_from_everywhere::<R>(board, squares) {
        return own;
    }
    let far = far_pawns::<R>(board, squares)
        | far_men::<R>(board, squares, Kind::Knight)
        | far_men::<R>(board, squares, Kind::Bishop)
        | far_men::<R>(board, squares, Kind::Rook)
        | far_king::<R>(board, squares);
    own & !far
}
