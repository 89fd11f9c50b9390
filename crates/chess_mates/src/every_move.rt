//! Positions in which each legal move mates.
ghost use Rattle.std.specs.Prelude.{◌≡◌, ◌<◌, ◌==◌, ◌&&◌, IfSome, Some, false, not, true};
ghost use Rattle.std.specs.Int.{bit_at};
ghost use Rattle.std.specs.List.{list_all};
ghost use Rattle.chess_core.specs.Position.{man_on, other, same_kind};
ghost use Rattle.chess_core.specs.declared.man.Kind.TheVariants.{King};
ghost use Rattle.chess_core.specs.declared.man.Man.{Man};
ghost use Rattle.chess_core.specs.WellFormed.{IsWellFormed};
ghost use Rattle.chess_mates.specs.ties.CheckSquares.{AreCheckSquares};
ghost use Rattle.chess_flights.specs.ties.Flights.{AreOpen};
ghost use Rattle.chess_mates.specs.ties.KnownFlights.{IsUnreached};
ghost use Rattle.chess_rules.specs.Legal.{is_legal, is_nil, moves};
ghost use Rattle.chess_flights.specs.ties.Mates.{is_mating};
ghost use Rattle.chess_rules.specs.ties.Places.{IsPlaceIn, moves_after};

use crate::checks::{CheckSquares, check_squares, may_check};
use chess_attacks::Rules;
use chess_attacks::attacks_on::has_attacker_in;
use chess_attacks::leaps::king_leaps;
use chess_attacks::occupancy::occupancy_after;
use chess_attacks::words::{contains, pop_first};
use chess_core::{Board, Man, Move, Square, Squares};
use chess_rules::unplayed::{arrivals, capture_square};
use chess_rules::{LegalCursor, is_mate, play, unplay};

/// Returns whether the side to move has a legal move and each of its legal moves mates. A move that
/// can't give check decides this without being played. The board is unchanged.
#[tactic(auto, using(chess_flights::proofs::Mating::quietly))]
pub fn every_move_mates<R: Rules>(board: &mut Board) -> bool
    requires { IsWellFormed board.old }
    ensures answer { result ≡ (not (is_nil (moves R.rule board.old))
        && list_all (is_mating R.rule board.old) (moves R.rule board.old)) }
    ensures board { board.new ≡ board.old }
{
    let squares = check_squares(board, board.turn().other());
    if steps_quietly::<R>(board, &squares) {
        return false;
    }
    let cursor = LegalCursor::<R>::of(board);
    if has_quiet_move::<R>(board, &squares, cursor) {
        return false;
    }
    only_mates::<R>(board, cursor)
}

// Returns the squares to which the king on `king` may step, whether attacked or not; none in Circe.
#[inline(always)]
#[tactic(auto, using(crate::proofs::QuietSteps::open_steps, chess_attacks::proofs::Bits::off_zero))]
fn step_squares<R: Rules>(board: &Board, king: Square) -> Squares
    ensures { (x : Man) → man_on board.now.men king ≡ Some x → same_kind x.kind King ≡ true
        → AreOpen R.rule board.now.men board.now.turn king result }
{
    if R::captures_are_reborn() {
        return 0;
    }
    king_leaps(king) & arrivals::<R>(board, king)
}

// Returns whether no enemy reaches the king after its step from `from` to `to`.
#[tactic(auto, using(chess_flights::proofs::Mating::quietly))]
fn is_unreached(board: &Board, king: Man, from: Square, to: Square) -> bool
    ensures { result ≡ true → IsUnreached board.now king from to }
{
    let captured = capture_square(
        board,
        king,
        Move {
            from,
            to,
            promo: None,
        },
    );
    let occupancy = occupancy_after(board, from, captured, to);
    !has_attacker_in(board, occupancy, to, board.turn().other())
}

// Returns the first of the squares where no enemy reaches the king after its step.
#[tactic(auto, using(chess_attacks::proofs::HoldTaken::rest_falls, chess_flights::proofs::Hurdles::rest_here, chess_flights::proofs::Hurdles::rest_on))]
fn first_unreached(board: &Board, king: Man, from: Square, squares: Squares) -> Option<Square>
    ensures within { IfSome result (λ t. (t < 64) × ((bit_at squares t == 1) ≡ true)) }
    ensures unreached { IfSome result (λ t. IsUnreached board.now king from t) }
{
    let mut rest = squares;
    while let Some(to) = pop_first(&mut rest) {
        if is_unreached(board, king, from, to) {
            return Some(to);
        }
    }
    None
}

// Returns whether the king certainly has a legal step that gives no check; `false` says nothing. No move
// is played.
#[tactic(auto, using(crate::proofs::QuietSteps::step_legal))]
fn steps_quietly<R: Rules>(board: &Board, squares: &CheckSquares) -> bool
    requires well_formed { IsWellFormed board.now }
    requires squares { AreCheckSquares board.now.men (other board.now.turn) squares.now }
    ensures { result ≡ true
        → list_all (is_mating R.rule board.now) (moves R.rule board.now) ≡ false }
{
    let Some(from) = board.king_of(board.turn()) else {
        return false;
    };
    if contains(squares.blockers(), from) {
        return false;
    }
    let Some(king) = board.man_at(from) else {
        return false;
    };
    let steps = step_squares::<R>(board, from);
    let Some(to) = first_unreached(board, king, from, steps) else {
        return false;
    };
    let step = Move {
        from,
        to,
        promo: None,
    };
    is_quiet::<R>(board, squares, step)
}

// Returns whether some legal move after the cursor certainly gives no check.
fn has_quiet_move<R: Rules>(
    board: &mut Board,
    squares: &CheckSquares,
    mut cursor: LegalCursor<R>,
) -> bool
    requires well_formed { IsWellFormed board.old }
    requires squares { AreCheckSquares board.old.men (other board.old.turn) squares.now }
    requires place { IsPlaceIn R.rule board.old cursor }
    ensures quiet { result ≡ true
        → list_all (is_mating R.rule board.old) (moves_after R.rule board.old cursor.place)
        ≡ false }
    ensures board { board.new ≡ board.old }
{
    while let Some(m) = cursor.next(board) {
        if is_quiet::<R>(board, squares, m) {
            return true;
        }
    }
    false
}

// Returns whether the legal move certainly gives no check, so that it doesn't mate.
#[tactic(auto, using(chess_flights::proofs::Mating::quietly))]
fn is_quiet<R: Rules>(board: &Board, squares: &CheckSquares, m: Move) -> bool
    requires well_formed { IsWellFormed board.now }
    requires legal { is_legal R.rule board.now m ≡ true }
    requires squares { AreCheckSquares board.now.men (other board.now.turn) squares.now }
    ensures { result ≡ true → is_mating R.rule board.now m ≡ false }
{
    !may_check::<R>(board, squares, &m)
}

// Returns whether there is a legal move after the cursor, and each one mates.
fn only_mates<R: Rules>(board: &mut Board, mut cursor: LegalCursor<R>) -> bool
    requires well_formed { IsWellFormed board.old }
    requires place { IsPlaceIn R.rule board.old cursor }
    ensures answer { result ≡ (not (is_nil (moves_after R.rule board.old cursor.place))
        && list_all (is_mating R.rule board.old) (moves_after R.rule board.old cursor.place)) }
    ensures board { board.new ≡ board.old }
{
    let mut some = false;
    while let Some(m) = cursor.next(board) {
        if !mates_by::<R>(board, m) {
            return false;
        }
        some = true;
    }
    some
}

// Returns whether the legal move mates. The board is unchanged.
#[tactic(auto, using(chess_rules::proofs::LegalMoves::may_be_made))]
fn mates_by<R: Rules>(board: &mut Board, m: Move) -> bool
    requires well_formed { IsWellFormed board.old }
    requires legal { is_legal R.rule board.old m ≡ true }
    ensures answer { result ≡ is_mating R.rule board.old m }
    ensures board { board.new ≡ board.old }
{
    let undo = play::<R>(board, m);
    let mated = is_mate::<R>(board);
    unplay::<R>(board, m, undo);
    mated
}
