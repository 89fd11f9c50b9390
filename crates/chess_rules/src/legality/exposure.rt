//! Tests whether a move leaves its own king in check.
ghost use Rattle.std.specs.Prelude.{◌≡◌, ◌==◌, ◌&&◌, IfSome, List, Option, not, true};
ghost use Rattle.std.specs.Int.{bit_at};
ghost use Rattle.chess_core.specs.Position.{is_man, is_of_colour, man_on, other};
ghost use Rattle.chess_core.specs.Squares.{some_square};
ghost use Rattle.chess_core.specs.ties.Words.{word};
ghost use Rattle.chess_core.specs.declared.man.Man.{Man};
ghost use Rattle.chess_core.specs.WellFormed.{IsWellFormed};
ghost use Rattle.chess_attacks.specs.Attacks.{in_check, is_attacked, is_paralysed};
ghost use Rattle.chess_rules.specs.Legal.{is_pseudo_legal};
ghost use Rattle.chess_rules.specs.Play.{position_after};
ghost use Rattle.chess_attacks.specs.Reaches.{reaches};
ghost use Rattle.chess_rules.specs.ties.Exposure.{DescribesMenAfter, AreOthers, is_arriving_as, is_simple, king_after, own_after};
ghost use Rattle.chess_attacks.specs.ties.Occupancy.{DescribesMen};

use crate::making_moves::play::{arriving_man, capture_square, is_castling, play};
use crate::making_moves::undoing::unplay;
use chess_attacks::attacks_on::{attackers_in, has_attacker_in, reaching_among};
use chess_attacks::occupancy::{Occupancy, occupancy_after};
use chess_attacks::words::{only, pop_first};
use chess_attacks::{Rules, in_check};
use chess_core::{Board, Kind, Man, Move, Square, Squares};

// Returns the square of the mover's king after this man has made the move.
fn king_after(board: &Board, man: Man, m: Move) -> Option<Square>
    ensures { result ≡ king_after board.now man m }
{
    if man.kind.is(Kind::King) {
        Some(m.to)
    } else {
        board.king_of(board.turn())
    }
}

/// Returns whether the move does no more than move this man and remove at most one captured man: it
/// isn't castling, and nobody is reborn. `captures` says whether it captures.
pub fn is_simple<R: Rules>(man: Man, m: Move, captures: bool) -> bool
    ensures { result ≡ is_simple R.rule man m captures }
{
    !is_castling(man, m) && !(R::captures_are_reborn() && captures)
}

// Returns the arrival square if the man that arrives there is of this kind; otherwise no square.
#[tactic(auto, using(crate::proofs::Exposing::arrives_as, crate::proofs::Exposing::arrives_otherwise))]
fn arrival_as(man: Man, m: Move, kind: Kind) -> Squares
    ensures { result ≡ word (is_arriving_as man m kind) }
{
    if arriving_man(man, m.promo).kind.is(kind) {
        only(Some(m.to))
    } else {
        0
    }
}

// Returns the squares of the mover's men of this kind after a simple move; `occupancy` is the occupancy
// after it.
fn own_squares_after(board: &Board, occupancy: Occupancy, man: Man, m: Move, kind: Kind) -> Squares
    ensures { result ≡ own_after board.now.men occupancy man m kind }
{
    board.squares(man.colour, kind) & occupancy.standing & !only(Some(m.from))
        | arrival_as(man, m, kind)
}

// Returns whether one of the mover's men of this kind reaches the square after the move; `occupancy` is
// the occupancy after it.
fn is_attacked_by_like_after(
    board: &Board,
    occupancy: Occupancy,
    man: Man,
    m: Move,
    square: Square,
    kind: Kind,
) -> bool
    ensures { (men : List (Option Man)) → DescribesMenAfter board.now.men men man m occupancy
        → result ≡ some_square (λ s. is_man (man_on men s) man.colour kind
        && reaches men s square) }
{
    let own = own_squares_after(board, occupancy, man, m, kind);
    reaching_among(occupancy.occupied, own, square, man.colour, kind) != 0
}

// Returns whether the enemy man on the square is paralysed after the move.
#[tactic(auto, using(crate::proofs::Exposing::faced_king, crate::proofs::Exposing::none_paralysed, crate::proofs::Exposing::paralysed_by), unfolding(chess_attacks::specs::Attacks::is_paralysed))]
fn is_paralysed_after<R: Rules>(
    board: &Board,
    occupancy: Occupancy,
    man: Man,
    m: Move,
    square: Square,
) -> bool
    ensures { (men : List (Option Man)) → DescribesMenAfter board.now.men men man m occupancy
        → is_of_colour (man_on men square) (other man.colour) ≡ true
        → result ≡ is_paralysed R.rule men square }
{
    if !R::like_men_paralyse() {
        return false;
    }
    match board.man_at(square) {
        Some(enemy) => {
            !enemy.kind.is(Kind::King)
                && is_attacked_by_like_after(board, occupancy, man, m, square, enemy.kind)
        }
        None => false,
    }
}

// Returns whether an enemy man on one of the squares of `word` isn't paralysed after the move.
fn some_unparalysed_after<R: Rules>(
    board: &Board,
    occupancy: Occupancy,
    man: Man,
    m: Move,
    word: Squares,
) -> bool
    ensures { (men : List (Option Man)) → DescribesMenAfter board.now.men men man m occupancy
        → AreOthers men man.colour word
        → result ≡ some_square (λ s. bit_at word s == 1 && not (is_paralysed R.rule men s)) }
{
    let mut rest = word;
    while let Some(square) = pop_first(&mut rest) {
        if !is_paralysed_after::<R>(board, occupancy, man, m, square) {
            return true;
        }
    }
    false
}

// Returns whether the opponent attacks the square after the move.
#[inline(always)]
fn is_attacked_after<R: Rules>(
    board: &Board,
    occupancy: Occupancy,
    man: Man,
    m: Move,
    square: Square,
) -> bool
    ensures { (men : List (Option Man)) → DescribesMenAfter board.now.men men man m occupancy
        → DescribesMen board.now.men men (other man.colour) occupancy
        → result ≡ is_attacked R.rule men square (other man.colour) }
{
    let enemy = man.colour.other();
    if !R::like_men_paralyse() {
        return has_attacker_in(board, occupancy, square, enemy);
    }
    let attackers = attackers_in(board, occupancy, square, enemy);
    some_unparalysed_after::<R>(board, occupancy, man, m, attackers)
}

// Returns whether the move leaves its own king in check, without playing it; `None` if the move isn't
// simple.
#[inline(always)]
fn leaves_king_in_check_unplayed<R: Rules>(board: &Board, m: Move) -> Option<bool>
    requires well_formed { IsWellFormed board.now }
    requires pseudo { is_pseudo_legal R.rule board.now m ≡ true }
    ensures { IfSome result (λ b. b ≡ in_check R.rule (position_after R.rule board.now m).men
        board.now.turn) }
{
    let from = m.from;
    let to = m.to;
    to.show_below_64();
    let Some(man) = board.man_at(from) else {
        return None;
    };
    let captured = capture_square(board, man, m);
    if !is_simple::<R>(man, m, captured.is_some()) {
        return None;
    }
    let Some(king) = king_after(board, man, m) else {
        return Some(false);
    };
    let occupancy = occupancy_after(board, from, captured, to);
    Some(is_attacked_after::<R>(board, occupancy, man, m, king))
}

// Returns whether the move leaves its own king in check. The board is unchanged.
#[inline(always)]
pub(crate) fn leaves_king_in_check<R: Rules>(board: &mut Board, m: Move) -> bool
    requires well_formed { IsWellFormed board.old }
    requires pseudo { is_pseudo_legal R.rule board.old m ≡ true }
    ensures answer { result
        ≡ in_check R.rule (position_after R.rule board.old m).men board.old.turn }
    ensures board { board.new ≡ board.old }
{
    match leaves_king_in_check_unplayed::<R>(board, m) {
        Some(exposed) => exposed,
        None => leaves_king_in_check_played::<R>(board, m),
    }
}

// Returns whether the move leaves its own king in check, by playing it and taking it back. The board is
// unchanged.
fn leaves_king_in_check_played<R: Rules>(board: &mut Board, m: Move) -> bool
    requires well_formed { IsWellFormed board.old }
    requires pseudo { is_pseudo_legal R.rule board.old m ≡ true }
    ensures answer { result
        ≡ in_check R.rule (position_after R.rule board.old m).men board.old.turn }
    ensures board { board.new ≡ board.old }
{
    let mover = board.turn();
    let undo = play::<R>(board, m);
    let exposed = in_check::<R>(board, mover);
    unplay::<R>(board, m, undo);
    exposed
}
