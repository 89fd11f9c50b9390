//! The moves that parry a check.
ghost use Rattle.std.specs.Prelude.{◌≡◌, ◌==◌, if◌then◌else◌, is_some, not, true};
ghost use Rattle.chess_core.specs.Position.{man_on};
ghost use Rattle.chess_core.specs.WellFormed.{IsWellFormed};
ghost use Rattle.chess_core.specs.ties.Words.{word};
ghost use Rattle.chess_attacks.specs.Attacks.{in_check};
ghost use Rattle.chess_rules.specs.ties.Evasions.{AreEvasionsFrom, AreEvasions, has_fairy_lines_of, has_like, may_be_paralysed, may_paralyse_new_kind};
ghost use Rattle.chess_rules.specs.ties.Blockers.{cannot_expose, is_checker, is_plain, may_expose};
ghost use Rattle.chess_rules.specs.Legal.{is_pseudo_legal};
ghost use Rattle.chess_rules.specs.Play.{position_after};
ghost use Rattle.chess_attacks.specs.RuleSet.{captures_are_reborn, like_men_paralyse};
ghost use Rattle.chess_rules.specs.ties.Targets.{is_promoting};

use crate::legality::blockers::{cannot_expose, has_fairy_lines, is_plain};
use crate::legality::exposure::leaves_king_in_check;
use crate::legality::targets::{promoting_squares, unblocked_targets};
use chess_attacks::Rules;
use chess_attacks::lines::occupied;
use chess_attacks::reach::reach_as;
use chess_attacks::words::{contains, next_bit, only};
use chess_core::{Board, Colour, Kind, Man, Move, Square, Squares};

// Returns whether a fairy rider or hopper is on the square.
fn has_fairy_lines_on(board: &Board, square: Square) -> bool
    ensures { result ≡ has_fairy_lines_of (man_on board.now.men square) }
{
    match board.man_at(square) {
        Some(man) => has_fairy_lines(man.kind),
        None => false,
    }
}

// Returns whether the colour has a man of the same kind as the man on the square.
#[tactic(auto, using(chess_attacks::proofs::Bits::not_zero), unfolding(chess_core::specs::ties::Words::squares_of))]
fn has_like(board: &Board, colour: Colour, square: Square) -> bool
    ensures { result ≡ has_like board.now.men colour (man_on board.now.men square) }
{
    match board.man_at(square) {
        Some(man) => board.squares(colour, man.kind) != 0,
        None => false,
    }
}

// Returns whether the colour has a man that might paralyse the man on the square: in Madrasi, one of its
// kind.
fn may_be_paralysed<R: Rules>(board: &Board, colour: Colour, square: Square) -> bool
    ensures { result ≡ may_be_paralysed R.rule board.now.men colour (man_on board.now.men square) }
{
    R::like_men_paralyse() && has_like(board, colour, square)
}

// Returns the squares to which a man other than the king must go to parry a check to the colour's king;
// all squares if there is no check. Says nothing about moves that aren't plain, nor about promotions in
// Madrasi. `checkers` are the squares of the enemy men that reach the king.
pub(crate) fn evasion_squares<R: Rules>(board: &Board, colour: Colour, checkers: Squares) -> Squares
    requires { checkers ≡ word (is_checker board.now.men colour) }
    ensures { AreEvasions R.rule board.now.men colour result }
{
    let Some(checker) = next_bit(checkers, 0) else {
        return !0;
    };
    let Some(king) = board.king_of(colour) else {
        return !0;
    };
    if may_be_paralysed::<R>(board, colour, checker) {
        return !0;
    }
    if has_fairy_lines_on(board, checker) {
        return !0;
    }
    only(Some(checker))
        | (reach_as(board, colour, Kind::Queen, king)
            & reach_as(board, colour, Kind::Queen, checker))
}

// Returns whether the move might give its side the first man of a kind, which may paralyse the checker:
// in Madrasi, any promotion.
fn may_paralyse_new_kind<R: Rules>(m: Move) -> bool
    ensures { result ≡ may_paralyse_new_kind R.rule m }
{
    R::like_men_paralyse() && m.promo.is_some()
}

// Returns the squares where the man's arrival might give its side the first man of a kind, which may
// paralyse the checker: in Madrasi, a pawn's promotion squares.
fn paralysing_squares<R: Rules>(man: Man) -> Squares
    ensures { result ≡ (if like_men_paralyse R.rule then word (is_promoting man) else 0) }
{
    if R::like_men_paralyse() {
        promoting_squares(man)
    } else {
        0
    }
}

// Returns whether the move certainly leaves its own king in check: it isn't the king's and misses
// `evasion_squares`. `false` says nothing.
#[tactic(auto, using(crate::proofs::StayingInCheck::check_unmet))]
fn leaves_check<R: Rules>(board: &Board, evasion_squares: Squares, m: Move) -> bool
    requires well_formed { IsWellFormed board.now }
    requires pseudo { is_pseudo_legal R.rule board.now m ≡ true }
    requires evasion_squares { AreEvasions R.rule board.now.men board.now.turn evasion_squares }
    ensures { result ≡ true → in_check R.rule (position_after R.rule board.now m).men
        board.now.turn
        ≡ true }
{
    m.to.show_below_64();
    if contains(evasion_squares, m.to) {
        return false;
    }
    if may_paralyse_new_kind::<R>(m) {
        return false;
    }
    match board.man_at(m.from) {
        Some(man) => !man.kind.is(Kind::King) && is_plain::<R>(board, man, m),
        None => false,
    }
}

/// Returns the squares on which a capture does more than take a man off the board: all occupied squares in
/// Circe, none elsewhere.
pub fn rebirth_captures<R: Rules>(board: &Board) -> Squares
    ensures { result ≡ (if captures_are_reborn R.rule
        then word (λ s. is_some (man_on board.now.men s)) else 0) }
{
    if R::captures_are_reborn() {
        occupied(board)
    } else {
        0
    }
}

// Returns a superset of the squares to which the man on `from` could go, on some board, without leaving its
// king in check; all squares for a king or if there is no check. `evasion_squares` are the squares where
// another man may parry.
#[tactic(auto, using(crate::proofs::EvasionTargets::evasions_from_all, crate::proofs::EvasionTargets::evasions_from_some, crate::proofs::Targeting::nobody_moves))]
#[inline(always)]
pub(crate) fn evasions_from<R: Rules>(
    board: &Board,
    evasion_squares: Squares,
    from: Square,
) -> Squares
    requires well_formed { IsWellFormed board.now }
    requires evasion_squares { AreEvasions R.rule board.now.men board.now.turn evasion_squares }
    ensures { AreEvasionsFrom R.rule board.now from result }
{
    from.show_below_64();
    if evasion_squares == !0 {
        return !0;
    }
    let Some(man) = board.man_at(from) else {
        return 0;
    };
    if man.kind.is(Kind::King) {
        return !0;
    }
    unblocked_targets(man, from)
        & (evasion_squares
            | only(board.crossed())
            | rebirth_captures::<R>(board)
            | paralysing_squares::<R>(man))
}

// Returns whether the mover isn't in check after the move. `squares` are the squares from which a move
// may expose its king, `evasion_squares` the squares where a move may parry a check. The board is
// unchanged.
#[tactic(auto, using(crate::proofs::Blocking::cannot_expose_own))]
#[inline(always)]
pub(crate) fn is_safe<R: Rules>(
    board: &mut Board,
    squares: Squares,
    evasion_squares: Squares,
    m: Move,
) -> bool
    requires well_formed { IsWellFormed board.old }
    requires pseudo { is_pseudo_legal R.rule board.old m ≡ true }
    requires squares { squares ≡ word (may_expose board.old.men board.old.turn) }
    requires evasion_squares { AreEvasions R.rule board.old.men board.old.turn evasion_squares }
    ensures answer { result ≡ not (in_check R.rule (position_after R.rule board.old m).men
        board.old.turn) }
    ensures board { board.new ≡ board.old }
{
    m.to.show_below_64();
    if cannot_expose::<R>(board, board.turn(), squares, m) {
        return true;
    }
    if leaves_check::<R>(board, evasion_squares, m) {
        return false;
    }
    !leaves_king_in_check::<R>(board, m)
}
