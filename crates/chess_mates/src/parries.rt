//! Parries of a check by men other than the king, known before the check is given: some man can capture
//! the checker or interpose, or no man can.
ghost use Rattle.std.specs.Prelude.{◌≡◌, ◌&&◌, ◌<◌, ◌==◌, ℕ, List, Option, true, false};
ghost use Rattle.chess_core.specs.Position.{Position, is_of_colour, man_on, other};
ghost use Rattle.chess_core.specs.Squares.{is_square, some_square};
ghost use Rattle.chess_core.specs.Steps.{along};
ghost use Rattle.chess_core.specs.WellFormed.{IsWellFormed};
ghost use Rattle.chess_core.specs.declared.man.Colour.TheVariants.{White};
ghost use Rattle.chess_core.specs.declared.man.Kind.TheVariants.{Pawn};
ghost use Rattle.chess_core.specs.declared.man.Man.{Man};
ghost use Rattle.chess_core.specs.ties.Words.{squares_of, word};
ghost use Rattle.chess_mates.specs.ties.CheckSquares.{AreCheckSquares};
ghost use Rattle.chess_mates.specs.ties.Parries.{AreBetween, AreParries, AreParriesKnown, IsShutBy, IsKnownBetween, IsUncaptured, comes, is_unpinned};
ghost use Rattle.chess_attacks.specs.Reaches.{forward, reaches, reaches_as};
ghost use Rattle.chess_rules.specs.Legal.{is_pseudo_legal};
ghost use Rattle.chess_rules.specs.Play.{position_after};
ghost use Rattle.std.specs.Int.{bit_at};
ghost use Rattle.chess_attacks.specs.ties.Lines.{occupied_squares};
ghost use Rattle.chess_attacks.specs.ties.Occupancy.{DescribesMen};

use crate::checks::CheckSquares;
use chess_attacks::Rules;
use chess_attacks::attacks_on::attackers_in;
use chess_attacks::leaps::{king_leaps, pawn_advances};
use chess_attacks::lines::{diagonal_lines, straight_lines};
use chess_attacks::occupancy::{Occupancy, occupancy_after};
use chess_attacks::reach::reach_over;
use chess_attacks::words::{contains, next_bit, only, pop_first};
use chess_core::{Board, Colour, Kind, Man, Move, Square, Squares};
use chess_rules::unplayed::{cannot_expose, capture_square, fairy_lines};

/// What is known of parries of a check by legal moves of men other than the king.
#[derive(Clone, Copy)]
pub(crate) enum Parries {
    /// Some man can parry.
    Possible,
    /// No man can parry.
    Impossible,
    /// Nothing is known.
    Unknown,
}

// Returns whether the parries of the man's move can be computed: the man is no king and doesn't promote,
// no line to the enemy king opens, nobody is reborn, and no man is paralysed.
fn are_parries_known<R: Rules>(board: &Board, squares: &CheckSquares, man: Man, m: Move) -> bool
    requires { AreCheckSquares board.now.men (other board.now.turn) squares.now }
    ensures { result ≡ true → AreParriesKnown R.rule board.now man m }
{
    !man.kind.is(Kind::King)
        && m.promo.is_none()
        && !R::captures_are_reborn()
        && !R::like_men_paralyse()
        && cannot_expose::<R>(board, board.turn().other(), squares.blockers(), m)
}

// Returns the squares whose men may leave them after the move without exposing the enemy king on `king`:
// they block no line to it, alone or together with the moved man.
#[tactic(auto, using(crate::proofs::Parrying::unpinned_beside))]
fn unpinned_squares(board: &Board, squares: &CheckSquares, m: Move, king: Square) -> Squares
    requires { AreCheckSquares board.now.men (other board.now.turn) squares.now }
    ensures { result ≡ word (is_unpinned board.now m king) }
{
    m.from.show_below_64();
    let blockers = squares.blockers();
    let lines = straight_lines(king) | diagonal_lines(king);
    if contains(lines, m.from) {
        return !(blockers | lines);
    }
    !blockers
}

// Returns the squares between `to` and `king`, if `to` is on one of `lines`: the squares that a man of
// this kind reaches from both. Otherwise returns none.
#[inline(always)]
fn seen_from_both(
    occupied: Squares,
    lines: Squares,
    kind: Kind,
    to: Square,
    king: Square,
) -> Squares
    ensures { (men : List (Option Man)) → occupied ≡ occupied_squares men
        → (bit_at lines to == 1) ≡ true
        → result ≡ word (λ t. reaches_as men White kind to t && reaches_as men White kind king t) }
{
    if !contains(lines, to) {
        return 0;
    }
    reach_over(occupied, Colour::White, kind, to) & reach_over(occupied, Colour::White, kind, king)
}

// Returns the squares between `to` and `king`, if both are on one line.
#[inline(always)]
fn squares_between(occupied: Squares, to: Square, king: Square) -> Squares
    ensures { (men : List (Option Man)) → occupied ≡ occupied_squares men
        → AreBetween men to king result }
{
    to.show_below_64();
    let straight = seen_from_both(occupied, straight_lines(king), Kind::Rook, to, king);
    let diagonal = seen_from_both(occupied, diagonal_lines(king), Kind::Bishop, to, king);
    straight | diagonal
}

// Returns whether the man on `to` no longer reaches the king after the first of `comers` has gone to
// `square`; `false` without comers.
fn closes_line(
    occupied: Squares,
    man: Man,
    to: Square,
    king: Square,
    square: Square,
    comers: Squares,
) -> bool
    ensures { result ≡ true → IsShutBy occupied comers man to king square }
{
    king.show_below_64();
    let Some(from) = next_bit(comers, 0) else {
        return false;
    };
    let occupied_after = occupied & !only(Some(from)) | only(Some(square));
    !contains(reach_over(occupied_after, man.colour, man.kind, to), king)
}

// Returns the squares from which a pawn of this colour reaches the square by one step.
#[tactic(auto, using(crate::proofs::Parrying::pawns_after))]
fn pawn_origins(colour: Colour, square: Square) -> Squares
    ensures { (s : ℕ) → s < 64 → (bit_at result s == 1) ≡ true
        → is_square (along s (forward colour) 1) square ≡ true }
{
    square.show_below_64();
    pawn_advances(colour.other(), square) & king_leaps(square)
}

// Returns whether a man of the colour, except the king, can go to the empty `square`. `reaching` are the
// squares of the men that reach it, `pawns` the squares of the pawns.
fn is_approached(
    reaching: Squares,
    pawns: Squares,
    square: Square,
    king: Square,
    colour: Colour,
) -> bool
    ensures { (men : List (Option Man))
        → reaching ≡ word (λ s. is_of_colour (man_on men s) colour && reaches men s square)
        → pawns ≡ squares_of men colour Pawn
        → result ≡ some_square (comes men colour king square) }
{
    let pieces = reaching & !pawns & !only(Some(king));
    (pieces | pawns & pawn_advances(colour.other(), square)) != 0
}

// Returns what is known of parries by interposing between the man that arrives on `m.to` and the king on
// `king`.
#[tactic(auto, using(chess_attacks::proofs::HoldTaken::rest_falls, chess_flights::proofs::Hurdles::rest_on))]
#[inline(always)]
fn parries_between(
    board: &Board,
    occupancy: Occupancy,
    man: Man,
    m: Move,
    king: Square,
    unpinned: Squares,
) -> Parries
    ensures { (men : List (Option Man))
        → DescribesMen board.now.men men (other board.now.turn) occupancy
        → unpinned ≡ word (is_unpinned board.now m king)
        → IsKnownBetween men board.now man m king result }
{
    let to = m.to;
    let enemy = board.turn().other();
    let held = occupancy.occupied | fairy_lines(board, enemy);
    let seen = squares_between(occupancy.occupied, to, king);
    let between = seen & !held;
    let mut nobody_comes = seen & held == 0;
    let mut rest = between;
    while let Some(square) = pop_first(&mut rest) {
        let reaching = attackers_in(board, occupancy, square, enemy);
        let pawns = board.squares(enemy, Kind::Pawn) & occupancy.standing;
        let loose = reaching & unpinned;
        let comers = loose & !pawns | pawns & unpinned & pawn_origins(enemy, square);
        if closes_line(occupancy.occupied, man, to, king, square, comers) {
            return Parries::Possible;
        }
        nobody_comes &= !is_approached(reaching, pawns, square, king, enemy);
    }
    if nobody_comes {
        Parries::Impossible
    } else {
        Parries::Unknown
    }
}

// Returns whether nobody but the king can capture the checker on `to`. Returns `false` for a pawn, which
// might be captured en passant, and for a fairy man. `capturers` are the squares of the men that reach the
// checker.
fn is_uncaptured(occupied: Squares, capturers: Squares, man: Man, to: Square, king: Square) -> bool
    ensures { result ≡ true → IsUncaptured occupied capturers man to king }
{
    king.show_below_64();
    capturers & !only(Some(king)) == 0
        && !man.kind.is(Kind::Pawn)
        && !man.kind.is_fairy()
        && contains(reach_over(occupied, man.colour, man.kind, to), king)
}

// Returns what is known of the parries of the move, if it gives check: `Possible` if an unpinned man can
// capture the checker or interpose, so that the move doesn't mate; `Impossible` if no man can, pinned or
// not.
pub(crate) fn parries_after<R: Rules>(board: &Board, squares: &CheckSquares, m: Move) -> Parries
    requires well_formed { IsWellFormed board.now }
    requires pseudo { is_pseudo_legal R.rule board.now m ≡ true }
    requires squares { AreCheckSquares board.now.men (other board.now.turn) squares.now }
    ensures { AreParries R.rule (position_after R.rule board.now m) result }
{
    let from = m.from;
    let to = m.to;
    let Some(man) = board.man_at(from) else {
        return Parries::Unknown;
    };
    if !are_parries_known::<R>(board, squares, man, m) {
        return Parries::Unknown;
    }
    let enemy = board.turn().other();
    let Some(king) = board.king_of(enemy) else {
        return Parries::Unknown;
    };
    to.show_below_64();
    let occupancy = occupancy_after(board, from, capture_square(board, man, m), to);
    let unpinned = unpinned_squares(board, squares, m, king);
    let capturers = attackers_in(board, occupancy, to, enemy);
    let loose = capturers & unpinned;
    if loose != 0 {
        return Parries::Possible;
    }
    match parries_between(board, occupancy, man, m, king, unpinned) {
        Parries::Possible => Parries::Possible,
        Parries::Impossible if is_uncaptured(occupancy.occupied, capturers, man, to, king) => {
            Parries::Impossible
        }
        _ => Parries::Unknown,
    }
}
