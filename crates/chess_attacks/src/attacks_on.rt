//! Attackers of a square, found by looking outward from it.
ghost use Rattle.std.specs.Prelude.{◌≡◌, ℕ, ◌&&◌, ◌==◌, not, List, Option};
ghost use Rattle.std.specs.Int.{bit_at};
ghost use Rattle.chess_core.specs.Position.{is_man, is_of_colour, man_on};
ghost use Rattle.chess_core.specs.declared.man.Man.{Man};
ghost use Rattle.chess_attacks.specs.ties.Lines.{occupied_squares};
ghost use Rattle.chess_attacks.specs.ties.Occupancy.{DescribesMen};
ghost use Rattle.chess_core.specs.Squares.{some_square};
ghost use Rattle.chess_core.specs.ties.Words.{squares_of, word};
ghost use Rattle.chess_attacks.specs.Attacks.{is_paralysed};
ghost use Rattle.chess_attacks.specs.ties.Outward.{is_fairy_man, is_leaping_man, is_met, is_reached};
ghost use Rattle.chess_attacks.specs.Reaches.{reaches, reaches_as};
ghost use Rattle.chess_core.specs.Steps.{diagonal_steps, straight_steps};
ghost use Rattle.chess_core.specs.declared.man.Kind.TheVariants.{Bishop, Grasshopper, Nightrider, Rook};

use crate::lines::{
    diagonal_lines, diagonal_rides, queen_hops_back, straight_lines, straight_rides,
};
use crate::occupancy::{Occupancy, occupancy_now, squares_seen};
use crate::reach::reach_over;
use crate::rules::Rules;
use crate::words::pop_first;
use chess_core::{Board, Colour, Gait, Kind, Square, Squares};

/// Returns the squares from which a man of this colour and kind could capture on `to`. For all but hoppers
/// these are the squares that a man of the kind, of the other colour, reaches from `to`.
#[inline(always)]
pub fn reach_to(occupied: Squares, colour: Colour, kind: Kind, to: Square) -> Squares
    ensures { (men : List (Option Man)) → occupied ≡ occupied_squares men
        → result ≡ word (λ s. reaches_as men colour kind s to) }
{
    to.show_below_64();
    match kind.gait() {
        Gait::Hopper => queen_hops_back(occupied, to),
        _ => reach_over(occupied, colour.other(), kind, to),
    }
}

// Returns the squares of the men of this colour and kind that reach the square.
pub(crate) fn reaching_kind(
    board: &Board,
    occupancy: Occupancy,
    square: Square,
    colour: Colour,
    kind: Kind,
) -> Squares
    ensures { (men : List (Option Man)) → DescribesMen board.now.men men colour occupancy
        → result ≡ word (λ s. is_man (man_on men s) colour kind && reaches men s square) }
{
    let men = squares_seen(board, occupancy, colour, kind);
    reaching_among(occupancy.occupied, men, square, colour, kind)
}

/// Returns which of `squares`, all men of this colour and kind, reach the square.
pub fn reaching_among(
    occupied: Squares,
    squares: Squares,
    square: Square,
    colour: Colour,
    kind: Kind,
) -> Squares
    ensures { (men : List (Option Man)) → occupied ≡ occupied_squares men
        → squares ≡ squares_of men colour kind
        → result ≡ word (λ s. is_man (man_on men s) colour kind && reaches men s square) }
{
    if squares == 0 {
        return 0;
    }
    squares & reach_to(occupied, colour, kind, square)
}

// Returns the squares of the rooks and queens of this colour that reach the square along its file or
// rank. The first test is cheap and usually enough: no rook or queen is on these lines.
#[tactic(auto, using(crate::proofs::attacks::Attacking::met, crate::proofs::attacks::Attacking::met_none))]
fn straight_attackers(
    board: &Board,
    occupancy: Occupancy,
    square: Square,
    colour: Colour,
) -> Squares
    ensures { (men : List (Option Man)) → DescribesMen board.now.men men colour occupancy
        → result ≡ word (is_met men colour Rook straight_steps square) }
{
    let men = squares_seen(board, occupancy, colour, Kind::Rook)
        | squares_seen(board, occupancy, colour, Kind::Queen);
    if men & straight_lines(square) == 0 {
        return 0;
    }
    men & straight_rides(occupancy.occupied, square)
}

// Returns the squares of the bishops and queens of this colour that reach the square along a diagonal.
#[tactic(auto, using(crate::proofs::attacks::Attacking::met, crate::proofs::attacks::Attacking::met_none))]
#[inline(always)]
fn diagonal_attackers(
    board: &Board,
    occupancy: Occupancy,
    square: Square,
    colour: Colour,
) -> Squares
    ensures { (men : List (Option Man)) → DescribesMen board.now.men men colour occupancy
        → result ≡ word (is_met men colour Bishop diagonal_steps square) }
{
    let men = squares_seen(board, occupancy, colour, Kind::Bishop)
        | squares_seen(board, occupancy, colour, Kind::Queen);
    if men & diagonal_lines(square) == 0 {
        return 0;
    }
    men & diagonal_rides(occupancy.occupied, square)
}

// Returns the squares of the men of this colour and leaping kind that reach the square. Leaps come from
// a table, so no cheaper test comes first.
#[inline(always)]
fn leaping_attackers(
    board: &Board,
    occupancy: Occupancy,
    square: Square,
    colour: Colour,
    kind: Kind,
) -> Squares
    ensures { (men : List (Option Man)) → DescribesMen board.now.men men colour occupancy
        → result ≡ word (λ s. is_man (man_on men s) colour kind && reaches men s square) }
{
    squares_seen(board, occupancy, colour, kind)
        & reach_to(occupancy.occupied, colour, kind, square)
}

// Returns which of `squares`, all grasshoppers of this colour, reach the square. Usually none is on the
// square's queen lines: that test comes first.
fn hoppers_reaching(occupied: Squares, squares: Squares, square: Square, colour: Colour) -> Squares
    ensures { (men : List (Option Man)) → occupied ≡ occupied_squares men
        → squares ≡ squares_of men colour Grasshopper
        → result ≡ word (λ s. is_man (man_on men s) colour Grasshopper && reaches men s square) }
{
    square.show_below_64();
    if squares & (straight_lines(square) | diagonal_lines(square)) == 0 {
        return 0;
    }
    reaching_among(occupied, squares, square, colour, Kind::Grasshopper)
}

// Returns the squares of the fairy men of this colour that reach the square.
#[inline(never)]
fn fairy_men_reaching(
    occupied: Squares,
    hoppers: Squares,
    nightriders: Squares,
    square: Square,
    colour: Colour,
) -> Squares
    ensures { (men : List (Option Man)) → occupied ≡ occupied_squares men
        → hoppers ≡ squares_of men colour Grasshopper
        → nightriders ≡ squares_of men colour Nightrider
        → result ≡ word (λ s. is_fairy_man (man_on men s) colour && reaches men s square) }
{
    hoppers_reaching(occupied, hoppers, square, colour)
        | reaching_among(occupied, nightriders, square, colour, Kind::Nightrider)
}

/// Returns the squares of the standing fairy men of this colour that reach the square. Usually there are
/// no fairy men: that test comes first.
#[inline(always)]
pub fn fairy_attackers(
    board: &Board,
    occupancy: Occupancy,
    square: Square,
    colour: Colour,
) -> Squares
    ensures { (men : List (Option Man)) → DescribesMen board.now.men men colour occupancy
        → result ≡ word (λ s. is_fairy_man (man_on men s) colour && reaches men s square) }
{
    let hoppers = squares_seen(board, occupancy, colour, Kind::Grasshopper);
    let nightriders = squares_seen(board, occupancy, colour, Kind::Nightrider);
    if hoppers == 0 && nightriders == 0 {
        return 0;
    }
    fairy_men_reaching(occupancy.occupied, hoppers, nightriders, square, colour)
}

/// Returns the squares of the kings, knights and pawns of this colour that reach the square.
pub fn leaping_attackers_in(
    board: &Board,
    occupancy: Occupancy,
    square: Square,
    colour: Colour,
) -> Squares
    ensures { (men : List (Option Man)) → DescribesMen board.now.men men colour occupancy
        → result ≡ word (λ s. is_leaping_man (man_on men s) colour && reaches men s square) }
{
    leaping_attackers(board, occupancy, square, colour, Kind::King)
        | leaping_attackers(board, occupancy, square, colour, Kind::Knight)
        | leaping_attackers(board, occupancy, square, colour, Kind::Pawn)
}

/// Returns the squares of the men of this colour that reach the square.
#[inline(always)]
pub fn attackers_in(board: &Board, occupancy: Occupancy, square: Square, colour: Colour) -> Squares
    ensures { (men : List (Option Man)) → DescribesMen board.now.men men colour occupancy
        → result ≡ word (λ s. is_of_colour (man_on men s) colour && reaches men s square) }
{
    square.show_below_64();
    leaping_attackers_in(board, occupancy, square, colour)
        | straight_attackers(board, occupancy, square, colour)
        | diagonal_attackers(board, occupancy, square, colour)
        | fairy_attackers(board, occupancy, square, colour)
}

/// Returns whether a man of this colour reaches the square. Looks for leapers first: their table is
/// cheaper than lines.
#[tactic(auto, using(crate::proofs::attacks::Attacking::diagonal_reaches, crate::proofs::attacks::Attacking::leap_reaches, crate::proofs::attacks::Attacking::straight_reaches))]
#[inline(always)]
pub fn has_attacker_in(board: &Board, occupancy: Occupancy, square: Square, colour: Colour) -> bool
    ensures { (men : List (Option Man)) → DescribesMen board.now.men men colour occupancy
        → result ≡ is_reached men square colour }
{
    square.show_below_64();
    if leaping_attackers_in(board, occupancy, square, colour) != 0 {
        return true;
    }
    if straight_attackers(board, occupancy, square, colour) != 0 {
        return true;
    }
    if diagonal_attackers(board, occupancy, square, colour) != 0 {
        return true;
    }
    fairy_attackers(board, occupancy, square, colour) != 0
}

// Returns the squares of the men of this colour that reach the square on the board as it is.
pub(crate) fn attackers(board: &Board, square: Square, colour: Colour) -> Squares
    ensures { result ≡ word (λ s. is_of_colour (man_on board.now.men s) colour
        && reaches board.now.men s square) }
{
    attackers_in(board, occupancy_now(board), square, colour)
}

// Returns whether a man of this colour reaches the square, paralysed or not.
#[inline(always)]
pub(crate) fn is_reached(board: &Board, square: Square, colour: Colour) -> bool
    ensures { result ≡ is_reached board.now.men square colour }
{
    has_attacker_in(board, occupancy_now(board), square, colour)
}

// Returns whether one of the squares of `word` is empty or holds a man that isn't paralysed.
pub(crate) fn some_unparalysed<R: Rules>(board: &Board, word: Squares) -> bool
    ensures { result ≡ some_square (λ s. bit_at word s == 1
        && not (is_paralysed R.rule board.now.men s)) }
{
    let mut rest = word;
    while let Some(square) = pop_first(&mut rest) {
        if !R::paralysed(board, square) {
            return true;
        }
    }
    false
}
