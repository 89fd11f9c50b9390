//! King safety: checkers, blockers, and the moves that can't expose the king.
ghost use Rattle.std.specs.Prelude.{◌≡◌, ◌==◌, ◌&&◌, ◌||◌, List, Option, is_some, not};
ghost use Rattle.std.specs.Int.{bit_at};
ghost use Rattle.std.specs.Int.Bits.{bit_or};
ghost use Rattle.std.specs.List.{list_any};
ghost use Rattle.chess_core.specs.Position.{is_man, is_of_colour, king_square, man_on, other};
ghost use Rattle.chess_core.specs.Squares.{is_square, some_square};
ghost use Rattle.chess_core.specs.Steps.{diagonal_steps, straight_steps};
ghost use Rattle.chess_core.specs.declared.man.Man.{Man};
ghost use Rattle.chess_core.specs.declared.man.Kind.TheVariants.{Bishop, Queen, Rook};
ghost use Rattle.chess_attacks.specs.ties.Lines.{is_on_some, occupied_squares};
ghost use Rattle.chess_attacks.specs.Reaches.{reaches, rides};
ghost use Rattle.chess_core.specs.ties.Words.{squares_of, word};
ghost use Rattle.chess_rules.specs.ties.Blockers.{AreRides, cannot_expose, has_fairy, has_fairy_lines, is_checker, is_plain, is_line_rider, is_blocking, may_expose, may_be_hurdle, rider_along, steps_along};
ghost use Rattle.chess_attacks.specs.RuleSet.{captures_are_reborn};

use crate::making_moves::play::is_castling;
use chess_attacks::Rules;
use chess_attacks::attacks_on::{fairy_attackers, leaping_attackers_in};
use chess_attacks::lines::{
    diagonal_lines, diagonal_rides, knight_lines_with, occupied, queen_lines_with, straight_lines,
    straight_rides,
};
use chess_attacks::occupancy::occupancy_now;
use chess_attacks::words::{contains, only, pop_first};
use chess_core::{Board, Colour, Kind, Man, Move, Square, Squares};

// Returns whether men of this kind are fairy men that move along lines: riders or hoppers.
pub(crate) fn has_fairy_lines(kind: Kind) -> bool
    ensures { result ≡ has_fairy_lines kind }
{
    kind.is_fairy() && !kind.gait().is_leaper()
}

// Returns whether the colour has a grasshopper or a nightrider.
#[tactic(auto, using(crate::proofs::Blocking::some_hopper, crate::proofs::Blocking::some_nightrider))]
pub(crate) fn has_fairy(board: &Board, colour: Colour) -> bool
    ensures { result ≡ has_fairy board.now.men colour }
{
    board.squares(colour, Kind::Grasshopper) != 0 || board.squares(colour, Kind::Nightrider) != 0
}

/// Returns the squares of the lines from the colour's king that carry an enemy fairy man: queen's lines
/// with a grasshopper, nightrider's lines with a nightrider. Usually the enemy has no fairy man: that
/// test comes first.
#[inline(always)]
#[tactic(auto, using(crate::proofs::FairyLines::no_fairy_line))]
pub fn fairy_lines(board: &Board, colour: Colour) -> Squares
    ensures { result ≡ word (may_be_hurdle board.now.men colour) }
{
    if !has_fairy(board, colour.other()) {
        return 0;
    }
    lines_with_fairy_men(board, colour)
}

// Returns the squares of the lines from the colour's king that carry an enemy fairy man.
#[inline(never)]
fn lines_with_fairy_men(board: &Board, colour: Colour) -> Squares
    ensures { result ≡ word (may_be_hurdle board.now.men colour) }
{
    let side = colour.other();
    let Some(king) = board.king_of(colour) else {
        return 0;
    };
    queen_lines_with(king, board.squares(side, Kind::Grasshopper))
        | knight_lines_with(king, board.squares(side, Kind::Nightrider))
}

/// The lines of a rook or of a bishop.
#[derive(Clone, Copy)]
pub enum RiderLines {
    Straight,
    Diagonal,
}

impl RiderLines {
    // Returns the piece that rides along these lines only.
    fn rider(self) -> Kind
        ensures { result ≡ rider_along self }
    {
        match self {
            RiderLines::Straight => Kind::Rook,
            RiderLines::Diagonal => Kind::Bishop,
        }
    }

    // Returns the squares of the lines of `from`, without `from`.
    fn all(self, from: Square) -> Squares
        ensures { result ≡ word (is_on_some (steps_along self) from) }
    {
        match self {
            RiderLines::Straight => straight_lines(from),
            RiderLines::Diagonal => diagonal_lines(from),
        }
    }

    // Returns the squares that a rider on `from` reaches along these lines.
    fn rides(self, occupied: Squares, from: Square) -> Squares
        ensures { (men : List (Option Man)) → occupied ≡ occupied_squares men
            → result ≡ word (λ t. list_any (rides men from t) (steps_along self)) }
    {
        match self {
            RiderLines::Straight => straight_rides(occupied, from),
            RiderLines::Diagonal => diagonal_rides(occupied, from),
        }
    }
}

// Returns the squares that riders on these squares reach along the lines.
#[tactic(auto, using(chess_attacks::proofs::HoldTaken::is_taken, chess_attacks::proofs::HoldTaken::rest_falls, crate::proofs::legality::Riding::ridden_all, crate::proofs::legality::Riding::ridden_more))]
fn rider_reach(occupied: Squares, riders: Squares, lines: RiderLines) -> Squares
    ensures { (men : List (Option Man)) → occupied ≡ occupied_squares men
        → result ≡ word (λ s. some_square
        (λ q. bit_at riders q == 1 && list_any (rides men q s) (steps_along lines))) }
{
    let mut ridden = 0u64;
    let mut rest = riders;
    while let Some(rider) = pop_first(&mut rest) {
        ridden |= lines.rides(occupied, rider);
    }
    ridden
}

// Returns the squares of the colour's queens and of its riders along these lines.
fn line_riders(board: &Board, colour: Colour, lines: RiderLines) -> Squares
    ensures { result ≡ bit_or (squares_of board.now.men colour (rider_along lines))
        (squares_of board.now.men colour Queen) }
{
    board.squares(colour, lines.rider()) | board.squares(colour, Kind::Queen)
}

// Returns the squares of the colour's riders that are on one of these lines of the square.
#[tactic(auto, using(crate::proofs::legality::Riding::riders_are))]
fn riders_on_lines(board: &Board, colour: Colour, square: Square, lines: RiderLines) -> Squares
    ensures { result ≡ word (is_line_rider board.now.men colour (rider_along lines)
        (steps_along lines) square) }
{
    line_riders(board, colour, lines) & lines.all(square)
}

// Returns the squares that a rider on the square reaches along these lines; none if no rider of the
// colour is on them, as is usual.
fn rides_to_riders(board: &Board, colour: Colour, square: Square, lines: RiderLines) -> Squares
    ensures { AreRides board.now.men colour (rider_along lines) (steps_along lines) square result }
{
    if riders_on_lines(board, colour, square, lines) == 0 {
        return 0;
    }
    lines.rides(occupied(board), square)
}

// Returns the squares that block a line between the square and a rider of this colour; `rides` are the
// squares that a rider on the square reaches.
fn blocking_squares(
    board: &Board,
    colour: Colour,
    square: Square,
    lines: RiderLines,
    rides: Squares,
) -> Squares
    requires { AreRides board.now.men colour (rider_along lines) (steps_along lines) square rides }
    ensures { result ≡ word (is_blocking board.now.men colour (rider_along lines)
        (steps_along lines) square) }
{
    let riders = riders_on_lines(board, colour, square, lines);
    if riders == 0 {
        return 0;
    }
    rides & rider_reach(occupied(board), riders, lines)
}

// Returns the king's square and the squares that block a line between it and an enemy rider; `straight` and
// `diagonal` are the squares that a rook and a bishop on the king's square reach.
#[inline(always)]
fn blockers_of(
    board: &Board,
    colour: Colour,
    king: Square,
    straight: Squares,
    diagonal: Squares,
) -> Squares
    requires straight { AreRides board.now.men (other colour) Rook straight_steps king straight }
    requires diagonal { AreRides board.now.men (other colour) Bishop diagonal_steps king diagonal }
    ensures { result ≡ bit_or (bit_or (word (is_square (Some king)))
        (word (is_blocking board.now.men (other colour) Rook straight_steps king)))
        (word (is_blocking board.now.men (other colour) Bishop diagonal_steps king)) }
{
    let enemy = colour.other();
    only(Some(king))
        | blocking_squares(board, enemy, king, RiderLines::Straight, straight)
        | blocking_squares(board, enemy, king, RiderLines::Diagonal, diagonal)
}

// Returns the squares of the colour's men that reach the square. `straight` and `diagonal` are the
// squares that a rook and a bishop on the square reach.
#[inline(always)]
fn checkers_of(
    board: &Board,
    colour: Colour,
    square: Square,
    straight: Squares,
    diagonal: Squares,
) -> Squares
    requires straight { AreRides board.now.men colour Rook straight_steps square straight }
    requires diagonal { AreRides board.now.men colour Bishop diagonal_steps square diagonal }
    ensures { result ≡ word (λ s. is_of_colour (man_on board.now.men s) colour
        && reaches board.now.men s square) }
{
    square.show_below_64();
    let occupancy = occupancy_now(board);
    leaping_attackers_in(board, occupancy, square, colour)
        | line_riders(board, colour, RiderLines::Straight) & straight
        | line_riders(board, colour, RiderLines::Diagonal) & diagonal
        | fairy_attackers(board, occupancy, square, colour)
}

/// The safety of a king: the squares of the enemy men that reach it, paralysed or not, and the squares from
/// which a move may expose it.
#[derive(Clone, Copy)]
pub struct KingSafety {
    pub checkers: Squares,
    pub blockers: Squares,
}

/// Returns the safety of the colour's king. `straight` and `diagonal` are the squares that a rook and a
/// bishop on its square reach, if an enemy rider is on those lines; `lines` are its fairy lines.
#[inline(always)]
pub fn safety_from(
    board: &Board,
    colour: Colour,
    king: Square,
    straight: Squares,
    diagonal: Squares,
    lines: Squares,
) -> KingSafety
    requires king { king_square board.now.men colour ≡ Some king }
    requires straight { AreRides board.now.men (other colour) Rook straight_steps king straight }
    requires diagonal { AreRides board.now.men (other colour) Bishop diagonal_steps king diagonal }
    requires lines { lines ≡ word (may_be_hurdle board.now.men colour) }
    ensures checkers { result.checkers ≡ word (is_checker board.now.men colour) }
    ensures blockers { result.blockers ≡ word (may_expose board.now.men colour) }
{
    let enemy = colour.other();
    let checkers = checkers_of(board, enemy, king, straight, diagonal);
    if checkers != 0 {
        return KingSafety {
            checkers,
            blockers: !0,
        };
    }
    KingSafety {
        checkers,
        blockers: blockers_of(board, colour, king, straight, diagonal) | lines,
    }
}

/// Returns which enemy men reach the colour's king, and from which squares a move may expose it; no squares without
/// a king.
#[tactic(auto, using(crate::proofs::Blocking::checkers_none, crate::proofs::Blocking::blocker_squares_none))]
#[inline(always)]
pub fn king_safety(board: &Board, colour: Colour) -> KingSafety
    ensures checkers { result.checkers ≡ word (is_checker board.now.men colour) }
    ensures blockers { result.blockers ≡ word (may_expose board.now.men colour) }
{
    let Some(king) = board.king_of(colour) else {
        return KingSafety {
            checkers: 0,
            blockers: 0,
        };
    };
    let enemy = colour.other();
    let straight = rides_to_riders(board, enemy, king, RiderLines::Straight);
    let diagonal = rides_to_riders(board, enemy, king, RiderLines::Diagonal);
    let lines = fairy_lines(board, colour);
    safety_from(board, colour, king, straight, diagonal, lines)
}

/// Returns the squares from which a move may expose the colour's king.
pub fn blocker_squares(board: &Board, colour: Colour) -> Squares
    ensures { result ≡ word (may_expose board.now.men colour) }
{
    king_safety(board, colour).blockers
}

// Returns whether the move changes only its origin and its arrival: it isn't castling or en passant, and
// captures nobody who is reborn.
#[tactic(auto, unfolding(crate::specs::ties::Blockers::is_plain))]
pub(crate) fn is_plain<R: Rules>(board: &Board, man: Man, m: Move) -> bool
    ensures { result ≡ is_plain R.rule board.now man m }
{
    !is_castling(man, m)
        && board.crossed() != Some(m.to)
        && !(R::captures_are_reborn() && board.man_at(m.to).is_some())
}

// Returns whether a man on the square may be a hurdle for an enemy grasshopper that attacks the colour's
// king, or block a nightrider's line to it. `squares` are the squares from which a move may expose the
// king.
#[inline(always)]
#[tactic(auto, using(crate::proofs::Blocking::off_blockers, crate::proofs::Blocking::between_is))]
fn may_be_hurdle(board: &Board, colour: Colour, squares: Squares, square: Square) -> bool
    requires { squares ≡ word (may_expose board.now.men colour) }
    ensures { result ≡ may_be_hurdle board.now.men colour square }
{
    square.show_below_64();
    contains(squares, square) && contains(fairy_lines(board, colour), square)
}

// Returns whether the move arrives on no fairy line of the colour's king and changes only its two squares.
// `squares` are the squares from which a move may expose the king.
#[inline(always)]
fn stays_off_fairy_lines<R: Rules>(
    board: &Board,
    man: Man,
    colour: Colour,
    squares: Squares,
    m: Move,
) -> bool
    requires { squares ≡ word (may_expose board.now.men colour) }
    ensures { result ≡ (not (may_be_hurdle board.now.men colour m.to)
        && is_plain R.rule board.now man m) }
{
    !may_be_hurdle(board, colour, squares, m.to) && is_plain::<R>(board, man, m)
}

/// Returns whether the move can't expose the colour's king; `squares` are the squares from which a move
/// may.
#[inline(always)]
pub fn cannot_expose<R: Rules>(board: &Board, colour: Colour, squares: Squares, m: Move) -> bool
    requires { squares ≡ word (may_expose board.now.men colour) }
    ensures { result ≡ cannot_expose R.rule board.now colour m }
{
    m.from.show_below_64();
    match board.man_at(m.from) {
        Some(man) => !contains(squares, m.from)
            && stays_off_fairy_lines::<R>(board, man, colour, squares, m),
        None => false,
    }
}
