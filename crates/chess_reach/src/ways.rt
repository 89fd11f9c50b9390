//! How far a man gets in a number of moves, wherever other men are.
ghost use Rattle.std.specs.Prelude.{◌≡◌, ◌≢◌, ◌<◌, ◌≤◌, ◌==◌, ℕ, true, [], false, Bool, Some, if◌then◌else◌};
ghost use Rattle.std.specs.Int.{bit_at};
ghost use Rattle.chess_core.specs.Position.{is_fairy};
ghost use Rattle.chess_core.specs.Squares.{file_of, rank_of};
ghost use Rattle.chess_core.specs.declared.man.Colour.{Colour};
ghost use Rattle.chess_core.specs.declared.man.Kind.{Kind};
ghost use Rattle.chess_core.specs.declared.man.Kind.TheVariants.{Bishop, King, Knight, Pawn, Queen, Rook};
ghost use Rattle.chess_attacks.specs.Reaches.{reaches_as};
ghost use Rattle.chess_rules.specs.Legal.{last_rank, second_rank};
ghost use Rattle.chess_rules.specs.Play.{is_light, rebirth};
ghost use Rattle.chess_reach.specs.Reach.{pawn_goes, without_hops};
ghost use Rattle.chess_reach.specs.ties.Whereabouts.{has};
ghost use Rattle.chess_reach.specs.ties.Ways.{IsChain, Leads, Rests, TakesOn, by_side, steps_to};

use crate::whereabouts::{Whereabouts, if_any};
use chess_attacks::leaps::{king_leaps, pawn_advances, pawn_leaps};
use chess_attacks::unblocked::unblocked_reach;
use chess_attacks::words::{contains, pop_first};
use chess_core::{Colour, Kind, Man, Square, Squares};

/// One more than the most moves of a plan.
pub(crate) const MOVES: usize = 9;

/// Where a man can be within each number of moves.
pub(crate) type Chain = [Whereabouts; MOVES];

/// Returns the kind by whose lines a man guards and goes on an empty board: a grasshopper's are a queen's.
#[inline(always)]
pub(crate) fn without_hops(kind: Kind) -> Kind
    ensures { result ≡ without_hops kind }
{
    match kind {
        Kind::Grasshopper => Kind::Queen,
        _ => kind,
    }
}

// Edge files. A shift past one edge comes back on them at the other, so they are masked out.
const FILE_A: Squares = 0x0101_0101_0101_0101;

const FILE_H: Squares = 0x8080_8080_8080_8080;

const FILES_AB: Squares = 0x0303_0303_0303_0303;

const FILES_GH: Squares = 0xC0C0_C0C0_C0C0_C0C0;

// Returns the squares, and those next to them.
#[inline(always)]
fn spread_kings(squares: Squares) -> Squares
    ensures kept { (t : ℕ) → t < 64 → (bit_at squares t == 1) ≡ true
        → (bit_at result t == 1) ≡ true }
    ensures reached { (c : Colour) (s t : ℕ) → s < 64 → t < 64 → (bit_at squares s == 1) ≡ true
        → reaches_as [] c King s t ≡ true → (bit_at result t == 1) ≡ true }
{
    let row = squares | squares << 1 & !FILE_A | squares >> 1 & !FILE_H;
    row | row << 8 | row >> 8
}

// Returns the squares, and those a knight's leap away.
#[inline(always)]
fn spread_knights(squares: Squares) -> Squares
    ensures kept { (t : ℕ) → t < 64 → (bit_at squares t == 1) ≡ true
        → (bit_at result t == 1) ≡ true }
    ensures reached { (c : Colour) (s t : ℕ) → s < 64 → t < 64 → (bit_at squares s == 1) ≡ true
        → reaches_as [] c Knight s t ≡ true → (bit_at result t == 1) ≡ true }
{
    let beside = squares << 1 & !FILE_A | squares >> 1 & !FILE_H;
    let aside = squares << 2 & !FILES_AB | squares >> 2 & !FILES_GH;
    squares | (beside << 16 | beside >> 16 | aside << 8 | aside >> 8)
}

// Returns the squares, and those that men of this kind on them reach.
#[inline(always)]
fn spread(colour: Colour, kind: Kind, squares: Squares) -> Squares
    ensures kept { (t : ℕ) → t < 64 → (bit_at squares t == 1) ≡ true
        → (bit_at result t == 1) ≡ true }
    ensures reached { (s t : ℕ) → s < 64 → t < 64 → (bit_at squares s == 1) ≡ true
        → reaches_as [] colour kind s t ≡ true → (bit_at result t == 1) ≡ true }
{
    match kind {
        Kind::King => spread_kings(squares),
        Kind::Knight => spread_knights(squares),
        _ => spread_each(colour, kind, squares),
    }
}

// Returns the squares, and those that men of this kind on them reach, square by square.
#[tactic(auto, using(chess_attacks::proofs::HoldTaken::taken_all, chess_attacks::proofs::HoldTaken::taken_none, chess_attacks::proofs::HoldTaken::rest_falls))]
fn spread_each(colour: Colour, kind: Kind, squares: Squares) -> Squares
    ensures kept { (t : ℕ) → t < 64 → (bit_at squares t == 1) ≡ true
        → (bit_at result t == 1) ≡ true }
    ensures reached { (s t : ℕ) → s < 64 → t < 64 → (bit_at squares s == 1) ≡ true
        → reaches_as [] colour kind s t ≡ true → (bit_at result t == 1) ≡ true }
{
    let man = Man { colour, kind };
    let mut reached = squares;
    let mut rest = squares;
    while let Some(from) = pop_first(&mut rest) {
        let more = unblocked_reach(man, from);
        reached |= more;
    }
    reached
}

// Returns the number of squares from which on men of this kind are assumed to reach every square. A rook or
// queen on more than eight squares has moved already. Another man that got from one square to more than 40
// gets to at least 56 with its next move.
#[inline(always)]
fn enough_squares(kind: Kind) -> u32 {
    match kind {
        Kind::Queen | Kind::Rook => 9,
        _ => 41,
    }
}

// Returns the squares, and those to which pieces of this kind on them go.
fn spread_pieces(colour: Colour, kind: Kind, squares: Squares) -> Squares
    ensures kept { (t : ℕ) → t < 64 → (bit_at squares t == 1) ≡ true
        → (bit_at result t == 1) ≡ true }
    ensures reached { (s t : ℕ) → s < 64 → t < 64 → (bit_at squares s == 1) ≡ true
        → reaches_as [] colour kind s t ≡ true → (bit_at result t == 1) ≡ true }
{
    let spread_out = squares.count_ones() >= enough_squares(kind);
    if spread_out {
        return !0;
    }
    spread(colour, kind, squares)
}

// The squares from which White's pawns make a double step, and Black's.
const SECOND_RANK: Squares = 0xFF00;

const SEVENTH_RANK: Squares = 0x00FF_0000_0000_0000;

// The squares where White's pawns promote, and Black's.
const EIGHTH_RANK: Squares = 0xFF00_0000_0000_0000;

const FIRST_RANK: Squares = 0xFF;

// Returns the squares of the rank from which pawns make a double step.
#[inline(always)]
fn second_rank(colour: Colour) -> Squares
    ensures { (s : ℕ) → s < 64 → (bit_at result s == 1) ≡ (rank_of s == second_rank colour) }
{
    match colour {
        Colour::White => SECOND_RANK,
        Colour::Black => SEVENTH_RANK,
    }
}

// Returns the squares of the rank on which pawns promote.
#[inline(always)]
fn last_rank(colour: Colour) -> Squares
    ensures { (s : ℕ) → s < 64 → (bit_at result s == 1) ≡ (rank_of s == last_rank colour) }
{
    match colour {
        Colour::White => EIGHTH_RANK,
        Colour::Black => FIRST_RANK,
    }
}

// Returns the squares to which a pawn steps from this one.
#[inline(always)]
fn pawn_steps(colour: Colour, from: Square) -> Squares
    ensures { (t : ℕ) → t < 64 → steps_to colour from t ≡ true → (bit_at result t == 1) ≡ true }
{
    from.show_below_64();
    let ahead = pawn_advances(colour, from);
    if contains(second_rank(colour), from) {
        return ahead;
    }
    ahead & king_leaps(from)
}

// Returns the squares to which a pawn goes from this one, if it captures on squares of `prey` alone.
#[inline(always)]
fn pawn_targets(colour: Colour, from: Square, prey: Squares) -> Squares
    ensures { (takes : ℕ → Bool) (t : ℕ) → TakesOn takes prey → t < 64
        → pawn_goes takes colour from t ≡ true → (bit_at result t == 1) ≡ true }
{
    let steps = pawn_steps(colour, from);
    steps | pawn_leaps(colour, from) & prey
}

// Returns the squares, and those to which pawns on them go, if they capture on squares of `prey` alone.
fn spread_pawns(colour: Colour, squares: Squares, prey: Squares) -> Squares
    ensures kept { (t : ℕ) → t < 64 → (bit_at squares t == 1) ≡ true
        → (bit_at result t == 1) ≡ true }
    ensures reached { (takes : ℕ → Bool) (s t : ℕ) → TakesOn takes prey → s < 64 → t < 64
        → (bit_at squares s == 1) ≡ true → pawn_goes takes colour s t ≡ true
        → (bit_at result t == 1) ≡ true }
{
    let mut reached = squares;
    let mut rest = squares;
    while let Some(from) = pop_first(&mut rest) {
        let more = pawn_targets(colour, from, prey);
        reached |= more;
    }
    reached
}

// Returns where a man gets with one more move from where it can be, if it captures as a pawn on squares of
// `prey` alone.
fn go_on(man: Man, before: &Whereabouts, prey: Squares) -> Whereabouts
    ensures kept { (j : Kind) (t : ℕ) → t < 64 → has man.kind j t before.now ≡ true
        → has man.kind j t result ≡ true }
    ensures reached { Leads prey man before.now result }
{
    if !man.kind.is(Kind::Pawn) {
        return Whereabouts {
            unpromoted: spread_pieces(man.colour, without_hops(man.kind), before.unpromoted),
            queen: 0,
            knight: 0,
        };
    }
    let last = last_rank(man.colour);
    let pawns = spread_pawns(man.colour, before.unpromoted, prey);
    Whereabouts {
        unpromoted: before.unpromoted | pawns & !last,
        queen: pawns & last | spread_pieces(man.colour, Kind::Queen, before.queen),
        knight: pawns & last | spread(man.colour, Kind::Knight, before.knight),
    }
}

// The light squares.
const LIGHT: Squares = 0x55AA_55AA_55AA_55AA;

// Returns one of two bitboards, by the colour.
#[inline(always)]
fn by_side(colour: Colour, white: Squares, black: Squares) -> Squares
    ensures { result ≡ by_side colour white black }
{
    match colour {
        Colour::White => white,
        Colour::Black => black,
    }
}

// Returns the first homes if some of the squares is light, and the second if some is dark.
#[inline(always)]
fn by_shade(squares: Squares, light: Squares, dark: Squares) -> Squares
    ensures { (s h : ℕ) → s < 64 → (bit_at squares s == 1) ≡ true
        → (bit_at (if is_light s then light else dark) h == 1) ≡ true
        → (bit_at result h == 1) ≡ true }
{
    if_any(squares & LIGHT, light) | if_any(squares & !LIGHT, dark)
}

// Returns all squares of the files of these.
#[inline(always)]
fn whole_files(squares: Squares) -> Squares
    ensures { (s t : ℕ) → s < 64 → t < 64 → (bit_at squares s == 1) ≡ true → file_of t ≡ file_of s
        → (bit_at result t == 1) ≡ true }
{
    let two = squares | squares << 8 | squares >> 8;
    let four = two | two << 16 | two >> 16;
    four | four << 32 | four >> 32
}

// Returns the square on which queens are reborn.
#[inline(always)]
fn queen_home(colour: Colour) -> Squares
    ensures { (s h : ℕ) → rebirth colour Queen s ≡ Some h → (bit_at result h == 1) ≡ true }
{
    by_side(colour, 0x08, 0x0800_0000_0000_0000)
}

// Returns the squares on which rooks are reborn that are captured on these.
#[inline(always)]
fn rook_homes(colour: Colour, squares: Squares) -> Squares
    ensures { (s h : ℕ) → s < 64 → (bit_at squares s == 1) ≡ true
        → rebirth colour Rook s ≡ Some h → (bit_at result h == 1) ≡ true }
{
    let light = by_side(colour, 0x80, 0x0100_0000_0000_0000);
    let dark = by_side(colour, 0x01, 0x8000_0000_0000_0000);
    by_shade(squares, light, dark)
}

// Returns the squares on which bishops are reborn that are captured on these.
#[inline(always)]
fn bishop_homes(colour: Colour, squares: Squares) -> Squares
    ensures { (s h : ℕ) → s < 64 → (bit_at squares s == 1) ≡ true
        → rebirth colour Bishop s ≡ Some h → (bit_at result h == 1) ≡ true }
{
    let light = by_side(colour, 0x20, 0x0400_0000_0000_0000);
    let dark = by_side(colour, 0x04, 0x2000_0000_0000_0000);
    by_shade(squares, light, dark)
}

// Returns the squares on which knights are reborn that are captured on these.
#[inline(always)]
fn knight_homes(colour: Colour, squares: Squares) -> Squares
    ensures { (s h : ℕ) → s < 64 → (bit_at squares s == 1) ≡ true
        → rebirth colour Knight s ≡ Some h → (bit_at result h == 1) ≡ true }
{
    let light = by_side(colour, 0x02, 0x4000_0000_0000_0000);
    let dark = by_side(colour, 0x40, 0x0200_0000_0000_0000);
    by_shade(squares, light, dark)
}

// Returns the squares on which pawns are reborn that are captured on these.
#[inline(always)]
fn pawn_homes(colour: Colour, squares: Squares) -> Squares
    ensures { (s h : ℕ) → s < 64 → (bit_at squares s == 1) ≡ true
        → rebirth colour Pawn s ≡ Some h → (bit_at result h == 1) ≡ true }
{
    whole_files(squares) & second_rank(colour)
}

// Returns the squares on which fairy men are reborn that are captured on these.
#[inline(always)]
fn fairy_homes(colour: Colour, squares: Squares) -> Squares
    ensures { (kind : Kind) (s h : ℕ) → is_fairy kind ≡ true → s < 64
        → (bit_at squares s == 1) ≡ true → rebirth colour kind s ≡ Some h
        → (bit_at result h == 1) ≡ true }
{
    whole_files(squares) & last_rank(colour)
}

// Returns the squares on which men of this kind are reborn that are captured on these (Popeye manual, Circe).
fn homes(colour: Colour, kind: Kind, squares: Squares) -> Squares
    ensures { (s h : ℕ) → s < 64 → (bit_at squares s == 1) ≡ true
        → rebirth colour kind s ≡ Some h → (bit_at result h == 1) ≡ true }
{
    match kind {
        Kind::King => 0,
        Kind::Queen => queen_home(colour),
        Kind::Rook => rook_homes(colour, squares),
        Kind::Bishop => bishop_homes(colour, squares),
        Kind::Knight => knight_homes(colour, squares),
        Kind::Pawn => pawn_homes(colour, squares),
        _ => fairy_homes(colour, squares),
    }
}

// Returns the squares on which promoted men other than knights are reborn that are captured on these.
fn promoted_homes(colour: Colour, squares: Squares) -> Squares
    ensures { (kind : Kind) (s h : ℕ) → kind ≢ Knight → kind ≢ Pawn → s < 64
        → (bit_at squares s == 1) ≡ true → rebirth colour kind s ≡ Some h
        → (bit_at result h == 1) ≡ true }
{
    let queens = queen_home(colour);
    let rooks = rook_homes(colour, squares);
    let bishops = bishop_homes(colour, squares);
    let fairy_men = fairy_homes(colour, squares);
    if_any(squares, queens | rooks | bishops | fairy_men)
}

// Returns the squares, and those on which the man is reborn that is captured on them.
fn with_homes(man: Man, at: Whereabouts) -> Whereabouts
    ensures kept { (j : Kind) (t : ℕ) → has man.kind j t at ≡ true
        → has man.kind j t result ≡ true }
    ensures reborn { (are_reborn : Bool) → Rests are_reborn man at result }
{
    let own = homes(man.colour, man.kind, at.unpromoted);
    let promoted = promoted_homes(man.colour, at.queen);
    let knights = knight_homes(man.colour, at.knight);
    Whereabouts {
        unpromoted: at.unpromoted | own,
        queen: at.queen | promoted,
        knight: at.knight | knights,
    }
}

/// Returns where a man can be without another move from where it can be: there, and if men are reborn, on the
/// squares of its rebirth.
#[inline(always)]
pub(crate) fn at_rest(man: Man, at: &Whereabouts, are_reborn: bool) -> Whereabouts
    ensures kept { (j : Kind) (t : ℕ) → t < 64 → has man.kind j t at.now ≡ true
        → has man.kind j t result ≡ true }
    ensures reborn { Rests are_reborn man at.now result }
{
    if !are_reborn {
        return *at;
    }
    with_homes(man, *at)
}

/// Returns where the man can be within each number of moves, up to `most`, if it captures as a pawn on squares
/// of `prey` alone.
#[inline(always)]
pub(crate) fn chain_of(
    man: Man,
    from: Square,
    most: usize,
    prey: Squares,
    are_reborn: bool,
) -> Chain
    ensures { most < MOVES → IsChain are_reborn prey man from most result }
{
    from.show_below_64();
    let here = Whereabouts::at(from);
    let mut now = at_rest(man, &here, are_reborn);
    let mut chain = [now; MOVES];
    for n in 1..MOVES {
        if n > most {
            return chain;
        }
        let next = go_on(man, &now, prey);
        now = at_rest(man, &next, are_reborn);
        chain[n] = now;
    }
    chain
}
