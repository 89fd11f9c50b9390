//! The king zone: the squares where a king might go, and the squares from which it might be checked. A
//! hopper reaches a square only over a man on a springboard, a square next to it.
ghost use Rattle.std.specs.Prelude.{◌≡◌, ◌≢◌, ◌<◌, ◌==◌, ℕ, true};
ghost use Rattle.std.specs.Int.{bit_at};
ghost use Rattle.chess_core.specs.declared.man.Kind.TheVariants.{Nightrider};
ghost use Rattle.chess_core.specs.declared.man.Colour.{Colour};
ghost use Rattle.chess_threats.specs.declared.king_attack.KingAttack.{KingAttack};
ghost use Rattle.chess_threats.specs.ties.LastingFlights.{AreOpenTargets};
ghost use Rattle.chess_threats.specs.ties.KingAttack.{AreAdjacent, AreFree, AreNeeded, AreSpringboards, AreHopTargets, IsCastlingHarmless, IsKingZone, IsUnhopped, AreCaptureSquares};
ghost use Rattle.chess_flights.specs.ties.Guards.{IsReached};

use crate::king_attack::KingAttack;
use crate::lasting_flights::{OpenTargets, all_open_targets, keeps_one};
use chess_attacks::Rules;
use chess_attacks::leaps::king_leaps;
use chess_attacks::lines::{diagonal_lines, straight_lines};
use chess_attacks::reach::reach_over;
use chess_attacks::words::{highest, next_bit, only, pop_first};
use chess_core::{Colour, Kind, Square, Squares};
use chess_flights::approach_squares::promotion_squares;
use chess_flights::attackers::Attackers;
use chess_flights::guards::reach_of;

// The most attackers against which flights and risky steps are looked for. Against more, a king rarely
// keeps a flight, and its steps rarely save it.
pub(crate) const MOST_ATTACKERS: u32 = 7;

// A king zone: the king's square (`king`); the squares next to it to which it might go, attacked or not
// (`near`), and on which it might capture an arriving man (`captures`); the squares that a rook and a
// bishop on the king's square would reach (`straight`, `diagonal`), and with them a nightrider's
// (`lines`); the springboards of the king's square (`springboards`), and with them the springboards of
// `near` (`hops`); and the squares where a pawn may promote with check (`promotions`).
#[derive(Clone, Copy)]
pub(crate) struct KingZone {
    pub(crate) king: Square,
    pub(crate) near: Squares,
    pub(crate) captures: Squares,
    pub(crate) straight: Squares,
    pub(crate) diagonal: Squares,
    pub(crate) lines: Squares,
    pub(crate) springboards: Squares,
    pub(crate) hops: Squares,
    pub(crate) promotions: Squares,
}

// Squares that hoppers reach only over a man that arrives on one of these springboards.
#[derive(Clone, Copy)]
pub(crate) struct Landings {
    squares: Squares,
    springboards: Squares,
}

// Squares next to a king that hoppers reach only over an arriving man (`near`); the springboards of the
// king's own square (`own`); and the springboards of all these squares (`all`).
#[derive(Clone, Copy)]
pub(crate) struct HopTargets {
    near: Squares,
    own: Squares,
    all: Squares,
}

// Returns the squares to which a defender's king on `king` might step, attacked or not.
#[tactic(auto, using(chess_flights::proofs::Bitboards::off_denied, chess_rules::proofs::Walks::on_first, chess_attacks::proofs::Bits::word_has))]
pub(crate) fn adjacent_squares(king_attack: &KingAttack, king: Square) -> Squares
    ensures { AreAdjacent king_attack.now king result }
{
    king_leaps(king) & !king_attack.closed & !king_attack.men.squares.kings
}

// Returns the squares next to the king where it may capture, attacked or not. Returns none in Circe,
// where the attackers are on closed squares, and none if the attackers have a grasshopper.
#[tactic(auto, using(crate::proofs::KingAttacks::captures_are, chess_flights::proofs::Bitboards::none_at))]
fn capture_squares(king_attack: &KingAttack, king: Square) -> Squares
    ensures { AreCaptureSquares king_attack.now king result }
{
    if king_attack.closed & king_attack.enemies != 0 || king_attack.men.squares.grasshoppers != 0 {
        return 0;
    }
    king_leaps(king)
}

// Returns the squares that a nightrider on `king` would reach over the hurdles; none if the attackers
// have no nightrider.
#[tactic(auto, using(chess_flights::proofs::Hurdles::reached_is), unfolding(chess_flights::specs::ties::Guards::reached_over, chess_attacks::specs::Reaches::reaches_as))]
pub(crate) fn nightrider_lines(king_attack: &KingAttack, king: Square) -> Squares
    ensures { king_attack.now.men.squares.nightriders ≢ 0 → (c : Colour)
        → IsReached king_attack.now.hurdles (record { colour = c; kind = Nightrider }) king result }
{
    if king_attack.men.squares.nightriders == 0 {
        return 0;
    }
    reach_over(king_attack.hurdles, Colour::White, Kind::Nightrider, king)
}

// Returns the springboards of `to`: the squares next to it on lines from grasshoppers farther away.
#[tactic(auto, using(crate::proofs::Springboards::none_sprung, crate::proofs::Springboards::springboards_are))]
#[inline(always)]
fn springboards_of(men: &Attackers, to: Square) -> Squares
    ensures { AreSpringboards men.now to result }
{
    to.show_below_64();
    if men.squares.grasshoppers == 0 {
        return 0;
    }
    let near = king_leaps(to);
    let straight = straight_lines(to);
    let diagonal = diagonal_lines(to);
    let over = only(Some(to));
    let rooks = men.squares.grasshoppers & straight;
    let bishops = men.squares.grasshoppers & diagonal;
    let before = reach_of(over, men.colour, Kind::Rook, rooks, near) & straight;
    let aslant = reach_of(over, men.colour, Kind::Bishop, bishops, near) & diagonal;
    (before | aslant) & near
}

// Returns whether none of `squares` holds a man or is closed; the king's square `king` doesn't count.
#[tactic(auto, using(crate::proofs::Springboards::free_are))]
pub(crate) fn are_free(king_attack: &KingAttack, king: Square, squares: Squares) -> bool
    ensures { result ≡ true → AreFree king_attack.now king squares }
{
    squares & (king_attack.own | king_attack.enemies | king_attack.closed) & !only(Some(king)) == 0
}

// Returns `to` with its springboards, or no square if a grasshopper may reach `to` already.
#[tactic(auto, using(chess_flights::proofs::Bitboards::none_at, crate::proofs::Springboards::landing_is))]
fn landing_on(king_attack: &KingAttack, king: Square, to: Square) -> Landings
    ensures { (f : ℕ) → f < 64 → (bit_at result.squares f == 1) ≡ true
        → IsUnhopped king_attack.now king f result.springboards }
{
    let springboards = springboards_of(&king_attack.men, to);
    if !are_free(king_attack, king, springboards) {
        return Landings {
            squares: 0,
            springboards: 0,
        };
    }
    Landings {
        squares: only(Some(to)),
        springboards,
    }
}

// Returns which of `squares` no grasshopper reaches yet, with their springboards.
#[tactic(auto, using(chess_attacks::proofs::HoldTaken::rest_falls, chess_flights::proofs::Bitboards::none_at, crate::proofs::Springboards::landing_anywhere))]
fn landings_among(king_attack: &KingAttack, king: Square, squares: Squares) -> Landings
    ensures { (f : ℕ) → f < 64 → (bit_at result.squares f == 1) ≡ true
        → IsUnhopped king_attack.now king f result.springboards }
{
    if king_attack.men.squares.grasshoppers == 0 {
        return Landings {
            squares,
            springboards: 0,
        };
    }
    let mut found = 0u64;
    let mut springboards = 0u64;
    let mut rest = squares;
    while let Some(to) = pop_first(&mut rest) {
        let more = landing_on(king_attack, king, to);
        found |= more.squares;
        springboards |= more.springboards;
    }
    Landings {
        squares: found,
        springboards,
    }
}

// Returns the squares next to a king on `king` that hoppers reach only over an arriving man, with the springboards of
// these squares and of its own.
pub(crate) fn hop_targets_of(king_attack: &KingAttack, king: Square) -> HopTargets
    ensures { AreHopTargets king_attack.now king result }
{
    let own = springboards_of(&king_attack.men, king);
    let adjacent = adjacent_squares(king_attack, king);
    let landings = landings_among(king_attack, king, adjacent);
    HopTargets {
        near: adjacent & landings.squares,
        own,
        all: own | landings.springboards,
    }
}

// Returns the hop targets of a king on `king` against attackers without a grasshopper: there are no
// springboards.
#[tactic(auto, using(crate::proofs::Springboards::landing_anywhere, crate::proofs::Springboards::none_sprung))]
pub(crate) fn no_hop_targets(king_attack: &KingAttack, king: Square) -> HopTargets
    requires { king_attack.now.men.squares.grasshoppers ≡ 0 }
    ensures { AreHopTargets king_attack.now king result }
{
    HopTargets {
        near: adjacent_squares(king_attack, king),
        own: 0,
        all: 0,
    }
}

// Returns the king zone of a defender's king on `king`. `riders` are the squares that a nightrider there
// would reach, if the attackers have one.
#[inline(always)]
pub(crate) fn king_zone_of(
    king_attack: &KingAttack,
    king: Square,
    riders: Squares,
    hop_targets: &HopTargets,
) -> KingZone
    requires riders { king_attack.now.men.squares.nightriders ≢ 0 → (c : Colour)
        → IsReached king_attack.now.hurdles (record { colour = c; kind = Nightrider }) king riders }
    requires hop_targets { AreHopTargets king_attack.now king hop_targets.now }
    ensures king { result.king ≡ king }
    ensures king_zone { IsKingZone king_attack.now result }
{
    let straight = reach_over(king_attack.hurdles, Colour::White, Kind::Rook, king);
    let diagonal = reach_over(king_attack.hurdles, Colour::White, Kind::Bishop, king);
    KingZone {
        king,
        near: hop_targets.near,
        captures: capture_squares(king_attack, king),
        straight,
        diagonal,
        lines: straight | diagonal | riders,
        springboards: hop_targets.own,
        hops: hop_targets.all,
        promotions: promotion_squares(
            king_attack.men.colour,
            king_attack.men.fairy_promotions,
            king,
        ),
    }
}

// Returns whether no castling by the attackers gives check: neither by the rook on its new square, nor
// by another man once the king has left. Returns `false` if they may castle and have fairy riders or hoppers.
#[tactic(auto, using(crate::proofs::KingAttacks::harmless_castling))]
pub(crate) fn castling_is_harmless(king_attack: &KingAttack, king_zone: &KingZone) -> bool
    ensures { result ≡ true → IsCastlingHarmless king_attack.now king_zone.now }
{
    let rooks = straight_lines(king_zone.king) & king_attack.castled;
    let kings = king_zone.lines & king_attack.men.squares.kings;
    let fairies = king_attack.men.squares.grasshoppers | king_attack.men.squares.nightriders;
    (king_attack.castled == 0) | ((rooks == 0) & (kings == 0) & (fairies == 0))
}

// Computes the attackers' targets, as if each attacker were alone on the board. In Circe and against
// many attackers, all squares count as targets instead.
#[inline(always)]
pub(crate) fn compute_targets<R: Rules>(king_attack: &KingAttack, targets: &mut OpenTargets)
    ensures { AreOpenTargets king_attack.now.men targets.new }
{
    if R::captures_are_reborn() || king_attack.enemies.count_ones() > MOST_ATTACKERS {
        *targets = OpenTargets::unknown();
        return;
    }
    *targets = all_open_targets(&king_attack.men);
}

// Returns the first and the last of `squares`; no square if there are none. The choice of these two
// affects speed only.
#[tactic(auto, using(crate::proofs::KingAttacks::fewer_adjacent))]
fn ends_of(squares: Squares) -> Squares
    ensures { (v : KingAttack) (k : ℕ) → AreAdjacent v k squares → AreAdjacent v k result }
{
    if squares == 0 {
        return 0;
    }
    squares & (only(next_bit(squares, 0)) | only(Some(highest(squares))))
}

// Returns the squares that other men must not occupy if the king, which stays, is to keep a flight. They
// are next to the king, no attacker would reach them if it were alone on the board, and no single move
// takes all of them. If two of them are enough, only these two are returned. If one move can take them
// all, every square is returned.
#[tactic(auto, using(chess_rules::proofs::Targeting::every_square_on))]
#[inline(always)]
pub(crate) fn needed_squares(king_attack: &KingAttack, targets: &OpenTargets) -> Squares
    requires { AreOpenTargets king_attack.now.men targets.now }
    ensures { AreNeeded king_attack.now result }
{
    let flights = adjacent_squares(king_attack, king_attack.king) & !targets.guarded;
    let ends = ends_of(flights);
    if keeps_one(&king_attack.men, targets, ends) {
        return ends;
    }
    if ends != flights && keeps_one(&king_attack.men, targets, flights) {
        return flights;
    }
    !0
}
