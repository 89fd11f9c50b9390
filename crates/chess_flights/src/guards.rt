//! The squares that attackers reach over hurdles.
ghost use Rattle.std.specs.Prelude.{◌≡◌, ◌<◌, ◌==◌, ℕ, true};
ghost use Rattle.std.specs.Int.{bit_at};
ghost use Rattle.chess_core.specs.declared.man.Man.{Man};
ghost use Rattle.chess_flights.specs.ties.Guards.{AreReached, IsAttackedOver, IsKindReach, IsNear, IsReached, IsReachedFrom, is_leaper, is_rider, moves_as, reached_over};

use crate::attackers::Attackers;
use crate::by_kind::{ForKind, for_each_kind, union_of};
use chess_attacks::reach::reach_over;
use chess_attacks::unblocked::unblocked_reach;
use chess_attacks::words::pop_first;
use chess_core::{Colour, Gait, Kind, Man, Square, Squares};

/// Returns the squares that the man on `from` reaches over the hurdles.
#[tactic(auto, using(chess_attacks::proofs::rays::OnSquares::occupied_on, crate::proofs::Hurdles::reached_is, chess_attacks::proofs::Bits::word_has), unfolding(crate::specs::ties::Guards::reached_over))]
pub fn reach_from(hurdles: Squares, man: Man, from: Square) -> Squares
    ensures all { IsReached hurdles man from result }
    ensures alone { (t : ℕ) → t < 64 → (bit_at result t == 1) ≡ true
        → reached_over hurdles man from t ≡ true }
{
    reach_over(hurdles, man.colour, man.kind, from)
}

// Returns the squares that the man on `from` reaches over the hurdles; none if it could reach no square
// of the region on any board.
#[tactic(auto, using(crate::proofs::Bitboards::none_at, crate::proofs::Bitboards::not_near))]
fn reach_towards(hurdles: Squares, man: Man, from: Square, region: Squares) -> Squares
    ensures all { IsNear man from region → IsReached hurdles man from result }
    ensures alone { (t : ℕ) → t < 64 → (bit_at result t == 1) ≡ true
        → reached_over hurdles man from t ≡ true }
{
    if unblocked_reach(man, from) & region == 0 {
        return 0;
    }
    reach_from(hurdles, man, from)
}

// Returns the squares that men of this colour and kind on `squares` reach over the hurdles. Leaves out
// men that could reach no square of the region on any board.
#[tactic(auto, using(chess_attacks::proofs::HoldTaken::taken_all, chess_attacks::proofs::HoldTaken::taken_none, chess_attacks::proofs::HoldTaken::rest_falls, chess_attacks::proofs::Bits::off_zero))]
fn reach_together(hurdles: Squares, man: Man, squares: Squares, region: Squares) -> Squares
    ensures all { (s : ℕ) → s < 64 → (bit_at squares s == 1) ≡ true
        → IsNear man s region → IsReached hurdles man s result }
    ensures alone { (t : ℕ) → t < 64 → (bit_at result t == 1) ≡ true
        → IsReachedFrom hurdles man squares t }
{
    let mut reached = 0u64;
    let mut rest = squares;
    while let Some(from) = pop_first(&mut rest) {
        let more = reach_towards(hurdles, man, from, region);
        reached |= more;
    }
    reached
}

/// Returns the squares that attackers of one kind reach over the hurdles. Leaves out attackers that could
/// reach no square of the region on any board.
#[tactic(auto, using(crate::proofs::Bitboards::none_at))]
pub fn reach_of(
    hurdles: Squares,
    colour: Colour,
    kind: Kind,
    squares: Squares,
    region: Squares,
) -> Squares
    ensures all { (s : ℕ) → s < 64 → (bit_at squares s == 1) ≡ true
        → IsNear (record { colour = colour; kind = kind }) s region
        → IsReached hurdles (record { colour = colour; kind = kind }) s result }
    ensures alone { (t : ℕ) → t < 64 → (bit_at result t == 1) ≡ true
        → IsReachedFrom hurdles (record { colour = colour; kind = kind }) squares t }
{
    if squares == 0 {
        return 0;
    }
    reach_together(hurdles, Man { colour, kind }, squares, region)
}

// The squares that men of one gait near the region reach over the hurdles.
#[derive(Drop)]
struct GaitReach {
    hurdles: Squares,
    colour: Colour,
    region: Squares,
    gait: Gait,
}

impl ForKind<Squares> for GaitReach {
    type Out = Squares;

    ghost holds = { λ f k s w. IsKindReach f.hurdles f.region (moves_as f.gait)
        (record { colour = f.colour; kind = k }) s w };

    #[inline(always)]
    fn of(&self, kind: Kind, squares: Squares) -> Squares {
        let counts = match kind.gait() {
            Gait::Leaper => matches!(self.gait, Gait::Leaper),
            Gait::Rider => matches!(self.gait, Gait::Rider),
            Gait::Hopper => matches!(self.gait, Gait::Hopper),
        };
        if !counts {
            return 0;
        }
        reach_of(self.hurdles, self.colour, kind, squares, self.region)
    }
}

// Returns the squares that men of this gait near the region reach over the hurdles.
#[tactic(auto, using(crate::proofs::Hurdles::kinds_attack, crate::proofs::Hurdles::kinds_reach))]
#[inline(always)]
fn gait_reach(hurdles: Squares, men: &Attackers, region: Squares, gait: Gait) -> Squares
    ensures all { AreReached hurdles men.now region (moves_as gait) result }
    ensures alone { (t : ℕ) → t < 64 → (bit_at result t == 1) ≡ true
        → IsAttackedOver hurdles men.now t }
{
    let colour = men.colour;
    let reach = GaitReach {
        hurdles,
        colour,
        region,
        gait,
    };
    union_of(&for_each_kind(&reach, &men.squares))
}

/// Returns the squares that riders near the region reach over the hurdles.
#[inline(always)]
pub fn rider_reach(hurdles: Squares, men: &Attackers, region: Squares) -> Squares
    ensures all { AreReached hurdles men.now region is_rider result }
    ensures alone { (t : ℕ) → t < 64 → (bit_at result t == 1) ≡ true
        → IsAttackedOver hurdles men.now t }
{
    gait_reach(hurdles, men, region, Gait::Rider)
}

/// Returns the squares that leapers near the region reach.
pub fn leapt_squares(hurdles: Squares, men: &Attackers, region: Squares) -> Squares
    ensures all { AreReached hurdles men.now region is_leaper result }
    ensures alone { (t : ℕ) → t < 64 → (bit_at result t == 1) ≡ true
        → IsAttackedOver hurdles men.now t }
{
    gait_reach(hurdles, men, region, Gait::Leaper)
}
