//! King's steps that one cheap test shows to be safe: no attacker that could give check next takes all flights.
ghost use Rattle.std.specs.Prelude.{◌≡◌, ◌<◌, ◌==◌, ℕ, true, false};
ghost use Rattle.std.specs.Int.{bit_at};
ghost use Rattle.chess_core.specs.Position.{same_kind};
ghost use Rattle.chess_core.specs.declared.man.Kind.TheVariants.{King};
ghost use Rattle.chess_threats.specs.ties.LastingFlights.{AreOpenTargets};
ghost use Rattle.chess_threats.specs.ties.KingAttack.{AreGuardsThrough, AreChecksMet, ArePlainAttackers, IsCheckMet, IsSafeStep};

use crate::king_attack::KingAttack;
use crate::king_zone::{MOST_ATTACKERS, adjacent_squares};
use crate::lasting_flights::{LeavesOne, OpenTargets};
use chess_attacks::Rules;
use chess_attacks::words::{contains, only, pop_first};
use chess_core::{Kind, Man, Square, Squares};
use chess_flights::approach_squares::open_approaches;
use chess_flights::attackers::Attackers;
use chess_flights::by_kind::{ForKind, is_for_all, union_of};
use chess_flights::guards::{leapt_squares, rider_reach};

// Returns the squares that the attackers reach if none of them stops a line: whichever of them leaves, the
// others reach no more.
#[tactic(auto, using(crate::proofs::SafeSteps::guards_through_are))]
#[inline(always)]
fn guards_through(king_attack: &KingAttack) -> Squares
    ensures { AreGuardsThrough king_attack.now result }
{
    let men = &king_attack.men;
    let hurdles = king_attack.hurdles & !union_of(&men.squares);
    let ridden = rider_reach(hurdles, men, !0);
    ridden | leapt_squares(hurdles, men, !0)
}

// Returns whether the attackers are few, may not castle, and have no grasshopper.
fn are_plain(king_attack: &KingAttack) -> bool
    ensures { result ≡ true → ArePlainAttackers king_attack.now }
{
    if king_attack.men.squares.grasshoppers != 0 {
        return false;
    }
    king_attack.castled == 0 && king_attack.enemies.count_ones() <= MOST_ATTACKERS
}

// Whether one square remains wherever among its targets a man of a kind other than king arrives, if it
// might give check there to a king on `king`.
#[derive(Drop)]
struct ChecksLeaveOne {
    leaves: LeavesOne,
    king: Square,
}

impl ForKind<Squares> for ChecksLeaveOne {
    type Out = bool;

    ghost holds = { λ c k targets yes. yes ≡ true → same_kind k King ≡ false → (t : ℕ) → t < 64
        → (bit_at targets t == 1) ≡ true
        → IsCheckMet c.leaves.squares (record { colour = c.leaves.colour; kind = k }) t c.king };

    #[inline(always)]
    fn of(&self, kind: Kind, targets: Squares) -> bool {
        if kind.is(Kind::King) {
            return true;
        }
        if targets == 0 {
            return true;
        }
        let colour = self.leaves.colour;
        let checks = open_approaches(Man { colour, kind }, self.king);
        self.leaves.of(kind, targets & checks)
    }
}

// Returns whether one of `squares` remains wherever an attacker other than a king arrives on a target, if it
// might give check there to a king on `king`. A promoted rook or bishop counts as a queen.
#[inline(always)]
fn all_checks_leave_one(
    men: &Attackers,
    targets: &OpenTargets,
    squares: Squares,
    king: Square,
) -> bool
    ensures { result ≡ true → AreChecksMet men.now targets.now squares king }
{
    let colour = men.colour;
    let leaves = LeavesOne { squares, colour };
    is_for_all(&ChecksLeaveOne { leaves, king }, &targets.squares)
}

// Returns whether the king's step to `to` is safe if nobody is there: no attacker reaches it now, and after
// each move that might check there a flight remains. `false` says nothing.
#[inline(always)]
fn is_safe_step(
    king_attack: &KingAttack,
    targets: &OpenTargets,
    guarded: Squares,
    to: Square,
) -> bool
    requires plain { ArePlainAttackers king_attack.now }
    requires targets { AreOpenTargets king_attack.now.men targets.now }
    requires guarded { AreGuardsThrough king_attack.now guarded }
    ensures { result ≡ true → (bit_at king_attack.now.hurdles to == 1) ≡ false
        → IsSafeStep king_attack.now to }
{
    to.show_below_64();
    if contains(guarded, to) {
        return false;
    }
    let squares = adjacent_squares(king_attack, to) & !(guarded | only(Some(to)));
    all_checks_leave_one(&king_attack.men, targets, squares, to)
}

// Returns `to` if the test doesn't show that the king's step there is safe, otherwise no square.
#[tactic(auto, using(crate::proofs::Sparing::one_square))]
#[inline(always)]
fn doubtful_step(
    king_attack: &KingAttack,
    targets: &OpenTargets,
    guarded: Squares,
    to: Square,
) -> Squares
    requires plain { ArePlainAttackers king_attack.now }
    requires targets { AreOpenTargets king_attack.now.men targets.now }
    requires guarded { AreGuardsThrough king_attack.now guarded }
    ensures { (bit_at result to == 1) ≡ false → (bit_at king_attack.now.hurdles to == 1) ≡ false
        → IsSafeStep king_attack.now to }
{
    to.show_below_64();
    if is_safe_step(king_attack, targets, guarded, to) {
        return 0;
    }
    only(Some(to))
}

// Returns the steps that the test doesn't show to be safe.
#[tactic(auto, using(chess_attacks::proofs::HoldTaken::taken_all, chess_attacks::proofs::HoldTaken::taken_none, chess_attacks::proofs::HoldTaken::rest_falls))]
fn doubtful_among(
    king_attack: &KingAttack,
    targets: &OpenTargets,
    guarded: Squares,
    steps: Squares,
) -> Squares
    requires plain { ArePlainAttackers king_attack.now }
    requires targets { AreOpenTargets king_attack.now.men targets.now }
    requires guarded { AreGuardsThrough king_attack.now guarded }
    ensures { (t : ℕ) → t < 64 → (bit_at steps t == 1) ≡ true → (bit_at result t == 1) ≡ false
        → (bit_at king_attack.now.hurdles t == 1) ≡ false → IsSafeStep king_attack.now t }
{
    let mut doubtful = 0u64;
    let mut rest = steps;
    while let Some(to) = pop_first(&mut rest) {
        let more = doubtful_step(king_attack, targets, guarded, to);
        doubtful |= more;
    }
    doubtful
}

// Returns the steps that aren't known to be safe without their risk: all in Circe, and unless the attackers
// are plain.
#[inline(never)]
pub(crate) fn doubtful_steps<R: Rules>(
    king_attack: &KingAttack,
    targets: &OpenTargets,
    steps: Squares,
) -> Squares
    requires { AreOpenTargets king_attack.now.men targets.now }
    ensures { (t : ℕ) → t < 64 → (bit_at steps t == 1) ≡ true → (bit_at result t == 1) ≡ false
        → (bit_at king_attack.now.hurdles t == 1) ≡ false → IsSafeStep king_attack.now t }
{
    if R::captures_are_reborn() || !are_plain(king_attack) {
        return steps;
    }
    doubtful_among(king_attack, targets, guards_through(king_attack), steps)
}
