//! The steps of an attacked king after which a reply might mate.
ghost use Rattle.std.specs.Prelude.{◌≡◌, ◌<◌, ◌==◌, ℕ, IfSome, not, true, false};
ghost use Rattle.std.specs.Int.{bit_at};
ghost use Rattle.chess_core.specs.Steps.{gait_of, is_hopper};
ghost use Rattle.chess_threats.specs.declared.king_attack.KingAttack.{KingAttack};
ghost use Rattle.chess_threats.specs.ties.LastingFlights.{AreOpenTargets};
ghost use Rattle.chess_threats.specs.ties.KingAttack.{AreExactSteps, IsStepCacheOf, AreUnhopping, IsBarred, IsPlainStep, IsDecidedStep, IsSafeStep, IsSparedStep, KeepsFlight};
ghost use Rattle.chess_flights.specs.ties.Guards.{AreReached, IsAttackedOver};

use crate::king_attack::KingAttack;
use crate::king_zone::{MOST_ATTACKERS, adjacent_squares};
use crate::lasting_flights::{OpenTargets, keeps_one};
use crate::risk::risk_at;
use crate::safe_steps::doubtful_steps;
use chess_attacks::Rules;
use chess_attacks::leaps::king_leaps;
use chess_attacks::words::{only, pop_first};
use chess_core::{Square, Squares};
use chess_flights::guards::{leapt_squares, rider_reach};

// Steps of the king (`steps`), the steps among them after which a reply might mate (`risky`), and the
// rules for which this was computed: whether men of one kind paralyse each other (`stand_still`), and
// whether captured men are reborn (`reborn`).
#[derive(Clone, Copy)]
pub(crate) struct StepCache {
    steps: Squares,
    stand_still: bool,
    reborn: bool,
    risky: Squares,
}

impl StepCache {
    // Returns the empty cache.
    pub(crate) fn none() -> StepCache
        ensures { (v : KingAttack) → IsStepCacheOf v result }
    {
        StepCache {
            steps: 0,
            stand_still: false,
            reborn: false,
            risky: 0,
        }
    }
}

// Returns whether the king certainly keeps a flight after its step to `to`, whatever is played next.
#[inline(always)]
fn keeps_flight_at<R: Rules>(king_attack: &KingAttack, targets: &OpenTargets, to: Square) -> bool
    requires { AreOpenTargets king_attack.now.men targets.now }
    ensures { result ≡ true → KeepsFlight R.rule king_attack.now to }
{
    !R::captures_are_reborn()
        && keeps_one(&king_attack.men, targets, adjacent_squares(king_attack, to))
}

// Returns `to` if it is critical for a king there, otherwise no square.
#[tactic(auto, using(crate::proofs::Sparing::one_square))]
fn critical_step(king_attack: &KingAttack, to: Square) -> Squares
    ensures { (bit_at result to == 1) ≡ false → (bit_at king_attack.now.hurdles to == 1) ≡ false
        → IsSafeStep king_attack.now to }
{
    to.show_below_64();
    only(Some(to)) & risk_at(king_attack, to).critical
}

// Returns which of the steps to empty squares might allow mate, by the risk of each.
#[tactic(auto, using(chess_attacks::proofs::HoldTaken::taken_all, chess_attacks::proofs::HoldTaken::taken_none, chess_attacks::proofs::HoldTaken::rest_falls))]
fn critical_steps(king_attack: &KingAttack, steps: Squares) -> Squares
    ensures { (t : ℕ) → t < 64 → (bit_at steps t == 1) ≡ true → (bit_at result t == 1) ≡ false
        → (bit_at king_attack.now.hurdles t == 1) ≡ false → IsSafeStep king_attack.now t }
{
    let mut critical = 0u64;
    let mut rest = steps;
    while let Some(to) = pop_first(&mut rest) {
        let more = critical_step(king_attack, to);
        critical |= more;
    }
    critical
}

// Returns which of the steps might allow mate: those after which the king may keep no flight, and a man is
// on the square or it is critical there.
fn risky_among<R: Rules>(king_attack: &KingAttack, targets: &OpenTargets, steps: Squares) -> Squares
    requires { AreOpenTargets king_attack.now.men targets.now }
    ensures { (t : ℕ) → t < 64 → (bit_at steps t == 1) ≡ true → (bit_at result t == 1) ≡ false
        → IsSparedStep R.rule king_attack.now t }
{
    let flightless = flightless_steps::<R>(king_attack, targets, steps);
    let empty = flightless & !king_attack.hurdles;
    if empty == 0 {
        return flightless;
    }
    let doubtful = doubtful_steps::<R>(king_attack, targets, empty);
    flightless & king_attack.hurdles | critical_steps(king_attack, doubtful)
}

// The fewest steps for which it is worth finding out which are legal.
const FEW_STEPS: u32 = 3;

// Returns the squares that attackers other than grasshoppers reach. Leaves out attackers that could
// reach no square of the region on any board.
#[tactic(auto, using(chess_flights::proofs::Hurdles::all_reach))]
#[inline(always)]
fn reached_squares(king_attack: &KingAttack, region: Squares) -> Squares
    ensures all { AreReached king_attack.now.hurdles king_attack.now.men region
        (λ k. not (is_hopper (gait_of k))) result }
    ensures alone { (t : ℕ) → t < 64 → (bit_at result t == 1) ≡ true
        → IsAttackedOver king_attack.now.hurdles king_attack.now.men t }
{
    let ridden = rider_reach(king_attack.hurdles, &king_attack.men, region);
    ridden | leapt_squares(king_attack.hurdles, &king_attack.men, region)
}

// Returns whether the attackers' reach decides which steps are legal: the attackers are few, with no
// grasshopper among them.
#[tactic(auto, using(crate::proofs::ExactSteps::none_hops))]
fn reach_decides_steps(king_attack: &KingAttack) -> bool
    ensures { result ≡ true → AreUnhopping king_attack.now.men }
{
    king_attack.men.squares.grasshoppers == 0 && king_attack.enemies.count_ones() <= MOST_ATTACKERS
}

// Returns the squares next to the king; in Circe only the empty ones.
#[tactic(auto, using(chess_attacks::proofs::Bits::word_has))]
fn plain_squares<R: Rules>(king_attack: &KingAttack) -> Squares
    ensures { (t : ℕ) → t < 64 → (bit_at result t == 1) ≡ true
        → IsPlainStep R.rule king_attack.now t }
{
    let near = king_leaps(king_attack.king);
    if R::captures_are_reborn() {
        return near & !king_attack.hurdles;
    }
    near
}

// Returns exactly which of the squares the king may legally step to. Returns `None` if this isn't
// computed: in Madrasi, for few squares, against many attackers or grasshoppers, and if the king may
// castle or, in Circe, capture on one of the squares.
#[tactic(auto, using(crate::proofs::ExactSteps::unreached_are))]
pub(crate) fn exact_steps<R: Rules>(king_attack: &KingAttack, squares: Squares) -> Option<Squares>
    ensures { IfSome result (λ w. AreExactSteps R.rule king_attack.now squares w) }
{
    if squares.count_ones() < FEW_STEPS
        || R::like_men_paralyse()
        || !reach_decides_steps(king_attack)
    {
        return None;
    }
    if squares & !plain_squares::<R>(king_attack) != 0 {
        return None;
    }
    Some(squares & !reached_squares(king_attack, squares))
}

// Returns the steps without those to an empty attacked square, which are illegal unless attackers may be
// paralysed. If there are few steps, or `exact_steps` has already selected the legal ones, returns them
// unchanged.
#[tactic(auto, using(crate::proofs::Barring::barred_is))]
fn unbarred_steps<R: Rules>(king_attack: &KingAttack, steps: Squares) -> Squares
    ensures { (t : ℕ) → t < 64 → (bit_at steps t == 1) ≡ true
        → (bit_at result t == 1) ≡ false → IsBarred R.rule king_attack.now t }
{
    if steps.count_ones() < FEW_STEPS || R::like_men_paralyse() {
        return steps;
    }
    if !R::captures_are_reborn() && reach_decides_steps(king_attack) {
        return steps;
    }
    steps & (king_attack.hurdles | !reached_squares(king_attack, steps))
}

// Returns which of the steps might allow mate; the steps are legal ones and perhaps others.
#[tactic(auto, using(chess_attacks::proofs::Basics::cases_Bool))]
fn risky_steps<R: Rules>(king_attack: &KingAttack, targets: &OpenTargets, steps: Squares) -> Squares
    requires { AreOpenTargets king_attack.now.men targets.now }
    ensures { (t : ℕ) → t < 64 → (bit_at steps t == 1) ≡ true → (bit_at result t == 1) ≡ false
        → IsDecidedStep R.rule king_attack.now t }
{
    let unbarred = unbarred_steps::<R>(king_attack, steps);
    risky_among::<R>(king_attack, targets, unbarred)
}

// Returns which of the steps might allow mate. Takes them from `cache` if that is for these steps and
// rules; otherwise computes them and stores them there.
pub(crate) fn cached_risky_steps<R: Rules>(
    king_attack: &KingAttack,
    targets: &OpenTargets,
    cache: &mut StepCache,
    steps: Squares,
) -> Squares
    requires targets { AreOpenTargets king_attack.now.men targets.now }
    requires cache { IsStepCacheOf king_attack.now cache.old }
    ensures risky { (t : ℕ) → t < 64 → (bit_at steps t == 1) ≡ true
        → (bit_at result t == 1) ≡ false → IsDecidedStep R.rule king_attack.now t }
    ensures cache { IsStepCacheOf king_attack.now cache.new }
{
    let stand_still = R::like_men_paralyse();
    let reborn = R::captures_are_reborn();
    if cache.steps == steps && cache.stand_still == stand_still && cache.reborn == reborn {
        return cache.risky;
    }
    let risky = risky_steps::<R>(king_attack, targets, steps);
    *cache = StepCache {
        steps,
        stand_still,
        reborn,
        risky,
    };
    risky
}

// Returns `to` if the king might keep no flight after its step there, otherwise no square.
#[tactic(auto, using(crate::proofs::Sparing::one_square))]
fn flightless_step<R: Rules>(king_attack: &KingAttack, targets: &OpenTargets, to: Square) -> Squares
    requires { AreOpenTargets king_attack.now.men targets.now }
    ensures { (bit_at result to == 1) ≡ false → KeepsFlight R.rule king_attack.now to }
{
    to.show_below_64();
    if keeps_flight_at::<R>(king_attack, targets, to) {
        return 0;
    }
    only(Some(to))
}

// Returns the steps after which the king might keep no flight.
#[tactic(auto, using(chess_attacks::proofs::HoldTaken::taken_all, chess_attacks::proofs::HoldTaken::taken_none, chess_attacks::proofs::HoldTaken::rest_falls))]
pub(crate) fn flightless_steps<R: Rules>(
    king_attack: &KingAttack,
    targets: &OpenTargets,
    steps: Squares,
) -> Squares
    requires { AreOpenTargets king_attack.now.men targets.now }
    ensures { (t : ℕ) → t < 64 → (bit_at steps t == 1) ≡ true → (bit_at result t == 1) ≡ false
        → KeepsFlight R.rule king_attack.now t }
{
    let mut flightless = 0u64;
    let mut rest = steps;
    while let Some(to) = pop_first(&mut rest) {
        let more = flightless_step::<R>(king_attack, targets, to);
        flightless |= more;
    }
    flightless
}
