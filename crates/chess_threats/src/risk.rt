//! The risk of a king: the squares where the arrival of a man of its side might allow mate, computed
//! before that side moves.
ghost use Rattle.std.specs.Prelude.{◌≡◌, ◌≢◌, ◌<◌, ◌==◌, ℕ, IfSome, true, false};
ghost use Rattle.std.specs.Int.{bit_at};
ghost use Rattle.chess_core.specs.Steps.{gait_of, is_hopper};
ghost use Rattle.chess_core.specs.declared.man.Kind.{Kind};
ghost use Rattle.chess_core.specs.declared.man.Kind.TheVariants.{Nightrider};
ghost use Rattle.chess_core.specs.declared.man.Colour.{Colour};
ghost use Rattle.chess_core.specs.declared.man.Man.{Man};
ghost use Rattle.chess_threats.specs.declared.king_attack.KingAttack.{KingAttack};
ghost use Rattle.chess_flights.specs.ties.Attackers.{IsAttacker};
ghost use Rattle.chess_flights.specs.ties.ByKind.{value_for};
ghost use Rattle.chess_flights.specs.ties.Approaches.{IsLeft, MayBecome};
ghost use Rattle.chess_threats.specs.ties.KingAttack.{AreArrivals, AreLaterHurdles, AreHopTargets, AreThreats, AreWeak, IsCheckWord, IsKingZone, IsHarmless, IsMet, IsNoCheck, IsOff, IsRiskAt, IsRiskAfterLeaving, IsSafeMove, IsKingAttack, IsWeak, IsWhole, LeavesOne, LeavesUntaken, part_of};
ghost use Rattle.chess_flights.specs.ties.Guards.{IsReached};

use crate::guards_without::{Guards, guards_without};
use crate::hopped_flights::{critical_of_hops, later_hurdles};
use crate::king_attack::{KingAttack, lifted_from};
use crate::king_zone::{
    HopTargets, KingZone, are_free, castling_is_harmless, hop_targets_of, king_zone_of,
    nightrider_lines, no_hop_targets,
};
use chess_attacks::reach::reach_over;
use chess_attacks::unblocked::unblocked_reach;
use chess_attacks::words::{contains, next_bit, only, pop_first};
use chess_core::{Colour, Kind, LAST_RANKS, Man, Square, Squares};
use chess_flights::approach_squares::open_approaches;
use chess_flights::attackers::Attackers;
use chess_flights::by_kind::{ByKind, ForKind, for_each_kind, union_of};
use chess_flights::guards::{reach_from, rider_reach};
use chess_flights::pawn_approaches::pawns_before;
use chess_rules::unplayed::unblocked_targets;

// The squares where a defender's arrival might allow mate (`critical`), and the squares of all lines on
// which a hurdle matters (`lines`).
#[derive(Clone, Copy)]
pub(crate) struct Risk {
    pub(crate) critical: Squares,
    pub(crate) lines: Squares,
}

// No square is critical.
const NO_RISK: Risk = Risk {
    critical: 0,
    lines: 0,
};

// Every square is critical.
const WHOLE_RISK: Risk = Risk {
    critical: !0,
    lines: 0,
};

// The risk after the defender on `from` has left a line on which it is a hurdle.
#[derive(Clone, Copy)]
pub(crate) struct RiskAfterLeaving {
    from: Square,
    risk: Risk,
}

// Returns which of `near` remain for the king after the man has arrived on `to`.
fn left_squares(near: Squares, man: Man, to: Square) -> Squares
    ensures { (f : ℕ) → f < 64 → (bit_at result f == 1) ≡ true → IsLeft near man to f }
{
    near & !(unblocked_reach(man, to) | only(Some(to)))
}

// Returns the squares whose occupation by a defender leaves none of `near` to the king, once the man is
// on `to`. If another attacker is on `to`, the man arrives there only by recapturing.
#[tactic(auto, using(chess_rules::proofs::Targeting::every_square_on))]
fn critical_with(near: Squares, enemies: Squares, man: Man, to: Square) -> Squares
    ensures { LeavesOne near enemies result man to }
{
    let remaining = left_squares(near, man, to);
    let Some(first) = next_bit(remaining, 0) else {
        return if contains(enemies, to) {
            only(Some(to))
        } else {
            !0
        };
    };
    let Some(_second) = next_bit(remaining, first.index() + 1) else {
        return only(Some(first));
    };
    0
}

// Returns the squares whose occupation by a defender might leave none of `near` to the king, wherever
// among `targets` the man arrives.
#[tactic(auto, using(chess_attacks::proofs::HoldTaken::rest_falls, chess_attacks::proofs::HoldTaken::taken_all, chess_attacks::proofs::HoldTaken::taken_none))]
#[inline(always)]
fn critical_after(near: Squares, enemies: Squares, man: Man, targets: Squares) -> Squares
    ensures { (t : ℕ) → t < 64 → (bit_at targets t == 1) ≡ true
        → LeavesOne near enemies result man t }
{
    let mut critical = 0u64;
    let mut rest = targets;
    while let Some(to) = pop_first(&mut rest) {
        let more = critical_with(near, enemies, man, to);
        critical |= more;
    }
    critical
}

// Returns the squares whose occupation by a defender might leave none of `near` to the king after a pawn
// arrives on one of `targets`, whatever it promotes to: a rook or bishop takes no square that a queen
// doesn't take.
#[tactic(auto, using(crate::proofs::Promotions::pawn_leaves, crate::proofs::Promotions::unpromoted_leaves))]
#[inline(never)]
fn critical_of_pawn(near: Squares, enemies: Squares, man: Man, targets: Squares) -> Squares
    ensures { (t : ℕ) → t < 64 → (bit_at targets t == 1) ≡ true → (z : Man)
        → MayBecome false man t z → LeavesOne near enemies result z t }
{
    let critical = critical_after(near, enemies, man, targets);
    let promoted = targets & LAST_RANKS;
    if promoted == 0 {
        return critical;
    }
    let colour = man.colour;
    let kind = Kind::Queen;
    let queens = critical_after(near, enemies, Man { colour, kind }, promoted);
    let kind = Kind::Knight;
    let knights = critical_after(near, enemies, Man { colour, kind }, promoted);
    critical | queens | knights
}

// Returns the squares whose occupation by a defender might leave none of `near` to the king after the
// man goes from `from` to one of `targets`. For a grasshopper it counts the hurdles that remain then.
#[inline(always)]
fn critical_of_going(
    king_attack: &KingAttack,
    king_zone: &KingZone,
    man: Man,
    from: Square,
    near: Squares,
    targets: Squares,
) -> Squares
    ensures { (t : ℕ) → t < 64 → (bit_at targets t == 1) ≡ true → (z : Man)
        → MayBecome false man t z
        → (d : ℕ) × AreLaterHurdles king_attack.now king_zone.now.king from d
        × LeavesUntaken d king_zone.now.king near king_attack.now.enemies result z t }
{
    let hurdles = later_hurdles(king_attack, king_zone.king, from);
    if man.kind.is(Kind::Grasshopper) {
        return critical_of_hops(king_zone.king, near, king_attack.enemies, hurdles, targets);
    }
    if man.kind.is(Kind::Pawn) {
        return critical_of_pawn(near, king_attack.enemies, man, targets);
    }
    critical_after(near, king_attack.enemies, man, targets)
}

// Returns whether the man may promote to a fairy man on one of the squares.
#[tactic(auto, using(crate::proofs::LastingFlights::no_last_rank, crate::proofs::Promotions::no_fairy, chess_rules::proofs::Targeting::no_pawn_arrives))]
fn may_become_fairy(men: &Attackers, man: Man, targets: Squares) -> bool
    ensures { result ≡ false → (t : ℕ) → t < 64 → (bit_at targets t == 1) ≡ true → (z : Man)
        → MayBecome men.now.fairy_promotions man t z → MayBecome false man t z }
{
    if !men.fairy_promotions || !man.kind.is(Kind::Pawn) {
        return false;
    }
    targets & LAST_RANKS != 0
}

// Returns the squares to which the man on `from` may go: a pawn or grasshopper on some board, another
// man over the hurdles.
#[tactic(auto, using(chess_flights::proofs::Standing::no_hopper))]
fn arrivals(hurdles: Squares, man: Man, from: Square) -> Squares
    ensures { AreArrivals hurdles man from result }
{
    match man.kind {
        Kind::Pawn | Kind::Grasshopper => unblocked_targets(man, from),
        _ => reach_from(hurdles, man, from),
    }
}

// Returns the reached squares from which the man gives check, lets a hopper give check, or may give
// check after promotion. A king itself gives no check.
#[tactic(auto, using(chess_rules::proofs::Walks::off_second, crate::proofs::Risks::king_targets))]
fn checking_targets(man: Man, reached: Squares, king_zone: &KingZone, checks: Squares) -> Squares
    ensures { (t : ℕ) → t < 64 → (bit_at reached t == 1) ≡ true
        → (bit_at result t == 1) ≡ false → IsNoCheck king_zone.now checks man t }
{
    if man.kind.is(Kind::King) {
        return reached & king_zone.springboards;
    }
    if man.kind.is(Kind::Pawn) {
        return reached & (checks | king_zone.promotions | king_zone.springboards);
    }
    reached & (checks | king_zone.springboards)
}

// Returns all of `reached` if another attacker gives check once the man has left, otherwise `targets`.
#[tactic(auto)]
fn watched_squares(guards: &Guards, king: Square, reached: Squares, targets: Squares) -> Squares
    ensures all { (bit_at guards.now.guarded king == 1) ≡ true → result ≡ reached }
    ensures some { (bit_at guards.now.guarded king == 1) ≡ false → result ≡ targets }
{
    if contains(guards.guarded, king) {
        reached
    } else {
        targets
    }
}

// Returns the squares among `squares` on which the king can't capture the arriving man.
#[tactic(auto, using(chess_flights::proofs::Bitboards::bit_denied, chess_attacks::proofs::Bits::off_left, chess_attacks::proofs::Bits::off_right, chess_rules::proofs::Walks::off_second))]
fn uncaptured_squares(king_zone: &KingZone, guards: &Guards, squares: Squares) -> Squares
    ensures { (t : ℕ) → t < 64 → (bit_at squares t == 1) ≡ true
        → (bit_at result t == 1) ≡ false → ((bit_at king_zone.now.captures t == 1) ≡ true)
        × ((bit_at guards.now.guarded t == 1) ≡ false) }
{
    squares & (!king_zone.captures | guards.guarded)
}

// Returns whether one of `squares`, where the man from `from` may arrive, is a springboard of another
// hopper.
#[tactic(auto, using(crate::proofs::Risks::none_checks))]
fn may_spring(
    king_attack: &KingAttack,
    king_zone: &KingZone,
    from: Square,
    squares: Squares,
) -> bool
    ensures { result ≡ false → (t : ℕ) → t < 64 → (bit_at squares t == 1) ≡ true → (q : ℕ) (z : Man)
        → IsAttacker king_attack.now.men z q → from ≢ q → is_hopper (gait_of z.kind) ≡ true
        → (bit_at king_zone.now.hops t == 1) ≡ false }
{
    let others = king_attack.men.squares.grasshoppers & !only(Some(from));
    others != 0 && king_zone.hops & squares != 0
}

// Returns the risk of the man's move from `from` to one of the squares that it reaches: to a target, or
// to any square if another attacker then gives check. There is no risk where the king captures the man.
#[inline(always)]
fn risk_of_going(
    king_attack: &KingAttack,
    king_zone: &KingZone,
    man: Man,
    from: Square,
    reached: Squares,
    targets: Squares,
) -> Risk
    ensures { (a b t : ℕ) → a < 64 → b < 64 → IsOff king_attack.now.hurdles result a b → t < 64
        → (bit_at reached t == 1) ≡ true
        → IsMet king_attack.now king_zone.now man from targets a b t }
{
    king_zone.king.show_below_64();
    let region = king_zone.near | king_zone.captures | only(Some(king_zone.king));
    let guards = guards_without(king_attack, from, region);
    let watched = watched_squares(&guards, king_zone.king, reached, targets);
    let uncaptured = uncaptured_squares(king_zone, &guards, watched);
    if may_spring(king_attack, king_zone, from, uncaptured)
        || may_become_fairy(&king_attack.men, man, uncaptured)
    {
        return WHOLE_RISK;
    }
    Risk {
        critical: critical_of_going(
            king_attack,
            king_zone,
            man,
            from,
            king_zone.near & !guards.guarded,
            uncaptured,
        ),
        lines: guards.ridden,
    }
}

// Returns the risk of the man on `from`, which gives check from the squares `checks`. Usually it
// couldn't get there even on an empty board: that test comes first.
#[inline(always)]
fn risk_from(
    king_attack: &KingAttack,
    king_zone: &KingZone,
    man: Man,
    from: Square,
    checks: Squares,
) -> Risk
    ensures { IsHarmless king_attack.now king_zone.now checks result man from }
{
    let open = unblocked_targets(man, from);
    let most = checking_targets(man, open, king_zone, checks);
    if most == 0 && !contains(king_zone.lines, from) {
        return NO_RISK;
    }
    let reached = arrivals(king_attack.hurdles, man, from);
    let targets = checking_targets(man, reached, king_zone, checks);
    if targets == 0 && !contains(king_zone.lines, from) {
        return NO_RISK;
    }
    risk_of_going(king_attack, king_zone, man, from, reached, targets)
}

// Returns the risk of the men on `squares`, all of this colour and kind.
#[tactic(auto, using(chess_attacks::proofs::HoldTaken::rest_falls, chess_attacks::proofs::HoldTaken::taken_all, chess_attacks::proofs::HoldTaken::taken_none))]
#[inline(always)]
fn risk_together(
    king_attack: &KingAttack,
    king_zone: &KingZone,
    man: Man,
    squares: Squares,
    checks: Squares,
) -> Risk
    ensures { (s : ℕ) → s < 64 → (bit_at squares s == 1) ≡ true
        → IsHarmless king_attack.now king_zone.now checks result man s }
{
    let mut critical = 0u64;
    let mut lines = 0u64;
    let mut rest = squares;
    while let Some(from) = pop_first(&mut rest) {
        let more = risk_from(king_attack, king_zone, man, from, checks);
        critical |= more.critical;
        lines |= more.lines;
    }
    Risk { critical, lines }
}

// Returns the squares from which the man would check the zone's king: for a grasshopper on some board, for
// others over the hurdles.
#[tactic(auto, using(crate::proofs::Risks::check_hops, crate::proofs::Risks::check_word))]
fn check_squares_over(king_attack: &KingAttack, king_zone: &KingZone, man: Man) -> Squares
    requires { IsKingZone king_attack.now king_zone.now }
    ensures { IsCheckWord king_attack.now.hurdles king_zone.now.king man result }
{
    if man.kind.is(Kind::Queen) {
        return king_zone.straight | king_zone.diagonal;
    }
    if man.kind.is(Kind::Rook) {
        return king_zone.straight;
    }
    if man.kind.is(Kind::Bishop) {
        return king_zone.diagonal;
    }
    if man.kind.is(Kind::Grasshopper) {
        return open_approaches(man, king_zone.king);
    }
    reach_over(
        king_attack.hurdles,
        man.colour.other(),
        man.kind,
        king_zone.king,
    )
}

// Returns a superset of the squares from which the man may give check with its next move, promoted or
// not, on an empty board, or uncover a check. All squares, unless the man is a pawn or a king and the
// king's square has no springboard.
#[tactic(auto, using(chess_rules::proofs::Targeting::every_square_on, chess_rules::proofs::Targeting::false_by, crate::proofs::Risks::king_targets, chess_flights::proofs::Bitboards::none_at, crate::proofs::Risks::pawn_idly))]
#[inline(always)]
fn suspect_squares(king_zone: &KingZone, man: Man, checks: Squares) -> Squares
    ensures { (v : KingAttack) (s : ℕ) → s < 64 → (bit_at result s == 1) ≡ false
        → IsHarmless v king_zone.now checks (record { critical = 0; lines = 0 }) man s }
{
    if king_zone.springboards != 0 {
        return !0;
    }
    if man.kind.is(Kind::Pawn) {
        return king_zone.lines | pawns_before(man.colour, checks | king_zone.promotions);
    }
    if man.kind.is(Kind::King) {
        return king_zone.lines;
    }
    !0
}

// Returns whether a man of this kind on one of `squares` gives check now. Returns `false` for
// grasshoppers: their springboards decide.
#[tactic(auto, using(crate::proofs::Risks::none_checks))]
fn check_now(man: Man, checks: Squares, squares: Squares) -> bool
    ensures { result ≡ false → is_hopper (gait_of man.kind) ≡ false → (s : ℕ)
        → (bit_at squares s == 1) ≡ true → (bit_at checks s == 1) ≡ false }
{
    if man.kind.is(Kind::Grasshopper) {
        return false;
    }
    checks & squares != 0
}

// The risk of the attackers of a kind. If one gives check now, every square is critical.
#[derive(Drop)]
struct KindRisk<'a> {
    king_attack: &'a KingAttack,
    king_zone: &'a KingZone,
}

#[tactic(auto, using(chess_rules::proofs::Targeting::every_square_on, chess_flights::proofs::Bitboards::none_at))]
impl ForKind<Squares> for KindRisk<'_> {
    type Out = Risk;

    ghost fits = { λ f. IsKingZone f.king_attack.now f.king_zone.now };

    ghost holds = { λ f k squares r. (s : ℕ) → s < 64 → (bit_at squares s == 1) ≡ true
        → IsWeak f.king_attack.now f.king_zone.now r
        (record { colour = f.king_attack.now.men.colour; kind = k }) s };

    #[inline(always)]
    fn of(&self, kind: Kind, squares: Squares) -> Risk {
        if squares == 0 {
            return NO_RISK;
        }
        let man = Man {
            colour: self.king_attack.men.colour,
            kind,
        };
        let checks = check_squares_over(self.king_attack, self.king_zone, man);
        if check_now(man, checks, squares) {
            return WHOLE_RISK;
        }
        let suspects = squares & suspect_squares(self.king_zone, man, checks);
        risk_together(self.king_attack, self.king_zone, man, suspects, checks)
    }
}

// The squares of a kind's risk: its critical squares, or its lines.
#[derive(Drop)]
pub(crate) enum RiskPart {
    Critical,
    Lines,
}

impl ForKind<Risk> for RiskPart {
    type Out = Squares;

    ghost holds = { λ f k r w. w ≡ part_of f r };

    #[inline(always)]
    fn of(&self, _kind: Kind, risk: Risk) -> Squares {
        match self {
            RiskPart::Critical => risk.critical,
            RiskPart::Lines => risk.lines,
        }
    }
}

// Returns the risks of all kinds together.
#[inline]
fn joined(risks: &ByKind<Risk>) -> Risk
    ensures critical { (k : Kind) (t : ℕ) → (bit_at (value_for risks.now k).critical t == 1) ≡ true
        → (bit_at result.critical t == 1) ≡ true }
    ensures lines { (k : Kind) (t : ℕ) → (bit_at (value_for risks.now k).lines t == 1) ≡ true
        → (bit_at result.lines t == 1) ≡ true }
{
    Risk {
        critical: union_of(&for_each_kind(&RiskPart::Critical, risks)),
        lines: union_of(&for_each_kind(&RiskPart::Lines, risks)),
    }
}

// Returns the squares that are a risk for one kind of attacker or another.
#[inline(always)]
fn risk_of_all(king_attack: &KingAttack, king_zone: &KingZone) -> Risk
    requires { IsKingZone king_attack.now king_zone.now }
    ensures { AreWeak king_attack.now king_zone.now result }
{
    let kind_risk = KindRisk {
        king_attack,
        king_zone,
    };
    joined(&for_each_kind(&kind_risk, &king_attack.men.squares))
}

// Returns the risk of a defender whose king is on `king`. `riders` are its nightrider lines,
// `hop_targets` its springboards. If a hopper or castling may give check, every square is critical.
#[tactic(auto, using(crate::proofs::KingAttacks::risk_is, chess_rules::proofs::Targeting::every_square_on))]
#[inline(always)]
fn risk_with(
    king_attack: &KingAttack,
    king: Square,
    riders: Squares,
    hop_targets: &HopTargets,
) -> Risk
    requires riders { king_attack.now.men.squares.nightriders ≢ 0 → (c : Colour)
        → IsReached king_attack.now.hurdles (record { colour = c; kind = Nightrider }) king riders }
    requires hop_targets { AreHopTargets king_attack.now king hop_targets.now }
    ensures { IsRiskAt king_attack.now king result }
{
    let king_zone = king_zone_of(king_attack, king, riders, hop_targets);
    if !castling_is_harmless(king_attack, &king_zone)
        || !are_free(king_attack, king, king_zone.springboards)
    {
        return WHOLE_RISK;
    }
    let risk = risk_of_all(king_attack, &king_zone);
    Risk {
        critical: risk.critical | (king_zone.hops & !only(Some(king))),
        lines: risk.lines | king_zone.lines,
    }
}

// Returns the risk of a defender whose king is on `king`, whatever men the attackers have.
#[inline(never)]
fn risk_beside_fairies(king_attack: &KingAttack, king: Square) -> Risk
    ensures { IsRiskAt king_attack.now king result }
{
    let hop_targets = hop_targets_of(king_attack, king);
    risk_with(
        king_attack,
        king,
        nightrider_lines(king_attack, king),
        &hop_targets,
    )
}

// Returns the risk of a defender whose king is on `king`. Faster if the attackers have no fairy men.
pub(crate) fn risk_at(king_attack: &KingAttack, king: Square) -> Risk
    ensures { IsRiskAt king_attack.now king result }
{
    let men = &king_attack.men.squares;
    if men.grasshoppers == 0 && men.nightriders == 0 {
        let hop_targets = no_hop_targets(king_attack, king);
        return risk_with(king_attack, king, 0, &hop_targets);
    }
    risk_beside_fairies(king_attack, king)
}

// Returns the risk of the king on its own square. Its `lines` include the lines of all riders.
fn risk_of_king_attack(king_attack: &KingAttack) -> Risk
    requires king_attack { IsKingAttack king_attack.now }
    requires whole { IsWhole king_attack.now }
    ensures { AreThreats king_attack.now result }
{
    let risk = risk_at(king_attack, king_attack.king);
    Risk {
        critical: risk.critical,
        lines: risk.lines | rider_reach(king_attack.hurdles, &king_attack.men, !0),
    }
}

// Returns the risk of the king on its own square. Takes it from `cache`, or computes it and stores it
// there.
#[inline(always)]
pub(crate) fn cached_risk(king_attack: &KingAttack, cache: &mut Option<Risk>) -> Risk
    requires king_attack { IsKingAttack king_attack.now }
    requires whole { IsWhole king_attack.now }
    requires cache { IfSome cache.old (λ r. AreThreats king_attack.now r) }
    ensures threats { AreThreats king_attack.now result }
    ensures cache { IfSome cache.new (λ r. AreThreats king_attack.now r) }
{
    if let Some(risk) = *cache {
        return risk;
    }
    let risk = risk_of_king_attack(king_attack);
    *cache = Some(risk);
    risk
}

// Returns the risk after the defender on `from` has left a line on which it is a hurdle.
fn risk_after(king_attack: &KingAttack, from: Square) -> Risk
    ensures { IsRiskAfterLeaving king_attack.now from result }
{
    let lifted = lifted_from(king_attack, from);
    risk_at(&lifted, king_attack.king)
}

// Returns the risk after the defender on `from` has left a line on which it is a hurdle. Takes it from
// `cache` if that is for `from`; otherwise computes it and stores it there for the defender's other moves.
fn cached_risk_after(
    king_attack: &KingAttack,
    cache: &mut Option<RiskAfterLeaving>,
    from: Square,
) -> Risk
    requires { IfSome cache.old (λ b. IsRiskAfterLeaving king_attack.now b.from b.risk) }
    ensures risk { IsRiskAfterLeaving king_attack.now from result }
    ensures cache { IfSome cache.new (λ b. IsRiskAfterLeaving king_attack.now b.from b.risk) }
{
    if let Some(following) = *cache {
        if following.from == from {
            return following.risk;
        }
    }
    let risk = risk_after(king_attack, from);
    *cache = Some(RiskAfterLeaving { from, risk });
    risk
}

// Returns the critical squares among `squares`, and perhaps others: squares where the arrival of the man
// on `from`, which isn't the king, might allow mate. It uses the risk of the men as they are, unless the
// man leaves a line on which it is a hurdle; that never makes the risk smaller.
#[tactic(auto, using(chess_rules::proofs::Targeting::false_by))]
pub(crate) fn critical_from(
    king_attack: &KingAttack,
    risk: &Risk,
    cache: &mut Option<RiskAfterLeaving>,
    from: Square,
    squares: Squares,
) -> Squares
    requires threats { AreThreats king_attack.now risk.now }
    requires cache { IfSome cache.old (λ b. IsRiskAfterLeaving king_attack.now b.from b.risk) }
    ensures safe { (t : ℕ) → (bit_at squares t == 1) ≡ true → (bit_at result t == 1) ≡ false
        → IsSafeMove king_attack.now from t }
    ensures cache { IfSome cache.new (λ b. IsRiskAfterLeaving king_attack.now b.from b.risk) }
{
    from.show_below_64();
    if squares & !risk.critical == 0 {
        return squares;
    }
    if contains(risk.lines, from) {
        cached_risk_after(king_attack, cache, from).critical
    } else {
        risk.critical
    }
}
