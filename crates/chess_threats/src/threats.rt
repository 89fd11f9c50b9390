//! Threats of mate, computed before the defender moves: the squares where a man's arrival might allow
//! mate.
ghost use Rattle.std.specs.Prelude.{◌≡◌, ◌<◌, ◌==◌, [], ℕ, IfSome, Some, true, false};
ghost use Rattle.std.specs.Int.{bit_at};
ghost use Rattle.chess_core.specs.Position.{Position, king_square};
ghost use Rattle.chess_core.specs.WellFormed.{IsWellFormed};
ghost use Rattle.chess_core.specs.declared.man.Move.{Move};
ghost use Rattle.chess_flights.specs.ties.Mates.{mates_after};
ghost use Rattle.chess_threats.specs.declared.king_attack.KingAttack.{KingAttack};
ghost use Rattle.chess_threats.specs.ties.KingAttack.{AreThreats, IsRiskAfterLeaving, IsSafeMove, IsKingAttack, IsWhole};
ghost use Rattle.chess_threats.specs.ties.Threats.{AreMere, ArePlain, AreRisky, AreThreatsOf, IsUncontested};
ghost use Rattle.chess_rules.specs.Legal.{is_legal};
ghost use Rattle.chess_rules.specs.Play.{position_after};
ghost use Rattle.chess_attacks.specs.RuleSet.{captures_are_reborn};
ghost use Rattle.chess_rules.specs.ties.Targets.{may_arrive};

use crate::king_attack::{KingAttack, is_of, king_attack_of};
use crate::king_zone::{compute_targets, needed_squares};
use crate::lasting_flights::OpenTargets;
use crate::risk::{Risk, RiskAfterLeaving, cached_risk, critical_from};
use crate::steps::{StepCache, cached_risky_steps, exact_steps};
use chess_attacks::Rules;
use chess_attacks::leaps::{king_leaps, pawn_advances};
use chess_attacks::words::only;
use chess_core::{Board, Colour, Kind, LAST_RANKS, Man, Move, Square, Squares};
use chess_flights::pawn_approaches::capturers_before;
use chess_rules::unplayed::SquareFilter;
use std::marker::Model;

// Returns all squares more than a step from `from`, if an enemy pawn could capture on the square ahead
// of a pawn on `from`; otherwise none.
fn contested_squares(board: &Board, man: Man, from: Square) -> Squares
    ensures { (m : Move) → m.from ≡ from → m.to < 64 → may_arrive board.now man from m.to ≡ true
        → (bit_at result m.to == 1) ≡ false → IsUncontested board.now man m }
{
    from.show_below_64();
    let enemy = man.colour.other();
    let near = king_leaps(from);
    let next = pawn_advances(man.colour, from) & near;
    if capturers_before(enemy, next) & board.squares(enemy, Kind::Pawn) == 0 {
        return 0;
    }
    !near
}

// Returns the squares that the man on `from` reaches only by castling or en passant, or by a double step
// that en passant might capture.
fn special_squares(board: &Board, man: Man, from: Square) -> Squares
    ensures { ArePlain board.now man from result }
{
    from.show_below_64();
    if man.kind.is(Kind::Pawn) {
        return only(board.crossed()) | contested_squares(board, man, from);
    }
    if man.kind.is(Kind::King) {
        return !king_leaps(from);
    }
    0
}

// Returns the squares that the man on `from` reaches only by a capture or promotion.
#[tactic(auto, using(crate::proofs::PlainMoves::piece_mere))]
fn altering_squares(board: &Board, man: Man, from: Square) -> Squares
    ensures { AreMere board.now man from result }
{
    from.show_below_64();
    let men = board.side(Colour::White) | board.side(Colour::Black);
    if man.kind.is(Kind::Pawn) {
        men | only(board.crossed()) | LAST_RANKS
    } else {
        men
    }
}

// Returns the squares about which the threats say nothing: arrivals of the man on `from` by special
// moves, and in Circe by captures and promotions too.
#[tactic(auto, using(chess_attacks::proofs::Bits::off_left, chess_attacks::proofs::Bits::off_right))]
fn unplain_squares<R: Rules>(board: &Board, man: Man, from: Square) -> Squares
    ensures plain { ArePlain board.now man from result }
    ensures mere { captures_are_reborn R.rule ≡ true → AreMere board.now man from result }
{
    let special = special_squares(board, man, from);
    if !R::captures_are_reborn() {
        return special;
    }
    special | altering_squares(board, man, from)
}

// Returns which of `squares` are needed for the king to keep a flight; in Circe all of them.
#[tactic(auto, using(chess_rules::proofs::Walks::off_second))]
fn needed_among<R: Rules>(needed: Squares, squares: Squares) -> Squares
    ensures { (t : ℕ) → t < 64 → (bit_at squares t == 1) ≡ true → (bit_at result t == 1) ≡ false
        → (captures_are_reborn R.rule ≡ false) × ((bit_at needed t == 1) ≡ false) }
{
    if R::captures_are_reborn() {
        return squares;
    }
    squares & needed
}

// Returns the critical squares among `squares`, and perhaps others: squares where the arrival of the man
// on `from`, which isn't the king, might allow mate. It computes the risk only if there are squares.
#[inline(always)]
fn critical_of(
    king_attack: &KingAttack,
    risk: &mut Option<Risk>,
    following: &mut Option<RiskAfterLeaving>,
    from: Square,
    squares: Squares,
) -> Squares
    requires king_attack { IsKingAttack king_attack.now }
    requires whole { IsWhole king_attack.now }
    requires risk { IfSome risk.old (λ r. AreThreats king_attack.now r) }
    requires following { IfSome following.old
        (λ b. IsRiskAfterLeaving king_attack.now b.from b.risk) }
    ensures safe { (t : ℕ) → (bit_at squares t == 1) ≡ true → (bit_at result t == 1) ≡ false
        → IsSafeMove king_attack.now from t }
    ensures risk { IfSome risk.new (λ r. AreThreats king_attack.now r) }
    ensures following { IfSome following.new
        (λ b. IsRiskAfterLeaving king_attack.now b.from b.risk) }
{
    if squares == 0 {
        return 0;
    }
    let king_risk = cached_risk(king_attack, risk);
    critical_from(king_attack, &king_risk, following, from, squares)
}

/// The mate threats of the side that isn't to move, computed for one position: for each man of the side
/// to move, the squares where its arrival might allow mate.
#[derive(Drop)]
pub struct Threats {
    king_attack: KingAttack,
    // The attackers' targets on an otherwise empty board.
    targets: OpenTargets,
    // The squares where the arrival of a man other than the king might leave the king without a flight.
    // Unused in Circe.
    needed: Squares,
    // The king's risk, computed when it is first needed.
    risk: Option<Risk>,
    // The risk for the man that was last found to leave a line.
    following: Option<RiskAfterLeaving>,
    // The king's steps that were computed last.
    steps: StepCache,
}

impl Model for Threats {
    ghost use Rattle.std.specs.Prelude.{IfSome};
    ghost use Rattle.chess_threats.specs.ties.LastingFlights.{AreOpenTargets};
    ghost use Rattle.chess_threats.specs.ties.KingAttack.{AreNeeded, AreThreats, IsStepCacheOf, IsRiskAfterLeaving, IsKingAttack, IsWhole};
    ghost use Rattle.chess_threats.specs.ties.Threats.{ThreatsSeen};

    ghost Value = { ThreatsSeen };

    ghost view = { λ t. record { king_attack = t.king_attack } };

    ghost invariant = { λ t. IsKingAttack t.king_attack × IsWhole t.king_attack
        × AreOpenTargets t.king_attack.men t.targets
        × AreNeeded t.king_attack t.needed
        × IfSome t.risk (λ r. AreThreats t.king_attack r)
        × IfSome t.following (λ b. IsRiskAfterLeaving t.king_attack b.from b.risk)
        × IsStepCacheOf t.king_attack t.steps };
}

impl Threats {
    /// Computes the threats to the king of the side to move, which is on `king`.
    pub fn of<R: Rules>(board: &Board, king: Square) -> Threats
        ensures { IsWellFormed board.now → king_square board.now.men board.now.turn ≡ Some king
            → AreThreatsOf R.rule board.now result }
    {
        let king_attack = king_attack_of::<R>(board, king);
        let mut targets = OpenTargets::unknown();
        compute_targets::<R>(&king_attack, &mut targets);
        Threats {
            needed: needed_squares(&king_attack, &targets),
            targets,
            king_attack,
            risk: None,
            following: None,
            steps: StepCache::none(),
        }
    }

    /// Replaces these threats with the threats to the king of the side to move, which is on `king`.
    pub fn recompute<R: Rules>(&mut self, board: &Board, king: Square)
        ensures { IsWellFormed board.now → king_square board.now.men board.now.turn ≡ Some king
            → AreThreatsOf R.rule board.now self.new }
    {
        self.king_attack = king_attack_of::<R>(board, king);
        compute_targets::<R>(&self.king_attack, &mut self.targets);
        self.needed = needed_squares(&self.king_attack, &self.targets);
        self.risk = None;
        self.following = None;
        self.steps = StepCache::none();
    }

    /// Returns whether these are the threats of the board's position. Positions with the same men,
    /// castling squares and side to move have the same threats.
    pub fn are_of<R: Rules>(&self, board: &Board) -> bool
        requires { IsWellFormed board.now }
        ensures { result ≡ true → AreThreatsOf R.rule board.now self.now }
    {
        is_of::<R>(&self.king_attack, board)
    }

    /// Returns the risky squares among `squares`: squares where the arrival of the man on `from` by a
    /// legal move might allow mate. Castling is always risky, and in Circe any capture or promotion.
    /// Except in Circe, any other move isn't risky if the king keeps a flight whatever is played next;
    /// without a certain flight, the king's captures, en passant and double steps that en passant might
    /// capture are always risky. What is computed is stored for later calls.
    pub fn risky_squares<R: Rules>(
        &mut self,
        board: &Board,
        from: Square,
        squares: Squares,
    ) -> Squares
        requires well_formed { IsWellFormed board.now }
        requires threats { AreThreatsOf R.rule board.now self.old }
        ensures risky { AreRisky R.rule board.now from squares result }
        ensures same { self.new ≡ self.old }
    {
        let Some(man) = board.man_at(from) else {
            return 0;
        };
        from.show_below_64();
        let unplain = unplain_squares::<R>(board, man, from);
        if man.kind.is(Kind::King) {
            let steps = squares & !unplain;
            let risky = cached_risky_steps::<R>(
                &self.king_attack,
                &self.targets,
                &mut self.steps,
                steps,
            );
            return squares & (unplain | risky);
        }
        let needed = needed_among::<R>(self.needed, squares);
        let others = needed & !unplain;
        let critical = critical_of(
            &self.king_attack,
            &mut self.risk,
            &mut self.following,
            from,
            others,
        );
        needed & (unplain | critical)
    }

    // Returns whether the king certainly keeps a flight, whatever is played next, when the man on
    // `from`, which isn't the king, goes to one of `squares`. `false` says nothing.
    #[inline(always)]
    fn keep_flights<R: Rules>(&self, from: Square, squares: Squares) -> bool
        ensures { result ≡ true → (p : Position) → IsWellFormed p → AreThreatsOf R.rule p self.now
            → AreRisky R.rule p from squares 0 }
    {
        from.show_below_64();
        if from == self.king_attack.king {
            return false;
        }
        !R::captures_are_reborn() && squares & self.needed == 0
    }

    /// Returns whether these threats show that no reply to the move mates. `false` says nothing.
    #[tactic(auto, using(crate::proofs::Sparing::one_square))]
    pub fn rule_out_mate<R: Rules>(&mut self, board: &Board, m: Move) -> bool
        requires well_formed { IsWellFormed board.now }
        requires legal { is_legal R.rule board.now m ≡ true }
        requires threats { AreThreatsOf R.rule board.now self.old }
        ensures is_decided { result ≡ true
            → mates_after R.rule (position_after R.rule board.now m) 0 ≡ [] }
        ensures same { self.new ≡ self.old }
    {
        m.to.show_below_64();
        self.risky_squares::<R>(board, m.from, only(Some(m.to))) == 0
    }
}

impl SquareFilter for Threats {
    ghost use Rattle.chess_flights.specs.ties.Mates.{allows_mate};
    ghost use Rattle.chess_threats.specs.ties.Threats.{AreThreatsOf};

    ghost test = { allows_mate };

    ghost fits = { λ t rule p. AreThreatsOf rule p t };

    fn kept_squares<R: Rules>(&mut self, board: &Board, from: Square, squares: Squares) -> Squares {
        if self.keep_flights::<R>(from, squares) {
            return 0;
        }
        self.risky_squares::<R>(board, from, squares)
    }

    #[tactic(auto, using(crate::proofs::ExactSteps::known_exactly))]
    fn legal_squares<R: Rules>(
        &self,
        _board: &Board,
        from: Square,
        squares: Squares,
    ) -> Option<Squares> {
        if from != self.king_attack.king {
            return None;
        }
        exact_steps::<R>(&self.king_attack, squares)
    }
}
