//! The flights that an arriving grasshopper takes. It reaches a flight only over a man next to it.
ghost use Rattle.std.specs.Prelude.{◌≡◌, ◌<◌, ◌==◌, ℕ, true, false};
ghost use Rattle.std.specs.Int.{bit_at};
ghost use Rattle.chess_core.specs.Position.{same_kind};
ghost use Rattle.chess_core.specs.declared.man.Kind.TheVariants.{Grasshopper};
ghost use Rattle.chess_core.specs.declared.man.Man.{Man};
ghost use Rattle.chess_threats.specs.ties.KingAttack.{AreLaterHurdles, IsApart, IsUntaken, LeavesUntaken};

use crate::king_attack::KingAttack;
use chess_attacks::attacks_on::reach_to;
use chess_attacks::leaps::king_leaps;
use chess_attacks::words::{only, pop_first};
use chess_core::{Colour, Kind, Square, Squares};

// Returns the squares where a man may be after the attacker has left `from` and the king has left
// `king`, arrivals apart: the hurdles, and in Circe, where the attackers are on closed squares, the
// closed squares too.
#[tactic(auto, using(chess_attacks::proofs::Bits::on_left, chess_attacks::proofs::Bits::on_right, chess_attacks::proofs::Bits::word_has, chess_flights::proofs::Bitboards::denied_on, std::proofs::lemmas::Bool::ne_eqb))]
pub(crate) fn later_hurdles(king_attack: &KingAttack, king: Square, from: Square) -> Squares
    ensures { AreLaterHurdles king_attack.now king from result }
{
    let kept = king_attack.hurdles & !only(Some(from));
    if king_attack.closed & king_attack.enemies == 0 {
        return kept;
    }
    (kept | king_attack.closed) & !only(Some(king))
}

// Returns the squares from which a grasshopper takes the flight: the flight itself, and the squares from
// which it hops there over a hurdle next to it, whoever is on the line.
fn taking_squares(hurdles: Squares, flight: Square) -> Squares
    ensures { (x : Man) (k near t b : ℕ) → same_kind x.kind Grasshopper ≡ true → t < 64
        → (bit_at near flight == 1) ≡ true → (bit_at result t == 1) ≡ false
        → IsApart k flight b → IsUntaken hurdles k near x t b flight }
{
    flight.show_below_64();
    let over = hurdles & king_leaps(flight);
    only(Some(flight)) | reach_to(over, Colour::White, Kind::Grasshopper, flight)
}

// Returns the flight and the squares next to it, where an arriving man occupies the flight or is a
// hurdle. Leaves out the king's square, which the king leaves.
fn squares_beside(king: Square, flight: Square) -> Squares
    ensures { (b : ℕ) → b < 64 → (bit_at result b == 1) ≡ false → IsApart king flight b }
{
    only(Some(flight)) | king_leaps(flight) & !only(Some(king))
}

// Returns the squares whose occupation might leave no flight of `near` after a grasshopper arrives on
// one of `targets`. A target that holds another attacker counts only if the grasshopper recaptures
// there.
#[tactic(auto, using(chess_attacks::proofs::HoldTaken::rest_falls, chess_rules::proofs::Targeting::every_square_on))]
pub(crate) fn critical_of_hops(
    king: Square,
    near: Squares,
    enemies: Squares,
    hurdles: Squares,
    targets: Squares,
) -> Squares
    ensures { (x : Man) (t : ℕ) → same_kind x.kind Grasshopper ≡ true → t < 64
        → (bit_at targets t == 1) ≡ true → LeavesUntaken hurdles king near enemies result x t }
{
    let mut critical = 0u64;
    let mut taking = targets;
    let mut rest = near;
    while let Some(flight) = pop_first(&mut rest) {
        if taking == 0 {
            return critical;
        }
        let taken = taking_squares(hurdles, flight);
        let beside = squares_beside(king, flight);
        taking &= taken;
        critical |= beside;
    }
    if taking & !enemies != 0 {
        return !0;
    }
    critical | taking
}
