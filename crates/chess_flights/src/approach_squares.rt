//! The squares from which a man reaches a square, taken on the emptiest board: supersets.
ghost use Rattle.std.specs.Prelude.{◌≡◌, ◌<◌, ◌==◌, ℕ, true, false};
ghost use Rattle.std.specs.Int.{bit_at};
ghost use Rattle.chess_flights.specs.ties.Approaches.{ArePromotions, AreApproached, IsLeft};

use chess_attacks::unblocked::unblocked_reach;
use chess_attacks::words::only;
use chess_core::{Colour, Kind, LAST_RANKS, Man, Square, Squares};

/// Returns a superset of the squares from which the man reaches `to` on some board; for a grasshopper a
/// queen's lines.
#[tactic(auto, using(crate::proofs::Approaches::come_back, crate::proofs::Approaches::hop_back))]
pub fn open_approaches(man: Man, to: Square) -> Squares
    ensures { AreApproached man to result }
{
    to.show_below_64();
    let colour = man.colour.other();
    if man.kind.is(Kind::Grasshopper) {
        let kind = Kind::Queen;
        return unblocked_reach(Man { colour, kind }, to);
    }
    let kind = man.kind;
    unblocked_reach(Man { colour, kind }, to)
}

/// Returns the squares where the man's arrival may bar the king from `to`: `to` itself, and those from which
/// the man could reach `to` on some board.
#[tactic(auto, using(crate::proofs::QuietFilter::step_left))]
pub fn barring_squares(man: Man, to: Square) -> Squares
    ensures { (w t : ℕ) → (bit_at w to == 1) ≡ true → t < 64 → (bit_at result t == 1) ≡ false
        → IsLeft w man t to }
{
    to.show_below_64();
    open_approaches(man, to) | only(Some(to))
}

/// Returns a superset of the squares on which a pawn of the colour may promote to a man that checks a
/// king on `king`, on any board.
#[tactic(auto, using(crate::proofs::Promotions::any_rank, crate::proofs::Promotions::queen_or_knight))]
pub fn promotion_squares(colour: Colour, fairy_promotions: bool, king: Square) -> Squares
    ensures { ArePromotions colour fairy_promotions king result }
{
    if fairy_promotions {
        return LAST_RANKS;
    }
    let kind = Kind::Queen;
    let queens = open_approaches(Man { colour, kind }, king);
    let kind = Kind::Knight;
    let knights = open_approaches(Man { colour, kind }, king);
    LAST_RANKS & (queens | knights)
}
