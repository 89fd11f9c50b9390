//! A king attack: the men on the board as they concern the king of the defender, who is to move. All men
//! but this king are hurdles: a square with a man counts as occupied even if the man is captured, except
//! for the squares that the defender and the attacker leave.
ghost use Rattle.std.specs.Prelude.{◌≡◌, ◌≢◌, ◌<◌, ◌==◌, ◌⊎◌, ℕ, Some, true, false};
ghost use Rattle.std.specs.Int.{bit_at};
ghost use Rattle.chess_core.specs.Castling.{has_unmoved};
ghost use Rattle.chess_core.specs.Position.{king_square};
ghost use Rattle.chess_core.specs.WellFormed.{IsWellFormed};
ghost use Rattle.chess_core.specs.ties.Words.{squares_of};
ghost use Rattle.chess_threats.specs.ties.KingAttack.{AreCastlingSquares, AreHurdles, IsHurdle, IsLifted, IsKingAttack, IsKingAttackOf, IsWhole};

use crate::homes::closed_squares;
use chess_attacks::Rules;
use chess_attacks::words::{contains, only};
use chess_core::{Board, Colour, Kind, Square, Squares};
use chess_flights::attackers::{Attackers, attackers_on, has_fairy_promotions};
use chess_flights::by_kind::{ForKind, is_for_all};

// The men around the defender's king, which is on `king`: the squares of the defender's men (`own`), of
// the attackers (`enemies`) and of the hurdles; the attackers by kind (`men`); the squares to which an
// attacking rook may castle (`castled`); and the squares to which the king isn't assumed to flee
// (`closed`).
#[derive(Clone, Copy)]
pub(crate) struct KingAttack {
    pub(crate) king: Square,
    pub(crate) own: Squares,
    pub(crate) enemies: Squares,
    pub(crate) hurdles: Squares,
    pub(crate) men: Attackers,
    pub(crate) castled: Squares,
    pub(crate) closed: Squares,
}

// Returns `next`, the square beside the king, if the side may castle with the rook in `corner`: the rook
// has the right to, and no man of its side is on `next`. Otherwise returns no square.
#[tactic(auto, using(chess_attacks::proofs::Bits::word_has))]
fn castling_square(board: &Board, own: Squares, corner: Square, next: Square) -> Squares
    ensures { (has_unmoved board.now.unmoved corner ≡ false)
        ⊎ ((bit_at own next == 1) ≡ true) ⊎ ((bit_at result next == 1) ≡ true) }
{
    next.show_below_64();
    if !board.unmoved().has(corner) {
        return 0;
    }
    if contains(own, next) {
        return 0;
    }
    only(Some(next))
}

// Returns a superset of the squares to which a rook of the colour may castle after any move of the other
// side.
#[tactic(auto, using(crate::proofs::KingAttacks::moved_king_castles, crate::proofs::KingAttacks::no_king_castles))]
fn castling_squares(board: &Board, colour: Colour) -> Squares
    ensures { IsWellFormed board.now → AreCastlingSquares board.now colour result }
{
    let Some(king) = board.king_of(colour) else {
        return 0;
    };
    if !board.unmoved().has(king) {
        return 0;
    }
    let at = king.index();
    if at < 4 || at > 60 {
        return !0;
    }
    let own = board.side(colour);
    let long = castling_square(
        board,
        own,
        Square::numbered(at - 4),
        Square::numbered(at - 1),
    );
    let short = castling_square(
        board,
        own,
        Square::numbered(at + 3),
        Square::numbered(at + 1),
    );
    long | short
}

// Returns the squares of all men except the king and the man on `lifted`.
#[tactic(auto, using(crate::proofs::KingAttacks::hurdles_are, crate::proofs::KingAttacks::lifted_off))]
fn hurdles_of(own: Squares, enemies: Squares, king: Square, lifted: Option<Square>) -> Squares
    ensures are { AreHurdles own enemies king result }
    ensures lifted { (s : ℕ) → s < 64 → lifted ≡ Some s → (bit_at result s == 1) ≡ false }
    ensures whole { (e : ℕ) → e < 64 → lifted ≢ Some e → IsHurdle own enemies king result e }
{
    (own | enemies) & !only(Some(king)) & !only(lifted)
}

// Returns the king attack against the side to move, whose king is on `king`.
#[inline(always)]
pub(crate) fn king_attack_of<R: Rules>(board: &Board, king: Square) -> KingAttack
    ensures king_attack { IsKingAttack result }
    ensures whole { IsWhole result }
    ensures king { result.king ≡ king }
    ensures of { IsWellFormed board.now → king_square board.now.men board.now.turn ≡ Some king
        → IsKingAttackOf R.rule board.now result }
{
    let enemy = board.turn().other();
    let own = board.side(board.turn());
    let enemies = board.side(enemy);
    KingAttack {
        king,
        own,
        enemies,
        hurdles: hurdles_of(own, enemies, king, None),
        men: attackers_on(board, enemy),
        castled: castling_squares(board, enemy),
        closed: closed_squares::<R>(board),
    }
}

// Returns this king attack without the hurdle on `from`.
pub(crate) fn lifted_from(king_attack: &KingAttack, from: Square) -> KingAttack
    ensures { IsLifted king_attack.now from result }
{
    from.show_below_64();
    KingAttack {
        hurdles: hurdles_of(
            king_attack.own,
            king_attack.enemies,
            king_attack.king,
            Some(from),
        ),
        ..*king_attack
    }
}

// Whether the squares of a kind are the squares of the colour's men on the board.
#[derive(Drop)]
struct StandOn<'a> {
    board: &'a Board,
    colour: Colour,
}

impl ForKind<Squares> for StandOn<'_> {
    type Out = bool;

    ghost holds = { λ f k squares yes. yes ≡ true
        → squares ≡ squares_of f.board.now.men f.colour k };

    #[inline(always)]
    fn of(&self, kind: Kind, squares: Squares) -> bool {
        squares == self.board.squares(self.colour, kind)
    }
}

// Returns whether `king_attack` describes the board, with the defender to move.
pub(crate) fn is_of<R: Rules>(king_attack: &KingAttack, board: &Board) -> bool
    requires { IsWellFormed board.now }
    ensures { result ≡ true → IsKingAttackOf R.rule board.now king_attack.now }
{
    let colour = king_attack.men.colour;
    if !colour.is(board.turn().other()) || board.king_of(board.turn()) != Some(king_attack.king) {
        return false;
    }
    (king_attack.own == board.side(board.turn()))
        & (king_attack.enemies == board.side(colour))
        & is_for_all(&StandOn { board, colour }, &king_attack.men.squares)
        & (king_attack.men.fairy_promotions == has_fairy_promotions(board))
        & (king_attack.castled == castling_squares(board, colour))
        & (king_attack.closed == closed_squares::<R>(board))
}
