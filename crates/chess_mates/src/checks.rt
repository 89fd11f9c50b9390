//! Moves that can't give check, recognised before they are made.
ghost use Rattle.std.specs.Prelude.{◌≡◌, ◌<◌, ◌==◌, ℕ, None, Some, false, not, true, is_some};
ghost use Rattle.std.specs.Int.{bit_at};
ghost use Rattle.chess_core.specs.Position.{king_square, man_on, other, same_kind};
ghost use Rattle.chess_core.specs.declared.man.Kind.TheVariants.{Bishop, King, Pawn, Rook};
ghost use Rattle.chess_core.specs.WellFormed.{IsWellFormed};
ghost use Rattle.chess_core.specs.ties.Words.{word};
ghost use Rattle.chess_attacks.specs.Attacks.{in_check};
ghost use Rattle.chess_mates.specs.ties.CheckSquares.{AreCastlingTargets, AreCheckSquares, ArePromotionTargets, AreCheckTargets, own_man, are_rebirths_quiet, rule_of_checks};
ghost use Rattle.chess_flights.specs.ties.Checks.{enemy, is_absent, may_check_from};
ghost use Rattle.chess_flights.specs.ties.Approaches.{ArePromotions};
ghost use Rattle.chess_rules.specs.ties.Blockers.{cannot_expose, may_expose, may_be_hurdle};
ghost use Rattle.chess_rules.specs.Legal.{is_legal, is_pseudo_legal};
ghost use Rattle.chess_rules.specs.Play.{position_after};
ghost use Rattle.chess_attacks.specs.RuleSet.{captures_are_reborn};

use chess_attacks::attacks_on::reach_to;
use chess_attacks::leaps::squares_aside;
use chess_attacks::lines::occupied;
use chess_attacks::occupancy::occupancy_after;
use chess_attacks::words::{contains, only};
use chess_attacks::{Orthodox, Rules};
use chess_core::{Board, Colour, Kind, LAST_RANKS, Man, Move, Square, Squares};
use chess_flights::approach_squares::promotion_squares;
use chess_flights::attackers::has_fairy_promotions;
use chess_flights::by_kind::{ByKind, ForKind, for_all, for_each_kind, value_for};
use chess_flights::flights::covered_squares;
use chess_rules::unplayed::{
    cannot_expose, fairy_lines, rebirth_captures, safety_from, unblocked_targets,
};

/// What decides whether a move in a position may give check: the squares from which a move may expose
/// the king (`blocker_squares`); the lines to the king that carry a fairy man; the squares from which a man
/// of each kind may give check (`kinds`); and the squares on which a pawn may promote to an orthodox man
/// that checks the king on some board (`promotions`). A king itself gives no check: next to the other king
/// it would be in check.
#[derive(Clone, Copy)]
pub(crate) struct CheckSquares {
    blocker_squares: Squares,
    fairy_lines: Squares,
    kinds: ByKind<Squares>,
    promotions: Squares,
}

// Returns whether this is a fairy kind and the colour has no man of it.
#[tactic(auto, using(chess_attacks::proofs::Bits::not_zero), unfolding(chess_core::specs::ties::Words::squares_of))]
fn is_absent(board: &Board, colour: Colour, kind: Kind) -> bool
    ensures { result ≡ is_absent board.now.men (record { colour = colour; kind = kind }) }
{
    kind.is_fairy() && board.squares(colour, kind) == 0
}

// Returns the squares from which an enemy of this kind may give check to the colour's king; all squares
// for a fairy kind of which the enemy has no man.
#[tactic(auto, using(chess_attacks::proofs::Bits::word_empty, chess_attacks::proofs::Bits::every_square, std::proofs::lemmas::Bool::or_left, chess_core::proofs::Words::squares_same), unfolding(chess_flights::specs::ties::Checks::may_check_from))]
pub(crate) fn check_squares_of(board: &Board, colour: Colour, kind: Kind) -> Squares
    ensures { result ≡ word (may_check_from board.now.men colour (enemy colour kind)) }
{
    let Some(king) = board.king_of(colour) else {
        return 0;
    };
    let enemy = colour.other();
    if is_absent(board, enemy, kind) {
        return !0;
    }
    reach_to(occupied(board), enemy, kind, king)
}

// Returns the squares from which a move may expose the colour's king. `straight` and `diagonal` are the
// squares from which a rook and a bishop may give check to it, `lines` its fairy lines.
#[inline(always)]
#[tactic(auto, using(chess_rules::proofs::Blocking::blocker_squares_none, crate::proofs::Checking::rook_squares, crate::proofs::Checking::bishop_squares))]
fn blockers_from(
    board: &Board,
    colour: Colour,
    straight: Squares,
    diagonal: Squares,
    lines: Squares,
) -> Squares
    requires straight { straight ≡ word (may_check_from board.now.men colour (enemy colour Rook)) }
    requires diagonal { diagonal
        ≡ word (may_check_from board.now.men colour (enemy colour Bishop)) }
    requires lines { lines ≡ word (may_be_hurdle board.now.men colour) }
    ensures { result ≡ word (may_expose board.now.men colour) }
{
    let Some(king) = board.king_of(colour) else {
        return 0;
    };
    safety_from(board, colour, king, straight, diagonal, lines).blockers
}

// Returns the squares on which a pawn may promote to an orthodox man that checks the colour's king on
// some board.
#[inline(always)]
fn promotions_seen(board: &Board, colour: Colour) -> Squares
    ensures { (k : ℕ) → king_square board.now.men colour ≡ Some k
        → ArePromotions (other colour) false k result }
{
    let Some(king) = board.king_of(colour) else {
        return 0;
    };
    promotion_squares(colour.other(), false, king)
}

// The squares from which an enemy of one kind may give check to the colour's king by a legal move.
// `straight` and `diagonal` are a rook's and a bishop's.
#[derive(Drop)]
struct ChecksOfKind<'a> {
    board: &'a Board,
    colour: Colour,
    straight: Squares,
    diagonal: Squares,
}

#[tactic(auto, using(crate::proofs::Checking::queen_squares))]
impl ForKind<()> for ChecksOfKind<'_> {
    type Out = Squares;

    ghost fits = { λ f.
        (f.straight ≡ word (may_check_from f.board.now.men f.colour (enemy f.colour Rook)))
        × (f.diagonal ≡ word (may_check_from f.board.now.men f.colour (enemy f.colour Bishop))) };

    ghost holds = { λ f k _ w. same_kind k King ≡ false
        → w ≡ word (may_check_from f.board.now.men f.colour (enemy f.colour k)) };

    #[inline(always)]
    fn of(&self, kind: Kind, _value: ()) -> Squares {
        match kind {
            Kind::King => 0,
            Kind::Queen => self.straight | self.diagonal,
            Kind::Rook => self.straight,
            Kind::Bishop => self.diagonal,
            _ => check_squares_of(self.board, self.colour, kind),
        }
    }
}

// Returns what decides whether a move may give check to the colour's king.
#[inline(always)]
pub(crate) fn check_squares(board: &Board, colour: Colour) -> CheckSquares
    ensures { AreCheckSquares board.now.men colour result }
{
    let lines = fairy_lines(board, colour);
    let straight = check_squares_of(board, colour, Kind::Rook);
    let diagonal = check_squares_of(board, colour, Kind::Bishop);
    let checks = ChecksOfKind {
        board,
        colour,
        straight,
        diagonal,
    };
    CheckSquares {
        blocker_squares: blockers_from(board, colour, straight, diagonal, lines),
        fairy_lines: lines,
        kinds: for_each_kind(&checks, &for_all(())),
        promotions: promotions_seen(board, colour),
    }
}

// Returns whether reborn men neither give check nor uncover one: in Circe, if the mover has no grasshopper
// for which they could be a hurdle.
#[inline(always)]
#[tactic(auto, unfolding(crate::specs::ties::CheckSquares::are_rebirths_quiet))]
fn are_rebirths_quiet<R: Rules>(board: &Board) -> bool
    ensures { result ≡ are_rebirths_quiet R.rule board.now.men board.now.turn }
{
    R::captures_are_reborn() && is_absent(board, board.turn(), Kind::Grasshopper)
}

// Returns the squares where a capture with rebirth may give check.
#[inline(always)]
fn checking_rebirths<R: Rules>(board: &Board) -> Squares
    ensures { are_rebirths_quiet R.rule board.now.men board.now.turn ≡ false
        → captures_are_reborn R.rule ≡ true
        → result ≡ word (λ s. is_some (man_on board.now.men s)) }
{
    if are_rebirths_quiet::<R>(board) {
        return 0;
    }
    rebirth_captures::<R>(board)
}

// Returns whether nothing can be ruled out: moves from all squares may expose the king, or captures from
// anywhere may give check by rebirth.
pub(crate) fn may_check_from_everywhere<R: Rules>(board: &Board, squares: &CheckSquares) -> bool {
    squares.blocker_squares == !0 || R::captures_are_reborn() && !are_rebirths_quiet::<R>(board)
}

// Returns the squares to which a king on `from` castles with check by the rook, and perhaps more.
#[inline(never)]
#[tactic(auto, using(crate::proofs::CheckTargets::castling_targets_are))]
fn castling_targets(squares: &CheckSquares, from: Square) -> Squares
    ensures { AreCastlingTargets squares.now from result }
{
    let checked_from = squares.kinds.rooks;
    squares_aside(from) & (checked_from << 1 | checked_from >> 1)
}

// Returns the squares on which a pawn may promote to a man that checks the king: all squares of the
// first and the last rank in Circe, or if pawns may promote to a fairy man.
#[inline(always)]
#[tactic(auto, using(crate::proofs::CheckTargets::any_target, crate::proofs::CheckTargets::target_known))]
fn promotion_targets<R: Rules>(board: &Board, squares: &CheckSquares) -> Squares
    ensures { ArePromotionTargets R.rule board.now squares.now result }
{
    if R::captures_are_reborn() || has_fairy_promotions(board) {
        return LAST_RANKS;
    }
    squares.promotions
}

// Returns the squares to which a man of this kind promotes with check, or castles if it is a king on
// `king`, and perhaps more.
#[inline(always)]
fn special_targets<R: Rules>(
    board: &Board,
    squares: &CheckSquares,
    kind: Kind,
    king: Option<Square>,
) -> Squares
    ensures promotes { same_kind kind Pawn ≡ true
        → ArePromotionTargets R.rule board.now squares.now result }
    ensures castles { (s : ℕ) → king ≡ Some s → same_kind kind King ≡ true
        → AreCastlingTargets squares.now s result }
{
    match king {
        Some(from) if kind.is(Kind::King) => castling_targets(squares, from),
        _ if kind.is(Kind::Pawn) => promotion_targets::<R>(board, squares),
        _ => 0,
    }
}

// Returns a superset of the squares where a legal move of a man of this kind, from a square that isn't a
// blocker's, may give check. A king's move starts on `king`.
#[inline(always)]
#[tactic(auto, using(crate::proofs::CheckTargets::check_targets_some))]
pub(crate) fn targets_off_blockers<R: Rules>(
    board: &Board,
    squares: &CheckSquares,
    kind: Kind,
    king: Option<Square>,
) -> Squares
    requires well_formed { IsWellFormed board.now }
    requires squares { AreCheckSquares board.now.men (other board.now.turn) squares.now }
    ensures { (s : ℕ) (x : Man) → s < 64 → man_on board.now.men s ≡ Some x → x.kind ≡ kind
        → (same_kind kind King ≡ true → king ≡ Some s)
        → (bit_at squares.now.blocker_squares s == 1) ≡ false
        → AreCheckTargets R.rule board.now s result }
{
    let checked_from = value_for(&squares.kinds, kind);
    checked_from
        | only(board.crossed())
        | special_targets::<R>(board, squares, kind, king)
        | checking_rebirths::<R>(board)
        | squares.fairy_lines
}

// Returns a superset of the squares where a legal move of this man from `from` may give check.
#[tactic(auto, using(chess_rules::proofs::Targeting::every_square_on))]
fn check_targets<R: Rules>(board: &Board, squares: &CheckSquares, man: Man, from: Square) -> Squares
    requires well_formed { IsWellFormed board.now }
    requires squares { AreCheckSquares board.now.men (other board.now.turn) squares.now }
    requires here { man_on board.now.men from ≡ Some man }
    ensures { AreCheckTargets R.rule board.now from result }
{
    from.show_below_64();
    if contains(squares.blocker_squares, from) {
        return !0;
    }
    targets_off_blockers::<R>(board, squares, man.kind, Some(from))
}

// Returns the check targets of the man on `from` that it could reach on some board; none if no man is
// there.
#[tactic(auto, using(chess_rules::proofs::Targeting::nobody_moves, crate::proofs::CheckTargets::targets_lack, chess_rules::proofs::Walks::off_second), unfolding(chess_rules::specs::Legal::is_legal))]
pub(crate) fn near_check_targets<R: Rules>(
    board: &Board,
    squares: &CheckSquares,
    from: Square,
) -> Squares
    requires well_formed { IsWellFormed board.now }
    requires squares { AreCheckSquares board.now.men (other board.now.turn) squares.now }
    ensures { AreCheckTargets R.rule board.now from result }
{
    let Some(man) = board.man_at(from) else {
        return 0;
    };
    unblocked_targets(man, from) & check_targets::<R>(board, squares, man, from)
}

// Returns whether the move may expose the enemy king: a man leaves its origin, or is captured, castled
// or reborn.
fn may_discover<R: Rules>(board: &Board, squares: &CheckSquares, m: Move) -> bool
    requires { AreCheckSquares board.now.men (other board.now.turn) squares.now }
    ensures { result ≡ not (cannot_expose (rule_of_checks R.rule board.now.men board.now.turn)
        board.now (other board.now.turn) m) }
{
    if are_rebirths_quiet::<R>(board) {
        return !cannot_expose::<Orthodox>(board, board.turn().other(), squares.blocker_squares, m);
    }
    !cannot_expose::<R>(board, board.turn().other(), squares.blocker_squares, m)
}

// Returns whether the move doesn't promote.
fn keeps_its_kind(m: Move) -> bool
    ensures { result ≡ true → m.promo ≡ None }
{
    m.promo.is_none()
}

// Returns whether this man's promotion may give check: by the promoted man, perhaps through the square
// that the pawn left, or by exposing the king.
#[inline(never)]
fn may_check_promoted<R: Rules>(board: &Board, squares: &CheckSquares, man: Man, m: &Move) -> bool
    requires well_formed { IsWellFormed board.now }
    requires pseudo { is_pseudo_legal R.rule board.now m.now ≡ true }
    requires squares { AreCheckSquares board.now.men (other board.now.turn) squares.now }
    requires here { man_on board.now.men m.now.from ≡ Some man }
    ensures { result ≡ false → in_check R.rule (position_after R.rule board.now m.now).men
        (other board.now.turn) ≡ false }
{
    let enemy = board.turn().other();
    let Some(king) = board.king_of(enemy) else {
        return true;
    };
    m.to.show_below_64();
    // The captured man, if any, is on the arrival.
    let occupancy = occupancy_after(board, m.from, None, m.to);
    let seen = covered_squares(occupancy.occupied, man, m.promo, m.to);
    contains(seen, king) || !cannot_expose::<R>(board, enemy, squares.blocker_squares, *m)
}

// Returns whether the move may give check, if it is legal; `false` is certain.
#[inline(always)]
pub(crate) fn may_check<R: Rules>(board: &Board, squares: &CheckSquares, m: &Move) -> bool
    requires well_formed { IsWellFormed board.now }
    requires pseudo { is_pseudo_legal R.rule board.now m.now ≡ true }
    requires squares { AreCheckSquares board.now.men (other board.now.turn) squares.now }
    ensures { result ≡ false → is_legal R.rule board.now m.now ≡ true
        → in_check R.rule (position_after R.rule board.now m.now).men (other board.now.turn)
        ≡ false }
{
    let Some(man) = board.man_at(m.from) else {
        return true;
    };
    if !keeps_its_kind(*m) {
        return may_check_promoted::<R>(board, squares, man, m);
    }
    m.to.show_below_64();
    let from_there = value_for(&squares.kinds, man.kind);
    contains(from_there, m.to) || may_discover::<R>(board, squares, *m)
}

impl CheckSquares {
    // Returns the squares from which a move may expose the king.
    pub(crate) fn blockers(&self) -> Squares
        ensures { result ≡ self.now.blocker_squares }
    {
        self.blocker_squares
    }
}
