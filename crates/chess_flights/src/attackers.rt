//! The men of a side, kind by kind.
ghost use Rattle.std.specs.Prelude.{◌≡◌, false, true};
ghost use Rattle.chess_core.specs.Position.{is_fairy, may_promote};
ghost use Rattle.chess_core.specs.declared.man.Kind.{Kind};
ghost use Rattle.chess_core.specs.declared.man.Kind.TheVariants.{King};
ghost use Rattle.chess_core.specs.ties.Words.{squares_of};
ghost use Rattle.chess_flights.specs.ties.Attackers.{AreAttackers, is_promotion};

use crate::by_kind::{ByKind, ForKind, for_all, for_each_kind, is_for_all};
use chess_core::{Board, Colour, Kind, Squares};

/// The squares of a side's men, kind by kind, and whether its pawns may promote to fairy men.
#[derive(Clone, Copy)]
pub struct Attackers {
    pub colour: Colour,
    pub squares: ByKind<Squares>,
    pub fairy_promotions: bool,
}

// The squares of a colour's men on a board.
#[derive(Drop)]
struct SquaresOn<'a> {
    board: &'a Board,
    colour: Colour,
}

impl ForKind<()> for SquaresOn<'_> {
    type Out = Squares;

    ghost holds = { λ f k _ w. w ≡ squares_of f.board.now.men f.colour k };

    #[inline(always)]
    fn of(&self, kind: Kind, _value: ()) -> Squares {
        self.board.squares(self.colour, kind)
    }
}

// Whether this is no fairy kind to which pawns may promote.
#[derive(Drop)]
struct NoFairyPromotion<'a> {
    board: &'a Board,
}

impl ForKind<()> for NoFairyPromotion<'_> {
    type Out = bool;

    ghost holds = { λ f k _ b. b ≡ true → may_promote f.board.now k ≡ true → is_fairy k ≡ false };

    #[inline(always)]
    fn of(&self, kind: Kind, _value: ()) -> bool {
        !kind.is_fairy() || !self.board.may_promote(kind)
    }
}

/// Returns whether pawns may promote to a fairy man.
pub fn has_fairy_promotions(board: &Board) -> bool
    ensures { (k : Kind) → may_promote board.now k ≡ true → is_promotion result k ≡ true }
{
    !is_for_all(&NoFairyPromotion { board }, &for_all(()))
}

/// Returns the colour's men, kind by kind.
#[tactic(auto, using(crate::proofs::KindByKind::attackers_are))]
pub fn attackers_on(board: &Board, colour: Colour) -> Attackers
    ensures colour { result.colour ≡ colour }
    ensures kings { result.squares.kings ≡ squares_of board.now.men colour King }
    ensures men { AreAttackers board.now.men result }
    ensures promotions { (k : Kind) → may_promote board.now k ≡ true
        → is_promotion result.fairy_promotions k ≡ true }
{
    Attackers {
        colour,
        squares: for_each_kind(&SquaresOn { board, colour }, &for_all(())),
        fairy_promotions: has_fairy_promotions(board),
    }
}
