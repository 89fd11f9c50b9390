//! Closed squares: the squares to which a king isn't assumed to flee. They are the squares of its side's
//! men, and in Circe also the squares of all other men and the home squares of its side's men.
ghost use Rattle.std.specs.Prelude.{◌≡◌, ◌<◌, ◌==◌, ℕ, Some, true, false};
ghost use Rattle.std.specs.Int.{bit_at};
ghost use Rattle.chess_core.specs.Position.{same_kind};
ghost use Rattle.chess_core.specs.Squares.{file_of};
ghost use Rattle.chess_core.specs.declared.man.Kind.TheVariants.{Pawn};
ghost use Rattle.chess_threats.specs.ties.KingAttack.{AreClosed, AreHomes, AreHomesOf};
ghost use Rattle.chess_rules.specs.Play.{rebirth};

use chess_attacks::Rules;
use chess_attacks::words::{only, pop_first};
use chess_core::{Board, Colour, Kind, Square, Squares};
use chess_flights::by_kind::{ForKind, for_all, for_each_kind, union_of};

// Returns all home squares of the colour's men of a kind other than pawn (Popeye manual, Circe).
#[tactic(auto, using(crate::proofs::HomeSquares::home_on))]
fn homes_of(colour: Colour, kind: Kind) -> Squares
    ensures { same_kind kind Pawn ≡ false → (t r : ℕ) → rebirth colour kind t ≡ Some r
        → (bit_at result r == 1) ≡ true }
{
    match (colour, kind) {
        (_, Kind::King) => 0,
        (_, Kind::Pawn) => 0,
        (Colour::White, Kind::Queen) => 0x08,
        (Colour::Black, Kind::Queen) => 0x0800_0000_0000_0000,
        (Colour::White, Kind::Rook) => 0x81,
        (Colour::Black, Kind::Rook) => 0x8100_0000_0000_0000,
        (Colour::White, Kind::Bishop) => 0x24,
        (Colour::Black, Kind::Bishop) => 0x2400_0000_0000_0000,
        (Colour::White, Kind::Knight) => 0x42,
        (Colour::Black, Kind::Knight) => 0x4200_0000_0000_0000,
        (Colour::White, _) => 0xff00_0000_0000_0000,
        (Colour::Black, _) => 0xff,
    }
}

// Returns the home square of a pawn captured on the file of this square.
fn pawn_home(colour: Colour, from: Square) -> Squares
    ensures { (t r : ℕ) → file_of t ≡ file_of from → rebirth colour Pawn t ≡ Some r
        → (bit_at result r == 1) ≡ true }
{
    match colour {
        Colour::White => only(Square::new(from.file(), 2)),
        Colour::Black => only(Square::new(from.file(), 7)),
    }
}

// Returns the squares on which captured pawns of these files would be reborn.
#[tactic(auto, using(chess_attacks::proofs::HoldTaken::taken_all, chess_attacks::proofs::HoldTaken::taken_none, chess_attacks::proofs::HoldTaken::rest_falls))]
fn pawn_homes(colour: Colour, pawns: Squares) -> Squares
    ensures { (s : ℕ) → s < 64 → (bit_at pawns s == 1) ≡ true → (t r : ℕ) → file_of t ≡ file_of s
        → rebirth colour Pawn t ≡ Some r → (bit_at result r == 1) ≡ true }
{
    let mut homes = 0u64;
    let mut rest = pawns;
    while let Some(from) = pop_first(&mut rest) {
        let home = pawn_home(colour, from);
        homes |= home;
    }
    homes
}

// The home squares of the colour's men of a kind, if there are any.
#[derive(Drop)]
struct Homes<'a> {
    board: &'a Board,
    colour: Colour,
}

#[tactic(auto, using(crate::proofs::HomeSquares::no_homes_are, crate::proofs::HomeSquares::pawn_homes_are))]
impl ForKind<()> for Homes<'_> {
    type Out = Squares;

    ghost holds = { λ f k _ w. AreHomesOf f.board.now.men f.colour k w };

    fn of(&self, kind: Kind, _value: ()) -> Squares {
        let men = self.board.squares(self.colour, kind);
        if kind.is(Kind::Pawn) {
            return pawn_homes(self.colour, men);
        }
        if men == 0 {
            return 0;
        }
        homes_of(self.colour, kind)
    }
}

// Returns the home squares of the colour's men.
fn home_squares(board: &Board, colour: Colour) -> Squares
    ensures { AreHomes board.now.men colour result }
{
    union_of(&for_each_kind(&Homes { board, colour }, &for_all(())))
}

// Returns the squares to which the king of the side to move isn't assumed to flee: the squares of its
// side's men; in Circe also the squares of all other men, and the home squares of its side's men.
#[tactic(auto, using(crate::proofs::HomeSquares::all_closed, crate::proofs::HomeSquares::own_closed))]
pub(crate) fn closed_squares<R: Rules>(board: &Board) -> Squares
    ensures { AreClosed R.rule board.now result }
{
    let turn = board.turn();
    let own = board.side(turn);
    if !R::captures_are_reborn() {
        return own;
    }
    own | board.side(turn.other()) | home_squares(board, turn)
}
