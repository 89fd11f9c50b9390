//! The squares that attackers reach over hurdles after one of them has left.
ghost use Rattle.std.specs.Prelude.{◌≡◌};
ghost use Rattle.std.specs.Int.Bits.{bit_and};
ghost use Rattle.chess_threats.specs.ties.KingAttack.{AreGuardsWithout};

use crate::king_attack::KingAttack;
use chess_attacks::words::only;
use chess_core::{Kind, Square, Squares};
use chess_flights::attackers::Attackers;
use chess_flights::by_kind::{ForKind, for_each_kind};
use chess_flights::guards::{leapt_squares, rider_reach};

// The squares that attackers reach (`guarded`), and the squares that riders among them reach (`ridden`).
#[derive(Clone, Copy)]
pub(crate) struct Guards {
    pub(crate) ridden: Squares,
    pub(crate) guarded: Squares,
}

// The squares of a kind that are among these.
#[derive(Drop)]
struct Among {
    squares: Squares,
}

impl ForKind<Squares> for Among {
    type Out = Squares;

    ghost holds = { λ f k squares w. w ≡ bit_and squares f.squares };

    #[inline(always)]
    fn of(&self, _kind: Kind, squares: Squares) -> Squares {
        squares & self.squares
    }
}

// Returns the squares that attackers near the region reach after the one on `from` has left.
pub(crate) fn guards_without(king_attack: &KingAttack, from: Square, region: Squares) -> Guards
    ensures { AreGuardsWithout king_attack.now from region result }
{
    let squares = !only(Some(from));
    let hurdles = king_attack.hurdles & squares;
    let men = Attackers {
        squares: for_each_kind(&Among { squares }, &king_attack.men.squares),
        ..king_attack.men
    };
    let ridden = rider_reach(hurdles, &men, region);
    Guards {
        ridden,
        guarded: ridden | leapt_squares(hurdles, &men, region),
    }
}
