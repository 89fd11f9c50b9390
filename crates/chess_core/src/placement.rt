//! The men on the squares.
ghost use Rattle.std.specs.Prelude.{◌≡◌, IsSome, None, [], ◌∷◌};
ghost use Rattle.std.specs.List.{repeat};
ghost use Rattle.chess_core.specs.Diagrams.{is_kind_on};
ghost use Rattle.chess_core.specs.Position.{king_square, man_on, with_man, without_man};
ghost use Rattle.chess_core.specs.ties.Words.{side_of, squares_of, word};

use crate::man::{Colour, KINDS, Kind, Man};
use crate::square::{Square, Squares};
use std::marker::Model;

// A bitboard for each kind, at the kind's number.
type ByKind = [Squares; KINDS];

// A bitboard for each colour, at the colour's number.
type BySide = [Squares; 2];

/// The men on the squares, with bitboards of the men of each kind and of each colour, which make a
/// search for them needless. Contracts see the men square by square, a1 first.
#[derive(Clone, Copy, Debug)]
pub(crate) struct Placement {
    array: [Option<Man>; 64],
    by_kind: ByKind,
    by_side: BySide,
}

impl Model for Placement {
    ghost use Rattle.std.specs.Prelude.{List, Option};
    ghost use Rattle.chess_core.specs.declared.man.Man.{Man};

    ghost Value = { List (Option Man) };

    ghost use Rattle.chess_core.specs.ties.Kept.{Agrees, kind_bitboards, side_bitboards};
    ghost use Rattle.std.proofs.Common.{◌≡◌, length, sym};

    ghost view = { λ p. p.array };

    ghost invariant = { λ p. (length p.array ≡ 64) × Agrees p.array p.by_kind p.by_side };

    ghost inverse = { λ v. record {
      array = v;
      by_kind = kind_bitboards v;
      by_side = side_bitboards v;
    } };

    ghost inverse_ok = { λ p h i. record p {
      by_kind = sym h.1.kinds_are i;
      by_side = sym h.1.sides_are i;
    } };
}

impl Placement {
    // Returns the empty placement.
    pub(crate) fn none() -> Placement
        ensures { result ≡ repeat 64 (None ∷ []) }
    {
        Placement {
            array: [None; 64],
            by_kind: [0; KINDS],
            by_side: [0; 2],
        }
    }

    // Returns the man on a square, if there is one.
    pub(crate) fn on(&self, square: Square) -> Option<Man>
        ensures { result ≡ man_on self.now square }
    {
        self.array[square.index() as usize]
    }

    // Returns the squares of the men of this kind.
    pub(crate) fn of_kind(&self, kind: Kind) -> Squares
        ensures { result ≡ word (is_kind_on self.now kind) }
    {
        self.by_kind[kind.number()]
    }

    // Returns the squares of the men of this colour.
    #[tactic(auto, unfolding(crate::specs::ties::Words::side_of))]
    pub(crate) fn of_colour(&self, colour: Colour) -> Squares
        ensures { result ≡ side_of self.now colour }
    {
        self.by_side[colour.number()]
    }

    // Returns the squares of the men of this colour and kind.
    #[tactic(auto, unfolding(crate::specs::ties::Words::squares_of))]
    pub(crate) fn squares(&self, colour: Colour, kind: Kind) -> Squares
        ensures { result ≡ squares_of self.now colour kind }
    {
        self.by_side[colour.number()] & self.by_kind[kind.number()]
    }

    // Returns the square of the colour's king, the lowest if there are several.
    pub(crate) fn king_of(&self, colour: Colour) -> Option<Square>
        ensures { result ≡ king_square self.now colour }
    {
        let kings = self.squares(colour, Kind::King);
        if kings == 0 {
            None
        } else {
            Some(Square::numbered(kings.trailing_zeros() as u8))
        }
    }

    // Removes the man on the square.
    pub(crate) fn lift(&mut self, square: Square)
        requires { IsSome (man_on self.old square) }
        ensures { self.new ≡ without_man self.old square }
    {
        let index = square.index();
        if let Some(man) = self.array[index as usize] {
            let kind = man.kind.number();
            let side = man.colour.number();
            self.by_kind[kind] &= !(1u64 << index);
            self.by_side[side] &= !(1u64 << index);
            self.array[index as usize] = None;
        }
    }

    // Puts a man on an empty square.
    pub(crate) fn place(&mut self, square: Square, man: Man)
        requires { man_on self.old square ≡ None }
        ensures { self.new ≡ with_man self.old square man }
    {
        let index = square.index();
        let kind = man.kind.number();
        let side = man.colour.number();
        self.by_kind[kind] |= 1u64 << index;
        self.by_side[side] |= 1u64 << index;
        self.array[index as usize] = Some(man);
    }
}
