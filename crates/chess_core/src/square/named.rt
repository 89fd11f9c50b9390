//! The squares by name.
ghost use Rattle.std.specs.Prelude.{◌≡◌};
ghost use Rattle.chess_core.specs.Squares.{squares};

use crate::square::Square;

impl Square {
    pub const A1: Square = Square { number: 0 };

    pub const B1: Square = Square { number: 1 };

    pub const C1: Square = Square { number: 2 };

    pub const D1: Square = Square { number: 3 };

    pub const E1: Square = Square { number: 4 };

    pub const F1: Square = Square { number: 5 };

    pub const G1: Square = Square { number: 6 };

    pub const H1: Square = Square { number: 7 };

    pub const A2: Square = Square { number: 8 };

    pub const B2: Square = Square { number: 9 };

    pub const C2: Square = Square { number: 10 };

    pub const D2: Square = Square { number: 11 };

    pub const E2: Square = Square { number: 12 };

    pub const F2: Square = Square { number: 13 };

    pub const G2: Square = Square { number: 14 };

    pub const H2: Square = Square { number: 15 };

    pub const A3: Square = Square { number: 16 };

    pub const B3: Square = Square { number: 17 };

    pub const C3: Square = Square { number: 18 };

    pub const D3: Square = Square { number: 19 };

    pub const E3: Square = Square { number: 20 };

    pub const F3: Square = Square { number: 21 };

    pub const G3: Square = Square { number: 22 };

    pub const H3: Square = Square { number: 23 };

    pub const A4: Square = Square { number: 24 };

    pub const B4: Square = Square { number: 25 };

    pub const C4: Square = Square { number: 26 };

    pub const D4: Square = Square { number: 27 };

    pub const E4: Square = Square { number: 28 };

    pub const F4: Square = Square { number: 29 };

    pub const G4: Square = Square { number: 30 };

    pub const H4: Square = Square { number: 31 };

    pub const A5: Square = Square { number: 32 };

    pub const B5: Square = Square { number: 33 };

    pub const C5: Square = Square { number: 34 };

    pub const D5: Square = Square { number: 35 };

    pub const E5: Square = Square { number: 36 };

    pub const F5: Square = Square { number: 37 };

    pub const G5: Square = Square { number: 38 };

    pub const H5: Square = Square { number: 39 };

    pub const A6: Square = Square { number: 40 };

    pub const B6: Square = Square { number: 41 };

    pub const C6: Square = Square { number: 42 };

    pub const D6: Square = Square { number: 43 };

    pub const E6: Square = Square { number: 44 };

    pub const F6: Square = Square { number: 45 };

    pub const G6: Square = Square { number: 46 };

    pub const H6: Square = Square { number: 47 };

    pub const A7: Square = Square { number: 48 };

    pub const B7: Square = Square { number: 49 };

    pub const C7: Square = Square { number: 50 };

    pub const D7: Square = Square { number: 51 };

    pub const E7: Square = Square { number: 52 };

    pub const F7: Square = Square { number: 53 };

    pub const G7: Square = Square { number: 54 };

    pub const H7: Square = Square { number: 55 };

    pub const A8: Square = Square { number: 56 };

    pub const B8: Square = Square { number: 57 };

    pub const C8: Square = Square { number: 58 };

    pub const D8: Square = Square { number: 59 };

    pub const E8: Square = Square { number: 60 };

    pub const F8: Square = Square { number: 61 };

    pub const G8: Square = Square { number: 62 };

    pub const H8: Square = Square { number: 63 };

    /// Returns the squares in order. It shows that each named square is where its name says.
    pub fn all() -> [Square; 64]
        ensures { result ≡ squares }
    {
        [
            Square::A1,
            Square::B1,
            Square::C1,
            Square::D1,
            Square::E1,
            Square::F1,
            Square::G1,
            Square::H1,
            Square::A2,
            Square::B2,
            Square::C2,
            Square::D2,
            Square::E2,
            Square::F2,
            Square::G2,
            Square::H2,
            Square::A3,
            Square::B3,
            Square::C3,
            Square::D3,
            Square::E3,
            Square::F3,
            Square::G3,
            Square::H3,
            Square::A4,
            Square::B4,
            Square::C4,
            Square::D4,
            Square::E4,
            Square::F4,
            Square::G4,
            Square::H4,
            Square::A5,
            Square::B5,
            Square::C5,
            Square::D5,
            Square::E5,
            Square::F5,
            Square::G5,
            Square::H5,
            Square::A6,
            Square::B6,
            Square::C6,
            Square::D6,
            Square::E6,
            Square::F6,
            Square::G6,
            Square::H6,
            Square::A7,
            Square::B7,
            Square::C7,
            Square::D7,
            Square::E7,
            Square::F7,
            Square::G7,
            Square::H7,
            Square::A8,
            Square::B8,
            Square::C8,
            Square::D8,
            Square::E8,
            Square::F8,
            Square::G8,
            Square::H8,
        ]
    }
}
